//! What the program does with a plan.
ghost use Rattle.std.specs.Prelude.{◌≡◌, ◌≤◌, ◌++◌, refl, length};
ghost use Rattle.sdh_scripts.specs.NewRuns.{IsRunOfPlan};
ghost use Rattle.sdh_aps_cli.specs.Endings.{frames_end, frames_line};
ghost use Rattle.sdh_aps_cli.specs.Plans.{Piece, IsCutRun, HasRounds, signalling_account, has_rounds, ends_by, last_line_after};
ghost use Rattle.sdh_aps_cli.specs.Running.{running_ring, listing_in};
ghost use Rattle.sdh_aps_cli.specs.Headline.{signalling};
ghost use Rattle.sdh_aps_cli.specs.declared.listing.SignalAsk.{SignalAsk as Asked};

use crate::ending::Ending;
use crate::listing::{PlanListing, SignalAsk};
use crate::run::new_run;
use crate::running::PlanRun;
use crate::window::FrameWindow;
use crate::words::{asked, listing_of};
use sdh_outside::Sink;
use sdh_plan::Plan;
use sdh_plant::LendingPlant;
use sdh_programs::{Deed, Program};
use sdh_report::{Status, Text};
use sdh_shell::Ends;
use std::alloc::{AllocError, Global};

// Returns the ending of a run of this number of rounds whose frames are written.
fn frames_ending(ask: &FrameWindow, rounds: u64, status: Status) -> Ending
    ensures { result ≡ frames_end (has_rounds ask.now rounds) status }
{
    if let Status::PlantFault = status {
        return Ending::Shared(Status::PlantFault);
    }
    if u64::from(ask.first) + u64::from(ask.count) <= rounds {
        Ending::Shared(Status::Ok)
    } else {
        Ending::NoSuchRound
    }
}

// Returns the ending of a run of this number of rounds, by what is written of it.
fn ending_after(listing: &PlanListing, rounds: u64, status: Status) -> Ending
    ensures { result ≡ ends_by listing.now rounds status }
{
    match listing {
        PlanListing::Lines(_) => Ending::Shared(status),
        PlanListing::Frames(ask) => frames_ending(ask, rounds, status),
    }
}

// Appends the last line after frames: there is none where all that are asked for were written.
fn put_after_frames(ending: Ending, line: &mut Text)
    requires room { 96 ≤ line.old.room }
    ensures line { line.new.bytes ≡ line.old.bytes ++ frames_line ending }
    ensures short { length (frames_line ending) ≤ 96 }
{
    match ending {
        Ending::Shared(Status::Ok) => {}
        _ => ending.put_line(line),
    }
}

// Appends the last line, after what is written of a run.
fn put_after(listing: &PlanListing, ending: Ending, line: &mut Text)
    requires room { 96 ≤ line.old.room }
    ensures line { line.new.bytes ≡ line.old.bytes ++ last_line_after listing.now ending }
    ensures short { length (last_line_after listing.now ending) ≤ 96 }
{
    match listing {
        PlanListing::Lines(_) => ending.put_line(line),
        PlanListing::Frames(_) => put_after_frames(ending, line),
    }
}

impl<'a, W: Sink, P: LendingPlant> Program<'a, W, P> for SignalAsk {
    type Ending = Ending;

    type Listing = PlanListing;

    type Run = PlanRun;

    ghost Ask = { Asked };

    ghost Told = { Piece };

    ghost program = { signalling };

    ghost cut = { IsCutRun };

    ghost ask_of = { λ ask. ask };

    ghost Begins = { λ listing plan run. IsRunOfPlan running_ring signalling_account plan run × (listing_in run.runner ≡ listing) };

    ghost Leaves = { HasRounds };

    // Nothing is kept in memory, so no memory is taken for the sink.
    ghost Reserves = { λ old new. new ≡ old };

    fn usage() -> &'a [u8]
        ensures line { result.now ≡ signalling.usage }
        ensures short { length result.now ≤ 95 }
    {
        b"usage: sdhaps run, node ID, frames ID SIDE FIRST COUNT"
    }

    fn asked(words: &'a [String]) -> Option<SignalAsk> {
        asked(words)
    }

    fn own_plan(&self, _alloc: Global) -> Result<Option<Plan>, AllocError> {
        Ok(None)
    }

    fn deed(
        self,
        alloc: Global,
        plan: Plan,
        _output: &mut W,
    ) -> Result<Deed<PlanListing, PlanRun, Ending>, AllocError> {
        match listing_of(self, plan.map()) {
            Some(listing) => {
                let run = new_run(alloc, plan, listing)?;
                Ok(Deed::Run(listing, run))
            }
            None => Ok(Deed::Refuse(Ending::NoSuchNode)),
        }
    }

    fn close(self, listing: PlanListing, run: &PlanRun, status: Status, line: &mut Text) -> Ending {
        let ending = ending_after(&listing, run.ring().rounds(), status);
        put_after(&listing, ending, line);
        ending
    }

    fn laws(self) {
        sdh_owed::scripts_settle();
        crate::laws::scripts_go_as_signals();
        crate::laws::steps_go_as_signals();
    }

    ghost same_endings = { refl };

    ghost reserves_none = { λ o. refl };
}
