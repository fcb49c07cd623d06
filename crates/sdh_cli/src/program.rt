//! What the program does with a plan.
ghost use Rattle.std.specs.Prelude.{◌≡◌, ◌+◌, ◌≤◌, refl, IfOk, IfSome, length};
ghost use Rattle.sdh_report.specs.Reports.{Report};
ghost use Rattle.sdh_scripts.specs.NewRuns.{IsRunOfPlan};
ghost use Rattle.sdh_programs.specs.Calls.{never_cut};
ghost use Rattle.sdh_cli.specs.Tables.{tables_of};
ghost use Rattle.sdh_cli.specs.Room.{MayList};
ghost use Rattle.sdh_cli.specs.Running.{running_ring};
ghost use Rattle.sdh_cli.specs.Plans.{adm_account};
ghost use Rattle.sdh_cli.specs.Words.{Ask as Asked, ask_of as what_is_asked, listing_of};
ghost use Rattle.sdh_cli.specs.Outcome.{ringing};

use crate::run::new_run;
use crate::script::RingRun;
use crate::tables::table_text;
use crate::words::{Command, command_of};
use sdh_circuits::PortId;
use sdh_plan::{Plan, big_plan};
use sdh_plant::Plant;
use sdh_programs::{Deed, Program, end_as_script};
use sdh_report::{LINE_MAX, Listing, Status, Text};
use std::alloc::{AllocError, Global};

// Returns the squelch tables of a plan, with room for a last line, and makes room for both in the text that is written.
fn tables_for(alloc: Global, plan: &Plan, text: &mut Text) -> Result<Text, AllocError>
    ensures text { IfOk result (λ tables. tables.bytes ≡ tables_of plan.now) }
    ensures room { IfOk result (λ tables. (length tables.bytes + 96 ≤ text.new.room) × (96 ≤ tables.room)) }
    ensures bytes { text.new.bytes ≡ text.old.bytes }
{
    let tables = table_text(alloc, plan)?;
    text.make_room(tables.bytes().len() + LINE_MAX)?;
    Ok(tables)
}

// Returns what is listed of each report, or `None` for `check` and where the plan has no circuit of the name that is
// asked for.
fn listing_of(command: Command<'_>, plan: &Plan) -> Option<Listing>
    ensures listing { result ≡ listing_of (what_is_asked command.entry) plan.now }
    ensures may { IfSome result (λ listing. MayList (length plan.now.circuits) listing) }
{
    match command {
        Command::Run => Some(Listing::Reports),
        Command::Check => None,
        Command::Drop(name, end) => {
            let circuit = plan.circuits().at_port(name)?;
            Some(Listing::Port(PortId { circuit, end }))
        }
        Command::Big(_) => Some(Listing::Counts),
    }
}

impl<'a, P: Plant> Program<'a, Text, P> for Command<'a> {
    type Ending = Status;

    type Listing = Listing;

    type Run = RingRun;

    ghost Ask = { Asked };

    ghost Told = { Report };

    ghost program = { ringing };

    // The text is written once the run has ended, so that no write that fails cuts the run off.
    ghost cut = { never_cut };

    ghost ask_of = { what_is_asked };

    ghost Begins = { λ listing plan run. IsRunOfPlan running_ring adm_account plan run × (run.runner.listing ≡ listing) };

    ghost Leaves = { λ told end ring. Unit {0} };

    ghost Reserves = { λ old new. Unit {0} };

    fn usage() -> &'a [u8]
        ensures line { result.now ≡ ringing.usage }
        ensures short { length result.now ≤ 95 }
    {
        sdh_report::usage()
    }

    fn asked(words: &'a [String]) -> Option<Command<'a>> {
        command_of(words)
    }

    fn own_plan(&self, alloc: Global) -> Result<Option<Plan>, AllocError> {
        match *self {
            Command::Big(number) => {
                let plan = big_plan(alloc, number)?;
                Ok(Some(plan))
            }
            _ => Ok(None),
        }
    }

    fn deed(
        self,
        alloc: Global,
        plan: Plan,
        output: &mut Text,
    ) -> Result<Deed<Listing, RingRun, Status>, AllocError> {
        if let Command::Check = self {
            let tables = tables_for(alloc, &plan, output)?;
            return Ok(Deed::Write(tables));
        }
        match listing_of(self, &plan) {
            Some(listing) => {
                let run = new_run(alloc, plan, listing, output)?;
                Ok(Deed::Run(listing, run))
            }
            None => Ok(Deed::Refuse(Status::NoSuchPort)),
        }
    }

    fn close(self, _listing: Listing, _run: &RingRun, status: Status, line: &mut Text) -> Status {
        end_as_script(status, line)
    }

    fn laws(self) {
        sdh_owed::reports_are_owed();
        sdh_owed::scripts_settle();
        sdh_owed::healthy_scripts();
        sdh_owed::courses_are_told();
    }

    ghost same_endings = { refl };

    ghost reserves_none = { λ o. tt };
}
