//! What the program does with a plan.
ghost use Rattle.std.specs.Prelude.{◌≡◌, ◌≤◌, refl, length};
ghost use Rattle.sdh_scripts.specs.NewRuns.{IsRunOfPlan};
ghost use Rattle.sdh_programs.specs.Calls.{never_cut};
ghost use Rattle.sdh_outage_cli.specs.Outages.{Outaged};
ghost use Rattle.sdh_outage_cli.specs.Running.{running_ring};
ghost use Rattle.sdh_outage_cli.specs.Plans.{outage_account};
ghost use Rattle.sdh_outage_cli.specs.Words.{OutageAsk as Asked, outage_ask_of as what_is_asked};
ghost use Rattle.sdh_outage_cli.specs.Headline.{listening};

use crate::listing::OutageListing;
use crate::run::new_run;
use crate::script::OutageRun;
use crate::words::{Command, command_of, listing_of};
use sdh_plan::Plan;
use sdh_plant::Plant;
use sdh_programs::{Deed, Program, end_as_script};
use sdh_report::{Status, Text};
use std::alloc::{AllocError, Global};

impl<'a, P: Plant> Program<'a, Text, P> for Command<'a> {
    type Ending = Status;

    type Listing = OutageListing;

    type Run = OutageRun;

    ghost Ask = { Asked };

    ghost Told = { Outaged };

    ghost program = { listening };

    // The text is written once the run has ended, so that no write that fails cuts the run off.
    ghost cut = { never_cut };

    ghost ask_of = { what_is_asked };

    ghost Begins = { λ listing plan run. IsRunOfPlan running_ring outage_account plan run × (run.runner.listing ≡ listing) };

    ghost Leaves = { λ told end ring. Unit {0} };

    ghost Reserves = { λ old new. Unit {0} };

    fn usage() -> &'a [u8]
        ensures line { result.now ≡ listening.usage }
        ensures short { length result.now ≤ 95 }
    {
        b"usage: sdhoutage run, trace NAME END"
    }

    fn asked(words: &'a [String]) -> Option<Command<'a>> {
        command_of(words)
    }

    fn own_plan(&self, _alloc: Global) -> Result<Option<Plan>, AllocError> {
        Ok(None)
    }

    fn deed(
        self,
        alloc: Global,
        plan: Plan,
        output: &mut Text,
    ) -> Result<Deed<OutageListing, OutageRun, Status>, AllocError> {
        match listing_of(self, &plan) {
            Some(listing) => {
                let run = new_run(alloc, plan, listing, output)?;
                Ok(Deed::Run(listing, run))
            }
            None => Ok(Deed::Refuse(Status::NoSuchPort)),
        }
    }

    fn close(
        self,
        _listing: OutageListing,
        _run: &OutageRun,
        status: Status,
        line: &mut Text,
    ) -> Status {
        end_as_script(status, line)
    }

    fn laws(self) {
        sdh_owed::scripts_settle();
    }

    ghost same_endings = { refl };

    ghost reserves_none = { λ o. tt };
}
