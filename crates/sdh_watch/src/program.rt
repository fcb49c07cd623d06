//! What the program does with a plan.
ghost use Rattle.std.specs.Prelude.{refl};
ghost use Rattle.sdh_scripts.specs.NewRuns.{IsRunOfPlan};
ghost use Rattle.sdh_programs.specs.Calls.{never_cut};
ghost use Rattle.sdh_watch.specs.Shows.{Watched};
ghost use Rattle.sdh_watch.specs.Running.{running_ring};
ghost use Rattle.sdh_watch.specs.Plans.{watch_account};
ghost use Rattle.sdh_watch.specs.Headline.{watching};

use crate::run::new_run;
use crate::script::WatchRun;
use sdh_plan::Plan;
use sdh_plant::Plant;
use sdh_programs::{Deed, Program, end_as_script};
use sdh_report::{Status, Text};
use sdh_shell::is_run;
use std::alloc::{AllocError, Global};

/// The one thing that the program does: it runs plans with watches.
#[derive(Clone, Copy, Debug)]
pub struct Watching;

impl<'a, P: Plant> Program<'a, Text, P> for Watching {
    type Ending = Status;

    type Listing = ();

    type Run = WatchRun;

    ghost Ask = { Unit {0} };

    ghost Told = { Watched };

    ghost program = { watching };

    // The text is written once the run has ended, so that no write that fails cuts the run off.
    ghost cut = { never_cut };

    ghost ask_of = { λ asked. tt };

    ghost Begins = { λ listing plan run. IsRunOfPlan running_ring watch_account plan run };

    ghost Leaves = { λ told end ring. Unit {0} };

    ghost Reserves = { λ old new. Unit {0} };

    fn usage() -> &'a [u8] {
        b"usage: sdhwatch run"
    }

    fn asked(words: &'a [String]) -> Option<Watching> {
        if is_run(words) { Some(Watching) } else { None }
    }

    fn own_plan(&self, _alloc: Global) -> Result<Option<Plan>, AllocError> {
        Ok(None)
    }

    fn deed(
        self,
        alloc: Global,
        plan: Plan,
        output: &mut Text,
    ) -> Result<Deed<(), WatchRun, Status>, AllocError> {
        let run = new_run(alloc, plan, output)?;
        Ok(Deed::Run((), run))
    }

    fn close(self, _listing: (), _run: &WatchRun, status: Status, line: &mut Text) -> Status {
        end_as_script(status, line)
    }

    fn laws(self) {
        crate::laws::watches_are_clean();
        crate::laws::scripts_settle();
    }

    ghost same_endings = { refl };

    ghost reserves_none = { λ o. tt };
}
