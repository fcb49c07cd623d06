//! What the program does with a plan.
ghost use Rattle.std.specs.Prelude.{◌≡◌, refl};
ghost use Rattle.sdh_report.specs.Reports.{Report};
ghost use Rattle.sdh_scripts.specs.NewRuns.{IsRunOfPlan};
ghost use Rattle.sdh_programs.specs.Calls.{never_cut};
ghost use Rattle.sdh_sncp.specs.Fixed.{AreAlone};
ghost use Rattle.sdh_sncp_cli.specs.Steps.{AreKnown};
ghost use Rattle.sdh_sncp_cli.specs.Running.{running_ring};
ghost use Rattle.sdh_sncp_cli.specs.Plans.{path_account};
ghost use Rattle.sdh_sncp_cli.specs.Outcome.{pathing};

use crate::ending::Ending;
use crate::run::new_run;
use crate::script::PathRun;
use crate::steps::first_strange;
use sdh_plan::Plan;
use sdh_plant::Plant;
use sdh_programs::{Deed, Program, end_as_script};
use sdh_report::{Status, Text};
use sdh_shell::is_run;
use sdh_sncp::PathError;
use std::alloc::{AllocError, Global};

/// The one thing that the program does: it runs plans over path rings.
#[derive(Clone, Copy, Debug)]
pub struct Pathing;

impl<'a, P: Plant> Program<'a, Text, P> for Pathing {
    type Ending = Ending;

    type Listing = ();

    type Run = PathRun;

    ghost Ask = { Unit {0} };

    ghost Told = { Report };

    ghost program = { pathing };

    // The text is written once the run has ended, so that no write that fails cuts the run off.
    ghost cut = { never_cut };

    ghost ask_of = { λ asked. tt };

    ghost Begins = { λ listing plan run. IsRunOfPlan running_ring path_account plan run × AreKnown plan.steps × AreAlone plan.circuits };

    ghost Leaves = { λ told end ring. Unit {0} };

    ghost Reserves = { λ old new. Unit {0} };

    fn usage() -> &'a [u8] {
        b"usage: sdhpath run"
    }

    fn asked(words: &'a [String]) -> Option<Pathing> {
        if is_run(words) { Some(Pathing) } else { None }
    }

    fn own_plan(&self, _alloc: Global) -> Result<Option<Plan>, AllocError> {
        Ok(None)
    }

    fn deed(
        self,
        alloc: Global,
        plan: Plan,
        output: &mut Text,
    ) -> Result<Deed<(), PathRun, Ending>, AllocError> {
        if let Some(step) = first_strange(plan.steps()) {
            return Ok(Deed::Refuse(Ending::NoSuchStep(step)));
        }
        match new_run(alloc, plan, output) {
            Ok(run) => Ok(Deed::Run((), run)),
            Err(PathError::Memory) => Err(AllocError),
            Err(PathError::SameSlot { first, second }) => {
                Ok(Deed::Refuse(Ending::SameSlot { first, second }))
            }
        }
    }

    fn close(self, _listing: (), _run: &PathRun, status: Status, line: &mut Text) -> Ending {
        end_as_script(status, line)
    }

    fn laws(self) {
        crate::laws::reports_are_due();
        crate::laws::path_scripts_settle();
    }

    ghost same_endings = { refl };

    ghost reserves_none = { λ o. tt };
}
