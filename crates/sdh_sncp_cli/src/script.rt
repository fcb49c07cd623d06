//! A path ring over which a script is run.
ghost use Rattle.std.specs.Prelude.{[], length};
ghost use Rattle.sdh_report.specs.Reports.{Report, report_text};
ghost use Rattle.sdh_scripts.specs.Ports.{lines_room};
ghost use Rattle.sdh_sncp.specs.Node.{PathNode};
ghost use Rattle.sdh_sncp_cli.specs.Walking.{path_walk};
ghost use Rattle.sdh_sncp_cli.specs.Running.{MayRunPath};

use crate::reports::put_report;
use sdh_plan::Step;
use sdh_plant::Plant;
use sdh_report::Text;
use sdh_rounds::PlantFault;
use sdh_scripts::{StepError, Teller};
use sdh_sncp::PathRing;

/// A path ring, which writes a report of each settle step.
#[derive(Drop)]
pub struct PathRun {
    pub ring: PathRing,
}

impl<P: Plant> Teller<Text, P> for PathRun {
    ghost Node = { PathNode };

    ghost Told = { Report };

    ghost walk = { path_walk };

    ghost ring = { λ r. r.ring };

    ghost text_of = { λ r told. report_text told };

    ghost begun_of = { λ r told. [] };

    ghost room = { λ r. lines_room (length r.ring.circuits.circuits) };

    ghost MayRun = { MayRunPath };

    fn change(&mut self, plant: &mut P, step: Step) -> Result<(), PlantFault> {
        match step {
            Step::Fibre(event) => Ok(plant.apply(event)?),
            _ => Ok(()),
        }
    }

    fn settle(
        &mut self,
        plant: &mut P,
        limit: u32,
        number: u32,
        output: &mut Text,
    ) -> Result<(), StepError> {
        self.ring.settle(plant, limit)?;
        put_report(output, &self.ring, number + 1);
        Ok(())
    }

    ghost few = { λ number later r f may. may.steps_fit.0 };
}
