//! A ring of add-drop multiplexers over which a script is run.
ghost use Rattle.std.specs.Prelude.{[], length};
ghost use Rattle.sdh_node.specs.Node.{Node as AddDrop};
ghost use Rattle.sdh_report.specs.Reports.{Report, listed};
ghost use Rattle.sdh_owed.specs.Scripts.{adm_walk};
ghost use Rattle.sdh_cli.specs.Room.{report_room};
ghost use Rattle.sdh_cli.specs.Running.{MayRun};

use crate::reports::put_report;
use sdh_plan::Step;
use sdh_plant::Plant;
use sdh_report::{Listing, Text};
use sdh_ring::{PlantFault, Ring};
use sdh_scripts::{StepError, Teller, change};

/// A ring, and what is listed of the report of each settle step.
#[derive(Drop)]
pub struct RingRun {
    pub ring: Ring,
    pub listing: Listing,
}

impl<P: Plant> Teller<Text, P> for RingRun {
    ghost Node = { AddDrop };

    ghost Told = { Report };

    ghost walk = { adm_walk };

    ghost ring = { λ r. r.ring };

    ghost text_of = { λ r told. listed r.listing told };

    ghost begun_of = { λ r told. [] };

    ghost room = { λ r. report_room r.listing (length r.ring.ids) (length r.ring.circuits.circuits) };

    ghost MayRun = { MayRun };

    fn change(&mut self, plant: &mut P, step: Step) -> Result<(), PlantFault> {
        change(&mut self.ring, plant, step)?;
        Ok(())
    }

    fn settle(
        &mut self,
        plant: &mut P,
        limit: u32,
        number: u32,
        output: &mut Text,
    ) -> Result<(), StepError> {
        self.ring.settle(plant, limit)?;
        put_report(output, &self.ring, number + 1, self.listing);
        Ok(())
    }

    ghost few = { λ number later r f may. may.1.steps_fit.0.few_settles };
}
