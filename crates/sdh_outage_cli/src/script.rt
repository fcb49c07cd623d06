//! A ring with listeners on its ports, over which a script is run.
ghost use Rattle.std.specs.Prelude.{ℕ, ◌≡◌, ◌+◌, ◌^◌, ◌≤◌, false, [], OnOk, length};
ghost use Rattle.sdh_plant.specs.Fibres.{IsPrepared};
ghost use Rattle.sdh_rounds.specs.Outcome.{IsStep};
ghost use Rattle.sdh_node.specs.Rings.Rounds.{World, world};
ghost use Rattle.sdh_node.specs.Stations.{adm};
ghost use Rattle.sdh_ring.specs.Observed.{Hears};
ghost use Rattle.sdh_ring.specs.Promises.{KeepsPromises};
ghost use Rattle.sdh_node.specs.Node.{Node as AddDrop};
ghost use Rattle.sdh_outage_cli.specs.Outages.{Outaged};
ghost use Rattle.sdh_outage_cli.specs.Scripts.{outage_walk};
ghost use Rattle.sdh_outage_cli.specs.Lines.{outages_listed};
ghost use Rattle.sdh_outage_cli.specs.Ports.{AreListening, ports_by_node};
ghost use Rattle.sdh_outage_cli.specs.Running.{outage_lines_room, MayListen};

use crate::lines::put_step;
use crate::listeners::Listeners;
use crate::listing::OutageListing;
use crate::ports::begin_all;
use sdh_plan::Step;
use sdh_plant::Plant;
use sdh_report::Text;
use sdh_ring::{PlantFault, Ring, SettleError};
use sdh_rounds::{Nowhere, Stopped};
use sdh_scripts::{StepError, Teller, change};

/// A ring, the listeners on its ports, and what is listed of each settle step.
#[derive(Drop)]
pub struct OutageRun {
    pub ring: Ring,
    pub listeners: Listeners,
    pub listing: OutageListing,
}

// Runs the rounds of a settle step, and lets the listeners look at the nodes after each one. They never stop the step.
fn settle_with<P: Plant>(
    ring: &mut Ring,
    plant: &mut P,
    limit: u32,
    listeners: &mut Listeners,
) -> Result<(), SettleError>
    requires prepared { IsPrepared ring.old.settings.rate (length ring.old.ids) (P.fibres plant.old) }
    requires whole { ring.old.broken ≡ false }
    requires some { 1 ≤ limit }
    requires few { limit ≤ 65536 }
    requires room { ring.old.rounds + limit ≤ 2 ^ 32 }
    requires ready { (at : ℕ → World) → at 0 ≡ world ring.old (P.fibres plant.old)
        → AreListening at 0 listeners.old.items.items listeners.old.streams.pairs.items
        × (listeners.old.rooms.counts ≡ ports_by_node (at 0).ring) }
    ensures step { IsStep adm P.exact (world ring.old (P.fibres plant.old)) limit result (world ring.new (P.fibres plant.new))
        (P.faults plant.old) (P.faults plant.new) }
    ensures laws { KeepsPromises (world ring.old (P.fibres plant.old)) limit result (world ring.new (P.fibres plant.new)) }
    ensures heard { OnOk result
        (Hears (λ at k. AreListening at k listeners.new.items.items listeners.new.streams.pairs.items
        × (listeners.new.rooms.counts ≡ ports_by_node (at k).ring))
        (world ring.old (P.fibres plant.old)) limit (world ring.new (P.fibres plant.new))) }
{
    match ring.settle_recording(plant, limit, listeners, &mut Nowhere) {
        Ok(ended) => ended,
        Err(Stopped) => Err(SettleError::Unsettled),
    }
}

impl<P: Plant> Teller<Text, P> for OutageRun {
    ghost Node = { AddDrop };

    ghost Told = { Outaged };

    ghost walk = { outage_walk };

    ghost ring = { λ r. r.ring };

    ghost text_of = { λ r told. outages_listed r.listing told };

    ghost begun_of = { λ r told. [] };

    ghost room = { λ r. outage_lines_room r.listing (length r.ring.circuits.circuits) };

    ghost MayRun = { MayListen };

    fn change(&mut self, plant: &mut P, step: Step) -> Result<(), PlantFault> {
        change(&mut self.ring, plant, step)?;
        Ok(())
    }

    fn settle(
        &mut self,
        plant: &mut P,
        limit: u32,
        number: u32,
        output: &mut Text,
    ) -> Result<(), StepError> {
        begin_all(&self.ring, &mut self.listeners.items);
        settle_with(&mut self.ring, plant, limit, &mut self.listeners)?;
        put_step(
            output,
            &self.ring,
            number + 1,
            &self.listeners.items,
            self.listing,
        );
        Ok(())
    }

    ghost few = { λ number later r f may. may.1.ring_may.steps_fit.0.few_settles };
}
