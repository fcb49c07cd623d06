//! A ring with watches on its ports, over which a script is run.
ghost use Rattle.std.specs.Prelude.{◌≡◌, ◌+◌, ◌≤◌, ◌++◌, List, [], length};
ghost use Rattle.sdh_circuits.specs.declared.PortId.{PortId};
ghost use Rattle.sdh_node.specs.Node.{Node as AddDrop};
ghost use Rattle.sdh_node.specs.Rings.Held.{HeldRing};
ghost use Rattle.sdh_path.specs.History.{Given};
ghost use Rattle.sdh_watch.specs.Shows.{Watched};
ghost use Rattle.sdh_watch.specs.Watching.{watched};
ghost use Rattle.sdh_watch.specs.Scripts.{watch_walk};
ghost use Rattle.sdh_watch.specs.Lines.{watched_text};
ghost use Rattle.sdh_watch.specs.Ports.{AreWatching};
ghost use Rattle.sdh_scripts.specs.Ports.{lines_room};
ghost use Rattle.sdh_watch.specs.Running.{MayWatch};

use crate::ports::{WatchPair, put_watches, watch_rounds};
use sdh_plan::Step;
use sdh_plant::Plant;
use sdh_report::Text;
use sdh_ring::{PlantFault, Ring};
use sdh_scripts::{StepError, Teller, change, put_settle};

/// A ring, and the watches on its ports.
#[derive(Drop)]
pub struct WatchRun {
    pub ring: Ring,
    pub watches: Vec<WatchPair>,
}

// Appends the line of settle step `number`, which ended after `rounds` rounds of the ring, and the lines of its
// watches.
fn put_step(text: &mut Text, ring: &Ring, number: u32, rounds: u64, watches: &Vec<WatchPair>)
    requires ran { 1 ≤ rounds }
    requires many { length watches.now.items ≡ length ring.now.circuits.circuits }
    requires room { lines_room (length ring.now.circuits.circuits) ≤ text.old.room }
    ensures bytes { (mid : HeldRing) (heard : PortId → List Given)
        → rounds ≡ mid.rounds → AreWatching ring.now.circuits.circuits heard watches.now.items
        → text.new.bytes ≡ text.old.bytes ++ watched_text (watched number mid ring.now heard) }
    ensures room { text.old.room ≤ text.new.room + lines_room (length ring.now.circuits.circuits) }
{
    put_settle(text, number, rounds);
    put_watches(text, ring, watches);
}

impl<P: Plant> Teller<Text, P> for WatchRun {
    ghost Node = { AddDrop };

    ghost Told = { Watched };

    ghost walk = { watch_walk };

    ghost ring = { λ r. r.ring };

    ghost text_of = { λ r told. watched_text told };

    ghost begun_of = { λ r told. [] };

    ghost room = { λ r. lines_room (length r.ring.circuits.circuits) };

    ghost MayRun = { MayWatch };

    fn change(&mut self, plant: &mut P, step: Step) -> Result<(), PlantFault> {
        change(&mut self.ring, plant, step)?;
        Ok(())
    }

    fn settle(
        &mut self,
        plant: &mut P,
        limit: u32,
        number: u32,
        output: &mut Text,
    ) -> Result<(), StepError> {
        self.ring.settle(plant, limit)?;
        let rounds = self.ring.rounds();
        match watch_rounds(&mut self.ring, plant, &mut self.watches) {
            Ok(()) => {
                put_step(output, &self.ring, number + 1, rounds, &self.watches);
                Ok(())
            }
            Err(_) => Err(StepError::PlantFault),
        }
    }

    ghost few = { λ number later r f may. may.ring_may.steps_fit.0.few_settles };
}
