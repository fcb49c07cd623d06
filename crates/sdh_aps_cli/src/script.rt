//! A ring over which a script is run, with the lines of each round written.
ghost use Rattle.sdh_node.specs.Node.{Node as AddDrop};
ghost use Rattle.sdh_aps_cli.specs.Signalled.{Signalled};
ghost use Rattle.sdh_aps_cli.specs.Scripts.{signalling_walk};
ghost use Rattle.sdh_aps_cli.specs.Listing.{begun_text, ended_text};
ghost use Rattle.sdh_aps_cli.specs.Running.{MayShow};

use crate::recorder::SignalRecorder;
use sdh_outside::{Sink, write_text};
use sdh_plan::Step;
use sdh_plant::Plant;
use sdh_ring::{PlantFault, Ring};
use sdh_scripts::{StepError, Teller, change};

/// A ring, and what records its rounds.
#[derive(Drop)]
pub struct SignalRun {
    pub ring: Ring,
    pub recorder: SignalRecorder,
}

impl<W: Sink, P: Plant> Teller<W, P> for SignalRun {
    ghost Node = { AddDrop };

    ghost Told = { Signalled };

    ghost walk = { signalling_walk };

    ghost ring = { λ r. r.ring };

    ghost text_of = { λ r told. ended_text r.recorder.listing told };

    ghost begun_of = { λ r told. begun_text r.recorder.listing told };

    ghost room = { λ r. 0 };

    ghost MayRun = { MayShow };

    fn change(&mut self, plant: &mut P, step: Step) -> Result<(), PlantFault> {
        change(&mut self.ring, plant, step)?;
        Ok(())
    }

    fn settle(
        &mut self,
        plant: &mut P,
        limit: u32,
        number: u32,
        output: &mut W,
    ) -> Result<(), StepError> {
        self.recorder.begin(&self.ring);
        let Ok(ended) = self
            .ring
            .settle_recording(plant, limit, &mut self.recorder, output)
        else {
            return Err(StepError::WriteFault);
        };
        ended?;
        self.recorder.end(&self.ring, number + 1);
        match write_text(output, self.recorder.text.bytes()) {
            Ok(()) => Ok(()),
            Err(_) => Err(StepError::WriteFault),
        }
    }

    ghost few = { λ number later r f may. may.0.steps_fit.0.few_settles };
}
