//! A ring over which a script is run, with the frames of one fibre written.
ghost use Rattle.sdh_node.specs.Node.{Node as AddDrop};
ghost use Rattle.sdh_aps_cli.specs.Frames.{frames_bytes};
ghost use Rattle.sdh_aps_cli.specs.Signalled.{Signalled};
ghost use Rattle.sdh_aps_cli.specs.Scripts.{signalling_walk};
ghost use Rattle.sdh_aps_cli.specs.Running.{MaySend};

use crate::frames::FrameRecorder;
use sdh_outside::Sink;
use sdh_plan::Step;
use sdh_plant::LendingPlant;
use sdh_ring::{PlantFault, Ring};
use sdh_scripts::{StepError, Teller, change};

/// A ring, and the recorder that writes its frames.
#[derive(Drop)]
pub struct FrameRun {
    pub ring: Ring,
    pub recorder: FrameRecorder,
}

impl<W: Sink, P: LendingPlant> Teller<W, P> for FrameRun {
    ghost Node = { AddDrop };

    ghost Told = { Signalled };

    ghost walk = { signalling_walk };

    ghost ring = { λ r. r.ring };

    ghost text_of = { λ r told. frames_bytes r.recorder.ask told.sent };

    ghost begun_of = { λ r told. frames_bytes r.recorder.ask told.sent };

    ghost room = { λ r. 0 };

    ghost MayRun = { MaySend };

    fn change(&mut self, plant: &mut P, step: Step) -> Result<(), PlantFault> {
        change(&mut self.ring, plant, step)?;
        Ok(())
    }

    fn settle(
        &mut self,
        plant: &mut P,
        limit: u32,
        _number: u32,
        output: &mut W,
    ) -> Result<(), StepError> {
        let Ok(ended) = self
            .ring
            .settle_recording(plant, limit, &mut self.recorder, output)
        else {
            return Err(StepError::WriteFault);
        };
        ended?;
        Ok(())
    }

    ghost few = { λ number later r f may. may.0.steps_fit.0.few_settles };
}
