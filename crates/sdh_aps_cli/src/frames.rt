//! What looks at the plant after each round, and writes the frames that are asked for.
ghost use Rattle.std.specs.Prelude.{◌≡◌};
ghost use Rattle.sdh_aps_cli.specs.Frames.{is_wanted};
ghost use Rattle.sdh_aps_cli.specs.FrameRecording.{FramesAreWritten, AreCut};
ghost use Rattle.sdh_aps_cli.specs.FrameKeeping.{written_same};
ghost use Rattle.sdh_aps_cli.specs.Recording.{NoneFailed, OneFailed};

use crate::window::FrameWindow;
use sdh_outside::{Sink, write_text};
use sdh_plant::LendingPlant;
use sdh_ring::Running;
use sdh_rounds::{Recorder, Stopped};

/// What writes the frames of the rounds that are asked for, each after the round in which it was sent.
#[derive(Drop)]
pub struct FrameRecorder {
    pub ask: FrameWindow,
}

// Returns whether a round is one of those that are asked for.
fn is_wanted(ask: &FrameWindow, round: u64) -> bool
    ensures { result ≡ is_wanted ask.now round }
{
    let first = u64::from(ask.first);
    first <= round && round < first + u64::from(ask.count)
}

impl<W: Sink, P: LendingPlant> Recorder<Running, P, W> for FrameRecorder {
    ghost Records = { λ first begun at k r w. (r.ask ≡ first.ask) × FramesAreWritten first.ask at k (W.written begun) (W.written w)
        × NoneFailed W.exact (W.faults begun) (W.faults w) };

    ghost Stops = { λ first begun at k r w. AreCut first.ask at k (W.written begun) (W.written w)
        × OneFailed W.exact (W.faults begun) (W.faults w) };

    fn note(&mut self, ring: &Running, plant: &P, log: &mut W) -> Result<(), Stopped> {
        let round = ring.rounds() - 1;
        if !is_wanted(&self.ask, round) {
            return Ok(());
        }
        let Some(frame) = plant.carried(self.ask.at, self.ask.side) else {
            return Ok(());
        };
        match write_text(log, frame.bytes()) {
            Ok(()) => Ok(()),
            Err(_) => Err(Stopped),
        }
    }

    ghost same = { λ first begun at bt k r w same kept.
        (kept.0, written_same first.ask at bt k (W.written begun) (W.written w) same kept.1, kept.2) };
}
