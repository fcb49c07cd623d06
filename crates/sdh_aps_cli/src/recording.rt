//! The rounds of a settle step, recorded one after the other.
ghost use Rattle.std.specs.Prelude.{◌≡◌};
ghost use Rattle.sdh_aps_cli.specs.Recording.{IsRecorded, IsCut, NoneFailed, OneFailed};
ghost use Rattle.sdh_aps_cli.specs.Keeping.{recorded_same};

use crate::recorder::SignalRecorder;
use sdh_outside::{Sink, write_text};
use sdh_plant::Plant;
use sdh_ring::Running;
use sdh_rounds::{Recorder, Stopped};

impl<W: Sink, P: Plant> Recorder<Running, P, W> for SignalRecorder {
    ghost Records = { λ first begun at k r w. (r.listing ≡ first.listing)
        × IsRecorded first.listing at k r.before.items r.text (W.written begun) (W.written w) × NoneFailed W.exact (W.faults begun) (W.faults w) };

    ghost Stops = { λ first begun at k r w. IsCut first.listing at k (W.written begun) (W.written w)
        × OneFailed W.exact (W.faults begun) (W.faults w) };

    fn note(&mut self, ring: &Running, _plant: &P, log: &mut W) -> Result<(), Stopped> {
        self.look(ring);
        match write_text(log, self.text.bytes()) {
            Ok(()) => Ok(()),
            Err(_) => Err(Stopped),
        }
    }

    ghost same = { λ first begun at bt k r w same kept.
        (kept.0, recorded_same first.listing at bt k r.before.items r.text (W.written begun) (W.written w) same kept.1, kept.2) };
}
