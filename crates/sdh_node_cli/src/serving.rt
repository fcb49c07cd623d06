//! The records of a stream, one after the other.
ghost use Rattle.std.specs.Prelude.{◌≡◌, ◌≢◌, [], List, ℕ};
ghost use Rattle.std.specs.Io.KnownBytes.{Appends};
ghost use Rattle.sdh_node_cli.specs.Faults.{CountsFault};
ghost use Rattle.sdh_node_cli.specs.Outcome.{Served, CutShort};

use crate::bench::Bench;
use crate::ending::Flaw;
use crate::rooms::Rooms;
use crate::stop::Stop;
use crate::turn::turn;
use sdh_outside::{Sink, Source};

/// The most records of a stream that are done.
const RECORDS_MAX: u64 = 4_294_967_295;

/// Why no more records were done, and the number of the first one that wasn't, counted from 1.
#[derive(Clone, Copy)]
pub struct Stopped {
    pub stop: Stop,
    pub number: u64,
}

/// Does the records of a source, one after the other, and writes the answer to each before it reads more.
pub fn serve<R: Source, W: Sink>(
    bench: &mut Bench,
    rooms: &mut Rooms,
    source: &mut R,
    sink: &mut W,
) -> Stopped
    requires fresh { bench.old.node.rounds ≡ 0 }
    requires rate { rooms.old.inbox.rate ≡ bench.old.node.settings.rate }
    ensures served { result.stop ≢ Stop.WriteFault → (text : List ℕ)
        × Served bench.old [] (R.left source.old) (R.left source.new) result.number result.stop text
        × Appends (W.written sink.old) (W.written sink.new) text }
    ensures cut { result.stop ≡ Stop.WriteFault
        → CutShort bench.old [] (R.left source.old) (R.left source.new) (W.written sink.old) (W.written sink.new) }
    ensures reads { CountsFault R.exact (R.faults source.old) (R.faults source.new) (result.stop ≡ Stop.ReadFault) }
    ensures writes { CountsFault W.exact (W.faults sink.old) (W.faults sink.new) (result.stop ≡ Stop.WriteFault) }
{
    for done in 0..RECORDS_MAX {
        match turn(bench, rooms, source, sink) {
            Ok(()) => {}
            Err(stop) => return Stopped {
                stop,
                number: done + 1,
            },
        }
    }
    Stopped {
        stop: Stop::Bad(Flaw::Many),
        number: RECORDS_MAX + 1,
    }
}
