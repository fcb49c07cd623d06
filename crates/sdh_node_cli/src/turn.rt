//! One record, and what is written for it.
ghost use Rattle.std.specs.Prelude.{◌≡◌, ◌^◌, ◌<◌, [], Err, IfOk, IfErr, OnOk, OnErr};
ghost use Rattle.std.specs.Io.KnownBytes.{Appends};
ghost use Rattle.sdh_outside.specs.Writing.{AppendsFewer};
ghost use Rattle.sdh_report.specs.Written.{room_in};
ghost use Rattle.sdh_node_cli.specs.Faults.{CountsFault};
ghost use Rattle.sdh_node_cli.specs.Records.{IsRecord};
ghost use Rattle.sdh_node_cli.specs.Bench.{after_round, answer_to};
ghost use Rattle.sdh_node_cli.specs.Turns.{with_ahead, IsAhead, HasLine, Ran, StopsRound, RecordGoes, Halts, TurnStopsBy};

use crate::answer::Answer;
use crate::arriving::{Coming, take_both};
use crate::bench::Bench;
use crate::ending::Flaw;
use crate::line::next_line;
use crate::record::Record;
use crate::rooms::Rooms;
use crate::stop::Stop;
use sdh_outside::{Sink, Source, write_text};
use sdh_report::Text;

/// A record, and what was read with its line.
#[derive(Clone, Copy)]
struct Found {
    record: Record,
    /// The first byte of the frame from the west, where it was read with the line.
    first: Option<u8>,
}

// Reads the line of the next record into an empty text, and returns the record.
fn next_record<R: Source>(bench: &Bench, line: &mut Text, source: &mut R) -> Result<Found, Stop>
    requires empty { line.old.bytes ≡ [] }
    requires room { room_in line.old ≡ 65 }
    ensures line { IfOk result (λ found. HasLine bench.now line.new.bytes found.record found.first (R.left source.old) (R.left source.new)) }
    ensures form { IfOk result (λ found. IsRecord bench.now.circuits bench.now.at found.record) }
    ensures stop { IfErr result (λ why. Halts bench.now why (R.left source.old) (R.left source.new)) }
    ensures room { room_in line.new ≡ 65 }
    ensures reads { CountsFault R.exact (R.faults source.old) (R.faults source.new) (result ≡ Err Stop.ReadFault) }
{
    match next_line(source, line) {
        Ok(first) => match bench.record_of(line.bytes()) {
            Ok(record) => Ok(Found { record, first }),
            Err(reason) => Err(Stop::Bad(Flaw::Said(reason))),
        },
        Err(stop) => Err(stop),
    }
}

// Runs a round over what was kept for both sides, and writes its answer to the sink.
fn answer_round<W: Sink>(bench: &mut Bench, answer: &mut Answer, sink: &mut W) -> Result<(), Stop>
    requires few { bench.old.node.rounds < 2 ^ 32 }
    requires frames { answer.old.frames.rate ≡ bench.old.node.settings.rate }
    ensures bench { bench.new ≡ after_round bench.old }
    ensures ok { OnOk result (Appends (W.written sink.old) (W.written sink.new) (answer_to bench.old)) }
    ensures front { OnErr result (AppendsFewer (W.written sink.old) (W.written sink.new) (answer_to bench.old)) }
    ensures why { IfErr result (λ why. why ≡ Stop.WriteFault) }
    ensures frames { answer.new.frames.rate ≡ answer.old.frames.rate }
    ensures writes { CountsFault W.exact (W.faults sink.old) (W.faults sink.new) (result ≡ Err Stop.WriteFault) }
{
    answer.lines.clear();
    bench.run(answer);
    match write_text(sink, answer.bytes(bench.mode())) {
        Ok(()) => Ok(()),
        Err(_) => Err(Stop::WriteFault),
    }
}

// Runs a round over what came from the west and from the east, and writes its answer.
fn run_round<R: Source, W: Sink>(
    bench: &mut Bench,
    rooms: &mut Rooms,
    came: Coming,
    source: &mut R,
    sink: &mut W,
) -> Result<(), Stop>
    requires ahead { IsAhead came.west came.first }
    requires few { bench.old.node.rounds < 2 ^ 32 }
    requires rate { rooms.old.inbox.rate ≡ bench.old.node.settings.rate }
    ensures ran { OnOk result (Ran bench.old bench.new came.west came.east (with_ahead came.first (R.left source.old)) (R.left source.new)
        (W.written sink.old) (W.written sink.new)) }
    ensures stops { IfErr result (λ why. StopsRound bench.old came.west came.east why (with_ahead came.first (R.left source.old)) (R.left source.new)
        (W.written sink.old) (W.written sink.new)) }
    ensures rate { rooms.new.inbox.rate ≡ rooms.old.inbox.rate }
    ensures reads { CountsFault R.exact (R.faults source.old) (R.faults source.new) (result ≡ Err Stop.ReadFault) }
    ensures writes { CountsFault W.exact (W.faults sink.old) (W.faults sink.new) (result ≡ Err Stop.WriteFault) }
{
    let pair = &mut rooms.answer.frames;
    match take_both(bench, &mut rooms.inbox, pair, source, came) {
        Ok(()) => {}
        Err(stop) => return Err(stop),
    }
    match answer_round(bench, &mut rooms.answer, sink) {
        Ok(()) => Ok(()),
        Err(stop) => Err(stop),
    }
}

/// Reads one record, does it, and writes its answer, if it has one, before more is read.
pub fn turn<R: Source, W: Sink>(
    bench: &mut Bench,
    rooms: &mut Rooms,
    source: &mut R,
    sink: &mut W,
) -> Result<(), Stop>
    requires few { bench.old.node.rounds < 2 ^ 32 }
    requires rate { rooms.old.inbox.rate ≡ bench.old.node.settings.rate }
    ensures goes { OnOk result (RecordGoes bench.old bench.new (R.left source.old) (R.left source.new) (W.written sink.old) (W.written sink.new)) }
    ensures stops { IfErr result
        (λ why. TurnStopsBy bench.old why (R.left source.old) (R.left source.new) (W.written sink.old) (W.written sink.new)) }
    ensures rate { rooms.new.inbox.rate ≡ rooms.old.inbox.rate }
    ensures reads { CountsFault R.exact (R.faults source.old) (R.faults source.new) (result ≡ Err Stop.ReadFault) }
    ensures writes { CountsFault W.exact (W.faults sink.old) (W.faults sink.new) (result ≡ Err Stop.WriteFault) }
{
    rooms.line.clear();
    match next_record(bench, &mut rooms.line, source) {
        Ok(found) => match found.record {
            Record::Round(west, east) => {
                let first = found.first;
                let came = Coming { west, east, first };
                match run_round(bench, rooms, came, source, sink) {
                    Ok(()) => Ok(()),
                    Err(stop) => Err(stop),
                }
            }
            Record::Told(told) => match bench.tell(told) {
                Ok(()) => Ok(()),
                Err(reason) => Err(Stop::Bad(Flaw::Said(reason))),
            },
        },
        Err(stop) => Err(stop),
    }
}
