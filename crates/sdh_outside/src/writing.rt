//! Writing a whole text to a sink.
ghost use Rattle.std.specs.Prelude.{◌≡◌, ◌≤◌, [], OnOk, OnErr, IsOk, IsErr};
ghost use Rattle.std.specs.Io.KnownBytes.{Appends};
ghost use Rattle.sdh_basics.specs.Causes.{Rose, IsCounted};
ghost use Rattle.sdh_outside.specs.Writing.{AppendsFewer};

use crate::sink::Sink;
use crate::source::Failed;
use thiserror::Error;

/// A write failed: the sink holds at most a part of the text.
#[derive(Clone, Copy, Debug, PartialEq, Eq, Error)]
#[error("a write failed")]
pub struct WriteFault;

/// Appends the whole text to the sink, or the beginning of it where a write fails. Each write takes at least one byte.
/// The function allocates no memory.
pub fn write_text<W: Sink>(sink: &mut W, text: &[u8]) -> Result<(), WriteFault>
    ensures ok { OnOk result (Appends (W.written sink.old) (W.written sink.new) text.now) }
    ensures fault { OnErr result (Rose (W.faults sink.old) (W.faults sink.new)) }
    ensures front { OnErr result (AppendsFewer (W.written sink.old) (W.written sink.new) text.now) }
    ensures empty { text.now ≡ [] → IsOk result × (sink.new ≡ sink.old) }
    ensures later { W.faults sink.old ≤ W.faults sink.new }

    // Where the sink's count of faults is exact, one write failed if the result is an error, and none if it is Ok.
    ensures counted { IsCounted W.exact (IsErr result) (W.faults sink.old) (W.faults sink.new) }
{
    let mut sent = 0;
    while sent < text.len() {
        match sink.write(&text[sent..]) {
            Ok(count) => sent += count,
            Err(Failed) => return Err(WriteFault),
        }
    }
    Ok(())
}
