//! What is to be written, with its last line.
ghost use Rattle.std.specs.Prelude.{◌≡◌, ◌≤◌, ◌++◌, length};
ghost use Rattle.sdh_basics.specs.Causes.{Rose, IsCounted};
ghost use Rattle.sdh_status.specs.declared.Status.{Status};
ghost use Rattle.sdh_shell.specs.Writing.{IsShown, WroteEnding};

use crate::ending::Ends;
use sdh_outside::Output;
use sdh_report::{Status, Text};

/// What is to be written, and how the program ends then.
#[derive(Drop)]
pub struct EndedText<E> {
    pub ending: E,
    pub text: Text,
}

/// Returns a text with the last line of an ending added, for which it has room.
pub fn ended<E: Ends>(ending: E, mut text: Text) -> EndedText<E>
    requires room { 96 ≤ text.room }
    ensures ending { result.ending ≡ ending }
    ensures text { result.text.bytes ≡ text.bytes ++ E.endings.line ending }
    ensures short { length (E.endings.line ending) ≤ 96 }
{
    ending.put_line(&mut text);
    EndedText { ending, text }
}

/// Writes a text with its last line, and returns its ending, or a write fault.
pub fn write_ended<E: Ends, O: Output>(output: &mut O, said: EndedText<E>) -> E
    requires shown { IsShown E.endings said.ending }
    requires room { O.Takes (length said.text.bytes) output.old }
    ensures wrote { WroteEnding E.endings said.ending said.text.bytes result (O.written output.old) (O.written output.new) }
    ensures fault { result ≡ E.endings.of Status.WriteFault → Rose (O.faults output.old) (O.faults output.new) }
    ensures writes { IsCounted O.exact (result ≡ E.endings.of Status.WriteFault) (O.faults output.old) (O.faults output.new) }
    ensures later { O.faults output.old ≤ O.faults output.new }
{
    match output.put(said.text.bytes()) {
        Ok(()) => said.ending,
        Err(_) => E::of(Status::WriteFault),
    }
}
