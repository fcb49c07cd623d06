//! Sinks of bytes.
ghost use Rattle.std.specs.Prelude.{◌≡◌, ◌≢◌, ◌<◌, ◌⊎◌, ℕ, [], List, Option, None, Ok, IsErr, IfOk, OnErr, MatchResult, Bool, true, length};
ghost use Rattle.std.specs.Io.{WritesAtMost};
ghost use Rattle.std.specs.Io.KnownBytes.{WriteAppends};
ghost use Rattle.sdh_basics.specs.Causes.{HasCause, one_more};

use crate::source::Failed;
use std::io;
use std::io::Write;
use std::marker::Model;

/// Something that takes bytes, such as standard output.
pub trait Sink {
    /// The bytes written so far, where the sink shows them.
    ghost written: { Self → Option (List ℕ) };

    /// A count of failed calls. It rises with each of them, but not above the last value of a `u64`, and never falls.
    ghost faults: { Self → ℕ };

    /// Whether `faults` rises by one with each failed call and stays with each other one.
    ghost exact: { Bool };

    /// Takes some bytes from the start of `buf` and returns their number: at least one where `buf` is not empty. A call
    /// that fails takes none.
    fn write(&mut self, buf: &[u8]) -> Result<usize, Failed>
        ensures bound { WritesAtMost result buf.now }
        ensures some { IfOk result (λ n. 0 < length buf.now → 0 < n) }
        ensures bytes { WriteAppends (written self.old) (written self.new) result buf.now }
        ensures cause { HasCause exact (faults self.old) (faults self.new) result };
}

// Returns the number of bytes taken, or `Failed` where the writer reports an error or took none of a non-empty piece.
fn write_answer(answer: io::Result<usize>, piece: &[u8]) -> Result<usize, Failed>
    ensures ok { IfOk answer (λ count. (0 < count) ⊎ (piece.now ≡ []) → result ≡ Ok count) }
    ensures none { IfOk answer (λ count. count ≡ 0 → piece.now ≢ [] → IsErr result) }
    ensures err { OnErr answer (IsErr result) }
{
    match answer {
        Ok(count) if count > 0 || piece.is_empty() => Ok(count),
        _ => Err(Failed),
    }
}

/// A sink over a writer of std, such as standard output. It does not show its bytes. Each error of the writer counts as
/// a fault, and so does each write that took nothing of a non-empty piece.
#[derive(Debug, Drop)]
pub struct StdSink<T: Write + Drop> {
    writer: T,
    faults: u64,
}

impl<T: Write + Drop> Model for StdSink<T> {
    ghost use Rattle.sdh_outside.specs.Adapted.{Adapted};

    ghost Value = { Adapted };

    ghost view = { λ s. record { known = T.contents s.writer; faults = s.faults } };
}

impl<T: Write + Drop> StdSink<T> {
    /// Returns a sink over this writer, with no faults counted yet. It takes no memory.
    pub fn new(writer: T) -> StdSink<T>
        ensures { result ≡ record { known = T.contents writer; faults = 0 } }
    {
        StdSink { writer, faults: 0 }
    }
}

impl<T: Write + Drop> Sink for StdSink<T> {
    ghost written = { λ _. None };

    ghost faults = { λ s. s.faults };

    ghost exact = { true };

    fn write(&mut self, buf: &[u8]) -> Result<usize, Failed>
        ensures bound { WritesAtMost result buf.now }
        ensures some { IfOk result (λ n. 0 < length buf.now → 0 < n) }
        ensures bytes { WriteAppends None None result buf.now }
        ensures cause { HasCause true self.old.faults self.new.faults result }

        ensures passed { WriteAppends self.old.known self.new.known result buf.now }
        ensures count { MatchResult result (λ _. self.new.faults ≡ self.old.faults) (λ _. self.new.faults ≡ one_more self.old.faults) }
    {
        let answer = write_answer(self.writer.write(buf), buf);
        if answer.is_err() {
            self.faults = self.faults.saturating_add(1);
        }
        answer
    }
}
