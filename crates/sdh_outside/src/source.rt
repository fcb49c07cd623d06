//! Sources of bytes.
ghost use Rattle.std.specs.Prelude.{◌≡◌, ℕ, List, Option, None, Ok, IsErr, IfOk, OnErr, MatchResult, Bool, true};
ghost use Rattle.std.specs.Io.{ReadsAtMost};
ghost use Rattle.std.specs.Io.KnownBytes.{ReadConsumes};
ghost use Rattle.sdh_basics.specs.Causes.{HasCause, one_more};

use std::io;
use std::io::Read;
use std::marker::Model;
use thiserror::Error;

/// A call of a source or a sink failed: its count of faults rose, and no bytes were moved.
#[derive(Clone, Copy, Debug, PartialEq, Eq, Error)]
#[error("a call of a source or a sink failed")]
pub struct Failed;

/// Something that gives bytes, such as standard input.
pub trait Source {
    /// The bytes left, where the source shows them.
    ghost left: { Self → Option (List ℕ) };

    /// A count of failed calls. It rises with each of them, but not above the last value of a `u64`, and never falls.
    ghost faults: { Self → ℕ };

    /// Whether `faults` rises by one with each failed call and stays with each other one.
    ghost exact: { Bool };

    /// Puts some of the bytes left at the start of `buf` and returns their number. For a non-empty buffer 0 means that
    /// no bytes are left. A call that fails takes no bytes from the source.
    fn read(&mut self, buf: &mut [u8]) -> Result<usize, Failed>
        ensures bound { ReadsAtMost result buf.new }
        ensures bytes { ReadConsumes (left self.old) (left self.new) result buf.new }
        ensures cause { HasCause exact (faults self.old) (faults self.new) result };
}

// Returns the number of bytes that a reader gave, or `Failed` where the reader reports an error.
fn read_answer(answer: io::Result<usize>) -> Result<usize, Failed>
    ensures ok { IfOk answer (λ count. result ≡ Ok count) }
    ensures err { OnErr answer (IsErr result) }
{
    answer.map_err(|_| Failed)
}

/// A source over a reader of std, such as standard input. It does not show its bytes. Each error of the reader counts
/// as a fault.
#[derive(Debug, Drop)]
pub struct StdSource<T: Read + Drop> {
    reader: T,
    faults: u64,
}

impl<T: Read + Drop> Model for StdSource<T> {
    ghost use Rattle.sdh_outside.specs.Adapted.{Adapted};

    ghost Value = { Adapted };

    ghost view = { λ s. record { known = T.remaining s.reader; faults = s.faults } };
}

impl<T: Read + Drop> StdSource<T> {
    /// Returns a source over this reader, with no faults counted yet. It takes no memory.
    pub fn new(reader: T) -> StdSource<T>
        ensures { result ≡ record { known = T.remaining reader; faults = 0 } }
    {
        StdSource { reader, faults: 0 }
    }
}

impl<T: Read + Drop> Source for StdSource<T> {
    ghost left = { λ _. None };

    ghost faults = { λ s. s.faults };

    ghost exact = { true };

    fn read(&mut self, buf: &mut [u8]) -> Result<usize, Failed>
        ensures bound { ReadsAtMost result buf.new }
        ensures bytes { ReadConsumes None None result buf.new }
        ensures cause { HasCause true self.old.faults self.new.faults result }

        ensures passed { ReadConsumes self.old.known self.new.known result buf.new }
        ensures count { MatchResult result (λ _. self.new.faults ≡ self.old.faults) (λ _. self.new.faults ≡ one_more self.old.faults) }
    {
        let answer = read_answer(self.reader.read(buf));
        if answer.is_err() {
            self.faults = self.faults.saturating_add(1);
        }
        answer
    }
}
