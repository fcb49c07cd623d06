//! What texts are written to.
ghost use Rattle.std.specs.Prelude.{◌≡◌, ℕ, ◌+◌, ◌≤◌, List, Option, Bool, length, OnOk, OnErr};
ghost use Rattle.sdh_outside.specs.Writing.{Wrote};

use crate::sink::Sink;
use crate::writing::{WriteFault, write_text};
use std::alloc::AllocError;

/// What a text is written to, piece by piece: a sink, to which it goes as it comes, or a text that is kept in memory.
pub trait Output {
    /// The bytes that were written, where the output shows them.
    ghost written: { Self → Option (List ℕ) };

    /// The number of times that writing a piece has failed.
    ghost faults: { Self → ℕ };

    /// Whether `faults` rises by one with each piece that wasn't written whole, and with nothing else.
    ghost exact: { Bool };

    /// The output takes at least this number of bytes more.
    ghost Takes: { ℕ → Self → Type 0 };

    /// Takes the memory for `room` bytes more, if the output keeps what is written in memory.
    fn reserve(&mut self, room: usize) -> Result<(), AllocError>
        ensures room { OnOk result (Takes room self.new) }
        ensures same { (written self.new ≡ written self.old) × (faults self.new ≡ faults self.old) }
        ensures err { OnErr result (self.new ≡ self.old) };

    /// Appends a whole piece, or only a beginning of it where writing fails.
    fn put(&mut self, piece: &[u8]) -> Result<(), WriteFault>
        requires room { Takes (length piece.now) self.old }
        ensures wrote { Wrote exact (written self.old) (written self.new) (faults self.old) (faults self.new) piece.now result }
        ensures room { (more : ℕ) → Takes (length piece.now + more) self.old → Takes more self.new };

    /// An output that takes a number of bytes takes any smaller number too.
    ghost fewer: { (few many : ℕ) (o : Self) → few ≤ many → Takes many o → Takes few o };
}

impl<W: Sink> Output for W {
    ghost written = { W.written };

    ghost faults = { W.faults };

    ghost exact = { W.exact };

    ghost Takes = { λ many w. Unit {0} };

    fn reserve(&mut self, _room: usize) -> Result<(), AllocError> {
        Ok(())
    }

    fn put(&mut self, piece: &[u8]) -> Result<(), WriteFault> {
        write_text(self, piece)
    }

    ghost fewer = { λ few many w low takes. tt };
}
