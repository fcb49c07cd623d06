//! A source in memory with a list of the calls that fail.
ghost use Rattle.std.specs.Prelude.{◌≡◌, true, ◌<◌, ◌↔◌, min, Some, IfOk, IsErr, OnErr, Contains, length, take, drop};
ghost use Rattle.std.specs.Io.{ReadsAtMost};
ghost use Rattle.std.specs.Io.KnownBytes.{ReadConsumes};
ghost use Rattle.sdh_basics.specs.Causes.{HasCause, one_more};

use crate::calls::is_among;
use crate::source::{Failed, Source};
use std::alloc::{AllocError, Global};
use std::fmt;
use std::marker::Model;

/// A source of bytes in memory. A read gives at most `piece` bytes. A read fails where `failing` has its number, and no
/// other read fails.
#[derive(Drop)]
pub struct MemSource {
    bytes: Vec<u8>,
    at: usize,
    piece: usize,
    failing: Vec<u32>,
    calls: u64,
    faults: u64,
}

impl Model for MemSource {
    ghost use Rattle.std.specs.Prelude.{◌<◌, ◌≤◌, drop, vec_len};
    ghost use Rattle.sdh_outside.specs.Memory.{HeldSource};

    ghost Value = { HeldSource };

    ghost view = { λ s. record { left = drop s.at s.bytes.items; piece = s.piece; failing = s.failing.items; calls = s.calls; faults = s.faults } };

    ghost invariant = { λ s. (s.at ≤ vec_len s.bytes) × (0 < s.piece) };
}

impl fmt::Debug for MemSource {
    fn fmt<W: fmt::Write>(&self, f: &mut fmt::Formatter<W>) -> fmt::Result {
        write!(f, "MemSource({} of {} bytes)", self.at, self.bytes.len())
    }
}

impl MemSource {
    /// Returns a source of these bytes, with none given out yet, which gives at most `piece` bytes a call. `failing`
    /// holds the numbers of the calls that fail, counted from 1.
    pub fn new(
        alloc: Global,
        bytes: &[u8],
        piece: usize,
        failing: &[u32],
    ) -> Result<MemSource, AllocError>
        requires { 0 < piece }
        ensures { IfOk result
            (λ source. source ≡ record { left = bytes.now; piece = piece; failing = failing.now; calls = 0; faults = 0 }) }
    {
        Ok(MemSource {
            bytes: bytes.to_vec(alloc)?,
            at: 0,
            piece,
            failing: failing.to_vec(alloc)?,
            calls: 0,
            faults: 0,
        })
    }
}

// Copies at most `piece` bytes, as far as both slices reach, and returns their number.
fn copy_front(from: &[u8], to: &mut [u8], piece: usize) -> usize
    ensures count { result ≡ min (min piece (length to.old)) (length from.now) }
    ensures copied { take result to.new ≡ take result from.now }
{
    let count = from.len().min(to.len()).min(piece);
    to[..count].copy_from_slice(&from[..count]);
    count
}

impl Source for MemSource {
    ghost left = { λ s. Some s.left };

    ghost faults = { λ s. s.faults };

    ghost exact = { true };

    fn read(&mut self, buf: &mut [u8]) -> Result<usize, Failed>
        ensures bound { ReadsAtMost result buf.new }
        ensures bytes { ReadConsumes (Some self.old.left) (Some self.new.left) result buf.new }
        ensures cause { HasCause true self.old.faults self.new.faults result }

        ensures fails { IsErr result ↔ Contains self.old.failing (one_more self.old.calls) }
        ensures count { IfOk result (λ n. n ≡ min (min self.old.piece (length buf.old)) (length self.old.left)) }
        ensures ok { IfOk result (λ n. self.new ≡ record self.old { left = drop n self.old.left; calls = one_more self.old.calls }) }
        ensures err { OnErr result (self.new ≡ record self.old { calls = one_more self.old.calls; faults = one_more self.old.faults }) }
    {
        self.calls = self.calls.saturating_add(1);
        if is_among(&self.failing, self.calls) {
            self.faults = self.faults.saturating_add(1);
            return Err(Failed);
        }
        let count = copy_front(&self.bytes[self.at..], buf, self.piece);
        self.at += count;
        Ok(count)
    }
}
