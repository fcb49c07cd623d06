//! A sink in memory with a list of the calls that fail.
ghost use Rattle.std.specs.Prelude.{◌≡◌, true, ◌⊎◌, ◌-◌, ◌<◌, ◌↔◌, ◌++◌, min, [], Some, IfOk, IsErr, OnErr, Contains, length, take};
ghost use Rattle.std.specs.Io.{WritesAtMost};
ghost use Rattle.std.specs.Io.KnownBytes.{WriteAppends};
ghost use Rattle.sdh_basics.specs.Causes.{HasCause, one_more};

use crate::calls::is_among;
use crate::sink::Sink;
use crate::source::Failed;
use std::alloc::{AllocError, Global};
use std::fmt;
use std::marker::Model;

/// A buffer of fixed room. A write takes at most `piece` bytes. A write fails where `failing` has its number, or where
/// there are bytes to write and no room is left. No other write fails.
#[derive(Drop)]
pub struct MemSink {
    bytes: Vec<u8>,
    room: usize,
    piece: usize,
    failing: Vec<u32>,
    calls: u64,
    faults: u64,
}

impl Model for MemSink {
    ghost use Rattle.std.specs.Prelude.{◌+◌, ◌<◌, ◌≤◌, vec_len, vec_capacity};
    ghost use Rattle.sdh_outside.specs.Memory.{HeldSink};

    ghost Value = { HeldSink };

    ghost view = { λ s. record { bytes = s.bytes.items; room = s.room; piece = s.piece; failing = s.failing.items; calls = s.calls; faults = s.faults } };

    ghost invariant = { λ s. (vec_len s.bytes + s.room ≤ vec_capacity s.bytes) × (0 < s.piece) };
}

impl fmt::Debug for MemSink {
    fn fmt<W: fmt::Write>(&self, f: &mut fmt::Formatter<W>) -> fmt::Result {
        write!(
            f,
            "MemSink({} bytes, room for {})",
            self.bytes.len(),
            self.room
        )
    }
}

impl MemSink {
    /// Returns an empty sink with room for `room` bytes, which takes at most `piece` bytes a call. `failing` holds the
    /// numbers of the calls that fail, counted from 1.
    pub fn new(
        alloc: Global,
        room: usize,
        piece: usize,
        failing: &[u32],
    ) -> Result<MemSink, AllocError>
        requires { 0 < piece }
        ensures { IfOk result
            (λ sink. sink ≡ record { bytes = []; room = room; piece = piece; failing = failing.now; calls = 0; faults = 0 }) }
    {
        Ok(MemSink {
            bytes: Vec::with_capacity(alloc, room)?,
            room,
            piece,
            failing: failing.to_vec(alloc)?,
            calls: 0,
            faults: 0,
        })
    }

    /// Returns the bytes that were written.
    pub fn bytes(&self) -> &[u8]
        ensures { result.now ≡ self.now.bytes }
    {
        &self.bytes
    }
}

impl Sink for MemSink {
    ghost written = { λ s. Some s.bytes };

    ghost faults = { λ s. s.faults };

    ghost exact = { true };

    fn write(&mut self, buf: &[u8]) -> Result<usize, Failed>
        ensures bound { WritesAtMost result buf.now }
        ensures some { IfOk result (λ n. 0 < length buf.now → 0 < n) }
        ensures bytes { WriteAppends (Some self.old.bytes) (Some self.new.bytes) result buf.now }
        ensures cause { HasCause true self.old.faults self.new.faults result }

        ensures fails { IsErr result ↔ (Contains self.old.failing (one_more self.old.calls)
            ⊎ ((0 < length buf.now) × (self.old.room ≡ 0))) }
        ensures count { IfOk result (λ n. n ≡ min (min self.old.piece (length buf.now)) self.old.room) }
        ensures ok { IfOk result (λ n. self.new ≡ record self.old {
          bytes = self.old.bytes ++ take n buf.now;
          room = self.old.room - n;
          calls = one_more self.old.calls;
        }) }
        ensures err { OnErr result (self.new ≡ record self.old { calls = one_more self.old.calls; faults = one_more self.old.faults }) }
    {
        self.calls = self.calls.saturating_add(1);
        if is_among(&self.failing, self.calls) || (self.room == 0 && !buf.is_empty()) {
            self.faults = self.faults.saturating_add(1);
            return Err(Failed);
        }
        let count = buf.len().min(self.piece).min(self.room);
        self.bytes.extend_from_slice(&buf[..count]).unwrap();
        self.room -= count;
        Ok(count)
    }
}
