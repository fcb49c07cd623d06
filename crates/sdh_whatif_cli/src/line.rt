//! A line that is made before it is written.
ghost use Rattle.std.specs.Prelude.{◌≡◌, ◌+◌, ◌≤◌, [], ◌++◌, length, decimal, IfOk};

use itoa::Buffer;
use std::alloc::{AllocError, Global};
use std::marker::Model;

/// The room that a line has, in bytes: enough for any one.
pub const LINE_ROOM: usize = 20480;

/// The bytes of a line. Its room is reserved when it is made, so no part of a line takes memory.
#[derive(Drop)]
pub struct Line {
    bytes: Vec<u8>,
}

impl Model for Line {
    ghost use Rattle.std.specs.Prelude.{◌≤◌, ℕ, List, vec_capacity};

    ghost Value = { List ℕ };

    ghost view = { λ l. l.bytes.items };

    ghost invariant = { λ l. 20480 ≤ vec_capacity l.bytes };
}

impl Line {
    /// Returns an empty line.
    pub fn try_new(alloc: Global) -> Result<Line, AllocError>
        ensures { IfOk result (λ line. line ≡ []) }
    {
        Ok(Line {
            bytes: Vec::with_capacity(alloc, LINE_ROOM)?,
        })
    }

    /// Returns the line so far.
    pub fn bytes(&self) -> &[u8]
        ensures { result.now ≡ self.now }
    {
        &self.bytes
    }

    /// Empties the line.
    pub fn clear(&mut self)
        ensures { self.new ≡ [] }
    {
        self.bytes.clear();
    }

    /// Appends a part.
    pub fn put(&mut self, part: &[u8])
        requires { length self.old + length part.now ≤ 20480 }
        ensures { self.new ≡ self.old ++ part.now }
    {
        self.bytes.extend_from_slice(part).unwrap();
    }

    /// Appends a number in decimal.
    pub fn put_number(&mut self, number: u64)
        requires { length self.old + length (decimal number) ≤ 20480 }
        ensures { self.new ≡ self.old ++ decimal number }
    {
        let mut buffer = Buffer::new();
        self.put(buffer.format(number).as_bytes());
    }

    /// Appends a number of any size in decimal.
    pub fn put_long(&mut self, number: u64)
        requires room { length self.old + 20 ≤ 20480 }
        ensures text { self.new ≡ self.old ++ decimal number }
        ensures short { length self.new ≤ length self.old + 20 }
    {
        self.put_number(number);
    }

    /// Appends a small number in decimal.
    pub fn put_small(&mut self, number: u16)
        requires room { length self.old + 5 ≤ 20480 }
        ensures text { self.new ≡ self.old ++ decimal number }
        ensures short { length self.new ≤ length self.old + 5 }
    {
        self.put_number(u64::from(number));
    }
}
