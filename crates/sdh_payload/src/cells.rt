//! A list of bytes with room for a chunk.
ghost use Rattle.std.specs.Prelude.{◌≡◌, ◌+◌, ◌<◌, ◌≤◌, [], ◌∷◌, ◌++◌, ◌-◌, IfOk, length, take, replicate};
ghost use Rattle.std.specs.Borrow.{sem};
ghost use Rattle.sdh_payload.specs.Chunk.{around};
ghost use Rattle.sdh_payload.specs.Room.{LendsRoom};

use std::alloc::{AllocError, Global};
use std::fmt;
use std::marker::Model;

/// The most bytes of a chunk: the 2349 bytes of an AU-4's payload, and the three H3 bytes.
const MOST: usize = 2352;

/// A list of at most 2352 bytes, with memory for all of them from the start.
#[derive(Drop)]
pub struct Cells {
    bytes: Vec<u8>,
}

impl Model for Cells {
    ghost use Rattle.std.specs.Prelude.{ℕ, List, ◌≤◌, vec_len, vec_capacity};

    ghost Value = { List ℕ };

    ghost view = { λ c. c.bytes.items };

    ghost invariant = { λ c. (vec_len c.bytes ≤ 2352) × (2352 ≤ vec_capacity c.bytes) };
}

impl fmt::Debug for Cells {
    fn fmt<W: fmt::Write>(&self, f: &mut fmt::Formatter<W>) -> fmt::Result {
        write!(f, "Cells({} bytes)", self.bytes.len())
    }
}

impl Cells {
    /// Returns no bytes, with room for 2352.
    pub fn try_new(alloc: Global) -> Result<Cells, AllocError>
        ensures { IfOk result (λ cells. cells ≡ []) }
    {
        Ok(Cells {
            bytes: Vec::with_capacity(alloc, MOST)?,
        })
    }

    /// Returns the bytes, at most 2352.
    pub fn as_slice(&self) -> &[u8]
        ensures bytes { result.now ≡ self.now }
        ensures few { length self.now ≤ 2352 }
    {
        &self.bytes
    }

    /// Drops the bytes and keeps their memory.
    pub fn clear(&mut self)
        ensures { self.new ≡ [] }
    {
        self.bytes.clear();
    }

    /// Adds a byte at the end. It takes no memory.
    pub fn push(&mut self, byte: u8)
        requires { length self.old < 2352 }
        ensures { self.new ≡ self.old ++ byte ∷ [] }
    {
        self.bytes.push(byte).unwrap();
    }

    /// Adds bytes at the end. It takes no memory.
    pub fn extend_from_slice(&mut self, bytes: &[u8])
        requires { length self.old + length bytes.now ≤ 2352 }
        ensures { self.new ≡ self.old ++ bytes.now }
    {
        self.bytes.extend_from_slice(bytes).unwrap();
    }

    /// Makes the list `count` bytes long, so that they can be written over. It keeps its first bytes, and zeros follow
    /// where it was shorter. It takes no memory.
    pub fn make_room(&mut self, count: usize)
        requires { count ≤ 2352 }
        ensures bytes { self.new ≡ take count self.old ++ replicate (count - length self.old) 0 }
        ensures count { length self.new ≡ count }
    {
        self.bytes.resize(count, 0).unwrap();
    }

    /// Returns room for the 2349 bytes of a payload, to be written in place. The list is made that long as by
    /// `make_room`. It takes no memory.
    pub fn lend_payload(&mut self) -> &mut [u8]
        ensures* lends { sem 𝓛 (LendsRoom self.entry result) }
        ensures bytes { result.now ≡ take 2349 self.old ++ replicate (2349 - length self.old) 0 }
        ensures full { length result.now ≡ 2349 }
    {
        self.make_room(2349);
        self.bytes.as_mut_slice()
    }

    /// Returns the bytes, to be written in place.
    pub fn as_mut_slice(&mut self) -> &mut [u8]
        ensures* lends { sem 𝓛 (LendsRoom self.entry result) }
        ensures bytes { result.now ≡ self.old }
    {
        self.bytes.as_mut_slice()
    }

    /// Replaces the bytes from place `front` on and before place `back` with `middle`. It takes no memory.
    pub fn splice(&mut self, front: usize, back: usize, middle: &[u8])
        requires ordered { front ≤ back }
        requires inside { back ≤ length self.old }
        requires room { front + length middle.now + (length self.old - back) ≤ 2352 }
        ensures bytes { self.new ≡ around front middle.now back self.old }
        ensures count { length self.new ≡ front + length middle.now + (length self.old - back) }
    {
        let behind = self.bytes.len() - back;
        self.bytes.rotate_left(back);
        self.bytes.truncate(behind + front);
        self.bytes.extend_from_slice(middle).unwrap();
        self.bytes.rotate_left(behind);
    }
}
