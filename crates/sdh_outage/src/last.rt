//! What a port delivered in the round before.
ghost use Rattle.std.specs.Prelude.{◌≡◌, ◌≤◌, true, false, IfOk, length};
ghost use Rattle.sdh_payload.specs.declared.delivered.Delivered.{Delivered};
ghost use Rattle.sdh_outage.specs.Kinds.{jumps};
ghost use Rattle.sdh_outage.specs.Kept.{Stands};

use crate::part::is_part;
use sdh_payload::Delivered;
use std::alloc::{AllocError, Global};
use std::marker::Model;

/// Room for two chunks, in bytes.
const ROOM: usize = 4704;

/// What was delivered last, with room for one chunk more. Its memory is taken when it is made.
#[derive(Drop)]
pub(crate) struct Last {
    bytes: Vec<u8>,
    is_chunk: bool,
}

impl Model for Last {
    ghost use Rattle.std.specs.Prelude.{◌≤◌, vec_len, vec_capacity};
    ghost use Rattle.sdh_payload.specs.declared.delivered.Delivered.{Delivered};
    ghost use Rattle.sdh_outage.specs.Kept.{delivered};

    ghost Value = { Delivered };

    ghost view = { λ l. delivered l.is_chunk l.bytes.items };

    ghost invariant = { λ l. (vec_len l.bytes ≤ 2352) × (4704 ≤ vec_capacity l.bytes) };
}

impl Last {
    /// Returns AIS as what was delivered last, with room for two chunks.
    pub(crate) fn try_new(alloc: Global) -> Result<Last, AllocError>
        ensures { IfOk result (λ last. last ≡ Delivered.Ais) }
    {
        Ok(Last {
            bytes: Vec::with_capacity(alloc, ROOM)?,
            is_chunk: false,
        })
    }

    /// Keeps what was delivered now as what was delivered last.
    pub(crate) fn put(&mut self, now: &Delivered)
        ensures { self.new ≡ now.now }
    {
        match now {
            Delivered::Ais => {
                self.bytes.clear();
                self.is_chunk = false;
            }
            Delivered::Chunk(chunk) => self.put_chunk(chunk.as_slice()),
        }
    }

    /// Keeps a chunk as what was delivered last.
    pub(crate) fn put_chunk(&mut self, chunk: &[u8])
        requires { length chunk.now ≤ 2352 }
        ensures { self.new ≡ Delivered.Chunk chunk.now }
    {
        self.bytes.clear();
        self.bytes.extend_from_slice(chunk).unwrap();
        self.is_chunk = true;
    }

    /// Returns whether it is AIS.
    pub(crate) fn is_ais(&self) -> bool
        ensures { result ≡ true → self.now ≡ Delivered.Ais }
    {
        !self.is_chunk
    }

    /// Returns the number of bytes that were delivered last, 0 for AIS.
    pub(crate) fn len(&self) -> usize
        ensures { result ≤ 2352 }
    {
        self.bytes.len()
    }

    /// Returns whether the last chunk stands at place `at` of some bytes of a stream, and this chunk right after it.
    /// Where AIS came last, returns whether this chunk stands at that place.
    pub(crate) fn stands_before(&self, chunk: &[u8], others: &[u8], at: usize) -> bool
        ensures { result ≡ true → Stands self.now chunk.now others.now }
    {
        let Some(rest) = others.get(at..) else {
            return false;
        };
        let Some(behind) = rest.get(self.bytes.len()..) else {
            return false;
        };
        rest.starts_with(&self.bytes) && behind.starts_with(chunk)
    }

    /// Returns whether the last chunk stands in these near bytes of a stream, and this chunk doesn't follow it there.
    pub(crate) fn jumps(&mut self, others: &[u8], chunk: &[u8]) -> bool
        requires { length chunk.now ≤ 2352 }
        ensures answer { result ≡ jumps others.now self.old chunk.now }
        ensures same { self.new ≡ self.old }
    {
        if !self.is_chunk || !is_part(&self.bytes, others) {
            return false;
        }
        let len = self.bytes.len();
        self.bytes.extend_from_slice(chunk).unwrap();
        let both = is_part(&self.bytes, others);
        self.bytes.truncate(len);
        !both
    }
}
