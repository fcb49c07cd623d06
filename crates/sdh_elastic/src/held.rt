//! The bytes that a store holds.
ghost use Rattle.std.specs.Prelude.{◌≡◌, ◌+◌, ◌-◌, ◌*◌, ◌<◌, ◌≤◌, [], ◌∷◌, ◌++◌, length, take, drop, get_or, IfOk};
ghost use Rattle.std.specs.List.{flat_map};
ghost use Rattle.circular_buffer.specs.Buffer.{buffer};

use circular_buffer::HeapCircularBuffer;
use sdh_payload::Cells;
use std::alloc::{AllocError, Global};
use std::marker::Model;

/// The number of chunks that are kept: two whose bytes are held, and the one whose room the next chunk takes.
const KEPT: usize = 3;

/// The bytes held, those to be given first at the front. They lie in the last three chunks that were taken in, so that
/// they are copied in runs.
#[derive(Debug, Drop)]
pub(crate) struct Held {
    chunks: HeapCircularBuffer<Cells>,
    // The number of bytes of these chunks that are given already.
    given: usize,
    len: usize,
}

impl Model for Held {
    ghost use Rattle.std.specs.Prelude.{◌≡◌, ◌-◌, ℕ, List, length, drop};
    ghost use Rattle.std.specs.List.{flat_map};
    ghost use Rattle.sdh_elastic.specs.Kept.{IsKept};

    ghost Value = { List ℕ };

    ghost view = { λ h. drop h.given (flat_map (λ c. c) h.chunks.items) };

    ghost invariant = { λ h. (h.chunks.capacity ≡ 3) × (h.len ≡ length (flat_map (λ c. c) h.chunks.items) - h.given)
        × IsKept h.chunks.items h.given };
}

// Puts a chunk into the room of the oldest one, after the others, and returns the length of the oldest.
fn renew(chunks: &mut HeapCircularBuffer<Cells>, input: &[u8]) -> usize
    requires some { 0 < length chunks.old.items }
    requires room { length chunks.old.items ≤ chunks.old.capacity }
    requires few { length input.now ≤ 2352 }
    ensures chunks { chunks.new ≡ buffer (drop 1 chunks.old.items ++ input.now ∷ []) chunks.old.capacity }
    ensures oldest { result ≡ length (get_or chunks.old.items 0 []) }
{
    let mut chunk = chunks.pop_front().unwrap();
    let len = chunk.as_slice().len();
    chunk.clear();
    chunk.extend_from_slice(input);
    chunks.push_back(chunk);
    len
}

// Returns the chunk at an index.
fn chunk_at(chunks: &HeapCircularBuffer<Cells>, index: usize) -> &[u8]
    requires { index < length chunks.now.items }
    ensures bytes { result.now ≡ get_or chunks.now.items index [] }
{
    chunks.get(index).unwrap().as_slice()
}

// Adds to `out` up to `left` bytes of a chunk, after its first `skip`. Returns how many bytes of the later chunks are
// still to be skipped, and how many are still to be given.
fn give_part(chunk: &[u8], skip: usize, left: usize, out: &mut Cells) -> (usize, usize)
    requires few { length out.old + left ≤ 2352 }
    ensures given { out.new ≡ out.old ++ take left (drop skip chunk.now) }
    ensures skip { result.0 ≡ skip - length chunk.now }
    ensures left { result.1 ≡ left - (length chunk.now - skip) }
    ensures room { length out.new + result.1 ≤ 2352 }
{
    if chunk.len() <= skip {
        return (skip - chunk.len(), left);
    }
    let part = &chunk[skip..];
    let count = part.len().min(left);
    out.extend_from_slice(&part[..count]);
    (0, left - count)
}

// Puts `count` bytes of the chunks, after their first `skip`, into `out`.
fn give(chunks: &HeapCircularBuffer<Cells>, skip: usize, count: usize, out: &mut Cells)
    requires few { count ≤ 2352 }
    ensures { out.new ≡ take count (drop skip (flat_map (λ c. c) chunks.now.items)) }
{
    out.clear();
    let mut skip = skip;
    let mut left = count;
    for i in 0..chunks.len() {
        if left == 0 {
            break;
        }
        (skip, left) = give_part(chunk_at(chunks, i), skip, left, out);
    }
}

impl Held {
    /// Returns an empty store of bytes. It takes all its memory here.
    pub(crate) fn try_new(alloc: Global) -> Result<Held, AllocError>
        ensures { IfOk result (λ held. held ≡ []) }
    {
        let mut chunks = HeapCircularBuffer::with_capacity(alloc, KEPT)?;
        chunks.push_back(Cells::try_new(alloc)?);
        chunks.push_back(Cells::try_new(alloc)?);
        chunks.push_back(Cells::try_new(alloc)?);
        Ok(Held {
            chunks,
            given: 0,
            len: 0,
        })
    }

    /// Returns how many bytes there is room for, those of the next chunk among them.
    pub(crate) fn room(&self) -> usize
        ensures { result ≡ 3 * 2352 }
    {
        self.chunks.capacity() * 2352
    }

    /// Returns how many bytes are held.
    pub(crate) fn len(&self) -> usize
        ensures { result ≡ length self.now }
    {
        self.len
    }

    /// Takes a chunk in, and moves the first `count` bytes held to `out`, in place of what that held.
    pub(crate) fn take_and_give(&mut self, input: &[u8], count: usize, out: &mut Cells)
        requires least { 2346 ≤ length input.now }
        requires most { length input.now ≤ 2352 }
        requires there { count ≤ length self.old + length input.now }
        requires few { count ≤ 2352 }
        requires left { length self.old + length input.now ≤ count + 2358 }
        ensures given { out.new ≡ take count (self.old ++ input.now) }
        ensures left { self.new ≡ drop count (self.old ++ input.now) }
    {
        let oldest = renew(&mut self.chunks, input);
        let skip = self.given - oldest;
        give(&self.chunks, skip, count, out);
        self.given = skip + count;
        self.len = self.len + input.len() - count;
    }
}
