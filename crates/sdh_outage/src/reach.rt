//! Some chunks of a customer's stream.
ghost use Rattle.std.specs.Prelude.{◌≡◌, ◌+◌, ◌-◌, ◌*◌, ◌^◌, ◌<◌, ◌≤◌, ◌++◌, IfOk, true, take, drop, length, vec_len, vec_capacity};
ghost use Rattle.sdh_payload.specs.Clock.{waiting};
ghost use Rattle.sdh_payload.specs.Feed.{next_feed};
ghost use Rattle.sdh_payload.specs.Stream.{stream_from, chunk_of};
ghost use Rattle.sdh_outage.specs.Kept.{Reached};

use sdh_payload::{Cells, Feed, Port};
use std::alloc::{AllocError, Global};
use std::marker::Model;

/// The bytes of a chunk where no clock slips.
pub(crate) const CHUNK: usize = 2349;

/// Chunks of a port's stream, one after the other. Later ones are made as they are asked for. Memory for all of them is
/// allocated when this is made, and is written only when a chunk is made.
#[derive(Drop)]
pub(crate) struct Reach {
    feed: Feed,
    chunk: Cells,
    bytes: Vec<u8>,
    first: u32,
    made: u32,
    most: u32,
}

impl Model for Reach {
    ghost use Rattle.std.specs.Prelude.{◌≡◌, ◌+◌, ◌-◌, ◌*◌, ◌≤◌, vec_len, vec_capacity};
    ghost use Rattle.sdh_outage.specs.Kept.{Reached, IsReach};

    ghost Value = { Reached };

    ghost view = { λ r. record { port = r.feed.port; first = r.first; made = r.made; most = r.most } };

    ghost invariant = { λ r. IsReach r.feed r.first r.made r.bytes.items × (vec_len r.bytes ≡ 2349 * (r.made - r.first))
        × (r.made ≤ r.first + r.most) × (r.most ≤ 78) × (2349 * r.most ≤ vec_capacity r.bytes) };
}

// Copies the bytes after a place to the front, where they are no more than those before it.
fn copy_down(bytes: &mut [u8], count: usize)
    requires inside { count ≤ length bytes.old }
    requires short { length bytes.old ≤ 2 * count }
    ensures front { take (length bytes.old - count) bytes.new ≡ drop count bytes.old }
    ensures len { length bytes.new ≡ length bytes.old }
{
    let (front, back) = bytes.split_at_mut(count);
    let rest = back.len();
    front[..rest].copy_from_slice(back);
}

// Moves the bytes after the first `count` to the front. What then stands after them is not determined.
fn move_down(bytes: &mut [u8], count: usize)
    requires { count ≤ length bytes.old }
    ensures front { take (length bytes.old - count) bytes.new ≡ drop count bytes.old }
    ensures len { length bytes.new ≡ length bytes.old }
{
    if bytes.len() - count <= count {
        copy_down(bytes, count);
    } else {
        bytes.rotate_left(count);
    }
}

// Drops the first bytes, and keeps their memory.
fn drop_front(bytes: &mut Vec<u8>, count: usize)
    requires { count ≤ vec_len bytes.old }
    ensures bytes { bytes.new.items ≡ drop count bytes.old.items }
    ensures count { vec_len bytes.new + count ≡ vec_len bytes.old }
    ensures room { vec_capacity bytes.new ≡ vec_capacity bytes.old }
{
    let rest = bytes.len() - count;
    move_down(bytes, count);
    bytes.truncate(rest);
}

/// Makes the next chunk of a stream and puts it after others, for which there is room.
pub(crate) fn put_chunk(feed: &mut Feed, chunk: &mut Cells, bytes: &mut Vec<u8>)
    requires plain { waiting feed.old.clock ≡ 0 }
    requires few { feed.old.clock.rounds < 2 ^ 32 }
    requires room { vec_len bytes.old + 2349 ≤ vec_capacity bytes.old }
    ensures bytes { bytes.new.items ≡ bytes.old.items ++ stream_from feed.old.port feed.old.clock.sent 2349 }
    ensures len { vec_len bytes.new ≡ vec_len bytes.old + 2349 }
    ensures room { vec_capacity bytes.old ≤ vec_capacity bytes.new }
    ensures next { feed.new ≡ next_feed feed.old }
{
    feed.next(chunk);
    bytes.extend_from_slice(chunk.as_slice()).unwrap();
}

impl Reach {
    /// Returns a reach before chunk 0, with room for `most` chunks.
    pub(crate) fn try_new(alloc: Global, port: &Port, most: u32) -> Result<Reach, AllocError>
        requires { most ≤ 78 }
        ensures { IfOk result (λ reach. reach ≡ record { port = port.now; first = 0; made = 0; most = most }) }
    {
        let feed = Feed::new(port);
        let chunk = Cells::try_new(alloc)?;
        let bytes = Vec::with_capacity(alloc, CHUNK * most as usize)?;
        Ok(Reach {
            feed,
            chunk,
            bytes,
            first: 0,
            made: 0,
            most,
        })
    }

    /// Returns the number of the first chunk that is kept.
    pub(crate) fn first(&self) -> u32
        ensures { result ≡ self.now.first }
    {
        self.first
    }

    /// Returns the number of the chunk after the last one that is kept.
    pub(crate) fn made(&self) -> u32
        ensures { result ≡ self.now.made }
    {
        self.made
    }

    /// Returns the chunks that are kept.
    pub(crate) fn bytes(&self) -> &[u8]
        ensures { result.now ≡ stream_from self.now.port (2349 * self.now.first) (2349 * (self.now.made - self.now.first)) }
    {
        &self.bytes
    }

    // Goes on after the next chunk, which isn't made.
    fn pass(&mut self)
        requires none { self.old.first ≡ self.old.made }
        requires few { self.old.made + 1 < 2 ^ 32 }
        ensures { self.new ≡ record self.old { first = self.old.made + 1; made = self.old.made + 1 } }
    {
        self.feed.pass();
        self.made += 1;
        self.first = self.made;
    }

    // Makes the next chunk and keeps it.
    fn push(&mut self)
        requires room { self.old.made < self.old.first + self.old.most }
        requires few { self.old.made + 1 < 2 ^ 32 }
        ensures { self.new ≡ record self.old { made = self.old.made + 1 } }
    {
        put_chunk(&mut self.feed, &mut self.chunk, &mut self.bytes);
        self.made += 1;
    }

    // Drops all chunks that are kept.
    #[tactic(auto, using(crate::proofs::Windows::reach_cleared))]
    fn clear(&mut self)
        ensures { self.new ≡ record self.old { first = self.old.made } }
    {
        self.bytes.clear();
        self.first = self.made;
    }

    // Drops all chunks that are kept, goes on after the next one, and returns whether that one equals `chunk`.
    fn follows(&mut self, chunk: &[u8]) -> bool
        requires { self.old.made + 1 < 2 ^ 32 }
        ensures answer { result ≡ true → chunk.now ≡ chunk_of self.old.port self.old.made }
        ensures next { self.new ≡ record self.old { first = self.old.made + 1; made = self.old.made + 1 } }
    {
        let same = self.feed.is_next(chunk);
        self.bytes.clear();
        self.made += 1;
        self.first = self.made;
        same
    }

    // Drops all chunks that are kept, and keeps the next one.
    fn keep_next(&mut self)
        requires few { self.old.made + 1 < 2 ^ 32 }
        requires room { 1 ≤ self.old.most }
        ensures { self.new ≡ record self.old { first = self.old.made; made = self.old.made + 1 } }
    {
        self.clear();
        self.push();
    }

    /// Returns whether this is the last chunk that is kept.
    pub(crate) fn ends_with(&self, chunk: &[u8]) -> bool
        requires { self.now.first < self.now.made }
        ensures { result ≡ true → chunk.now ≡ chunk_of self.now.port (self.now.made - 1) }
    {
        &self.bytes[self.bytes.len() - CHUNK..] == chunk
    }

    /// Drops all chunks that are kept, goes on after the next one, and returns whether that one equals `chunk`. Where
    /// `keeps` holds, the next one is made and kept.
    pub(crate) fn is_next(&mut self, keeps: bool, chunk: &[u8]) -> bool
        requires few { self.old.made + 1 < 2 ^ 32 }
        requires room { 1 ≤ self.old.most }
        ensures answer { result ≡ true → chunk.now ≡ chunk_of self.old.port self.old.made }
        ensures port { self.new.port ≡ self.old.port }
        ensures most { self.new.most ≡ self.old.most }
    {
        if keeps {
            self.keep_next();
            return self.ends_with(chunk);
        }
        self.follows(chunk)
    }

    // Begins anew before chunk 0 of the same port's stream.
    fn restart(&mut self, port: &Port)
        requires { port.now ≡ self.old.port }
        ensures { self.new ≡ record self.old { first = 0; made = 0 } }
    {
        self.feed = Feed::new(port);
        self.bytes.clear();
        self.made = 0;
        self.first = 0;
    }

    // Drops all chunks that are kept, and goes on after those before chunk `from`, which is then the next one.
    fn pass_to(&mut self, from: u32)
        requires later { self.old.made ≤ from }
        requires few { from + 1 < 2 ^ 32 }
        ensures { self.new ≡ record self.old { first = from; made = from } }
    {
        self.clear();
        for _ in self.made..from {
            self.pass();
        }
    }

    // Drops all chunks that are kept. Then goes on after the next ones before chunk `end`, until one equals `chunk`,
    // and returns whether one did.
    fn find(&mut self, end: u32, chunk: &[u8]) -> bool
        requires order { self.old.made ≤ end }
        ensures found { result ≡ true → (self.old.made < self.new.made) × (self.new.made ≤ end) × (chunk.now ≡ chunk_of self.old.port (self.new.made - 1)) }
        ensures port { self.new.port ≡ self.old.port }
        ensures most { self.new.most ≡ self.old.most }
    {
        self.clear();
        for _ in self.made..end {
            if self.follows(chunk) {
                return true;
            }
        }
        false
    }

    /// Drops all chunks that are kept. Then goes on from chunk `from` and before chunk `end`, until one equals `chunk`,
    /// and returns whether one did. None is kept.
    pub(crate) fn seek(&mut self, from: u32, end: u32, chunk: &[u8]) -> bool
        requires later { self.old.made ≤ from }
        requires order { from ≤ end }
        requires few { end + 1 < 2 ^ 32 }
        ensures found { result ≡ true → (from < self.new.made) × (self.new.made ≤ end) × (chunk.now ≡ chunk_of self.old.port (self.new.made - 1)) }
        ensures port { self.new.port ≡ self.old.port }
        ensures most { self.new.most ≡ self.old.most }
    {
        self.pass_to(from);
        self.find(end, chunk)
    }

    // Drops the chunks before this one.
    fn drop_to(&mut self, from: u32)
        requires after { self.old.first ≤ from }
        requires before { from ≤ self.old.made }
        ensures { self.new ≡ record self.old { first = from } }
    {
        drop_front(&mut self.bytes, CHUNK * (from - self.first) as usize);
        self.first = from;
    }

    // Makes all chunks before chunk `end`.
    fn fill_to(&mut self, end: u32)
        requires room { end ≤ self.old.first + self.old.most }
        requires few { end < 2 ^ 32 }
        ensures same { self.new ≡ record self.old { made = self.new.made } }
        ensures made { end ≤ self.new.made }
    {
        for _ in self.made..end {
            self.push();
        }
    }

    // Makes room for `count` chunks from chunk `from` on. Where there is too little, or where chunks before `low` are
    // kept, it drops all chunks before `from`.
    fn make_room(&mut self, low: u32, from: u32, count: u32)
        requires order { low ≤ from }
        requires later { self.old.first ≤ from }
        requires few { from + 80 < 2 ^ 32 }
        requires room { count ≤ self.old.most }
        ensures port { self.new.port ≡ self.old.port }
        ensures most { self.new.most ≡ self.old.most }
        ensures first { self.new.first ≤ from }
        ensures low { low ≤ self.new.first }
        ensures room { from + count ≤ self.new.first + self.new.most }
    {
        if from > self.made {
            self.pass_to(from);
        } else if self.first < low || self.first + self.most < from + count {
            self.drop_to(from);
        }
    }

    /// Keeps this chunk of the port's stream as the last one.
    pub(crate) fn end_at(&mut self, port: &Port, number: u32)
        requires same { port.now ≡ self.old.port }
        requires few { number + 80 < 2 ^ 32 }
        requires room { 1 ≤ self.old.most }
        ensures port { self.new.port ≡ self.old.port }
        ensures most { self.new.most ≡ self.old.most }
        ensures some { self.new.first < self.new.made }
    {
        if self.first > number || self.made > number + 1 {
            self.restart(port);
        }
        self.reach(number, number, 1);
    }

    /// Keeps `count` chunks from this one on, and none before `low`.
    pub(crate) fn reach(&mut self, low: u32, from: u32, count: u32)
        requires order { low ≤ from }
        requires later { self.old.first ≤ from }
        requires few { from + 80 < 2 ^ 32 }
        requires room { count ≤ self.old.most }
        requires most { count ≤ 78 }
        ensures port { self.new.port ≡ self.old.port }
        ensures most { self.new.most ≡ self.old.most }
        ensures first { self.new.first ≤ from }
        ensures low { low ≤ self.new.first }
        ensures made { from + count ≤ self.new.made }
    {
        self.make_room(low, from, count);
        self.fill_to(from + count);
    }
}
