//! Room for the bytes of one customer that can be on their way.
ghost use Rattle.std.specs.Prelude.{◌≡◌, ◌+◌, ◌-◌, ◌*◌, ◌^◌, ◌<◌, ◌≤◌, [], IfOk, take, drop, length, vec_len, vec_capacity};
ghost use Rattle.sdh_payload.specs.declared.delivered.Delivered.{Delivered};
ghost use Rattle.sdh_payload.specs.Stream.{stream_from, chunk_of};
ghost use Rattle.sdh_outage.specs.Near.{near};
ghost use Rattle.sdh_outage.specs.Kept.{IsReach};

use crate::last::Last;
use crate::reach::{CHUNK, put_chunk};
use sdh_payload::{Cells, Feed, Port};
use std::alloc::{AllocError, Global};
use std::marker::Model;

/// The number of chunks that are near.
pub(crate) const CHUNKS: u32 = 78;

/// The number of near chunks before a round's own.
pub(crate) const BEHIND: u32 = 71;

/// Room for the near bytes of a customer in a round, which are made anew for each lookup. Its memory is allocated when
/// it is made, and serves for all customers.
#[derive(Drop)]
pub struct Scratch {
    chunk: Cells,
    bytes: Vec<u8>,
}

impl Model for Scratch {
    ghost use Rattle.std.specs.Prelude.{ℕ, ◌*◌, ◌≤◌, List, vec_capacity};

    ghost Value = { List ℕ };

    ghost view = { λ s. s.bytes.items };

    ghost invariant = { λ s. 2349 * 78 ≤ vec_capacity s.bytes };
}

// Returns the feed of a port before this chunk of its stream.
fn feed_before(port: &Port, first: u32) -> Feed
    requires { first < 2 ^ 32 }
    ensures at { IsReach result first first [] }
    ensures port { result.port ≡ port.now }
{
    let mut feed = Feed::new(port);
    for _ in 0..first {
        feed.pass();
    }
    feed
}

// Appends 78 chunks, as many as are near, from the feed's next one on.
fn put_near(feed: &mut Feed, chunk: &mut Cells, bytes: &mut Vec<u8>)
    requires at { IsReach feed.old feed.old.clock.rounds feed.old.clock.rounds [] }
    requires few { feed.old.clock.rounds + 80 < 2 ^ 32 }
    requires none { bytes.old.items ≡ [] }
    requires empty { vec_len bytes.old ≡ 0 }
    requires room { 2349 * 78 ≤ vec_capacity bytes.old }
    ensures bytes { bytes.new.items ≡ stream_from feed.old.port (2349 * feed.old.clock.rounds) (2349 * 78) }
    ensures room { vec_capacity bytes.old ≤ vec_capacity bytes.new }
{
    for _ in 0..CHUNKS {
        put_chunk(feed, chunk, bytes);
    }
}

impl Scratch {
    /// Returns an empty scratch with room for the bytes of any customer that are near.
    pub fn try_new(alloc: Global) -> Result<Scratch, AllocError>
        ensures { IfOk result (λ scratch. scratch ≡ []) }
    {
        let chunk = Cells::try_new(alloc)?;
        let bytes = Vec::with_capacity(alloc, CHUNK * CHUNKS as usize)?;
        Ok(Scratch { chunk, bytes })
    }

    /// Makes the bytes of a port that are near in a round.
    pub(crate) fn fill(&mut self, port: &Port, round: u32)
        requires { round + 88 ≤ 2 ^ 32 }
        ensures { self.new ≡ near port.now round }
    {
        let mut feed = feed_before(port, round.saturating_sub(BEHIND));
        self.bytes.clear();
        put_near(&mut feed, &mut self.chunk, &mut self.bytes);
    }

    /// Returns the bytes that were made.
    pub(crate) fn bytes(&self) -> &[u8]
        ensures { result.now ≡ self.now }
    {
        &self.bytes
    }

    /// Returns the bytes of a chunk from a place on.
    pub(crate) fn part(&self, at: usize) -> &[u8]
        requires { at + 2349 ≤ length self.now }
        ensures bytes { result.now ≡ take 2349 (drop at self.now) }
        ensures few { length result.now ≤ 2352 }
    {
        &self.bytes[at..at + CHUNK]
    }

    /// Returns the bytes of a port that are near in a round.
    pub(crate) fn near(&mut self, port: &Port, round: u32) -> &[u8]
        requires { round + 88 ≤ 2 ^ 32 }
        ensures { result.now ≡ near port.now round }
    {
        self.fill(port, round);
        self.bytes()
    }

    /// Makes a chunk of a port's stream, and keeps it as what came last.
    pub(crate) fn put_chunk(&mut self, port: &Port, number: u32, last: &mut Last)
        ensures chunk { last.new ≡ Delivered.Chunk (chunk_of port.now number) }
        ensures same { self.new ≡ self.old }
    {
        let mut feed = feed_before(port, number);
        feed.next(&mut self.chunk);
        last.put_chunk(self.chunk.as_slice());
    }
}
