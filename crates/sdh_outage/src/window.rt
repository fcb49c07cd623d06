//! The bytes of a customer that can be on their way.
ghost use Rattle.std.specs.Prelude.{◌≡◌, ◌+◌, ◌^◌, ◌≤◌, IfOk, true, false, length};
ghost use Rattle.sdh_payload.specs.declared.delivered.Delivered.{Delivered};
ghost use Rattle.sdh_outage.specs.Kinds.{are_ones, jumps, own_kind};
ghost use Rattle.sdh_outage.specs.Near.{near, holds, is_part};
ghost use Rattle.sdh_outage.specs.Latest.{came};

use crate::kind::Kind;
use crate::last::Last;
use crate::latest::Latest;
use crate::part::{are_ones, holds, kind_of_pieces};
use crate::reach::{CHUNK, Reach};
use crate::scratch::{BEHIND, CHUNKS, Scratch};
use memchr::memmem;
use sdh_payload::Port;
use std::alloc::{AllocError, Global};
use std::marker::Model;

/// The number of the stream's chunks in which the last chunk that came and the next one lie: wherever they begin
/// (`AHEAD`), and where both are whole chunks of the stream (`WHOLE`).
const AHEAD: u32 = 3;

const WHOLE: u32 = 2;

/// The number of chunks for which there is room in `next`: more than are needed in one round, so that the bytes aren't
/// moved in each round.
const ROOM: u32 = 6;

/// A settle step ends after a round whose number is a multiple of this. The bytes of its chunk are kept, since the next
/// step begins with them.
const TURN: u32 = 128;

/// The bytes of a port's stream that are near in a round. They are made only when they are needed: mostly just the
/// chunk that comes next; where all are needed, they are made in a scratch.
#[derive(Drop)]
pub struct Window {
    port: Port,
    next: Reach,
    // The chunk of the stream in which the last chunk that came may begin, and at which byte. It only says where to
    // look first.
    from: u32,
    at: usize,
    round: u32,
}

impl Model for Window {
    ghost use Rattle.std.specs.Prelude.{◌≡◌, ◌<◌};
    ghost use Rattle.sdh_outage.specs.Kept.{Nearby};

    ghost Value = { Nearby };

    ghost view = { λ w. record { port = w.port; round = w.round } };

    ghost invariant = { λ w. (w.next.most ≡ 6) × (w.next.port ≡ w.port) × (w.at < 2349) };
}

impl Window {
    /// Returns the bytes that are near in round 0, of a port's stream.
    pub fn try_new(alloc: Global, port: &Port) -> Result<Window, AllocError>
        ensures { IfOk result (λ window. window ≡ record { port = port.now; round = 0 }) }
    {
        Ok(Window {
            port: port.copy(),
            next: Reach::try_new(alloc, port, ROOM)?,
            from: 0,
            at: 0,
            round: 0,
        })
    }

    // Keeps the place of the last chunk that came: `index` bytes after the start of this chunk of the stream.
    fn put_place(&mut self, from: u32, index: usize)
        requires { index ≤ 200000 }
        ensures { self.new ≡ self.old }
    {
        self.from = from.saturating_add((index / CHUNK) as u32);
        self.at = index % CHUNK;
    }

    // Returns whether a chunk stands at the place that is tried first: right after the last chunk, if one came last.
    fn comes_next(&mut self, last: &Last, chunk: &[u8]) -> bool
        requires { self.old.round + 88 ≤ 2 ^ 32 }
        ensures answer { result ≡ true → (is_part chunk.now (near self.old.port self.old.round) ≡ true)
            × (jumps (near self.old.port self.old.round) last.now chunk.now ≡ false) }
        ensures same { self.new ≡ self.old }
    {
        let first = self.round.saturating_sub(BEHIND);
        let count = if self.at == 0 { WHOLE } else { AHEAD };
        if self.from < self.next.first()
            || self.from < first
            || self.from > first + (CHUNKS - AHEAD)
        {
            return false;
        }
        self.next.reach(first, self.from, count);
        if self.next.made() > first + CHUNKS {
            return false;
        }
        let at = CHUNK * (self.from - self.next.first()) as usize + self.at;
        let stands = last.stands_before(chunk, self.next.bytes(), at);
        if stands {
            self.put_place(self.from, self.at + last.len());
        }
        stands
    }

    // Returns the kind of a round that brings this chunk, by all near bytes, which `others` has.
    fn looked_up(&mut self, others: &[u8], last: &mut Last, chunk: &[u8]) -> Option<Kind>
        requires others { others.now ≡ near self.old.port self.old.round }
        requires length { length chunk.now ≤ 2352 }
        requires some { are_ones chunk.now ≡ false }
        ensures kind { result ≡ own_kind (near self.old.port self.old.round) last.old (Delivered.Chunk chunk.now) }
        ensures same { self.new ≡ self.old }
    {
        let Some(index) = memmem::find(others, chunk) else {
            return kind_of_pieces(chunk, others);
        };
        let jumps = last.jumps(others, chunk);
        self.put_place(self.round.saturating_sub(BEHIND), index);
        if jumps {
            Some(Kind::Jump)
        } else {
            Some(Kind::InOrder)
        }
    }

    // Returns the kind of a round that brings this chunk, by all near bytes, which it makes in the scratch.
    fn sought(&mut self, scratch: &mut Scratch, last: &mut Latest, chunk: &[u8]) -> Option<Kind>
        requires few { self.old.round + 88 ≤ 2 ^ 32 }
        requires length { length chunk.now ≤ 2352 }
        requires some { are_ones chunk.now ≡ false }
        ensures kind { result ≡ own_kind (near self.old.port self.old.round) (came last.old) (Delivered.Chunk chunk.now) }
        ensures same { self.new ≡ self.old }
    {
        scratch.fill(&self.port, self.round);
        last.spell(scratch, &self.port, self.round.saturating_sub(BEHIND));
        self.looked_up(scratch.bytes(), &mut last.plain, chunk)
    }

    // Returns whether the last chunk is known by its number, and this chunk is the next one of the stream. If so, keeps
    // this chunk as what came last.
    fn goes_on(&mut self, last: &mut Latest, chunk: &[u8]) -> bool
        requires { self.old.round + 88 ≤ 2 ^ 32 }
        ensures answer { result ≡ true → (is_part chunk.now (near self.old.port self.old.round) ≡ true)
            × (jumps (near self.old.port self.old.round) (came last.old) chunk.now ≡ false) }
        ensures last { result ≡ true → came last.new ≡ Delivered.Chunk chunk.now }
        ensures kept { result ≡ false → last.new ≡ last.old }
        ensures same { self.new ≡ self.old }
    {
        let first = self.round.saturating_sub(BEHIND);
        let number = self.next.made();
        if number <= first || number >= first + CHUNKS || !last.is_before(&self.port, number) {
            return false;
        }
        let follows = self.next.is_next(self.round % TURN == 0, chunk);
        if follows {
            last.step();
            self.from = number;
            self.at = 0;
        }
        follows
    }

    // Returns whether AIS came last, and a chunk is one that the port sent later. If so, keeps it as what came last.
    fn comes_later(&mut self, last: &mut Latest, chunk: &[u8]) -> bool
        requires { self.old.round + 88 ≤ 2 ^ 32 }
        ensures answer { result ≡ true → (is_part chunk.now (near self.old.port self.old.round) ≡ true)
            × (jumps (near self.old.port self.old.round) (came last.old) chunk.now ≡ false) }
        ensures last { result ≡ true → came last.new ≡ Delivered.Chunk chunk.now }
        ensures kept { result ≡ false → last.new ≡ last.old }
        ensures same { self.new ≡ self.old }
    {
        let made = self.next.made();
        if self.at != 0 || made > self.round || !last.is_ais() {
            return false;
        }
        let first = self.round.saturating_sub(BEHIND);
        let found = self.next.seek(made.max(first), self.round + 1, chunk);
        if found {
            self.from = self.next.made() - 1;
            last.know(&self.port, self.from);
        }
        found
    }

    // Returns whether a chunk comes next, after one whose bytes are kept.
    fn comes_after(&mut self, last: &Latest, chunk: &[u8]) -> bool
        requires { self.old.round + 88 ≤ 2 ^ 32 }
        ensures answer { result ≡ true → (is_part chunk.now (near self.old.port self.old.round) ≡ true)
            × (jumps (near self.old.port self.old.round) (came last.now) chunk.now ≡ false) }
        ensures same { self.new ≡ self.old }
    {
        last.is_plain() && self.comes_next(&last.plain, chunk)
    }

    // Keeps a chunk that was found as what came last, by its number where it is a whole chunk of the stream.
    fn keep(&mut self, last: &mut Latest, chunk: &[u8])
        requires few { self.old.round + 88 ≤ 2 ^ 32 }
        requires length { length chunk.now ≤ 2352 }
        ensures last { came last.new ≡ Delivered.Chunk chunk.now }
        ensures same { self.new ≡ self.old }
    {
        if self.at == 0 && chunk.len() == CHUNK && self.from < self.round + 8 {
            self.next.end_at(&self.port, self.from);
            if self.next.ends_with(chunk) {
                last.know(&self.port, self.next.made() - 1);
                return;
            }
        }
        last.put_chunk(chunk);
    }

    /// Returns the kind of a round that brings this chunk, where it is the port's or ones. Keeps it as what came last.
    pub(crate) fn own_chunk(
        &mut self,
        scratch: &mut Scratch,
        last: &mut Latest,
        chunk: &[u8],
    ) -> Option<Kind>
        requires few { self.old.round + 88 ≤ 2 ^ 32 }
        requires length { length chunk.now ≤ 2352 }
        ensures kind { result ≡ own_kind (near self.old.port self.old.round) (came last.old) (Delivered.Chunk chunk.now) }
        ensures same { self.new ≡ self.old }
        ensures last { came last.new ≡ Delivered.Chunk chunk.now }
    {
        if are_ones(chunk) {
            last.put_chunk(chunk);
            return Some(Kind::Ones);
        }
        if self.goes_on(last, chunk) {
            return Some(Kind::InOrder);
        }
        if self.comes_later(last, chunk) {
            return Some(Kind::InOrder);
        }
        if self.comes_after(last, chunk) {
            self.keep(last, chunk);
            return Some(Kind::InOrder);
        }
        let kind = self.sought(scratch, last, chunk);
        match kind {
            Some(Kind::InOrder) | Some(Kind::Jump) => self.keep(last, chunk),
            _ => last.put_chunk(chunk),
        }
        kind
    }

    /// Returns whether one of the pieces of a chunk stands in the near bytes.
    pub fn holds(&self, scratch: &mut Scratch, chunk: &[u8]) -> bool
        requires { self.now.round + 88 ≤ 2 ^ 32 }
        ensures { result ≡ holds chunk.now (near self.now.port self.now.round) }
    {
        holds(chunk, scratch.near(&self.port, self.round))
    }

    /// Moves to the bytes that are near in the next round.
    pub fn step(&mut self)
        requires { self.old.round + 8 ≤ 2 ^ 32 }
        ensures { self.new ≡ record self.old { round = self.old.round + 1 } }
    {
        self.round += 1;
    }
}
