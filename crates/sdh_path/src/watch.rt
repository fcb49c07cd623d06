//! A watch on what a port delivers.
ghost use Rattle.std.specs.Prelude.{◌≡◌, ℕ, ◌+◌, ◌-◌, ◌%◌, ◌<◌, ◌≤◌, ◌↔◌, true, false, List, [], ◌∷◌, ◌++◌, length, drop};
ghost use Rattle.std.specs.Prelude.{IfOk, IsErr};
ghost use Rattle.sdh_payload.specs.Customer.{is_text};
ghost use Rattle.sdh_payload.specs.Stream.{phase_of};
ghost use Rattle.sdh_path.specs.History.{Given, Chunk, Ais, goes_on};
ghost use Rattle.sdh_path.specs.PathReports.{path_report_of};
ghost use Rattle.sdh_path.specs.Kept.{IsTallyOf, IsSmall, CameBy};

use crate::tally::{Tally, VC4_LEN};
use crate::trace::{TRACE_LEN, begun_at, is_rotation, padded};
use sdh_payload::port::is_text;
use std::marker::Model;
use thiserror::Error;

/// The expected trace hasn't 1 to 64 bytes, each from 0x20 to 0x7E.
#[derive(Clone, Copy, Debug, PartialEq, Eq, Error)]
#[error("the trace isn't 1 to 64 bytes, each from 0x20 to 0x7E")]
pub struct BadTrace;

/// The verdict on the last 64 bytes J1.
#[derive(Clone, Copy, Debug, PartialEq, Eq)]
pub enum TraceWord {
    /// The 64 bytes of J1 are a rotation of the expected trace.
    Ok,
    /// The 64 bytes of J1 are no rotation of the expected trace.
    Mismatch,
    /// Fewer than 64 bytes J1 have come.
    Short,
}

/// What a watch reports of the chunks since it last began anew, which it does at AIS and at a new pointer value.
#[derive(Clone, Copy, Debug, PartialEq, Eq)]
pub struct PathReport {
    /// The number of whole VC-4s in these chunks.
    pub vcs: u32,
    /// The number of bits in which B3 of these VC-4s differs from the parity of the VC-4 before each.
    pub b3: u32,
    /// The number of these VC-4s whose signal label C2 isn't 1, equipped.
    pub label: u32,
    /// The verdict on their path trace.
    pub trace: TraceWord,
}

/// A watch on the chunks that a port delivers. It keeps running counts, and allocates no memory.
#[derive(Debug, Drop)]
pub struct Watch {
    trace: [u8; TRACE_LEN],
    value: u16,
    chunks: u32,
    tally: Tally,
    last: [u8; TRACE_LEN],
}

impl Model for Watch {
    ghost use Rattle.sdh_path.specs.Kept.{Kept, IsKept};

    ghost Value = { Kept };

    ghost view = { λ w. record { trace = w.trace; value = w.value; chunks = w.chunks; tally = w.tally; last = w.last } };

    ghost invariant = { λ w. IsKept (record { trace = w.trace; value = w.value; chunks = w.chunks; tally = w.tally; last = w.last }) };
}

// Returns the index in a chunk of the byte with which a VC-4 begins, by the pointer value.
fn first_index(value: u16) -> usize
    requires { value ≤ 782 }
    ensures index { result ≡ phase_of value }
    ensures inside { result < 2349 }
{
    (783 + 3 * usize::from(value)) % VC4_LEN
}

// Returns the counts after a chunk in which a VC-4 begins at index `start`. Where the chunk doesn't go on with those
// before it, the counts begin with that VC-4, and the bytes before it don't count.
fn tally_with(tally: Tally, goes_on: bool, start: usize, bytes: &[u8]) -> Tally
    requires small { IsSmall tally }
    requires start { start < 2349 }
    requires bytes { length bytes.now ≡ 2349 }
    requires few { tally.vcs ≤ 1000000 }
    requires index { goes_on ≡ true → tally.index ≡ (2349 - start) % 2349 }
    ensures anew { goes_on ≡ false → IsTallyOf (drop start bytes.now) result }
    ensures more { goes_on ≡ true → (run : List ℕ) → IsTallyOf run tally → IsTallyOf (run ++ bytes.now) result }
    ensures small { IsSmall result }
    ensures index { result.index ≡ (2349 - start) % 2349 }
    ensures vcs_anew { goes_on ≡ false → result.vcs ≤ 1 }
    ensures vcs_more { goes_on ≡ true → result.vcs ≤ tally.vcs + 1 }
{
    let (head, rest) = bytes.split_at(start);
    if goes_on {
        tally.with(head).with(rest)
    } else {
        Tally::new().with(rest)
    }
}

impl Watch {
    /// Returns a watch that expects this trace and was given nothing.
    #[tactic(auto, using(sdh_payload::proofs::Texts::text_few, crate::proofs::Watching::came_new))]
    pub fn new(trace: &[u8]) -> Result<Watch, BadTrace>
        ensures bad { IsErr result ↔ (is_text trace.now ≡ false) }
        ensures history { IfOk result (λ watch. CameBy trace.now [] watch) }
        ensures none { IfOk result (λ watch. watch.chunks ≡ 0) }
    {
        if !is_text(trace) {
            return Err(BadTrace);
        }
        Ok(Watch {
            trace: padded(trace),
            value: 0,
            chunks: 0,
            tally: Tally::new(),
            last: [0; TRACE_LEN],
        })
    }

    // Returns whether a chunk with this pointer value goes on with the last one: there is one, and it came with the
    // same value.
    fn goes_on(&self, value: u16) -> bool
        ensures history { (trace : List ℕ) (past : List Given) → CameBy trace past self.now → result ≡ goes_on value past }
        ensures some { result ≡ true → 0 < self.now.chunks }
        ensures same { result ≡ true → self.now.value ≡ value }
    {
        self.chunks > 0 && self.value == value
    }

    /// Looks at the 2349 bytes that the port delivered in a round, with the pointer value with which they came. Where
    /// the value isn't that of the last chunk, the watch begins anew with this chunk. At most 1,000,000 chunks may come
    /// before it begins anew.
    pub fn chunk(&mut self, bytes: &[u8], value: u16)
        requires bytes { length bytes.now ≡ 2349 }
        requires value { value ≤ 782 }
        requires few { self.old.chunks < 1000000 }
        ensures history { (trace : List ℕ) (past : List Given) → CameBy trace past self.old
            → CameBy trace (Chunk bytes.now value ∷ past) self.new }
        ensures count { self.new.chunks ≤ self.old.chunks + 1 }
    {
        let goes_on = self.goes_on(value);
        let start = first_index(value);
        let before = if goes_on { self.chunks } else { 0 };
        self.tally = tally_with(self.tally, goes_on, start, bytes);
        self.last[(before % 64) as usize] = bytes[start];
        self.value = value;
        self.chunks = before + 1;
    }

    /// Looks at a round in which the port delivered AIS. The watch begins anew with the next chunk.
    pub fn ais(&mut self)
        ensures history { (trace : List ℕ) (past : List Given) → CameBy trace past self.old → CameBy trace (Ais ∷ past) self.new }
        ensures none { self.new.chunks ≡ 0 }
    {
        self.value = 0;
        self.chunks = 0;
        self.tally = Tally::new();
    }

    // Returns the verdict on the last 64 bytes J1.
    fn trace_word(&self) -> TraceWord
        ensures history { (trace : List ℕ) (past : List Given) → CameBy trace past self.now → result ≡ (path_report_of trace past).trace }
    {
        if self.chunks < 64 {
            return TraceWord::Short;
        }
        let last = begun_at(self.chunks as usize, &self.last);
        if is_rotation(&last, &self.trace) {
            TraceWord::Ok
        } else {
            TraceWord::Mismatch
        }
    }

    /// Returns what the watch reports of the chunks since it began anew.
    pub fn report(&self) -> PathReport
        ensures history { (trace : List ℕ) (past : List Given) → CameBy trace past self.now → result ≡ path_report_of trace past }
    {
        PathReport {
            vcs: self.tally.vcs,
            b3: self.tally.b3,
            label: self.tally.label,
            trace: self.trace_word(),
        }
    }
}
