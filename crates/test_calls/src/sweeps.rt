//! Calls of which each read fails in turn, and each write, and calls that may run out of memory.

use crate::calls::{Ending, Given, READ, WRITE, call, ends};
use std::alloc::Global;

/// A call, how it ends, and the pieces in which its text is written.
#[derive(Clone, Copy)]
pub(crate) struct Sweep {
    pub(crate) given: Given<'static>,
    pub(crate) ending: Ending<'static>,
    pub(crate) pieces: &'static [&'static str],
}

// Returns whether each read that fails is told, and the one after the last, which is never made, changes nothing. The
// plan comes in pieces, and its end in a read of its own.
fn reads_come_out(alloc: Global, sweep: &Sweep) -> bool {
    let last = sweep.given.document.len().div_ceil(READ).min(1000) as u32 + 1;
    for number in 1..=last + 1 {
        let failing = [number];
        let given = Given {
            reads: &failing,
            ..sweep.given
        };
        let ending = if number <= last {
            (3, "read fault\n")
        } else {
            sweep.ending
        };
        if !ends(alloc, given, ending) {
            return false;
        }
    }
    true
}

/// Returns how many calls tell each read that fails before the first that doesn't.
pub(crate) fn right_reads(alloc: Global, sweeps: &[Sweep]) -> usize {
    for i in 0..sweeps.len() {
        if !reads_come_out(alloc, &sweeps[i]) {
            return i;
        }
    }
    sweeps.len()
}

// Returns the number of writes that take these pieces.
fn writes_of(pieces: &[&str]) -> usize {
    let mut writes = 0usize;
    for piece in pieces {
        writes = writes.saturating_add(piece.len().div_ceil(WRITE));
    }
    writes
}

// Returns the front of a text in pieces that so many writes take.
fn front<'a>(text: &'a str, pieces: &[&str], writes: u32) -> &'a str {
    let mut left = writes as usize;
    let mut count = 0usize;
    for piece in pieces {
        let turns = piece.len().div_ceil(WRITE);
        let taken = left.min(turns).saturating_mul(WRITE);
        count = count.saturating_add(taken.min(piece.len()));
        left = left.saturating_sub(turns);
    }
    text.get(..count).unwrap_or("")
}

// Returns whether each write that fails is told, and the one after the last, which is never made, changes nothing.
fn writes_come_out(alloc: Global, sweep: &Sweep) -> bool {
    let last = writes_of(sweep.pieces).min(1000) as u32;
    for number in 1..=last + 1 {
        let failing = [number];
        let given = Given {
            writes: &failing,
            ..sweep.given
        };
        let ending = if number <= last {
            (4, front(sweep.ending.1, sweep.pieces, number - 1))
        } else {
            sweep.ending
        };
        if !ends(alloc, given, ending) {
            return false;
        }
    }
    true
}

/// Returns how many calls tell each write that fails before the first that doesn't.
pub(crate) fn right_writes(alloc: Global, sweeps: &[Sweep]) -> usize {
    for i in 0..sweeps.len() {
        if !writes_come_out(alloc, &sweeps[i]) {
            return i;
        }
    }
    sweeps.len()
}

// Returns whether a call has no memory and writes nothing, or ends as it should.
fn answers(alloc: Global, sweep: &Sweep) -> bool {
    match call(alloc, sweep.given) {
        Ok((70, sink)) => sink.bytes().is_empty(),
        Ok((number, sink)) => {
            number == sweep.ending.0 && sink.bytes() == sweep.ending.1.as_bytes()
        }
        Err(_) => false,
    }
}

/// Returns how many calls answer as they should, whatever memory there is, before the first that doesn't.
pub(crate) fn right_memories(alloc: Global, sweeps: &[Sweep]) -> usize {
    for i in 0..sweeps.len() {
        if !answers(alloc, &sweeps[i]) {
            return i;
        }
    }
    sweeps.len()
}
