//! The program that reports what is lost when: with failures outside in mid-stream, and with too little memory.
ghost use Rattle.std.specs.Prelude.{◌≤◌, length};

use crate::calls::{
    Fibres, Given, NO_WORDS, ONCE, Program, Row, SOUND, all_come_out, all_right, ends,
};
use crate::sweeps::{Sweep, right_memories};
use crate::texts::{TABLE, USAGE_OF_LOSSES};
use std::alloc::Global;

// Each line is written by itself, in one write.
const SINGLE: Given<'static> = Given {
    program: Program::Losses,
    words: &["single", "head"],
    read: 4096,
    write: 4096,
    ..SOUND
};

// Returns how many bytes the first lines of a text have.
fn first_lines(text: &[u8], lines: usize) -> usize
    ensures { result ≤ length text.now }
{
    let mut left = lines;
    for at in 0..text.len() {
        if left == 0 {
            return at;
        }
        if text[at] == b'\n' {
            left -= 1;
        }
    }
    text.len()
}

// Returns whether a write that fails is told, and what was written by then are the lines before.
fn is_told(alloc: Global, number: u32) -> bool
    requires { 1 ≤ number }
{
    let front = first_lines(TABLE.as_bytes(), (number - 1) as usize);
    let given = Given {
        writes: &[number],
        ..SINGLE
    };
    ends(alloc, given, (4, TABLE.get(..front).unwrap_or("")))
}

fn right_writes(alloc: Global) -> usize {
    for number in 1..=32u32 {
        if !is_told(alloc, number) {
            return (number - 1) as usize;
        }
    }
    32
}

#[test]
fn each_write_that_fails_is_told(rt: HostRuntime) {
    all_right(&rt, right_writes(rt.alloc()), 32);
}

const IN_PIECES: Given<'static> = Given {
    read: 7,
    write: 7,
    ..SINGLE
};

// There is no write after the last one.
const LATE: Given<'static> = Given {
    writes: &[33],
    ..SINGLE
};

const DEAF: Given<'static> = Given {
    reads: &[1],
    ..SINGLE
};

const ROWS: &[Row] = &[
    (SINGLE, Fibres::Honest, ONCE, 0, TABLE),
    (IN_PIECES, Fibres::Honest, ONCE, 0, TABLE),
    (LATE, Fibres::Honest, ONCE, 0, TABLE),
    (DEAF, Fibres::Honest, ONCE, 3, "read fault\n"),
];

#[test]
fn calls_end_as_told(rt: HostRuntime) {
    all_come_out(&rt, rt.alloc(), ROWS);
}

const MEMORY: &[Sweep] = &[
    Sweep {
        given: SINGLE,
        ending: (0, TABLE),
        pieces: &[],
    },
    Sweep {
        given: Given {
            document: "rate = ",
            ..SINGLE
        },
        ending: (5, "not toml\n"),
        pieces: &[],
    },
    Sweep {
        given: Given {
            words: NO_WORDS,
            ..SINGLE
        },
        ending: (2, USAGE_OF_LOSSES),
        pieces: &[],
    },
];

// It shows most where one of the allocations is made to fail.
#[test]
fn want_of_memory_writes_nothing(rt: HostRuntime) {
    all_right(&rt, right_memories(rt.alloc(), MEMORY), MEMORY.len());
}
