//! A call of `sdhring` over a source and a sink in memory.
ghost use Rattle.std.specs.Prelude.{◌<◌};
ghost use Rattle.sdh_plant.specs.Fibres.{HasNoFibres};

use sdh_cli::{Status, sdhring};
use sdh_outside::{MemSink, MemSource};
use sdh_plant::Plant;
use std::alloc::{AllocError, Global};

/// How a source and a sink behave: how many bytes they give and take at a time, and the numbers of the read and of the
/// write that fail, counted from 1, or 0 where none fails.
#[derive(Clone, Copy)]
pub struct Failing {
    pub piece: usize,
    pub read: u32,
    pub write: u32,
}

impl Failing {
    /// No call fails.
    pub const NONE: Failing = Failing {
        piece: 4096,
        read: 0,
        write: 0,
    };
}

// Returns the list of these words.
fn listed(alloc: Global, words: &[&str]) -> Result<Vec<String>, AllocError> {
    let mut list = Vec::new(alloc);
    for word in words {
        list.push(String::from_str(alloc, word)?)?;
    }
    Ok(list)
}

// Returns the words of a command by its number: `run` for 0, `check` for 1, `drop c1 a` for 2, and no words for any
// other.
fn words_of(alloc: Global, command: u8) -> Result<Vec<String>, AllocError> {
    match command {
        0 => listed(alloc, &["run"]),
        1 => listed(alloc, &["check"]),
        2 => listed(alloc, &["drop", "c1", "a"]),
        _ => Ok(Vec::new(alloc)),
    }
}

/// Calls `sdhring` with the words of a command, over a document, a sink with room for `room` bytes and a plant. Returns
/// the status, and the sink with what was written.
pub fn call_over<P: Plant>(
    alloc: Global,
    command: u8,
    document: &[u8],
    outside: Failing,
    room: usize,
    plant: &mut P,
) -> Result<(Status, MemSink), AllocError>
    requires piece { 0 < outside.piece }
    requires fresh { HasNoFibres (P.fibres plant.old) }
{
    let words = words_of(alloc, command)?;
    let mut source = MemSource::new(alloc, document, outside.piece, &[outside.read])?;
    let mut sink = MemSink::new(alloc, room, outside.piece, &[outside.write])?;
    let status = sdhring(alloc, &words, &mut source, &mut sink, plant);
    Ok((status, sink))
}
