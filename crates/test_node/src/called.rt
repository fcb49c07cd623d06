//! The call over objects in memory.

use sdh_node_cli::{Ending, sdhnode};
use sdh_outside::{MemSink, MemSource};
use std::alloc::{AllocError, Global};
use test_texts::{SMALLEST, words_of};

/// Which calls of a source and a sink fail, counted from 1, and how many bytes each takes.
#[derive(Clone, Copy, Debug)]
pub struct Outside<'a> {
    pub piece: usize,
    pub reads: &'a [u32],
    pub writes: &'a [u32],
}

/// No call fails.
pub const SOUND: Outside<'static> = Outside {
    piece: 4096,
    reads: &[],
    writes: &[],
};

/// Node 2, with lines alone.
pub const NODE_2: &[&str] = &["2"];

pub const NO_WORDS: &[&str] = &[];

pub const USAGE: &str = "usage: sdhnode ID, frames, lines\n";

/// The line that ends a plan.
pub const END: &str = "end of plan\n";

/// A record: the first round.
pub const FIRST: &str = "round none none\n";

/// A record, for which nothing is written.
pub const FORCED: &str = "forced east\n";

/// A record: a round in which the west is dark.
pub const DARK: &str = "round dark none\n";

/// The records of the stream, one after the other.
pub const RECORDS: [&str; 3] = [FIRST, FORCED, DARK];

/// What is written for the first round, as the rules make it.
pub const IDLE: &str =
    "round 0 node 2 idle far - west 01 20 east 03 20 heard - - - - asks nr nr\nport c1 b ais\n";

/// What is written for the round in which the west is dark.
pub const ISOLATED: &str =
    "round 1 node 2 isolated far - west b1 26 east d3 20 heard - - - - asks sf fs\nport c1 b ais\n";

/// Returns the ending, the source with what is left of the stream, and the sink with what was written.
pub fn call(
    alloc: Global,
    words: &[&str],
    stream: &[u8],
    outside: Outside<'_>,
) -> Result<(Ending, MemSource, MemSink), AllocError> {
    let list = words_of(alloc, words)?;
    let piece = outside.piece.max(1);
    let mut source = MemSource::new(alloc, stream, piece, outside.reads)?;
    let mut sink = MemSink::new(alloc, 65_536, piece, outside.writes)?;
    let ending = sdhnode(alloc, &list, &mut source, &mut sink);
    Ok((ending, source, sink))
}

/// Returns these texts as one.
pub fn joined(alloc: Global, texts: &[&str]) -> Result<Vec<u8>, AllocError> {
    let mut all = Vec::new(alloc);
    for text in texts {
        all.extend_from_slice(text.as_bytes())?;
    }
    Ok(all)
}

/// Returns the smallest plan and the records.
pub fn stream(alloc: Global) -> Result<Vec<u8>, AllocError> {
    joined(alloc, &[SMALLEST, END, FIRST, FORCED, DARK])
}
