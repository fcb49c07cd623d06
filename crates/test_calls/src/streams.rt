//! A source and a sink that go on where a call of theirs failed.

use crate::calls::{CHECK, RUN};
use crate::texts::SMALLEST_TEXT;
use sdh_cli::{Status, sdhring};
use sdh_outside::{MemSink, MemSource};
use sdh_plant::FibrePlant;
use std::alloc::{AllocError, Global};
use test_texts::{SMALLEST, words_of};

// Runs what is left of a source into a sink of its own, and returns whether it ends so.
fn next_ends(
    alloc: Global,
    source: &mut MemSource,
    status: Status,
    text: &str,
) -> Result<bool, AllocError> {
    let words = words_of(alloc, RUN)?;
    let mut sink = MemSink::new(alloc, 16_384, 64, &[])?;
    let answer = sdhring(alloc, &words, source, &mut sink, &mut FibrePlant::new());
    Ok(answer == status && sink.bytes() == text.as_bytes())
}

const NO_RATE: Status = Status::BadPlan {
    reason: 13,
    place: 0,
};

// Two pieces of spaces are taken, the third read fails, and the plan is left.
fn source_goes_on(alloc: Global) -> Result<bool, AllocError> {
    let mut document = String::from_str(alloc, " ")?.repeat(alloc, 128)?;
    document.push_str(SMALLEST)?;
    let mut source = MemSource::new(alloc, document.as_bytes(), 64, &[3])?;
    let first = next_ends(alloc, &mut source, Status::ReadFault, "read fault\n")?;
    let second = next_ends(alloc, &mut source, Status::Ok, SMALLEST_TEXT)?;
    let third = next_ends(alloc, &mut source, NO_RATE, "bad plan 13 at 0\n")?;
    Ok(first && second && third)
}

#[test]
fn a_source_goes_on_where_a_read_failed(rt: HostRuntime) {
    assert!(rt; source_goes_on(rt.alloc()) == Ok(true));
}

// Lists the tables of the smallest plan into a sink, and returns whether the call ends so, with this text in the sink.
fn next_lists(
    alloc: Global,
    sink: &mut MemSink,
    status: Status,
    text: &str,
) -> Result<bool, AllocError> {
    let words = words_of(alloc, CHECK)?;
    let mut source = MemSource::new(alloc, SMALLEST.as_bytes(), 64, &[])?;
    let answer = sdhring(alloc, &words, &mut source, sink, &mut FibrePlant::new());
    Ok(answer == status && sink.bytes() == text.as_bytes())
}

const FRONT: &str = "node 1 east slot 1 c";

const FRONT_AND_WHOLE: &str =
    "node 1 east slot 1 cnode 1 east slot 1 c1 1 2\nnode 2 west slot 1 c1 1 2\ndone\n";

// Its first call writes the front of a text, and the next one a whole one after it.
fn sink_goes_on(alloc: Global) -> Result<bool, AllocError> {
    let mut sink = MemSink::new(alloc, 16_384, 10, &[3])?;
    let first = next_lists(alloc, &mut sink, Status::WriteFault, FRONT)?;
    let second = next_lists(alloc, &mut sink, Status::Ok, FRONT_AND_WHOLE)?;
    Ok(first && second)
}

#[test]
fn a_sink_goes_on_where_a_write_failed(rt: HostRuntime) {
    assert!(rt; sink_goes_on(rt.alloc()) == Ok(true));
}
