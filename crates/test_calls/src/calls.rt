//! Calls of the programs over objects in memory, and how they end.
ghost use Rattle.sdh_plant.specs.Fibres.{HasNoFibres};

use sdh_aps_cli::sdhaps;
use sdh_cli::sdhring;
use sdh_outage_cli::sdhoutage;
use sdh_outside::{MemSink, MemSource};
use sdh_plant::{
    FailingPlant, FibrePlant, KeepingPlant, LendingPlant, Plant, PlantCall, RecordingPlant,
    ToldPlant,
};
use sdh_retime_cli::retime;
use sdh_ringmap::Rate;
use sdh_sncp_cli::sdhpath;
use sdh_watch::sdhwatch;
use sdh_whatif_cli::whatif;
use std::alloc::{AllocError, Global};
use std::process::Abort;
use test_texts::{SMALLEST, scripted, words_of};

/// A program that reads plans and answers a number.
#[derive(Clone, Copy)]
pub(crate) enum Program {
    /// Shared rings.
    Ring,
    /// Path rings.
    Path,
    /// Shared rings, with watches.
    Watch,
    /// Shared rings, whose signalling is written while they run.
    Signals,
    /// Shared rings, whose outages are listed.
    Outages,
    /// What is lost when.
    Losses,
    /// A stream whose line is too slow or too fast.
    Retiming,
}

/// The fibres of a run.
#[derive(Clone, Copy)]
pub(crate) enum Fibres {
    /// Honest, and without fail.
    Honest,
    /// One call of them fails, by its number, counted from 1.
    Failing(PlantCall, u32),
    /// They have room for so many frames.
    Recording(usize),
    /// Nothing comes out of them.
    Dark,
    /// Honest, with what they carry kept beside them.
    Kept,
}

/// What a call is given: its words, what its source has, its fibres, which reads and writes fail, counted from 1, how
/// many bytes a read gives at most and how many a write takes, and the room of the sink.
#[derive(Clone, Copy)]
pub(crate) struct Given<'a> {
    pub(crate) program: Program,
    pub(crate) words: &'a [&'a str],
    pub(crate) document: &'a str,
    pub(crate) fibres: Fibres,
    pub(crate) reads: &'a [u32],
    pub(crate) writes: &'a [u32],
    pub(crate) read: usize,
    pub(crate) write: usize,
    pub(crate) room: usize,
}

/// How a call ends: its number, and all that is written.
pub(crate) type Ending<'a> = (u8, &'a str);

/// How many bytes a read gives at most, and how many a write takes, where nothing else is said.
pub(crate) const READ: usize = 64;

pub(crate) const WRITE: usize = 50;

/// The smallest plan is run, and no call fails.
pub(crate) const SOUND: Given<'static> = Given {
    program: Program::Ring,
    words: RUN,
    document: SMALLEST,
    fibres: Fibres::Honest,
    reads: &[],
    writes: &[],
    read: READ,
    write: WRITE,
    room: 16_384,
};

/// The words of the commands that read a plan, the last of which names no circuit of these tests.
pub(crate) const RUN: &[&str] = &["run"];

pub(crate) const CHECK: &[&str] = &["check"];

pub(crate) const DROP: &[&str] = &["drop", "c1", "a"];

pub(crate) const DROP_OTHER: &[&str] = &["drop", "c9", "a"];

/// Words that are no command.
pub(crate) const NO_WORDS: &[&str] = &[];

/// A settle step.
pub(crate) const ONCE: &str = "\"settle\"";

/// Two settle steps.
pub(crate) const TWICE: &str = "\"settle\", \"settle\"";

// Each program by itself, so that none is proved beside the others.
fn ring<P: Plant>(
    alloc: Global,
    words: &[String],
    source: &mut MemSource,
    sink: &mut MemSink,
    plant: &mut P,
) -> u8
    requires { HasNoFibres (P.fibres plant.old) }
{
    sdhring(alloc, words, source, sink, plant).number()
}

fn path<P: Plant>(
    alloc: Global,
    words: &[String],
    source: &mut MemSource,
    sink: &mut MemSink,
    plant: &mut P,
) -> u8
    requires { HasNoFibres (P.fibres plant.old) }
{
    sdhpath(alloc, words, source, sink, plant)
}

fn watch<P: Plant>(
    alloc: Global,
    words: &[String],
    source: &mut MemSource,
    sink: &mut MemSink,
    plant: &mut P,
) -> u8
    requires { HasNoFibres (P.fibres plant.old) }
{
    sdhwatch(alloc, words, source, sink, plant)
}

fn signals<P: LendingPlant>(
    alloc: Global,
    words: &[String],
    source: &mut MemSource,
    sink: &mut MemSink,
    plant: &mut P,
) -> u8
    requires { HasNoFibres (P.fibres plant.old) }
{
    sdhaps(alloc, words, source, sink, plant).number()
}

fn outages<P: Plant>(
    alloc: Global,
    words: &[String],
    source: &mut MemSource,
    sink: &mut MemSink,
    plant: &mut P,
) -> u8
    requires { HasNoFibres (P.fibres plant.old) }
{
    sdhoutage(alloc, words, source, sink, plant).number()
}

fn losses(alloc: Global, words: &[String], source: &mut MemSource, sink: &mut MemSink) -> u8 {
    whatif(alloc, words, source, sink).number()
}

fn retiming(alloc: Global, words: &[String], source: &mut MemSource, sink: &mut MemSink) -> u8 {
    retime(alloc, words, source, sink)
}

// Returns the number, and the sink with what was written.
fn call_over<P: LendingPlant>(
    alloc: Global,
    given: Given<'_>,
    plant: &mut P,
) -> Result<(u8, MemSink), AllocError>
    requires { HasNoFibres (P.fibres plant.old) }
{
    let words = words_of(alloc, given.words)?;
    let document = given.document.as_bytes();
    let mut source = MemSource::new(alloc, document, given.read.max(1), given.reads)?;
    let mut sink = MemSink::new(alloc, given.room, given.write.max(1), given.writes)?;
    let number = match given.program {
        Program::Ring => ring(alloc, &words, &mut source, &mut sink, plant),
        Program::Path => path(alloc, &words, &mut source, &mut sink, plant),
        Program::Watch => watch(alloc, &words, &mut source, &mut sink, plant),
        Program::Signals => signals(alloc, &words, &mut source, &mut sink, plant),
        Program::Outages => outages(alloc, &words, &mut source, &mut sink, plant),
        Program::Losses => losses(alloc, &words, &mut source, &mut sink),
        Program::Retiming => retiming(alloc, &words, &mut source, &mut sink),
    };
    Ok((number, sink))
}

/// Returns the number, and the sink with what was written.
pub(crate) fn call(alloc: Global, given: Given<'_>) -> Result<(u8, MemSink), AllocError> {
    match given.fibres {
        Fibres::Honest => call_over(alloc, given, &mut FibrePlant::new()),
        Fibres::Kept => call_over(alloc, given, &mut KeepingPlant::new(FibrePlant::new())),
        Fibres::Recording(room) => call_over(alloc, given, &mut RecordingPlant::new(room)),
        Fibres::Failing(call, number) => {
            let mut plant = FailingPlant::new(alloc, &[(call, number)])?;
            call_over(alloc, given, &mut plant)
        }
        Fibres::Dark => {
            let mut plant = ToldPlant::new(Rate::Four, Vec::new(alloc));
            call_over(alloc, given, &mut plant)
        }
    }
}

/// Returns the number of a call over fibres that record what is sent, and how many frames were sent.
pub(crate) fn call_and_count(alloc: Global, given: Given<'_>) -> Result<(u8, usize), AllocError> {
    let mut plant = RecordingPlant::new(2_000);
    let (number, _) = call_over(alloc, given, &mut plant)?;
    Ok((number, plant.sent().len()))
}

/// Returns whether a call ends so.
pub(crate) fn ends(alloc: Global, given: Given<'_>, ending: Ending<'_>) -> bool {
    match call(alloc, given) {
        Ok((number, sink)) => number == ending.0 && sink.bytes() == ending.1.as_bytes(),
        Err(_) => false,
    }
}

/// A call, its fibres, the steps that its plan has in place of its settle step, and how it ends.
pub(crate) type Row = (Given<'static>, Fibres, &'static str, u8, &'static str);

fn comes_out(alloc: Global, row: &Row) -> Result<bool, AllocError> {
    let (given, fibres, script, number, text) = *row;
    let document = scripted(alloc, given.document, script)?;
    let given = Given {
        document: document.as_str(),
        fibres,
        ..given
    };
    Ok(ends(alloc, given, (number, text)))
}

fn right_rows(alloc: Global, rows: &[Row]) -> usize {
    for i in 0..rows.len() {
        if comes_out(alloc, &rows[i]) != Ok(true) {
            return i;
        }
    }
    rows.len()
}

/// Stops where not all rows of a table come out, and tells how many do before the first that doesn't.
pub(crate) fn all_right(rt: &impl Abort, right: usize, rows: usize) {
    assert!(rt; right == rows, "row {right}, counted from 0");
}

/// Stops where not all of these calls end so.
pub(crate) fn all_come_out(rt: &impl Abort, alloc: Global, rows: &[Row]) {
    all_right(rt, right_rows(alloc, rows), rows.len());
}
