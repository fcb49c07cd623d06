//! Once a write has failed no round runs any more, whatever was to be reported.

use crate::calls::{Given, Program, SOUND, all_right, call_and_count};
use std::alloc::Global;

// A program that runs the smallest plan, which of its reads and writes fail, and how many frames its fibres were sent.
// A ring of three sends six in each round. Where the first read fails, and its line can't be written, no round runs.
//
// Lines of `sdhaps` are written in pieces of 50 bytes: those of the first round in writes 1 to 5, those of the round after
// two others in writes 6 to 10, and then the line of the step and the last one.
type Row = (Program, &'static [u32], &'static [u32], usize);

const STOPS: &[Row] = &[
    (Program::Ring, &[], &[1], 774),
    (Program::Ring, &[1], &[1], 0),
    (Program::Path, &[1], &[1], 0),
    (Program::Watch, &[1], &[1], 0),
    (Program::Outages, &[1], &[1], 0),
    (Program::Signals, &[1], &[1], 0),
    (Program::Signals, &[], &[1], 6),
    (Program::Signals, &[], &[5], 6),
    (Program::Signals, &[], &[6], 24),
    (Program::Signals, &[], &[10], 24),
    (Program::Signals, &[], &[11], 774),
    (Program::Signals, &[], &[12], 774),
];

fn right_stops(alloc: Global, rows: &[Row]) -> usize {
    for i in 0..rows.len() {
        let (program, reads, writes, frames) = rows[i];
        let given = Given {
            program,
            reads,
            writes,
            ..SOUND
        };
        if call_and_count(alloc, given) != Ok((4, frames)) {
            return i;
        }
    }
    rows.len()
}

#[test]
fn no_round_runs_after_a_write_that_failed(rt: HostRuntime) {
    all_right(&rt, right_stops(rt.alloc(), STOPS), STOPS.len());
}
