//! Laws of the counts and of the lines. The functions change nothing: their contracts are the laws.
ghost use Rattle.std.specs.Prelude.{◌≡◌, ℕ, ◌^◌, ◌<◌, ◌≤◌, List, Some, length};
ghost use Rattle.sdh_circuits.specs.declared.End.{End};
ghost use Rattle.sdh_outage.specs.Lines.{outage_front, of_port, of_nobody, change_line, more_line, summary_line};
ghost use Rattle.sdh_outage.specs.Longest.{LongestIsLongest};

use crate::change::Change;
use crate::lines::LINE_MAX;
use crate::outage::{Outage, Runs, Stretch};
use crate::summary::Summary;

// Rounds and counts are held in 32 bits.
fn rounds_are_few(from: u32, to: u32)
    ensures from { from < 2 ^ 32 }
    ensures to { to < 2 ^ 32 }
{
    let _ = (from, to);
}

fn stretch_is_small(stretch: Option<Stretch>)
    ensures { (s : Stretch) → stretch ≡ Some s → (s.from < 2 ^ 32) × (s.to < 2 ^ 32) }
{
    if let Some(Stretch { from, to }) = stretch {
        rounds_are_few(from, to);
    }
}

fn counts_are_few(ais: u32, ones: u32, jump: u32)
    ensures ais { ais < 2 ^ 32 }
    ensures ones { ones < 2 ^ 32 }
    ensures jump { jump < 2 ^ 32 }
{
    let _ = (ais, ones, jump);
}

fn runs_are_few(runs: Runs)
    ensures count { runs.count < 2 ^ 32 }
    ensures longest { runs.longest < 2 ^ 32 }
{
    rounds_are_few(runs.count, runs.longest);
}

/// The front of any outage's line has at most 223 bytes, for a port of any name of at most 16 bytes.
pub fn outage_front_is_short(outage: &Outage)
    ensures { (name : List ℕ) (end : End) → length name ≤ 16 → length (outage_front name end outage.now) ≤ 223 }
{
    counts_are_few(outage.ais, outage.ones, outage.jump);
    counts_are_few(outage.torn, outage.strange, outage.foreign);
    runs_are_few(outage.runs);
    stretch_is_small(outage.stretch);
}

/// The end of the line of an outage has at most 23 bytes, so that the whole line has room in `LINE_MAX` bytes.
pub fn line_end_is_short()
    ensures port { (name : List ℕ) (end : End) → length name ≤ 16 → length (of_port name end) ≤ 23 }
    ensures nobody { length of_nobody ≤ 23 }
{}

/// The line of any change has room in `LINE_MAX` bytes.
pub fn change_line_is_short(change: &Change)
    ensures { length (change_line change.now) ≤ LINE_MAX }
{
    rounds_are_few(change.round, change.round);
}

/// The line that says how many more changes there were has room in `LINE_MAX` bytes.
pub fn more_line_is_short(count: u32)
    ensures { length (more_line count) ≤ LINE_MAX }
{
    rounds_are_few(count, count);
}

/// The line of any summary has room in `LINE_MAX` bytes.
pub fn summary_line_is_short(summary: &Summary)
    ensures { length (summary_line summary.now) ≤ LINE_MAX }
{
    rounds_are_few(summary.longest, summary.over);
    rounds_are_few(summary.none, summary.still);
    rounds_are_few(summary.foreign, summary.foreign);
}

/// The longest run that is counted is a run of the rounds, and none of theirs is longer.
pub fn longest_is_longest()
    ensures { LongestIsLongest }
{}
