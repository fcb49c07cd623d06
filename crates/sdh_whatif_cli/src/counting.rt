//! What becomes of the circuits of a plan in a case, and counts of them.
ghost use Rattle.std.specs.Prelude.{◌≡◌, ◌+◌, ◌<◌, ◌≤◌, List, Some, if◌then◌else◌, length, max, slice_get};
ghost use Rattle.sdh_circuits.specs.Provisioned.{Provisioned};
ghost use Rattle.sdh_verdicts.specs.declared.failure.Failure.{Failure};
ghost use Rattle.sdh_whatif_cli.specs.Counting.{AreSpansOf, fate_by, fate_of, same_fate, fate_counts};

use sdh_plan::Plan;
use sdh_verdicts::{CaseSpans, Verdict, told, told_hops, told_impaired};

/// What becomes of a circuit.
#[derive(Clone, Copy, Debug)]
pub enum Fate {
    /// Its ends are joined by its own arc, and no span of that has the request of a manual switch or a higher one.
    Kept,
    /// Its ends are joined by its own arc, and a span of that has the request of a manual switch or a higher one.
    Impaired,
    /// Its ends are joined only round applied spans.
    Over,
    /// Its ends aren't joined.
    Lost,
}

/// The number of circuits with each of these fates, and the number of spans of the longest way.
#[derive(Clone, Copy)]
pub struct Counts {
    pub kept: u8,
    pub impaired: u8,
    pub over: u8,
    pub lost: u8,
    pub hops: u8,
}

// Returns what becomes of a circuit with this verdict.
fn fate_by(verdict: Verdict, impaired: bool) -> Fate
    ensures { result ≡ fate_by verdict impaired }
{
    match verdict {
        Verdict::Kept if impaired => Fate::Impaired,
        Verdict::Kept => Fate::Kept,
        Verdict::Over => Fate::Over,
        Verdict::Lost => Fate::Lost,
    }
}

/// Returns what becomes of a circuit, by its number, in the case with these spans.
pub fn fate_of(plan: &Plan, spans: &CaseSpans, number: u8) -> Fate
    requires number { number < length plan.now.circuits }
    requires case { (case : List Failure) × AreSpansOf plan.now case spans.now }
    ensures { (case : List Failure) (c : Provisioned) → AreSpansOf plan.now case spans.now
        → slice_get plan.now.circuits number ≡ Some c → result ≡ fate_of plan.now case c }
{
    let verdict = told(plan, &spans.applied, number);
    let impaired = told_impaired(plan, &spans.troubled, number);
    fate_by(verdict, impaired)
}

// Returns the counts with one circuit more that has this fate, and whose bytes go over `hops` spans.
fn with_fate(counts: Counts, fate: Fate, hops: u8) -> Counts
    requires few { (counts.kept < 255) × (counts.impaired < 255) × (counts.over < 255) × (counts.lost < 255) }
    ensures kept { result.kept ≡ counts.kept + (if same_fate Fate.Kept fate then 1 else 0) }
    ensures impaired { result.impaired ≡ counts.impaired + (if same_fate Fate.Impaired fate then 1 else 0) }
    ensures over { result.over ≡ counts.over + (if same_fate Fate.Over fate then 1 else 0) }
    ensures lost { result.lost ≡ counts.lost + (if same_fate Fate.Lost fate then 1 else 0) }
    ensures hops { result.hops ≡ max hops counts.hops }
    ensures low { (result.kept ≤ counts.kept + 1) × (result.impaired ≤ counts.impaired + 1) × (result.over ≤ counts.over + 1)
        × (result.lost ≤ counts.lost + 1) }
{
    let hops = hops.max(counts.hops);
    let mut now = Counts { hops, ..counts };
    match fate {
        Fate::Kept => now.kept += 1,
        Fate::Impaired => now.impaired += 1,
        Fate::Over => now.over += 1,
        Fate::Lost => now.lost += 1,
    }
    now
}

const NO_COUNTS: Counts = Counts {
    kept: 0,
    impaired: 0,
    over: 0,
    lost: 0,
    hops: 0,
};

/// Returns the counts of the case with these spans.
pub fn counts_of(plan: &Plan, spans: &CaseSpans) -> Counts
    requires case { (case : List Failure) × AreSpansOf plan.now case spans.now }
    ensures { (case : List Failure) → AreSpansOf plan.now case spans.now → result ≡ fate_counts plan.now case }
{
    let mut counts = NO_COUNTS;
    for i in 0..plan.circuits().len() {
        let number = i as u8;
        let fate = fate_of(plan, spans, number);
        let hops = told_hops(plan, &spans.applied, number);
        counts = with_fate(counts, fate, hops);
    }
    counts
}
