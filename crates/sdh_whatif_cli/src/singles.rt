//! How many circuits are lost in each failure alone, kind by kind.
ghost use Rattle.std.specs.Prelude.{◌≡◌, ◌+◌, ◌*◌, ◌<◌, ◌≤◌, ◌++◌, codes, decimal, length, []};
ghost use Rattle.sdh_verdicts.specs.Verdicts.{AreSidesOf};
ghost use Rattle.sdh_whatif_cli.specs.Singles.{with_case, tallied, tally_of, kind_text, tally_record, first_of, number_of, kind_record, singles_text};
ghost use Rattle.sdh_whatif_cli.specs.Singles.{own_tally, own_record};
ghost use Rattle.sdh_whatif_cli.specs.Scenes.{IsScene};

use crate::ask::{Kind, Kinds};
use crate::counting::counts_of;
use crate::gathered::worst_last;
use crate::line::Line;
use crate::scene::Scene;
use sdh_plan::Plan;
use sdh_verdicts::{Sides, failure_at};

/// A number of cases, the number of them in which circuits are lost, and the most circuits that are lost in one.
#[derive(Clone, Copy, Debug)]
pub struct Tally {
    pub cases: u8,
    pub losing: u8,
    pub most: u8,
}

// Returns the tally with one case more, in which `lost` circuits are lost.
fn with_case(lost: u8, tally: Tally) -> Tally
    requires few { (tally.cases < 255) × (tally.losing < 255) }
    ensures { result ≡ with_case lost tally }
{
    Tally {
        cases: tally.cases + 1,
        losing: tally.losing + u8::from(lost != 0),
        most: lost.max(tally.most),
    }
}

// Returns the tally with the failure of a number, unless that would mend what the script has set.
fn tallied(plan: &Plan, sides: &Sides<'_>, number: usize, tally: Tally) -> Tally
    requires sides { AreSidesOf plan.now sides.now }
    requires number { number < 10 * length plan.now.nodes }
    requires few { (tally.cases < 255) × (tally.losing < 255) }
    ensures is { result ≡ tallied plan.now number tally }
    ensures more { (result.cases ≤ tally.cases + 1) × (result.losing ≤ tally.losing + 1) }
{
    let failure = failure_at(plan.map().len(), number);
    if sides.mends(failure) {
        return tally;
    }
    let spans = sides.spans(&[failure]);
    with_case(counts_of(plan, &spans).lost, tally)
}

// Returns the tally of `count` failures, from number `from` on.
fn tally_of(plan: &Plan, sides: &Sides<'_>, from: usize, count: usize) -> Tally
    requires sides { AreSidesOf plan.now sides.now }
    requires numbers { from + count ≤ 10 * length plan.now.nodes }
    requires few { (from ≤ 128) × (count ≤ 32) }
    ensures { result ≡ tally_of plan.now from count }
{
    let mut tally = Tally {
        cases: 0,
        losing: 0,
        most: 0,
    };
    for k in 0..count {
        tally = tallied(plan, sides, from + k, tally);
    }
    tally
}

// Appends a number after a comma.
fn put_field(line: &mut Line, number: u8)
    requires room { length line.old + 6 ≤ 20480 }
    ensures text { line.new ≡ line.old ++ codes "," ++ decimal number }
    ensures short { length line.new ≤ length line.old + 6 }
{
    line.put(b",");
    line.put_small(u16::from(number));
}

// Returns the word of a kind.
fn kind_word(kind: Kind) -> &'static [u8]
    ensures word { result.now ≡ kind_text kind }
    ensures short { length result.now ≤ 8 }
{
    match kind {
        Kind::Degraded => b"degraded",
        Kind::Fibres => b"fibres",
        Kind::Spans => b"spans",
        Kind::Nodes => b"nodes",
        Kind::Manual => b"manual",
        Kind::Forced => b"forced",
        Kind::Own => b"own",
    }
}

// Appends the record of some failures.
fn put_tally(line: &mut Line, kind: Kind, tally: Tally)
    requires room { length line.old + 28 ≤ 20480 }
    ensures text { line.new ≡ line.old ++ tally_record kind tally }
    ensures short { length line.new ≤ length line.old + 28 }
{
    line.put(kind_word(kind));
    put_field(line, tally.cases);
    put_field(line, tally.losing);
    put_field(line, tally.most);
    line.put(b"\r\n");
}

// Returns the number of the first failure of a kind in a ring, and how many of that kind there are.
fn numbers_of(nodes: usize, kind: Kind) -> (usize, usize)
    requires few { nodes ≤ 16 }
    ensures first { result.0 ≡ first_of nodes kind }
    ensures count { result.1 ≡ number_of nodes kind }
    ensures within { result.0 + result.1 ≤ 10 * nodes }
    ensures small { (result.0 ≤ 128) × (result.1 ≤ 32) }
{
    match kind {
        Kind::Degraded => (0, 2 * nodes),
        Kind::Fibres => (2 * nodes, 2 * nodes),
        Kind::Spans => (4 * nodes, nodes),
        Kind::Nodes => (5 * nodes, nodes),
        Kind::Manual => (6 * nodes, 2 * nodes),
        Kind::Forced => (8 * nodes, 2 * nodes),
        Kind::Own => (0, 0),
    }
}

// Appends the record of a kind, where it is taken.
fn put_record(line: &mut Line, plan: &Plan, sides: &Sides<'_>, kinds: Kinds, kind: Kind)
    requires sides { AreSidesOf plan.now sides.now }
    requires room { length line.old + 28 ≤ 20480 }
    ensures text { line.new ≡ line.old ++ kind_record plan.now kinds kind }
    ensures short { length line.new ≤ length line.old + 28 }
{
    if kinds.takes(kind) {
        let (first, count) = numbers_of(plan.map().len(), kind);
        put_tally(line, kind, tally_of(plan, sides, first, count));
    }
}

// Returns the tally of the user's own failures.
fn own_tally(scene: &Scene<'_>) -> Tally
    requires scene { IsScene scene.now }
    ensures { result ≡ own_tally scene.now.plan.now scene.now.own.now (length scene.now.own.now) }
{
    let mut tally = Tally {
        cases: 0,
        losing: 0,
        most: 0,
    };
    for k in 0..scene.own.len() {
        let case = worst_last(scene.own.list(k));
        let spans = scene.sides.spans(case.as_slice());
        tally = with_case(counts_of(scene.plan, &spans).lost, tally);
    }
    tally
}

// Appends the record of the user's own failures, where there are some.
fn put_own(line: &mut Line, scene: &Scene<'_>, kinds: Kinds)
    requires scene { IsScene scene.now }
    requires room { length line.old + 28 ≤ 20480 }
    ensures text { line.new ≡ line.old ++ own_record scene.now.plan.now scene.now.own.now kinds }
    ensures short { length line.new ≤ length line.old + 28 }
{
    if kinds.has(Kind::Own) {
        put_tally(line, Kind::Own, own_tally(scene));
    }
}

/// Appends the records of all single failures, kind by kind.
pub fn put_singles(line: &mut Line, scene: &Scene<'_>, kinds: Kinds)
    requires scene { IsScene scene.now }
    requires empty { line.old ≡ [] }
    ensures { line.new ≡ singles_text scene.now.plan.now scene.now.own.now kinds }
{
    let plan = scene.plan;
    let sides = scene.sides;
    line.put(b"kind,cases,losing,most\r\n");
    put_record(line, plan, sides, kinds, Kind::Degraded);
    put_record(line, plan, sides, kinds, Kind::Fibres);
    put_record(line, plan, sides, kinds, Kind::Spans);
    put_record(line, plan, sides, kinds, Kind::Nodes);
    put_record(line, plan, sides, kinds, Kind::Manual);
    put_record(line, plan, sides, kinds, Kind::Forced);
    put_own(line, scene, kinds);
}
