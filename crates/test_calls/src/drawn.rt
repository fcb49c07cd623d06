//! The large plan of a number.

use crate::calls::all_right;
use sdh_circuits::{Circuit, End, Slot};
use sdh_payload::Port;
use sdh_plan::{Plan, Step, big_plan};
use sdh_request::Moment;
use sdh_ringmap::{Condition, FibreEvent, Pos, Rate, Side, Span};
use std::alloc::{AllocError, Global};

// A circuit: its name, the positions of its ends, its slot and its offsets.
type Drawn = (&'static str, u8, u8, u8, u16, u16);

// The circuits of the large plan of 0, worked out from the generator's rules by other means.
const OF_0: &[Drawn] = &[
    ("c1-1", 14, 0, 1, 464, 704),
    ("c1-2", 0, 1, 1, 34, 602),
    ("c1-3", 1, 2, 1, 391, 544),
    ("c1-4", 2, 7, 1, 574, 294),
    ("c1-5", 7, 9, 1, 442, 65),
    ("c1-6", 9, 11, 1, 67, 111),
    ("c1-7", 11, 14, 1, 727, 266),
    ("c2-1", 10, 14, 2, 30, 169),
    ("c2-2", 14, 2, 2, 190, 723),
    ("c2-3", 2, 3, 2, 561, 668),
    ("c2-4", 3, 7, 2, 424, 754),
    ("c2-5", 7, 10, 2, 14, 332),
];

// Those of the greatest number.
const OF_GREATEST: &[Drawn] = &[
    ("c1-1", 5, 7, 1, 222, 627),
    ("c1-2", 7, 12, 1, 125, 305),
    ("c1-3", 12, 13, 1, 485, 694),
    ("c1-4", 13, 1, 1, 325, 245),
    ("c1-5", 1, 5, 1, 119, 56),
    ("c2-1", 8, 13, 2, 118, 340),
    ("c2-2", 13, 15, 2, 728, 83),
    ("c2-3", 15, 4, 2, 714, 733),
    ("c2-4", 4, 6, 2, 578, 656),
    ("c2-5", 6, 8, 2, 183, 445),
];

// Returns the step in which a fibre of a position gets a condition.
fn fibre(at: u8, side: Side, condition: Condition) -> Step {
    Step::Fibre(FibreEvent {
        at: Pos(at),
        side,
        condition,
    })
}

// Returns the rate, the threshold, the wait, the limit, and the numbers of nodes and circuits.
fn figures_of(plan: &Plan) -> (Rate, u16, u32, u32, usize, usize) {
    let settings = plan.settings();
    (
        settings.rate,
        settings.threshold,
        settings.wait,
        plan.limit(),
        plan.map().len(),
        plan.circuits().len(),
    )
}

fn is_led(circuit: &Circuit, drawn: Drawn) -> bool {
    let (name, from, to, slot, _, _) = drawn;
    circuit.name().as_slice() == name.as_bytes()
        && circuit.from() == Pos(from)
        && circuit.to() == Pos(to)
        && circuit.slot() == Slot(slot)
}

// Returns whether a port sends its circuit's name, with this letter after it, from this offset on, and has the name as
// its trace.
fn sends_name(port: &Port, name: &[u8], letter: u8, offset: u16) -> bool {
    let Some((last, front)) = port.text().split_last() else {
        return false;
    };
    *last == letter && front == name && port.trace() == name && port.offset() == offset
}

fn is_drawn(circuit: &Circuit, drawn: Drawn) -> bool {
    let (name, _, _, _, offset_a, offset_b) = drawn;
    is_led(circuit, drawn)
        && sends_name(circuit.port(End::A), name.as_bytes(), b'a', offset_a)
        && sends_name(circuit.port(End::B), name.as_bytes(), b'b', offset_b)
}

// Returns whether the circuits of a plan are these.
fn has_circuits(plan: &Plan, wanted: &[Drawn]) -> bool {
    let circuits = plan.circuits();
    if circuits.len() != wanted.len() {
        return false;
    }
    for i in 0..wanted.len() {
        if !is_drawn(circuits.get(i as u8), wanted[i]) {
            return false;
        }
    }
    true
}

// Returns whether the node at each position has its number as its identifier.
fn has_all_nodes(plan: &Plan) -> bool {
    for at in 0..16 {
        if plan.map().find(at) != Some(Pos(at as u8)) {
            return false;
        }
    }
    true
}

fn is_plan_of(alloc: Global, number: u32, wanted: &[Drawn]) -> Result<bool, AllocError> {
    let plan = big_plan(alloc, number)?;
    let figures = (Rate::Four, 3, 10, 4096, 16, wanted.len());
    Ok(has_circuits(&plan, wanted) && figures_of(&plan) == figures && has_all_nodes(&plan))
}

#[test]
fn draws_the_circuits_of_a_number(rt: HostRuntime) {
    assert!(rt; is_plan_of(rt.alloc(), 0, OF_0) == Ok(true));
    assert!(rt; is_plan_of(rt.alloc(), 4_294_967_295, OF_GREATEST) == Ok(true));
}

const NUMBERS: &[u32] = &[0, 1, 2, 65_535, 123_456_789, 2_147_483_648, 4_294_967_295];

// Returns whether each span has a circuit in both slots.
fn is_covered(plan: &Plan) -> bool {
    for span in 0..16 {
        let first = plan.circuits().on_span(Span(span), Slot(1));
        if first.is_none() || plan.circuits().on_span(Span(span), Slot(2)).is_none() {
            return false;
        }
    }
    true
}

fn right_numbers(alloc: Global) -> Result<usize, AllocError> {
    for i in 0..NUMBERS.len() {
        if !is_covered(&big_plan(alloc, NUMBERS[i])?) {
            return Ok(i);
        }
    }
    Ok(NUMBERS.len())
}

#[test]
fn covers_each_span_in_both_slots(rt: HostRuntime) {
    all_right(&rt, right_numbers(rt.alloc()).unwrap_or(0), NUMBERS.len());
}

// Returns the script that cuts and mends two spans, each by the positions at its west and its east end.
fn cutting(first: (u8, u8), second: (u8, u8)) -> [Step; 15] {
    [
        Step::Settle,
        fibre(first.0, Side::East, Condition::Cut),
        fibre(first.1, Side::West, Condition::Cut),
        Step::Settle,
        fibre(second.0, Side::East, Condition::Cut),
        fibre(second.1, Side::West, Condition::Cut),
        Step::Settle,
        fibre(first.0, Side::East, Condition::Clear),
        fibre(first.1, Side::West, Condition::Clear),
        Step::Settle,
        fibre(second.0, Side::East, Condition::Clear),
        fibre(second.1, Side::West, Condition::Clear),
        Step::Settle,
        Step::Moment(Moment(10)),
        Step::Settle,
    ]
}

// A number, and the spans that its plan cuts, each by the positions at its ends.
const SCRIPTS: &[(u32, (u8, u8), (u8, u8))] = &[
    (0, (2, 3), (3, 4)),
    (4_294_967_295, (3, 4), (6, 7)),
    (21, (15, 0), (13, 14)),
];

fn right_scripts(alloc: Global) -> Result<usize, AllocError> {
    for i in 0..SCRIPTS.len() {
        let (number, first, second) = SCRIPTS[i];
        if big_plan(alloc, number)?.steps() != cutting(first, second).as_slice() {
            return Ok(i);
        }
    }
    Ok(SCRIPTS.len())
}

#[test]
fn draws_the_script_of_a_number(rt: HostRuntime) {
    all_right(&rt, right_scripts(rt.alloc()).unwrap_or(0), SCRIPTS.len());
}
