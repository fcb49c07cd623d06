//! The large plan of a number.
ghost use Rattle.std.specs.Prelude.{◌≡◌, ◌+◌, ◌%◌, ◌<◌, [], ◌∷◌, ◌++◌, min, ◌≤◌, None, All, string_bytes, IfOk, IfSome, OnOk};
ghost use Rattle.sdh_circuits.specs.Checks.{wish_of, circuit_of, refusal, with_circuit};
ghost use Rattle.sdh_plan.specs.Big.{next, drawn, name_in, laid_circuit, slot_begun, slot_circuits, behind_slot, big_circuits, fibre_comes};
ghost use Rattle.sdh_plan.specs.Big.{span_comes, big_steps, big_script, big_nodes, big_planned};
ghost use Rattle.sdh_plan.specs.Laid.{IsLaid, wish_with, wish_laid};
ghost use Rattle.sdh_plan.specs.Circuits.{provisioned};

use crate::draws::Draws;
use crate::plan::Plan;
use crate::step::Step;
use sdh_circuits::{AddError, Asked, CircuitMap};
use sdh_request::{Moment, Settings};
use sdh_ringmap::{Condition, FibreEvent, Pos, Rate, RingMap, Side};
use std::alloc::{AllocError, Global};

// The next circuit of a slot: its number there, the position where it starts, and its number of spans.
#[derive(Clone, Copy)]
struct Stretch {
    slot: u8,
    number: u8,
    at: u8,
    spans: u8,
}

// Returns a ring of sixteen nodes, each with its position as identifier.
#[tactic(auto, unfolding(sdh_ringmap::specs::Numbering::ring_of))]
fn big_ring() -> RingMap
    ensures { result ≡ big_nodes }
{
    match RingMap::new(&[0, 1, 2, 3, 4, 5, 6, 7, 8, 9, 10, 11, 12, 13, 14, 15]) {
        Ok(ring) => ring,
        Err(_) => unreachable!(),
    }
}

// Returns how many spans the next circuit has.
fn spans_drawn(draws: &mut Draws, left: u8) -> u8
    ensures spans { result ≡ min (1 + drawn draws.old % 5) left }
    ensures draws { draws.new ≡ next draws.old }
{
    let spans = (1 + draws.draw() % 5) as u8;
    spans.min(left)
}

// Returns a circuit as a plan asks for it: its name, ends and slot, and the texts and offsets of its ports.
fn asked<'a>(
    stretch: Stretch,
    name: &'a str,
    text_a: &'a str,
    text_b: &'a str,
    offsets: (u16, u16),
) -> Asked<'a>
    requires at { stretch.at < 16 }
    requires spans { stretch.spans < 16 }
    ensures { wish_of result ≡ wish_with stretch.slot stretch.at stretch.spans name.now text_a.now text_b.now offsets.0 offsets.1 }
{
    Asked {
        name,
        from: i64::from(stretch.at),
        to: i64::from((stretch.at + stretch.spans) % 16),
        slot: i64::from(stretch.slot),
        offset_a: i64::from(offsets.0),
        offset_b: i64::from(offsets.1),
        text_a,
        text_b,
        trace_a: name,
        trace_b: name,
    }
}

// Adds a circuit that no check refuses.
#[tactic(auto, using(crate::proofs::Laid::memory_alone))]
fn add_free(circuits: &mut CircuitMap, ring: &RingMap, asked: &Asked<'_>) -> Result<(), AllocError>
    requires kept { IfSome circuits.old.ring (λ kept. kept ≡ ring.now) }
    requires passes { refusal circuits.old ring.now (wish_of asked.now) ≡ None }
    ensures added { OnOk result (circuits.new ≡ with_circuit circuits.old ring.now (circuit_of ring.now (wish_of asked.now))) }
{
    match circuits.add(ring, asked) {
        Ok(()) => Ok(()),
        Err(AddError::Memory) => Err(AllocError),
        Err(_) => unreachable!(),
    }
}

// Returns the name of a circuit in a slot.
fn name_in(alloc: Global, slot: u8, number: u8) -> Result<String, AllocError>
    ensures { IfOk result (λ name. string_bytes name ≡ name_in slot number) }
{
    format!(in alloc; "c{slot}-{number}")
}

// Returns the text that is sent at an end: the circuit's name and a letter.
fn text_of(alloc: Global, name: &str, letter: &str) -> Result<String, AllocError>
    ensures { IfOk result (λ text. string_bytes text ≡ name.now ++ letter.now) }
{
    format!(in alloc; "{name}{letter}")
}

// Adds a circuit over these spans, with the offsets that are drawn. No check refuses it.
fn add_stretch(
    alloc: Global,
    circuits: &mut CircuitMap,
    ring: &RingMap,
    stretch: Stretch,
    draws: &mut Draws,
) -> Result<(), AllocError>
    requires ring { ring.now ≡ big_nodes }
    requires kept { IfSome circuits.old.ring (λ kept. kept ≡ ring.now) }
    requires at { stretch.at < 16 }
    requires spans { stretch.spans < 16 }
    requires passes { refusal circuits.old ring.now (wish_laid stretch.slot stretch.number stretch.at stretch.spans draws.old) ≡ None }
    ensures added { OnOk result
        (circuits.new ≡ with_circuit circuits.old ring.now (laid_circuit stretch.slot stretch.number stretch.at stretch.spans draws.old)) }
    ensures draws { draws.new ≡ next (next draws.old) }
{
    let offset_a = draws.draw() % 783;
    let offset_b = draws.draw() % 783;
    let name = name_in(alloc, stretch.slot, stretch.number)?;
    let text_a = text_of(alloc, &name, "a")?;
    let text_b = text_of(alloc, &name, "b")?;
    let wish = asked(stretch, &name, &text_a, &text_b, (offset_a, offset_b));
    add_free(circuits, ring, &wish)
}

// Fills a slot with circuits that are laid end to end. All circuits added before are in lower slots.
fn fill_slot(
    alloc: Global,
    circuits: &mut CircuitMap,
    ring: &RingMap,
    slot: u8,
    draws: &mut Draws,
) -> Result<(), AllocError>
    requires ring { ring.now ≡ big_nodes }
    requires slot_from_1 { 1 ≤ slot }
    requires slot_small { slot ≤ 2 }
    requires made { circuits.old ≡ provisioned 2 big_nodes circuits.old.circuits }
    requires laid { All (IsLaid slot (slot_begun draws.old)) circuits.old.circuits }
    ensures circuits { OnOk result (circuits.new ≡ provisioned 2 big_nodes (circuits.old.circuits ++ slot_circuits slot draws.old)) }
    ensures draws { OnOk result (draws.new ≡ behind_slot draws.old) }
    ensures laid { OnOk result (All (IsLaid (slot + 1) (slot_begun draws.new)) circuits.new.circuits) }
{
    let mut at = (draws.draw() % 16) as u8;
    let mut left = 16;
    let mut number = 1;
    while left > 0 {
        let spans = spans_drawn(draws, left);
        let stretch = Stretch {
            slot,
            number,
            at,
            spans,
        };
        add_stretch(alloc, circuits, ring, stretch, draws)?;
        at = (at + spans) % 16;
        left -= spans;
        number += 1;
    }
    Ok(())
}

// Returns the circuits of both slots.
fn circuits_drawn(
    alloc: Global,
    ring: &RingMap,
    draws: &mut Draws,
) -> Result<CircuitMap, AllocError>
    requires { ring.now ≡ big_nodes }
    ensures circuits { IfOk result (λ circuits. circuits ≡ provisioned 2 big_nodes (big_circuits draws.old)) }
    ensures draws { OnOk result (draws.new ≡ behind_slot (behind_slot draws.old)) }
{
    let mut circuits = CircuitMap::new(alloc, 2);
    fill_slot(alloc, &mut circuits, ring, 1, draws)?;
    fill_slot(alloc, &mut circuits, ring, 2, draws)?;
    Ok(circuits)
}

// Returns the step that gives a condition to the fibre that leaves a position on a side.
fn fibre(condition: Condition, at: u8, side: Side) -> Step
    ensures { result ≡ fibre_comes condition at side }
{
    Step::Fibre(FibreEvent {
        at: Pos(at),
        side,
        condition,
    })
}

// Returns the steps in which both fibres of a span get a condition, and rounds run.
fn span(condition: Condition, span: u8) -> [Step; 3]
    requires { span < 16 }
    ensures { result ≡ span_comes condition span ++ Step.Settle ∷ [] }
{
    [
        fibre(condition, span, Side::East),
        fibre(condition, (span + 1) % 16, Side::West),
        Step::Settle,
    ]
}

// Returns the script that cuts and mends these spans.
fn steps_at(alloc: Global, u: u8, v: u8) -> Result<Vec<Step>, AllocError>
    requires u { u < 16 }
    requires v { v < 16 }
    ensures { IfOk result (λ steps. steps.items ≡ big_steps u v) }
{
    let mut steps = Vec::from_slice(alloc, &[Step::Settle])?;
    steps.extend_from_slice(&span(Condition::Cut, u))?;
    steps.extend_from_slice(&span(Condition::Cut, v))?;
    steps.extend_from_slice(&span(Condition::Clear, u))?;
    steps.extend_from_slice(&span(Condition::Clear, v))?;
    steps.extend_from_slice(&[Step::Moment(Moment(10)), Step::Settle])?;
    Ok(steps)
}

// Returns the script, with the spans that are drawn.
fn steps_drawn(alloc: Global, draws: &mut Draws) -> Result<Vec<Step>, AllocError>
    ensures { IfOk result (λ steps. steps.items ≡ big_script draws.old) }
{
    let u = (draws.draw() % 16) as u8;
    let v = (u16::from(u) + 1 + draws.draw() % 15) % 16;
    steps_at(alloc, u, v as u8)
}

/// Returns the large plan of a number: sixteen nodes at STM-4, circuits on every span of both working slots, and a
/// script that cuts two spans and mends them.
pub fn big_plan(alloc: Global, number: u32) -> Result<Plan, AllocError>
    ensures { IfOk result (λ plan. plan ≡ big_planned number) }
{
    let ring = big_ring();
    let mut draws = Draws::new(number);
    let circuits = circuits_drawn(alloc, &ring, &mut draws)?;
    let steps = steps_drawn(alloc, &mut draws)?;
    let settings = Settings {
        rate: Rate::Four,
        threshold: 3,
        wait: 10,
    };
    Ok(Plan::from_parts(settings, 4096, ring, circuits, steps))
}
