//! The forms of steps.
ghost use Rattle.std.specs.Prelude.{◌≡◌, ◌*◌, ◌∷◌, [], map, false, Some, is_none, IfOk, IfErr};
ghost use Rattle.std.specs.List.{list_any};
ghost use Rattle.sdh_ringmap.specs.Rates.{n_of};
ghost use Rattle.sdh_plan.specs.Check.{first_fault, unless};
ghost use Rattle.sdh_plan.specs.Verbs.{verb_of, node, side, number, circuit, end, turn};
ghost use Rattle.sdh_plan.specs.Steps.{node_identified, side_at, circuit_named, end_at, turn_at, part_faults, verb_faults};
ghost use Rattle.sdh_plan.specs.Steps.{position_in_words, port_in_words, turn_in_words, fibre_step, order_step, number_in_word, word_at};
ghost use Rattle.sdh_plan.specs.Steps.{told_step, form_faults, form_step};
ghost use Rattle.sdh_plan.specs.Words.{words, is_empty};

use crate::reason::Reason;
use crate::step::Step;
use crate::words::{is_word, numeral_in, words_of};
use sdh_circuits::{CircuitMap, End, PortId};
use sdh_payload::Turn;
use sdh_request::{Command, Moment};
use sdh_ringmap::{Condition, FibreEvent, Pos, Rate, RingMap, Side};

// Returns the position of the node whose identifier the word is.
#[tactic(auto, unfolding(crate::specs::Steps::node_identified))]
fn node_at(ring: &RingMap, word: &[u8]) -> Option<Pos>
    ensures { result ≡ node_identified ring.now word.now }
{
    match numeral_in(word, 0, 15) {
        Some(id) => ring.find(id as u8),
        None => None,
    }
}

/// Returns the side that the word names, or `None` where it names none.
pub fn side_at(word: &[u8]) -> Option<Side>
    ensures { result ≡ side_at word.now }
{
    if is_word(word, "west") {
        Some(Side::West)
    } else if is_word(word, "east") {
        Some(Side::East)
    } else {
        None
    }
}

/// Returns the number of the circuit whose name the word is, counted from 0.
#[tactic(auto, unfolding(crate::specs::Steps::circuit_named))]
pub fn circuit_named(circuits: &CircuitMap, word: &[u8]) -> Option<u8>
    ensures { result ≡ circuit_named circuits.now.circuits word.now }
{
    for circuit in 0..circuits.len() as u8 {
        if circuits.get(circuit).name().as_slice() == word {
            return Some(circuit);
        }
    }
    None
}

// Returns the end of a circuit that the word names.
fn end_at(word: &[u8]) -> Option<End>
    ensures { result ≡ end_at word.now }
{
    if is_word(word, "a") {
        Some(End::A)
    } else if is_word(word, "b") {
        Some(End::B)
    } else {
        None
    }
}

/// Returns the turn of a clock that the word names: `up` or `down`.
pub fn turn_at(word: &[u8]) -> Option<Turn>
    ensures { result ≡ turn_at word.now }
{
    if is_word(word, "up") {
        Some(Turn::Up)
    } else if is_word(word, "down") {
        Some(Turn::Down)
    } else {
        None
    }
}

// Returns the position of the node and the side that the words name, or the reason of the first check that fails.
fn node_and_side(ring: &RingMap, node: &[u8], side: &[u8]) -> Result<(Pos, Side), Reason>
    ensures both { IfOk result (λ both. (node_identified ring.now node.now ≡ Some both.0) × (side_at side.now ≡ Some both.1)) }
    ensures reason { IfErr result (λ reason. first_fault ((Reason.StepNode, is_none (node_identified ring.now node.now))
        ∷ (Reason.StepSide, is_none (side_at side.now)) ∷ []) ≡ Some reason) }
{
    let Some(at) = node_at(ring, node) else {
        return Err(Reason::StepNode);
    };
    let Some(side) = side_at(side) else {
        return Err(Reason::StepSide);
    };
    Ok((at, side))
}

// Returns the step that sets the condition of the fibre named by the words.
#[tactic(auto, unfolding(crate::specs::Steps::part_faults))]
fn fibre(ring: &RingMap, others: &[&[u8]], condition: Condition) -> Result<Step, Reason>
    ensures { result ≡ unless (first_fault (part_faults ring.now (node ∷ side ∷ []) (map (λ word. word.now) others.now)))
        (fibre_step ring.now (map (λ word. word.now) others.now) condition) }
{
    let [node, side] = others else {
        return Err(Reason::StepForm);
    };
    let (at, side) = node_and_side(ring, node, side)?;
    Ok(Step::Fibre(FibreEvent {
        at,
        side,
        condition,
    }))
}

// Returns the step that degrades the fibre named by the words, by at most 3N columns.
#[tactic(auto, unfolding(crate::specs::Steps::part_faults))]
fn degrade(ring: &RingMap, rate: Rate, others: &[&[u8]]) -> Result<Step, Reason>
    ensures { result ≡ unless
        (first_fault (part_faults ring.now (node ∷ side ∷ number 1 (3 * n_of rate) ∷ []) (map (λ word. word.now) others.now)))
        (fibre_step ring.now (map (λ word. word.now) others.now)
        (Condition.Degraded (number_in_word 1 (3 * n_of rate) (word_at (map (λ word. word.now) others.now) 2)))) }
{
    let [node, side, number] = others else {
        return Err(Reason::StepForm);
    };
    let (at, side) = node_and_side(ring, node, side)?;
    let Some(number) = numeral_in(number, 1, 3 * rate.n() as u32) else {
        return Err(Reason::StepNumber);
    };
    Ok(Step::Fibre(FibreEvent {
        at,
        side,
        condition: Condition::Degraded(number as u16),
    }))
}

// Returns the step that gives a command to the side named by the words.
#[tactic(auto, unfolding(crate::specs::Steps::part_faults))]
fn order(ring: &RingMap, others: &[&[u8]], command: Command) -> Result<Step, Reason>
    ensures { result ≡ unless (first_fault (part_faults ring.now (node ∷ side ∷ []) (map (λ word. word.now) others.now)))
        (order_step ring.now (map (λ word. word.now) others.now) command) }
{
    let [node, side] = others else {
        return Err(Reason::StepForm);
    };
    let (at, side) = node_and_side(ring, node, side)?;
    Ok(Step::Order(at, side, command))
}

// Returns the step that sets the present moment to the word's.
#[tactic(auto, unfolding(crate::specs::Steps::part_faults))]
fn moment(ring: &RingMap, others: &[&[u8]]) -> Result<Step, Reason>
    ensures { result ≡ unless (first_fault (part_faults ring.now (number 0 1000000000 ∷ []) (map (λ word. word.now) others.now)))
        (Step.Moment (record { 0 = number_in_word 0 1000000000 (word_at (map (λ word. word.now) others.now) 0) })) }
{
    let [number] = others else {
        return Err(Reason::StepForm);
    };
    let Some(number) = numeral_in(number, 0, 1_000_000_000) else {
        return Err(Reason::StepNumber);
    };
    Ok(Step::Moment(Moment(u64::from(number))))
}

// Returns the step by which a node's controller misses `turns` rounds.
#[tactic(auto, unfolding(crate::specs::Steps::part_faults))]
fn hold(ring: &RingMap, others: &[&[u8]]) -> Result<Step, Reason>
    ensures { result ≡ unless (first_fault (part_faults ring.now (node ∷ number 1 100 ∷ []) (map (λ word. word.now) others.now)))
        (Step.Hold (position_in_words ring.now (map (λ word. word.now) others.now))
        (number_in_word 1 100 (word_at (map (λ word. word.now) others.now) 1))) }
{
    let [node, turns] = others else {
        return Err(Reason::StepForm);
    };
    let Some(at) = node_at(ring, node) else {
        return Err(Reason::StepNode);
    };
    let Some(turns) = numeral_in(turns, 1, 100) else {
        return Err(Reason::StepNumber);
    };
    Ok(Step::Hold(at, turns))
}

// Returns the step that adds `count` slips to the clock of the port named by the words.
#[tactic(auto, unfolding(crate::specs::Steps::part_faults))]
fn slip(ring: &RingMap, circuits: &CircuitMap, others: &[&[u8]]) -> Result<Step, Reason>
    ensures { result ≡ unless (first_fault (part_faults ring.now (circuit circuits.now.circuits ∷ end ∷ turn ∷ number 1 16 ∷ [])
        (map (λ word. word.now) others.now))) (Step.Slip (port_in_words circuits.now.circuits (map (λ word. word.now) others.now))
        (turn_in_words (map (λ word. word.now) others.now)) (number_in_word 1 16 (word_at (map (λ word. word.now) others.now) 3))) }
{
    let [name, end, turn, count] = others else {
        return Err(Reason::StepForm);
    };
    let Some(circuit) = circuit_named(circuits, name) else {
        return Err(Reason::SlipPort);
    };
    let Some(end) = end_at(end) else {
        return Err(Reason::SlipPort);
    };
    let Some(turn) = turn_at(turn) else {
        return Err(Reason::StepSide);
    };
    let Some(count) = numeral_in(count, 1, 16) else {
        return Err(Reason::StepNumber);
    };
    Ok(Step::Slip(PortId { circuit, end }, turn, count as u8))
}

// Returns the step that runs rounds until a quiet window ends.
#[tactic(auto, unfolding(crate::specs::Steps::part_faults))]
fn settle(ring: &RingMap, others: &[&[u8]]) -> Result<Step, Reason>
    ensures { result ≡ unless (first_fault (part_faults ring.now [] (map (λ word. word.now) others.now))) Step.Settle }
{
    if others.is_empty() {
        Ok(Step::Settle)
    } else {
        Err(Reason::StepForm)
    }
}

// Returns the step that a first word and the words after it give, at a rate.
fn told(
    ring: &RingMap,
    circuits: &CircuitMap,
    rate: Rate,
    first: &[u8],
    others: &[&[u8]],
) -> Result<Step, Reason>
    ensures { result ≡ unless
        (first_fault (verb_faults (n_of rate) ring.now circuits.now.circuits (verb_of first.now) (map (λ word. word.now) others.now)))
        (told_step (n_of rate) ring.now circuits.now.circuits (verb_of first.now) (map (λ word. word.now) others.now)) }
{
    if is_word(first, "cut") {
        fibre(ring, others, Condition::Cut)
    } else if is_word(first, "mend") {
        fibre(ring, others, Condition::Clear)
    } else if is_word(first, "degrade") {
        degrade(ring, rate, others)
    } else if is_word(first, "forced") {
        order(ring, others, Command::Forced)
    } else if is_word(first, "manual") {
        order(ring, others, Command::Manual)
    } else if is_word(first, "clear") {
        order(ring, others, Command::Clear)
    } else if is_word(first, "moment") {
        moment(ring, others)
    } else if is_word(first, "settle") {
        settle(ring, others)
    } else if is_word(first, "hold") {
        hold(ring, others)
    } else if is_word(first, "slip") {
        slip(ring, circuits, others)
    } else {
        Err(Reason::StepWord)
    }
}

// Returns the step that words give. None of the words is empty.
#[tactic(auto, unfolding(crate::specs::Steps::form_faults, crate::specs::Steps::form_step))]
fn step_in(
    ring: &RingMap,
    circuits: &CircuitMap,
    rate: Rate,
    words: &[&[u8]],
) -> Result<Step, Reason>
    requires { list_any is_empty (map (λ word. word.now) words.now) ≡ false }
    ensures { result ≡ unless (first_fault (form_faults (n_of rate) ring.now circuits.now.circuits (map (λ word. word.now) words.now)))
        (form_step (n_of rate) ring.now circuits.now.circuits (map (λ word. word.now) words.now)) }
{
    let [first, others @ ..] = words else {
        return Err(Reason::StepForm);
    };
    told(ring, circuits, rate, first, others)
}

/// Returns the step that a text gives, in a ring of these circuits at a rate, or the reason of the first check that
/// fails.
pub fn step_of(
    ring: &RingMap,
    circuits: &CircuitMap,
    rate: Rate,
    text: &[u8],
) -> Result<Step, Reason>
    ensures { result ≡ unless (first_fault (form_faults (n_of rate) ring.now circuits.now.circuits (words text.now)))
        (form_step (n_of rate) ring.now circuits.now.circuits (words text.now)) }
{
    match words_of(text) {
        Some(words) => step_in(ring, circuits, rate, &words),
        None => Err(Reason::StepForm),
    }
}
