//! The records of a stream, by their lines.
ghost use Rattle.std.specs.Prelude.{◌≡◌, ◌≤◌, List, map, Some, IfOk, IfSome};
ghost use Rattle.sdh_ringmap.specs.declared.Pos.{Pos};
ghost use Rattle.sdh_circuits.specs.Provisioned.{Provisioned};
ghost use Rattle.sdh_node_cli.specs.Records.{came_at, end_here, port_here, own_port, side_in, number_in_words, slip_in, round_in, command_in, moment_in, hold_in};
ghost use Rattle.sdh_node_cli.specs.Records.{record_by, record_in, record_of, IsOwn, IsRecord};

use sdh_circuits::{Circuit, CircuitMap, End, PortId};
use sdh_payload::Turn;
use sdh_plan::{Reason, circuit_named, is_word, numeral_in, side_at, turn_at, words_of};
use sdh_request::{Command, Moment};
use sdh_ringmap::{Pos, Side};

/// What came on a side of the node since its last round.
#[derive(Clone, Copy)]
pub enum Came {
    /// Nothing was received on the side.
    Nothing,
    /// No light.
    Dark,
    /// A whole frame.
    Frame,
}

/// What a record gives the node between rounds.
#[derive(Clone, Copy)]
pub enum Told {
    /// A side gets a command, in place of the one before.
    Command(Side, Command),
    /// The present moment becomes this one.
    Moment(Moment),
    /// The controller is held for this number of rounds, 1 to 100.
    Hold(u32),
    /// The clock of a port gets this number of pending slips, 1 to 16, up or down.
    Slip(PortId, Turn, u8),
}

/// A record of a stream.
#[derive(Clone, Copy)]
pub enum Record {
    /// The node is given something between rounds.
    Told(Told),
    /// A round runs. The first came from the west, and the second from the east.
    Round(Came, Came),
}

// Returns what came on a side, by its word: `none`, `dark` or `frame`.
fn came_at(word: &[u8]) -> Option<Came>
    ensures { result ≡ came_at word.now }
{
    if is_word(word, "none") {
        Some(Came::Nothing)
    } else if is_word(word, "dark") {
        Some(Came::Dark)
    } else if is_word(word, "frame") {
        Some(Came::Frame)
    } else {
        None
    }
}

// Returns the end of a circuit that is at a position, if one is.
fn end_here(at: Pos, circuit: &Circuit) -> Option<End>
    ensures { result ≡ end_here at circuit.now }
{
    if circuit.from().0 == at.0 {
        Some(End::A)
    } else if circuit.to().0 == at.0 {
        Some(End::B)
    } else {
        None
    }
}

/// Returns the port at a position of the circuit of this number, if one is there.
pub fn port_here(at: Pos, number: u8, circuit: &Circuit) -> Option<PortId>
    ensures port { result ≡ port_here at number circuit.now }
    ensures own { IfSome result (λ port. (port.circuit ≡ number) × (end_here at circuit.now ≡ Some port.end)) }
{
    match end_here(at, circuit) {
        Some(end) => Some(PortId {
            circuit: number,
            end,
        }),
        None => None,
    }
}

// Returns the port that a circuit has at a position. The word is the name of the circuit.
#[tactic(auto, unfolding(crate::specs::Records::own_port))]
fn own_port(circuits: &CircuitMap, at: Pos, word: &[u8]) -> Option<PortId>
    ensures port { result ≡ own_port circuits.now.circuits at word.now }
    ensures own { IfSome result (IsOwn circuits.now.circuits at) }
{
    let Some(circuit) = circuit_named(circuits, word) else {
        return None;
    };
    port_here(at, circuit, circuits.get(circuit))
}

// Returns the side that the only word names.
fn side_in(others: &[&[u8]]) -> Result<Side, Reason>
    ensures { result ≡ side_in (map (λ word. word.now) others.now) }
{
    match others {
        [word] => match side_at(word) {
            Some(side) => Ok(side),
            None => Err(Reason::StepSide),
        },
        _ => Err(Reason::StepForm),
    }
}

// Returns the number that the only word is, from `low` to `high`.
fn number_in(others: &[&[u8]], low: u32, high: u32) -> Result<u32, Reason>
    ensures number { result ≡ number_in_words low high (map (λ word. word.now) others.now) }
    ensures range { IfOk result (λ number. (low ≤ number) × (number ≤ high)) }
{
    match others {
        [word] => match numeral_in(word, low, high) {
            Some(number) => Ok(number),
            None => Err(Reason::StepNumber),
        },
        _ => Err(Reason::StepForm),
    }
}

// Returns the command for the side that the only word names.
fn command_in(others: &[&[u8]], command: Command) -> Result<Record, Reason>
    ensures is { result ≡ command_in command (map (λ word. word.now) others.now) }
    ensures form { IfOk result (λ r. (circuits : List Provisioned) (at : Pos) → IsRecord circuits at r) }
{
    match side_in(others) {
        Ok(side) => Ok(Record::Told(Told::Command(side, command))),
        Err(reason) => Err(reason),
    }
}

// Returns the moment that the only word is, 0 to 1,000,000,000.
fn moment_in(others: &[&[u8]]) -> Result<Record, Reason>
    ensures is { result ≡ moment_in (map (λ word. word.now) others.now) }
    ensures form { IfOk result (λ r. (circuits : List Provisioned) (at : Pos) → IsRecord circuits at r) }
{
    match number_in(others, 0, 1_000_000_000) {
        Ok(number) => Ok(Record::Told(Told::Moment(Moment(u64::from(number))))),
        Err(reason) => Err(reason),
    }
}

// Returns the number of held rounds that the only word is, 1 to 100.
fn hold_in(others: &[&[u8]]) -> Result<Record, Reason>
    ensures is { result ≡ hold_in (map (λ word. word.now) others.now) }
    ensures form { IfOk result (λ r. (circuits : List Provisioned) (at : Pos) → IsRecord circuits at r) }
{
    match number_in(others, 1, 100) {
        Ok(turns) => Ok(Record::Told(Told::Hold(turns))),
        Err(reason) => Err(reason),
    }
}

// Returns the slips of a port at a position. The three words are the circuit's name, the direction (up or down) and the
// number of slips, 1 to 16.
fn slip_in(circuits: &CircuitMap, at: Pos, others: &[&[u8]]) -> Result<Record, Reason>
    ensures is { result ≡ slip_in circuits.now.circuits at (map (λ word. word.now) others.now) }
    ensures form { IfOk result (IsRecord circuits.now.circuits at) }
{
    let [name, turn, count] = others else {
        return Err(Reason::StepForm);
    };
    let Some(port) = own_port(circuits, at, name) else {
        return Err(Reason::SlipPort);
    };
    let Some(turn) = turn_at(turn) else {
        return Err(Reason::StepSide);
    };
    let Some(count) = numeral_in(count, 1, 16) else {
        return Err(Reason::StepNumber);
    };
    Ok(Record::Told(Told::Slip(port, turn, count as u8)))
}

// Returns the round whose two words say what came from the west and from the east.
fn round_in(others: &[&[u8]]) -> Result<Record, Reason>
    ensures is { result ≡ round_in (map (λ word. word.now) others.now) }
    ensures form { IfOk result (λ r. (circuits : List Provisioned) (at : Pos) → IsRecord circuits at r) }
{
    let [west, east] = others else {
        return Err(Reason::StepForm);
    };
    match (came_at(west), came_at(east)) {
        (Some(west), Some(east)) => Ok(Record::Round(west, east)),
        _ => Err(Reason::StepSide),
    }
}

// Returns the record of a line, from its first word and the words after it.
fn record_by(
    circuits: &CircuitMap,
    at: Pos,
    first: &[u8],
    others: &[&[u8]],
) -> Result<Record, Reason>
    ensures is { result ≡ record_by circuits.now.circuits at first.now (map (λ word. word.now) others.now) }
    ensures form { IfOk result (IsRecord circuits.now.circuits at) }
{
    if is_word(first, "round") {
        round_in(others)
    } else if is_word(first, "forced") {
        command_in(others, Command::Forced)
    } else if is_word(first, "manual") {
        command_in(others, Command::Manual)
    } else if is_word(first, "clear") {
        command_in(others, Command::Clear)
    } else if is_word(first, "moment") {
        moment_in(others)
    } else if is_word(first, "hold") {
        hold_in(others)
    } else if is_word(first, "slip") {
        slip_in(circuits, at, others)
    } else {
        Err(Reason::StepWord)
    }
}

// Returns the record of a line, from its words, none of which is empty.
#[tactic(auto, unfolding(crate::specs::Records::record_in))]
fn record_in(circuits: &CircuitMap, at: Pos, words: &[&[u8]]) -> Result<Record, Reason>
    ensures is { result ≡ record_in circuits.now.circuits at (map (λ word. word.now) words.now) }
    ensures form { IfOk result (IsRecord circuits.now.circuits at) }
{
    let [first, others @ ..] = words else {
        return Err(Reason::StepForm);
    };
    record_by(circuits, at, first, others)
}

/// Returns the record that a line is, for the node at a position of a ring with these circuits, or the reason of the
/// first check of its words that fails.
#[tactic(auto, unfolding(crate::specs::Records::record_of))]
pub fn record_of(circuits: &CircuitMap, at: Pos, line: &[u8]) -> Result<Record, Reason>
    ensures is { result ≡ record_of circuits.now.circuits at line.now }
    ensures form { IfOk result (IsRecord circuits.now.circuits at) }
{
    match words_of(line) {
        Some(words) => record_in(circuits, at, &words),
        None => Err(Reason::StepForm),
    }
}
