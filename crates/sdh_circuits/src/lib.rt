//! The circuits of a ring: each leads eastwards from one node along its arc to another, in one working slot,
//! with a port at each end.
#![tactic(auto)]

ghost use Rattle.std.specs.Prelude.{◌≡◌};
ghost use Rattle.sdh_circuits.specs.Provisioned.{same_end};

use thiserror::Error;

mod circuit_map;
mod form;
mod provisioned;
mod search;

pub use circuit_map::CircuitMap;
pub use provisioned::{Circuit, Name};

/// A working slot, counted from 1. Slot `m` is AU-4 number `m` on each span of its circuit.
#[derive(Clone, Copy, Debug, PartialEq, Eq)]
pub struct Slot(pub u8);

/// An end of a circuit: port A is where its arc starts, port B where it ends.
#[derive(Clone, Copy, Debug, PartialEq, Eq)]
pub enum End {
    A,
    B,
}

/// Returns whether two ends are the same.
pub fn same_end(left: End, right: End) -> bool
    ensures { result ≡ same_end left right }
{
    match (left, right) {
        (End::A, End::A) | (End::B, End::B) => true,
        (End::A, End::B) | (End::B, End::A) => false,
    }
}

/// A port: a circuit by its number, counted from 0, and one of its ends.
#[derive(Clone, Copy, Debug, PartialEq, Eq)]
pub struct PortId {
    pub circuit: u8,
    pub end: End,
}

/// A circuit that is asked for, as numbers and texts from outside. The nodes are named by their identifiers. Each end
/// has the text, the trace and the offset of its port.
#[derive(Clone, Copy, Debug)]
pub struct Asked<'a> {
    pub name: &'a str,
    pub from: i64,
    pub to: i64,
    pub slot: i64,
    pub offset_a: i64,
    pub offset_b: i64,
    pub text_a: &'a str,
    pub text_b: &'a str,
    pub trace_a: &'a str,
    pub trace_b: &'a str,
}

/// Why a circuit isn't added. Apart from `Memory`, the reasons stand in the order in which they are checked.
#[derive(Clone, Copy, Debug, PartialEq, Eq, Error)]
pub enum AddError {
    /// There is no memory to keep the circuit, which passed all checks.
    #[error("no memory")]
    Memory,
    /// The slot isn't 1 to half of the rate's N.
    #[error("the slot isn't 1 to half of the rate's N")]
    Slot,
    /// An end is no node of the ring.
    #[error("an end is no node of the ring")]
    End,
    /// Both ends are one node.
    #[error("both ends are one node")]
    SameEnds,
    /// An offset isn't 0 to 782.
    #[error("an offset isn't 0 to 782")]
    Offset,
    /// A text hasn't 1 to 64 bytes, each from 0x20 to 0x7E.
    #[error("a text isn't 1 to 64 bytes, each from 0x20 to 0x7E")]
    Text,
    /// A trace hasn't 1 to 64 bytes, each from 0x20 to 0x7E.
    #[error("a trace isn't 1 to 64 bytes, each from 0x20 to 0x7E")]
    Trace,
    /// The name hasn't 1 to 16 bytes of `a` to `z`, `0` to `9`, `-` and `_`, or another circuit has it.
    #[error("the name is no name, or another circuit has it")]
    Name,
    /// Another circuit is on one of the circuit's spans in the same slot.
    #[error("another circuit is on one of its spans in its slot")]
    Overlap,
}
