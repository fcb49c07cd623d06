//! What a script does.
use sdh_circuits::PortId;
use sdh_payload::Turn;
use sdh_request::{Command, Moment};
use sdh_ringmap::{FibreEvent, Pos, Side};

/// A step of a script.
#[derive(Clone, Copy, Debug, PartialEq, Eq)]
pub enum Step {
    /// A fibre comes into a condition, in place of the one before.
    Fibre(FibreEvent),
    /// A side of a node gets a command, in place of the one before.
    Order(Pos, Side, Command),
    /// The present moment is this one.
    Moment(Moment),
    /// The controller of a node misses its turn in the next rounds, in as many as the number says.
    Hold(Pos, u32),
    /// The clock of a port is to slip this number of times, at most 16 times between two settle steps.
    Slip(PortId, Turn, u8),
    /// Rounds run until a quiet window ends.
    Settle,
}
