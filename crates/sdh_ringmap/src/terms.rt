//! The terms that plans and promises share with frames, K bytes and fibres: rates, conditions of fibres, and request
//! codes.
ghost use Rattle.std.specs.Prelude.{◌≡◌, ◌*◌, ◌/◌, ◌≤◌};
ghost use Rattle.sdh_ringmap.specs.Rates.{n_of};
ghost use Rattle.sdh_ringmap.specs.Requests.{code_number};

use crate::{Pos, Side};

/// The rate of a ring: STM-4 or STM-16.
#[derive(Clone, Copy, Debug, PartialEq, Eq)]
pub enum Rate {
    Four,
    Sixteen,
}

impl Rate {
    /// Returns N, the number of AU-4s in a frame: 4 or 16.
    pub fn n(self) -> usize
        ensures { result ≡ n_of self }
    {
        match self {
            Rate::Four => 4,
            Rate::Sixteen => 16,
        }
    }

    /// Returns half of N: the number of working slots of a span, and of the slots that protect them (ITU-T G.841).
    pub fn half(self) -> u8
        ensures half { result ≡ n_of self / 2 }
        ensures few { result ≤ 8 }
        ensures twice { 2 * result ≡ n_of self }
    {
        match self {
            Rate::Four => 2,
            Rate::Sixteen => 8,
        }
    }
}

/// The request code of a side or of a K word, from the least to the most urgent.
#[derive(Clone, Copy, Debug, PartialEq, Eq)]
pub enum Code {
    /// No request.
    Nr,
    /// Reverse request: the answer to a neighbour's request.
    Rr,
    /// Wait to restore: a defect ended less than the waiting time ago.
    Wtr,
    /// Manual switch.
    Ms,
    /// Signal degrade.
    Sd,
    /// Signal fail.
    Sf,
    /// Forced switch.
    Fs,
}

impl Code {
    /// Returns the number of the code, which has four bits. A more urgent code has a larger number.
    pub fn number(self) -> u8
        ensures { result ≡ code_number self }
    {
        match self {
            Code::Nr => 0,
            Code::Rr => 1,
            Code::Wtr => 5,
            Code::Ms => 6,
            Code::Sd => 8,
            Code::Sf => 11,
            Code::Fs => 13,
        }
    }
}

/// The condition of a fibre. What arrives in a round depends on the condition in that round.
#[derive(Clone, Copy, Debug, PartialEq, Eq)]
pub enum Condition {
    /// Frames arrive as they were sent.
    Clear,
    /// Nothing arrives.
    Cut,
    /// Frames arrive with the top bit inverted in this number of bytes of row 6, from column 1 on. The number is 1 to
    /// 3N.
    Degraded(u16),
}

/// A change of a fibre: the fibre that leaves this position on this side gets this condition.
#[derive(Clone, Copy, Debug, PartialEq, Eq)]
pub struct FibreEvent {
    pub at: Pos,
    pub side: Side,
    pub condition: Condition,
}
