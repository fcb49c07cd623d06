//! When a node takes what its ports delivered out of the frames that it received.

/// When a node takes what its ports delivered out of the frames that it received.
pub trait Taking: Drop {
    ghost use Rattle.std.specs.Prelude.{Bool};

    /// Whether it does so at the end of each round.
    ghost EACH_ROUND: { Bool };

    /// Whether it does so at the end of each round.
    const EACH_ROUND: bool;
}

/// At the end of each round.
#[derive(Debug, Drop)]
pub struct EachRound;

impl Taking for EachRound {
    ghost use Rattle.std.specs.Prelude.{true};

    ghost EACH_ROUND = { true };

    const EACH_ROUND: bool = true;
}

/// Only when it is asked for.
#[derive(Debug, Drop)]
pub struct WhenAsked;

impl Taking for WhenAsked {
    ghost use Rattle.std.specs.Prelude.{false};

    ghost EACH_ROUND = { false };

    const EACH_ROUND: bool = false;
}
