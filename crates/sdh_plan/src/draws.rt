//! Draws of a generator.
ghost use Rattle.std.specs.Prelude.{◌≡◌};
ghost use Rattle.sdh_plan.specs.Big.{next, drawn};

use std::marker::Model;

/// A generator of numbers, each from the state before.
#[derive(Debug, Drop)]
pub struct Draws {
    state: u32,
}

impl Model for Draws {
    ghost use Rattle.std.specs.Prelude.{ℕ};

    ghost Value = { ℕ };

    ghost view = { λ d. d.state };
}

impl Draws {
    /// Returns a generator that begins in this state.
    pub fn new(state: u32) -> Draws
        ensures { result ≡ state }
    {
        Draws { state }
    }

    /// Returns the next number, which is the upper half of the next state.
    #[tactic(auto, unfolding(crate::specs::Big::next))]
    pub fn draw(&mut self) -> u16
        ensures drawn { result ≡ drawn self.old }
        ensures next { self.new ≡ next self.old }
    {
        let next = (u64::from(self.state) * 1_664_525 + 1_013_904_223) % 4_294_967_296;
        self.state = next as u32;
        (self.state / 65_536) as u16
    }
}
