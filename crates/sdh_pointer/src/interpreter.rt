//! The pointer interpreter.
ghost use Rattle.std.specs.Prelude.{◌≡◌, ◌≤◌, false};
ghost use Rattle.sdh_pointer.specs.Reading.{start, action_on, after_step};

use crate::reading::{Action, Mode, Reading, event_of, same_reading, step_at};
use crate::word::Word;
use std::marker::Model;

/// An interpreter, which reads one pointer word a frame. Contracts see what it keeps, and whether its last step changed
/// that.
#[derive(Debug, Drop)]
pub struct Interp {
    reading: Reading,
    moved: bool,
}

impl Model for Interp {
    ghost use Rattle.sdh_pointer.specs.Reading.{Interpreter, IsBounded};

    ghost Value = { Interpreter };

    ghost view = { λ a. record { reading = a.reading; moved = a.moved } };

    ghost invariant = { λ a. IsBounded a.reading };
}

impl Interp {
    /// Returns an interpreter that has read nothing.
    pub fn new() -> Interp
        ensures { result ≡ record { reading = start; moved = false } }
    {
        Interp {
            reading: Reading {
                mode: Mode::Ais,
                value: 0,
                ais: 0,
                bad: 0,
                candidate: 0,
                news: 0,
                since: 0,
            },
            moved: false,
        }
    }

    /// Reads the word of the next frame, and returns the action that it asks of the generator after the interpreter.
    #[tactic(auto, unfolding(crate::specs::Reading::after_step, crate::specs::Reading::after_word, crate::specs::Reading::action_on))]
    pub fn step(&mut self, word: Word) -> Action
        ensures next { self.new ≡ after_step self.old word.0 }
        ensures action { result ≡ action_on self.old.reading word.0 }
    {
        let old = self.reading;
        let event = event_of(&old, word);
        let (new, action) = step_at(old, event);
        self.reading = new;
        self.moved = !same_reading(&new, &old);
        action
    }

    /// Returns the value, which is not used where the last action was `Ais`.
    pub fn value(&self) -> u16
        ensures value { result ≡ self.now.reading.value }
        ensures small { result ≤ 782 }
    {
        self.reading.value
    }

    /// Returns whether the last step changed the mode, the value, a count, the candidate or `since`. Before the first
    /// step it is false.
    pub fn moved(&self) -> bool
        ensures { result ≡ self.now.moved }
    {
        self.moved
    }
}
