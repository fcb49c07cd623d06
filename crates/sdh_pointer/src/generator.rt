//! The pointer generator.
ghost use Rattle.std.specs.Prelude.{◌≡◌, ℕ, ◌≤◌, Option, None, false};
ghost use Rattle.std.specs.Option.{option_map_or};
ghost use Rattle.sdh_pointer.specs.Sending.{form_sent, value_sent, next_sending, same_sending, after_action};

use crate::reading::{Action, one_down, one_up};
use crate::word::{Form, Word, word_of};
use std::marker::Model;

/// A generator, which sends one pointer word a frame. Contracts see its state, the word of its last step, and whether
/// that step changed the state.
#[derive(Debug, Drop)]
pub struct Gen {
    sending: Option<u16>,
    word: u16,
    moved: bool,
}

impl Model for Gen {
    ghost use Rattle.std.specs.Prelude.{◌≤◌};
    ghost use Rattle.std.specs.Option.{option_map_or};
    ghost use Rattle.sdh_pointer.specs.Sending.{Generator};

    ghost Value = { Generator };

    ghost view = { λ a. record { sending = a.sending; word = a.word; moved = a.moved } };

    ghost invariant = { λ a. option_map_or (λ g. g) a.sending 0 ≤ 782 };
}

// Returns the form and the value of the word that is sent in a state for an input. A justified word carries the value
// of the state, which is the one before the justification.
#[tactic(auto, unfolding(crate::specs::Sending::form_sent, crate::specs::Sending::value_sent, crate::specs::Sending::sending_row_of, crate::specs::Sending::sending_table))]
fn parts_sent(sending: Option<u16>, action: Action, value: u16) -> (Form, u16)
    requires kept { option_map_or (λ g. g) sending 0 ≤ 782 }
    requires small { value ≤ 782 }
    ensures form { result.0 ≡ form_sent sending action value }
    ensures carried { result.1 ≡ value_sent sending action value }
    ensures fits { result.1 ≤ 782 }
{
    match (sending, action) {
        (_, Action::Ais) => (Form::Ais, value),
        (Some(kept), Action::Normal) if value == kept => (Form::Normal, kept),
        (Some(kept), Action::Up) if value == one_up(kept) => (Form::Up, kept),
        (Some(kept), Action::Down) if value == one_down(kept) => (Form::Down, kept),
        _ => (Form::Enabled, value),
    }
}

// Returns the next state, whatever the state was.
#[tactic(auto, using(crate::proofs::Sent::next_by_action))]
fn next_sending(action: Action, value: u16) -> Option<u16>
    requires { value ≤ 782 }
    ensures next { (sending : Option ℕ) → result ≡ next_sending sending action value }
    ensures fits { option_map_or (λ g. g) result 0 ≤ 782 }
{
    match action {
        Action::Ais => None,
        _ => Some(value),
    }
}

// Returns whether two states are the same.
fn same_sending(left: Option<u16>, right: Option<u16>) -> bool
    ensures { result ≡ same_sending left right }
{
    match (left, right) {
        (None, None) => true,
        (Some(left), Some(right)) => left == right,
        (None, Some(_)) | (Some(_), None) => false,
    }
}

impl Gen {
    /// Returns a generator in state Ais.
    pub fn new() -> Gen
        ensures { result ≡ record { sending = None; word = 0xFFFF; moved = false } }
    {
        Gen {
            sending: None,
            word: 0xFFFF,
            moved: false,
        }
    }

    /// Makes the word of the next frame for an action and the value that holds after it, and returns the word's form.
    /// The forms `Up` and `Down` are sent only where that value is one step up or down from the value sent last.
    #[tactic(auto, unfolding(crate::specs::Sending::after_action, crate::specs::Sending::word_sent))]
    pub fn step(&mut self, action: Action, value: u16) -> Form
        requires { value ≤ 782 }
        ensures next { self.new ≡ after_action self.old action value }
        ensures form { result ≡ form_sent self.old.sending action value }
    {
        let old = self.sending;
        let (form, carried) = parts_sent(old, action, value);
        let new = next_sending(action, value);
        self.word = word_of(form, carried).0;
        self.sending = new;
        self.moved = !same_sending(new, old);
        form
    }

    /// Returns the word of the last step, and all ones before the first.
    pub fn word(&self) -> Word
        ensures { result.0 ≡ self.now.word }
    {
        Word(self.word)
    }

    /// Returns the value that is sent; none in state Ais.
    pub fn sending(&self) -> Option<u16>
        ensures { result ≡ self.now.sending }
    {
        self.sending
    }

    /// Returns whether the last step changed the state. Before the first step it is false.
    pub fn moved(&self) -> bool
        ensures { result ≡ self.now.moved }
    {
        self.moved
    }
}
