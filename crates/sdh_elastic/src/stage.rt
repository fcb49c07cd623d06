//! What the next turn of a store does.
ghost use Rattle.std.specs.Prelude.{◌≡◌, ◌≤◌};
ghost use Rattle.sdh_elastic.specs.Turns.{given, justified, value_after, word_for};
ghost use Rattle.sdh_elastic.specs.Store.{stage_action, stage_after};

use sdh_pointer::{Action, Form, Word, word_of};

/// The number of bytes of an AU-4's payload in a frame.
const FRAME: usize = 2349;

/// The number of bytes of a step of the pointer.
const STEP: usize = 3;

/// The number of pointer values.
const VALUES: u16 = 783;

/// Which turn of a store is next, or how many turns ran since the last one that was turn 2 or a justification.
#[derive(Clone, Copy, Debug, PartialEq, Eq)]
pub enum Stage {
    /// Turn 1 is next.
    First,
    /// Turn 2 is next.
    Second,
    /// The last turn was turn 2 or a justification.
    Moved,
    /// One turn ran since the last one that was turn 2 or a justification.
    OneLater,
    /// Two turns ran since the last one that was turn 2 or a justification.
    TwoLater,
    /// At least three turns ran since the last one that was turn 2 or a justification, and the next turn may justify.
    Free,
}

// Returns what a turn that may justify does, by the number of bytes held before it. From 2352 on it gives three bytes
// more (Down), up to 2346 it gives three fewer (Up), and otherwise it doesn't justify.
fn justified(fill: usize) -> Action
    ensures { result ≡ justified fill }
{
    if fill >= FRAME + STEP {
        Action::Down
    } else if fill <= FRAME - STEP {
        Action::Up
    } else {
        Action::Normal
    }
}

impl Stage {
    /// Returns what the next turn does, by the number of bytes held before it.
    pub(crate) fn action(self, fill: usize) -> Action
        ensures { result ≡ stage_action self fill }
    {
        match self {
            Stage::First => Action::Ais,
            Stage::Second => Action::New,
            Stage::Moved | Stage::OneLater | Stage::TwoLater => Action::Normal,
            Stage::Free => justified(fill),
        }
    }

    /// Returns the stage after a turn with this action.
    pub(crate) fn after(self, action: Action) -> Stage
        ensures { result ≡ stage_after self action }
    {
        match (self, action) {
            (Stage::First, _) => Stage::Second,
            (Stage::Second, _) => Stage::Moved,
            (Stage::Moved, _) => Stage::OneLater,
            (Stage::OneLater, _) => Stage::TwoLater,
            (Stage::TwoLater, _) => Stage::Free,
            (Stage::Free, Action::New | Action::Up | Action::Down) => Stage::Moved,
            (Stage::Free, Action::Normal | Action::Ais) => Stage::Free,
        }
    }
}

/// Returns how many bytes a turn with this action gives.
pub(crate) fn given(action: Action) -> usize
    ensures count { result ≡ given action }
    ensures few { result ≤ 2352 }
{
    match action {
        Action::Ais => 0,
        Action::New | Action::Normal => FRAME,
        Action::Up => FRAME - STEP,
        Action::Down => FRAME + STEP,
    }
}

/// Returns the pointer value after a turn with this action, by the value before it.
#[tactic(auto, unfolding(crate::specs::Turns::value_after))]
pub(crate) fn value_after(action: Action, value: u16) -> u16
    requires { value ≤ 782 }
    ensures value { result ≡ value_after action value }
    ensures small { result ≤ 782 }
{
    match action {
        Action::Up => (value + 1) % VALUES,
        Action::Down => (value + VALUES - 1) % VALUES,
        Action::Normal | Action::New | Action::Ais => value,
    }
}

/// Returns the pointer word of a turn with this action, by the value before it.
#[tactic(auto, unfolding(crate::specs::Turns::word_for))]
pub(crate) fn word_for(action: Action, value: u16) -> Word
    requires { value ≤ 782 }
    ensures { result.0 ≡ word_for action value }
{
    let form = match action {
        Action::Ais => Form::Ais,
        Action::New => Form::Enabled,
        Action::Normal => Form::Normal,
        Action::Up => Form::Up,
        Action::Down => Form::Down,
    };
    word_of(form, value)
}
