//! What a node shows in a round.
ghost use Rattle.std.specs.Prelude.{◌≡◌};
ghost use Rattle.sdh_aps.specs.Shown.{same_shown_far, same_state_word, same_words, same_shown};

use sdh_kbytes::{K, same_heard, same_word};
use sdh_report::StateWord;
use sdh_ringmap::Code;

/// Two words: one for the west side, one for the east side.
#[derive(Clone, Copy, Debug, PartialEq, Eq)]
pub struct WordPair {
    pub west: K,
    pub east: K,
}

/// What a node shows in a round: its state, the identifier of its far end, the words that it sent, the words that it
/// hears, and the local requests of its sides.
#[derive(Clone, Copy, Debug, PartialEq, Eq)]
pub struct Shown {
    pub state: StateWord,
    pub far: Option<u8>,
    pub sent: WordPair,
    pub heard_west: Option<K>,
    pub heard_east: Option<K>,
    pub asks_west: Code,
    pub asks_east: Code,
}

// Returns whether `left` and `right` are the same far end, or both are none.
fn same_far(left: Option<u8>, right: Option<u8>) -> bool
    ensures { result ≡ same_shown_far left right }
{
    match (left, right) {
        (None, None) => true,
        (Some(left), Some(right)) => left == right,
        _ => false,
    }
}

// Returns whether two states are shown by the same word.
fn same_state(left: StateWord, right: StateWord) -> bool
    ensures { result ≡ same_state_word left right }
{
    match (left, right) {
        (StateWord::Idle, StateWord::Idle) => true,
        (StateWord::Pass, StateWord::Pass) => true,
        (StateWord::SwitchWest, StateWord::SwitchWest) => true,
        (StateWord::SwitchEast, StateWord::SwitchEast) => true,
        (StateWord::Isolated, StateWord::Isolated) => true,
        _ => false,
    }
}

// Returns whether the words sent, those heard, and the requests are equal.
fn same_words(left: &Shown, right: &Shown) -> bool
    ensures { result ≡ same_words left.now right.now }
{
    same_word(left.sent.west, right.sent.west)
        && same_word(left.sent.east, right.sent.east)
        && same_heard(left.heard_west, right.heard_west)
        && same_heard(left.heard_east, right.heard_east)
        && left.asks_west.number() == right.asks_west.number()
        && left.asks_east.number() == right.asks_east.number()
}

/// Returns whether `left` and `right`, which a node shows in two rounds, are equal in all parts.
pub fn same_shown(left: &Shown, right: &Shown) -> bool
    ensures { result ≡ same_shown left.now right.now }
{
    same_state(left.state, right.state) && same_far(left.far, right.far) && same_words(left, right)
}
