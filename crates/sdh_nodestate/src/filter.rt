//! When a word is heard: three rounds in a row have to bring it.
ghost use Rattle.std.specs.Prelude.{◌≡◌};
ghost use Rattle.sdh_nodestate.specs.Filtering.{nothing_brought, with_brought, agreed, hears};

use sdh_kbytes::{K, agrees};
use std::marker::Model;

/// One side's filter: what its last three rounds brought.
#[derive(Clone, Copy, Debug, PartialEq, Eq)]
pub struct Filter {
    last: Option<K>,
    second: Option<K>,
    third: Option<K>,
}

impl Model for Filter {
    ghost use Rattle.sdh_nodestate.specs.Filtering.{Brought};

    ghost Value = { Brought };

    ghost view = { λ f. record { last = f.last; second = f.second; third = f.third } };

    ghost inverse = { λ b. record { last = b.last; second = b.second; third = b.third } };
}

// Returns the first of three words where they agree in all but their marks, else `None`.
fn agreed(first: K, second: K, third: K) -> Option<K>
    ensures { result ≡ agreed first second third }
{
    if agrees(first, second) && agrees(first, third) {
        Some(first)
    } else {
        None
    }
}

impl Filter {
    /// Returns a filter to which no round has brought a word.
    pub fn new() -> Filter
        ensures { result ≡ nothing_brought }
    {
        Filter {
            last: None,
            second: None,
            third: None,
        }
    }

    /// Takes the word that arrived in a round, if any, and returns the word heard in it: the one just given, where it
    /// is the third in a row and the three agree in code, destination, source and path.
    pub fn hear(&mut self, word: Option<K>) -> Option<K>
        ensures filter { self.new ≡ with_brought word self.old }
        ensures heard { result ≡ hears self.new }
    {
        self.third = self.second;
        self.second = self.last;
        self.last = word;
        self.heard()
    }

    /// Returns the word heard in the last round.
    pub fn heard(&self) -> Option<K>
        ensures { result ≡ hears self.now }
    {
        match (self.last, self.second, self.third) {
            (Some(first), Some(second), Some(third)) => agreed(first, second, third),
            _ => None,
        }
    }
}
