//! What a node shows.
ghost use Rattle.std.specs.Prelude.{◌≡◌};
ghost use Rattle.sdh_aps.specs.Shown.{HasWords};
ghost use Rattle.sdh_aps.specs.Showing.{shown_of};

use crate::shown::{Shown, WordPair};
use sdh_node::{Adm, Taking};
use sdh_report::StateWord;
use sdh_ringmap::Side;

/// Returns what a node shows after the last round.
#[tactic(auto, unfolding(crate::specs::Showing::shown_of))]
pub fn shown_of<S: Taking>(node: &Adm<S>) -> Shown
    ensures shown { result ≡ shown_of node.now }
    ensures words { HasWords result }
{
    Shown {
        state: StateWord::of(node.state()),
        far: node.far_id(),
        sent: WordPair {
            west: node.sent_k(Side::West),
            east: node.sent_k(Side::East),
        },
        heard_west: node.heard(Side::West),
        heard_east: node.heard(Side::East),
        asks_west: node.request(Side::West),
        asks_east: node.request(Side::East),
    }
}
