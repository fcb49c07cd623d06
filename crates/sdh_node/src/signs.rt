//! Whether a round of a node is calm, and what decides that.
ghost use Rattle.std.specs.Prelude.{◌≡◌, ◌&&◌, not, nat_le, ◌-◌};
ghost use Rattle.sdh_nodestate.specs.Words.{SendsSpellable};

use sdh_nodestate::Sent;
use sdh_terminal::Sender;

/// What decides whether a round is calm. `counts` says whether it may be calm at all. Each other field says that
/// something is as it was after the round before: the local requests, the words heard and the pointer interpreters
/// (`taken`), the state (`decided`), the word of a side (`west_said`, `east_said`), the pointer generators of a side
/// (`west_made`, `east_made`).
#[derive(Drop)]
pub struct Signs {
    pub counts: bool,
    pub taken: bool,
    pub decided: bool,
    pub west_said: bool,
    pub west_made: bool,
    pub east_said: bool,
    pub east_made: bool,
}

/// Returns whether the round is calm: it may be calm, and all that is compared is as before.
pub fn is_calm(signs: &Signs) -> bool
    ensures { result ≡ (signs.now.counts && (signs.now.taken && signs.now.decided && (signs.now.west_said && signs.now.west_made)
        && (signs.now.east_said && signs.now.east_made))) }
{
    signs.counts
        && signs.taken
        && signs.decided
        && signs.west_said
        && signs.west_made
        && signs.east_said
        && signs.east_made
}

/// Returns the words of both sides.
pub fn words_of(west: &Sender, east: &Sender) -> Sent
    ensures west { result.west ≡ west.now.word }
    ensures east { result.east ≡ east.now.word }
    ensures spellable { SendsSpellable result }
{
    Sent {
        west: west.word(),
        east: east.word(),
    }
}

/// Returns whether the controller misses this round: there are rounds left to miss.
pub fn is_held(turns: u32) -> bool
    ensures { result ≡ nat_le 1 turns }
{
    turns >= 1
}

/// Returns the number of rounds left to miss after this one.
pub fn one_less(turns: u32) -> u32
    ensures { result ≡ turns - 1 }
{
    turns.saturating_sub(1)
}

/// Returns whether a round may be calm: one ran before it, and the controller doesn't miss it.
pub fn may_be_calm(rounds: u64, held: bool) -> bool
    ensures { result ≡ (nat_le 1 rounds && not held) }
{
    rounds >= 1 && !held
}
