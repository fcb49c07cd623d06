//! Signalling without frames: a ring whose nodes send each other K words, one on each side in each round. A word comes
//! in one round later, and is heard where three rounds in a row brought it. `specs/Signals.antt` has the definition of
//! a round. The module `settling` has the laws of signalling, among them that a still ring is in the settled states,
//! and the module `routing` those of routes through a ring that is at rest.
#![tactic(auto)]

ghost use Rattle.std.specs.Prelude.{◌≡◌, ◌↔◌, ◌+◌, ◌≤◌, ◌<◌, ◌-◌, ◌^◌, min, nat_lt, if◌then◌else◌, [], length, All, IfOk, IsTrue};
ghost use Rattle.std.specs.Prelude.{Some, slice_get};
ghost use Rattle.sdh_basics.specs.Cells.{cells};
ghost use Rattle.sdh_nodestate.specs.Conditions.{MayNeed};
ghost use Rattle.sdh_nodestate.specs.Words.{first_words};
ghost use Rattle.sdh_signal.specs.Settled.{settled_states};
ghost use Rattle.sdh_signal.specs.Signals.{no_filters, round, requests_in};
ghost use Rattle.sdh_signal.specs.SignalRing.{new_ring, NoneHeld, LeavesWords, IsStill};

mod nodes;
mod routing;
mod settling;

use crate::nodes::{Hearing, hear_all, is_free, step_all};
pub use crate::routing::{
    a_looped_slot_meets_its_own_circuit, each_port_is_routed, each_walk_ends,
    each_walk_follows_the_route, each_walk_has_one_end, idle_walks_are_short,
    no_port_meets_a_stranger, no_way_crosses_an_applied_span, routes_are_short, steadiness_spreads,
    the_protection_ring_is_open, worked_rings,
};
pub use crate::settling::{
    free_rounds, not_all_pass_through, relayed_words_lead_back, rings_settle, runs_settle,
    still_rings_are_settled, words_stay,
};
use sdh_nodestate::{Needs, NodeState, Sent, first_word, start};
use sdh_ringmap::{Pos, RingMap, Side};
use std::alloc::{AllocError, Global};
use std::marker::Model;

/// The node states and K words of a ring without frames.
#[derive(Debug, Drop)]
pub struct SignalRing {
    map: RingMap,
    states: Vec<NodeState>,
    sent: Vec<Sent>,
    filters: Vec<Hearing>,
    rounds: u64,
    unchanged: u8,
    steady: bool,
}

impl Model for SignalRing {
    ghost use Rattle.sdh_signal.specs.SignalRing.{Signalling, ring_of, IsRing};

    ghost Value = { Signalling };

    ghost view = { λ a. record { ring = ring_of a.map a.states.items a.sent.items a.filters.items a.rounds; rounds = a.rounds; unchanged = a.unchanged; steady = a.steady } };

    ghost invariant = { λ a. IsRing (ring_of a.map a.states.items a.sent.items a.filters.items a.rounds) a.rounds a.unchanged };
}

/// Returns the states of `count` idle nodes, or an error where memory runs out.
fn idle_states(alloc: Global, count: usize) -> Result<Vec<NodeState>, AllocError>
    ensures { IfOk result (λ v. v.items ≡ cells (λ p. NodeState.Idle tt) count) }
{
    let mut states = Vec::with_capacity(alloc, count)?;
    for _ in 0..count {
        states.push(start())?;
    }
    Ok(states)
}

/// Returns the words of the new nodes of a ring, by position, or an error where memory runs out.
fn first_words(alloc: Global, map: &RingMap) -> Result<Vec<Sent>, AllocError>
    ensures { IfOk result (λ v. v.items ≡ cells (first_words map.now) (length map.now)) }
{
    let count = map.len();
    let mut words = Vec::with_capacity(alloc, count)?;
    for i in 0..count {
        let at = Pos(i as u8);
        words.push(Sent {
            west: first_word(map, at, Side::West),
            east: first_word(map, at, Side::East),
        })?;
    }
    Ok(words)
}

/// Returns the filters of `count` nodes to which no round has brought a word, or an error where memory runs out.
fn empty_filters(alloc: Global, count: usize) -> Result<Vec<Hearing>, AllocError>
    ensures { IfOk result (λ v. v.items ≡ cells (λ p. no_filters) count) }
{
    let mut filters = Vec::with_capacity(alloc, count)?;
    for _ in 0..count {
        filters.push(Hearing::new())?;
    }
    Ok(filters)
}

/// Returns the words that are on their way: those of the round before, and none before the first round.
fn on_their_way(rounds: u64, sent: &[Sent]) -> &[Sent]
    ensures { result.now ≡ (if nat_lt 0 rounds then sent.now else []) }
{
    if rounds > 0 { sent } else { &[] }
}

/// Returns whether a round came after another one, held no node and changed no word. `rounds` ran before it, and
/// `words` says whether all words stayed the same.
fn leaves_words(rounds: u64, held: &[bool], words: bool) -> bool
    ensures { IsTrue result ↔ ((0 < rounds) × NoneHeld held.now × IsTrue words) }
{
    rounds > 0 && is_free(held) && words
}

/// Returns how many rounds in a row there are after one more: `count + 1`, at most 3, where the row goes on, or else 0.
fn counted(count: u8, goes_on: bool) -> u8
    requires { count ≤ 3 }
    ensures { result ≡ (if goes_on then min (count + 1) 3 else 0) }
{
    if goes_on { (count + 1).min(3) } else { 0 }
}

impl SignalRing {
    /// Returns a ring in which no round has run: all nodes are new, and nothing was sent. Returns an error where memory
    /// runs out.
    pub fn try_new(alloc: Global, map: RingMap) -> Result<SignalRing, AllocError>
        ensures { IfOk result (λ ring. ring ≡ new_ring map) }
    {
        let count = map.len();
        Ok(SignalRing {
            states: idle_states(alloc, count)?,
            sent: first_words(alloc, &map)?,
            filters: empty_filters(alloc, count)?,
            map,
            rounds: 0,
            unchanged: 0,
            steady: false,
        })
    }

    /// Runs one round: each node takes what its neighbours sent in the round before, or nothing on a failing side and
    /// in the first round. Then each node that isn't held steps, by what it hears through its filters. `needs` and
    /// `held` have an entry for each position. It takes no memory.
    pub fn round(&mut self, needs: &[Needs], held: &[bool])
        requires needs { length needs.now ≡ length self.old.ring.ids }
        requires held { length held.now ≡ length self.old.ring.ids }
        requires may { All MayNeed needs.now }
        ensures ring { self.new.ring ≡ round needs.now held.now self.old.ring }
        ensures ids { self.new.ring.ids ≡ self.old.ring.ids }
        ensures rounds { self.new.rounds ≡ min (self.old.rounds + 1) (2 ^ 64 - 1) }
        ensures unchanged { LeavesWords held.now self.old.ring self.new.ring → self.new.unchanged ≡ min (self.old.unchanged + 1) 3 }
        ensures changed { (LeavesWords held.now self.old.ring self.new.ring → ⊥) → self.new.unchanged ≡ 0 }
        ensures steady { IsTrue self.new.steady ↔ (self.new.ring.states ≡ self.old.ring.states) }

        // A still ring has the settled states for the requests of these needs, with their far ends.
        ensures settled { IsStill self.new → self.new.ring.states ≡ settled_states (requests_in needs.now) }
    {
        let words = on_their_way(self.rounds, self.sent.as_slice());
        hear_all(&self.map, words, needs, &mut self.filters);
        let filters = self.filters.as_slice();
        let stays = step_all(
            &self.map,
            needs,
            held,
            filters,
            &mut self.states,
            &mut self.sent,
        );
        let goes_on = leaves_words(self.rounds, held, stays.words);
        self.unchanged = counted(self.unchanged, goes_on);
        self.steady = stays.states;
        self.rounds = self.rounds.saturating_add(1);
    }

    /// Returns whether at least four rounds have run, none of the last three held a node or changed a word, and the
    /// last one changed no state.
    pub fn is_still(&self) -> bool
        ensures { IsTrue result ↔ IsStill self.now }
    {
        self.unchanged == 3 && self.steady
    }

    /// Returns the state at a position.
    pub fn state(&self, at: Pos) -> &NodeState
        requires { at.0 < length self.now.ring.ids }
        ensures { slice_get self.now.ring.states at.0 ≡ Some result.now }
    {
        &self.states[at.0 as usize]
    }

    /// Returns the words that the node at a position sent in the last round.
    pub fn sent(&self, at: Pos) -> &Sent
        requires at { at.0 < length self.now.ring.ids }
        requires ran { 1 ≤ self.now.rounds }
        ensures { slice_get self.now.ring.words at.0 ≡ Some result.now }
    {
        &self.sent[at.0 as usize]
    }
}
