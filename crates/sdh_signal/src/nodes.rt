//! One round of the nodes: all take what comes in, and then all send.
ghost use Rattle.std.specs.Prelude.{◌≡◌, ◌≤◌, ◌<◌, ◌↔◌, ℕ, length, get_or, All, IsTrue, if◌then◌else◌};
ghost use Rattle.sdh_basics.specs.Indexed.{map_from};
ghost use Rattle.sdh_nodestate.specs.Rules.{state_after, sent_after};
ghost use Rattle.sdh_nodestate.specs.Conditions.{MayNeed, MayStep};
ghost use Rattle.sdh_signal.specs.Signals.{no_filters, no_needs, incoming, heard_through};
ghost use Rattle.sdh_signal.specs.SignalRing.{NoneHeld};
ghost use Rattle.sdh_signal.specs.Nodes.{filters_with, scene_through, next_state, next_sent, IsSilent};

use sdh_kbytes::{K, same_word};
use sdh_nodestate::{Filter, Heard, Needs, NodeState, Sent, same_shape, shape_of, start, step};
use sdh_ringmap::{Pos, RingMap, Side};
use std::marker::Model;

/// The filters of a node's two sides.
#[derive(Debug, Drop)]
pub struct Hearing {
    west: Filter,
    east: Filter,
}

impl Model for Hearing {
    ghost use Rattle.sdh_signal.specs.Signals.{Filters};

    ghost Value = { Filters };

    ghost view = { λ a. record { west = a.west; east = a.east } };
}

/// Whether states and words stay the same in a round.
#[derive(Clone, Copy)]
pub struct Stays {
    pub states: bool,
    pub words: bool,
}

/// Returns whether two pairs of words, each sent by a node on its two sides, are the same.
fn is_sent(a: &Sent, b: &Sent) -> bool
    ensures { IsTrue result ↔ (a.now ≡ b.now) }
{
    same_word(a.west, b.west) && same_word(a.east, b.east)
}

/// Returns what comes in on one side of a position: the word that the neighbour sent this way, if the side doesn't
/// fail.
fn incoming(map: &RingMap, words: &[Sent], at: Pos, needs: &Needs, side: Side) -> Option<K>
    requires at { at.0 < length map.now }
    ensures { result ≡ incoming words.now (length map.now) at.0 needs.now side }
{
    let next = map.step(at, side).0 as usize;
    match side {
        Side::West if !needs.west_fails => words.get(next).map(|sent| sent.east),
        Side::East if !needs.east_fails => words.get(next).map(|sent| sent.west),
        _ => None,
    }
}

impl Hearing {
    /// Returns filters to which no round has brought a word.
    pub fn new() -> Hearing
        ensures { result ≡ no_filters }
    {
        Hearing {
            west: Filter::new(),
            east: Filter::new(),
        }
    }

    /// Gives both filters the words that come in at a position.
    fn take(&mut self, map: &RingMap, words: &[Sent], at: Pos, needs: &Needs)
        requires at { at.0 < length map.now }
        ensures { self.new ≡ filters_with words.now (length map.now) at.0 needs.now self.old }
    {
        self.west.hear(incoming(map, words, at, needs, Side::West));
        self.east.hear(incoming(map, words, at, needs, Side::East));
    }

    /// Returns the words that are heard on the two sides.
    fn heard(&self) -> Heard
        ensures { result ≡ heard_through self.now }
    {
        Heard {
            west: self.west.heard(),
            east: self.east.heard(),
        }
    }
}

/// Gives the filters of all nodes the words that come in.
pub fn hear_all(map: &RingMap, words: &[Sent], needs: &[Needs], filters: &mut Vec<Hearing>)
    requires few { length map.now ≤ 16 }
    requires needs { length needs.now ≡ length map.now }
    requires filters { length filters.old.items ≡ length map.now }
    ensures filters { filters.new.items ≡ map_from
        (λ p x. filters_with words.now (length map.now) p x (get_or filters.old.items p no_filters)) 0 needs.now }
    ensures len { length filters.new.items ≡ length map.now }
{
    for i in 0..needs.len() {
        filters[i].take(map, words, Pos(i as u8), &needs[i]);
    }
}

/// Lets one node step, and returns whether its state and its words stay the same.
fn step_at(
    map: &RingMap,
    at: Pos,
    needs: &Needs,
    hearing: &Hearing,
    state: &mut NodeState,
    sent: &mut Sent,
) -> Stays
    requires { MayStep (scene_through map.now at.0 needs.now hearing.now) }
    ensures state { state.new ≡ state_after (scene_through map.now at.0 needs.now hearing.now) }
    ensures sent { sent.new ≡ sent_after (scene_through map.now at.0 needs.now hearing.now) }
    ensures states { IsTrue result.states ↔ (state.new ≡ state.old) }
    ensures words { IsTrue result.words ↔ (sent.new ≡ sent.old) }
{
    let shape = shape_of(state);
    let old = std::mem::replace(state, start());
    let (next, words) = step(old, map, at, *needs, hearing.heard());
    let stays = Stays {
        states: same_shape(shape_of(&next), shape),
        words: is_sent(&words, sent),
    };
    *state = next;
    *sent = words;
    stays
}

/// Does one node's part of a round, after all filters took what comes in: the node steps, unless it is held. Returns
/// whether its state and its words stay the same.
fn turn_at(
    map: &RingMap,
    at: Pos,
    needs: &Needs,
    held: bool,
    hearing: &Hearing,
    state: &mut NodeState,
    sent: &mut Sent,
) -> Stays
    requires { MayStep (scene_through map.now at.0 needs.now hearing.now) }
    ensures state { state.new ≡ (if held then state.old else state_after (scene_through map.now at.0 needs.now hearing.now)) }
    ensures sent { sent.new ≡ (if held then sent.old else sent_after (scene_through map.now at.0 needs.now hearing.now)) }
    ensures states { IsTrue result.states ↔ (state.new ≡ state.old) }
    ensures words { IsTrue result.words ↔ (sent.new ≡ sent.old) }
{
    if held {
        return Stays {
            states: true,
            words: true,
        };
    }
    step_at(map, at, needs, hearing, state, sent)
}

/// Lets all nodes step that aren't held, and returns whether all states and all words stay the same.
pub fn step_all(
    map: &RingMap,
    needs: &[Needs],
    held: &[bool],
    filters: &[Hearing],
    states: &mut Vec<NodeState>,
    sent: &mut Vec<Sent>,
) -> Stays
    requires few { length map.now ≤ 16 }
    requires needs { length needs.now ≡ length map.now }
    requires held { length held.now ≡ length map.now }
    requires filters { length filters.now ≡ length map.now }
    requires states { length states.old.items ≡ length map.now }
    requires sent { length sent.old.items ≡ length map.now }
    requires may { All MayNeed needs.now }
    requires silent { (p : ℕ) → p < length needs.now → IsSilent (get_or needs.now p no_needs) (get_or filters.now p no_filters) }
    ensures states { states.new.items ≡ map_from (next_state map.now filters.now held.now states.old.items) 0 needs.now }
    ensures sent { sent.new.items ≡ map_from (next_sent map.now filters.now held.now sent.old.items) 0 needs.now }
    ensures states_len { length states.new.items ≡ length map.now }
    ensures sent_len { length sent.new.items ≡ length map.now }
    ensures same_states { IsTrue result.states ↔ (states.new.items ≡ states.old.items) }
    ensures same_words { IsTrue result.words ↔ (sent.new.items ≡ sent.old.items) }
{
    let mut all = Stays {
        states: true,
        words: true,
    };
    for i in 0..needs.len() {
        let at = Pos(i as u8);
        let stays = turn_at(
            map,
            at,
            &needs[i],
            held[i],
            &filters[i],
            &mut states[i],
            &mut sent[i],
        );
        all.states &= stays.states;
        all.words &= stays.words;
    }
    all
}

/// Returns whether no node is held.
pub fn is_free(held: &[bool]) -> bool
    ensures { IsTrue result ↔ NoneHeld held.now }
{
    for i in 0..held.len() {
        if held[i] {
            return false;
        }
    }
    true
}
