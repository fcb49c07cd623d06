//! The state of a node of a shared protection ring, and the K words that it sends. Both follow from its local requests,
//! the sides that fail, and the words that it hears in one round. The rules are this project's profile of ITU-T G.841
//! clause 7.2; they are in `specs/Rules.antt`.
//!
//! Each state is a type of its own. A step consumes the old state and makes the next. Only a node that switches exactly
//! one side may have a far end, and with it a chain: the positions between the node and its far end, both included.
#![tactic(auto)]

ghost use Rattle.std.specs.Prelude.{◌≡◌, ◌<◌, length};
ghost use Rattle.sdh_nodestate.specs.Rules.{scene, state_after, sent_after};
ghost use Rattle.sdh_nodestate.specs.Conditions.{MayStep};
ghost use Rattle.sdh_nodestate.specs.Words.{first_word, IsSourced, HearsSourced, SendsSpellable, HearsSpellable};
ghost use Rattle.sdh_kbytes.specs.KBytes.{IsSpellable};
ghost use Rattle.sdh_nodestate.specs.FarEnds.{far_of, IsElsewhere, west_chain, east_chain};
ghost use Rattle.sdh_nodestate.specs.Urgency.{FirstWordsAreSent};

mod filter;
mod scene;
mod shape;

use crate::scene::Scene;
pub use filter::Filter;
use sdh_kbytes::{K, Mark, Path};
use sdh_ringmap::{Chain, Code, Pos, RingMap, Side};
pub use shape::{Shape, same_shape, shape_of};
use std::marker::Model;

/// Nothing is switched, and the node sends a word of its own on some side.
#[derive(Debug, Drop, PartialEq, Eq)]
pub struct Idle {
    made: (),
}

/// Nothing is switched, and the words of others are relayed both ways.
#[derive(Debug, Drop, PartialEq, Eq)]
pub struct PassThrough {
    made: (),
}

/// The west side is switched.
#[derive(Debug, Drop, PartialEq, Eq)]
pub struct SwitchWest {
    far: Option<Pos>,
}

/// The east side is switched.
#[derive(Debug, Drop, PartialEq, Eq)]
pub struct SwitchEast {
    far: Option<Pos>,
}

/// Both sides are switched, so that nothing passes the node.
#[derive(Debug, Drop, PartialEq, Eq)]
pub struct Isolated {
    made: (),
}

impl Model for Idle {
    ghost use Rattle.std.specs.Prelude.{⊤};

    ghost Value = { ⊤ };

    ghost view = { λ _. tt };

    ghost inverse = { λ _. record { made = tt } };
}

impl Model for PassThrough {
    ghost use Rattle.std.specs.Prelude.{⊤};

    ghost Value = { ⊤ };

    ghost view = { λ _. tt };

    ghost inverse = { λ _. record { made = tt } };
}

impl Model for SwitchWest {
    ghost use Rattle.std.specs.Prelude.{Option};
    ghost use Rattle.sdh_ringmap.specs.declared.Pos.{Pos};

    ghost Value = { Option Pos };

    ghost view = { λ a. a.far };

    ghost inverse = { λ far. record { far = far } };
}

impl Model for SwitchEast {
    ghost use Rattle.std.specs.Prelude.{Option};
    ghost use Rattle.sdh_ringmap.specs.declared.Pos.{Pos};

    ghost Value = { Option Pos };

    ghost view = { λ a. a.far };

    ghost inverse = { λ far. record { far = far } };
}

impl Model for Isolated {
    ghost use Rattle.std.specs.Prelude.{⊤};

    ghost Value = { ⊤ };

    ghost view = { λ _. tt };

    ghost inverse = { λ _. record { made = tt } };
}

/// The state of a node.
#[derive(Debug, Drop, PartialEq, Eq)]
pub enum NodeState {
    Idle(Idle),
    PassThrough(PassThrough),
    SwitchWest(SwitchWest),
    SwitchEast(SwitchEast),
    Isolated(Isolated),
}

/// The word heard on each side, if one is.
#[derive(Clone, Copy, Debug, PartialEq, Eq)]
pub struct Heard {
    pub west: Option<K>,
    pub east: Option<K>,
}

/// The local request of each side, and whether the side fails.
#[derive(Clone, Copy, Debug, PartialEq, Eq)]
pub struct Needs {
    pub west: Code,
    pub east: Code,
    pub west_fails: bool,
    pub east_fails: bool,
}

/// The word sent on each side.
#[derive(Clone, Copy, Debug, PartialEq, Eq)]
pub struct Sent {
    pub west: K,
    pub east: K,
}

/// Returns the state of a new node, which is idle.
pub fn start() -> NodeState
    ensures { result ≡ NodeState.Idle tt }
{
    NodeState::Idle(Idle { made: () })
}

/// Returns the word of a new node to its neighbour on a side: it asks for nothing.
pub fn first_word(map: &RingMap, at: Pos, side: Side) -> K
    requires { at.0 < length map.now }
    ensures word { result ≡ first_word map.now at.0 side }
    ensures spellable { IsSpellable result }
{
    K {
        code: Code::Nr,
        to: map.id(map.step(at, side)),
        from: map.id(at),
        path: Path::Short,
        mark: Mark::Idle,
    }
}

/// Returns the state and the words of a round. The old state is consumed, and has no part in the answer.
pub fn step(old: NodeState, map: &RingMap, at: Pos, needs: Needs, heard: Heard) -> (NodeState, Sent)
    requires { MayStep (scene map.now at.0 needs heard) }
    ensures state { result.0 ≡ state_after (scene map.now at.0 needs heard) }
    ensures sent { result.1 ≡ sent_after (scene map.now at.0 needs heard) }

    // These clauses follow from the two above. They are for callers that build on the state and the words.
    ensures far { IsElsewhere (length map.now) at.0 (far_of result.0) }
    ensures sourced { HearsSourced map.now heard → IsSourced map.now result.1 }
    ensures spellable { HearsSpellable heard → SendsSpellable result.1 }
{
    // The rules don't look at the old state; it is used up here.
    let _ = old;
    let scene = Scene {
        map,
        at,
        needs,
        heard,
    };
    let sent = Sent {
        west: scene.word(Side::West),
        east: scene.word(Side::East),
    };
    (scene.state(), sent)
}

impl SwitchWest {
    /// Returns the position of the far end, if there is one: the source of the long word that was heard on the east
    /// side. In a settled ring the far end switches its east side.
    pub fn far(&self) -> Option<Pos>
        ensures { result ≡ self.now }
    {
        self.far
    }

    /// Returns the positions from this node, which is at `at`, eastwards up to the far end, or `None` where there is no
    /// far end.
    pub fn chain(&self, map: &RingMap, at: Pos) -> Option<Chain>
        requires at { at.0 < length map.now }
        requires far { IsElsewhere (length map.now) at.0 self.now }
        ensures { result ≡ west_chain (length map.now) at self.now }
    {
        match self.far {
            Some(far) => Some(map.chain(at, far)),
            None => None,
        }
    }
}

impl SwitchEast {
    /// Returns the position of the far end, if there is one: the source of the long word that was heard on the west
    /// side. In a settled ring the far end switches its west side.
    pub fn far(&self) -> Option<Pos>
        ensures { result ≡ self.now }
    {
        self.far
    }

    /// Returns the positions from the far end eastwards up to this node, which is at `at`, or `None` where there is no
    /// far end.
    pub fn chain(&self, map: &RingMap, at: Pos) -> Option<Chain>
        requires at { at.0 < length map.now }
        requires far { IsElsewhere (length map.now) at.0 self.now }
        ensures { result ≡ east_chain (length map.now) at self.now }
    {
        match self.far {
            Some(far) => Some(map.chain(far, at)),
            None => None,
        }
    }
}

/// The word sent on a side is the most urgent of those that may be sent there. All requests of at least SF are equally
/// urgent. Of words that are equally urgent the node's own short word comes first, then its own long word, and then the
/// relayed one.
#[tactic(auto, using(crate::proofs::Urgency::first_words_are_sent))]
pub fn first_words_are_sent()
    ensures { FirstWordsAreSent }
{}
