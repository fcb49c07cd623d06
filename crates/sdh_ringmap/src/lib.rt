//! The positions, sides, spans and arcs of a ring, by arithmetic modulo its number of nodes.
//!
//! A ring has 2 to 16 nodes at positions from 0. East of position `p` is `p + 1`, and east of the last is 0. Span `p`
//! joins the east side of position `p` and the west side of the position east of it. The module `terms` has what plans
//! and promises share with frames, K bytes and fibres.
#![tactic(auto)]

ghost use Rattle.std.specs.Prelude.{◌≡◌, ◌≢◌, ℕ, ◌+◌, ◌<◌, ◌≤◌, length, slice_index, IfOk, map, pos, not};
ghost use Rattle.std.specs.List.{list_any};
ghost use Rattle.sdh_ringmap.specs.Ids.{AreIds};
ghost use Rattle.sdh_ringmap.specs.Places.{opposite, neighbour, span_at, eastwards, in_chain, found_at};
ghost use Rattle.sdh_ringmap.specs.Arcs.{holds_span, arc_between, is_among, is_clear, is_joined};
ghost use Rattle.sdh_ringmap.specs.Numbering.{ring_of};

mod search;
mod terms;

use crate::search::{as_bytes, first_repeat, first_unfit, index_of};
pub use crate::terms::{Code, Condition, FibreEvent, Rate};
use arrayvec::ArrayVec;
use std::marker::Model;
use thiserror::Error;

/// A position in the ring, counted eastwards from 0.
#[derive(Clone, Copy, Debug, PartialEq, Eq)]
pub struct Pos(pub u8);

/// A side of a node.
#[derive(Clone, Copy, Debug, PartialEq, Eq)]
pub enum Side {
    West,
    East,
}

/// A span of the ring, by the position at its west end.
#[derive(Clone, Copy, Debug, PartialEq, Eq)]
pub struct Span(pub u8);

/// A run of consecutive positions: the first, and their number, counted eastwards.
#[derive(Clone, Copy, Debug, PartialEq, Eq)]
pub struct Chain {
    pub first: Pos,
    pub count: u8,
}

/// Why a list of numbers is no list of a ring's identifiers. Nodes are counted from 1.
#[derive(Clone, Copy, Debug, PartialEq, Eq, Error)]
pub enum MapError {
    /// The list does not have 2 to 16 numbers.
    #[error("not 2 to 16 nodes")]
    NodeCount,
    /// The number of this node is not 0 to 15.
    #[error("the number of node {0} isn't 0 to 15")]
    NodeId(u32),
    /// An earlier node has the same number as this one.
    #[error("a node before node {0} has its number")]
    Repeat(u32),
}

/// The nodes of a ring: 2 to 16 identifiers, by position.
#[derive(Debug, Drop)]
pub struct RingMap {
    ids: ArrayVec<u8, 16>,
}

impl Model for RingMap {
    ghost use Rattle.std.specs.Prelude.{ℕ, List};
    ghost use Rattle.sdh_ringmap.specs.Ids.{AreIds};

    ghost Value = { List ℕ };

    ghost view = { λ a. a.ids.items };

    ghost invariant = { λ a. AreIds a.ids.items };
}

impl Side {
    /// Returns the other side of the node.
    pub fn opposite(self) -> Side
        ensures { result ≡ opposite self }
    {
        match self {
            Side::West => Side::East,
            Side::East => Side::West,
        }
    }
}

/// Returns the position next to `at` on that side, in a ring of `nodes` nodes.
pub fn neighbour(nodes: usize, at: Pos, side: Side) -> Pos
    requires at { at.0 < nodes }
    requires few { nodes ≤ 16 }
    ensures place { result.0 ≡ neighbour nodes at.0 side }
    ensures within { result.0 < nodes }
{
    let n = nodes as u8;
    Pos(match side {
        Side::East => (at.0 + 1) % n,
        Side::West => (at.0 + (n - 1)) % n,
    })
}

impl RingMap {
    /// Returns the ring whose nodes have these identifiers, by position. Of several faults it reports a wrong number of
    /// nodes first, then the first number that is no identifier, then the first repeat.
    #[tactic(auto, unfolding(crate::specs::Numbering::ring_of))]
    pub fn new(ids: &[i64]) -> Result<RingMap, MapError>
        ensures ring { result ≡ ring_of ids.now }
        ensures ids { IfOk result (λ kept. map pos kept ≡ ids.now) }
    {
        if ids.len() < 2 || ids.len() > 16 {
            return Err(MapError::NodeCount);
        }
        if let Some(i) = first_unfit(ids) {
            return Err(MapError::NodeId(i as u32 + 1));
        }
        if let Some(i) = first_repeat(ids) {
            return Err(MapError::Repeat(i as u32 + 1));
        }
        Ok(RingMap { ids: as_bytes(ids) })
    }

    /// Returns the number of nodes, 2 to 16.
    pub fn len(&self) -> usize
        ensures len { result ≡ length self.now }
        ensures few { length self.now ≤ 16 }
        ensures enough { 2 ≤ length self.now }
        ensures ids { AreIds self.now }
    {
        self.ids.len()
    }

    /// Returns the identifier of the node at a position, 0 to 15.
    pub fn id(&self, at: Pos) -> u8
        requires { at.0 < length self.now }
        ensures id { result ≡ slice_index self.now at.0 }
        ensures small { result < 16 }
    {
        self.ids[at.0 as usize]
    }

    /// Returns the position of the node with this identifier, or `None` where no node has it.
    pub fn find(&self, id: u8) -> Option<Pos>
        ensures { result ≡ found_at self.now id }
    {
        match index_of(self.ids.as_slice(), id) {
            Some(at) => Some(Pos(at as u8)),
            None => None,
        }
    }

    /// Returns the position next to `at` on that side.
    pub fn step(&self, at: Pos, side: Side) -> Pos
        requires { at.0 < length self.now }
        ensures place { result.0 ≡ neighbour (length self.now) at.0 side }
        ensures within { result.0 < length self.now }
    {
        neighbour(self.len(), at, side)
    }

    /// Returns the span on that side of a position.
    pub fn span(&self, at: Pos, side: Side) -> Span
        requires { at.0 < length self.now }
        ensures place { result.0 ≡ span_at (length self.now) at.0 side }
        ensures within { result.0 < length self.now }
    {
        Span(match side {
            Side::East => at.0,
            Side::West => self.step(at, Side::West).0,
        })
    }

    /// Returns the number of spans that lead eastwards from one position to another, 0 to n - 1.
    pub fn distance(&self, from: Pos, to: Pos) -> u8
        requires from { from.0 < length self.now }
        requires to { to.0 < length self.now }
        ensures steps { result ≡ eastwards (length self.now) from.0 to.0 }
        ensures within { result < length self.now }
        ensures few { length self.now ≤ 16 }
    {
        let n = self.ids.len() as u8;
        (to.0 + (n - from.0)) % n
    }

    /// Returns the positions eastwards from `from` to `to`, both included.
    pub fn chain(&self, from: Pos, to: Pos) -> Chain
        requires from { from.0 < length self.now }
        requires to { to.0 < length self.now }
        ensures first { result.first ≡ from }
        ensures count { result.count ≡ eastwards (length self.now) from.0 to.0 + 1 }
    {
        Chain {
            first: from,
            count: self.distance(from, to) + 1,
        }
    }

    /// Returns whether a chain includes a position.
    pub fn has(&self, chain: Chain, at: Pos) -> bool
        requires chain { chain.first.0 < length self.now }
        requires at { at.0 < length self.now }
        ensures { result ≡ in_chain (length self.now) chain at.0 }
    {
        self.distance(chain.first, at) < chain.count
    }

    /// Returns whether the arc that leads eastwards from `from` to `to` holds the span `span`.
    #[tactic(auto, unfolding(crate::specs::Arcs::holds_span))]
    pub fn holds(&self, from: Pos, to: Pos, span: Span) -> bool
        requires from { from.0 < length self.now }
        requires to { to.0 < length self.now }
        ensures { result ≡ holds_span (length self.now) (arc_between (length self.now) from.0 to.0) span.0 }
    {
        (span.0 as usize) < self.len() && self.distance(from, Pos(span.0)) < self.distance(from, to)
    }

    // Returns whether the arc that leads eastwards from `from` to `to` holds none of the spans. It looks at each span.
    fn holds_none(&self, from: Pos, to: Pos, spans: &[Span]) -> bool
        requires from { from.0 < length self.now }
        requires to { to.0 < length self.now }
        ensures { result ≡ not (list_any (λ s. holds_span (length self.now) (arc_between (length self.now) from.0 to.0) s.0) spans.now) }
    {
        for span in spans {
            if self.holds(from, to, *span) {
                return false;
            }
        }
        true
    }

    // Returns whether the arc that leads eastwards from `from` to `to` is clear of the spans.
    fn is_clear(&self, from: Pos, to: Pos, spans: &[Span]) -> bool
        requires from { from.0 < length self.now }
        requires to { to.0 < length self.now }
        ensures { result ≡ is_clear (length self.now) (is_among spans.now) (arc_between (length self.now) from.0 to.0) }
    {
        self.holds_none(from, to, spans)
    }

    /// Returns whether two different positions are joined under applied spans: at least one of the two arcs between
    /// them holds none of these spans. A span whose number is not below n is in no arc.
    #[tactic(auto, using(crate::proofs::Around::opposite_between), unfolding(crate::specs::Arcs::is_joined))]
    pub fn joined(&self, from: Pos, to: Pos, applied: &[Span]) -> bool
        requires from { from.0 < length self.now }
        requires to { to.0 < length self.now }
        requires apart { from.0 ≢ to.0 }
        ensures { result ≡ is_joined (length self.now) (is_among applied.now) (arc_between (length self.now) from.0 to.0) }
    {
        self.is_clear(from, to, applied) || self.is_clear(to, from, applied)
    }

    /// Returns an equal ring map. It takes no memory.
    pub fn copy(&self) -> RingMap
        ensures { result ≡ self.now }
    {
        let mut ids = ArrayVec::new();
        let old = self.ids.as_slice();
        for id in old {
            ids.push(*id);
        }
        RingMap { ids }
    }
}
