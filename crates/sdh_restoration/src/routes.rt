//! The route between the ends of an arc around applied spans.
ghost use Rattle.std.specs.Prelude.{◌≡◌, ◌+◌, ◌*◌, ◌<◌, ◌≤◌, true, false, length, map};
ghost use Rattle.sdh_ringmap.specs.Places.{eastwards};
ghost use Rattle.sdh_ringmap.specs.Arcs.{arc_between, arc_span, is_among, is_clear, none_of};
ghost use Rattle.sdh_restoration.specs.Routes.{applied_at_place, first_applied, last_applied, hops};

use sdh_ringmap::{Pos, RingMap, Side, Span};

/// An arc of a ring: from one position eastwards to another.
#[derive(Clone, Copy, Debug, PartialEq, Eq)]
pub struct Ends {
    pub from: Pos,
    pub to: Pos,
}

// Returns the span at a place of an arc.
fn span_at_place(map: &RingMap, ends: Ends, place: u8) -> Span
    requires from { ends.from.0 < length map.now }
    requires place { place < length map.now }
    ensures { result.0 ≡ arc_span (length map.now) (arc_between (length map.now) ends.from.0 ends.to.0) place }
{
    let n = map.len() as u8;
    Span((ends.from.0 + place) % n)
}

// Returns whether the span at a place of an arc is applied.
fn is_applied_at(map: &RingMap, ends: Ends, place: u8, applied: &[Span]) -> bool
    requires from { ends.from.0 < length map.now }
    requires place { place < length map.now }
    ensures { result ≡ applied_at_place (length map.now) (is_among applied.now) (arc_between (length map.now) ends.from.0 ends.to.0) place }
{
    let span = span_at_place(map, ends, place);
    applied.iter().any(|other| other.0 == span.0)
}

// Returns whether none of the `count` spans from place `first` of the arc on is applied.
fn is_free(map: &RingMap, ends: Ends, first: u8, count: u8, applied: &[Span]) -> bool
    requires from { ends.from.0 < length map.now }
    requires places { first + count ≤ length map.now }
    ensures { result ≡ none_of (applied_at_place (length map.now) (is_among applied.now)
        (arc_between (length map.now) ends.from.0 ends.to.0)) first count }
{
    let n = map.len() as u8;
    for place in first..n.min(first + count) {
        if is_applied_at(map, ends, place, applied) {
            return false;
        }
    }
    true
}

// Returns the place of the first applied span of an arc, or the arc's number of spans where none is applied.
fn first_place(map: &RingMap, ends: Ends, applied: &[Span]) -> u8
    requires from { ends.from.0 < length map.now }
    requires to { ends.to.0 < length map.now }
    ensures place { result ≡ first_applied (length map.now) (is_among applied.now) (arc_between (length map.now) ends.from.0 ends.to.0) }
    ensures within { result ≤ eastwards (length map.now) ends.from.0 ends.to.0 }
{
    let spans = map.distance(ends.from, ends.to);
    for place in 0..spans {
        if is_applied_at(map, ends, place, applied) {
            return place;
        }
    }
    spans
}

// Returns the place of the last applied span of an arc, or 0 where none is applied.
fn last_place(map: &RingMap, ends: Ends, applied: &[Span]) -> u8
    requires from { ends.from.0 < length map.now }
    requires to { ends.to.0 < length map.now }
    ensures place { result ≡ last_applied (length map.now) (is_among applied.now) (arc_between (length map.now) ends.from.0 ends.to.0) }
    ensures within { 0 < eastwards (length map.now) ends.from.0 ends.to.0 → result < eastwards (length map.now) ends.from.0 ends.to.0 }
{
    let spans = map.distance(ends.from, ends.to);
    for place in (0..spans).rev() {
        if is_applied_at(map, ends, place, applied) {
            return place;
        }
    }
    0
}

/// Returns the number of spans of the route between the two ends, where they are joined: 1 to n - 1 along the arc, or
/// at most 2n - 3 around applied spans.
#[tactic(auto, unfolding(crate::specs::Routes::hops, sdh_ringmap::specs::Arcs::is_clear))]
pub fn hops(map: &RingMap, ends: Ends, applied: &[Span]) -> u8
    requires from { ends.from.0 < length map.now }
    requires to { ends.to.0 < length map.now }
    ensures { result ≡ hops (length map.now) (is_among applied.now) (arc_between (length map.now) ends.from.0 ends.to.0) }
{
    let spans = map.distance(ends.from, ends.to);
    if is_free(map, ends, 0, spans, applied) {
        return spans;
    }
    let first = first_place(map, ends, applied);
    let last = last_place(map, ends, applied);
    2 * first + map.len() as u8 + spans - 2 * (last + 1)
}
