//! Searches among circuits.
ghost use Rattle.std.specs.Prelude.{◌≡◌, ◌<◌, length, position, IfSome};
ghost use Rattle.std.specs.List.{All, list_any};
ghost use Rattle.std.specs.Str.{bytes_eq};
ghost use Rattle.sdh_ringmap.specs.Arcs.{holds_span};
ghost use Rattle.sdh_circuits.specs.Provisioned.{arc_of, is_on};
ghost use Rattle.sdh_circuits.specs.Provisioning.{IsInRing};
ghost use Rattle.sdh_circuits.specs.Checks.{do_share};

use crate::{Circuit, Slot};
use sdh_ringmap::{RingMap, Span};

// Returns whether the circuit's arc holds the span.
fn holds(map: &RingMap, circuit: &Circuit, span: Span) -> bool
    requires { IsInRing (length map.now) circuit.now }
    ensures { result ≡ holds_span (length map.now) (arc_of (length map.now) circuit.now) span.0 }
{
    map.holds(circuit.from(), circuit.to(), span)
}

// Returns whether the circuit is on the span in the slot.
fn is_on(map: &RingMap, circuit: &Circuit, span: Span, slot: Slot) -> bool
    requires { IsInRing (length map.now) circuit.now }
    ensures { result ≡ is_on (length map.now) span.0 slot.0 circuit.now }
{
    circuit.slot() == slot && holds(map, circuit, span)
}

// Returns the number of the first circuit that is on the span in the slot, if there is one.
pub(crate) fn index_on(map: &RingMap, circuits: &[Circuit], span: Span, slot: Slot) -> Option<usize>
    requires { All (IsInRing (length map.now)) circuits.now }
    ensures index { result ≡ position (is_on (length map.now) span.0 slot.0) circuits.now }
    ensures within { IfSome result (λ i. i < length circuits.now) }
{
    circuits
        .iter()
        .position(|circuit| is_on(map, circuit, span, slot))
}

// Returns whether the circuit has the name.
fn has_name(circuit: &Circuit, name: &str) -> bool
    ensures { result ≡ bytes_eq circuit.now.name name.now }
{
    circuit.name().as_slice() == name.as_bytes()
}

// Returns whether one of the circuits has the name.
pub(crate) fn is_named(circuits: &[Circuit], name: &str) -> bool
    ensures { result ≡ list_any (λ c. bytes_eq c.name name.now) circuits.now }
{
    circuits.iter().any(|circuit| has_name(circuit, name))
}

// Returns the number of the first circuit that has the name, if there is one.
pub(crate) fn index_named(circuits: &[Circuit], name: &str) -> Option<usize>
    ensures index { result ≡ position (λ c. bytes_eq c.name name.now) circuits.now }
    ensures within { IfSome result (λ i. i < length circuits.now) }
{
    circuits
        .iter()
        .position(|circuit| circuit.name().as_slice() == name.as_bytes())
}

// Returns whether two circuits share a span and a slot. Two arcs share a span exactly where one of them holds the span
// at which the other starts.
#[tactic(auto, using(crate::proofs::Shares::share_by_starts))]
fn do_share(map: &RingMap, one: &Circuit, other: &Circuit) -> bool
    requires one { IsInRing (length map.now) one.now }
    requires other { IsInRing (length map.now) other.now }
    ensures { result ≡ do_share (length map.now) one.now other.now }
{
    one.slot() == other.slot()
        && (holds(map, one, Span(other.from().0)) || holds(map, other, Span(one.from().0)))
}

// Returns whether one of the circuits shares a span and a slot with this one.
pub(crate) fn is_taken(map: &RingMap, circuits: &[Circuit], circuit: &Circuit) -> bool
    requires circuits { All (IsInRing (length map.now)) circuits.now }
    requires circuit { IsInRing (length map.now) circuit.now }
    ensures { result ≡ list_any (do_share (length map.now) circuit.now) circuits.now }
{
    circuits.iter().any(|kept| do_share(map, circuit, kept))
}
