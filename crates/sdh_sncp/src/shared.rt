//! Circuits that share a slot.
ghost use Rattle.std.specs.Prelude.{◌≡◌, ◌<◌, Option, IfSome, IfNone, length};
ghost use Rattle.sdh_sncp.specs.Fixed.{AreAlone};
ghost use Rattle.sdh_sncp.specs.Sharing.{slot_at, share, first_before, has_before, first_second, AreFirstToShare};

use sdh_circuits::CircuitMap;

// Returns the slot of a circuit.
#[tactic(auto, unfolding(crate::specs::Sharing::slot_at))]
fn slot_at(circuits: &CircuitMap, circuit: usize) -> u8
    requires { circuit < length circuits.now.circuits }
    ensures { result ≡ slot_at circuits.now.circuits circuit }
{
    prove!(circuits.len() <= 128);
    circuits.get(circuit as u8).slot().0
}

// Returns whether two circuits share a slot.
#[tactic(auto, unfolding(crate::specs::Sharing::share))]
fn share(circuits: &CircuitMap, second: usize, first: usize) -> bool
    requires first { first < length circuits.now.circuits }
    requires second { second < length circuits.now.circuits }
    ensures { result ≡ share circuits.now.circuits second first }
{
    slot_at(circuits, first) == slot_at(circuits, second)
}

// Returns the first circuit before this one that shares a slot with it.
#[tactic(auto, unfolding(crate::specs::Sharing::first_before))]
fn first_before(circuits: &CircuitMap, second: usize) -> Option<usize>
    requires { second < length circuits.now.circuits }
    ensures index { result ≡ first_before circuits.now.circuits second }
    ensures within { IfSome result (λ first. first < second) }
{
    (0..second).find(|first| share(circuits, second, *first))
}

#[tactic(auto, unfolding(crate::specs::Sharing::has_before))]
fn has_before(circuits: &CircuitMap, second: usize) -> bool
    requires { second < length circuits.now.circuits }
    ensures { result ≡ has_before circuits.now.circuits second }
{
    first_before(circuits, second).is_some()
}

// Returns the first circuit that shares its slot with one before it.
#[tactic(auto, unfolding(crate::specs::Sharing::first_second))]
fn first_second(circuits: &CircuitMap) -> Option<usize>
    ensures index { result ≡ first_second circuits.now.circuits }
    ensures within { IfSome result (λ second. second < length circuits.now.circuits) }
{
    (0..circuits.len()).find(|second| has_before(circuits, *second))
}

/// Returns the first two circuits that share a slot, or `None` where no two do. The second one is the first circuit
/// that shares its slot with an earlier one, and the first is the first of these earlier ones.
#[tactic(auto, using(crate::proofs::Sharing::alone_if, crate::proofs::Sharing::some_before))]
pub fn first_shared(circuits: &CircuitMap) -> Option<(u8, u8)>
    ensures some { IfSome result (λ two. AreFirstToShare circuits.now.circuits two.0 two.1) }
    ensures none { IfNone result (AreAlone circuits.now.circuits) }
{
    prove!(circuits.len() <= 128);
    let Some(second) = first_second(circuits) else {
        return None;
    };
    let Some(first) = first_before(circuits, second) else {
        unreachable!()
    };
    Some((first as u8, second as u8))
}
