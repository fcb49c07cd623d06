//! What a node does with each slot.
ghost use Rattle.std.specs.Prelude.{◌≡◌, ◌+◌, ◌≤◌, ◌<◌, IfOk};
ghost use Rattle.sdh_sncp.specs.Slots.{use_by, use_of, uses_at};

use sdh_circuits::{Circuit, CircuitMap, End, PortId};
use sdh_ringmap::Pos;
use std::alloc::{AllocError, Global};

/// What a node does with a slot: there is no circuit in it, it is passed on both ways, or a circuit ends here.
#[derive(Clone, Copy, Debug, PartialEq, Eq)]
pub enum Use {
    Unused,
    Passed,
    Ended(PortId),
}

// Returns what the node at a position does with the slot of a circuit.
fn use_by(at: Pos, number: u8, circuit: &Circuit) -> Use
    ensures { result ≡ use_by at.0 number circuit.now }
{
    if circuit.from().0 == at.0 {
        Use::Ended(PortId {
            circuit: number,
            end: End::A,
        })
    } else if circuit.to().0 == at.0 {
        Use::Ended(PortId {
            circuit: number,
            end: End::B,
        })
    } else {
        Use::Passed
    }
}

// Returns what the node at a position does with a slot.
#[tactic(auto, unfolding(crate::specs::Slots::use_of))]
fn use_of(circuits: &CircuitMap, at: Pos, slot: u8) -> Use
    ensures { result ≡ use_of circuits.now.circuits at.0 slot }
{
    for i in 0..circuits.len() {
        let circuit = circuits.get(i as u8);
        if circuit.slot().0 == slot {
            return use_by(at, i as u8, circuit);
        }
    }
    Use::Unused
}

/// Returns what the node at a position does with slots 1 to n. All memory is taken here.
#[tactic(auto, unfolding(crate::specs::Slots::uses_at))]
pub fn uses_at(
    alloc: Global,
    circuits: &CircuitMap,
    at: Pos,
    n: usize,
) -> Result<Vec<Use>, AllocError>
    requires { n ≤ 16 }
    ensures { IfOk result (λ v. v.items ≡ uses_at circuits.now.circuits at.0 n) }
{
    let mut uses = Vec::with_capacity(alloc, n)?;
    for k in 0..n {
        uses.push(use_of(circuits, at, k as u8 + 1))?;
    }
    Ok(uses)
}
