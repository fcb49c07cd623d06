//! What a node connects: where the bytes of each AU-4 that it sends or drops come from, by its state and its squelch
//! table. Bridging, switching, passing through and squelching are those of ITU-T G.841, MS shared protection rings.
//!
//! The origin of every AU-4 is asked for in every round. These functions read the rows of the table, which are made
//! beforehand, and search no circuits.
#![tactic(auto)]

ghost use Rattle.std.specs.Prelude.{◌≡◌, ◌≤◌, ◌<◌, false, IfSome, length};
ghost use Rattle.std.specs.Option.{option_map_or};
ghost use Rattle.sdh_squelch.specs.Table.{circuits_at, is_carried};
ghost use Rattle.sdh_nodestate.specs.FarEnds.{far_of, IsElsewhere};
ghost use Rattle.sdh_bridge.specs.Connections.{stands_for, leaves_working, leaves_protection};

use sdh_circuits::{End, PortId, Slot};
use sdh_nodestate::NodeState;
use sdh_ringmap::{Chain, Pos, RingMap, Side};
use sdh_squelch::Table;

/// Where the bytes of an AU-4 that a node sends or drops come from.
#[derive(Clone, Copy, Debug, PartialEq, Eq)]
pub enum Origin {
    /// The stream of a port of the node.
    Add(PortId),
    /// What arrived on a side in the working slot.
    Working(Side),
    /// What arrived on a side in the protection slot.
    Protection(Side),
    /// Nothing: AIS stands in its place.
    Ais,
}

// Returns whether there is a chain and the circuit on a side in a slot may be carried over it.
fn may_carry(chain: Option<Chain>, map: &RingMap, table: &Table, side: Side, slot: Slot) -> bool
    requires table { table.now.ring ≡ map.now }
    requires slot { (1 ≤ slot.0) × (slot.0 ≤ 8) }
    requires chain { IfSome chain (λ k. k.first.0 < length map.now) }
    ensures { result ≡ option_map_or (is_carried (length map.now)
        (circuits_at (length map.now) table.now.circuits table.now.at.0 slot.0 side)) chain false }
{
    match chain {
        Some(chain) => table.may_carry(map, side, slot, chain),
        None => false,
    }
}

/// Returns the origin of what a node takes from a side in a working slot. It is what arrives there in that slot, as
/// long as the side isn't switched. Where the side is switched, it is what arrives in the protection slot on the other
/// side if the circuit may be carried round, and else AIS. In an isolated node it is AIS. Where the circuit on that
/// side and in that slot ends at the node, this is also the origin of what its port there delivers.
#[tactic(auto, unfolding(crate::specs::Connections::stands_for, crate::specs::Connections::may_carry))]
pub fn drop_origin(
    state: &NodeState,
    map: &RingMap,
    table: &Table,
    at: Pos,
    side: Side,
    slot: Slot,
) -> Origin
    requires at { at.0 < length map.now }
    requires table { (table.now.ring ≡ map.now) × (table.now.at ≡ at) }
    requires slot { (1 ≤ slot.0) × (slot.0 ≤ 8) }
    requires far { IsElsewhere (length map.now) at.0 (far_of state.now) }
    ensures { result ≡ stands_for (length map.now) at (circuits_at (length map.now) table.now.circuits at.0 slot.0) state.now side }
{
    match (state, side) {
        (NodeState::Isolated(_), _) => Origin::Ais,
        (NodeState::SwitchWest(west), Side::West) => {
            if may_carry(west.chain(map, at), map, table, Side::West, slot) {
                Origin::Protection(Side::East)
            } else {
                Origin::Ais
            }
        }
        (NodeState::SwitchEast(east), Side::East) => {
            if may_carry(east.chain(map, at), map, table, Side::East, slot) {
                Origin::Protection(Side::West)
            } else {
                Origin::Ais
            }
        }
        _ => Origin::Working(side),
    }
}

/// Returns the origin of what leaves on a side in a working slot. Where the circuit there ends at the node, it is the
/// stream of its port; else it is what the node takes from the other side in that slot. It is AIS where there is no
/// circuit, and in an isolated node.
#[tactic(auto, unfolding(crate::specs::Connections::leaves_working))]
pub fn working_origin(
    state: &NodeState,
    map: &RingMap,
    table: &Table,
    at: Pos,
    side: Side,
    slot: Slot,
) -> Origin
    requires at { at.0 < length map.now }
    requires table { (table.now.ring ≡ map.now) × (table.now.at ≡ at) }
    requires slot { (1 ≤ slot.0) × (slot.0 ≤ 8) }
    requires far { IsElsewhere (length map.now) at.0 (far_of state.now) }
    ensures { result ≡ leaves_working (length map.now) at (circuits_at (length map.now) table.now.circuits at.0 slot.0) state.now side }
{
    if let NodeState::Isolated(_) = state {
        return Origin::Ais;
    }
    match (table.circuit(side, slot), table.ends(side, slot)) {
        (Some(circuit), Some((from, to))) => {
            if from.0 == at.0 {
                Origin::Add(PortId {
                    circuit,
                    end: End::A,
                })
            } else if to.0 == at.0 {
                Origin::Add(PortId {
                    circuit,
                    end: End::B,
                })
            } else {
                drop_origin(state, map, table, at, side.opposite(), slot)
            }
        }
        _ => Origin::Ais,
    }
}

/// Returns the origin of what leaves on a side in a protection slot. In a node that passes through, it is what arrives
/// in the protection slot on the other side. Where only the other side is switched, and the circuit on that other side
/// may be carried round, it is what leaves on the other side in the working slot. Else it is AIS.
#[tactic(auto, unfolding(crate::specs::Connections::leaves_protection, crate::specs::Connections::may_carry))]
pub fn protection_origin(
    state: &NodeState,
    map: &RingMap,
    table: &Table,
    at: Pos,
    side: Side,
    slot: Slot,
) -> Origin
    requires at { at.0 < length map.now }
    requires table { (table.now.ring ≡ map.now) × (table.now.at ≡ at) }
    requires slot { (1 ≤ slot.0) × (slot.0 ≤ 8) }
    requires far { IsElsewhere (length map.now) at.0 (far_of state.now) }
    ensures { result ≡ leaves_protection (length map.now) at (circuits_at (length map.now) table.now.circuits at.0 slot.0) state.now side }
{
    match (state, side) {
        (NodeState::PassThrough(_), _) => Origin::Protection(side.opposite()),
        (NodeState::SwitchWest(west), Side::East) => {
            if may_carry(west.chain(map, at), map, table, Side::West, slot) {
                working_origin(state, map, table, at, Side::West, slot)
            } else {
                Origin::Ais
            }
        }
        (NodeState::SwitchEast(east), Side::West) => {
            if may_carry(east.chain(map, at), map, table, Side::East, slot) {
                working_origin(state, map, table, at, Side::East, slot)
            } else {
                Origin::Ais
            }
        }
        _ => Origin::Ais,
    }
}
