//! A ring of four nodes over fibres in memory, and what happens to it. A refusal counts as a lack of memory here.
ghost use Rattle.std.specs.Prelude.{◌≡◌, ◌≤◌, ◌+◌, ◌^◌, IfOk, OnOk, false, length};
ghost use Rattle.sdh_plant.specs.Fibres.{HasNoFibres, IsPrepared};
ghost use Rattle.sdh_circuits.specs.Kept.{KeepsRing};

use sdh_circuits::{Asked, CircuitMap, PortId};
use sdh_node::{Settings, Turn};
use sdh_plant::Plant;
use sdh_request::Command;
use sdh_ring::{PlantFault, Ring};
use sdh_ringmap::{Condition, FibreEvent, Pos, Rate, RingMap, Side};
use std::alloc::{AllocError, Global};

// No waiting to restore.
const SETTINGS: Settings = Settings {
    rate: Rate::Four,
    threshold: 3,
    wait: 0,
};

// Circuits one after the other in slot 1: x from node 0 to node 1, y from node 1 to node 2. Each port's text is one
// letter.
const X: Asked<'static> = Asked {
    name: "x",
    from: 0,
    to: 1,
    slot: 1,
    offset_a: 0,
    offset_b: 0,
    text_a: "A",
    text_b: "B",
    trace_a: "x",
    trace_b: "x",
};

const Y: Asked<'static> = Asked {
    name: "y",
    from: 1,
    to: 2,
    slot: 1,
    offset_a: 0,
    offset_b: 0,
    text_a: "C",
    text_b: "D",
    trace_a: "y",
    trace_b: "y",
};

// Returns the circuits that are asked for.
fn circuits_of(alloc: Global, map: &RingMap, asked: &[Asked<'_>]) -> Result<CircuitMap, AllocError>
    ensures slots { IfOk result (λ circuits. circuits.slots ≡ 2) }
    ensures kept { IfOk result (λ circuits. KeepsRing circuits map.now) }
{
    let mut circuits = CircuitMap::new(alloc, 2);
    'wishes: for wish in asked {
        circuits.add(map, wish).map_err(|_| AllocError)?;
    }
    Ok(circuits)
}

/// Returns a ring of four nodes with both circuits, and the plant prepared for it.
pub(crate) fn laid<P: Plant>(alloc: Global, plant: &mut P) -> Result<Ring, AllocError>
    requires { HasNoFibres (P.fibres plant.old) }
    ensures prepared { IfOk result (λ ring. IsPrepared ring.settings.rate (length ring.ids) (P.fibres plant.new)) }
    ensures whole { IfOk result (λ ring. ring.broken ≡ false) }
{
    let map = RingMap::new(&[0, 1, 2, 3]).map_err(|_| AllocError)?;
    let circuits = circuits_of(alloc, &map, &[X, Y])?;
    let nodes = map.len();
    plant
        .prepare(alloc, Rate::Four, nodes)
        .map_err(|_| AllocError)?;
    Ok(Ring::try_new(alloc, SETTINGS, map, circuits)?)
}

// Brings the fibre that leaves a position on a side into a condition.
fn apply<P: Plant>(ring: &Ring, plant: &mut P, at: u8, side: Side, condition: Condition) -> bool
    requires prepared { IsPrepared ring.now.settings.rate (length ring.now.ids) (P.fibres plant.old) }
    ensures prepared { IsPrepared ring.now.settings.rate (length ring.now.ids) (P.fibres plant.new) }
{
    if at as usize >= ring.map().len() {
        return false;
    }
    match condition {
        Condition::Degraded(k) if k == 0 || k > 12 => false,
        _ => plant
            .apply(FibreEvent {
                at: Pos(at),
                side,
                condition,
            })
            .is_ok(),
    }
}

/// Brings both fibres of the span east of a position into a condition.
pub(crate) fn span_is<P: Plant>(ring: &Ring, plant: &mut P, at: u8, condition: Condition) -> bool
    requires prepared { IsPrepared ring.now.settings.rate (length ring.now.ids) (P.fibres plant.old) }
    ensures prepared { IsPrepared ring.now.settings.rate (length ring.now.ids) (P.fibres plant.new) }
{
    let next = if at as usize + 1 < ring.map().len() {
        at + 1
    } else {
        0
    };
    let east = apply(ring, plant, at, Side::East, condition);
    let west = apply(ring, plant, next, Side::West, condition);
    east && west
}

/// Gives one side of a node a command.
pub(crate) fn order(ring: &mut Ring, at: u8, side: Side, command: Command) -> bool
    ensures settings { ring.new.settings ≡ ring.old.settings }
    ensures ids { ring.new.ids ≡ ring.old.ids }
    ensures whole { ring.new.broken ≡ ring.old.broken }
{
    if at as usize >= ring.map().len() {
        return false;
    }
    ring.command(Pos(at), side, command);
    true
}

/// Holds a node's controller for some turns.
pub(crate) fn hold(ring: &mut Ring, at: u8, turns: u32) -> bool
    ensures settings { ring.new.settings ≡ ring.old.settings }
    ensures ids { ring.new.ids ≡ ring.old.ids }
    ensures whole { ring.new.broken ≡ ring.old.broken }
{
    if at as usize >= ring.map().len() || turns == 0 || turns > 100 {
        return false;
    }
    ring.hold(Pos(at), turns);
    true
}

/// Adds `count` pending slips at a port, where it may have as many.
pub(crate) fn slip(ring: &mut Ring, port: PortId, turn: Turn, count: u8) -> bool
    ensures settings { ring.new.settings ≡ ring.old.settings }
    ensures ids { ring.new.ids ≡ ring.old.ids }
    ensures whole { ring.new.broken ≡ ring.old.broken }
{
    if ring.circuits().len() <= port.circuit as usize
        || count > 16
        || ring.waiting(port) > 16 - count
    {
        return false;
    }
    ring.slip(port, turn, count);
    true
}

/// Runs `rounds` rounds.
pub(crate) fn run<P: Plant>(ring: &mut Ring, plant: &mut P, rounds: u32) -> Result<(), PlantFault>
    requires prepared { IsPrepared ring.old.settings.rate (length ring.old.ids) (P.fibres plant.old) }
    requires whole { ring.old.broken ≡ false }
    requires room { ring.old.rounds + rounds ≤ 2 ^ 32 }
    ensures prepared { OnOk result (IsPrepared ring.new.settings.rate (length ring.new.ids) (P.fibres plant.new)) }
    ensures whole { OnOk result (ring.new.broken ≡ false) }
{
    'turns: for _turn in 0..rounds {
        ring.round(plant)?;
    }
    Ok(())
}

/// Runs a settle step; one that doesn't answer counts as a refusal.
pub(crate) fn settle<P: Plant>(ring: &mut Ring, plant: &mut P) -> Result<(), AllocError>
    requires prepared { IsPrepared ring.old.settings.rate (length ring.old.ids) (P.fibres plant.old) }
    requires whole { ring.old.broken ≡ false }
    ensures prepared { OnOk result (IsPrepared ring.new.settings.rate (length ring.new.ids) (P.fibres plant.new)) }
    ensures whole { OnOk result (ring.new.broken ≡ false) }
{
    if ring.rounds() > 100_000 {
        return Err(AllocError);
    }
    match ring.settle(plant, 1000) {
        Ok(()) => Ok(()),
        Err(_) => Err(AllocError),
    }
}
