//! Rounds of whole rings over fibres in memory, which `bench/ring` measures and `bench/strangers` checks. No other
//! crate uses this one.
#![tactic(auto)]

ghost use Rattle.std.specs.Prelude.{◌≡◌, ◌≤◌, ◌<◌, ◌+◌, ◌*◌, ◌/◌, ◌^◌, ◌⊎◌, ℕ, IfOk, OnOk, false, length};
ghost use Rattle.sdh_ringmap.specs.Rates.{n_of};
ghost use Rattle.sdh_plant.specs.Fibres.{HasNoFibres, IsPrepared};
ghost use Rattle.sdh_circuits.specs.Kept.{KeepsRing};

mod strangers;

use sdh_circuits::{Asked, CircuitMap, End, PortId};
use sdh_node::{Delivered, Settings};
use sdh_plant::{FibrePlant, Plant};
use sdh_ring::{PlantFault, Ring};
use sdh_ringmap::{Condition, FibreEvent, Pos, Rate, RingMap, Side};
use std::alloc::{AllocError, Global};

fn rate_of(n: usize) -> Rate
    requires { (n ≡ 4) ⊎ (n ≡ 16) }
    ensures { n_of result ≡ n }
{
    if n == 4 { Rate::Four } else { Rate::Sixteen }
}

// Returns the name of a circuit, which is four letters, or an empty one where there are too few letters.
fn name_at(names: &str, number: usize) -> &str
    requires { number < 128 }
{
    match names.get(4 * number..4 * number + 4) {
        Some(name) => name,
        None => "",
    }
}

// Returns `count` circuits. The first ones lead from each node eastwards to the next one, in slot 1. Those after them
// do so in slot 2, and so on.
fn circuits_of(
    alloc: Global,
    rate: Rate,
    map: &RingMap,
    nodes: usize,
    count: usize,
    names: &str,
) -> Result<CircuitMap, AllocError>
    requires nodes { 1 ≤ nodes }
    requires few { nodes ≤ 16 }
    requires count { count ≤ 128 }
    ensures slots { IfOk result (λ circuits. circuits.slots ≡ n_of rate / 2) }
    ensures kept { IfOk result (λ circuits. KeepsRing circuits map.now) }
{
    let mut circuits = CircuitMap::new(alloc, rate.half());
    'wishes: for number in 0..count {
        let name = name_at(names, number);
        let asked = Asked {
            name,
            from: (number % nodes) as i64,
            to: ((number + 1) % nodes) as i64,
            slot: (number / nodes + 1) as i64,
            offset_a: 0,
            offset_b: 0,
            text_a: "ABCDEFG",
            text_b: "abcdefg",
            trace_a: name,
            trace_b: name,
        };
        circuits.add(map, &asked).map_err(|_| AllocError)?;
    }
    Ok(circuits)
}

// Returns the ring of these nodes and circuits, with the plant prepared for it. A refusal is returned as `AllocError`,
// too.
pub(crate) fn made<P: Plant>(
    alloc: Global,
    plant: &mut P,
    settings: Settings,
    map: RingMap,
    circuits: CircuitMap,
) -> Result<Ring, AllocError>
    requires plant { HasNoFibres (P.fibres plant.old) }
    requires slots { circuits.slots ≡ n_of settings.rate / 2 }
    requires kept { KeepsRing circuits map }
    ensures prepared { IfOk result (λ ring. IsPrepared ring.settings.rate (length ring.ids) (P.fibres plant.new)) }
    ensures whole { IfOk result (λ ring. ring.broken ≡ false) }
    ensures new { IfOk result (λ ring. ring.rounds ≡ 0) }
    ensures moment { IfOk result (λ ring. ring.moment ≡ 0) }
{
    let nodes = map.len();
    plant
        .prepare(alloc, settings.rate, nodes)
        .map_err(|_| AllocError)?;
    Ok(Ring::try_new(alloc, settings, map, circuits)?)
}

// Returns the ring of these nodes with `count` circuits, with the plant prepared for it. A refusal is returned as
// `AllocError`, too.
fn laid<P: Plant>(
    alloc: Global,
    plant: &mut P,
    rate: Rate,
    ids: &[i64],
    count: usize,
    names: &str,
) -> Result<Ring, AllocError>
    requires plant { HasNoFibres (P.fibres plant.old) }
    requires count { count ≤ 128 }
    ensures prepared { IfOk result (λ ring. IsPrepared ring.settings.rate (length ring.ids) (P.fibres plant.new)) }
    ensures whole { IfOk result (λ ring. ring.broken ≡ false) }
    ensures new { IfOk result (λ ring. ring.rounds ≡ 0) }
{
    let map = RingMap::new(ids).map_err(|_| AllocError)?;
    let circuits = circuits_of(alloc, rate, &map, map.len(), count, names)?;
    let settings = Settings {
        rate,
        threshold: 3,
        wait: 10,
    };
    made(alloc, plant, settings, map, circuits)
}

// Cuts the fibre that leaves the node at a position on a side.
fn cut<P: Plant>(plant: &mut P, at: usize, side: Side)
    requires at { at < (P.fibres plant.old).nodes }
    requires few { at < 16 }
    ensures { (rate : _) (n : ℕ) → IsPrepared rate n (P.fibres plant.old) → IsPrepared rate n (P.fibres plant.new) }
{
    let event = FibreEvent {
        at: Pos(at as u8),
        side,
        condition: Condition::Cut,
    };
    let _ = plant.apply(event);
}

// Cuts `count` spans both ways, from the one at position 0 on, five nodes apart.
fn cut_spans<P: Plant>(ring: &Ring, plant: &mut P, count: usize)
    requires prepared { IsPrepared ring.now.settings.rate (length ring.now.ids) (P.fibres plant.old) }
    requires count { count ≤ 3 }
    ensures prepared { IsPrepared ring.now.settings.rate (length ring.now.ids) (P.fibres plant.new) }
{
    let nodes = ring.map().len();
    'cuts: for number in 0..count {
        let at = 5 * number % nodes;
        cut(plant, at, Side::East);
        cut(plant, (at + 1) % nodes, Side::West);
    }
}

// Runs `rounds` rounds.
pub(crate) fn run<P: Plant>(ring: &mut Ring, plant: &mut P, rounds: u32) -> Result<(), PlantFault>
    requires prepared { IsPrepared ring.old.settings.rate (length ring.old.ids) (P.fibres plant.old) }
    requires whole { ring.old.broken ≡ false }
    requires room { ring.old.rounds + rounds ≤ 2 ^ 32 }
    ensures prepared { OnOk result (IsPrepared ring.new.settings.rate (length ring.new.ids) (P.fibres plant.new)) }
    ensures whole { OnOk result (ring.new.broken ≡ false) }
    ensures moment { OnOk result (ring.new.moment ≡ ring.old.moment) }
{
    'turns: for _turn in 0..rounds {
        ring.round(plant)?;
    }
    Ok(())
}

// Runs settle steps of 128 rounds each, in which nobody looks at the ports. No step ends before its rounds have run: a
// quiet window ends with a round whose number is a multiple of 128, and that is the first one of each step. Returns
// whether all went well.
fn settle_often<P: Plant>(ring: &mut Ring, plant: &mut P, steps: u32) -> bool
    requires prepared { IsPrepared ring.old.settings.rate (length ring.old.ids) (P.fibres plant.old) }
    requires whole { ring.old.broken ≡ false }
    requires room { ring.old.rounds ≤ 2 ^ 31 }
{
    'steps: for _step in 0..steps {
        let _ = ring.settle(plant, 128);
        if ring.is_broken() || ring.rounds() > 2_147_483_648 {
            return false;
        }
    }
    true
}

fn is_chunk(ring: &Ring, port: PortId) -> bool
    requires { port.circuit < length ring.now.circuits.circuits }
{
    match ring.port(port) {
        Delivered::Ais => false,
        Delivered::Chunk(_) => true,
    }
}

// Returns the number of ports that delivered a chunk in the last round.
fn chunks_in(ring: &Ring) -> u32
    ensures { result ≤ 256 }
{
    let mut chunks = 0u32;
    for circuit in 0..ring.circuits().len() {
        let circuit = circuit as u8;
        for end in [End::A, End::B] {
            if is_chunk(ring, PortId { circuit, end }) {
                chunks = chunks.saturating_add(1);
            }
        }
    }
    chunks.min(256)
}

/// Makes a ring of these nodes at the rate n, 4 or 16, with `circuits` circuits and `cuts` cut spans, and runs `steps`
/// settle steps of 128 rounds. Each circuit takes four letters of `names` as its name. Returns the number of ports that
/// delivered a chunk in the last round, or 1,000 where there is no such ring, memory runs out, or a call of the plant
/// fails.
#[unsafe(no_mangle)]
pub extern "C" fn sdh_bench_ring(
    alloc: Global,
    n: usize,
    ids: &[i64],
    circuits: usize,
    names: &[u8],
    cuts: usize,
    steps: u32,
) -> u32
    requires rate { (n ≡ 4) ⊎ (n ≡ 16) }
    requires circuits { circuits ≤ 128 }
    requires cuts { cuts ≤ 3 }
{
    let Ok(names) = std::str::from_utf8(names) else {
        return 1000;
    };
    let mut plant = FibrePlant::new();
    let Ok(mut ring) = laid(alloc, &mut plant, rate_of(n), ids, circuits, names) else {
        return 1000;
    };
    cut_spans(&ring, &mut plant, cuts);
    if settle_often(&mut ring, &mut plant, steps) {
        chunks_in(&ring)
    } else {
        1000
    }
}
