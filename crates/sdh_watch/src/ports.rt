//! The watches on all ports.
ghost use Rattle.std.specs.Prelude.{◌≡◌, ℕ, ◌+◌, ◌*◌, ◌<◌, ◌≤◌, ◌^◌, true, false, Some, List, [], ◌∷◌, ◌++◌, length, slice_get, IfOk, OnOk};
ghost use Rattle.std.specs.Prelude.{OnErr, IsErr};
ghost use Rattle.std.specs.List.{flat_map};
ghost use Rattle.sdh_basics.specs.Causes.{Rose, IsCounted};
ghost use Rattle.sdh_circuits.specs.declared.PortId.{PortId};
ghost use Rattle.sdh_circuits.specs.declared.End.TheVariants.{A, B};
ghost use Rattle.sdh_circuits.specs.Provisioned.{customer_at};
ghost use Rattle.sdh_plant.specs.Fibres.{IsPrepared};
ghost use Rattle.sdh_circuits.specs.Ends.{other_end};
ghost use Rattle.sdh_node.specs.Rings.Rounds.{world};
ghost use Rattle.sdh_path.specs.History.{Given};
ghost use Rattle.sdh_path.specs.Kept.{CameBy};
ghost use Rattle.sdh_watch.specs.Watching.{given_of, port_watched, ports_watched, BreaksAmong};
ghost use Rattle.sdh_watch.specs.Lines.{told_line};
ghost use Rattle.sdh_watch.specs.Ports.{IsWatching, AreWatching, AreFew, Looked, Shown};
ghost use Rattle.sdh_watch.specs.declared.ports.WatchPair.{WatchPair};

use crate::lines::watch_line;
use sdh_circuits::{Circuit, CircuitMap, End, PortId};
use sdh_path::Watch;
use sdh_payload::Delivered;
use sdh_plant::Plant;
use sdh_report::Text;
use sdh_ring::{PlantFault, Ring};
use std::alloc::{AllocError, Global};

/// The number of rounds that are watched after each settle step.
const ROUNDS: u32 = 128;

/// The watches on both ports of a circuit.
#[derive(Debug, Drop)]
pub struct WatchPair {
    pub a: Watch,
    pub b: Watch,
}

// Returns a watch that expects the trace of the port at an end of a circuit.
fn watch_for(circuit: &Circuit, other: End) -> Watch
    ensures history { CameBy (customer_at circuit.now other).trace [] result }
    ensures none { result.chunks ≡ 0 }
{
    let Ok(watch) = Watch::new(circuit.port(other).trace()) else {
        unreachable!()
    };
    watch
}

// Returns new watches on both ports of a circuit.
fn pair_for(circuit: &Circuit) -> WatchPair
    ensures new { (index : ℕ) → IsWatching circuit.now index (λ port. []) result }
    ensures few { (result.a.chunks ≡ 0) × (result.b.chunks ≡ 0) }
{
    WatchPair {
        a: watch_for(circuit, End::B),
        b: watch_for(circuit, End::A),
    }
}

/// Returns watches for all ports. All memory is taken here.
pub fn new_watches(alloc: Global, circuits: &CircuitMap) -> Result<Vec<WatchPair>, AllocError>
    ensures { IfOk result (λ watches. length watches.items ≡ length circuits.now.circuits) }
{
    let count = circuits.len();
    let mut watches = Vec::with_capacity(alloc, count)?;
    for i in 0..count {
        watches.push(pair_for(circuits.get(i as u8)))?;
    }
    Ok(watches)
}

// Lets each watch begin anew.
fn begin_anew(circuits: &CircuitMap, watches: &mut Vec<WatchPair>)
    requires { length watches.old.items ≡ length circuits.now.circuits }
    ensures new { AreWatching circuits.now.circuits (λ port. []) watches.new.items }
    ensures few { AreFew 0 watches.new.items }
{
    for i in 0..circuits.len() {
        watches[i] = pair_for(circuits.get(i as u8));
    }
}

// Gives a port's watch what the port delivered in the last round.
fn look(watch: &mut Watch, ring: &Ring, port: PortId)
    requires port { port.circuit < length ring.now.circuits.circuits }
    requires few { watch.old.chunks < 1000000 }
    ensures history { (trace : List ℕ) (past : List Given) → CameBy trace past watch.old
        → CameBy trace (given_of ring.now port ∷ past) watch.new }
    ensures few { watch.new.chunks ≤ watch.old.chunks + 1 }
{
    match ring.port(port) {
        Delivered::Chunk(cells) => {
            let bytes = cells.as_slice();
            if bytes.len() == 2349 {
                watch.chunk(bytes, ring.value(port));
            } else {
                watch.ais();
            }
        }
        Delivered::Ais => watch.ais(),
    }
}

// Gives the watches of a circuit what both ports delivered in the last round.
fn look_both(both: &mut WatchPair, ring: &Ring, circuit: u8)
    requires port { circuit < length ring.now.circuits.circuits }
    requires few { (both.old.a.chunks < 1000000) × (both.old.b.chunks < 1000000) }
    ensures { Looked ring.now circuit both.old both.new }
{
    look(
        &mut both.a,
        ring,
        PortId {
            circuit,
            end: End::A,
        },
    );
    look(
        &mut both.b,
        ring,
        PortId {
            circuit,
            end: End::B,
        },
    );
}

// Gives all watches what their ports delivered in the last round.
fn look_all(ring: &Ring, watches: &mut Vec<WatchPair>)
    requires many { length watches.old.items ≡ length ring.now.circuits.circuits }
    requires few { AreFew 999999 watches.old.items }
    ensures many { length watches.new.items ≡ length watches.old.items }
    ensures each { (i : ℕ) (before after : WatchPair) → slice_get watches.old.items i ≡ Some before → slice_get watches.new.items i ≡ Some after
        → Looked ring.now i before after }
{
    for i in 0..ring.circuits().len() {
        look_both(&mut watches[i], ring, i as u8);
    }
}

/// Lets the watches begin anew, and runs 128 rounds, after each of which they are given what the ports delivered. Takes
/// no memory.
pub fn watch_rounds<P: Plant>(
    ring: &mut Ring,
    plant: &mut P,
    watches: &mut Vec<WatchPair>,
) -> Result<(), PlantFault>
    requires prepared { IsPrepared ring.old.settings.rate (length ring.old.ids) (P.fibres plant.old) }
    requires whole { ring.old.broken ≡ false }
    requires room { ring.old.rounds + 128 ≤ 2 ^ 32 }
    requires many { length watches.old.items ≡ length ring.old.circuits.circuits }
    ensures ok { OnOk result (Shown 128 (world ring.old (P.fibres plant.old)) (world ring.new (P.fibres plant.new)) watches.new.items) }
    ensures prepared { OnOk result (IsPrepared ring.old.settings.rate (length ring.old.ids) (P.fibres plant.new)) }
    ensures err { OnErr result (BreaksAmong 128 (world ring.old (P.fibres plant.old)) (P.fibres plant.new)) }
    ensures broken { OnErr result (ring.new.broken ≡ true) }
    ensures later { P.faults plant.old ≤ P.faults plant.new }
    ensures failed { OnErr result (Rose (P.faults plant.old) (P.faults plant.new)) }
    ensures counted { IsCounted P.exact (IsErr result) (P.faults plant.old) (P.faults plant.new) }
{
    begin_anew(ring.circuits(), watches);
    'rounds: for _turn in 0..ROUNDS {
        ring.round(plant)?;
        look_all(ring, watches);
    }
    Ok(())
}

// Appends the line of the watch on a port.
fn put_watch(text: &mut Text, ring: &Ring, circuit: u8, named: &Circuit, end: End, watch: &Watch)
    requires inside { circuit < length ring.now.circuits.circuits }
    requires room { 96 ≤ text.old.room }
    ensures bytes { (heard : PortId → List Given)
        → CameBy (customer_at named.now (other_end end)).trace (heard (record { circuit = circuit; end = end })) watch.now
        → text.new.bytes ≡ text.old.bytes ++ told_line (port_watched ring.now heard circuit named.now end) }
    ensures room { text.old.room ≤ text.new.room + 96 }
{
    let port = PortId { circuit, end };
    let report = watch.report();
    watch_line(text, named.name(), end, ring.port(port), &report);
}

// Appends the lines of the watches on both ports of a circuit.
fn put_both(text: &mut Text, ring: &Ring, circuit: u8, named: &Circuit, both: &WatchPair)
    requires inside { circuit < length ring.now.circuits.circuits }
    requires room { 192 ≤ text.old.room }
    ensures bytes { (heard : PortId → List Given) → IsWatching named.now circuit heard both.now → text.new.bytes ≡ text.old.bytes
        ++ (told_line (port_watched ring.now heard circuit named.now A) ++ told_line (port_watched ring.now heard circuit named.now B)) }
    ensures room { text.old.room ≤ text.new.room + 192 }
{
    put_watch(text, ring, circuit, named, End::A, &both.a);
    put_watch(text, ring, circuit, named, End::B, &both.b);
}

/// Appends the lines of all watches.
pub fn put_watches(text: &mut Text, ring: &Ring, watches: &Vec<WatchPair>)
    requires many { length watches.now.items ≡ length ring.now.circuits.circuits }
    requires room { 192 * length ring.now.circuits.circuits ≤ text.old.room }
    ensures bytes { (heard : PortId → List Given) → AreWatching ring.now.circuits.circuits heard watches.now.items
        → text.new.bytes ≡ text.old.bytes ++ flat_map told_line (ports_watched ring.now heard 0 ring.now.circuits.circuits) }
    ensures room { text.old.room ≤ text.new.room + 192 * length ring.now.circuits.circuits }
{
    let circuits = ring.circuits();
    for i in 0..circuits.len() {
        put_both(text, ring, i as u8, circuits.get(i as u8), &watches[i]);
    }
}
