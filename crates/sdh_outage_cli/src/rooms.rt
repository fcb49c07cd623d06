//! Room for what the ports of one node delivered. It serves all nodes of a ring, one after the other.
ghost use Rattle.std.specs.Prelude.{◌≡◌, ℕ, ◌+◌, ◌<◌, ◌≤◌, IfOk, length, map, slice_index};
ghost use Rattle.sdh_basics.specs.Cells.{cells};
ghost use Rattle.sdh_ringmap.specs.Places.{position_of};
ghost use Rattle.sdh_terminal.specs.Tributaries.{outlets_of, tributaries_of};
ghost use Rattle.sdh_node.specs.Rings.Held.{node_at};
ghost use Rattle.sdh_outage_cli.specs.Rooms.{ports_at};
ghost use Rattle.sdh_outage_cli.specs.Ports.{ports_by_node};

use sdh_circuits::{Circuit, CircuitMap};
use sdh_ring::Running;
use sdh_ringmap::Pos;
use sdh_terminal::{Outlets, TakenPair};
use std::alloc::{AllocError, Global};
use std::marker::Model;

/// Room for what the ports of a node delivered. Nodes with as many ports share their bytes, which then stay in the
/// processor's cache. All memory is taken when this is made.
#[derive(Drop)]
pub struct DeliveryRooms {
    pair: TakenPair,
    // The number of ports at each node.
    counts: Vec<usize>,
    // Room for no port, for one port and so on.
    rooms: Vec<Outlets>,
    // The number of ports of the node whose ports' deliveries were taken last.
    last: usize,
}

impl Model for DeliveryRooms {
    ghost use Rattle.std.specs.Prelude.{◌≡◌, ℕ, ◌<◌, [], length, map, slice_index, slice_index_or};
    ghost use Rattle.sdh_basics.specs.Cells.{cells};
    ghost use Rattle.sdh_outage_cli.specs.Rooms.{Rooms};

    ghost Value = { Rooms };

    ghost view = { λ r. record { counts = r.counts.items; taken = slice_index_or r.rooms.items r.last [] } };

    ghost invariant = { λ r. record {
      sized : map length r.rooms.items ≡ cells (λ k. k) (length r.rooms.items);
      fit : (i : ℕ) → i < length r.counts.items → slice_index r.counts.items i < length r.rooms.items;
      last : r.last < length r.rooms.items;
    } };
}

// Returns how many ports of a circuit are at a position.
fn ports_of(circuit: &Circuit, at: u8) -> usize
    ensures count { (i : ℕ) → result ≡ length (tributaries_of (position_of at) i circuit.now) }
    ensures few { result ≤ 2 }
{
    let from = if circuit.from().0 == at { 1 } else { 0 };
    let to = if circuit.to().0 == at { 1 } else { 0 };
    from + to
}

// Returns how many ports are at a position.
fn ports_at(circuits: &CircuitMap, at: u8) -> usize
    ensures count { result ≡ ports_at circuits.now.circuits at }
    ensures few { result ≤ 256 }
{
    let mut count = 0;
    for i in 0..circuits.len() {
        count += ports_of(circuits.get(i as u8), at);
    }
    count
}

// Returns how many ports are at each of the first positions.
fn new_counts(alloc: Global, circuits: &CircuitMap, nodes: usize) -> Result<Vec<usize>, AllocError>
    requires { nodes ≤ 16 }
    ensures counts { IfOk result (λ v. v.items ≡ cells (ports_at circuits.now.circuits) nodes) }
    ensures few { IfOk result (λ v. (i : ℕ) → slice_index v.items i ≤ 256) }
{
    let mut counts = Vec::with_capacity(alloc, nodes)?;
    for i in 0..nodes {
        counts.push(ports_at(circuits, i as u8))?;
    }
    Ok(counts)
}

// Returns the largest of some numbers, and 0 where there are none.
fn largest(counts: &[usize]) -> usize
    ensures all { (i : ℕ) → i < length counts.now → slice_index counts.now i ≤ result }
    ensures few { (most : ℕ) → ((i : ℕ) → slice_index counts.now i ≤ most) → result ≤ most }
{
    let mut most = 0;
    for i in 0..counts.len() {
        if counts[i] > most {
            most = counts[i];
        }
    }
    most
}

// Returns room for no port, for one port and so on, for fewer than `end`.
fn rooms_below(alloc: Global, end: usize) -> Result<Vec<Outlets>, AllocError>
    ensures { IfOk result (λ v. map length v.items ≡ cells (λ k. k) end) }
{
    let mut rooms = Vec::with_capacity(alloc, end)?;
    for count in 0..end {
        rooms.push(Outlets::try_new(alloc, count)?)?;
    }
    Ok(rooms)
}

impl DeliveryRooms {
    /// Returns room for what the ports of a node delivered, in a ring of `nodes` nodes with these circuits.
    pub fn try_new(
        alloc: Global,
        circuits: &CircuitMap,
        nodes: usize,
    ) -> Result<DeliveryRooms, AllocError>
        requires { nodes ≤ 16 }
        ensures { IfOk result (λ rooms. rooms.counts ≡ cells (ports_at circuits.now.circuits) nodes) }
    {
        let counts = new_counts(alloc, circuits, nodes)?;
        let most = largest(&counts);
        let rooms = rooms_below(alloc, most + 1)?;
        Ok(DeliveryRooms {
            pair: TakenPair::try_new(alloc)?,
            counts,
            rooms,
            last: 0,
        })
    }

    /// Takes what the ports of the node at a position delivered in the last round out of the frames in which it waits.
    pub fn take(&mut self, ring: &Running, at: Pos)
        requires at { at.0 < length ring.now.ids }
        requires rooms { self.old.counts ≡ ports_by_node ring.now }
        ensures { self.new ≡ record self.old { taken = outlets_of (node_at ring.now.nodes at.0).ports } }
    {
        let node = ring.node(at);
        let count = self.counts[at.0 as usize];
        let room = &mut self.rooms[count];
        node.deliver(&mut self.pair, room);
        self.last = count;
    }

    /// Returns what was taken last.
    pub fn taken(&self) -> &Outlets
        ensures { result.now ≡ self.now.taken }
    {
        &self.rooms[self.last]
    }
}
