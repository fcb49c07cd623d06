//! A ring of nodes of any kind.
ghost use Rattle.std.specs.Prelude.{◌≡◌, ◌↔◌, ◌+◌, ◌-◌, ◌*◌, ◌/◌, ◌%◌, ◌^◌, ◌<◌, ◌≤◌, [], false, Some, IfOk, IsTrue, All, length, map, slice_get};
ghost use Rattle.std.specs.Prelude.{vec_capacity};
ghost use Rattle.sdh_ringmap.specs.Rates.{n_of};
ghost use Rattle.sdh_circuits.specs.Kept.{KeepsRing};
ghost use Rattle.sdh_circuits.specs.Provisioned.{end_of};
ghost use Rattle.sdh_plant.specs.Fibres.{IsPrepared};
ghost use Rattle.sdh_rounds.specs.Held.{world, new_nodes, new_ring, with_each, HasItsNodes, IsPlaceOf, IsNodeOf};
ghost use Rattle.sdh_rounds.specs.Quiet.{is_calm};
ghost use Rattle.sdh_rounds.specs.Outcome.{IsOneRound};

use crate::faults::PlantFault;
use crate::receiving::{Inbox, hear};
use crate::sending::send_all;
use crate::station::{IntoForm, Station, all_calm};
use sdh_circuits::{Circuit, CircuitMap, End, PortId};
use sdh_frame::FrameBuf;
use sdh_plant::Plant;
use sdh_request::{Moment, Settings};
use sdh_ringmap::{Pos, RingMap};
use std::alloc::{AllocError, Global};
use std::marker::Model;

/// The nodes of a ring, of any kind, and what a round of them needs. The nodes may be changed between rounds.
#[derive(Debug, Drop)]
pub struct StationRing<N: Station> {
    settings: Settings,
    map: RingMap,
    circuits: CircuitMap,
    /// The nodes, by position.
    pub nodes: Vec<N>,
    // Room for the frame that a node receives, and for the frames that it sends on its two sides.
    arrived: Inbox,
    west: FrameBuf,
    east: FrameBuf,
    present: Moment,
    rounds: u64,
    broken: bool,
}

impl<N: Station> Model for StationRing<N> {
    ghost use Rattle.std.specs.Prelude.{◌≡◌};
    ghost use Rattle.sdh_rounds.specs.Held.{HeldRing, HasItsNodes};

    ghost Value = { HeldRing N };

    ghost view = { λ a. record { settings = a.settings; ids = a.map; circuits = a.circuits; nodes = a.nodes.items; moment = a.present.0; rounds = a.rounds; broken = a.broken } };

    ghost invariant = { λ a. record {
      arrived : a.arrived.rate ≡ a.settings.rate;
      west : a.west.rate ≡ a.settings.rate;
      east : a.east.rate ≡ a.settings.rate;
      ring : HasItsNodes (record { settings = a.settings; ids = a.map; circuits = a.circuits; nodes = a.nodes.items; moment = a.present.0; rounds = a.rounds; broken = a.broken });
    } };
}

// Returns a new node for each position, or an error where memory runs out.
fn new_nodes<N: Station>(
    alloc: Global,
    settings: Settings,
    map: &RingMap,
    circuits: &CircuitMap,
) -> Result<Vec<N>, AllocError>
    requires slots { circuits.now.slots ≡ n_of settings.rate / 2 }
    requires kept { KeepsRing circuits.now map.now }
    ensures { IfOk result (λ v. v.items ≡ new_nodes N.kind settings map.now circuits.now.circuits (length map.now)) }
{
    let count = map.len();
    let mut nodes = Vec::with_capacity(alloc, count)?;
    for i in 0..count {
        nodes.push(N::try_new(alloc, settings, map, circuits, Pos(i as u8))?)?;
    }
    Ok(nodes)
}

// Moves the nodes from `nodes` to `formed`, each in its other form.
fn form_all<N: IntoForm<M> + Drop, M: Drop>(nodes: &mut Vec<N>, formed: &mut Vec<M>)
    requires empty { formed.old.items ≡ [] }
    requires room { length nodes.old.items ≤ vec_capacity formed.old }
    ensures nodes { formed.new.items ≡ map N.form nodes.old.items }
    ensures empty { nodes.new.items ≡ [] }
    ensures room { length nodes.old.items ≤ vec_capacity nodes.new }
{
    for node in nodes.drain(..) {
        formed.push_reserved(node.into_form());
    }
}

// Returns the position of a circuit's port.
fn end_of(circuit: &Circuit, end: End) -> Pos
    ensures { result ≡ end_of circuit.now end }
{
    match end {
        End::A => circuit.from(),
        End::B => circuit.to(),
    }
}

impl<N: Station> StationRing<N> {
    /// Returns a ring of new nodes, in which no round has run, at moment 0, or an error where memory runs out. No other
    /// call takes memory.
    pub fn try_new(
        alloc: Global,
        settings: Settings,
        map: RingMap,
        circuits: CircuitMap,
    ) -> Result<StationRing<N>, AllocError>
        requires slots { circuits.slots ≡ n_of settings.rate / 2 }
        requires kept { KeepsRing circuits map }
        ensures { IfOk result (λ ring. ring ≡ new_ring N.kind settings map circuits) }
    {
        let nodes = new_nodes(alloc, settings, &map, &circuits)?;
        let arrived = Inbox::try_new(alloc, settings.rate)?;
        let west = FrameBuf::try_new(alloc, settings.rate)?;
        let east = FrameBuf::try_new(alloc, settings.rate)?;
        Ok(StationRing::of_nodes(settings, map, circuits, nodes, arrived, west, east))
    }

    // Returns the ring of these new nodes, with room for the frames that they are to receive and send.
    fn of_nodes(
        settings: Settings,
        map: RingMap,
        circuits: CircuitMap,
        nodes: Vec<N>,
        arrived: Inbox,
        west: FrameBuf,
        east: FrameBuf,
    ) -> StationRing<N>
        requires slots { circuits.slots ≡ n_of settings.rate / 2 }
        requires kept { KeepsRing circuits map }
        requires nodes { nodes.items ≡ new_nodes N.kind settings map circuits.circuits (length map) }
        requires arrived { arrived.rate ≡ settings.rate }
        requires west { west.rate ≡ settings.rate }
        requires east { east.rate ≡ settings.rate }
        ensures { result ≡ new_ring N.kind settings map circuits }
    {
        prove!(map.len() <= 16);
        prove!(circuits.len() <= 128);
        StationRing {
            settings,
            map,
            circuits,
            nodes,
            arrived,
            west,
            east,
            present: Moment(0),
            rounds: 0,
            broken: false,
        }
    }

    /// Returns the ring with each node in its other form, and the memory in which the nodes lay. In their other form
    /// they lie in `spare`. The function takes no memory.
    pub fn into_form<M: Station>(self, mut spare: Vec<M>) -> (StationRing<M>, Vec<N>)
    where
        N: IntoForm<M>,
        requires empty { spare.items ≡ [] }
        requires room { length self.ids ≤ vec_capacity spare }
        ensures ring { result.0 ≡ with_each N.form self }
        ensures empty { result.1.items ≡ [] }
        ensures room { length self.ids ≤ vec_capacity result.1 }
    {
        let mut nodes = self.nodes;
        form_all(&mut nodes, &mut spare);
        let ring = StationRing {
            settings: self.settings,
            map: self.map,
            circuits: self.circuits,
            nodes: spare,
            arrived: self.arrived,
            west: self.west,
            east: self.east,
            present: self.present,
            rounds: self.rounds,
            broken: self.broken,
        };
        (ring, nodes)
    }

    /// Sets the present moment, at which the next rounds run.
    pub fn moment(&mut self, now: Moment)
        ensures { self.new ≡ record self.old { moment = now.0 } }
    {
        self.present = now;
    }

    /// Runs a round: all nodes receive, except in round 0, and then all send. A round takes no memory. After a fault of
    /// the plant the ring is broken.
    pub fn round<P: Plant>(&mut self, plant: &mut P) -> Result<(), PlantFault>
        requires prepared { IsPrepared self.old.settings.rate (length self.old.ids) (P.fibres plant.old) }
        requires whole { self.old.broken ≡ false }
        requires rates { All (λ n. N.rate n ≡ self.old.settings.rate) self.old.nodes }
        requires may { All (N.MayRun self.old.moment) self.old.nodes }
        requires room { self.old.rounds < 2 ^ 32 }
        ensures { IsOneRound N.kind P.exact (world self.old (P.fibres plant.old)) result (world self.new (P.fibres plant.new))
            (P.faults plant.old) (P.faults plant.new) }
    {
        self.broken = true;
        hear(self.rounds, &mut self.nodes, &mut self.arrived, plant)?;
        send_all(
            &mut self.nodes,
            self.present,
            &mut self.west,
            &mut self.east,
            plant,
        )?;
        self.broken = false;
        self.rounds += 1;
        Ok(())
    }

    /// Returns whether the last round was calm at each node.
    pub fn is_calm(&self) -> bool
        ensures { result ≡ is_calm N.kind self.now.nodes }
    {
        all_calm(self.nodes.as_slice())
    }

    /// Returns whether a quiet window ends with the last round, which ends `calm` calm rounds in a row.
    pub fn is_over(&self, calm: u32) -> bool
        requires { 0 < self.now.rounds }
        ensures { IsTrue result ↔ ((3 * length self.now.ids ≤ calm) × ((self.now.rounds - 1) % 128 ≡ 0)) }
    {
        calm as usize >= 3 * self.map.len() && (self.rounds - 1) % 128 == 0
    }
}

// What can be read of the ring, and its nodes by position.
impl<N: Station> StationRing<N> {
    /// Returns the position of the node where a port of a circuit is.
    pub fn place_of(&self, port: PortId) -> usize
        requires { port.circuit < length self.now.circuits.circuits }
        ensures { IsPlaceOf self.now port result }
    {
        let at = end_of(self.circuits.get(port.circuit), port.end);
        at.0 as usize
    }

    /// Returns the node where a port of a circuit is.
    pub fn node_of(&self, port: PortId) -> &N
        requires { port.circuit < length self.now.circuits.circuits }
        ensures { IsNodeOf self.now port result.now }
    {
        let at = self.place_of(port);
        &self.nodes[at]
    }

    /// Returns the node at a position.
    pub fn node(&self, at: Pos) -> &N
        requires { at.0 < length self.now.ids }
        ensures { slice_get self.now.nodes at.0 ≡ Some result.now }
    {
        &self.nodes[at.0 as usize]
    }

    /// Returns the number of rounds that have run. Rounds are numbered from 0: the last one has this number less one.
    pub fn rounds(&self) -> u64
        ensures { result ≡ self.now.rounds }
    {
        self.rounds
    }

    /// Returns the ring's map, which has the identifiers of the nodes by position.
    pub fn map(&self) -> &RingMap
        ensures { result.now ≡ self.now.ids }
    {
        &self.map
    }

    /// Returns the circuits of the ring.
    pub fn circuits(&self) -> &CircuitMap
        ensures { result.now ≡ self.now.circuits }
    {
        &self.circuits
    }

    /// Returns whether a fault of the plant broke a round off.
    pub fn is_broken(&self) -> bool
        ensures { result ≡ self.now.broken }
    {
        self.broken
    }
}
