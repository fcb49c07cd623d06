//! The nodes of a ring, which run in rounds.
ghost use Rattle.std.specs.Prelude.{◌≡◌, ◌+◌, ◌/◌, ◌<◌, ◌≤◌, [], false, Some, IfOk, length, slice_get, vec_capacity};
ghost use Rattle.sdh_ringmap.specs.Rates.{n_of};
ghost use Rattle.sdh_circuits.specs.Kept.{KeepsRing};
ghost use Rattle.sdh_circuits.specs.declared.PortId.{PortId};
ghost use Rattle.sdh_node.specs.Receiving.{commanded_by};
ghost use Rattle.sdh_terminal.specs.Tributaries.{HasPort, outlet_of, waiting_of};
ghost use Rattle.sdh_node.specs.Node.{at_receiving, held_for, slips_at};
ghost use Rattle.sdh_node.specs.Rings.Held.{new_ring, at_place, node_at, place_of_port, outlet_at};
ghost use Rattle.sdh_node.specs.Rings.Clocks.{HasPortIn, clock_at, waiting_at};
ghost use Rattle.sdh_node.specs.Rings.Fixed.{IsRested};
ghost use Rattle.sdh_laws.specs.Carrying.Windows.{layout_in, HasCircuits};

use sdh_circuits::{CircuitMap, PortId};
use sdh_node::{Adm, EachRound, Settings, Taking, Turn, WhenAsked};
use sdh_plant::Plant;
use sdh_request::{Command, Moment};
use sdh_ringmap::{Pos, RingMap, Side};
use sdh_rounds::{PlantFault, RunsRounds, StationRing};
use std::alloc::{AllocError, Global};
use std::marker::Model;

/// The nodes of a ring, which run in rounds. `S` says when they take out of the received frames what their ports
/// delivered. They can be made into nodes for which `T` says it, and back.
#[derive(Debug, Drop)]
pub struct AdmRing<S: Taking, T: Taking> {
    pub(crate) ring: StationRing<Adm<S>>,
    // Room for the nodes in their other form. It is empty, and its capacity is enough for a node at each position.
    pub(crate) spare: Vec<Adm<T>>,
}

/// The nodes of a ring while the rounds of a settle step run. What their ports deliver stays in the frames that the
/// nodes received until it is asked for, or until the step ends.
pub type Running = AdmRing<WhenAsked, EachRound>;

impl<S: Taking, T: Taking> Model for AdmRing<S, T> {
    ghost use Rattle.std.specs.Prelude.{◌≡◌, ◌≤◌, [], length, vec_capacity};
    ghost use Rattle.sdh_node.specs.Rings.Held.{HeldRing};
    ghost use Rattle.sdh_node.specs.Rings.Fixed.{IsRing};

    ghost Value = { HeldRing };

    ghost view = { λ a. a.ring };

    ghost invariant = { λ a. record {
      ring : IsRing a.ring;
      spare : a.spare.items ≡ [];
      room : length a.ring.ids ≤ vec_capacity a.spare;
    } };
}

impl<S: Taking, T: Taking> AdmRing<S, T> {
    /// Returns a ring of new nodes, in which no round has run, at moment 0. All its memory is taken here.
    #[tactic(auto, unfolding(sdh_node::specs::Rings::Held::new_nodes))]
    pub fn try_new(
        alloc: Global,
        settings: Settings,
        map: RingMap,
        circuits: CircuitMap,
    ) -> Result<AdmRing<S, T>, AllocError>
        requires slots { circuits.slots ≡ n_of settings.rate / 2 }
        requires kept { KeepsRing circuits map }
        ensures { IfOk result (λ ring. ring ≡ new_ring settings map circuits) }
    {
        prove!(map.len() <= 16);
        prove!(circuits.len() <= 128);
        let spare = Vec::with_capacity(alloc, map.len())?;
        let ring = StationRing::try_new(alloc, settings, map, circuits)?;
        Ok(AdmRing { ring, spare })
    }

    /// Returns the same nodes in their other form. The function takes no memory.
    pub fn into_form(self) -> AdmRing<T, S>
        ensures { result ≡ self }
    {
        let (ring, spare) = self.ring.into_form(self.spare);
        AdmRing { ring, spare }
    }

    /// The circuits fit the ring's size and rate: the function does nothing, and its contract is the law.
    pub fn circuits_fit(&self)
        ensures { HasCircuits (layout_in self.now) }
    {
        // Looking at a field gives the prover the ring's invariant, from which the law follows.
        let _ = &self.ring;
    }

    /// At most 16 slips wait at each port, and no port's clock has to wait for more than four rounds before it may
    /// justify. The function does nothing: its contract is the law.
    pub fn few_slips_wait(&self)
        requires { self.now.broken ≡ false }
        ensures { (port : PortId) → HasPortIn self.now port → IsRested (clock_at self.now port) }
    {
        let _ = &self.ring;
    }

    /// Gives one side of a node a command.
    pub fn command(&mut self, at: Pos, side: Side, command: Command)
        requires { at.0 < length self.old.ids }
        ensures { self.new ≡ record self.old { nodes = at_place at.0 (at_receiving side (commanded_by command)) self.old.nodes } }
    {
        let node = &mut self.ring.nodes[at.0 as usize];
        node.command(side, command);
    }

    /// Holds the controller of a node for the next `turns` rounds. Rounds that remain from an earlier call no longer
    /// count.
    pub fn hold(&mut self, at: Pos, turns: u32)
        requires at { at.0 < length self.old.ids }
        requires some { 1 ≤ turns }
        requires few { turns ≤ 100 }
        ensures { self.new ≡ record self.old { nodes = at_place at.0 (held_for turns) self.old.nodes } }
    {
        let node = &mut self.ring.nodes[at.0 as usize];
        node.hold(turns);
    }

    /// Adds `count` pending slips to the clock of the customer who sends at a port.
    pub fn slip(&mut self, port: PortId, turn: Turn, count: u8)
        requires port { port.circuit < length self.old.circuits.circuits }
        requires few { waiting_at self.old port + count ≤ 16 }
        ensures { self.new ≡ record self.old {
          nodes = at_place (place_of_port self.old port) (slips_at port turn count) self.old.nodes;
        } }
    {
        let at = self.ring.place_of(port);
        let node = &mut self.ring.nodes[at];
        node.slip(port, turn, count);
    }

    /// Sets the present moment, at which the next rounds run.
    pub fn moment(&mut self, now: Moment)
        requires later { self.old.moment ≤ now.0 }
        requires within { now.0 ≤ 1000000000 }
        ensures { self.new ≡ record self.old { moment = now.0 } }
    {
        self.ring.moment(now);
    }

    /// Returns the node where a port of a circuit is.
    pub fn node_of(&self, port: PortId) -> &Adm<S>
        requires { port.circuit < length self.now.circuits.circuits }
        ensures port { HasPort result.now.ports port }
        ensures outlet { outlet_at self.now port ≡ outlet_of port result.now.ports }
        ensures waiting { waiting_at self.now port ≡ waiting_of port result.now.ports }
    {
        self.ring.node_of(port)
    }

    /// Returns the position of the node where a port of a circuit is.
    pub fn place_of(&self, port: PortId) -> usize
        requires { port.circuit < length self.now.circuits.circuits }
        ensures place { result ≡ place_of_port self.now port }
        ensures inside { result < length self.now.nodes }
        ensures port { HasPort (node_at self.now.nodes result).ports port }
        ensures outlet { outlet_at self.now port ≡ outlet_of port (node_at self.now.nodes result).ports }
    {
        self.ring.place_of(port)
    }

    /// Returns how many rounds have run. They are numbered from 0, so the number of the last one is less by one.
    pub fn rounds(&self) -> u64
        ensures { result ≡ self.now.rounds }
    {
        self.ring.rounds()
    }

    /// Returns the nodes' identifiers.
    pub fn map(&self) -> &RingMap
        ensures { result.now ≡ self.now.ids }
    {
        self.ring.map()
    }

    /// Returns the node at a position.
    pub fn node(&self, at: Pos) -> &Adm<S>
        requires { at.0 < length self.now.ids }
        ensures { slice_get self.now.nodes at.0 ≡ Some result.now }
    {
        self.ring.node(at)
    }

    /// Returns the nodes, by position.
    pub fn nodes(&self) -> &[Adm<S>]
        ensures { result.now ≡ self.now.nodes }
    {
        self.ring.nodes.as_slice()
    }

    /// Returns the circuits.
    pub fn circuits(&self) -> &CircuitMap
        ensures { result.now ≡ self.now.circuits }
    {
        self.ring.circuits()
    }
}

impl<S: Taking, T: Taking> RunsRounds for AdmRing<S, T> {
    type Node = Adm<S>;

    ghost held = { λ ring. ring };

    fn stations(&self) -> &StationRing<Adm<S>> {
        &self.ring
    }

    fn round<P: Plant>(&mut self, plant: &mut P) -> Result<(), PlantFault> {
        self.ring.round(plant)
    }
}
