//! The path ring.
ghost use Rattle.std.specs.Prelude.{◌≡◌, ◌+◌, ◌/◌, ◌^◌, ◌<◌, ◌≤◌, ℕ, false, true, Err, IfOk, OnOk};
ghost use Rattle.std.specs.Prelude.{OnErr, IsErr, length};
ghost use Rattle.sdh_basics.specs.Causes.{Rose, IsCounted};
ghost use Rattle.sdh_ringmap.specs.Rates.{n_of};
ghost use Rattle.sdh_circuits.specs.Kept.{KeepsRing};
ghost use Rattle.sdh_plant.specs.Fibres.{Fibres, IsPrepared, IsHonest};
ghost use Rattle.sdh_plant.specs.Calls.{prepared};
ghost use Rattle.sdh_payload.specs.Outlet.{silent};
ghost use Rattle.sdh_circuits.specs.declared.PortId.{PortId};
ghost use Rattle.sdh_rounds.specs.Faults.{BreaksRound};
ghost use Rattle.sdh_rounds.specs.Outcome.{IsStep};
ghost use Rattle.sdh_sncp.specs.Ring.{new_ring, outlet_at, world, IsRound, IsBrokenOff};
ghost use Rattle.sdh_sncp.specs.Placed.{IsPlacedPathRing};
ghost use Rattle.sdh_sncp.specs.Fixed.{AreAlone};
ghost use Rattle.sdh_sncp.specs.Laws.{IsPairedPathRing, HasPathCircuits, KeepsPathPromises};
ghost use Rattle.sdh_sncp.specs.Sharing.{AreFirstToShare};
ghost use Rattle.sdh_sncp.specs.Stations.{path_node};

use crate::node::PathNode;
use crate::shared::first_shared;
use sdh_circuits::{CircuitMap, PortId};
use sdh_payload::Delivered;
use sdh_plant::Plant;
use sdh_request::Settings;
use sdh_ringmap::RingMap;
use sdh_rounds::{Nobody, PlantFault, RunsRounds, SettleError, ShowsPorts, StationRing};
use sdh_terminal::{Deliveries, Outlet};
use std::alloc::{AllocError, Global};
use std::marker::Model;
use thiserror::Error;

/// Why there is no path ring.
#[derive(Clone, Copy, Debug, PartialEq, Eq, Error)]
pub enum PathError {
    /// Memory ran out.
    #[error("no memory")]
    Memory,
    /// These two circuits share a slot.
    #[error("two circuits share a slot")]
    SameSlot { first: u8, second: u8 },
}

impl From<AllocError> for PathError {
    ghost use Rattle.sdh_sncp.specs.declared.ring.PathError.TheVariants.{Memory};

    ghost from_gives = { λ _ e. e ≡ Memory };

    fn from(_: AllocError) -> PathError {
        PathError::Memory
    }
}

/// The nodes of a path ring, which run in rounds, and what their ports delivered in the last one.
#[derive(Debug, Drop)]
pub struct PathRing {
    ring: StationRing<PathNode>,
    deliveries: Deliveries,
}

impl Model for PathRing {
    ghost use Rattle.std.specs.Prelude.{◌≡◌};
    ghost use Rattle.sdh_sncp.specs.Ring.{HeldPath, delivered_in};
    ghost use Rattle.sdh_sncp.specs.Fixed.{IsRing};

    ghost Value = { HeldPath };

    ghost view = { λ a. a.ring };

    ghost invariant = { λ a. record { ring : IsRing a.ring; delivered : a.deliveries ≡ delivered_in a.ring } };
}

// Returns the nodes, by position.
fn nodes_of(ring: &StationRing<PathNode>) -> &[PathNode]
    ensures { result.now ≡ ring.now.nodes }
{
    ring.nodes.as_slice()
}

impl PathRing {
    /// Returns a ring of new nodes, in which no round has run. All its memory is taken here.
    #[tactic(auto, unfolding(crate::specs::Ring::new_nodes))]
    pub fn try_new(
        alloc: Global,
        settings: Settings,
        map: RingMap,
        circuits: CircuitMap,
    ) -> Result<PathRing, PathError>
        requires slots { circuits.slots ≡ n_of settings.rate / 2 }
        requires kept { KeepsRing circuits map }
        ensures ring { IfOk result (λ ring. ring ≡ new_ring settings map circuits) }

        // Over honest fibres that were just prepared for the ring, the fibres carry what the nodes sent, which is
        // nothing yet.
        ensures paired { IfOk result (λ ring. (f : Fibres) → IsHonest f → IsPairedPathRing (world ring (prepared settings.rate (length map) f))) }

        // Before the first round every port delivers AIS.
        ensures silent { IfOk result (λ ring. (port : PortId) → outlet_at ring port ≡ silent) }
        ensures same_slot { (first second : ℕ) → result ≡ Err (PathError.SameSlot first second)
            → AreFirstToShare circuits.circuits first second }
        ensures alone { IfOk result (λ ring. AreAlone circuits.circuits) }
        ensures memory { result ≡ Err PathError.Memory → AreAlone circuits.circuits }
    {
        crate::laws::new_worlds_are_whole();
        crate::laws::new_rings_are_silent();

        prove!(map.len() <= 16);
        prove!(circuits.len() <= 128);
        if let Some((first, second)) = first_shared(&circuits) {
            return Err(PathError::SameSlot { first, second });
        }
        let ring = StationRing::try_new(alloc, settings, map, circuits)?;
        let deliveries = Deliveries::try_new(alloc, nodes_of(&ring))?;
        Ok(PathRing { ring, deliveries })
    }

    /// Runs one round: all nodes receive, except in round 0, and then all send. It takes no memory. After a fault of
    /// the plant the ring is broken.
    pub fn round<P: Plant>(&mut self, plant: &mut P) -> Result<(), PlantFault>
        requires prepared { IsPrepared self.old.settings.rate (length self.old.ids) (P.fibres plant.old) }
        requires whole { self.old.broken ≡ false }
        requires room { self.old.rounds < 2 ^ 32 }
        ensures ok { OnOk result (IsRound (world self.old (P.fibres plant.old)) (world self.new (P.fibres plant.new))) }
        ensures prepared { OnOk result (IsPrepared self.old.settings.rate (length self.old.ids) (P.fibres plant.new)) }

        // Where the fibres carry what was sent before the round, they do so after it, too.
        ensures paired { OnOk result (IsPairedPathRing (world self.old (P.fibres plant.old)) → IsPairedPathRing (world self.new (P.fibres plant.new))) }
        ensures err { OnErr result (IsBrokenOff (world self.old (P.fibres plant.old)) (P.fibres plant.new)) }
        ensures broken { OnErr result (self.new.broken ≡ true) }
        ensures breaks { OnErr result
            (BreaksRound path_node (world self.old (P.fibres plant.old)) (world self.new (P.fibres plant.new))) }
        ensures later { P.faults plant.old ≤ P.faults plant.new }
        ensures failed { OnErr result (Rose (P.faults plant.old) (P.faults plant.new)) }

        // Where the plant's count of faults is exact, one call failed if the round ends with a fault, and none if it
        // ends with Ok.
        ensures counted { IsCounted P.exact (IsErr result) (P.faults plant.old) (P.faults plant.new) }
    {
        let result = self.ring.round(plant);
        self.deliveries.take(nodes_of(&self.ring));
        result
    }

    // The circuits fit the ring's size and rate, and no two share a slot: the function does nothing, and its contract
    // is the law.
    fn circuits_fit(&self)
        ensures { HasPathCircuits self.now }
    {
        // Looking at a field gives the prover the ring's invariant, from which the law follows.
        let _ = &self.ring;
    }

    // Each node is in its place: the function does nothing, and its contract is the law.
    fn nodes_are_placed(&self)
        requires { self.now.broken ≡ false }
        ensures { IsPlacedPathRing self.now }
    {
        let _ = &self.ring;
    }

    /// Runs rounds, at most `limit`, until one ends a quiet window. That is `3 * n` calm rounds of this step, the last
    /// of which has a number that is a multiple of 128. It takes no memory.
    pub fn settle<P: Plant>(&mut self, plant: &mut P, limit: u32) -> Result<(), SettleError>
        requires prepared { IsPrepared self.old.settings.rate (length self.old.ids) (P.fibres plant.old) }
        requires whole { self.old.broken ≡ false }
        requires some { 1 ≤ limit }
        requires few { limit ≤ 65536 }
        requires room { self.old.rounds + limit ≤ 2 ^ 32 }
        ensures step { IsStep path_node P.exact (world self.old (P.fibres plant.old)) limit result (world self.new (P.fibres plant.new))
            (P.faults plant.old) (P.faults plant.new) }

        // All ports deliver what they are owed, and a step whose limit is large enough ends with a window.
        ensures laws { KeepsPathPromises (world self.old (P.fibres plant.old)) limit result (world self.new (P.fibres plant.new)) }
    {
        self.circuits_fit();
        self.nodes_are_placed();
        sdh_rounds::settle(self, plant, limit, &mut Nobody)
    }
}

impl RunsRounds for PathRing {
    type Node = PathNode;

    ghost held = { λ ring. ring };

    fn stations(&self) -> &StationRing<PathNode> {
        &self.ring
    }

    fn round<P: Plant>(&mut self, plant: &mut P) -> Result<(), PlantFault> {
        PathRing::round(self, plant)
    }
}

// What can be read of the ring's ports and nodes.
impl PathRing {
    // Returns what a port of a circuit delivered in the last round, with its pointer value.
    fn outlet(&self, port: PortId) -> &Outlet
        requires { port.circuit < length self.now.circuits.circuits }
        ensures { result.now ≡ outlet_at self.now port }
    {
        let at = self.ring.place_of(port);
        let node = &nodes_of(&self.ring)[at];
        node.outlet(port, self.deliveries.of(at))
    }

    /// Returns what a port of a circuit delivered in the last round. Before the first round it is AIS.
    pub fn port(&self, port: PortId) -> &Delivered
        requires { port.circuit < length self.now.circuits.circuits }
        ensures { result.now ≡ (outlet_at self.now port).delivered }
    {
        self.outlet(port).delivered()
    }

    /// Returns the pointer value of the interpreter through which a port's bytes came, and 0 where the port delivers
    /// AIS.
    pub fn value(&self, port: PortId) -> u16
        requires { port.circuit < length self.now.circuits.circuits }
        ensures value { result ≡ (outlet_at self.now port).value }
        ensures small { result ≤ 782 }
    {
        self.outlet(port).value()
    }

    /// Returns how many rounds have run. They are numbered from 0, so the number of the last one is less by one.
    pub fn rounds(&self) -> u64
        ensures { result ≡ self.now.rounds }
    {
        self.ring.rounds()
    }

    /// Returns the nodes' identifiers.
    pub fn map(&self) -> &RingMap
        ensures { result.now ≡ self.now.ids }
    {
        self.ring.map()
    }

    /// Returns the circuits.
    pub fn circuits(&self) -> &CircuitMap
        ensures { result.now ≡ self.now.circuits }
    {
        self.ring.circuits()
    }

    /// Returns whether a fault of the plant broke a round off.
    pub fn is_broken(&self) -> bool
        ensures { result ≡ self.now.broken }
    {
        self.ring.is_broken()
    }
}

impl ShowsPorts for PathRing {
    ghost provisioning = { λ ring. ring.circuits };

    ghost outlet = { outlet_at };

    fn circuits(&self) -> &CircuitMap {
        PathRing::circuits(self)
    }

    fn port(&self, port: PortId) -> &Delivered {
        PathRing::port(self, port)
    }

    fn value(&self, port: PortId) -> u16 {
        PathRing::value(self, port)
    }
}
