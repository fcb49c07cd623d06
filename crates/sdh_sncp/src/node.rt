//! One node of a path ring.
ghost use Rattle.std.specs.Prelude.{◌≡◌, ◌≢◌, ◌&&◌, nat_le, ◌+◌, ◌/◌, ◌^◌, ◌<◌, None, IfOk, length};
ghost use Rattle.sdh_ringmap.specs.Rates.{n_of};
ghost use Rattle.sdh_plant.specs.Arrivals.{arrived_in};
ghost use Rattle.sdh_terminal.specs.Tributaries.{HasPort, outlet_of, outlets_of};
ghost use Rattle.sdh_sncp.specs.Node.{new_path_node, path_node_told, path_node_round, GoesOn};

use crate::cross::PathCross;
use sdh_circuits::{CircuitMap, PortId};
use sdh_frame::FrameBuf;
use sdh_nodestate::first_word;
use sdh_overhead::Landed;
use sdh_plant::Arrived;
use sdh_request::Settings;
use sdh_ringmap::{Pos, RingMap, Side};
use sdh_terminal::{InPlace, Outlet, Outlets, Sender, TakenPair, Tributaries, send_both};
use std::alloc::{AllocError, Global};
use std::marker::Model;

/// One node of a path ring. What its ports delivered in the last round waits in the frames that came in that round, and
/// is taken out of them when somebody asks. Both frames and the interpreters stay as the round left them until the next
/// one.
#[derive(Debug, Drop)]
pub struct PathNode {
    threshold: u16,
    rounds: u64,
    cross: PathCross,
    ports: Tributaries,
    west_out: Sender,
    east_out: Sender,
    calm: bool,
}

impl Model for PathNode {
    ghost use Rattle.sdh_terminal.specs.Tributaries.{all_delivered_with};
    ghost use Rattle.sdh_sncp.specs.Node.{PathNode, IsPathNode, path_dropped_to};

    ghost Value = { PathNode };

    ghost view = { λ a. record { threshold = a.threshold; uses = a.cross.uses; rounds = a.rounds; west = a.cross.west; east = a.cross.east; ports = all_delivered_with (path_dropped_to a.cross) a.ports; west_out = a.west_out; east_out = a.east_out; calm = a.calm } };

    ghost invariant = { λ a. IsPathNode (record { threshold = a.threshold; uses = a.cross.uses; rounds = a.rounds; west = a.cross.west; east = a.cross.east; ports = a.ports; west_out = a.west_out; east_out = a.east_out; calm = a.calm }) };
}

impl PathNode {
    /// Returns the node at a position of a ring with these circuits. All its memory is taken here.
    #[tactic(auto, unfolding(crate::specs::Node::new_path_node))]
    pub fn try_new(
        alloc: Global,
        settings: Settings,
        map: &RingMap,
        circuits: &CircuitMap,
        at: Pos,
    ) -> Result<PathNode, AllocError>
        requires at { at.0 < length map.now }
        requires slots { circuits.now.slots ≡ n_of settings.rate / 2 }
        ensures { IfOk result (λ node. node ≡ new_path_node settings map.now circuits.now.circuits at) }
    {
        let west = first_word(map, at, Side::West);
        let east = first_word(map, at, Side::East);
        Ok(PathNode {
            threshold: settings.threshold,
            rounds: 0,
            ports: Tributaries::try_new(alloc, circuits, at)?,
            west_out: Sender::try_new(alloc, settings.rate, west)?,
            east_out: Sender::try_new(alloc, settings.rate, east)?,
            cross: PathCross::try_new(alloc, settings.rate, circuits, at)?,
            calm: false,
        })
    }

    /// Keeps what arrived on a side for the next round, but without a copy: the buffer in which the frame landed is
    /// exchanged for another one of the same rate.
    pub fn receive_landed(&mut self, side: Side, arrived: Arrived, inbox: &mut Landed)
        requires rate { inbox.old.rate ≡ self.old.west.section.rate }
        requires here { arrived ≡ Arrived.Frame → inbox.old.landed ≢ None }
        ensures node { self.new ≡ path_node_told side (arrived_in arrived inbox.old.landed) self.old }
        ensures rate { inbox.new.rate ≡ inbox.old.rate }
        ensures dark { arrived ≡ Arrived.Dark → inbox.new ≡ inbox.old }
        ensures taken { arrived ≡ Arrived.Frame → inbox.new.landed ≡ None }
    {
        self.cross.receive_landed(side, arrived, inbox);
    }

    /// Returns room for what each port of the node delivers. All its memory is taken here.
    pub fn outlets(&self, alloc: Global) -> Result<Outlets, AllocError>
        ensures { IfOk result (λ outlets. length outlets ≡ length self.now.ports) }
    {
        self.ports.outlets(alloc)
    }

    /// Takes what each port of the node delivered in the last round out of the frames in which it waits. Before the
    /// first round it is AIS. It takes no memory.
    pub fn deliver(&self, taken: &mut TakenPair, outlets: &mut Outlets)
        requires { length outlets.old ≡ length self.now.ports }
        ensures { outlets.new ≡ outlets_of self.now.ports }
    {
        self.ports.deliver(&self.cross, taken, outlets);
    }

    /// Returns what a port of the node delivered in the last round, of what all its ports delivered.
    pub fn outlet<'a>(&self, port: PortId, outlets: &'a Outlets) -> &'a Outlet
        requires there { HasPort self.now.ports port }
        requires outlets { outlets.now ≡ outlets_of self.now.ports }
        ensures { result.now ≡ outlet_of port self.now.ports }
    {
        let place = self.ports.place_of(port);
        outlets.at(place)
    }

    /// Returns whether the last round left all interpreters and generators as they were. The first round isn't calm.
    pub fn calm(&self) -> bool
        ensures { result ≡ self.now.calm }
    {
        self.calm
    }

    /// Runs one round: what arrived is read, and a frame goes out on each side. What the ports deliver waits until
    /// somebody asks. It takes no memory.
    #[tactic(auto, unfolding(crate::specs::Node::path_node_round))]
    pub fn send(&mut self, west: &mut FrameBuf, east: &mut FrameBuf)
        requires west { west.old.rate ≡ self.old.west.section.rate }
        requires east { east.old.rate ≡ self.old.west.section.rate }
        requires few { self.old.rounds < 2 ^ 32 }
        ensures node { self.new ≡ (path_node_round self.old).0 }
        ensures west { west.new ≡ (path_node_round self.old).1.west }
        ensures east { east.new ≡ (path_node_round self.old).1.east }
        ensures rates { (west.new.rate ≡ west.old.rate) × (east.new.rate ≡ east.old.rate) }
        ensures goes_on { GoesOn self.old self.new }
    {
        let ran = has_run(self.rounds);
        let taken = self.cross.take(self.threshold);
        self.ports.feed();
        self.rounds += 1;
        let (west_made, east_made) = send_both(
            &mut self.west_out,
            &mut self.east_out,
            &self.cross,
            &self.ports,
            west,
            east,
            &mut InPlace,
        );
        let signs = Signs {
            ran,
            taken,
            west_made,
            east_made,
        };
        let calm = is_calm(&signs);
        self.calm = calm;
    }
}

// Returns whether a round ran before.
fn has_run(rounds: u64) -> bool
    ensures { result ≡ nat_le 1 rounds }
{
    rounds >= 1
}

// What decides whether a round is calm. `ran` says whether a round ran before it. Each other field says of one call
// of the round whether it changed none of the interpreters or generators that it compares.
#[derive(Drop)]
struct Signs {
    ran: bool,
    taken: bool,
    west_made: bool,
    east_made: bool,
}

// Returns whether the round was calm, by what its calls returned.
fn is_calm(signs: &Signs) -> bool
    ensures { result ≡ (signs.now.ran && (signs.now.taken && (signs.now.west_made && signs.now.east_made))) }
{
    signs.ran && signs.taken && signs.west_made && signs.east_made
}
