//! The cross-connect: the receiving half of each side and what they take in, the node's state, and the connections that
//! this state makes: what feeds each AU-4 that leaves, and what is dropped to each port.
ghost use Rattle.std.specs.Prelude.{◌≡◌, ◌&&◌, ◌+◌, ◌-◌, ◌<◌, ◌≤◌, ◌≢◌, None, true, false, All, IfOk, length, get_or, option_map};
ghost use Rattle.sdh_ringmap.specs.Rates.{n_of};
ghost use Rattle.sdh_ringmap.specs.declared.Pos.{Pos};
ghost use Rattle.sdh_ringmap.specs.declared.Side.TheVariants.{West, East};
ghost use Rattle.sdh_circuits.specs.Kept.{KeepsRing};
ghost use Rattle.sdh_nodestate.specs.FarEnds.{far_of};
ghost use Rattle.sdh_nodestate.specs.Rules.{word};
ghost use Rattle.sdh_nodestate.specs.Words.{SendsSpellable};
ghost use Rattle.sdh_nodestate.specs.Shapes.{same_state};
ghost use Rattle.sdh_node.specs.Same.{same_in};
ghost use Rattle.sdh_plant.specs.Arrivals.{as_arrival, arrived_in};
ghost use Rattle.sdh_node.specs.Receiving.{commanded_by, arrived_on};
ghost use Rattle.sdh_node.specs.Node.{new_cross, new_receiving, compared_in};
ghost use Rattle.sdh_node.specs.Crossing.{receiving_side, at_side, half_of, after_intakes, scene_of, after_decision, next_word, feeder_of};
ghost use Rattle.sdh_node.specs.Crossing.{lines_of, leads, drops, all_delivered};
ghost use Rattle.sdh_terminal.specs.Lines.{IsFeeder};
ghost use Rattle.sdh_terminal.specs.Receiving.{new_intake};
ghost use Rattle.sdh_payload.specs.Outlet.{front_of};
ghost use Rattle.sdh_terminal.specs.Tributaries.{HasPort, outlet_of, outlets_of};

use crate::receiver::Receiver;
use crate::taking::Taking;
use sdh_bridge::{Origin, drop_origin, protection_origin, working_origin};
use sdh_circuits::{CircuitMap, PortId, Slot};
use sdh_frame::FrameBuf;
use sdh_nodestate::{Heard, Needs, NodeState, Sent, same_shape, shape_of, start, step};
use sdh_overhead::Landed;
use sdh_payload::Front;
use sdh_plant::Arrived;
use sdh_request::{Command, Moment, Settings};
use sdh_ringmap::{Pos, Rate, RingMap, Side};
use sdh_squelch::Table;
use sdh_terminal::{Feeder, Intake, Matrix, Outlets, TakenPair, Tributaries};
use std::alloc::{AllocError, Global};
use std::marker::Model;

/// The receiving half of each side, the state, and the squelch table by which the state connects the AU-4s that arrive.
#[derive(Debug, Drop)]
pub struct CrossConnect {
    map: RingMap,
    at: Pos,
    table: Table,
    state: NodeState,
    west: Receiver,
    east: Receiver,
    west_in: Intake,
    east_in: Intake,
}

impl Model for CrossConnect {
    ghost use Rattle.std.specs.Prelude.{◌≡◌};
    ghost use Rattle.sdh_node.specs.Crossing.{Cross, IsCross};

    ghost Value = { Cross };

    ghost view = { λ x. record { ids = x.map; at = x.at; circuits = x.table.circuits; state = x.state; west = x.west; east = x.east; west_in = x.west_in; east_in = x.east_in } };

    ghost invariant = { λ x. record {
      ring : x.table.ring ≡ x.map;
      place : x.table.at ≡ x.at;
      cross : IsCross (record { ids = x.map; at = x.at; circuits = x.table.circuits; state = x.state; west = x.west; east = x.east; west_in = x.west_in; east_in = x.east_in });
    } };
}

// Returns the far end of a state, where it has one.
fn far_of(state: &NodeState) -> Option<Pos>
    ensures { result ≡ far_of state.now }
{
    match state {
        NodeState::SwitchWest(switch) => switch.far(),
        NodeState::SwitchEast(switch) => switch.far(),
        _ => None,
    }
}

// Returns the receivers of both sides, which have received nothing.
fn new_receivers(alloc: Global, settings: Settings) -> Result<(Receiver, Receiver), AllocError>
    ensures west { IfOk result (λ both. both.0 ≡ new_receiving settings) }
    ensures east { IfOk result (λ both. both.1 ≡ new_receiving settings) }
{
    Ok((
        Receiver::try_new(alloc, settings)?,
        Receiver::try_new(alloc, settings)?,
    ))
}

// Returns the intakes of both sides, which have taken nothing in.
fn new_intakes(alloc: Global, rate: Rate) -> Result<(Intake, Intake), AllocError>
    ensures west { IfOk result (λ both. both.0 ≡ new_intake rate) }
    ensures east { IfOk result (λ both. both.1 ≡ new_intake rate) }
{
    Ok((Intake::try_new(alloc, rate)?, Intake::try_new(alloc, rate)?))
}

impl CrossConnect {
    /// Returns an idle cross-connect that has received nothing. All memory is taken here.
    pub fn try_new(
        alloc: Global,
        settings: Settings,
        map: &RingMap,
        circuits: &CircuitMap,
        at: Pos,
    ) -> Result<CrossConnect, AllocError>
        requires at { at.0 < length map.now }
        requires kept { KeepsRing circuits.now map.now }
        ensures { IfOk result (λ x. x ≡ new_cross settings map.now circuits.now.circuits at) }
    {
        let table = Table::try_new(alloc, map, circuits, at)?;
        let intakes = new_intakes(alloc, settings.rate)?;
        let receivers = new_receivers(alloc, settings)?;
        let (west_in, east_in) = intakes;
        let (west, east) = receivers;
        Ok(CrossConnect {
            map: map.copy(),
            at,
            table,
            state: start(),
            west,
            east,
            west_in,
            east_in,
        })
    }

    /// Gives one side a command.
    pub fn command(&mut self, side: Side, command: Command)
        ensures cross { self.new ≡ at_side side (commanded_by command) self.old }
        ensures moment { self.new.west.local.moment ≡ self.old.west.local.moment }
    {
        match side {
            Side::West => self.west.command(command),
            Side::East => self.east.command(command),
        }
    }

    /// Keeps what arrived on a side for the next round.
    pub fn receive(&mut self, side: Side, arrived: Arrived, frame: &FrameBuf)
        requires { frame.now.rate ≡ self.old.west.section.rate }
        ensures cross { self.new ≡ at_side side (arrived_on (as_arrival arrived frame.now.bytes)) self.old }
        ensures moment { self.new.west.local.moment ≡ self.old.west.local.moment }
    {
        match side {
            Side::West => self.west.receive(arrived, frame),
            Side::East => self.east.receive(arrived, frame),
        }
    }

    /// Keeps what arrived on a side for the next round, without a copy: the buffer in which the frame landed is
    /// exchanged for another one.
    pub fn receive_landed(&mut self, side: Side, arrived: Arrived, inbox: &mut Landed)
        requires rate { inbox.old.rate ≡ self.old.west.section.rate }
        requires here { arrived ≡ Arrived.Frame → inbox.old.landed ≢ None }
        ensures cross { self.new ≡ at_side side (arrived_on (arrived_in arrived inbox.old.landed)) self.old }
        ensures moment { self.new.west.local.moment ≡ self.old.west.local.moment }
        ensures rate { inbox.new.rate ≡ inbox.old.rate }
        ensures dark { arrived ≡ Arrived.Dark → inbox.new ≡ inbox.old }
        ensures taken { arrived ≡ Arrived.Frame → inbox.new.landed ≡ None }
    {
        match side {
            Side::West => self.west.receive_landed(arrived, inbox),
            Side::East => self.east.receive_landed(arrived, inbox),
        }
    }

    /// Lets both sides take what arrived, and the interpreters read it. Returns whether the local requests, the words
    /// heard and what the interpreters keep are as before. A side is degraded where B2 has at least `threshold`
    /// violations.
    #[tactic(auto, unfolding(crate::specs::Crossing::after_intakes))]
    pub fn take(&mut self, threshold: u16, now: Moment) -> bool
        requires west { self.old.west.local.moment ≤ now.0 }
        requires east { self.old.east.local.moment ≤ now.0 }
        requires within { now.0 ≤ 1000000000 }
        ensures cross { self.new ≡ after_intakes threshold now.0 self.old }
        ensures same { result ≡ (same_in (compared_in self.new.west) (compared_in self.old.west)
            && same_in (compared_in self.new.east) (compared_in self.old.east)) }
        ensures rate { self.new.west.section.rate ≡ self.old.west.section.rate }
        ensures west { self.new.west.local.moment ≡ now.0 }
        ensures east { self.new.east.local.moment ≡ now.0 }
    {
        let west = self.west.take(threshold, now, &mut self.west_in);
        let east = self.east.take(threshold, now, &mut self.east_in);
        west && east
    }

    // Finds the state of this round by the rules. Returns the words to be sent, and whether the state is as before.
    #[tactic(auto, unfolding(crate::specs::Crossing::after_decision, crate::specs::Crossing::scene_of))]
    fn step(&mut self) -> (Sent, bool)
        ensures cross { self.new ≡ after_decision false self.old }
        ensures west { result.0.west ≡ word (scene_of self.old) West }
        ensures east { result.0.east ≡ word (scene_of self.old) East }
        ensures spellable { SendsSpellable result.0 }
        ensures same { result.1 ≡ same_state self.new.state self.old.state }
        ensures west_in { self.new.west ≡ self.old.west }
        ensures east_in { self.new.east ≡ self.old.east }
    {
        let needs = Needs {
            west: self.west.request(),
            east: self.east.request(),
            west_fails: self.west.fails(),
            east_fails: self.east.fails(),
        };
        let heard = Heard {
            west: self.west.heard(),
            east: self.east.heard(),
        };
        let shape = shape_of(&self.state);
        let old = std::mem::replace(&mut self.state, start());
        let (state, sent) = step(old, &self.map, self.at, needs, heard);
        let same = same_shape(shape_of(&state), shape);
        self.state = state;
        (sent, same)
    }

    /// Sets the state of this round. Returns the words to send, and whether the state is as before. In a held round the
    /// state and the words stay as they were.
    #[tactic(auto, unfolding(crate::specs::Crossing::after_decision, crate::specs::Crossing::next_word), using(sdh_nodestate::proofs::SameStates::state_itself))]
    pub fn decide(&mut self, held: bool, before: Sent) -> (Sent, bool)
        requires { SendsSpellable before }
        ensures cross { self.new ≡ after_decision held self.old }
        ensures west { result.0.west ≡ next_word held self.old West before.west }
        ensures east { result.0.east ≡ next_word held self.old East before.east }
        ensures spellable { SendsSpellable result.0 }
        ensures same { result.1 ≡ same_state self.new.state self.old.state }
        ensures west_in { self.new.west ≡ self.old.west }
        ensures east_in { self.new.east ≡ self.old.east }
    {
        if held { (before, true) } else { self.step() }
    }

    /// Returns the state.
    pub fn state(&self) -> &NodeState
        ensures { result.now ≡ self.now.state }
    {
        &self.state
    }

    /// Returns the identifier of the far end, where there is one.
    pub fn far_id(&self) -> Option<u8>
        ensures { result ≡ option_map (λ (p : Pos). get_or self.now.ids p.0 0) (far_of self.now.state) }
    {
        match far_of(&self.state) {
            Some(far) => Some(self.map.id(far)),
            None => None,
        }
    }

    /// Returns the receiving half of a side.
    pub fn receiver(&self, side: Side) -> &Receiver
        ensures side { result.now ≡ receiving_side self.now side }
        ensures rate { result.now.section.rate ≡ self.now.west.section.rate }
    {
        match side {
            Side::West => &self.west,
            Side::East => &self.east,
        }
    }

    // Returns an origin in a slot, 1 to N / 2, as a `Feeder`: a feeder names a received AU-4 by its side and number.
    fn feeder_of(&self, slot: u16, origin: Origin) -> Feeder
        requires first { 1 ≤ slot }
        requires last { slot ≤ half_of self.now }
        ensures feeder { result ≡ feeder_of self.now slot origin }
        ensures inside { IsFeeder (n_of self.now.west.section.rate) result }
    {
        let half = u16::from(self.west_in.rate().half());
        match origin {
            Origin::Add(port) => Feeder::Port(port),
            Origin::Working(side) => Feeder::Received(side, slot),
            Origin::Protection(side) => Feeder::Received(side, half + slot),
            Origin::Ais => Feeder::Ais,
        }
    }
}

impl Matrix for CrossConnect {
    ghost lines = { λ x. lines_of x };

    ghost leads = { λ x. leads x };

    ghost drops = { λ x. drops x };

    fn rate(&self) -> Rate {
        self.west_in.rate()
    }

    fn intake(&self, side: Side) -> &Intake {
        match side {
            Side::West => &self.west_in,
            Side::East => &self.east_in,
        }
    }

    fn value(&self, side: Side, au: u16) -> u16 {
        match side {
            Side::West => self.west.value(au),
            Side::East => self.east.value(au),
        }
    }

    // Returns what feeds an AU-4 that leaves. Those up to half of N are the working slots, those above it the
    // protection slots.
    #[tactic(auto, unfolding(crate::specs::Crossing::leads))]
    fn leaving(&self, side: Side, au: u16) -> Feeder {
        let half = u16::from(self.west_in.rate().half());
        if au <= half {
            let slot = Slot(au as u8);
            let origin = working_origin(&self.state, &self.map, &self.table, self.at, side, slot);
            self.feeder_of(au, origin)
        } else {
            let slot = Slot((au - half) as u8);
            let origin = protection_origin(
                &self.state,
                &self.map,
                &self.table,
                self.at,
                side,
                slot,
            );
            self.feeder_of(au - half, origin)
        }
    }

    #[tactic(auto, unfolding(crate::specs::Crossing::drops))]
    fn dropped(&self, side: Side, slot: Slot) -> Feeder {
        let origin = drop_origin(&self.state, &self.map, &self.table, self.at, side, slot);
        self.feeder_of(u16::from(slot.0), origin)
    }
}

/// Delivers to each port what the node's state connects to it. `outlets` has room for each port.
pub fn deliver_ports(
    cross: &CrossConnect,
    ports: &Tributaries,
    taken: &mut TakenPair,
    outlets: &mut Outlets,
)
    requires ports { All (λ t. (1 ≤ t.slot.0) × (t.slot.0 ≤ half_of cross.now)) ports.now }
    requires many { length outlets.old ≡ length ports.now }
    ensures { outlets.new ≡ outlets_of (all_delivered cross.now ports.now) }
{
    ports.deliver(cross, taken, outlets);
}

/// Returns the front of what the node's state connects to a port.
pub fn front_at(cross: &CrossConnect, ports: &Tributaries, port: PortId) -> Front
    requires there { HasPort ports.now port }
    requires ports { All (λ t. (1 ≤ t.slot.0) × (t.slot.0 ≤ half_of cross.now)) ports.now }
    ensures { result ≡ front_of (outlet_of port (all_delivered cross.now ports.now)) }
{
    ports.front(cross, port)
}

/// Does what `deliver_ports` does where `S` says that a round ends with it, and nothing otherwise.
pub fn take_out<S: Taking>(
    cross: &CrossConnect,
    ports: &Tributaries,
    taken: &mut TakenPair,
    outlets: &mut Outlets,
)
    requires ports { All (λ t. (1 ≤ t.slot.0) × (t.slot.0 ≤ half_of cross.now)) ports.now }
    requires many { length outlets.old ≡ length ports.now }
    ensures room { length outlets.new ≡ length ports.now }
    ensures taken { S.EACH_ROUND ≡ true → outlets.new ≡ outlets_of (all_delivered cross.now ports.now) }
{
    if S::EACH_ROUND {
        deliver_ports(cross, ports, taken, outlets);
    }
}
