//! One add-drop multiplexer.
ghost use Rattle.std.specs.Prelude.{◌≡◌, ◌+◌, ◌/◌, ◌^◌, ◌<◌, ◌≤◌, ◌≢◌, true, None, IfOk, IfSome, All, length, get_or, option_map};
ghost use Rattle.sdh_ringmap.specs.Rates.{n_of};
ghost use Rattle.sdh_circuits.specs.Kept.{KeepsRing};
ghost use Rattle.sdh_kbytes.specs.KBytes.{IsSpellable};
ghost use Rattle.sdh_ringmap.specs.declared.Pos.{Pos};
ghost use Rattle.sdh_ringmap.specs.declared.Side.TheVariants.{West, East};
ghost use Rattle.sdh_nodestate.specs.FarEnds.{far_of};
ghost use Rattle.sdh_nodestate.specs.Filtering.{hears};
ghost use Rattle.sdh_plant.specs.Arrivals.{as_arrival, arrived_in};
ghost use Rattle.sdh_payload.specs.Outlet.{front_of};
ghost use Rattle.sdh_terminal.specs.Tributaries.{HasPort, outlet_of, outlets_of, waiting_of, tributaries_at, IsTributary};
ghost use Rattle.sdh_node.specs.Receiving.{commanded_by, arrived_on};
ghost use Rattle.sdh_node.specs.Node.{new_node, at_receiving, held_for, slips_at, node_round, GoesOn, receiving_on, sending_on, moment_of};

use crate::cross::{CrossConnect, deliver_ports, front_at, take_out};
use crate::signs::{Signs, is_calm, is_held, may_be_calm, one_less, words_of};
use crate::taking::{EachRound, Taking, WhenAsked};
use sdh_circuits::{CircuitMap, PortId};
use sdh_frame::FrameBuf;
use sdh_kbytes::K;
use sdh_nodestate::{NodeState, first_word};
use sdh_overhead::Landed;
use sdh_payload::{Delivered, Front, Turn};
use sdh_plant::Arrived;
use sdh_request::{Command, Moment, Settings};
use sdh_ringmap::{Code, Pos, RingMap, Side};
use sdh_terminal::{Exit, InPlace, Outlet, Outlets, Sender, TakenPair, Tributaries, send_both};
use std::alloc::{AllocError, Global};
use std::marker::{Model, PhantomData};

/// One add-drop multiplexer of the ring, which runs in rounds, and memory for what its ports deliver. `S` says when
/// what they delivered is taken out of the received frames: at the end of each round, or only when it is asked for.
/// Until the next round it can be, since both frames, the interpreters and the state stay as they are until then.
#[derive(Debug, Drop)]
pub struct Adm<S: Taking = EachRound> {
    settings: Settings,
    rounds: u64,
    cross: CrossConnect,
    ports: Tributaries,
    west_out: Sender,
    east_out: Sender,
    held: u32,
    calm: bool,
    outlets: Outlets,
    taken: TakenPair,
    when: PhantomData<S>,
}

impl<S: Taking> Model for Adm<S> {
    ghost use Rattle.std.specs.Prelude.{◌≡◌, true, length};
    ghost use Rattle.sdh_terminal.specs.Tributaries.{outlets_of};
    ghost use Rattle.sdh_node.specs.Crossing.{all_delivered};
    ghost use Rattle.sdh_node.specs.Node.{Node, IsNode};

    ghost Value = { Node };

    ghost view = { λ a. record { settings = a.settings; ids = a.cross.ids; at = a.cross.at; circuits = a.cross.circuits; rounds = a.rounds; west = a.cross.west; east = a.cross.east; state = a.cross.state; ports = all_delivered a.cross a.ports; west_out = a.west_out; east_out = a.east_out; held = a.held; calm = a.calm } };

    ghost invariant = { λ a. record {
      node : IsNode (record { settings = a.settings; ids = a.cross.ids; at = a.cross.at; circuits = a.cross.circuits; rounds = a.rounds; west = a.cross.west; east = a.cross.east; state = a.cross.state; ports = a.ports; west_out = a.west_out; east_out = a.east_out; held = a.held; calm = a.calm });
      room : length a.outlets ≡ length a.ports;
      taken : S.EACH_ROUND ≡ true → a.outlets ≡ outlets_of (all_delivered a.cross a.ports);
    } };
}

// Returns the ports of a node, which have sent nothing, with room for what they deliver.
fn new_ports(
    alloc: Global,
    circuits: &CircuitMap,
    at: Pos,
) -> Result<(Tributaries, Outlets), AllocError>
    ensures ports { IfOk result (λ both. both.0 ≡ tributaries_at at circuits.now.circuits) }
    ensures slots { IfOk result (λ both. All (IsTributary circuits.now.slots 0) both.0) }
    ensures room { IfOk result (λ both. length both.1 ≡ length both.0) }
{
    let ports = Tributaries::try_new(alloc, circuits, at)?;
    let outlets = ports.outlets(alloc)?;
    Ok((ports, outlets))
}

// Returns the node at a position of a ring with these circuits: idle, without commands and defects. All its memory
// is taken here.
#[tactic(auto, unfolding(crate::specs::Node::new_node))]
fn new_waiting(
    alloc: Global,
    settings: Settings,
    map: &RingMap,
    circuits: &CircuitMap,
    at: Pos,
) -> Result<Adm<WhenAsked>, AllocError>
    requires at { at.0 < length map.now }
    requires slots { circuits.now.slots ≡ n_of settings.rate / 2 }
    requires kept { KeepsRing circuits.now map.now }
    ensures { IfOk result (λ node. node ≡ new_node settings map.now circuits.now.circuits at) }
{
    let west = first_word(map, at, Side::West);
    let east = first_word(map, at, Side::East);
    let (ports, outlets) = new_ports(alloc, circuits, at)?;
    Ok(Adm {
        settings,
        rounds: 0,
        ports,
        outlets,
        taken: TakenPair::try_new(alloc)?,
        west_out: Sender::try_new(alloc, settings.rate, west)?,
        east_out: Sender::try_new(alloc, settings.rate, east)?,
        cross: CrossConnect::try_new(alloc, settings, map, circuits, at)?,
        held: 0,
        calm: false,
        when: PhantomData,
    })
}

impl<S: Taking> Adm<S> {
    /// Returns the node at a position of a ring with these circuits: idle, without commands and defects. All its memory
    /// is taken here.
    pub fn try_new(
        alloc: Global,
        settings: Settings,
        map: &RingMap,
        circuits: &CircuitMap,
        at: Pos,
    ) -> Result<Adm<S>, AllocError>
        requires at { at.0 < length map.now }
        requires slots { circuits.now.slots ≡ n_of settings.rate / 2 }
        requires kept { KeepsRing circuits.now map.now }
        ensures { IfOk result (λ node. node ≡ new_node settings map.now circuits.now.circuits at) }
    {
        let node = new_waiting(alloc, settings, map, circuits, at)?;
        Ok(node.taking())
    }

    /// Returns the same node, which takes out what its ports deliver when `T` says. What they delivered in the last
    /// round is taken out here where that is at the end of each round. The function takes no memory.
    pub fn taking<T: Taking>(self) -> Adm<T>
        ensures { result ≡ self }
    {
        let Adm {
            settings,
            rounds,
            cross,
            ports,
            west_out,
            east_out,
            held,
            calm,
            mut outlets,
            mut taken,
            when: _,
        } = self;
        take_out::<T>(&cross, &ports, &mut taken, &mut outlets);
        Adm {
            settings,
            rounds,
            cross,
            ports,
            west_out,
            east_out,
            held,
            calm,
            outlets,
            taken,
            when: PhantomData,
        }
    }

    /// Gives one side a command.
    pub fn command(&mut self, side: Side, command: Command)
        ensures node { self.new ≡ at_receiving side (commanded_by command) self.old }
        ensures moment { moment_of self.new ≡ moment_of self.old }
    {
        self.cross.command(side, command);
    }

    /// Holds the controller for the next `turns` rounds, 1 to 100. Rounds that remain from an earlier call no longer
    /// count. In a held round the node keeps its state and the words that it sends, and does everything else.
    pub fn hold(&mut self, turns: u32)
        requires some { 1 ≤ turns }
        requires few { turns ≤ 100 }
        ensures node { self.new ≡ held_for turns self.old }
        ensures moment { moment_of self.new ≡ moment_of self.old }
    {
        self.held = turns;
    }

    /// Adds `count` pending slips to the clock of the customer who sends at a port. At most 16 may wait. Each is used
    /// up in a round of its own, in which the port justifies its pointer.
    pub fn slip(&mut self, port: PortId, turn: Turn, count: u8)
        requires there { HasPort self.old.ports port }
        requires few { waiting_of port self.old.ports + count ≤ 16 }
        ensures node { self.new ≡ slips_at port turn count self.old }
        ensures moment { moment_of self.new ≡ moment_of self.old }
    {
        self.ports.slip(port, turn, count);
    }

    /// Returns the number of slips that wait at a port, 0 to 16.
    pub fn waiting(&self, port: PortId) -> u8
        requires { HasPort self.now.ports port }
        ensures waiting { result ≡ waiting_of port self.now.ports }
        ensures few { result ≤ 16 }
    {
        self.ports.waiting(port)
    }

    /// Keeps what arrived on a side for the next `send`. If it is called again before that `send`, only what arrived
    /// last is kept.
    pub fn receive(&mut self, side: Side, arrived: Arrived, frame: &FrameBuf)
        requires { frame.now.rate ≡ self.old.settings.rate }
        ensures node { self.new ≡ at_receiving side (arrived_on (as_arrival arrived frame.now.bytes)) self.old }
        ensures moment { moment_of self.new ≡ moment_of self.old }
    {
        self.cross.receive(side, arrived, frame);
    }

    /// Keeps what arrived on a side as `receive` does, but without a copy: the buffer in which the frame landed is
    /// exchanged for another one of the same rate.
    pub fn receive_landed(&mut self, side: Side, arrived: Arrived, inbox: &mut Landed)
        requires rate { inbox.old.rate ≡ self.old.settings.rate }
        requires here { arrived ≡ Arrived.Frame → inbox.old.landed ≢ None }
        ensures node { self.new ≡ at_receiving side (arrived_on (arrived_in arrived inbox.old.landed)) self.old }
        ensures moment { moment_of self.new ≡ moment_of self.old }
        ensures rate { inbox.new.rate ≡ inbox.old.rate }
        ensures dark { arrived ≡ Arrived.Dark → inbox.new ≡ inbox.old }
        ensures taken { arrived ≡ Arrived.Frame → inbox.new.landed ≡ None }
    {
        self.cross.receive_landed(side, arrived, inbox);
    }

    /// Returns room for what each port of the node delivers. All its memory is taken here.
    pub fn outlets(&self, alloc: Global) -> Result<Outlets, AllocError>
        ensures { IfOk result (λ outlets. length outlets ≡ length self.now.ports) }
    {
        self.ports.outlets(alloc)
    }

    /// Takes out of the received frames what each port of the node delivered in the last round. Before the first round
    /// that is AIS. The function takes no memory.
    pub fn deliver(&self, taken: &mut TakenPair, outlets: &mut Outlets)
        requires { length outlets.old ≡ length self.now.ports }
        ensures { outlets.new ≡ outlets_of self.now.ports }
    {
        deliver_ports(&self.cross, &self.ports, taken, outlets);
    }

    /// Returns what one port of the node delivered in the last round. `outlets` has what each port of the node
    /// delivered in that round.
    pub fn outlet<'a>(&self, port: PortId, outlets: &'a Outlets) -> &'a Outlet
        requires there { HasPort self.now.ports port }
        requires outlets { outlets.now ≡ outlets_of self.now.ports }
        ensures { result.now ≡ outlet_of port self.now.ports }
    {
        let place = self.ports.place_of(port);
        outlets.at(place)
    }

    /// Returns the front of what one port of the node delivered in the last round. It is read out of the received
    /// frames, and no payload is taken out of them.
    pub fn front(&self, port: PortId) -> Front
        requires { HasPort self.now.ports port }
        ensures { result ≡ front_of (outlet_of port self.now.ports) }
    {
        front_at(&self.cross, &self.ports, port)
    }

    /// Returns the state.
    pub fn state(&self) -> &NodeState
        ensures { result.now ≡ self.now.state }
    {
        self.cross.state()
    }

    /// Returns the word sent on a side in the last round. Before the first round it is the idle word to the neighbour,
    /// without a request.
    pub fn sent_k(&self, side: Side) -> K
        ensures word { result ≡ (sending_on side self.now).word }
        ensures to { result.to ≤ 15 }
        ensures from { result.from ≤ 15 }
    {
        match side {
            Side::West => self.west_out.word(),
            Side::East => self.east_out.word(),
        }
    }

    /// Returns the local request of a side in the last round, or `Nr` before the first.
    pub fn request(&self, side: Side) -> Code
        ensures { result ≡ (receiving_on side self.now).request }
    {
        self.cross.receiver(side).request()
    }

    /// Returns the identifier of the far end, 0 to 15, where the node switches one side and its switch has a far end.
    pub fn far_id(&self) -> Option<u8>
        ensures { result ≡ option_map (λ (p : Pos). get_or self.now.ids p.0 0) (far_of self.now.state) }
    {
        self.cross.far_id()
    }

    /// Returns the word heard on a side in the last round, if one was.
    pub fn heard(&self, side: Side) -> Option<K>
        ensures word { result ≡ hears (receiving_on side self.now).brought }
        ensures spellable { IfSome result IsSpellable }
    {
        self.cross.receiver(side).heard()
    }

    /// Returns whether the last round was calm. In a calm round the controller isn't held, and these stay as they were:
    /// the words sent and heard, the state with its far end, the local requests, and the pointer interpreters and
    /// generators. The first round isn't calm.
    pub fn calm(&self) -> bool
        ensures { result ≡ self.now.calm }
    {
        self.calm
    }

    /// Runs one round at a moment: it reads what arrived, decides the state and the words, delivers at the ports, and
    /// writes a frame for each side. It takes no memory.
    pub fn send(&mut self, now: Moment, west: &mut FrameBuf, east: &mut FrameBuf)
        requires west { west.old.rate ≡ self.old.settings.rate }
        requires east { east.old.rate ≡ self.old.settings.rate }
        requires later { moment_of self.old ≤ now.0 }
        requires within { now.0 ≤ 1000000000 }
        requires few { self.old.rounds < 2 ^ 32 }
        ensures node { self.new ≡ (node_round now.0 self.old).0 }
        ensures west { west.new ≡ (node_round now.0 self.old).1.west }
        ensures east { east.new ≡ (node_round now.0 self.old).1.east }
        ensures rates { (west.new.rate ≡ west.old.rate) × (east.new.rate ≡ east.old.rate) }
        ensures goes_on { GoesOn now.0 self.old self.new }
    {
        self.send_through(now, west, east, &mut InPlace);
    }

    /// Runs one round as `send` does. The frames are put together in `west` and `east`, and leave through `exit`.
    #[tactic(auto, unfolding(crate::specs::Node::node_round))]
    pub fn send_through<E: Exit>(
        &mut self,
        now: Moment,
        west: &mut FrameBuf,
        east: &mut FrameBuf,
        exit: &mut E,
    )
        requires west { west.old.rate ≡ self.old.settings.rate }
        requires east { east.old.rate ≡ self.old.settings.rate }
        requires later { moment_of self.old ≤ now.0 }
        requires within { now.0 ≤ 1000000000 }
        requires few { self.old.rounds < 2 ^ 32 }
        requires fits { E.Fits self.old.settings.rate exit.old }
        ensures node { self.new ≡ (node_round now.0 self.old).0 }
        ensures west { E.sent West exit.new west.new ≡ (node_round now.0 self.old).1.west }
        ensures east { E.sent East exit.new east.new ≡ (node_round now.0 self.old).1.east }
        ensures rates { (west.new.rate ≡ west.old.rate) × (east.new.rate ≡ east.old.rate) }
        ensures goes_on { GoesOn now.0 self.old self.new }
        ensures fits { E.Fits self.old.settings.rate exit.new }
    {
        let held = is_held(self.held);
        let counts = may_be_calm(self.rounds, held);
        let taken = self.cross.take(self.settings.threshold, now);
        let before = words_of(&self.west_out, &self.east_out);
        let (sent, decided) = self.cross.decide(held, before);
        let west_said = self.west_out.say(sent.west);
        let east_said = self.east_out.say(sent.east);
        self.ports.feed();
        self.rounds += 1;
        self.held = one_less(self.held);
        let (west_made, east_made) = send_both(
            &mut self.west_out,
            &mut self.east_out,
            &self.cross,
            &self.ports,
            west,
            east,
            exit,
        );
        let signs = Signs {
            counts,
            taken,
            decided,
            west_said,
            west_made,
            east_said,
            east_made,
        };
        let calm = is_calm(&signs);
        self.calm = calm;
        take_out::<S>(&self.cross, &self.ports, &mut self.taken, &mut self.outlets);
    }
}

impl Adm {
    /// Returns what a port of the node delivered in the last round, and AIS before the first.
    pub fn delivered(&self, port: PortId) -> &Delivered
        requires { HasPort self.now.ports port }
        ensures { result.now ≡ (outlet_of port self.now.ports).delivered }
    {
        self.outlet(port, &self.outlets).delivered()
    }

    /// Returns the pointer value of the interpreter through which a port's bytes came, and 0 where the port delivers
    /// AIS.
    pub fn value(&self, port: PortId) -> u16
        requires { HasPort self.now.ports port }
        ensures value { result ≡ (outlet_of port self.now.ports).value }
        ensures small { result ≤ 782 }
    {
        self.outlet(port, &self.outlets).value()
    }
}
