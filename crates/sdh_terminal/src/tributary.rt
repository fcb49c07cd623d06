//! The ports of circuits at a node.
ghost use Rattle.std.specs.Prelude.{◌≡◌, ◌+◌, ◌-◌, ◌*◌, ◌^◌, ◌<◌, ◌≤◌, [], ◌∷◌, ◌++◌, if◌then◌else◌, All, IfOk, OnOk, IfSome, length};
ghost use Rattle.std.specs.Prelude.{position};
ghost use Rattle.sdh_circuits.specs.Provisioned.{customer_at};
ghost use Rattle.sdh_payload.specs.Stream.{stream_from};
ghost use Rattle.sdh_payload.specs.Outlet.{front_of};
ghost use Rattle.sdh_payload.specs.Clock.{waiting};
ghost use Rattle.sdh_terminal.specs.Tributaries.{new_tributary, tributaries_of, tributaries_at, is_port, sent_by, action_of, slipped, fed};
ghost use Rattle.sdh_terminal.specs.Tributaries.{all_fed, all_delivered_with, outlets_of, IsTributary};
ghost use Rattle.sdh_ringmap.specs.Rates.{n_of};
ghost use Rattle.sdh_terminal.specs.Lines.{dropped_by, AreOf};
ghost use Rattle.sdh_terminal.specs.Outlets.{delivered_from};

use crate::matrix::Matrix;
use crate::outlet::{Outlet, TakenPair, deliver_dropped, front_dropped};
use sdh_circuits::{Circuit, CircuitMap, End, PortId, Slot, same_end};
use sdh_payload::{Cells, ChunkForm, Feed, Front, Port, Turn, lay_chunk_in_place};
use sdh_pointer::Action;
use sdh_ringmap::{Pos, Side};
use std::alloc::{AllocError, Global};
use std::marker::Model;

/// A port of a circuit at the node, and what it sends. What it delivers waits in the frames that the node received, and
/// is not stored here: in contracts the port delivers AIS.
#[derive(Debug, Drop)]
pub struct Tributary {
    port: PortId,
    side: Side,
    slot: Slot,
    feed: Feed,
    // The payload of its AU-4 in the last round, and the three H3 bytes.
    payload: Cells,
    h3: [u8; 3],
}

impl Model for Tributary {
    ghost use Rattle.sdh_payload.specs.Outlet.{silent};
    ghost use Rattle.sdh_terminal.specs.Tributaries.{Tributary, IsFed};

    ghost Value = { Tributary };

    ghost view = { λ t. record { port = t.port; side = t.side; slot = t.slot; feed = t.feed; outlet = silent } };

    ghost invariant = { λ t. IsFed t.feed t.payload t.h3 };
}

// Returns the bytes that a port sends in its first round, in which no slip is used up. A new port keeps them in place
// of the bytes of a last round: `sent_by` of a port that has sent nothing is these bytes too.
fn first_payload(alloc: Global, port: &Port) -> Result<Cells, AllocError>
    ensures bytes { IfOk result (λ cells. cells ≡ stream_from port.now 0 2349) }
    ensures full { IfOk result (λ cells. length cells ≡ 2349) }
{
    let mut cells = Cells::try_new(alloc)?;
    let mut feed = Feed::new(port);
    feed.next(&mut cells);
    Ok(cells)
}

impl Tributary {
    /// Returns a port that hasn't sent or delivered anything. All its memory is taken here.
    #[tactic(auto, unfolding(crate::specs::Tributaries::sent_by))]
    pub fn try_new(
        alloc: Global,
        port: PortId,
        side: Side,
        slot: Slot,
        customer: &Port,
    ) -> Result<Tributary, AllocError>
        ensures { IfOk result (λ t. t ≡ new_tributary port.circuit port.end side slot customer.now) }
    {
        Ok(Tributary {
            port,
            side,
            slot,
            feed: Feed::new(customer),
            payload: first_payload(alloc, customer)?,
            h3: [0, 0, 0],
        })
    }

    // Returns whether the port has this name.
    fn is(&self, id: PortId) -> bool
        ensures { result ≡ is_port id self.now }
    {
        self.port.circuit == id.circuit && same_end(self.port.end, id.end)
    }

    /// Takes the next bytes of the port's stream.
    pub fn feed(&mut self)
        requires { self.old.feed.clock.rounds < 2 ^ 32 }
        ensures { self.new ≡ fed self.old }
    {
        let form = self.feed.next_form(&mut self.payload);
        self.h3 = lay_chunk_in_place(form, &mut self.payload);
    }

    /// Adds `count` pending slips to the clock of the port's customer. At most 16 may wait.
    pub fn slip(&mut self, turn: Turn, count: u8)
        requires { waiting self.old.feed.clock + count ≤ 16 }
        ensures { self.new ≡ slipped turn count self.old }
    {
        self.feed.wait(turn, count);
    }

    /// Returns the number of slips that wait, 0 to 16.
    pub fn waiting(&self) -> u8
        ensures waiting { result ≡ waiting self.now.feed.clock }
        ensures few { result ≤ 16 }
    {
        self.feed.waiting()
    }

    /// Returns the action that the port asks of its pointer generator in the round.
    #[tactic(auto, unfolding(crate::specs::Tributaries::sent_by))]
    pub fn action(&self) -> Action
        ensures { result ≡ (sent_by self.now.feed).action }
    {
        action_of(self.feed.form())
    }

    /// Returns the pointer value after the action of the round, 0 to 782.
    #[tactic(auto, unfolding(crate::specs::Tributaries::sent_by))]
    pub fn value(&self) -> u16
        ensures value { result ≡ (sent_by self.now.feed).value }
        ensures small { result ≤ 782 }
    {
        self.feed.value()
    }

    /// Returns the payload of the port's AU-4, 2349 bytes.
    pub fn payload(&self) -> &[u8]
        ensures bytes { result.now ≡ (sent_by self.now.feed).payload }
        ensures full { length result.now ≡ 2349 }
    {
        self.payload.as_slice()
    }

    /// Returns the three H3 bytes of the port's AU-4.
    pub fn h3(&self) -> [u8; 3]
        ensures { result ≡ (sent_by self.now.feed).h3 }
    {
        self.h3
    }

    /// Delivers what is dropped to the port. `taken` has the payloads that were already taken out of the frames of both
    /// sides.
    pub fn deliver<X: Matrix>(&self, cross: &X, taken: &mut TakenPair, outlet: &mut Outlet)
        requires first { 1 ≤ self.now.slot.0 }
        requires last { 2 * self.now.slot.0 ≤ n_of (X.lines cross.now).rate }
        requires taken { AreOf (X.lines cross.now) taken.old.west taken.old.east }
        ensures taken { AreOf (X.lines cross.now) taken.new.west taken.new.east }
        ensures outlet { outlet.new ≡ delivered_from
            (dropped_by (X.lines cross.now) (X.drops cross.now self.now.side self.now.slot.0)) }
    {
        let feeder = cross.dropped(self.side, self.slot);
        deliver_dropped(cross, feeder, taken, outlet);
    }

    /// Returns the front of what is dropped to the port.
    pub fn front<X: Matrix>(&self, cross: &X) -> Front
        requires first { 1 ≤ self.now.slot.0 }
        requires last { 2 * self.now.slot.0 ≤ n_of (X.lines cross.now).rate }
        ensures { result ≡ front_of (delivered_from
            (dropped_by (X.lines cross.now) (X.drops cross.now self.now.side self.now.slot.0))) }
    {
        let feeder = cross.dropped(self.side, self.slot);
        front_dropped(cross, feeder)
    }
}

// Returns the action that a port asks of its pointer generator: a port that sends three bytes fewer or more justifies
// its pointer.
fn action_of(form: ChunkForm) -> Action
    ensures { result ≡ action_of form }
{
    match form {
        ChunkForm::Plain => Action::Normal,
        ChunkForm::Short => Action::Up,
        ChunkForm::Long => Action::Down,
    }
}

/// Returns the place of a port among those of a node, or `None` where it isn't one of them.
pub fn place_of(ports: &[Tributary], id: PortId) -> Option<usize>
    ensures place { result ≡ position (is_port id) ports.now }
    ensures within { IfSome result (λ i. i < length ports.now) }
{
    ports.iter().position(|port| port.is(id))
}

/// Takes the next bytes of each port's stream.
pub fn feed_all(ports: &mut Vec<Tributary>)
    requires { All (λ t. t.feed.clock.rounds < 2 ^ 32) ports.old.items }
    ensures { ports.new.items ≡ all_fed ports.old.items }
{
    for i in 0..ports.len() {
        let port = &mut ports[i];
        port.feed();
    }
}

/// Delivers at each port what is dropped to it.
pub fn deliver_all<X: Matrix>(
    cross: &X,
    ports: &[Tributary],
    taken: &mut TakenPair,
    outlets: &mut Vec<Outlet>,
)
    requires ports { All (λ t. (1 ≤ t.slot.0) × (2 * t.slot.0 ≤ n_of (X.lines cross.now).rate)) ports.now }
    requires taken { AreOf (X.lines cross.now) taken.old.west taken.old.east }
    requires many { length outlets.old.items ≡ length ports.now }
    ensures { outlets.new.items ≡ outlets_of
        (all_delivered_with (λ t. dropped_by (X.lines cross.now) (X.drops cross.now t.side t.slot.0)) ports.now) }
{
    for i in 0..ports.len() {
        let outlet = &mut outlets[i];
        ports[i].deliver(cross, taken, outlet);
    }
}

// Adds a port, if it is at the node.
fn add_end(
    alloc: Global,
    ports: &mut Vec<Tributary>,
    is_here: bool,
    port: PortId,
    side: Side,
    circuit: &Circuit,
) -> Result<(), AllocError>
    ensures { OnOk result (ports.new.items ≡ ports.old.items
        ++ (if is_here then new_tributary port.circuit port.end side circuit.now.slot (customer_at circuit.now port.end) ∷ [] else [])) }
{
    if is_here {
        let customer = circuit.port(port.end);
        ports.push(Tributary::try_new(alloc, port, side, circuit.slot(), customer)?)?;
    }
    Ok(())
}

// Adds the ports of a circuit that are at a position.
#[tactic(auto, using(std::proofs::Common::append_assoc))]
fn add_ends(
    alloc: Global,
    ports: &mut Vec<Tributary>,
    at: Pos,
    number: u8,
    circuit: &Circuit,
) -> Result<(), AllocError>
    ensures { OnOk result (ports.new.items ≡ ports.old.items ++ tributaries_of at number circuit.now) }
{
    let start = PortId {
        circuit: number,
        end: End::A,
    };
    let stop = PortId {
        circuit: number,
        end: End::B,
    };
    add_end(
        alloc,
        ports,
        circuit.from().0 == at.0,
        start,
        Side::East,
        circuit,
    )?;
    add_end(
        alloc,
        ports,
        circuit.to().0 == at.0,
        stop,
        Side::West,
        circuit,
    )
}

/// Returns the ports of a ring's circuits that are at a position. All their memory is taken here.
pub fn tributaries_at(
    alloc: Global,
    circuits: &CircuitMap,
    at: Pos,
) -> Result<Vec<Tributary>, AllocError>
    ensures ports { IfOk result (λ v. v.items ≡ tributaries_at at circuits.now.circuits) }
    ensures slots { IfOk result (λ v. All (IsTributary circuits.now.slots 0) v.items) }
{
    let mut ports = Vec::new(alloc);
    for i in 0..circuits.len() {
        let circuit = circuits.get(i as u8);
        add_ends(alloc, &mut ports, at, i as u8, circuit)?;
    }
    Ok(ports)
}
