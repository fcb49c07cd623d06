//! The listeners on all ports.
ghost use Rattle.std.specs.Prelude.{◌≡◌, ℕ, ◌+◌, ◌<◌, ◌≤◌, ◌^◌, List, [], Some, length, slice_get, IfOk};
ghost use Rattle.sdh_circuits.specs.Provisioned.{Provisioned, customer_at};
ghost use Rattle.sdh_circuits.specs.Ends.{other_end};
ghost use Rattle.sdh_payload.specs.Customer.{Customer};
ghost use Rattle.sdh_outage.specs.Kinds.{Whose, kind_of};
ghost use Rattle.sdh_outage.specs.Kept.{heard};
ghost use Rattle.sdh_outage_cli.specs.Outages.{delivered_at};
ghost use Rattle.sdh_terminal.specs.Tributaries.{outlets_of};
ghost use Rattle.sdh_node.specs.Rings.Held.{node_at, place_of_port};
ghost use Rattle.sdh_outage_cli.specs.Ports.{AreAt, AreFew, HaveBegun, Listens, ListenersLooked, listener_at};
ghost use Rattle.sdh_outage_cli.specs.Ports.{ListensTo, HeardAt, LookedAt, AreFewAt, ports_by_node};
ghost use Rattle.sdh_outage_cli.specs.Streams.{holder_of, AreNear, AreEarly};
ghost use Rattle.sdh_outage_cli.specs.declared.ports.ListenerPair.{ListenerPair};

use crate::rooms::DeliveryRooms;
use crate::streams::{Streams, holder};
use sdh_circuits::{CircuitMap, End, PortId};
use sdh_outage::{Kind, Listener, kind_of_others};
use sdh_payload::Delivered;
use sdh_ring::{Ring, Running};
use sdh_ringmap::Pos;
use sdh_rounds::RunsRounds;
use sdh_terminal::Outlets;
use std::alloc::{AllocError, Global};

/// The listeners on both ports of a circuit.
#[derive(Drop)]
pub struct ListenerPair {
    pub a: Listener,
    pub b: Listener,
}

impl ListenerPair {
    /// Returns the listener on the port at an end.
    pub fn at(&self, end: End) -> &Listener
        ensures { result.now ≡ listener_at self.now end }
    {
        match end {
            End::A => &self.a,
            End::B => &self.b,
        }
    }
}

// Returns listeners on both ports of a circuit, before any round.
fn new_both(alloc: Global) -> Result<ListenerPair, AllocError>
    ensures { IfOk result (λ both. (both.a.round ≡ 0) × (both.b.round ≡ 0)) }
{
    Ok(ListenerPair {
        a: Listener::try_new(alloc)?,
        b: Listener::try_new(alloc)?,
    })
}

/// Returns listeners on all ports, before any round. All memory is taken here.
pub fn new_listeners(alloc: Global, circuits: &CircuitMap) -> Result<Vec<ListenerPair>, AllocError>
    ensures many { IfOk result (λ items. length items.items ≡ length circuits.now.circuits) }
    ensures rounds { IfOk result (λ items. AreAt 0 items.items) }
{
    let count = circuits.len();
    let mut items = Vec::with_capacity(alloc, count)?;
    for _ in 0..count {
        items.push(new_both(alloc)?)?;
    }
    Ok(items)
}

// Lets the listener on a port begin anew after the last round.
fn begin(listener: &mut Listener, ring: &Ring, port: PortId)
    requires { port.circuit < length ring.now.circuits.circuits }
    ensures { (far : Customer) (whose : Whose) → listener.new ≡ heard far whose listener.old.round (delivered_at ring.now port) [] }
{
    listener.begin(ring.port(port));
}

// Lets the listeners on both ports of a circuit begin anew after the last round.
fn begin_both(both: &mut ListenerPair, ring: &Ring, circuit: u8)
    requires { circuit < length ring.now.circuits.circuits }
    ensures { HaveBegun ring.now circuit both.old both.new }
{
    begin(
        &mut both.a,
        ring,
        PortId {
            circuit,
            end: End::A,
        },
    );
    begin(
        &mut both.b,
        ring,
        PortId {
            circuit,
            end: End::B,
        },
    );
}

/// Lets all listeners begin anew after the last round.
pub fn begin_all(ring: &Ring, items: &mut Vec<ListenerPair>)
    requires { length items.old.items ≡ length ring.now.circuits.circuits }
    ensures many { length items.new.items ≡ length items.old.items }
    ensures each { (i : ℕ) (before after : ListenerPair) → slice_get items.old.items i ≡ Some before → slice_get items.new.items i ≡ Some after
        → HaveBegun ring.now i before after }
{
    for i in 0..ring.circuits().len() {
        begin_both(&mut items[i], ring, i as u8);
    }
}

// Returns the kind of a round that delivers `now` at a port. The port's listener keeps `now`.
fn kind_at(
    listener: &mut Listener,
    circuits: &CircuitMap,
    streams: &mut Streams,
    port: PortId,
    now: &Delivered,
) -> Kind
    requires port { port.circuit < length circuits.now.circuits }
    requires many { length streams.old.pairs.items ≡ length circuits.now.circuits }
    requires early { AreEarly streams.old.pairs.items }
    ensures kind { (circuits : List Provisioned) (c : Provisioned) → AreNear circuits listener.old.round streams.old.pairs.items
        → slice_get circuits port.circuit ≡ Some c
        → result ≡ kind_of (customer_at c (other_end port.end)) (holder_of circuits port.circuit) listener.old.round listener.old.last now.now }
    ensures last { listener.new ≡ record listener.old { last = now.now } }
    ensures streams { streams.new.pairs.items ≡ streams.old.pairs.items }
{
    let own = streams.pairs[port.circuit as usize].own_kind(
        &mut streams.scratch,
        port.end,
        listener,
        now,
    );
    match own {
        Some(kind) => kind,
        None => kind_of_others(holder(circuits, streams, port.circuit, now)),
    }
}

// Lets the listener on a port hear of a round that delivers `now` there.
fn look(
    listener: &mut Listener,
    circuits: &CircuitMap,
    streams: &mut Streams,
    port: PortId,
    now: &Delivered,
)
    requires port { port.circuit < length circuits.now.circuits }
    requires many { length streams.old.pairs.items ≡ length circuits.now.circuits }
    requires early { AreEarly streams.old.pairs.items }
    requires few { listener.old.round ≤ 2 ^ 31 + 65536 }
    ensures hears { ListensTo now.now port streams.old.pairs.items listener.old listener.new }
    ensures streams { streams.new.pairs.items ≡ streams.old.pairs.items }
{
    let kind = kind_at(listener, circuits, streams, port, now);
    listener.hear(kind);
}

/// A node of a ring, and what its ports delivered in the last round.
#[derive(Drop)]
pub struct NodePorts<'a> {
    pub ring: &'a Running,
    pub at: Pos,
    pub outlets: &'a Outlets,
}

// Lets the listener on a port of this node hear what the port delivered in the last round.
#[inline(never)]
fn look_here(listener: &mut Listener, node: &NodePorts<'_>, streams: &mut Streams, port: PortId)
    requires port { port.circuit < length node.now.ring.now.circuits.circuits }
    requires here { place_of_port node.now.ring.now port ≡ node.now.at.0 }
    requires many { length streams.old.pairs.items ≡ length node.now.ring.now.circuits.circuits }
    requires early { AreEarly streams.old.pairs.items }
    requires outlets { node.now.outlets.now ≡ outlets_of (node_at node.now.ring.now.nodes node.now.at.0).ports }
    requires few { listener.old.round ≤ 2 ^ 31 + 65536 }
    ensures hears { Listens node.now.ring.now port streams.old.pairs.items listener.old listener.new }
    ensures streams { streams.new.pairs.items ≡ streams.old.pairs.items }
{
    let place = node.ring.place_of(port);
    let there = &node.ring.nodes()[place];
    let now = there.outlet(port, node.outlets).delivered();
    let circuits = node.ring.stations().circuits();
    look(listener, circuits, streams, port, now);
}

// Lets the listener on a port hear what the port delivered in the last round, where it is at this node. It is inlined
// since it is called for each port at each node, and most ports aren't there.
#[inline(always)]
fn look_at(listener: &mut Listener, node: &NodePorts<'_>, streams: &mut Streams, port: PortId)
    requires port { port.circuit < length node.now.ring.now.circuits.circuits }
    requires many { length streams.old.pairs.items ≡ length node.now.ring.now.circuits.circuits }
    requires early { AreEarly streams.old.pairs.items }
    requires outlets { node.now.outlets.now ≡ outlets_of (node_at node.now.ring.now.nodes node.now.at.0).ports }
    requires few { place_of_port node.now.ring.now port ≡ node.now.at.0 → listener.old.round ≤ 2 ^ 31 + 65536 }
    ensures hears { HeardAt node.now.ring.now node.now.at.0 port streams.old.pairs.items listener.old listener.new }
    ensures streams { streams.new.pairs.items ≡ streams.old.pairs.items }
{
    if node.ring.place_of(port) == usize::from(node.at.0) {
        look_here(listener, node, streams, port);
    }
}

// Lets the listeners on both ports of a circuit hear what the ports delivered in the last round, where they are at this
// node.
#[inline(always)]
fn look_both(both: &mut ListenerPair, node: &NodePorts<'_>, streams: &mut Streams, circuit: u8)
    requires port { circuit < length node.now.ring.now.circuits.circuits }
    requires many { length streams.old.pairs.items ≡ length node.now.ring.now.circuits.circuits }
    requires early { AreEarly streams.old.pairs.items }
    requires outlets { node.now.outlets.now ≡ outlets_of (node_at node.now.ring.now.nodes node.now.at.0).ports }
    requires few { AreFewAt node.now.ring.now node.now.at.0 circuit both.old }
    ensures looked { LookedAt node.now.ring.now node.now.at.0 streams.old.pairs.items circuit both.old both.new }
    ensures streams { streams.new.pairs.items ≡ streams.old.pairs.items }
{
    look_at(
        &mut both.a,
        node,
        streams,
        PortId {
            circuit,
            end: End::A,
        },
    );
    look_at(
        &mut both.b,
        node,
        streams,
        PortId {
            circuit,
            end: End::B,
        },
    );
}

// Lets the listeners on the ports of a node hear what these delivered in the last round.
fn look_node(items: &mut Vec<ListenerPair>, node: &NodePorts<'_>, streams: &mut Streams)
    requires many { length items.old.items ≡ length node.now.ring.now.circuits.circuits }
    requires streams { length streams.old.pairs.items ≡ length node.now.ring.now.circuits.circuits }
    requires early { AreEarly streams.old.pairs.items }
    requires outlets { node.now.outlets.now ≡ outlets_of (node_at node.now.ring.now.nodes node.now.at.0).ports }
    requires few { (i : ℕ) (both : ListenerPair) → slice_get items.old.items i ≡ Some both → AreFewAt node.now.ring.now node.now.at.0 i both }
    ensures many { length items.new.items ≡ length items.old.items }
    ensures each { (i : ℕ) (before after : ListenerPair) → slice_get items.old.items i ≡ Some before → slice_get items.new.items i ≡ Some after
        → LookedAt node.now.ring.now node.now.at.0 streams.old.pairs.items i before after }
    ensures streams { streams.new.pairs.items ≡ streams.old.pairs.items }
{
    for i in 0..node.ring.stations().circuits().len() {
        look_both(&mut items[i], node, streams, i as u8);
    }
}

// Lets the listeners on the ports of the node at a position hear what these delivered in the last round.
fn look_there(
    ring: &Running,
    at: Pos,
    items: &mut Vec<ListenerPair>,
    streams: &mut Streams,
    rooms: &mut DeliveryRooms,
)
    requires at { at.0 < length ring.now.ids }
    requires rooms { rooms.old.counts ≡ ports_by_node ring.now }
    requires many { length items.old.items ≡ length ring.now.circuits.circuits }
    requires streams { length streams.old.pairs.items ≡ length ring.now.circuits.circuits }
    requires early { AreEarly streams.old.pairs.items }
    requires few { (i : ℕ) (both : ListenerPair) → slice_get items.old.items i ≡ Some both → AreFewAt ring.now at.0 i both }
    ensures many { length items.new.items ≡ length items.old.items }
    ensures each { (i : ℕ) (before after : ListenerPair) → slice_get items.old.items i ≡ Some before → slice_get items.new.items i ≡ Some after
        → LookedAt ring.now at.0 streams.old.pairs.items i before after }
    ensures streams { streams.new.pairs.items ≡ streams.old.pairs.items }
    ensures rooms { rooms.new.counts ≡ rooms.old.counts }
{
    rooms.take(ring, at);
    let outlets = rooms.taken();
    look_node(items, &NodePorts { ring, at, outlets }, streams);
}

/// Lets all listeners hear what the ports delivered in the last round, where these bytes of all customers were near.
/// One node comes after the other, the last one first, since its frames were the last that the round went over.
pub fn look_all(
    ring: &Running,
    items: &mut Vec<ListenerPair>,
    streams: &mut Streams,
    rooms: &mut DeliveryRooms,
)
    requires many { length items.old.items ≡ length ring.now.circuits.circuits }
    requires streams { length streams.old.pairs.items ≡ length ring.now.circuits.circuits }
    requires early { AreEarly streams.old.pairs.items }
    requires few { AreFew (2 ^ 31 + 65536) items.old.items }
    requires rooms { rooms.old.counts ≡ ports_by_node ring.now }
    ensures many { length items.new.items ≡ length items.old.items }
    ensures each { (i : ℕ) (before after : ListenerPair) → slice_get items.old.items i ≡ Some before → slice_get items.new.items i ≡ Some after
        → ListenersLooked ring.now streams.old.pairs.items i before after }
    ensures streams { streams.new.pairs.items ≡ streams.old.pairs.items }
    ensures rooms { rooms.new.counts ≡ rooms.old.counts }
{
    ring.circuits_fit();
    let count = ring.map().len();
    for i in 0..count {
        let at = Pos((count - 1 - i) as u8);
        look_there(ring, at, items, streams, rooms);
    }
}
