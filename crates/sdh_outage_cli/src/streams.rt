//! The bytes of all customers of a ring that can be on their way.
ghost use Rattle.std.specs.Prelude.{◌≡◌, ℕ, ◌+◌, ◌<◌, ◌≤◌, ◌^◌, ◌==◌, if◌then◌else◌, List, None, Some, length, slice_get, IfOk};
ghost use Rattle.sdh_circuits.specs.Provisioned.{Provisioned};
ghost use Rattle.sdh_outage.specs.Kinds.{own_kind};
ghost use Rattle.sdh_outage.specs.Near.{near};
ghost use Rattle.sdh_outage_cli.specs.Streams.{end_held, holder_from, holder_of, IsNear, AreNear, AreEarly, far_bytes, HaveStepped};
ghost use Rattle.sdh_outage_cli.specs.declared.streams.StreamPair.{StreamPair};

use sdh_circuits::{Circuit, CircuitMap, End, PortId};
use sdh_outage::{Kind, Listener, Scratch, Window};
use sdh_payload::Delivered;
use std::alloc::{AllocError, Global};

/// The bytes of both customers of a circuit that can be on their way.
#[derive(Drop)]
pub struct StreamPair {
    pub a: Window,
    pub b: Window,
}

impl StreamPair {
    /// Returns the kind of a round for the port at an end, by its own customer's bytes. Returns `None` where the port
    /// delivered neither AIS, nor ones, nor any of these bytes. The listener keeps what was delivered.
    pub fn own_kind(
        &mut self,
        scratch: &mut Scratch,
        end: End,
        listener: &mut Listener,
        now: &Delivered,
    ) -> Option<Kind>
        requires { (self.old.a.round ≤ 2 ^ 31 + 65536) × (self.old.b.round ≤ 2 ^ 31 + 65536) }
        ensures kind { result ≡ own_kind (near (far_bytes self.old end).port (far_bytes self.old end).round) listener.old.last now.now }
        ensures same { self.new ≡ self.old }
        ensures listener { listener.new ≡ record listener.old { last = now.now } }
    {
        match end {
            End::A => listener.own_kind(&mut self.b, scratch, now),
            End::B => listener.own_kind(&mut self.a, scratch, now),
        }
    }

    // Returns the end whose port sends what a chunk holds, if there is one.
    fn end_held(&self, scratch: &mut Scratch, chunk: &[u8]) -> Option<End>
        requires { (self.now.a.round ≤ 2 ^ 31 + 65536) × (self.now.b.round ≤ 2 ^ 31 + 65536) }
        ensures { (c : Provisioned) (round : ℕ) → IsNear c round self.now → result ≡ end_held c round chunk.now }
    {
        if self.a.holds(scratch, chunk) {
            return Some(End::A);
        }
        if self.b.holds(scratch, chunk) {
            return Some(End::B);
        }
        None
    }

    // Moves to the bytes that are near in the next round.
    fn step(&mut self)
        requires { (self.old.a.round + 8 ≤ 2 ^ 32) × (self.old.b.round + 8 ≤ 2 ^ 32) }
        ensures { HaveStepped self.old self.new }
    {
        self.a.step();
        self.b.step();
    }
}

/// The bytes of both customers of each circuit, in the order of the circuits, and a scratch to look at them.
#[derive(Drop)]
pub struct Streams {
    pub pairs: Vec<StreamPair>,
    pub scratch: Scratch,
}

// Returns the bytes of both customers of a circuit that are near in round 0.
fn pair_for(alloc: Global, circuit: &Circuit) -> Result<StreamPair, AllocError>
    ensures { IfOk result (λ pair. IsNear circuit.now 0 pair) }
{
    Ok(StreamPair {
        a: Window::try_new(alloc, circuit.port(End::A))?,
        b: Window::try_new(alloc, circuit.port(End::B))?,
    })
}

/// Returns the bytes of the customers of all circuits that are near in round 0. All memory is taken here.
pub fn new_streams(alloc: Global, circuits: &CircuitMap) -> Result<Streams, AllocError>
    ensures { IfOk result (λ streams. AreNear circuits.now.circuits 0 streams.pairs.items) }
{
    let count = circuits.len();
    let mut pairs = Vec::with_capacity(alloc, count)?;
    for i in 0..count {
        pairs.push(pair_for(alloc, circuits.get(i as u8))?)?;
    }
    let scratch = Scratch::try_new(alloc)?;
    Ok(Streams { pairs, scratch })
}

/// Moves to the bytes of all customers that are near in the next round.
pub fn step_all(streams: &mut Streams)
    requires { AreEarly streams.old.pairs.items }
    ensures many { length streams.new.pairs.items ≡ length streams.old.pairs.items }
    ensures each { (i : ℕ) (before after : StreamPair) → slice_get streams.old.pairs.items i ≡ Some before → slice_get streams.new.pairs.items i ≡ Some after
        → HaveStepped before after }
{
    for i in 0..streams.pairs.len() {
        streams.pairs[i].step();
    }
}

// Returns the end of a circuit whose port sends what a chunk holds, if there is one and the circuit isn't this one.
fn end_of_other(streams: &mut Streams, i: usize, own: u8, chunk: &[u8]) -> Option<End>
    requires index { i < length streams.old.pairs.items }
    requires early { AreEarly streams.old.pairs.items }
    ensures held { (circuits : List Provisioned) (c : Provisioned) (round : ℕ) → AreNear circuits round streams.old.pairs.items
        → slice_get circuits i ≡ Some c → result ≡ (if i == own then None else end_held c round chunk.now) }
    ensures same { streams.new.pairs.items ≡ streams.old.pairs.items }
{
    if i == usize::from(own) {
        return None;
    }
    streams.pairs[i].end_held(&mut streams.scratch, chunk)
}

// Returns the first port of another circuit than this one that sends what a chunk holds.
fn chunk_holder(
    circuits: &CircuitMap,
    streams: &mut Streams,
    own: u8,
    chunk: &[u8],
) -> Option<PortId>
    requires many { length streams.old.pairs.items ≡ length circuits.now.circuits }
    requires early { AreEarly streams.old.pairs.items }
    ensures holder { (circuits : List Provisioned) (round : ℕ) → AreNear circuits round streams.old.pairs.items
        → result ≡ holder_from own 0 circuits round chunk.now }
    ensures same { streams.new.pairs.items ≡ streams.old.pairs.items }
{
    for i in 0..circuits.len() {
        if let Some(end) = end_of_other(streams, i, own, chunk) {
            return Some(PortId {
                circuit: i as u8,
                end,
            });
        }
    }
    None
}

/// Returns the first port of another circuit than this one that sends what was delivered.
pub fn holder(
    circuits: &CircuitMap,
    streams: &mut Streams,
    own: u8,
    now: &Delivered,
) -> Option<PortId>
    requires many { length streams.old.pairs.items ≡ length circuits.now.circuits }
    requires early { AreEarly streams.old.pairs.items }
    ensures holder { (circuits : List Provisioned) (round : ℕ) → AreNear circuits round streams.old.pairs.items
        → result ≡ holder_of circuits own round now.now }
    ensures same { streams.new.pairs.items ≡ streams.old.pairs.items }
{
    match now {
        Delivered::Ais => None,
        Delivered::Chunk(chunk) => chunk_holder(circuits, streams, own, chunk.as_slice()),
    }
}
