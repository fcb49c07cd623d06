//! The ports at a node, each found by its circuit and its end.
ghost use Rattle.std.specs.Prelude.{◌≡◌, ◌+◌, ◌*◌, ◌/◌, ◌^◌, ◌<◌, ◌≤◌, IfOk, IfSome, IfNone, Some, None, All, length};
ghost use Rattle.std.specs.Prelude.{position};
ghost use Rattle.sdh_basics.specs.Cells.{cells};
ghost use Rattle.sdh_terminal.specs.Tributaries.{tributaries_at, is_port, port_of, HasPort, waiting_of, with_slips, all_fed};
ghost use Rattle.sdh_terminal.specs.Tributaries.{all_delivered_with, outlet_of, outlets_of, IsTributary};
ghost use Rattle.sdh_circuits.specs.Ends.{port_number};
ghost use Rattle.sdh_terminal.specs.Places.{port_numbered};
ghost use Rattle.sdh_ringmap.specs.Rates.{n_of};
ghost use Rattle.sdh_payload.specs.Outlet.{front_of};
ghost use Rattle.sdh_terminal.specs.Lines.{dropped_by};

use crate::matrix::Matrix;
use crate::outlet::{Outlets, TakenPair};
use crate::tributary::{Tributary, deliver_all, feed_all, place_of, tributaries_at};
use sdh_circuits::{CircuitMap, End, PortId};
use sdh_payload::{Front, Turn};
use sdh_ringmap::Pos;
use std::alloc::{AllocError, Global};
use std::marker::Model;

/// The ports of circuits at a node, in the order of circuits. Each one's place is found once, when the node is made.
/// What the ports deliver waits in the frames that the node received, and is not stored here: in contracts each of
/// these ports delivers AIS.
#[derive(Debug, Drop)]
pub struct Tributaries {
    items: Vec<Tributary>,
    // The places of the ports of circuit 0, of circuit 1 and so on, A before B.
    places: Vec<Option<usize>>,
}

impl Model for Tributaries {
    ghost use Rattle.std.specs.Prelude.{List};
    ghost use Rattle.sdh_terminal.specs.Tributaries.{Tributary};
    ghost use Rattle.sdh_terminal.specs.Places.{ArePlaces};

    ghost Value = { List Tributary };

    ghost view = { λ p. p.items.items };

    ghost invariant = { λ p. ArePlaces p.places.items p.items.items };
}

// Returns the number of a port among those of a ring's circuits: 2 c for end A of circuit c, and 2 c + 1 for end B.
fn number_of(id: PortId) -> usize
    ensures { result ≡ port_number id }
{
    let number = 2 * usize::from(id.circuit);
    match id.end {
        End::A => number,
        End::B => number + 1,
    }
}

// Returns the port of this number among those of a ring's circuits.
fn port_numbered(number: usize) -> PortId
    requires { number < 512 }
    ensures { result ≡ port_numbered number }
{
    PortId {
        circuit: (number / 2) as u8,
        end: if number % 2 == 0 { End::A } else { End::B },
    }
}

// Returns, for each of the first `count` ports of a ring's circuits, its place among `ports`, or `None` where it isn't
// one of them.
fn places_in(
    alloc: Global,
    ports: &[Tributary],
    count: usize,
) -> Result<Vec<Option<usize>>, AllocError>
    requires { count ≤ 512 }
    ensures { IfOk result (λ v. v.items ≡ cells (λ k. position (is_port (port_numbered k)) ports.now) count) }
{
    let mut places = Vec::with_capacity(alloc, count)?;
    for k in 0..count {
        places.push(place_of(ports, port_numbered(k)))?;
    }
    Ok(places)
}

impl Tributaries {
    /// Returns the ports of a ring's circuits that are at a position. All their memory is taken here.
    #[tactic(auto, using(crate::proofs::Places::new_places))]
    pub fn try_new(alloc: Global, circuits: &CircuitMap, at: Pos) -> Result<Tributaries, AllocError>
        ensures ports { IfOk result (λ ports. ports ≡ tributaries_at at circuits.now.circuits) }
        ensures slots { IfOk result (λ ports. All (IsTributary circuits.now.slots 0) ports) }
    {
        let items = tributaries_at(alloc, circuits, at)?;
        let places = places_in(alloc, &items, 2 * circuits.len())?;
        Ok(Tributaries { items, places })
    }

    /// Returns room for what each port delivers. All its memory is taken here.
    pub fn outlets(&self, alloc: Global) -> Result<Outlets, AllocError>
        ensures { IfOk result (λ outlets. length outlets ≡ length self.now) }
    {
        Outlets::try_new(alloc, self.items.len())
    }

    #[tactic(auto, using(crate::proofs::Ports::port_missing))]
    fn place(&self, id: PortId) -> Option<usize>
        ensures place { result ≡ position (is_port id) self.now }
        ensures missing { IfNone result (port_of id self.now ≡ None) }
    {
        match self.places.get(number_of(id)) {
            Some(place) => *place,
            None => None,
        }
    }

    /// Returns the port with this name, if it is at the node.
    #[tactic(auto, using(crate::proofs::Ports::port_found, crate::proofs::Ports::place_within))]
    pub fn find(&self, id: PortId) -> Option<&Tributary>
        ensures found { IfSome result (λ port. port_of id self.now ≡ Some port.now) }
        ensures missing { IfNone result (port_of id self.now ≡ None) }
    {
        match self.place(id) {
            Some(i) => {
                let port = &self.items[i];
                Some(port)
            }
            None => None,
        }
    }

    /// Returns the place of a port among those of the node, counted from 0.
    #[tactic(auto, using(crate::proofs::Ports::place_within))]
    pub fn place_of(&self, id: PortId) -> usize
        requires { HasPort self.now id }
        ensures place { position (is_port id) self.now ≡ Some result }
        ensures within { result < length self.now }
    {
        let Some(i) = self.place(id) else {
            unreachable!()
        };
        i
    }

    /// Returns the number of slips that wait at a port, 0 to 16.
    pub fn waiting(&self, id: PortId) -> u8
        requires { HasPort self.now id }
        ensures waiting { result ≡ waiting_of id self.now }
        ensures few { result ≤ 16 }
    {
        let Some(port) = self.find(id) else {
            unreachable!()
        };
        port.waiting()
    }

    /// Adds `count` pending slips at a port. At most 16 may wait.
    #[tactic(auto, using(crate::proofs::Slips::slips_stay, crate::proofs::Slips::slips_placed, crate::proofs::Slips::waiting_here, crate::proofs::Ports::place_within))]
    pub fn slip(&mut self, id: PortId, turn: Turn, count: u8)
        requires there { HasPort self.old id }
        requires few { waiting_of id self.old + count ≤ 16 }
        ensures { self.new ≡ with_slips id turn count self.old }
    {
        let Some(i) = self.place(id) else {
            unreachable!()
        };
        let port = &mut self.items[i];
        port.slip(turn, count);
    }

    /// Takes the next bytes of each port's stream.
    #[tactic(auto, using(crate::proofs::Places::fed_stay))]
    pub fn feed(&mut self)
        requires { All (λ t. t.feed.clock.rounds < 2 ^ 32) self.old }
        ensures { self.new ≡ all_fed self.old }
    {
        feed_all(&mut self.items);
    }

    /// Delivers at each port what is dropped to it. `outlets` has room for each port.
    pub fn deliver<X: Matrix>(&self, cross: &X, taken: &mut TakenPair, outlets: &mut Outlets)
        requires ports { All (λ t. (1 ≤ t.slot.0) × (2 * t.slot.0 ≤ n_of (X.lines cross.now).rate)) self.now }
        requires many { length outlets.old ≡ length self.now }
        ensures { outlets.new ≡ outlets_of
            (all_delivered_with (λ t. dropped_by (X.lines cross.now) (X.drops cross.now t.side t.slot.0)) self.now) }
    {
        taken.begin(cross);
        deliver_all(cross, &self.items, taken, &mut outlets.items);
    }

    /// Returns the front of what is dropped to a port.
    pub fn front<X: Matrix>(&self, cross: &X, id: PortId) -> Front
        requires there { HasPort self.now id }
        requires ports { All (λ t. (1 ≤ t.slot.0) × (2 * t.slot.0 ≤ n_of (X.lines cross.now).rate)) self.now }
        ensures { result ≡ front_of (outlet_of id
            (all_delivered_with (λ t. dropped_by (X.lines cross.now) (X.drops cross.now t.side t.slot.0)) self.now)) }
    {
        let Some(port) = self.find(id) else {
            unreachable!()
        };
        port.front(cross)
    }
}
