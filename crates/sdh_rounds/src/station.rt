//! What a round asks of a node.
ghost use Rattle.std.specs.Prelude.{◌≡◌, ◌≢◌, ℕ, ◌/◌, ◌<◌, None, IfOk, length};
ghost use Rattle.sdh_ringmap.specs.declared.terms.Rate.{Rate};
ghost use Rattle.sdh_ringmap.specs.Rates.{n_of};
ghost use Rattle.sdh_circuits.specs.Kept.{KeepsRing};
ghost use Rattle.sdh_ringmap.specs.declared.Side.{Side};
ghost use Rattle.sdh_ringmap.specs.declared.Side.TheVariants.{West, East};
ghost use Rattle.sdh_plant.specs.Fibres.{Arrival};
ghost use Rattle.sdh_plant.specs.Arrivals.{arrived_in};
ghost use Rattle.sdh_rounds.specs.Stations.{Station as Kind};
ghost use Rattle.sdh_rounds.specs.Quiet.{is_calm};

use sdh_circuits::CircuitMap;
use sdh_frame::FrameBuf;
use sdh_overhead::Landed;
use sdh_plant::Arrived;
use sdh_request::{Moment, Settings};
use sdh_ringmap::{Pos, RingMap, Side};
use std::alloc::{AllocError, Global};

/// A node that runs in rounds: it takes in what arrived on both its sides, and then sends a frame on each.
pub trait Station: Drop {
    /// What the node does, by definitions.
    ghost kind: { Kind Self };

    /// The rate of its frames.
    ghost rate: { Self → Rate };

    /// Says when a node may run a round at a moment.
    ghost MayRun: { ℕ → Self → Type 0 };

    /// Returns a new node at a position of a ring with these circuits, or an error where memory runs out. No other call
    /// takes memory.
    fn try_new(
        alloc: Global,
        settings: Settings,
        map: &RingMap,
        circuits: &CircuitMap,
        at: Pos,
    ) -> Result<Self, AllocError>
        requires at { at.0 < length map.now }
        requires slots { circuits.now.slots ≡ n_of settings.rate / 2 }
        requires kept { KeepsRing circuits.now map.now }
        ensures { IfOk result (λ node. node ≡ kind.new settings map.now circuits.now.circuits at) };

    /// Keeps what arrived on a side for the node's next round, in place of what arrived there since its last round. A
    /// frame that landed is kept without a copy: its buffer is exchanged for another one of the same rate, in which
    /// nothing has landed.
    fn receive_landed(&mut self, side: Side, arrived: Arrived, inbox: &mut Landed)
        requires rate { inbox.old.rate ≡ rate self.old }
        requires here { arrived ≡ Arrived.Frame → inbox.old.landed ≢ None }
        ensures node { self.new ≡ kind.told side (arrived_in arrived inbox.old.landed) self.old }
        ensures same_rate { rate self.new ≡ rate self.old }
        ensures rate { inbox.new.rate ≡ inbox.old.rate }
        ensures dark { arrived ≡ Arrived.Dark → inbox.new ≡ inbox.old }
        ensures taken { arrived ≡ Arrived.Frame → inbox.new.landed ≡ None };

    /// Runs a round at a moment, and writes the frames that the node sends on its two sides.
    fn send(&mut self, now: Moment, west: &mut FrameBuf, east: &mut FrameBuf)
        requires west { west.old.rate ≡ rate self.old }
        requires east { east.old.rate ≡ rate self.old }
        requires may { MayRun now.0 self.old }
        ensures node { self.new ≡ kind.after now.0 self.old }
        ensures west { west.new.bytes ≡ kind.sends now.0 West self.old }
        ensures east { east.new.bytes ≡ kind.sends now.0 East self.old }
        ensures rates { (west.new.rate ≡ west.old.rate) × (east.new.rate ≡ east.old.rate) };

    /// Returns whether the node's last round was calm. Each kind of node says by its definition when a round is calm.
    fn calm(&self) -> bool
        ensures { result ≡ kind.calm self.now };

    /// What arrives changes neither the rate of a node nor whether the node may run.
    ghost told_rate: { (side : Side) (a : Arrival) (n : Self) → rate (kind.told side a n) ≡ rate n };

    ghost told_may: { (now : ℕ) (side : Side) (a : Arrival) (n : Self) → MayRun now n → MayRun now (kind.told side a n) };
}

/// A node that can take another form.
pub trait IntoForm<M> {
    /// The node in its other form.
    ghost form: { Self → M };

    /// Returns the node in its other form. The function takes no memory.
    fn into_form(self) -> M
        ensures { result ≡ form self };
}

/// Returns whether the last round was calm at each of these nodes.
pub fn all_calm<S: Station>(nodes: &[S]) -> bool
    ensures { result ≡ is_calm S.kind nodes.now }
{
    nodes.iter().all(|node| node.calm())
}
