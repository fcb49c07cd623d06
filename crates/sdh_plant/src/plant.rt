//! What a ring asks of its fibres.
ghost use Rattle.std.specs.Prelude.{◌≡◌, ◌≢◌, ◌<◌, ◌≤◌, ℕ, Bool, true, None, Ok, Some, IfOk, IfSome, IfNone, OnOk, OnErr, IsErrOf};
ghost use Rattle.sdh_basics.specs.Causes.{Rose, IsCounted, HasCause};
ghost use Rattle.sdh_plant.specs.Fibres.{Fibres, HasNoFibres};
ghost use Rattle.sdh_ringmap.specs.Fibres.{IsConditionAt, fibre};
ghost use Rattle.sdh_plant.specs.Arrivals.{Knows, arrival, as_arrival, arrived_in, carried_on};
ghost use Rattle.sdh_plant.specs.Calls.{prepared, after_apply, after_send, after_receive, IsExchanged};

use sdh_frame::{FrameBuf, Landing};
use sdh_ringmap::{FibreEvent, Pos, Rate, Side};
use std::alloc::{AllocError, Global};
use thiserror::Error;

/// A call of a plant failed: its count of faults rose, and its fibres are as they were.
#[derive(Clone, Copy, Debug, PartialEq, Eq, Error)]
#[error("a call of a plant failed")]
pub struct Failed;

/// What came out of a fibre: a frame, or nothing (dark).
#[derive(Clone, Copy, Debug, PartialEq, Eq)]
pub enum Arrived {
    Frame,
    Dark,
}

/// Why there are no fibres.
#[derive(Clone, Copy, Debug, PartialEq, Eq, Error)]
pub enum PrepareError {
    /// Memory ran out.
    #[error("no memory")]
    Memory,
    /// The call failed, and the plant's count of faults rose.
    #[error("the plant failed")]
    Failed,
}

impl From<AllocError> for PrepareError {
    ghost use Rattle.sdh_plant.specs.declared.plant.PrepareError.TheVariants.{Memory};

    ghost from_gives = { λ _ e. e ≡ Memory };

    fn from(_: AllocError) -> PrepareError {
        PrepareError::Memory
    }
}

/// The fibres of a ring. Before `prepare` has ended with Ok a plant has no positions, so all other calls come after
/// that. A plant has to have the four calls `prepare`, `apply`, `send` and `receive`. `exchange` and `receive_into` have
/// bodies, which a plant may replace by ones that copy less.
pub trait Plant {
    /// The fibres, with the arrivals to come and the frames sent, as far as the plant shows them.
    ghost fibres: { Self → Fibres };

    /// A count of failed calls. It rises with each of them, but not above the largest `u64`, and never falls.
    ghost faults: { Self → ℕ };

    /// Whether `faults` rises by one with each failed call, and stays as it was with any other call.
    ghost exact: { Bool };

    /// Makes two fibres for each span of a ring of `nodes` nodes, 2 to 16, all clear and without a frame. No other call
    /// of this trait takes memory. After an error there are no fibres, and the call may be made again.
    fn prepare(&mut self, alloc: Global, rate: Rate, nodes: usize) -> Result<(), PrepareError>
        requires fresh { HasNoFibres (fibres self.old) }
        requires enough { 2 ≤ nodes }
        requires few { nodes ≤ 16 }
        ensures ok { OnOk result (fibres self.new ≡ prepared rate nodes (fibres self.old)) }
        ensures err { OnErr result (fibres self.new ≡ fibres self.old) }
        ensures failed { IsErrOf result PrepareError.Failed → Rose (faults self.old) (faults self.new) }
        ensures counted { IsCounted exact (IsErrOf result PrepareError.Failed) (faults self.old) (faults self.new) }
        ensures later { faults self.old ≤ faults self.new };

    /// Sets the condition of one fibre.
    fn apply(&mut self, event: FibreEvent) -> Result<(), Failed>
        requires at { event.at.0 < (fibres self.old).nodes }
        requires condition { IsConditionAt (fibres self.old).rate event.condition }
        ensures ok { OnOk result (fibres self.new ≡ after_apply (fibres self.old) event.at.0 event.side event.condition) }
        ensures err { OnErr result (fibres self.new ≡ fibres self.old) }
        ensures cause { HasCause exact (faults self.old) (faults self.new) result };

    /// Sends a frame from a position on a side. The fibre that leaves there carries it in place of the one before.
    fn send(&mut self, at: Pos, side: Side, frame: &FrameBuf) -> Result<(), Failed>
        requires at { at.0 < (fibres self.old).nodes }
        requires rate { frame.now.rate ≡ (fibres self.old).rate }
        ensures ok { OnOk result (fibres self.new ≡ after_send (fibres self.old) at.0 side frame.now.bytes) }
        ensures err { OnErr result (fibres self.new ≡ fibres self.old) }
        ensures cause { HasCause exact (faults self.old) (faults self.new) result };

    /// Sends a frame as `send` does, and may keep its buffer. Where it does, `frame` becomes the frame that the fibre
    /// carried, or one of zeros where it carried none. Otherwise `frame` stays as it was.
    fn exchange(&mut self, at: Pos, side: Side, frame: &mut FrameBuf) -> Result<(), Failed>
        requires at { at.0 < (fibres self.old).nodes }
        requires rate { frame.old.rate ≡ (fibres self.old).rate }
        ensures ok { OnOk result (fibres self.new ≡ after_send (fibres self.old) at.0 side frame.old.bytes) }
        ensures rate { frame.new.rate ≡ frame.old.rate }
        ensures err { OnErr result (fibres self.new ≡ fibres self.old) }
        ensures untouched { OnErr result (frame.new ≡ frame.old) }
        ensures exchanged { IsExchanged (carried_on (fibres self.old) (fibre at.0 side)) frame.old frame.new }
        ensures cause { HasCause exact (faults self.old) (faults self.new) result }
    {
        self.send(at, side, frame)
    }

    /// Receives at a position on a side what comes out of the fibre that ends there. The fibre still carries it
    /// afterwards. Where nothing comes out, `frame` stays as it was.
    fn receive(&mut self, at: Pos, side: Side, frame: &mut FrameBuf) -> Result<Arrived, Failed>
        requires at { at.0 < (fibres self.old).nodes }
        requires rate { frame.old.rate ≡ (fibres self.old).rate }
        ensures ok { OnOk result (fibres self.new ≡ after_receive (fibres self.old)) }
        ensures arrival { IfOk result
            (λ a. Knows (fibres self.old) → as_arrival a frame.new.bytes ≡ arrival (fibres self.old) at.0 side) }
        ensures dark { result ≡ Ok Arrived.Dark → frame.new ≡ frame.old }
        ensures rate { frame.new.rate ≡ frame.old.rate }
        ensures err { OnErr result (fibres self.new ≡ fibres self.old) }
        ensures cause { HasCause exact (faults self.old) (faults self.new) result };

    /// Receives as `receive` does, and lands the frame where it is to go. `spare` may be written to, and keeps its rate.
    fn receive_into<L: Landing>(
        &mut self,
        at: Pos,
        side: Side,
        into: &mut L,
        spare: &mut FrameBuf,
    ) -> Result<Arrived, Failed>
        requires at { at.0 < (fibres self.old).nodes }
        requires rate { L.rate into.old ≡ (fibres self.old).rate }
        requires spare { spare.old.rate ≡ (fibres self.old).rate }
        ensures ok { OnOk result (fibres self.new ≡ after_receive (fibres self.old)) }
        ensures arrival { IfOk result
            (λ a. Knows (fibres self.old) → arrived_in a (L.landed into.new) ≡ arrival (fibres self.old) at.0 side) }
        ensures landed { result ≡ Ok Arrived.Frame → L.landed into.new ≢ None }
        ensures dark { result ≡ Ok Arrived.Dark → into.new ≡ into.old }
        ensures rate { L.rate into.new ≡ L.rate into.old }
        ensures spare { spare.new.rate ≡ spare.old.rate }
        ensures err { OnErr result (fibres self.new ≡ fibres self.old) }
        ensures cause { HasCause exact (faults self.old) (faults self.new) result }
    {
        match self.receive(at, side, spare)? {
            Arrived::Frame => {
                into.land(spare);
                Ok(Arrived::Frame)
            }
            Arrived::Dark => Ok(Arrived::Dark),
        }
    }

    /// An honest plant has no told arrivals, none that are given in advance: what arrives is what was sent.
    ghost honest_tells_none: { (p : Self) → (fibres p).honest ≡ true → (fibres p).told ≡ None };
}

/// A plant that lends the frames that its fibres carry.
pub trait LendingPlant: Plant {
    /// Returns the frame on the fibre that leaves a position on a side, or `None` where that fibre carries none.
    fn carried(&self, at: Pos, side: Side) -> Option<&FrameBuf>
        requires at { at.0 < (Self.fibres self.now).nodes }
        ensures some { IfSome result (λ frame. carried_on (Self.fibres self.now) (fibre at.0 side) ≡ Some frame.now.bytes) }
        ensures none { IfNone result (carried_on (Self.fibres self.now) (fibre at.0 side) ≡ None) };
}
