//! Honest fibres in memory, with some calls that fail.
ghost use Rattle.std.specs.Prelude.{◌≡◌, true, ◌<◌, ◌≤◌, ◌↔◌, Ok, Err, IfOk, IsErr, OnOk, OnErr, IsErrOf, IsTrue, Contains};
ghost use Rattle.std.specs.Prelude.{refl};
ghost use Rattle.sdh_basics.specs.Causes.{Rose, IsCounted, HasCause, one_more};
ghost use Rattle.sdh_plant.specs.declared.failing_plant.PlantCall.TheVariants.{Prepare, Apply, Send, Receive};
ghost use Rattle.sdh_plant.specs.Fibres.{HasNoFibres};
ghost use Rattle.sdh_ringmap.specs.Fibres.{IsConditionAt};
ghost use Rattle.sdh_plant.specs.Arrivals.{Knows, arrival, as_arrival};
ghost use Rattle.sdh_plant.specs.Calls.{prepared, after_apply, after_send, after_receive};
ghost use Rattle.sdh_plant.specs.InMemory.{fibres_of, clear_fibres, made, IsFailing, called, refused};

use crate::fibre_plant::FibrePlant;
use crate::plant::{Arrived, Failed, LendingPlant, Plant, PrepareError};
use sdh_frame::FrameBuf;
use sdh_ringmap::{FibreEvent, Pos, Rate, Side};
use std::alloc::{AllocError, Global};
use std::marker::Model;

/// A kind of call of a plant.
#[derive(Clone, Copy, Debug, PartialEq, Eq)]
pub enum PlantCall {
    Prepare,
    Apply,
    /// `send` and `exchange`.
    Send,
    /// `receive` and `receive_into`.
    Receive,
}

/// Honest fibres in memory, as a `FibrePlant` has them. The calls that a list names fail. No other call fails, though
/// `prepare` can run out of memory.
#[derive(Debug, Drop)]
pub struct FailingPlant {
    plant: FibrePlant,
    failing: Vec<(PlantCall, u32)>,
    prepares: u64,
    applies: u64,
    sends: u64,
    receives: u64,
    faults: u64,
}

impl Model for FailingPlant {
    ghost use Rattle.sdh_plant.specs.InMemory.{HeldFailing};

    ghost Value = { HeldFailing };

    ghost view = { λ a. record { fibres = a.plant; failing = a.failing.items; calls = record { prepares = a.prepares; applies = a.applies; sends = a.sends; receives = a.receives }; faults = a.faults } };
}

// Returns whether a call of this kind and number is one of those that fail.
fn is_among(failing: &[(PlantCall, u32)], call: PlantCall, number: u64) -> bool
    ensures { IsTrue result ↔ Contains failing.now (call, number) }
{
    failing
        .iter()
        .any(|named| named.0 == call && u64::from(named.1) == number)
}

impl FailingPlant {
    /// Returns a plant without fibres. `calls` names the calls that fail, by their kind and by their number among those
    /// of the kind, counted from 1.
    pub fn new(alloc: Global, calls: &[(PlantCall, u32)]) -> Result<FailingPlant, AllocError>
        ensures { IfOk result (λ plant. plant ≡ record {
          fibres = clear_fibres plant.fibres.rate 0;
          failing = calls.now;
          calls = record { prepares = 0; applies = 0; sends = 0; receives = 0 };
          faults = 0;
        }) }
    {
        Ok(FailingPlant {
            plant: FibrePlant::new(),
            failing: calls.to_vec(alloc)?,
            prepares: 0,
            applies: 0,
            sends: 0,
            receives: 0,
            faults: 0,
        })
    }

    /// Returns how many calls of this kind there were.
    pub fn calls(&self, call: PlantCall) -> u64
        ensures { result ≡ made call self.now.calls }
    {
        match call {
            PlantCall::Prepare => self.prepares,
            PlantCall::Apply => self.applies,
            PlantCall::Send => self.sends,
            PlantCall::Receive => self.receives,
        }
    }

    // Counts a call, and returns its number among those of its kind.
    fn count(&mut self, call: PlantCall) -> u64
        ensures number { result ≡ one_more (made call self.old.calls) }
        ensures counted { self.new ≡ called call self.old }
    {
        match call {
            PlantCall::Prepare => {
                self.prepares = self.prepares.saturating_add(1);
                self.prepares
            }
            PlantCall::Apply => {
                self.applies = self.applies.saturating_add(1);
                self.applies
            }
            PlantCall::Send => {
                self.sends = self.sends.saturating_add(1);
                self.sends
            }
            PlantCall::Receive => {
                self.receives = self.receives.saturating_add(1);
                self.receives
            }
        }
    }

    // Counts a call, which fails where the list names it.
    fn call(&mut self, call: PlantCall) -> Result<(), Failed>
        ensures fails { IsErr result ↔ IsFailing call self.old }
        ensures ok { OnOk result (self.new ≡ called call self.old) }
        ensures err { OnErr result (self.new ≡ refused call self.old) }
        ensures cause { HasCause true self.old.faults self.new.faults result }
    {
        let number = self.count(call);
        if is_among(&self.failing, call, number) {
            self.faults = self.faults.saturating_add(1);
            return Err(Failed);
        }
        Ok(())
    }
}

impl Plant for FailingPlant {
    ghost fibres = { λ p. fibres_of p.fibres };

    ghost faults = { λ p. p.faults };

    ghost exact = { true };

    fn prepare(&mut self, alloc: Global, rate: Rate, nodes: usize) -> Result<(), PrepareError>
        requires fresh { HasNoFibres (fibres_of self.old.fibres) }
        requires enough { 2 ≤ nodes }
        requires few { nodes ≤ 16 }
        ensures ok { OnOk result (fibres_of self.new.fibres ≡ prepared rate nodes (fibres_of self.old.fibres)) }
        ensures err { OnErr result (fibres_of self.new.fibres ≡ fibres_of self.old.fibres) }
        ensures failed { IsErrOf result PrepareError.Failed → Rose self.old.faults self.new.faults }
        ensures counted { IsCounted true (IsErrOf result PrepareError.Failed) self.old.faults self.new.faults }
        ensures later { self.old.faults ≤ self.new.faults }

        ensures fails { IsErrOf result PrepareError.Failed ↔ IsFailing Prepare self.old }
        ensures new { OnOk result (self.new ≡ record (called Prepare self.old) { fibres = clear_fibres rate nodes }) }
        ensures without { IsErrOf result PrepareError.Memory → self.new ≡ called Prepare self.old }
        ensures refused { IsErrOf result PrepareError.Failed → self.new ≡ refused Prepare self.old }
    {
        if self.call(PlantCall::Prepare).is_err() {
            return Err(PrepareError::Failed);
        }
        self.plant.lay(alloc, rate, nodes)?;
        Ok(())
    }

    fn apply(&mut self, event: FibreEvent) -> Result<(), Failed>
        requires at { event.at.0 < (fibres_of self.old.fibres).nodes }
        requires condition { IsConditionAt (fibres_of self.old.fibres).rate event.condition }
        ensures ok { OnOk result
            (fibres_of self.new.fibres ≡ after_apply (fibres_of self.old.fibres) event.at.0 event.side event.condition) }
        ensures err { OnErr result (fibres_of self.new.fibres ≡ fibres_of self.old.fibres) }
        ensures cause { HasCause true self.old.faults self.new.faults result }

        ensures fails { IsErr result ↔ IsFailing Apply self.old }
        ensures kept { OnOk result (self.new ≡ record (called Apply self.old) { fibres = self.new.fibres }) }
        ensures refused { OnErr result (self.new ≡ refused Apply self.old) }
    {
        self.call(PlantCall::Apply)?;
        self.plant.change(event);
        Ok(())
    }

    fn send(&mut self, at: Pos, side: Side, frame: &FrameBuf) -> Result<(), Failed>
        requires at { at.0 < (fibres_of self.old.fibres).nodes }
        requires rate { frame.now.rate ≡ (fibres_of self.old.fibres).rate }
        ensures ok { OnOk result (fibres_of self.new.fibres ≡ after_send (fibres_of self.old.fibres) at.0 side frame.now.bytes) }
        ensures err { OnErr result (fibres_of self.new.fibres ≡ fibres_of self.old.fibres) }
        ensures cause { HasCause true self.old.faults self.new.faults result }

        ensures fails { IsErr result ↔ IsFailing Send self.old }
        ensures kept { OnOk result (self.new ≡ record (called Send self.old) { fibres = self.new.fibres }) }
        ensures refused { OnErr result (self.new ≡ refused Send self.old) }
    {
        self.call(PlantCall::Send)?;
        self.plant.carry(at, side, frame);
        Ok(())
    }

    fn receive(&mut self, at: Pos, side: Side, frame: &mut FrameBuf) -> Result<Arrived, Failed>
        requires at { at.0 < (fibres_of self.old.fibres).nodes }
        requires rate { frame.old.rate ≡ (fibres_of self.old.fibres).rate }
        ensures ok { OnOk result (fibres_of self.new.fibres ≡ after_receive (fibres_of self.old.fibres)) }
        ensures arrival { IfOk result
            (λ a. Knows (fibres_of self.old.fibres) → as_arrival a frame.new.bytes ≡ arrival (fibres_of self.old.fibres) at.0 side) }
        ensures dark { result ≡ Ok Arrived.Dark → frame.new ≡ frame.old }
        ensures rate { frame.new.rate ≡ frame.old.rate }
        ensures err { OnErr result (fibres_of self.new.fibres ≡ fibres_of self.old.fibres) }
        ensures cause { HasCause true self.old.faults self.new.faults result }

        ensures fails { IsErr result ↔ IsFailing Receive self.old }
        ensures kept { OnOk result (self.new ≡ called Receive self.old) }
        ensures refused { OnErr result (self.new ≡ refused Receive self.old) }
        ensures untouched { OnErr result (frame.new ≡ frame.old) }
    {
        self.call(PlantCall::Receive)?;
        Ok(self.plant.give(at, side, frame))
    }

    ghost honest_tells_none = { λ p honest. refl };
}

impl LendingPlant for FailingPlant {
    fn carried(&self, at: Pos, side: Side) -> Option<&FrameBuf> {
        self.plant.lend(at, side)
    }
}
