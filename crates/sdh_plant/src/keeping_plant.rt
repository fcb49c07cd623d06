//! Any plant, with the frames that its fibres carry.
ghost use Rattle.std.specs.Prelude.{◌≡◌, ◌<◌, ◌≤◌, None, OnOk, OnErr, IsErrOf};
ghost use Rattle.sdh_basics.specs.Causes.{Rose, IsCounted};
ghost use Rattle.sdh_plant.specs.Fibres.{HasNoFibres};

use crate::fibre_plant::FibrePlant;
use crate::plant::{Arrived, Failed, LendingPlant, Plant, PrepareError};
use sdh_frame::{FrameBuf, Landing};
use sdh_ringmap::{FibreEvent, Pos, Rate, Side};
use std::alloc::Global;
use std::marker::Model;

/// A plant of any kind, beside which the last frame sent on each fibre is kept, so that it can be lent. Each frame that
/// is sent is copied once.
#[derive(Debug, Drop)]
pub struct KeepingPlant<P: Plant> {
    plant: P,
    // What the plant's fibres carry, once there are fibres. The conditions of these fibres mean nothing.
    kept: FibrePlant,
}

impl<P: Plant> Model for KeepingPlant<P> {
    ghost use Rattle.sdh_plant.specs.Kept.{AreKept};

    ghost Value = { P };

    ghost view = { λ a. a.plant };

    ghost invariant = { λ a. AreKept a.kept (P.fibres a.plant) };
}

impl<P: Plant> KeepingPlant<P> {
    /// Returns a plant that keeps the frames of this one, which has no fibres yet. It takes no memory.
    pub fn new(plant: P) -> KeepingPlant<P>
        requires { HasNoFibres (P.fibres plant) }
        ensures { result ≡ plant }
    {
        KeepingPlant {
            plant,
            kept: FibrePlant::new(),
        }
    }

    /// Returns the plant whose frames are kept.
    pub fn plant(&self) -> &P
        ensures { result.now ≡ self.now }
    {
        &self.plant
    }
}

impl<P: Plant> Plant for KeepingPlant<P> {
    ghost fibres = { λ p. P.fibres p };

    ghost faults = { λ p. P.faults p };

    ghost exact = { P.exact };

    fn prepare(&mut self, alloc: Global, rate: Rate, nodes: usize) -> Result<(), PrepareError> {
        let mut kept = FibrePlant::without_fibres(rate);
        kept.lay(alloc, rate, nodes)?;
        self.plant.prepare(alloc, rate, nodes)?;
        self.kept = kept;
        Ok(())
    }

    fn apply(&mut self, event: FibreEvent) -> Result<(), Failed> {
        self.plant.apply(event)
    }

    fn send(&mut self, at: Pos, side: Side, frame: &FrameBuf) -> Result<(), Failed> {
        self.plant.send(at, side, frame)?;
        self.kept.carry(at, side, frame);
        Ok(())
    }

    fn receive(&mut self, at: Pos, side: Side, frame: &mut FrameBuf) -> Result<Arrived, Failed> {
        self.plant.receive(at, side, frame)
    }

    fn receive_into<L: Landing>(
        &mut self,
        at: Pos,
        side: Side,
        into: &mut L,
        spare: &mut FrameBuf,
    ) -> Result<Arrived, Failed> {
        self.plant.receive_into(at, side, into, spare)
    }

    ghost honest_tells_none = { λ p honest. P.honest_tells_none p honest };
}

impl<P: Plant> LendingPlant for KeepingPlant<P> {
    fn carried(&self, at: Pos, side: Side) -> Option<&FrameBuf> {
        self.kept.lend(at, side)
    }
}
