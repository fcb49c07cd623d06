//! Honest fibres in memory that record what was sent.
ghost use Rattle.std.specs.Prelude.{◌≡◌, true, ◌+◌, ◌-◌, ◌<◌, ◌≤◌, ◌↔◌, [], ◌∷◌, ◌++◌, None, Ok, IfOk, IsOk, IsErr, OnOk};
ghost use Rattle.std.specs.Prelude.{OnErr, IsOkUnless, IsErrOf, All, length, slice_set, refl};
ghost use Rattle.sdh_basics.specs.Causes.{Rose, IsCounted, HasCause, one_more};
ghost use Rattle.sdh_plant.specs.Fibres.{HasNoFibres};
ghost use Rattle.sdh_ringmap.specs.Fibres.{IsConditionAt};
ghost use Rattle.sdh_plant.specs.Arrivals.{Knows, arrival, as_arrival};
ghost use Rattle.sdh_plant.specs.Calls.{prepared, after_apply, after_send, after_receive};
ghost use Rattle.sdh_plant.specs.InMemory.{clear_fibres, recorded_of};

use crate::fibre_plant::FibrePlant;
use crate::plant::{Arrived, Failed, LendingPlant, Plant, PrepareError};
use sdh_frame::FrameBuf;
use sdh_ringmap::{FibreEvent, Pos, Rate, Side};
use std::alloc::{AllocError, Global};
use std::marker::Model;

/// Honest fibres in memory, as a `FibrePlant` has them, with a list of the frames that were sent. A `send` or
/// `exchange` fails where the list is full, and no other call fails, though `prepare` can run out of memory.
#[derive(Debug, Drop)]
pub struct RecordingPlant {
    plant: FibrePlant,
    // As many frames as there is room for, once there are fibres. The first `count` of them were sent.
    frames: Option<Vec<FrameBuf>>,
    count: usize,
    room: usize,
    faults: u64,
}

impl Model for RecordingPlant {
    ghost use Rattle.std.specs.Prelude.{take};
    ghost use Rattle.sdh_plant.specs.InMemory.{HeldRecording};
    ghost use Rattle.sdh_plant.specs.Kept.{items_of, AreFrames};

    ghost Value = { HeldRecording };

    ghost view = { λ a. record { fibres = a.plant; sent = take a.count (items_of a.frames); room = a.room; faults = a.faults } };

    ghost invariant = { λ a. AreFrames a.plant a.room a.count (items_of a.frames) };
}

// Returns `count` frames.
fn new_frames(alloc: Global, rate: Rate, count: usize) -> Result<Vec<FrameBuf>, AllocError>
    ensures len { IfOk result (λ v. length v.items ≡ count) }
    ensures rates { IfOk result (λ v. All (λ f. f.rate ≡ rate) v.items) }
{
    let mut frames = Vec::with_capacity(alloc, count)?;
    'frames: while frames.len() < count {
        frames.push(FrameBuf::try_new(alloc, rate)?)?;
    }
    Ok(frames)
}

fn keep(frames: &mut [FrameBuf], at: usize, frame: &FrameBuf)
    requires at { at < length frames.old }
    requires rates { All (λ f. f.rate ≡ frame.now.rate) frames.old }
    ensures { frames.new ≡ slice_set frames.old at frame.now }
{
    let kept = &mut frames[at];
    kept.copy_from(frame);
}

impl RecordingPlant {
    /// Returns a plant without fibres with room for `room` sent frames once it is prepared. It takes no memory.
    pub fn new(room: usize) -> RecordingPlant
        ensures { result ≡ record { fibres = clear_fibres result.fibres.rate 0; sent = []; room = room; faults = 0 } }
    {
        RecordingPlant {
            plant: FibrePlant::new(),
            frames: None,
            count: 0,
            room,
            faults: 0,
        }
    }

    /// Returns the frames that were sent, the first one first.
    pub fn sent(&self) -> &[FrameBuf]
        ensures { result.now ≡ self.now.sent }
    {
        match &self.frames {
            Some(frames) => &frames[..self.count],
            None => &[],
        }
    }

    // Adds a frame to those that were sent.
    fn append(&mut self, frame: &FrameBuf)
        requires fibres { 0 < self.old.fibres.nodes }
        requires rate { frame.now.rate ≡ self.old.fibres.rate }
        requires room { length self.old.sent < self.old.room }
        ensures { self.new ≡ record self.old { sent = self.old.sent ++ frame.now ∷ [] } }
    {
        let Some(frames) = &mut self.frames else {
            return;
        };
        keep(frames, self.count, frame);
        self.count += 1;
    }
}

impl Plant for RecordingPlant {
    ghost fibres = { λ p. recorded_of p };

    ghost faults = { λ p. p.faults };

    ghost exact = { true };

    fn prepare(&mut self, alloc: Global, rate: Rate, nodes: usize) -> Result<(), PrepareError>
        requires fresh { HasNoFibres (recorded_of self.old) }
        requires enough { 2 ≤ nodes }
        requires few { nodes ≤ 16 }
        ensures ok { OnOk result (recorded_of self.new ≡ prepared rate nodes (recorded_of self.old)) }
        ensures err { OnErr result (recorded_of self.new ≡ recorded_of self.old) }
        ensures failed { IsErrOf result PrepareError.Failed → Rose self.old.faults self.new.faults }
        ensures counted { IsCounted true (IsErrOf result PrepareError.Failed) self.old.faults self.new.faults }
        ensures later { self.old.faults ≤ self.new.faults }

        ensures never_fails { IsOkUnless result PrepareError.Memory }
        ensures new { OnOk result (self.new ≡ record self.old { fibres = clear_fibres rate nodes }) }
        ensures kept { OnErr result (self.new ≡ self.old) }
    {
        let frames = new_frames(alloc, rate, self.room)?;
        self.plant.lay(alloc, rate, nodes)?;
        self.frames = Some(frames);
        Ok(())
    }

    fn apply(&mut self, event: FibreEvent) -> Result<(), Failed>
        requires at { event.at.0 < (recorded_of self.old).nodes }
        requires condition { IsConditionAt (recorded_of self.old).rate event.condition }
        ensures ok { OnOk result (recorded_of self.new ≡ after_apply (recorded_of self.old) event.at.0 event.side event.condition) }
        ensures err { OnErr result (recorded_of self.new ≡ recorded_of self.old) }
        ensures cause { HasCause true self.old.faults self.new.faults result }

        ensures never_fails { IsOk result }
        ensures kept { self.new ≡ record self.old { fibres = self.new.fibres } }
    {
        self.plant.change(event);
        Ok(())
    }

    fn send(&mut self, at: Pos, side: Side, frame: &FrameBuf) -> Result<(), Failed>
        requires at { at.0 < (recorded_of self.old).nodes }
        requires rate { frame.now.rate ≡ (recorded_of self.old).rate }
        ensures ok { OnOk result (recorded_of self.new ≡ after_send (recorded_of self.old) at.0 side frame.now.bytes) }
        ensures err { OnErr result (recorded_of self.new ≡ recorded_of self.old) }
        ensures cause { HasCause true self.old.faults self.new.faults result }

        ensures fails { IsErr result ↔ (length self.old.sent ≡ self.old.room) }
        ensures sent { OnOk result (self.new ≡ record self.old { fibres = self.new.fibres; sent = self.old.sent ++ frame.now ∷ [] }) }
        ensures counted { OnErr result (self.new ≡ record self.old { faults = one_more self.old.faults }) }
    {
        if self.sent().len() == self.room {
            self.faults = self.faults.saturating_add(1);
            return Err(Failed);
        }
        self.append(frame);
        self.plant.carry(at, side, frame);
        Ok(())
    }

    fn receive(&mut self, at: Pos, side: Side, frame: &mut FrameBuf) -> Result<Arrived, Failed>
        requires at { at.0 < (recorded_of self.old).nodes }
        requires rate { frame.old.rate ≡ (recorded_of self.old).rate }
        ensures ok { OnOk result (recorded_of self.new ≡ after_receive (recorded_of self.old)) }
        ensures arrival { IfOk result
            (λ a. Knows (recorded_of self.old) → as_arrival a frame.new.bytes ≡ arrival (recorded_of self.old) at.0 side) }
        ensures dark { result ≡ Ok Arrived.Dark → frame.new ≡ frame.old }
        ensures rate { frame.new.rate ≡ frame.old.rate }
        ensures err { OnErr result (recorded_of self.new ≡ recorded_of self.old) }
        ensures cause { HasCause true self.old.faults self.new.faults result }

        ensures never_fails { IsOk result }
        ensures kept { self.new ≡ self.old }
    {
        Ok(self.plant.give(at, side, frame))
    }

    ghost honest_tells_none = { λ p honest. refl };
}

impl LendingPlant for RecordingPlant {
    fn carried(&self, at: Pos, side: Side) -> Option<&FrameBuf> {
        self.plant.lend(at, side)
    }
}
