//! Honest fibres in memory.
ghost use Rattle.std.specs.Prelude.{◌≡◌, ◌≢◌, true, ◌+◌, ◌*◌, ◌<◌, ◌≤◌, Some, None, Ok, IfOk, IfSome, IfNone, IsOk, OnOk, OnErr};
ghost use Rattle.std.specs.Prelude.{All, length, replicate, slice_index_or, slice_set, refl};
ghost use Rattle.sdh_basics.specs.Causes.{HasCause};
ghost use Rattle.sdh_ringmap.specs.Rates.{n_of};
ghost use Rattle.sdh_ringmap.specs.declared.terms.Condition.TheVariants.{Clear};
ghost use Rattle.sdh_ringmap.specs.Fibres.{IsConditionAt, fibre, fibre_to};
ghost use Rattle.sdh_plant.specs.Arrivals.{arrival, arrived_in, through, carried_on, honest_arrival};
ghost use Rattle.sdh_plant.specs.Calls.{after_send, carried_or_zeros, IsExchanged};
ghost use Rattle.sdh_plant.specs.InMemory.{fibres_of, clear_fibres};
ghost use Rattle.sdh_plant.specs.Kept.{IsFibre, carried_by, conditions, carried};

use crate::frames::land_degraded;
use crate::plant::{Arrived, Failed, LendingPlant, Plant, PrepareError};
use sdh_frame::{FrameBuf, Landing};
use sdh_ringmap::{Condition, FibreEvent, Pos, Rate, Side, neighbour};
use std::alloc::{AllocError, Global};
use std::marker::Model;

#[derive(Debug, Drop)]
struct Fibre {
    condition: Condition,
    carries: bool,
    // The last frame sent, where the fibre carries one, and else one of zeros.
    frame: FrameBuf,
}

/// Honest fibres in memory: what comes out is what was sent, as the fibre's condition lets it through. No call fails,
/// though `prepare` can run out of memory.
#[derive(Debug, Drop)]
pub struct FibrePlant {
    nodes: usize,
    rate: Rate,
    // The fibres by their numbers, once they are made.
    fibres: Option<Vec<Fibre>>,
}

impl Model for FibrePlant {
    ghost use Rattle.sdh_plant.specs.InMemory.{HeldFibres};
    ghost use Rattle.sdh_plant.specs.Kept.{items_of, held, AreFibres};

    ghost Value = { HeldFibres };

    ghost view = { λ a. held a.nodes a.rate (items_of a.fibres) };

    ghost invariant = { λ a. AreFibres a.nodes a.rate (items_of a.fibres) };
}

// Returns `count` fibres, each clear and without a frame.
fn new_fibres(alloc: Global, rate: Rate, count: usize) -> Result<Vec<Fibre>, AllocError>
    ensures conditions { IfOk result (λ v. conditions v.items ≡ replicate count Clear) }
    ensures carried { IfOk result (λ v. carried v.items ≡ replicate count None) }
    ensures fit { IfOk result (λ v. All (IsFibre rate) v.items) }
    ensures len { IfOk result (λ v. length v.items ≡ count) }
{
    let mut fibres = Vec::with_capacity(alloc, count)?;
    'fibres: while fibres.len() < count {
        fibres.push(Fibre {
            condition: Condition::Clear,
            carries: false,
            frame: FrameBuf::try_new(alloc, rate)?,
        })?;
    }
    Ok(fibres)
}

// Returns the number of the fibre that leaves a position on a side.
fn fibre_at(at: Pos, side: Side) -> usize
    ensures fibre { result ≡ fibre at.0 side }
    ensures within { result ≤ 2 * at.0 + 1 }
{
    match side {
        Side::West => 2 * usize::from(at.0),
        Side::East => 2 * usize::from(at.0) + 1,
    }
}

// Returns the number of the fibre that ends at a position on a side: it leaves the neighbour there on the other side.
fn fibre_into(nodes: usize, at: Pos, side: Side) -> usize
    requires at { at.0 < nodes }
    requires few { nodes ≤ 16 }
    ensures fibre { result ≡ fibre_to nodes at.0 side }
    ensures within { result < 2 * nodes }
{
    fibre_at(neighbour(nodes, at, side), side.opposite())
}

fn set_condition(fibres: &mut [Fibre], at: usize, condition: Condition)
    requires { at < length fibres.old }
    ensures conditions { conditions fibres.new ≡ slice_set (conditions fibres.old) at condition }
    ensures carried { carried fibres.new ≡ carried fibres.old }
    ensures fit { (rate : _) → IsConditionAt rate condition → All (IsFibre rate) fibres.old → All (IsFibre rate) fibres.new }
{
    let fibre = &mut fibres[at];
    fibre.condition = condition;
}

fn store(fibres: &mut [Fibre], at: usize, frame: &FrameBuf)
    requires at { at < length fibres.old }
    requires fit { All (IsFibre frame.now.rate) fibres.old }
    ensures conditions { conditions fibres.new ≡ conditions fibres.old }
    ensures carried { carried fibres.new ≡ slice_set (carried fibres.old) at (Some frame.now.bytes) }
    ensures fit { All (IsFibre frame.now.rate) fibres.new }
{
    let fibre = &mut fibres[at];
    fibre.frame.copy_from(frame);
    fibre.carries = true;
}

fn store_in_exchange(fibres: &mut [Fibre], at: usize, frame: &mut FrameBuf)
    requires at { at < length fibres.old }
    requires fit { All (IsFibre frame.old.rate) fibres.old }
    ensures conditions { conditions fibres.new ≡ conditions fibres.old }
    ensures carried { carried fibres.new ≡ slice_set (carried fibres.old) at (Some frame.old.bytes) }
    ensures fit { All (IsFibre frame.old.rate) fibres.new }
    ensures rate { frame.new.rate ≡ frame.old.rate }
    ensures back { frame.new ≡ carried_or_zeros (slice_index_or (carried fibres.old) at None) frame.old }
{
    let kept = &mut fibres[at];
    std::mem::swap(&mut kept.frame, frame);
    kept.carries = true;
}

fn frame_on(fibres: &[Fibre], at: usize) -> Option<&FrameBuf>
    requires { at < length fibres.now }
    ensures some { IfSome result (λ frame. slice_index_or (carried fibres.now) at None ≡ Some frame.now.bytes) }
    ensures none { IfNone result (slice_index_or (carried fibres.now) at None ≡ None) }
{
    let fibre = &fibres[at];
    if fibre.carries {
        Some(&fibre.frame)
    } else {
        None
    }
}

fn land_carried<L: Landing>(fibre: &mut Fibre, into: &mut L) -> Arrived
    requires { IsFibre (L.rate into.old) fibre.old }
    ensures same { fibre.new ≡ fibre.old }
    ensures arrival { arrived_in result (L.landed into.new) ≡ through (n_of (L.rate into.old)) fibre.old.condition (carried_by fibre.old) }
    ensures landed { result ≡ Arrived.Frame → L.landed into.new ≢ None }
    ensures dark { result ≡ Arrived.Dark → into.new ≡ into.old }
    ensures rate { L.rate into.new ≡ L.rate into.old }
{
    if !fibre.carries {
        return Arrived::Dark;
    }
    match fibre.condition {
        Condition::Clear => into.land(&fibre.frame),
        Condition::Cut => return Arrived::Dark,
        Condition::Degraded(columns) => land_degraded(&mut fibre.frame, columns, into),
    }
    Arrived::Frame
}

fn land_carried_at<L: Landing>(fibres: &mut [Fibre], at: usize, into: &mut L) -> Arrived
    requires at { at < length fibres.old }
    requires fit { All (IsFibre (L.rate into.old)) fibres.old }
    ensures same { fibres.new ≡ fibres.old }
    ensures arrival { arrived_in result (L.landed into.new) ≡ through (n_of (L.rate into.old))
        (slice_index_or (conditions fibres.old) at Clear) (slice_index_or (carried fibres.old) at None) }
    ensures landed { result ≡ Arrived.Frame → L.landed into.new ≢ None }
    ensures dark { result ≡ Arrived.Dark → into.new ≡ into.old }
    ensures rate { L.rate into.new ≡ L.rate into.old }
{
    let fibre = &mut fibres[at];
    land_carried(fibre, into)
}

impl FibrePlant {
    /// Returns a plant without fibres. It takes no memory.
    pub fn new() -> FibrePlant
        ensures { result ≡ clear_fibres result.rate 0 }
    {
        FibrePlant::without_fibres(Rate::Four)
    }

    // Returns a plant without fibres.
    pub(crate) fn without_fibres(rate: Rate) -> FibrePlant
        ensures { result ≡ clear_fibres rate 0 }
    {
        FibrePlant {
            nodes: 0,
            rate,
            fibres: None,
        }
    }

    // Makes two fibres for each of `nodes` spans, clear and without a frame. All their memory is taken here.
    pub(crate) fn lay(&mut self, alloc: Global, rate: Rate, nodes: usize) -> Result<(), AllocError>
        requires { nodes ≤ 16 }
        ensures ok { OnOk result (self.new ≡ clear_fibres rate nodes) }
        ensures err { OnErr result (self.new ≡ self.old) }
    {
        self.fibres = Some(new_fibres(alloc, rate, 2 * nodes)?);
        self.nodes = nodes;
        self.rate = rate;
        Ok(())
    }

    // Sets the condition of the fibre that an event names.
    pub(crate) fn change(&mut self, event: FibreEvent)
        requires at { event.at.0 < self.old.nodes }
        requires condition { IsConditionAt self.old.rate event.condition }
        ensures { self.new ≡ record self.old { conditions = slice_set self.old.conditions (fibre event.at.0 event.side) event.condition } }
    {
        let Some(fibres) = &mut self.fibres else {
            return;
        };
        set_condition(fibres, fibre_at(event.at, event.side), event.condition);
    }

    // Puts a frame on the fibre that leaves a position on a side.
    pub(crate) fn carry(&mut self, at: Pos, side: Side, frame: &FrameBuf)
        requires at { at.0 < self.old.nodes }
        requires rate { frame.now.rate ≡ self.old.rate }
        ensures { self.new ≡ record self.old { carried = slice_set self.old.carried (fibre at.0 side) (Some frame.now.bytes) } }
    {
        let Some(fibres) = &mut self.fibres else {
            return;
        };
        store(fibres, fibre_at(at, side), frame);
    }

    // Puts a frame on the fibre that leaves a position on a side, in exchange for the one that the fibre carried.
    fn carry_in_exchange(&mut self, at: Pos, side: Side, frame: &mut FrameBuf)
        requires at { at.0 < self.old.nodes }
        requires rate { frame.old.rate ≡ self.old.rate }
        ensures fibres { self.new ≡ record self.old { carried = slice_set self.old.carried (fibre at.0 side) (Some frame.old.bytes) } }
        ensures rate { frame.new.rate ≡ frame.old.rate }
        ensures back { frame.new ≡ carried_or_zeros (slice_index_or self.old.carried (fibre at.0 side) None) frame.old }
    {
        let Some(fibres) = &mut self.fibres else {
            return;
        };
        store_in_exchange(fibres, fibre_at(at, side), frame);
    }

    // Returns the frame that a fibre carries, or `None` where it carries none.
    pub(crate) fn lend(&self, at: Pos, side: Side) -> Option<&FrameBuf>
        requires { at.0 < self.now.nodes }
        ensures some { IfSome result (λ frame. slice_index_or self.now.carried (fibre at.0 side) None ≡ Some frame.now.bytes) }
        ensures none { IfNone result (slice_index_or self.now.carried (fibre at.0 side) None ≡ None) }
    {
        let Some(fibres) = &self.fibres else {
            return None;
        };
        frame_on(fibres, fibre_at(at, side))
    }

    // Lands what comes out of the fibre that ends at a position on a side.
    pub(crate) fn give<L: Landing>(&mut self, at: Pos, side: Side, into: &mut L) -> Arrived
        requires at { at.0 < self.old.nodes }
        requires rate { L.rate into.old ≡ self.old.rate }
        ensures same { self.new ≡ self.old }
        ensures arrival { arrived_in result (L.landed into.new) ≡ honest_arrival (fibres_of self.old) at.0 side }
        ensures landed { result ≡ Arrived.Frame → L.landed into.new ≢ None }
        ensures dark { result ≡ Arrived.Dark → into.new ≡ into.old }
        ensures rate { L.rate into.new ≡ L.rate into.old }
    {
        let Some(fibres) = &mut self.fibres else {
            return Arrived::Dark;
        };
        land_carried_at(fibres, fibre_into(self.nodes, at, side), into)
    }
}

impl Plant for FibrePlant {
    ghost fibres = { λ p. fibres_of p };

    ghost faults = { λ _. 0 };

    ghost exact = { true };

    fn prepare(&mut self, alloc: Global, rate: Rate, nodes: usize) -> Result<(), PrepareError> {
        self.lay(alloc, rate, nodes)?;
        Ok(())
    }

    fn apply(&mut self, event: FibreEvent) -> Result<(), Failed> {
        self.change(event);
        Ok(())
    }

    fn send(&mut self, at: Pos, side: Side, frame: &FrameBuf) -> Result<(), Failed> {
        self.carry(at, side, frame);
        Ok(())
    }

    fn exchange(&mut self, at: Pos, side: Side, frame: &mut FrameBuf) -> Result<(), Failed>
        requires at { at.0 < (fibres_of self.old).nodes }
        requires rate { frame.old.rate ≡ (fibres_of self.old).rate }
        ensures ok { OnOk result (fibres_of self.new ≡ after_send (fibres_of self.old) at.0 side frame.old.bytes) }
        ensures rate { frame.new.rate ≡ frame.old.rate }
        ensures err { OnErr result (fibres_of self.new ≡ fibres_of self.old) }
        ensures untouched { OnErr result (frame.new ≡ frame.old) }
        ensures exchanged { IsExchanged (carried_on (fibres_of self.old) (fibre at.0 side)) frame.old frame.new }
        ensures cause { HasCause true 0 0 result }

        ensures never_fails { IsOk result }
        ensures back { frame.new ≡ carried_or_zeros (carried_on (fibres_of self.old) (fibre at.0 side)) frame.old }
    {
        self.carry_in_exchange(at, side, frame);
        Ok(())
    }

    fn receive(&mut self, at: Pos, side: Side, frame: &mut FrameBuf) -> Result<Arrived, Failed> {
        Ok(self.give(at, side, frame))
    }

    fn receive_into<L: Landing>(
        &mut self,
        at: Pos,
        side: Side,
        into: &mut L,
        spare: &mut FrameBuf,
    ) -> Result<Arrived, Failed> {
        Ok(self.give(at, side, into))
    }

    ghost honest_tells_none = { λ p honest. refl };
}

impl LendingPlant for FibrePlant {
    fn carried(&self, at: Pos, side: Side) -> Option<&FrameBuf> {
        self.lend(at, side)
    }
}
