//! Rings over plants that have the calls that a plant has to have, and no others.
ghost use Rattle.std.specs.Prelude.{◌≡◌, refl, true};
ghost use Rattle.sdh_plant.specs.Fibres.{HasNoFibres};
ghost use Rattle.sdh_plant.specs.InMemory.{fibres_of};

use crate::rings::{laid, settle, span_is};
use crate::scripts::letter;
use sdh_circuits::End;
use sdh_frame::FrameBuf;
use sdh_plant::{Arrived, Failed, FibrePlant, KeepingPlant, LendingPlant, Plant, PrepareError};
use sdh_ringmap::{Condition, FibreEvent, Pos, Rate, Side};
use std::alloc::{AllocError, Global};
use std::marker::Model;

// Fibres with the four calls alone.
#[derive(Drop)]
struct PlainPlant {
    fibres: FibrePlant,
}

impl Model for PlainPlant {
    ghost use Rattle.sdh_plant.specs.InMemory.{HeldFibres};

    ghost Value = { HeldFibres };

    ghost view = { λ a. a.fibres };
}

impl PlainPlant {
    fn new() -> PlainPlant
        ensures { HasNoFibres (fibres_of result) }
    {
        PlainPlant {
            fibres: FibrePlant::new(),
        }
    }
}

impl Plant for PlainPlant {
    ghost fibres = { λ p. fibres_of p };

    ghost faults = { λ _. 0 };

    ghost exact = { true };

    fn prepare(&mut self, alloc: Global, rate: Rate, nodes: usize) -> Result<(), PrepareError> {
        self.fibres.prepare(alloc, rate, nodes)
    }

    fn apply(&mut self, event: FibreEvent) -> Result<(), Failed> {
        self.fibres.apply(event)
    }

    fn send(&mut self, at: Pos, side: Side, frame: &FrameBuf) -> Result<(), Failed> {
        self.fibres.send(at, side, frame)
    }

    fn receive(&mut self, at: Pos, side: Side, frame: &mut FrameBuf) -> Result<Arrived, Failed> {
        self.fibres.receive(at, side, frame)
    }

    ghost honest_tells_none = { λ p honest. refl };
}

// Returns the letters that the ports of both circuits deliver once the span between the ends of the first is cut, and
// a settle step has run.
fn letters_over<P: Plant>(alloc: Global, plant: &mut P) -> Result<[u8; 4], AllocError>
    requires { HasNoFibres (P.fibres plant.old) }
{
    let mut ring = laid(alloc, plant)?;
    if !span_is(&ring, plant, 0, Condition::Cut) {
        return Err(AllocError);
    }
    settle(&mut ring, plant)?;
    Ok([
        letter(&ring, 0, End::A),
        letter(&ring, 0, End::B),
        letter(&ring, 1, End::A),
        letter(&ring, 1, End::B),
    ])
}

#[test]
fn a_ring_runs_over_a_plant_with_four_calls(rt: HostRuntime) {
    let letters = letters_over(rt.alloc(), &mut PlainPlant::new());
    assert!(&rt; letters == Ok(*b"BADC"));
}

// Returns whether a plant of any kind lends the frames that it carries, once they are kept beside it.
fn lends_what_it_keeps<P: Plant + Drop>(alloc: Global, plant: P) -> Result<bool, AllocError>
    requires { HasNoFibres (P.fibres plant) }
{
    let mut keeping = KeepingPlant::new(plant);
    let mut sent = FrameBuf::try_new(alloc, Rate::Four)?;
    sent.fill(0x35);
    if keeping.prepare(alloc, Rate::Four, 2).is_err()
        || keeping.carried(Pos(1), Side::West).is_some()
    {
        return Ok(false);
    }
    if keeping.send(Pos(1), Side::West, &sent).is_err()
        || keeping.carried(Pos(0), Side::West).is_some()
    {
        return Ok(false);
    }
    let kept = keeping.carried(Pos(1), Side::West);
    Ok(kept.is_some_and(|frame| frame.bytes() == sent.bytes()))
}

#[test]
fn what_a_plant_carries_is_kept_beside_it(rt: HostRuntime) {
    let lends = lends_what_it_keeps(rt.alloc(), PlainPlant::new());
    assert!(&rt; lends == Ok(true));
}
