//! Fibres in memory that give arrivals from a list.
ghost use Rattle.std.specs.Prelude.{◌≡◌, ◌≢◌, ◌<◌, true, None, Ok, All, map};
ghost use Rattle.std.specs.Prelude.{drop};
ghost use Rattle.std.specs.List.{list_all};
ghost use Rattle.std.proofs.lemmas.Bool.{false≢true};
ghost use Rattle.sdh_plant.specs.Arrivals.{arrival, arrived_in, next_told};
ghost use Rattle.sdh_plant.specs.Calls.{is_at, prepared};
ghost use Rattle.sdh_plant.specs.InMemory.{clear_fibres, told_of};
ghost use Rattle.sdh_plant.specs.Kept.{arrival_of, IsToldAt};

use crate::fibre_plant::FibrePlant;
use crate::plant::{Arrived, Failed, LendingPlant, Plant, PrepareError};
use sdh_frame::{FrameBuf, Landing};
use sdh_ringmap::{FibreEvent, Pos, Rate, Side};
use std::alloc::Global;
use std::marker::Model;

/// An arrival that is given in advance.
#[derive(Debug, Drop)]
pub enum Told {
    Dark,
    Frame(FrameBuf),
}

/// Fibres in memory that give the arrivals of a list in their order, whatever was sent, and nothing after the last one.
/// No call fails, though `prepare` can run out of memory.
#[derive(Debug, Drop)]
pub struct ToldPlant {
    plant: FibrePlant,
    arrivals: Vec<Told>,
    // The number of arrivals that were given or dropped. `prepare` drops all arrivals left, where one of them is a
    // frame of another rate.
    next: usize,
}

impl Model for ToldPlant {
    ghost use Rattle.std.specs.Prelude.{map, drop};
    ghost use Rattle.sdh_plant.specs.InMemory.{HeldTold};
    ghost use Rattle.sdh_plant.specs.Kept.{arrival_of, AreTold};

    ghost Value = { HeldTold };

    ghost view = { λ a. record { fibres = a.plant; told = map arrival_of (drop a.next a.arrivals.items) } };

    ghost invariant = { λ a. AreTold a.plant a.next a.arrivals.items };
}

// Returns whether an arrival is nothing, or a frame of this rate.
fn is_told_at(told: &Told, rate: Rate) -> bool
    ensures { result ≡ is_at rate (arrival_of told.now) }
{
    match told {
        Told::Dark => true,
        Told::Frame(frame) => frame.rate() == rate,
    }
}

// Returns whether each arrival is nothing, or a frame of this rate.
fn are_told_at(arrivals: &[Told], rate: Rate) -> bool
    ensures { result ≡ list_all (λ told. is_at rate (arrival_of told)) arrivals.now }
{
    arrivals.iter().all(|told| is_told_at(told, rate))
}

// Lands an arrival of the list, if it is a frame.
#[tactic(auto, using(crate::proofs::Telling::rate_of_size))]
fn tell<L: Landing>(told: &Told, into: &mut L) -> Arrived
    requires { is_at (L.rate into.old) (arrival_of told.now) ≡ true }
    ensures arrival { arrived_in result (L.landed into.new) ≡ arrival_of told.now }
    ensures landed { result ≡ Arrived.Frame → L.landed into.new ≢ None }
    ensures dark { result ≡ Arrived.Dark → into.new ≡ into.old }
    ensures rate { L.rate into.new ≡ L.rate into.old }
{
    match told {
        Told::Dark => Arrived::Dark,
        Told::Frame(frame) => {
            prove!(frame.bytes().len() == 2430 * frame.rate().n());
            into.land(frame);
            Arrived::Frame
        }
    }
}

impl ToldPlant {
    /// Returns a plant without fibres that will give these arrivals, if it is prepared for the rate of their frames,
    /// and none otherwise. It takes no memory.
    pub fn new(rate: Rate, arrivals: Vec<Told>) -> ToldPlant
        requires { All (IsToldAt rate) arrivals.items }
        ensures { result ≡ record { fibres = clear_fibres rate 0; told = map arrival_of arrivals.items } }
    {
        ToldPlant {
            plant: FibrePlant::without_fibres(rate),
            arrivals,
            next: 0,
        }
    }

    // Takes the next arrival off the list, if there is one, and lands it, if it is a frame.
    fn give_next<L: Landing>(&mut self, into: &mut L) -> Arrived
        requires fibres { 0 < self.old.fibres.nodes }
        requires rate { L.rate into.old ≡ self.old.fibres.rate }
        ensures told { self.new ≡ record self.old { told = drop 1 self.old.told } }
        ensures arrival { arrived_in result (L.landed into.new) ≡ next_told self.old.told }
        ensures landed { result ≡ Arrived.Frame → L.landed into.new ≢ None }
        ensures dark { result ≡ Arrived.Dark → into.new ≡ into.old }
        ensures rate { L.rate into.new ≡ L.rate into.old }
    {
        if self.next == self.arrivals.len() {
            return Arrived::Dark;
        }
        let arrived = tell(&self.arrivals[self.next], into);
        self.next += 1;
        arrived
    }
}

impl Plant for ToldPlant {
    ghost fibres = { λ p. told_of p };

    ghost faults = { λ _. 0 };

    ghost exact = { true };

    fn prepare(&mut self, alloc: Global, rate: Rate, nodes: usize) -> Result<(), PrepareError> {
        self.plant.lay(alloc, rate, nodes)?;
        if !are_told_at(&self.arrivals[self.next..], rate) {
            self.next = self.arrivals.len();
        }
        Ok(())
    }

    fn apply(&mut self, event: FibreEvent) -> Result<(), Failed> {
        self.plant.change(event);
        Ok(())
    }

    fn send(&mut self, at: Pos, side: Side, frame: &FrameBuf) -> Result<(), Failed> {
        self.plant.carry(at, side, frame);
        Ok(())
    }

    fn receive(&mut self, at: Pos, side: Side, frame: &mut FrameBuf) -> Result<Arrived, Failed> {
        Ok(self.give_next(frame))
    }

    ghost honest_tells_none = { λ p honest. absurd (false≢true honest) };
}

impl LendingPlant for ToldPlant {
    fn carried(&self, at: Pos, side: Side) -> Option<&FrameBuf> {
        self.plant.lend(at, side)
    }
}
