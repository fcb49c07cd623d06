//! The receiving half of each side, and where the AU-4s that come in on them lead.
ghost use Rattle.std.specs.Prelude.{◌≡◌, ◌≢◌, ◌&&◌, ◌≤◌, None, IfOk};
ghost use Rattle.sdh_ringmap.specs.Rates.{n_of};
ghost use Rattle.sdh_plant.specs.Arrivals.{arrived_in};
ghost use Rattle.sdh_ringmap.specs.Places.{opposite};
ghost use Rattle.sdh_terminal.specs.Same.{same_readings};
ghost use Rattle.sdh_terminal.specs.Receiving.{new_inlet, new_intake};
ghost use Rattle.sdh_terminal.specs.Lines.{received};
ghost use Rattle.sdh_sncp.specs.Node.{new_path_cross, cross_told, after_taken, lines_of, path_leads, comes, path_drops, fed_for};

use crate::slots::{Use, uses_at};
use sdh_circuits::{CircuitMap, Slot};
use sdh_overhead::Landed;
use sdh_plant::Arrived;
use sdh_pointer::Action;
use sdh_ringmap::{Pos, Rate, Side};
use sdh_terminal::{Feeder, Inlet, Intake, Matrix};
use std::alloc::{AllocError, Global};
use std::marker::Model;

/// The receiving half of each side, what they take in, and what is done with each slot.
#[derive(Debug, Drop)]
pub struct PathCross {
    uses: Vec<Use>,
    west: Inlet,
    east: Inlet,
    west_in: Intake,
    east_in: Intake,
}

impl Model for PathCross {
    ghost use Rattle.sdh_sncp.specs.Node.{PathCross, IsPathCross};

    ghost Value = { PathCross };

    ghost view = { λ x. record { uses = x.uses.items; west = x.west; east = x.east; west_in = x.west_in; east_in = x.east_in } };

    ghost invariant = { λ x. IsPathCross
        (record { uses = x.uses.items; west = x.west; east = x.east; west_in = x.west_in; east_in = x.east_in }) };
}

// Returns what feeds an AU-4 that leaves on a side, by what is done with its slot.
fn fed_for(used: Use, side: Side, au: u16) -> Feeder
    ensures { result ≡ fed_for used side au }
{
    match used {
        Use::Unused => Feeder::Ais,
        Use::Passed => Feeder::Received(side.opposite(), au),
        Use::Ended(port) => Feeder::Port(port),
    }
}

// Returns the receiving half of one side, which has received nothing, and what that side takes in.
fn new_side(alloc: Global, rate: Rate) -> Result<(Inlet, Intake), AllocError>
    ensures inlet { IfOk result (λ side. side.0 ≡ new_inlet rate) }
    ensures intake { IfOk result (λ side. side.1 ≡ new_intake rate) }
{
    Ok((Inlet::try_new(alloc, rate)?, Intake::try_new(alloc, rate)?))
}

impl PathCross {
    /// Returns a cross-connect that has received nothing. All memory is taken here.
    pub fn try_new(
        alloc: Global,
        rate: Rate,
        circuits: &CircuitMap,
        at: Pos,
    ) -> Result<PathCross, AllocError>
        ensures { IfOk result (λ x. x ≡ new_path_cross rate circuits.now.circuits at) }
    {
        let uses = uses_at(alloc, circuits, at, rate.n())?;
        let west_side = new_side(alloc, rate)?;
        let east_side = new_side(alloc, rate)?;
        let (west, west_in) = west_side;
        let (east, east_in) = east_side;
        Ok(PathCross {
            uses,
            west,
            east,
            west_in,
            east_in,
        })
    }

    /// Keeps what arrived on a side, but without a copy: the buffer in which the frame landed is exchanged for another
    /// one.
    pub fn receive_landed(&mut self, side: Side, arrived: Arrived, inbox: &mut Landed)
        requires rate { inbox.old.rate ≡ self.old.west.section.rate }
        requires here { arrived ≡ Arrived.Frame → inbox.old.landed ≢ None }
        ensures cross { self.new ≡ cross_told side (arrived_in arrived inbox.old.landed) self.old }
        ensures rate { inbox.new.rate ≡ inbox.old.rate }
        ensures dark { arrived ≡ Arrived.Dark → inbox.new ≡ inbox.old }
        ensures taken { arrived ≡ Arrived.Frame → inbox.new.landed ≡ None }
    {
        match side {
            Side::West => self.west.receive_landed(arrived, inbox),
            Side::East => self.east.receive_landed(arrived, inbox),
        }
    }

    /// Lets both sides take what arrived, and the interpreters read. Returns whether no interpreter's state has
    /// changed.
    #[tactic(auto, unfolding(crate::specs::Node::after_taken))]
    pub fn take(&mut self, threshold: u16) -> bool
        ensures cross { self.new ≡ after_taken threshold self.old }
        ensures same { result ≡ (same_readings self.new.west.readings self.old.west.readings
            && same_readings self.new.east.readings self.old.east.readings) }
        ensures rate { self.new.west.section.rate ≡ self.old.west.section.rate }
    {
        let (_, _, west) = self.west.take(threshold, &mut self.west_in);
        let (_, _, east) = self.east.take(threshold, &mut self.east_in);
        west && east
    }

    // Returns whether an AU-4 came in on a side with a pointer.
    fn comes(&self, side: Side, au: u16) -> bool
        requires first { 1 ≤ au }
        requires last { au ≤ n_of self.now.west.section.rate }
        ensures { result ≡ comes (received (lines_of self.now) side au) }
    {
        let action = match side {
            Side::West => self.west_in.action(au),
            Side::East => self.east_in.action(au),
        };
        !matches!(action, Action::Ais)
    }
}

impl Matrix for PathCross {
    ghost lines = { λ x. lines_of x };

    ghost leads = { λ x. path_leads x };

    ghost drops = { λ x. path_drops x };

    fn rate(&self) -> Rate {
        self.west_in.rate()
    }

    fn intake(&self, side: Side) -> &Intake {
        match side {
            Side::West => &self.west_in,
            Side::East => &self.east_in,
        }
    }

    fn value(&self, side: Side, au: u16) -> u16 {
        match side {
            Side::West => self.west.value(au),
            Side::East => self.east.value(au),
        }
    }

    #[tactic(auto, unfolding(crate::specs::Node::path_leads))]
    fn leaving(&self, side: Side, au: u16) -> Feeder {
        fed_for(self.uses[au as usize - 1], side, au)
    }

    #[tactic(auto, unfolding(crate::specs::Node::path_drops))]
    fn dropped(&self, side: Side, slot: Slot) -> Feeder {
        let au = u16::from(slot.0);
        if self.comes(side, au) {
            Feeder::Received(side, au)
        } else if self.comes(side.opposite(), au) {
            Feeder::Received(side.opposite(), au)
        } else {
            Feeder::Ais
        }
    }
}
