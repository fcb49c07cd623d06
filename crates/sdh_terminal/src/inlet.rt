//! The receiving half of one side.
ghost use Rattle.std.specs.Prelude.{◌≡◌, ◌≢◌, ◌-◌, ◌≤◌, None, Some, IfSome, IfOk, length, slice_index_or};
ghost use Rattle.std.specs.Option.{is_some};
ghost use Rattle.sdh_ringmap.specs.Rates.{n_of};
ghost use Rattle.sdh_overhead.specs.Sections.{holding};
ghost use Rattle.sdh_kbytes.specs.KBytes.{IsSpellable};
ghost use Rattle.sdh_pointer.specs.Reading.{start};
ghost use Rattle.sdh_plant.specs.Arrivals.{as_arrival, arrived_in};
ghost use Rattle.sdh_terminal.specs.Same.{same_readings};
ghost use Rattle.sdh_terminal.specs.Receiving.{new_inlet, inlet_told, found, taken_in, after_taking, readings_by, actions_by};

use crate::intake::Intake;
use crate::making::new_interpreters;
use sdh_frame::{FrameBuf, Landing};
use sdh_kbytes::K;
use sdh_overhead::{Landed, Section};
use sdh_plant::Arrived;
use sdh_pointer::Interp;
use sdh_request::Defect;
use sdh_ringmap::Rate;
use std::alloc::{AllocError, Global};
use std::marker::Model;

/// The receiving half of one side: what arrived, the section and the interpreters. The frame in the inbox counts only
/// where a frame arrived since the last round.
#[derive(Debug, Drop)]
pub struct Inlet {
    arrived: Option<Arrived>,
    inbox: Landed,
    section: Section,
    interps: Vec<Interp>,
}

impl Model for Inlet {
    ghost use Rattle.std.specs.Prelude.{◌≡◌, ◌≢◌, None, Some, option_map};
    ghost use Rattle.sdh_plant.specs.declared.plant.Arrived.TheVariants.{Frame};
    ghost use Rattle.sdh_plant.specs.Arrivals.{arrived_in};
    ghost use Rattle.sdh_terminal.specs.Receiving.{Inlet, IsInlet, readings_of};

    ghost Value = { Inlet };

    ghost view = { λ r. record { arrived = option_map (λ a. arrived_in a r.inbox.landed) r.arrived; section = r.section; readings = readings_of r.interps.items } };

    ghost invariant = { λ r. record {
      rate : r.inbox.rate ≡ r.section.rate;
      here : r.arrived ≡ Some Frame → r.inbox.landed ≢ None;
      side : IsInlet (record { arrived = option_map (λ a. arrived_in a r.inbox.landed) r.arrived; section = r.section; readings = readings_of r.interps.items });
    } };
}

impl Inlet {
    /// Returns a side that has received nothing. All its memory is taken here.
    pub fn try_new(alloc: Global, rate: Rate) -> Result<Inlet, AllocError>
        ensures { IfOk result (λ r. r ≡ new_inlet rate) }
    {
        Ok(Inlet {
            arrived: None,
            inbox: Landed::try_new(alloc, rate)?,
            section: Section::try_new(rate),
            interps: new_interpreters(alloc, rate.n())?,
        })
    }

    /// Keeps what arrived until the next round reads it. If something else had already arrived since the last round,
    /// this replaces it.
    pub fn receive(&mut self, arrived: Arrived, frame: &FrameBuf)
        requires { frame.now.rate ≡ self.old.section.rate }
        ensures { self.new ≡ inlet_told (as_arrival arrived frame.now.bytes) self.old }
    {
        match arrived {
            Arrived::Frame => {
                self.inbox.land(frame);
                self.arrived = Some(Arrived::Frame);
            }
            Arrived::Dark => self.arrived = Some(Arrived::Dark),
        }
    }

    /// Keeps what arrived for the next round as `receive` does, but without a copy: the side keeps the buffer in which
    /// the frame landed, and `inbox` gets the side's. What the side took in before stays in the intake, so that ports
    /// can still deliver it. Where no frame arrived, nothing is exchanged.
    pub fn receive_landed(&mut self, arrived: Arrived, inbox: &mut Landed)
        requires rate { inbox.old.rate ≡ self.old.section.rate }
        requires here { arrived ≡ Arrived.Frame → inbox.old.landed ≢ None }
        ensures side { self.new ≡ inlet_told (arrived_in arrived inbox.old.landed) self.old }
        ensures rate { inbox.new.rate ≡ inbox.old.rate }
        ensures dark { arrived ≡ Arrived.Dark → inbox.new ≡ inbox.old }
        ensures taken { arrived ≡ Arrived.Frame → inbox.new.landed ≡ None }
    {
        match arrived {
            Arrived::Frame => {
                self.inbox.forget();
                std::mem::swap(&mut self.inbox, inbox);
                self.arrived = Some(Arrived::Frame);
            }
            Arrived::Dark => self.arrived = Some(Arrived::Dark),
        }
    }

    // Returns whether a frame or darkness (no light) was received since the last round.
    fn is_told(&self) -> bool
        ensures { result ≡ is_some self.now.arrived }
    {
        match self.arrived {
            Some(_) => true,
            None => false,
        }
    }

    // Moves the frame that arrived into the intake. Where none did, or the side fails, the intake's frame is filled
    // with ones. Returns the side's defect, and the word that the frame brings, if it brings one.
    fn find(&mut self, threshold: u16, intake: &mut Intake) -> (Defect, Option<K>)
        requires { intake.old.frame.rate ≡ self.old.section.rate }
        ensures side { self.new ≡ record self.old {
          arrived = None;
          section = holding self.old.section.rate (found threshold self.old).last;
        } }
        ensures intake { intake.new ≡ record intake.old {
          frame = record { rate = self.old.section.rate; bytes = (found threshold self.old).bytes };
        } }
        ensures defect { result.0 ≡ (found threshold self.old).defect }
        ensures word { result.1 ≡ (found threshold self.old).word }
        ensures silent { result.0 ≡ Defect.Sf → result.1 ≡ None }
        ensures spellable { IfSome result.1 IsSpellable }
    {
        let arrived = self.arrived;
        self.arrived = None;
        match arrived {
            None => {
                self.section.forget();
                intake.fill_ones();
                (Defect::None, None)
            }
            Some(Arrived::Dark) => {
                self.section.forget();
                intake.fill_ones();
                (Defect::Sf, None)
            }
            Some(Arrived::Frame) => intake.find(threshold, &mut self.section, &mut self.inbox),
        }
    }

    // Lets all interpreters read the frame where something was received. Otherwise none of them reads, and every AU-4
    // counts as AIS. Returns whether the interpreters keep what they kept before.
    fn interpret(&mut self, told: bool, intake: &mut Intake) -> bool
        requires { intake.old.frame.rate ≡ self.old.section.rate }
        ensures side { self.new ≡ record self.old {
          readings = readings_by told (n_of self.old.section.rate) intake.old.frame.bytes self.old.readings;
        } }
        ensures intake { intake.new ≡ record intake.old {
          actions = actions_by told (n_of self.old.section.rate) intake.old.frame.bytes self.old.readings;
        } }
        ensures same { result ≡ same_readings self.new.readings self.old.readings }
    {
        if told {
            intake.read(&mut self.interps)
        } else {
            intake.silence();
            true
        }
    }

    /// Takes what arrived, and lets the interpreters read it. Returns the side's defect, the word that the frame
    /// brings, if it brings one, and whether the interpreters keep what they kept before. The side is degraded where B2
    /// has at least `threshold` violations.
    #[tactic(auto, unfolding(crate::specs::Receiving::taken_in, crate::specs::Receiving::after_taking))]
    pub fn take(&mut self, threshold: u16, intake: &mut Intake) -> (Defect, Option<K>, bool)
        requires { intake.old.frame.rate ≡ self.old.section.rate }
        ensures side { self.new ≡ after_taking threshold self.old }
        ensures intake { intake.new ≡ taken_in threshold self.old }
        ensures defect { result.0 ≡ (found threshold self.old).defect }
        ensures word { result.1 ≡ (found threshold self.old).word }
        ensures silent { result.0 ≡ Defect.Sf → result.1 ≡ None }
        ensures spellable { IfSome result.1 IsSpellable }
        ensures same { result.2 ≡ same_readings self.new.readings self.old.readings }
        ensures rate { self.new.section.rate ≡ self.old.section.rate }
        ensures in_rate { intake.new.frame.rate ≡ self.old.section.rate }
    {
        let told = self.is_told();
        let (defect, word) = self.find(threshold, intake);
        let same = self.interpret(told, intake);
        (defect, word, same)
    }

    /// Returns the pointer value, 0 to 782, of the interpreter of AU-4 number `au`, 1 to N.
    pub fn value(&self, au: u16) -> u16
        requires first { 1 ≤ au }
        requires last { au ≤ n_of self.now.section.rate }
        ensures value { result ≡ (slice_index_or self.now.readings (au - 1) start).value }
        ensures small { result ≤ 782 }
    {
        let interp = &self.interps[au as usize - 1];
        interp.value()
    }

    /// There is a reading for each AU-4: the function does nothing, and its contract is the law.
    pub fn readings_are_whole(&self)
        ensures { length self.now.readings ≡ n_of self.now.section.rate }
    {
        // Looking at a field gives the prover the side's invariant, from which the law follows.
        let _ = &self.arrived;
    }
}
