//! The receiving half of one side.
ghost use Rattle.std.specs.Prelude.{◌≡◌, ◌≢◌, ◌&&◌, ◌-◌, ◌<◌, ◌≤◌, None, IfSome, IfOk, slice_index_or};
ghost use Rattle.sdh_ringmap.specs.Rates.{n_of};
ghost use Rattle.sdh_kbytes.specs.KBytes.{IsSpellable};
ghost use Rattle.sdh_nodestate.specs.Filtering.{hears};
ghost use Rattle.sdh_pointer.specs.Reading.{start};
ghost use Rattle.sdh_kbytes.specs.Same.{same_code, same_heard};
ghost use Rattle.sdh_node.specs.Same.{same_in};
ghost use Rattle.sdh_plant.specs.Arrivals.{as_arrival, arrived_in};
ghost use Rattle.sdh_request.specs.Kept.{kept_request};
ghost use Rattle.sdh_nodestate.specs.Filtering.{with_brought};
ghost use Rattle.sdh_node.specs.Receiving.{local_after, after_intake, intake_of, commanded_by, arrived_on, IsReceiving};
ghost use Rattle.sdh_node.specs.Crossing.{is_failed};
ghost use Rattle.sdh_node.specs.Node.{new_receiving, compared_in};

use sdh_frame::FrameBuf;
use sdh_kbytes::{K, same_code, same_heard};
use sdh_nodestate::Filter;
use sdh_overhead::Landed;
use sdh_plant::Arrived;
use sdh_request::{Command, Defect, Local, Moment, Settings};
use sdh_ringmap::Code;
use sdh_terminal::{Inlet, Intake};
use std::alloc::{AllocError, Global};
use std::marker::Model;

/// The receiving half of one side: what arrived, the pointer interpreters, the local request, and the filter of the
/// words that came.
#[derive(Debug, Drop)]
pub struct Receiver {
    inlet: Inlet,
    local: Local,
    request: Code,
    filter: Filter,
}

impl Model for Receiver {
    ghost use Rattle.sdh_node.specs.Receiving.{Receiving, IsReceiving};

    ghost Value = { Receiving };

    ghost view = { λ r. record { arrived = r.inlet.arrived; section = r.inlet.section; local = r.local; request = r.request; brought = r.filter; readings = r.inlet.readings } };

    ghost invariant = { λ r. IsReceiving (record { arrived = r.inlet.arrived; section = r.inlet.section; local = r.local; request = r.request; brought = r.filter; readings = r.inlet.readings }) };
}

impl Receiver {
    /// Returns a side that has received nothing. All its memory is taken here.
    pub fn try_new(alloc: Global, settings: Settings) -> Result<Receiver, AllocError>
        ensures { IfOk result (λ r. r ≡ new_receiving settings) }
    {
        Ok(Receiver {
            inlet: Inlet::try_new(alloc, settings.rate)?,
            local: Local::new(settings.wait),
            request: Code::Nr,
            filter: Filter::new(),
        })
    }

    /// Keeps what arrived until the next round reads it. If something else had already arrived since the last round,
    /// this replaces it.
    pub fn receive(&mut self, arrived: Arrived, frame: &FrameBuf)
        requires { frame.now.rate ≡ self.old.section.rate }
        ensures side { self.new ≡ arrived_on (as_arrival arrived frame.now.bytes) self.old }
        ensures local { self.new.local ≡ self.old.local }
    {
        self.inlet.receive(arrived, frame);
    }

    /// Keeps what arrived for the next round as `receive` does, but without a copy: the buffer in which the frame
    /// landed is exchanged for another one. Where no frame arrived, nothing is exchanged.
    pub fn receive_landed(&mut self, arrived: Arrived, inbox: &mut Landed)
        requires rate { inbox.old.rate ≡ self.old.section.rate }
        requires here { arrived ≡ Arrived.Frame → inbox.old.landed ≢ None }
        ensures side { self.new ≡ arrived_on (arrived_in arrived inbox.old.landed) self.old }
        ensures local { self.new.local ≡ self.old.local }
        ensures rate { inbox.new.rate ≡ inbox.old.rate }
        ensures dark { arrived ≡ Arrived.Dark → inbox.new ≡ inbox.old }
        ensures taken { arrived ≡ Arrived.Frame → inbox.new.landed ≡ None }
    {
        self.inlet.receive_landed(arrived, inbox);
    }

    /// Gives the side a command.
    pub fn command(&mut self, command: Command)
        ensures { self.new ≡ commanded_by command self.old }
    {
        self.local.command(command);
    }

    // Takes the word that came and the defect at a moment, and sets the filter and the local request by them. Returns
    // whether the word heard and the request are as before.
    fn hear(&mut self, now: Moment, defect: Defect, word: Option<K>) -> bool
        requires later { self.old.local.moment ≤ now.0 }
        requires within { now.0 ≤ 1000000000 }
        requires silent { defect ≡ Defect.Sf → word ≡ None }
        requires spellable { IfSome word IsSpellable }
        ensures side { self.new ≡ record self.old {
          local = local_after now.0 defect self.old.local;
          request = kept_request (local_after now.0 defect self.old.local);
          brought = with_brought word self.old.brought;
        } }
        ensures same { result ≡ (same_code self.new.request self.old.request
            && same_heard (hears self.new.brought) (hears self.old.brought)) }
    {
        self.local.at_moment(now);
        self.local.see(defect);
        let request = self.local.request();
        let before = self.filter.heard();
        let heard = self.filter.hear(word);
        let same = same_code(request, self.request) && same_heard(heard, before);
        self.request = request;
        same
    }

    /// Takes what arrived, at a moment, and lets the interpreters read it. Returns whether the local request, the word
    /// heard and what the interpreters keep are as before. The side is degraded where B2 has at least `threshold`
    /// violations.
    #[tactic(auto, unfolding(crate::specs::Receiving::after_intake, crate::specs::Receiving::intake_of, crate::specs::Receiving::after_overhead, crate::specs::Receiving::reception, sdh_terminal::specs::Receiving::taken_in, sdh_terminal::specs::Receiving::after_taking))]
    pub fn take(&mut self, threshold: u16, now: Moment, intake: &mut Intake) -> bool
        requires later { self.old.local.moment ≤ now.0 }
        requires within { now.0 ≤ 1000000000 }
        requires rate { intake.old.frame.rate ≡ self.old.section.rate }
        ensures side { self.new ≡ after_intake threshold now.0 self.old }
        ensures intake { intake.new ≡ intake_of threshold self.old }
        ensures same { result ≡ same_in (compared_in self.new) (compared_in self.old) }
        ensures rate { self.new.section.rate ≡ self.old.section.rate }
        ensures in_rate { intake.new.frame.rate ≡ self.old.section.rate }
        ensures moment { self.new.local.moment ≡ now.0 }
    {
        let (defect, word, read) = self.inlet.take(threshold, intake);
        self.inlet.readings_are_whole();
        let heard = self.hear(now, defect, word);
        heard && read
    }

    /// Returns the local request of the last round.
    pub fn request(&self) -> Code
        ensures value { result ≡ self.now.request }
        ensures side { IsReceiving self.now }
    {
        self.request
    }

    /// Returns the word heard in the last round, if one was.
    pub fn heard(&self) -> Option<K>
        ensures value { result ≡ hears self.now.brought }
        ensures side { IsReceiving self.now }
    {
        self.filter.heard()
    }

    /// Returns whether the side failed in the last round.
    pub fn fails(&self) -> bool
        ensures { result ≡ is_failed self.now.local.defect }
    {
        matches!(self.local.defect(), Defect::Sf)
    }

    /// Returns the pointer value, 0 to 782, of the interpreter of AU-4 number `au`, 1 to N.
    pub fn value(&self, au: u16) -> u16
        requires first { 1 ≤ au }
        requires last { au ≤ n_of self.now.section.rate }
        ensures value { result ≡ (slice_index_or self.now.readings (au - 1) start).value }
        ensures small { result ≤ 782 }
    {
        self.inlet.value(au)
    }
}
