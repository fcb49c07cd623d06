//! What one side takes in during a round.
ghost use Rattle.std.specs.Prelude.{◌≡◌, ◌+◌, ◌-◌, ◌%◌, ◌<◌, ◌≤◌, ◌≢◌, Option, None, Some, IfSome, IfOk, length, slice_index_or};
ghost use Rattle.std.specs.Prelude.{replicate, nat_le, if◌then◌else◌};
ghost use Rattle.std.specs.List.{list_any};
ghost use Rattle.sdh_ringmap.specs.Rates.{n_of};
ghost use Rattle.sdh_frame.specs.Aus.{au_of};
ghost use Rattle.sdh_overhead.specs.Sections.{Parities, holding};
ghost use Rattle.sdh_kbytes.specs.KBytes.{IsSpellable};
ghost use Rattle.sdh_pointer.specs.Reading.{Interpreter};
ghost use Rattle.sdh_terminal.specs.Same.{same_readings};
ghost use Rattle.sdh_terminal.specs.Receiving.{reception_of, frame_reception, all_ones, pointer_word_at, readings_of, after_frame};
ghost use Rattle.sdh_terminal.specs.Receiving.{actions_in, new_intake};
ghost use Rattle.sdh_terminal.specs.Passing.{h3_of};

use crate::making::no_actions;
use sdh_frame::FrameBuf;
use sdh_kbytes::{K, decode};
use sdh_overhead::{Landed, Received, Section, read_landed};
use sdh_pointer::{Action, Interp, Word, read_word};
use sdh_request::Defect;
use sdh_ringmap::Rate;
use std::alloc::{AllocError, Global};
use std::marker::Model;

/// What one side takes in during a round: the descrambled frame, and the action of each AU-4's pointer interpreter.
#[derive(Debug, Drop)]
pub struct Intake {
    frame: FrameBuf,
    actions: Vec<Action>,
}

impl Model for Intake {
    ghost use Rattle.std.specs.Prelude.{◌≡◌, length};
    ghost use Rattle.sdh_ringmap.specs.Rates.{n_of};
    ghost use Rattle.sdh_terminal.specs.Receiving.{Intake};

    ghost Value = { Intake };

    ghost view = { λ i. record { frame = i.frame; actions = i.actions.items } };

    ghost invariant = { λ i. length i.actions.items ≡ n_of i.frame.rate };
}

impl Intake {
    /// Returns the intake before the first round. All its memory is taken here.
    pub fn try_new(alloc: Global, rate: Rate) -> Result<Intake, AllocError>
        ensures { IfOk result (λ i. i ≡ new_intake rate) }
    {
        Ok(Intake {
            frame: FrameBuf::try_new(alloc, rate)?,
            actions: no_actions(alloc, rate.n())?,
        })
    }

    /// Returns the rate of the frame.
    pub fn rate(&self) -> Rate
        ensures { result ≡ self.now.frame.rate }
    {
        self.frame.rate()
    }

    /// Returns the frame.
    pub fn frame(&self) -> &FrameBuf
        ensures { result.now ≡ self.now.frame }
    {
        &self.frame
    }

    /// Returns the action of the interpreter of AU-4 number `au`, 1 to N.
    pub fn action(&self, au: u16) -> Action
        requires first { 1 ≤ au }
        requires last { au ≤ n_of self.now.frame.rate }
        ensures { result ≡ slice_index_or self.now.actions (au - 1) Action.Ais }
    {
        self.actions[au as usize - 1]
    }

    /// Fills the frame with ones.
    pub fn fill_ones(&mut self)
        ensures { self.new ≡ record self.old { frame = record { rate = self.old.frame.rate; bytes = all_ones self.old.frame.rate } } }
    {
        self.frame.fill(0xFF);
    }

    /// Takes the frame that landed, in exchange for the intake's own buffer. Returns the side's defect, and the word
    /// that the frame brings, if it brings one. The side is degraded where B2 has at least `threshold` violations.
    pub fn find(
        &mut self,
        threshold: u16,
        section: &mut Section,
        inbox: &mut Landed,
    ) -> (Defect, Option<K>)
        requires rate { inbox.old.rate ≡ self.old.frame.rate }
        requires here { inbox.old.landed ≢ None }
        requires section { section.old.rate ≡ self.old.frame.rate }
        ensures intake { self.new ≡ record self.old {
          frame = record {
            rate = self.old.frame.rate;
            bytes = (reception_of (Some inbox.old.landed) inbox.old.rate threshold section.old.last).bytes;
          };
        } }
        ensures section { section.new ≡ holding section.old.rate
            (reception_of (Some inbox.old.landed) inbox.old.rate threshold section.old.last).last }
        ensures rate { inbox.new.rate ≡ inbox.old.rate }
        ensures defect { result.0 ≡ (reception_of (Some inbox.old.landed) inbox.old.rate threshold section.old.last).defect }
        ensures word { result.1 ≡ (reception_of (Some inbox.old.landed) inbox.old.rate threshold section.old.last).word }
        ensures silent { result.0 ≡ Defect.Sf → result.1 ≡ None }
        ensures spellable { IfSome result.1 IsSpellable }
    {
        let received = read_landed(section, inbox);
        inbox.swap_frame(&mut self.frame);
        find_frame(threshold, received, &mut self.frame)
    }

    /// Lets all interpreters read the frame. Returns whether they keep what they kept before.
    pub fn read(&mut self, interps: &mut Vec<Interp>) -> bool
        requires { length interps.old.items ≡ n_of self.old.frame.rate }
        ensures intake { self.new ≡ record self.old {
          actions = actions_in (n_of self.old.frame.rate) self.old.frame.bytes (readings_of interps.old.items);
        } }
        ensures readings { readings_of interps.new.items ≡ after_frame (n_of self.old.frame.rate) self.old.frame.bytes
            (readings_of interps.old.items) }
        ensures len { length interps.new.items ≡ n_of self.old.frame.rate }
        ensures same { result ≡ same_readings (readings_of interps.new.items) (readings_of interps.old.items) }
    {
        read_all(&self.frame, interps, &mut self.actions)
    }

    /// Sets the action of every AU-4 to AIS. No interpreter reads.
    pub fn silence(&mut self)
        ensures { self.new ≡ record self.old { actions = replicate (n_of self.old.frame.rate) Action.Ais } }
    {
        self.actions.as_mut_slice().fill(Action::Ais);
    }
}

// Returns the defect of a side whose frame is framed and not AIS, by the violations that B2 counts.
fn defect_by(threshold: u16, violations: u32) -> Defect
    ensures { result ≡ (if nat_le threshold violations then Defect.Sd else Defect.None) }
{
    if violations >= u32::from(threshold) {
        Defect::Sd
    } else {
        Defect::None
    }
}

// Returns the side's defect, and the word that a descrambled frame brings, by what its section overhead says. Where the
// side fails, the frame is filled with ones. The side is degraded where B2 has at least `threshold` violations.
fn find_frame(threshold: u16, received: Received, frame: &mut FrameBuf) -> (Defect, Option<K>)
    ensures frame { (last : Option Parities)
        → frame.new ≡ record frame.old { bytes = (frame_reception frame.old.rate threshold frame.old.bytes last received).bytes } }
    ensures defect { (last : Option Parities) → result.0 ≡ (frame_reception frame.old.rate threshold frame.old.bytes last received).defect }
    ensures word { (last : Option Parities) → result.1 ≡ (frame_reception frame.old.rate threshold frame.old.bytes last received).word }
    ensures silent { result.0 ≡ Defect.Sf → result.1 ≡ None }
    ensures spellable { IfSome result.1 IsSpellable }
{
    match received {
        Received::Unframed => {
            frame.fill(0xFF);
            (Defect::Sf, None)
        }
        Received::Framed { k2, .. } if k2 % 8 == 7 => {
            frame.fill(0xFF);
            (Defect::Sf, None)
        }
        Received::Framed { k1, k2, b2, .. } => (defect_by(threshold, b2), decode(k1, k2)),
    }
}

/// Returns the three bytes H3 of AU-4 number `au`, 1 to N.
pub fn h3_at(frame: &FrameBuf, au: u16) -> [u8; 3]
    requires first { 1 ≤ au }
    requires last { au ≤ n_of frame.now.rate }
    ensures { result ≡ h3_of (au_of (n_of frame.now.rate) au frame.now.bytes).pointers }
{
    [
        frame.pointer(au, 6),
        frame.pointer(au, 7),
        frame.pointer(au, 8),
    ]
}

// Returns the pointer word of an AU-4.
fn word_at(frame: &FrameBuf, au: u16) -> Word
    requires first { 1 ≤ au }
    requires last { au ≤ n_of frame.now.rate }
    ensures { result.0 ≡ pointer_word_at (n_of frame.now.rate) frame.now.bytes au }
{
    read_word(&[frame.pointer(au, 0), frame.pointer(au, 3)])
}

// Lets all interpreters read the frame. Returns whether they keep what they kept before.
fn read_all(frame: &FrameBuf, interps: &mut Vec<Interp>, actions: &mut Vec<Action>) -> bool
    requires few { n_of frame.now.rate ≤ 16 }
    requires interps { length interps.old.items ≡ n_of frame.now.rate }
    requires actions { length actions.old.items ≡ n_of frame.now.rate }
    ensures readings { readings_of interps.new.items ≡ after_frame (n_of frame.now.rate) frame.now.bytes (readings_of interps.old.items) }
    ensures actions { actions.new.items ≡ actions_in (n_of frame.now.rate) frame.now.bytes (readings_of interps.old.items) }
    ensures same { result ≡ same_readings (readings_of interps.new.items) (readings_of interps.old.items) }
    ensures interps_len { length interps.new.items ≡ n_of frame.now.rate }
    ensures actions_len { length actions.new.items ≡ n_of frame.now.rate }
{
    for k in 0..interps.len() {
        let word = word_at(frame, k as u16 + 1);
        let interp = &mut interps[k];
        actions[k] = interp.step(word);
    }
    !any_moved(interps)
}

// Returns whether one of these interpreters changed what it keeps in its last step.
fn any_moved(interps: &[Interp]) -> bool
    ensures { result ≡ list_any (λ (i : Interpreter). i.moved) interps.now }
{
    interps.iter().any(|interp| interp.moved())
}
