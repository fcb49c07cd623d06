//! The turns of a run and their lines.
ghost use Rattle.std.specs.Prelude.{◌≡◌, ℕ, ◌+◌, ◌*◌, ◌/◌, ◌<◌, ◌≤◌, false, List, [], ◌∷◌, ◌++◌, length, IfOk, OnOk};
ghost use Rattle.std.specs.Prelude.{OnErr};
ghost use Rattle.sdh_elastic.specs.Turns.{IsChunk};
ghost use Rattle.sdh_elastic.specs.History.{lasts, lengths};
ghost use Rattle.sdh_elastic.specs.Store.{reading_of, StoreCameBy};
ghost use Rattle.sdh_report.specs.Written.{with_part};
ghost use Rattle.sdh_retime_cli.specs.Digits.{IsDigits};
ghost use Rattle.sdh_retime_cli.specs.Lines.{action_word, turn_line, given_line, last_lines, left_line, drift_line};
ghost use Rattle.sdh_retime_cli.specs.Front.{TellsFront};
ghost use Rattle.sdh_retime_cli.specs.Outcome.{IsRetimed, HasRun, TellsUnsteady};

use crate::digits::{CHUNK_MIN, size_at};
use crate::status::Status;
use sdh_elastic::{Drift, Elastic};
use sdh_outside::READ_MAX;
use sdh_payload::Cells;
use sdh_pointer::{Action, Interp};
use sdh_report::{LINE_MAX, Text};
use std::alloc::{AllocError, Global};

/// Room for the lines of a turn: a short one, and one with at most 2352 bytes in hexadecimal.
const TURN_ROOM: usize = 4801;

/// What is to be written, and the status with which the program then ends.
#[derive(Debug, Drop)]
pub struct Outcome {
    pub status: Status,
    pub text: Text,
}

// A store, and an interpreter that reads each pointer word of the store.
#[derive(Drop)]
struct Retiming {
    store: Elastic,
    interp: Interp,
    out: Cells,
}

// Appends the word of an action.
fn put_action(text: &mut Text, action: Action)
    requires { length (action_word action) ≤ text.old.room }
    ensures { text.new ≡ with_part text.old (action_word action) }
{
    match action {
        Action::Ais => text.put(b"ais"),
        Action::New => text.put(b"new"),
        Action::Normal => text.put(b"plain"),
        Action::Up => text.put(b"up"),
        Action::Down => text.put(b"down"),
    }
}

// Appends the line of turn `number`: its action, and the number of bytes held after it.
fn put_turn_line(text: &mut Text, number: usize, action: Action, fill: usize)
    requires { length (turn_line number action fill) ≤ text.old.room }
    ensures { text.new ≡ with_part text.old (turn_line number action fill) }
{
    text.put_number(number as u64);
    text.put(b" ");
    put_action(text, action);
    text.put(b" ");
    text.put_number(fill as u64);
    text.put(b"\n");
}

// Appends the line of the bytes that a turn gave.
fn put_given(text: &mut Text, action: Action, given: &[u8])
    requires { length (given_line action given.now) ≤ text.old.room }
    ensures { text.new ≡ with_part text.old (given_line action given.now) }
{
    match action {
        Action::Ais => {}
        _ => {
            text.put_hex(given);
            text.put(b"\n");
        }
    }
}

// Appends the last line of a run that took all whole chunks in.
fn put_left(text: &mut Text, count: usize)
    requires { length (left_line count) ≤ text.old.room }
    ensures { text.new ≡ with_part text.old (left_line count) }
{
    text.put(b"left ");
    text.put_number(count as u64);
    text.put(b"\n");
}

// Appends the last line of a run that ends with a drift.
fn put_drift(text: &mut Text, number: usize)
    requires { length (drift_line number) ≤ text.old.room }
    ensures { text.new ≡ with_part text.old (drift_line number) }
{
    text.put(b"drift ");
    text.put_number(number as u64);
    text.put(b"\n");
}

impl Retiming {
    // Returns an empty store with pointer value 0, and an interpreter that has read nothing.
    fn try_new(alloc: Global) -> Result<Retiming, AllocError>
        ensures came { IfOk result (λ retiming. StoreCameBy 0 [] retiming.store) }
        ensures reads { IfOk result (λ retiming. retiming.interp.reading ≡ reading_of retiming.store) }
    {
        Ok(Retiming {
            store: Elastic::try_new(alloc, 0)?,
            interp: Interp::new(),
            out: Cells::try_new(alloc)?,
        })
    }

    // Takes a chunk in and writes the lines of the turn. Where the turn is a drift, nothing is written.
    fn turn(&mut self, number: usize, input: &[u8], text: &mut Text) -> Result<(), Drift>
        requires chunk { IsChunk (length input.now) }
        requires room { 4801 ≤ text.old.room }
        requires reads { self.old.interp.reading ≡ reading_of self.old.store }
        ensures reads { OnOk result (self.new.interp.reading ≡ reading_of self.new.store) }
        ensures room { OnOk result (text.old.room ≤ text.new.room + 4801) }
        ensures came { OnOk result ((past : List (List ℕ)) → StoreCameBy 0 past self.old.store → StoreCameBy 0 (input.now ∷ past) self.new.store) }
        ensures lines { OnOk result ((past : List (List ℕ)) → StoreCameBy 0 past self.old.store → number ≡ length past + 1
            → text.new.bytes ≡ text.old.bytes ++ last_lines (input.now ∷ past)) }
        ensures drift { OnErr result ((past : List (List ℕ)) → StoreCameBy 0 past self.old.store → lasts (lengths (input.now ∷ past)) ≡ false) }
        ensures err { OnErr result (text.new ≡ text.old) }
    {
        self.store.turn(input, &mut self.out)?;
        let action = self.interp.step(self.store.word());
        put_turn_line(text, number, action, self.store.fill());
        put_given(text, action, self.out.as_slice());
        Ok(())
    }

    // Takes all whole chunks in, up to a drift. Writes the lines of all turns and the last line. Returns how the run
    // ended.
    fn take_all(&mut self, digits: &[u8], bytes: &[u8], text: &mut Text) -> Status
        requires digits { IsDigits digits.now }
        requires few { length bytes.now ≤ READ_MAX }
        requires room { 4801 * (length bytes.now / 2346) + 96 ≤ text.old.room }
        requires empty { text.old.bytes ≡ [] }
        requires came { StoreCameBy 0 [] self.old.store }
        requires reads { self.old.interp.reading ≡ reading_of self.old.store }
        ensures { IsRetimed digits.now bytes.now result text.new.bytes }
    {
        let mut at = 0;
        let mut taken = 0;
        loop {
            let size = size_at(digits, taken);
            if bytes.len() - at < size {
                put_left(text, bytes.len() - at);
                return Status::Ok;
            }
            if let Err(Drift) = self.turn(taken + 1, &bytes[at..at + size], text) {
                put_drift(text, taken + 1);
                return Status::Drift(taken + 1);
            }
            at += size;
            taken += 1;
        }
    }
}

/// Returns the outcome of a run over these bytes. All its memory is taken before the first turn.
pub fn run(alloc: Global, digits: &[u8], bytes: &[u8]) -> Result<Outcome, AllocError>
    requires digits { IsDigits digits.now }
    requires few { length bytes.now ≤ READ_MAX }
    ensures outcome { IfOk result (λ told. IsRetimed digits.now bytes.now told.status told.text.bytes) }
    ensures unsteady { IfOk result
        (λ told. (turn : ℕ) → told.status ≡ Status.Drift turn → TellsUnsteady digits.now turn told.text.bytes) }
    ensures front { IfOk result (λ told. TellsFront bytes.now told.text.bytes) }
    ensures run { IfOk result (λ told. HasRun told.status) }
{
    let turns = bytes.len() / CHUNK_MIN;
    let mut text = Text::try_new(alloc, TURN_ROOM * turns + LINE_MAX)?;
    let mut retiming = Retiming::try_new(alloc)?;
    let status = retiming.take_all(digits, bytes, &mut text);
    Ok(Outcome { status, text })
}
