//! The program's call.
ghost use Rattle.std.specs.Prelude.{◌≡◌, ◌≢◌, ◌⊎◌, ℕ, ◌+◌, ◌<◌, ◌≤◌, ◌↔◌, true, [], length, codes, IfOk, OnErr, IfSome};
ghost use Rattle.std.specs.Io.KnownBytes.{IsAtEnd};
ghost use Rattle.sdh_basics.specs.Causes.{Rose, IsCounted};
ghost use Rattle.sdh_outside.specs.Reading.{TakesFewer, TellsAtMost};
ghost use Rattle.sdh_report.specs.Lines.{own_line};
ghost use Rattle.sdh_shell.specs.Calls.{words_of};
ghost use Rattle.sdh_shell.specs.Failing.{Counts, TakesAtMost};
ghost use Rattle.sdh_shell.specs.Kept.{seen_around};
ghost use Rattle.sdh_retime_cli.specs.Digits.{AreDigits};
ghost use Rattle.sdh_retime_cli.specs.declared.status.Status.{Status};
ghost use Rattle.sdh_retime_cli.specs.Front.{TellsFront, WritesFront};
ghost use Rattle.sdh_retime_cli.specs.Outcome.{number_of, bytes_max, IsOutcome, RetimingWrites, Answers, RetimingCameTo, HasRun, AreUnsteady, WritesUnsteady, RetimingSays, KeepsRetiming};

use crate::digits::digits_of;
use crate::retiming::{Outcome, run};
use crate::status::Status;
use sdh_outside::{ReadAllError, Sink, Source, read_all, write_text};
use sdh_report::{LINE_MAX, Text};
use std::alloc::{AllocError, Global};

// Returns an outcome with one line.
fn with_line(mut text: Text, status: Status, line: &[u8]) -> Outcome
    requires short { length line.now < 96 }
    requires room { 96 ≤ text.room }
    requires empty { text.bytes ≡ [] }
    ensures { (result.status ≡ status) × (result.text.bytes ≡ own_line line.now) }
{
    text.own_line(line);
    Outcome { status, text }
}

// Returns the outcome of the words and the source: a status, and the text that goes with it.
fn outcome_of<R: Source>(
    alloc: Global,
    words: &[String],
    source: &mut R,
) -> Result<Outcome, AllocError>
    ensures outcome { IfOk result
        (λ told. IfSome (R.left source.old) (λ bytes. IsOutcome (words_of words.now) bytes told.status told.text.bytes)) }
    ensures usage { IfOk result (λ told. told.status ≡ Status.Usage ↔ (¬ AreDigits (words_of words.now))) }
    ensures usage_text { IfOk result
        (λ told. told.status ≡ Status.Usage → told.text.bytes ≡ own_line (codes "usage: sdhretime DIGITS")) }
    ensures alone { (¬ AreDigits (words_of words.now)) → source.new ≡ source.old }
    ensures fault { IfOk result (λ told. told.status ≡ Status.ReadFault → Rose (R.faults source.old) (R.faults source.new)) }
    ensures read { IfOk result (λ told. HasRun told.status → IsAtEnd (R.left source.new)) }
    ensures unsteady { IfOk result
        (λ told. (turn : ℕ) → told.status ≡ Status.Drift turn → AreUnsteady (words_of words.now) turn told.text.bytes) }
    ensures front { IfOk result
        (λ told. IfSome (R.left source.old) (λ bytes. HasRun told.status → TellsFront bytes told.text.bytes)) }
    ensures complete { IfOk result (λ told. AreDigits (words_of words.now) → TellsAtMost (R.left source.old) 1048576
        → ¬ (Rose (R.faults source.old) (R.faults source.new)) → HasRun told.status) }
    ensures own { IfOk result (λ told. (told.status ≢ Status.WriteFault) × (told.status ≢ Status.Memory)) }
    ensures reads { IfOk result
        (λ told. IsCounted R.exact (told.status ≡ Status.ReadFault) (R.faults source.old) (R.faults source.new)) }
    ensures without { OnErr result (R.exact ≡ true → R.faults source.new ≡ R.faults source.old) }
    ensures taken { IfOk result (λ told. TakesAtMost bytes_max (R.left source.old) (R.left source.new) (told.status ≡ Status.TooLong)) }
    ensures few { OnErr result (TakesFewer (R.left source.old) (R.left source.new) (bytes_max + 1)) }
    ensures later { R.faults source.old ≤ R.faults source.new }
{
    // Room for the line is taken first, so that a failed read is always reported.
    let text = Text::try_new(alloc, LINE_MAX)?;
    let Some(digits) = digits_of(words) else {
        return Ok(with_line(text, Status::Usage, b"usage: sdhretime DIGITS"));
    };
    let bytes = match read_all(alloc, source) {
        Ok(bytes) => bytes,
        Err(ReadAllError::Memory) => return Err(AllocError),
        Err(ReadAllError::ReadFault) => {
            return Ok(with_line(text, Status::ReadFault, b"read fault"));
        }
        Err(ReadAllError::TooLong) => return Ok(with_line(text, Status::TooLong, b"too long")),
    };
    run(alloc, digits, &bytes)
}

// Does all that the program does, and returns how it ended.
fn answer<R: Source, W: Sink>(
    alloc: Global,
    words: &[String],
    source: &mut R,
    sink: &mut W,
) -> Status
    ensures outcome { let reads : Counts = record { before = R.faults source.old; after = R.faults source.new } in
        IfSome (R.left source.old)
        (λ bytes. RetimingWrites (words_of words.now) bytes reads result (W.written sink.old) (W.written sink.new)) }
    ensures usage_text { let reads : Counts = record { before = R.faults source.old; after = R.faults source.new } in
        (¬ AreDigits (words_of words.now)) → RetimingWrites (words_of words.now) [] reads result (W.written sink.old) (W.written sink.new) }
    ensures alone { (¬ AreDigits (words_of words.now)) → source.new ≡ source.old }
    ensures usage { result ≡ Status.Usage → ¬ AreDigits (words_of words.now) }
    ensures usage_only { (¬ AreDigits (words_of words.now))
        → (result ≡ Status.Usage) ⊎ (result ≡ Status.WriteFault) ⊎ (result ≡ Status.Memory) }
    ensures read_fault { result ≡ Status.ReadFault → Rose (R.faults source.old) (R.faults source.new) }
    ensures write_fault { result ≡ Status.WriteFault → Rose (W.faults sink.old) (W.faults sink.new) }
    ensures came { let reads : Counts = record { before = R.faults source.old; after = R.faults source.new } in
        (how : Status) × ((result ≡ how) ⊎ (result ≡ Status.WriteFault))
        × RetimingCameTo R.exact (R.faults source.old) (R.faults source.new) (R.left source.old) (R.left source.new) how
        × RetimingSays (words_of words.now) reads (R.left source.old) result (W.written sink.old) (W.written sink.new) how }
    ensures writes { IsCounted W.exact (result ≡ Status.WriteFault) (W.faults sink.old) (W.faults sink.new) }
    ensures memory { result ≡ Status.Memory → sink.new ≡ sink.old }
    ensures read_whole { HasRun result → IsAtEnd (R.left source.new) }
    ensures unsteady { (turn : ℕ) → result ≡ Status.Drift turn
        → WritesUnsteady (words_of words.now) turn (W.written sink.old) (W.written sink.new) }
    ensures front { HasRun result → IfSome (R.left source.old) (λ bytes. WritesFront bytes (W.written sink.old) (W.written sink.new)) }
    ensures later { (R.faults source.old ≤ R.faults source.new) × (W.faults sink.old ≤ W.faults sink.new) }
    ensures complete { AreDigits (words_of words.now) → TellsAtMost (R.left source.old) 1048576
        → ¬ (Rose (R.faults source.old) (R.faults source.new)) → ¬ (Rose (W.faults sink.old) (W.faults sink.new))
        → HasRun result ⊎ (result ≡ Status.Memory) }
{
    let Ok(outcome) = outcome_of(alloc, words, source) else {
        return Status::Memory;
    };
    match write_text(sink, outcome.text.bytes()) {
        Ok(()) => outcome.status,
        Err(_) => Status::WriteFault,
    }
}

/// Does all that the program does, and returns the number with which it ends. With one word of 1 to 64 digits from 0 to
/// 6 it reads all bytes of the source and takes them into a store chunk by chunk. Digit g means a chunk of 2346 + g
/// bytes, and the digits repeat. The store refuses a chunk after which it would hold too few or too many bytes: the
/// turn of that chunk is a drift, and the run ends there. The program writes the lines of every turn up to the end or
/// to the drift, and then how many bytes were left, or which turn is the drift. The text is written once, at the end.
pub fn retime<R: Source, W: Sink>(
    alloc: Global,
    words: &[String],
    source: &mut R,
    sink: &mut W,
) -> u8
    // `outcome` says which number is returned and which text is written, if the bytes of the source are known, and if
    // the sink shows what was written. If the words aren't digits, `usage_text` says the same over every source, and
    // the source is left alone.
    ensures outcome { let reads : Counts = record { before = R.faults source.old; after = R.faults source.new } in
        IfSome (R.left source.old)
        (λ bytes. Answers (words_of words.now) bytes reads result (W.written sink.old) (W.written sink.new)) }
    ensures usage_text { let reads : Counts = record { before = R.faults source.old; after = R.faults source.new } in
        (¬ AreDigits (words_of words.now))
        → Answers (words_of words.now) [] reads result (W.written sink.old) (W.written sink.new) }
    ensures alone { (¬ AreDigits (words_of words.now)) → source.new ≡ source.old }

    // All bytes given, turn after turn, are the front of those that were read. A drift comes only where four
    // consecutive chunks have together fewer than 9393 or more than 9399 bytes. The last of these four is the chunk of
    // the turn that the last line names, or of an earlier turn.
    ensures front { (result ≡ 0) ⊎ (result ≡ 12)
        → IfSome (R.left source.old) (λ bytes. WritesFront bytes (W.written sink.old) (W.written sink.new)) }
    ensures unsteady { result ≡ 12
        → (turn : ℕ) × WritesUnsteady (words_of words.now) turn (W.written sink.old) (W.written sink.new) }

    // What the call keeps, over every source and sink (`Keeps` in `sdh_shell/specs/Kept`): each fault has its cause, what
    // isn't asked for stays as it was, and with digits, at most 1,048,576 bytes and no call that fails all is done. What
    // was written is said of the ending of which it is said how many reads failed.
    ensures kept { (how : Status) × (result ≡ number_of how) × KeepsRetiming (words_of words.now)
        (seen_around R.faults R.exact R.left source.old source.new) (seen_around W.faults W.exact W.written sink.old sink.new) how }
{
    answer(alloc, words, source, sink).number()
}
