//! The program's call.
ghost use Rattle.std.specs.Prelude.{◌≡◌, ◌⊎◌, ◌+◌, ◌≤◌, ℕ, [], true, Some, None, IfOk, OnErr, IfSome};
ghost use Rattle.sdh_outside.specs.Reading.{TakesFewer};
ghost use Rattle.sdh_shell.specs.Failing.{plan_max};
ghost use Rattle.sdh_shell.specs.Kept.{seen_around};
ghost use Rattle.sdh_shell.specs.Writing.{Writes};
ghost use Rattle.sdh_outside.specs.Writing.{Wrote};
ghost use Rattle.sdh_shell.specs.Calls.{words_of};
ghost use Rattle.sdh_whatif_cli.specs.Words.{asked, own_texts, IsPart};
ghost use Rattle.sdh_whatif_cli.specs.Listed.{CasesHaveOneLine};
ghost use Rattle.sdh_whatif_cli.specs.Laws.{LinesAreTrue};
ghost use Rattle.sdh_whatif_cli.specs.Outcome.{refusal, of_plan, IsOutcome, told, SeenOfCall, CasesEnded, KeepsCases};

use crate::ask::{Ask, asked};
use crate::laws::{cases_have_one_line, lines_are_true};
use crate::line::Line;
use crate::own::{OwnError, own_failures};
use crate::scene::Scene;
use crate::table::write_table;
use sdh_outside::{Output, Sink, Source, WriteFault};
use sdh_plan::{Plan, Reason};
use sdh_report::laws::last_line_is_short;
use sdh_report::{LINE_MAX, Status, Text};
use sdh_shell::{NoPlan, plan_in};
use sdh_verdicts::Sides;
use std::alloc::{AllocError, Global};

// The status of what was asked for, and whether the write of its text failed.
#[derive(Drop)]
struct Told {
    status: Status,
    wrote: Result<(), WriteFault>,
}

// Appends the line of a refusal.
fn refusal(text: &mut Text, status: Status)
    requires room { 96 ≤ text.old.room }
    requires empty { text.old.bytes ≡ [] }
    ensures { text.new.bytes ≡ refusal status }
{
    match status {
        Status::Usage => text.own_line(
            b"usage: sdhwhatif single, double, triple, with kinds, own NAMES, part K N, head, json, summary",
        ),
        _ => {
            last_line_is_short(&status);
            text.last_line(&status);
        }
    }
}

// Writes the line of a refusal, and returns how that ended.
fn refuse<W: Sink>(sink: &mut W, mut text: Text, status: Status) -> Told
    requires room { 96 ≤ text.room }
    requires empty { text.bytes ≡ [] }
    ensures status { result.status ≡ status }
    ensures wrote { Wrote W.exact (W.written sink.old) (W.written sink.new) (W.faults sink.old) (W.faults sink.new)
        (refusal status) result.wrote }
{
    refusal(&mut text, status);
    let wrote = sink.put(text.bytes());
    Told { status, wrote }
}

// Returns how the call ends where the text of one of the user's own failures is unknown, by the text's place.
fn unknown(place: u32) -> Status
    ensures { result ≡ Status.BadPlan 24 place }
{
    Status::BadPlan {
        reason: Reason::StepNode.number(),
        place,
    }
}

// Writes the line of a refusal where a text of the user's own failures is unknown. Returns how that ended, or an error
// where memory ran out.
fn refuse_own<W: Sink>(alloc: Global, sink: &mut W, why: OwnError) -> Result<Told, AllocError>
    ensures told { IfOk result (λ x. (place : ℕ) × (why ≡ OwnError.Unknown place) × (x.status ≡ Status.BadPlan 24 place)
        × Wrote W.exact (W.written sink.old) (W.written sink.new) (W.faults sink.old) (W.faults sink.new)
        (refusal (Status.BadPlan 24 place)) x.wrote) }
    ensures memory { OnErr result (sink.new ≡ sink.old) }
{
    let OwnError::Unknown(place) = why else {
        return Err(AllocError);
    };
    let text = Text::try_new(alloc, LINE_MAX)?;
    Ok(refuse(sink, text, unknown(place)))
}

// Writes the table of a plan, or the line of a refusal where a text of the user's own failures is unknown, and returns
// how that ended.
fn tell<W: Sink>(
    alloc: Global,
    sink: &mut W,
    plan: &Plan,
    ask: Ask,
    words: &[String],
) -> Result<Told, AllocError>
    requires part { IsPart ask }
    ensures status { IfOk result (λ x. x.status ≡ (of_plan plan.now (own_texts (words_of words.now)) ask).0) }
    ensures wrote { IfOk result (λ x. Wrote W.exact (W.written sink.old) (W.written sink.new) (W.faults sink.old) (W.faults sink.new)
        (of_plan plan.now (own_texts (words_of words.now)) ask).1 x.wrote) }
    ensures own { IfOk result (λ x. (x.status ≡ Status.Ok) ⊎ ((place : ℕ) × (x.status ≡ Status.BadPlan 24 place))) }
    ensures memory { OnErr result (sink.new ≡ sink.old) }
{
    let mut line = Line::try_new(alloc)?;
    let own = match own_failures(alloc, &mut line, plan.map(), words) {
        Ok(own) => own,
        Err(why) => return refuse_own(alloc, sink, why),
    };
    let sides = Sides::try_new(alloc, plan)?;
    let scene = Scene {
        plan,
        sides: &sides,
        own: &own,
    };
    let wrote = write_table(sink, &mut line, &scene, ask);
    Ok(Told {
        status: Status::Ok,
        wrote,
    })
}

// Does what is asked for with the plan that a source has, or refuses it. Returns how that ended.
fn answer_ask<R: Source, W: Sink>(
    alloc: Global,
    ask: Ask,
    words: &[String],
    source: &mut R,
    sink: &mut W,
) -> Result<Told, AllocError>
    requires part { IsPart ask }
    ensures ended { IfOk result (λ x. let seen : SeenOfCall = record {
      reads_exact = R.exact;
      reads = R.faults source.old;
      reads_after = R.faults source.new;
      left = R.left source.old;
      left_after = R.left source.new;
      writes_exact = W.exact;
      writes = W.faults sink.old;
      writes_after = W.faults sink.new;
      written = W.written sink.old;
      written_after = W.written sink.new;
    } in CasesEnded (Some ask) (own_texts (words_of words.now)) seen x.status x.wrote) }
    ensures later { R.faults source.old ≤ R.faults source.new }
    ensures memory { OnErr result ((R.exact ≡ true → R.faults source.new ≡ R.faults source.old) × (sink.new ≡ sink.old)) }
    ensures few { OnErr result (TakesFewer (R.left source.old) (R.left source.new) (plan_max + 1)) }
{
    let text = Text::try_new(alloc, LINE_MAX)?;
    match plan_in(alloc, source) {
        Ok(plan) => tell(alloc, sink, &plan, ask, words),
        Err(NoPlan::Memory) => Err(AllocError),
        Err(NoPlan::Refused(how)) => Ok(refuse(sink, text, how)),
    }
}

// Runs the whole program, and returns how that ended, or an error where memory runs out.
fn answer<R: Source, W: Sink>(
    alloc: Global,
    words: &[String],
    source: &mut R,
    sink: &mut W,
) -> Result<Told, AllocError>
    ensures ended { IfOk result (λ x. let seen : SeenOfCall = record {
      reads_exact = R.exact;
      reads = R.faults source.old;
      reads_after = R.faults source.new;
      left = R.left source.old;
      left_after = R.left source.new;
      writes_exact = W.exact;
      writes = W.faults sink.old;
      writes_after = W.faults sink.new;
      written = W.written sink.old;
      written_after = W.written sink.new;
    } in CasesEnded (asked (words_of words.now)) (own_texts (words_of words.now)) seen x.status x.wrote) }
    ensures unread { asked (words_of words.now) ≡ None → source.new ≡ source.old }
    ensures later { R.faults source.old ≤ R.faults source.new }
    ensures memory { OnErr result ((R.exact ≡ true → R.faults source.new ≡ R.faults source.old) × (sink.new ≡ sink.old)) }
    ensures few { OnErr result (TakesFewer (R.left source.old) (R.left source.new) (plan_max + 1)) }
{
    match asked(words) {
        Some(ask) => answer_ask(alloc, ask, words, source, sink),
        None => {
            let text = Text::try_new(alloc, LINE_MAX)?;
            Ok(refuse(sink, text, Status::Usage))
        }
    }
}

/// Runs the whole program, and returns how it ended. With the word `single`, `double` or `triple` it reads a plan from
/// the source and writes a table: what becomes of each circuit where nothing fails beyond the plan's script, and where
/// one, two or three more failures come. The words after it give the kinds of failures, failures that come together, a
/// part of the cases, and the form of the table. The table is written line by line, and all memory is taken before the
/// first.
pub fn whatif<R: Source, W: Sink>(
    alloc: Global,
    words: &[String],
    source: &mut R,
    sink: &mut W,
) -> Status
    // The status and the text that is written, where the bytes of a source that is read are known, and where the sink
    // shows what was written.
    ensures outcome { IfSome (told (asked (words_of words.now)) (R.left source.old))
        (λ bytes. Writes (λ how text. IsOutcome (asked (words_of words.now)) (own_texts (words_of words.now)) bytes how text) result (W.written sink.old)
        (W.written sink.new)) }

    // Each line says what the last report shows if the plan is run with the line's steps after its script.
    ensures lines { LinesAreTrue }

    // Each set of failures that are taken, up to the largest number that is asked for, has exactly one line, and no other
    // line is there.
    ensures cases { CasesHaveOneLine }

    // What the call keeps, over every source and sink (`Keeps` in `sdh_shell/specs/Kept`): each fault has its cause, what
    // isn't asked for stays as it was, and where the words ask for something, the plan's ring has the user's own failures
    // and no call fails, everything is written. What was written is said of the status of which it is said how many reads
    // failed.
    ensures kept { KeepsCases (asked (words_of words.now)) (own_texts (words_of words.now))
        (seen_around R.faults R.exact R.left source.old source.new) (seen_around W.faults W.exact W.written sink.old sink.new) result }
{
    lines_are_true();
    cases_have_one_line();
    let Ok(told) = answer(alloc, words, source, sink) else {
        return Status::Memory;
    };
    match told.wrote {
        Ok(()) => told.status,
        Err(_) => Status::WriteFault,
    }
}
