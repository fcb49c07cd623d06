//! The program's call.
ghost use Rattle.std.specs.Prelude.{◌≡◌, ◌≤◌, [], None, Some, Err, IfOk, IfErr, IfSome, OnErr};
ghost use Rattle.sdh_ringmap.specs.declared.Pos.{Pos};
ghost use Rattle.sdh_ringmap.specs.Places.{found_at};
ghost use Rattle.sdh_plan.specs.Planned.{Planned};
ghost use Rattle.sdh_report.specs.Lines.{own_line};
ghost use Rattle.sdh_status.specs.declared.Status.{Status};
ghost use Rattle.sdh_shell.specs.Calls.{words_of};
ghost use Rattle.sdh_shell.specs.Failing.{Counts};
ghost use Rattle.sdh_shell.specs.Kept.{seen_around};
ghost use Rattle.sdh_shell.specs.Writing.{alone, IsShown, WroteEnding};
ghost use Rattle.sdh_node_cli.specs.Endings.{line_of, bench_endings};
ghost use Rattle.sdh_node_cli.specs.Words.{asked};
ghost use Rattle.sdh_node_cli.specs.Faults.{CountsFault};
ghost use Rattle.sdh_node_cli.specs.Bench.{new_bench};
ghost use Rattle.sdh_node_cli.specs.Outcome.{usage, ending_of, refusal_of, TakesNoRecord, IsAskedNode, HasNode, OfBenchPlan, IsCutPlan, IsOutcome, MayBeCut};
ghost use Rattle.sdh_node_cli.specs.Outcome.{Goes, RunsOut, Tells, KeepsBench};
ghost use Rattle.sdh_node_cli.specs.declared.ending.Ending.{Ending};
ghost use Rattle.sdh_node_cli.specs.declared.words.Ask.{Ask};

use crate::bench::Bench;
use crate::ending::{Ending, Flaw};
use crate::head::{NoHead, plan_in};
use crate::rooms::Rooms;
use crate::serving::{Stopped, serve};
use crate::stop::Stop;
use crate::words::{Ask, asked};
use sdh_outside::{Sink, Source};
use sdh_plan::Plan;
use sdh_report::{LINE_MAX, Status, Text};
use sdh_shell::{EndedText, ended, write_ended};
use std::alloc::{AllocError, Global};

// Returns how the program ends where no more records were done.
fn ending_of(stopped: Stopped) -> Ending
    ensures { result ≡ ending_of stopped.stop stopped.number }
{
    match stopped.stop {
        Stop::Done => Ending::Shared(Status::Ok),
        Stop::Bad(flaw) => Ending::BadRecord(flaw, stopped.number),
        Stop::ReadFault => Ending::Shared(Status::ReadFault),
        Stop::WriteFault => Ending::Shared(Status::WriteFault),
    }
}

// Returns how the program ends where there is no plan, or `None` where memory ran out.
fn refusal_of(why: NoHead) -> Option<Ending>
    ensures { result ≡ refusal_of why }
{
    match why {
        NoHead::Memory => None,
        NoHead::Cut => Some(Ending::BadRecord(Flaw::Cut, 0)),
        NoHead::Refused(how) => Some(Ending::Shared(how)),
    }
}

// Runs a new node over the records of a source, and writes its answers and the last line. `text` is the room for that
// line. Returns how the program ended.
fn answer_records<R: Source, W: Sink>(
    alloc: Global,
    bench: &mut Bench,
    text: Text,
    source: &mut R,
    sink: &mut W,
) -> Result<Ending, AllocError>
    requires fresh { bench.old.node.rounds ≡ 0 }
    requires empty { text.bytes ≡ [] }
    requires room { 96 ≤ text.room }
    ensures goes { let reads : Counts = record { before = R.faults source.old; after = R.faults source.new } in
        IfOk result (λ end. (ask : Ask) (plan : Planned) (at : Pos) → found_at plan.nodes ask.id ≡ Some at
        → bench.old ≡ new_bench ask.mode ask.id at plan
        → Goes (OfBenchPlan ask plan [] (R.left source.old) (R.left source.new))
        (IsCutPlan ask plan [] (R.left source.old) (R.left source.new) (W.written sink.old) (W.written sink.new)) R.exact reads end
        (W.written sink.old) (W.written sink.new)) }
    ensures writes { IfOk result (λ end. CountsFault W.exact (W.faults sink.old) (W.faults sink.new) (end ≡ Ending.Shared Status.WriteFault)) }
    ensures later { (R.faults source.old ≤ R.faults source.new) × (W.faults sink.old ≤ W.faults sink.new) }
    ensures memory { OnErr result ((source.new ≡ source.old) × (sink.new ≡ sink.old)) }
{
    let mut rooms = Rooms::try_new(alloc, bench.rate())?;
    let stopped = serve(bench, &mut rooms, source, sink);
    match stopped.stop {
        Stop::WriteFault => Ok(Ending::Shared(Status::WriteFault)),
        _ => Ok(write_ended(sink, ended(ending_of(stopped), text))),
    }
}

// Returns the node that is asked for in a plan's ring, before any record, or `None` where the ring has no such node.
fn bench_of(alloc: Global, plan: Plan, ask: Ask) -> Result<Option<Bench>, AllocError>
    ensures node { IfOk result (λ made. IfSome made (IsAskedNode ask plan)) }
    ensures none { IfOk result (λ made. made ≡ None → found_at plan.nodes ask.id ≡ None) }
{
    match plan.map().find(ask.id) {
        Some(at) => match Bench::try_new(alloc, plan, ask, at) {
            Ok(bench) => Ok(Some(bench)),
            Err(AllocError) => Err(AllocError),
        },
        None => Ok(None),
    }
}

// Reads the plan of a stream, and returns the node that is asked for. Where there is no plan or no such node, the error
// is how the program ends, or `None` where memory ran out.
fn bench_in<R: Source>(alloc: Global, ask: Ask, source: &mut R) -> Result<Bench, Option<Ending>>
    ensures node { IfOk result (HasNode ask (R.left source.old) (R.left source.new)) }
    ensures ends { IfErr result
        (λ why. IfSome why (λ how. IsOutcome (Some ask) (R.left source.old) (R.left source.new) how (alone (line_of how)))) }
    ensures memory { result ≡ Err None → TakesNoRecord (R.left source.old) (R.left source.new) }
    ensures shown { IfErr result (λ why. IfSome why (IsShown bench_endings)) }
    ensures reads { CountsFault R.exact (R.faults source.old) (R.faults source.new) (result ≡ Err (Some (Ending.Shared Status.ReadFault))) }
{
    match plan_in(alloc, source) {
        Ok(plan) => match bench_of(alloc, plan, ask) {
            Ok(Some(bench)) => Ok(bench),
            Ok(None) => Err(Some(Ending::NoSuchNode)),
            Err(AllocError) => Err(None),
        },
        Err(why) => Err(refusal_of(why)),
    }
}

// Does what is asked for with the stream of a source. Returns how the program ended.
fn answer<R: Source, W: Sink>(
    alloc: Global,
    ask: Ask,
    source: &mut R,
    sink: &mut W,
) -> Result<Ending, AllocError>
    ensures goes { let reads : Counts = record { before = R.faults source.old; after = R.faults source.new } in
        IfOk result (λ end. Goes (IsOutcome (Some ask) (R.left source.old) (R.left source.new))
        (MayBeCut (Some ask) (R.left source.old) (R.left source.new) (W.written sink.old) (W.written sink.new)) R.exact reads end
        (W.written sink.old) (W.written sink.new)) }
    ensures writes { IfOk result (λ end. CountsFault W.exact (W.faults sink.old) (W.faults sink.new) (end ≡ Ending.Shared Status.WriteFault)) }
    ensures later { (R.faults source.old ≤ R.faults source.new) × (W.faults sink.old ≤ W.faults sink.new) }
    ensures memory { let reads : Counts = record { before = R.faults source.old; after = R.faults source.new } in
        OnErr result (RunsOut R.exact reads (R.left source.old) (R.left source.new) sink.old sink.new) }
{
    // Room for the last line is taken first, so that a read that fails is always reported.
    let text = Text::try_new(alloc, LINE_MAX)?;
    match bench_in(alloc, ask, source) {
        Ok(mut bench) => {
            let how = answer_records(alloc, &mut bench, text, source, sink);
            drop(bench);
            how
        }
        Err(Some(how)) => Ok(write_ended(sink, ended(how, text))),
        Err(None) => Err(AllocError),
    }
}

// Writes how the program is called. Returns `Usage`, or `WriteFault` where the write fails.
fn usage<W: Sink>(alloc: Global, sink: &mut W) -> Result<Ending, AllocError>
    ensures wrote { IfOk result
        (λ end. WroteEnding bench_endings (Ending.Shared Status.Usage) (own_line usage) end (W.written sink.old) (W.written sink.new)) }
    ensures writes { IfOk result (λ end. CountsFault W.exact (W.faults sink.old) (W.faults sink.new) (end ≡ Ending.Shared Status.WriteFault)) }
    ensures later { W.faults sink.old ≤ W.faults sink.new }
    ensures memory { OnErr result (sink.new ≡ sink.old) }
{
    let mut text = Text::try_new(alloc, LINE_MAX)?;
    text.own_line(b"usage: sdhnode ID, frames, lines");
    let ending = Ending::Shared(Status::Usage);
    Ok(write_ended(sink, EndedText { ending, text }))
}

/// Runs the whole program, and returns how it ended. With the identifier of a node it reads a plan from the source, up
/// to the line that ends it, and then records. A record gives the node a command, the present moment, held rounds or
/// slips, or it runs a round over what came on both sides. For each round the program writes what the node shows and
/// what its ports deliver, and with the word `frames` the frames that leave it, before it reads on. The last line says
/// how the program ended.
pub fn sdhnode<R: Source, W: Sink>(
    alloc: Global,
    words: &[String],
    source: &mut R,
    sink: &mut W,
) -> Ending
    // `Tells` relates the ending, what was read and what was written. What was written is the answers that the
    // definitions give for exactly the records that were read. Where a write failed, all answers but the last were
    // written whole, and of that one, or of the last line after all of them, only a front. So each answer is written
    // whole before a byte more is read.
    ensures outcome { let reads : Counts = record { before = R.faults source.old; after = R.faults source.new } in
        Tells (asked (words_of words.now)) reads (R.left source.old) (R.left source.new) result (W.written sink.old) (W.written sink.new) }

    // What the call keeps, over every source and sink (`Keeps` in `sdh_shell/specs/Kept`): each fault has its cause, what
    // isn't asked for stays as it was, and with a plan that has the node, records that it can do, and no call that fails
    // all is done. What `outcome` says is said of the ending of which it is said how many reads failed.
    ensures kept { KeepsBench (asked (words_of words.now))
        (seen_around R.faults R.exact R.left source.old source.new) (seen_around W.faults W.exact W.written sink.old sink.new) result }
{
    match asked(words) {
        Some(ask) => match answer(alloc, ask, source, sink) {
            Ok(ending) => ending,
            Err(AllocError) => Ending::Shared(Status::Memory),
        },
        None => match usage(alloc, sink) {
            Ok(how) => how,
            Err(AllocError) => Ending::Shared(Status::Memory),
        },
    }
}
