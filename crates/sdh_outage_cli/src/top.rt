//! The program's call.
ghost use Rattle.std.specs.Prelude.{◌≡◌, Some, is_some, IfSome, true};
ghost use Rattle.sdh_plant.specs.Fibres.{HasNoFibres};
ghost use Rattle.sdh_status.specs.declared.Status.{Status};
ghost use Rattle.sdh_shell.specs.Calls.{words_of};
ghost use Rattle.sdh_shell.specs.Reading.{told_if};
ghost use Rattle.sdh_shell.specs.Failing.{Counts};
ghost use Rattle.sdh_shell.specs.Writing.{Writes};
ghost use Rattle.sdh_programs.specs.Outcome.{MayEnd};
ghost use Rattle.sdh_programs.specs.Headline.{AlwaysSettles};
ghost use Rattle.sdh_outage_cli.specs.Words.{OutageAsk, asked};
ghost use Rattle.sdh_outage_cli.specs.Headline.{listening, EndsAsItRuns};
ghost use Rattle.sdh_shell.specs.Kept.{seen_around};
ghost use Rattle.sdh_programs.specs.Calls.{AtOnce, KeepsCall};

use crate::words::Command;
use sdh_outside::{Sink, Source};
use sdh_plant::Plant;
use sdh_programs::call;
use sdh_report::Status;
use std::alloc::Global;

/// Does all that the program does, and returns how it ended. It reads a plan from the source and runs its ring over the
/// plant. With the word `run` it writes of each settle step that ends in how many of the step's rounds each port was
/// without its own customer's bytes, and how. With `trace`, a circuit's name and `a` or `b` it writes what this port
/// got from which round on. The last line says how it ended. All is written once, at the end.
pub fn sdhoutage<R: Source, W: Sink, P: Plant>(
    alloc: Global,
    words: &[String],
    source: &mut R,
    sink: &mut W,
    plant: &mut P,
) -> Status
    requires fresh { HasNoFibres (P.fibres plant.old) }

    // The status and the text that is written, where the bytes of a source that is read are known, and where the sink
    // shows what was written.
    ensures outcome { let ask = asked (words_of words.now) in
        let reads : Counts = record { before = R.faults source.old; after = R.faults source.new } in
        let calls : Counts = record { before = P.faults plant.old; after = P.faults plant.new } in
        IfSome (told_if (is_some ask) (R.left source.old))
        (λ bytes. Writes (λ how text. MayEnd listening ask bytes (P.fibres plant.old) reads calls how text (P.fibres plant.new)) result
        (W.written sink.old) (W.written sink.new)) }

    // Over honest fibres with a large limit no settle step is unsettled.
    ensures settles { (ask : OutageAsk) → asked (words_of words.now) ≡ Some ask → (P.fibres plant.old).honest ≡ true
        → IfSome (R.left source.old) (λ bytes. AlwaysSettles bytes result) }

    // Where arrivals are known, unsettled comes at exactly the settle step in which no quiet window comes within the
    // limit.
    ensures unsettled { (ask : OutageAsk) → asked (words_of words.now) ≡ Some ask
        → IfSome (R.left source.old) (λ bytes. EndsAsItRuns bytes (P.fibres plant.old) result) }

    // What the call keeps, over every source, sink and plant (`KeepsAll` in `sdh_shell/specs/Kept`): each fault has its
    // cause, what isn't asked for stays as it was, and where all that a run needs is given, and no call fails, all is
    // done.
    ensures kept { KeepsCall listening AtOnce (asked (words_of words.now))
        (seen_around R.faults R.exact R.left source.old source.new)
        (seen_around W.faults W.exact W.written sink.old sink.new) (seen_around P.faults P.exact P.fibres plant.old plant.new) result }
{
    call::<P, Command<'_>, R, W>(alloc, words, source, sink, plant)
}
