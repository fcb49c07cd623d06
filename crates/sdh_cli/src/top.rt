//! The program's call.
ghost use Rattle.std.specs.Prelude.{◌≡◌, IfSome, true};
ghost use Rattle.sdh_plant.specs.Fibres.{HasNoFibres};
ghost use Rattle.sdh_status.specs.declared.Status.{Status};
ghost use Rattle.sdh_shell.specs.Calls.{words_of};
ghost use Rattle.sdh_shell.specs.Failing.{Counts};
ghost use Rattle.sdh_shell.specs.Writing.{Writes};
ghost use Rattle.sdh_cli.specs.Words.{asked};
ghost use Rattle.sdh_cli.specs.Outcome.{told, MayEnd};
ghost use Rattle.sdh_cli.specs.Headline.{IsAsPromised, EndsAsItRuns, AlwaysSettles};
ghost use Rattle.sdh_shell.specs.Kept.{seen_around};
ghost use Rattle.sdh_programs.specs.Calls.{AtOnce, KeepsCall};
ghost use Rattle.sdh_cli.specs.Outcome.{ringing};

use crate::words::Command;
use sdh_outside::{Sink, Source};
use sdh_plant::Plant;
use sdh_programs::call;
use sdh_report::Status;
use std::alloc::Global;

/// Does all that the program does, and returns how it ended. With the word `run` it reads a plan from the source, runs
/// its ring over the plant, and writes the report of each settle step that settles. With `drop`, a circuit's name and
/// `a` or `b` it writes of each report all bytes that this port delivers. With `big` and a number it runs the large
/// plan of that number, and writes how many ports show bytes and how many AIS. With `check` it writes the squelch
/// tables of the plan that it reads. The last line says how it ended. All is written once, at the end.
pub fn sdhring<R: Source, W: Sink, P: Plant>(
    alloc: Global,
    words: &[String],
    source: &mut R,
    sink: &mut W,
    plant: &mut P,
) -> Status
    requires fresh { HasNoFibres (P.fibres plant.old) }

    // The status and the text that is written, where the bytes of a source that is read are known, and where the sink
    // shows what was written.
    ensures outcome { let ask = asked (words_of words.now) in
        let reads : Counts = record { before = R.faults source.old; after = R.faults source.new } in
        let calls : Counts = record { before = P.faults plant.old; after = P.faults plant.new } in
        IfSome (told ask (R.left source.old))
        (λ bytes. Writes (λ how text. MayEnd ask bytes (P.fibres plant.old) reads calls how text (P.fibres plant.new)) result
        (W.written sink.old) (W.written sink.new)) }

    // The promise over honest fibres, of one list of reports. The reports show for every port what it is owed. A script
    // of settle steps alone shows a healthy ring. The rounds that gave the reports are as many as the reports say, and
    // what is on the fibres is what these rounds sent. In no round of a settle step does a port deliver another
    // customer's byte, except in a step right before which a node that passes through is held. Soon after the last
    // changes every port delivers what it is owed.
    ensures promised { (P.fibres plant.old).honest ≡ true
        → IfSome (told (asked (words_of words.now)) (R.left source.old)) (λ bytes. IsAsPromised (asked (words_of words.now)) bytes
        (P.fibres plant.old) result (W.written sink.old) (W.written sink.new) (P.fibres plant.new)) }

    // With a large limit no settle step is unsettled.
    ensures settles { (P.fibres plant.old).honest ≡ true
        → IfSome (told (asked (words_of words.now)) (R.left source.old))
        (λ bytes. AlwaysSettles (asked (words_of words.now)) bytes result) }

    // Where arrivals are known and a plan has run without a plant fault, `Unsettled` comes at exactly the settle step
    // in which no quiet window comes within the limit.
    ensures unsettled { IfSome (told (asked (words_of words.now)) (R.left source.old))
        (λ bytes. EndsAsItRuns (asked (words_of words.now)) bytes (P.fibres plant.old) result) }

    // What the call keeps, over every source, sink and plant (`KeepsAll` in `sdh_shell/specs/Kept`): each fault has its
    // cause, what isn't asked for stays as it was, and where all that a run needs is given, and no call fails, all is
    // done.
    ensures kept { KeepsCall ringing AtOnce (asked (words_of words.now))
        (seen_around R.faults R.exact R.left source.old source.new)
        (seen_around W.faults W.exact W.written sink.old sink.new) (seen_around P.faults P.exact P.fibres plant.old plant.new) result }
{
    call::<P, Command<'_>, R, W>(alloc, words, source, sink, plant)
}
