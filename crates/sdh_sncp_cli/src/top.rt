//! The program's call.
ghost use Rattle.std.specs.Prelude.{◌≡◌, IfSome, true};
ghost use Rattle.sdh_plant.specs.Fibres.{HasNoFibres};
ghost use Rattle.sdh_shell.specs.Failing.{Counts};
ghost use Rattle.sdh_shell.specs.Calls.{words_of};
ghost use Rattle.sdh_sncp_cli.specs.Endings.{number_of};
ghost use Rattle.sdh_sncp_cli.specs.declared.ending.Ending.{Ending};
ghost use Rattle.sdh_sncp_cli.specs.Outcome.{Answers, told};
ghost use Rattle.sdh_sncp_cli.specs.Headline.{Delivers, EndsAsItRuns, AlwaysSettles};
ghost use Rattle.sdh_shell.specs.Kept.{seen_around};
ghost use Rattle.sdh_programs.specs.Calls.{AtOnce, KeepsCall};
ghost use Rattle.sdh_shell.specs.Calls.{asked_to_run};
ghost use Rattle.sdh_sncp_cli.specs.Outcome.{pathing};

use crate::program::Pathing;
use sdh_outside::{Sink, Source};
use sdh_plant::Plant;
use sdh_programs::call;
use std::alloc::Global;

/// Does all that the program does, and returns the number with which it ends. With the word `run` it reads a plan from
/// the source, runs its path ring over the plant, and writes the report of each settle step that settles: a line of the
/// step and one of each port. The last line says how the run ended. The text is written once, at the end.
pub fn sdhpath<R: Source, W: Sink, P: Plant>(
    alloc: Global,
    words: &[String],
    source: &mut R,
    sink: &mut W,
    plant: &mut P,
) -> u8
    requires fresh { HasNoFibres (P.fibres plant.old) }

    // The number and the text that is written, where the bytes of a source that is read are known, and where the sink
    // shows what was written. Over every plant the frames sent are those of the run. Where the arrivals are known, all
    // of these frames are known.
    ensures outcome { let reads : Counts = record { before = R.faults source.old; after = R.faults source.new } in
        let calls : Counts = record { before = P.faults plant.old; after = P.faults plant.new } in
        IfSome (told (words_of words.now) (R.left source.old)) (λ bytes. Answers (words_of words.now) bytes (P.fibres plant.old)
        (P.fibres plant.new) reads calls result (W.written sink.old) (W.written sink.new)) }

    // Over honest fibres the reports show for every port what it is owed, and with a large limit no settle step is
    // unsettled.
    ensures owed { (P.fibres plant.old).honest ≡ true
        → IfSome (R.left source.old) (λ bytes. Delivers (words_of words.now) bytes result (W.written sink.old) (W.written sink.new)) }
    ensures settles { (P.fibres plant.old).honest ≡ true
        → IfSome (R.left source.old) (λ bytes. AlwaysSettles (words_of words.now) bytes result) }

    // Where arrivals are known, unsettled comes exactly where a settle step has no quiet window within the limit.
    ensures unsettled { IfSome (R.left source.old) (λ bytes. EndsAsItRuns (words_of words.now) bytes (P.fibres plant.old) result) }

    // What the call keeps, over every source, sink and plant (`KeepsAll` in `sdh_shell/specs/Kept`): each fault has its
    // cause, what isn't asked for stays as it was, and where all that a run needs is given, and no call fails, all is
    // done.
    ensures kept { (how : Ending) × (result ≡ number_of how) × KeepsCall pathing AtOnce (asked_to_run (words_of words.now))
        (seen_around R.faults R.exact R.left source.old source.new)
        (seen_around W.faults W.exact W.written sink.old sink.new) (seen_around P.faults P.exact P.fibres plant.old plant.new) how }
{
    call::<P, Pathing, R, W>(alloc, words, source, sink, plant).number()
}
