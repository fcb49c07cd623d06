//! The program's call.
ghost use Rattle.std.specs.Prelude.{◌≡◌, IfSome, is_some, true};
ghost use Rattle.sdh_plant.specs.Fibres.{HasNoFibres};
ghost use Rattle.sdh_shell.specs.Calls.{words_of, is_run};
ghost use Rattle.sdh_shell.specs.Reading.{told_if};
ghost use Rattle.sdh_shell.specs.Failing.{Counts};
ghost use Rattle.sdh_programs.specs.Outcome.{Answers};
ghost use Rattle.sdh_programs.specs.Headline.{Shows, AlwaysSettles};
ghost use Rattle.sdh_watch.specs.Plans.{ShowsClean};
ghost use Rattle.sdh_watch.specs.Headline.{asked, watching, IsNumberOf, EndsAsItRuns};
ghost use Rattle.sdh_shell.specs.Kept.{seen_around};
ghost use Rattle.sdh_programs.specs.Calls.{AtOnce, KeepsCall};

use crate::program::Watching;
use sdh_outside::{Sink, Source};
use sdh_plant::Plant;
use sdh_programs::call;
use std::alloc::Global;

/// Does all that the program does, and returns the number with which it ends. With the word `run` it reads a plan from
/// the source and runs its ring over the plant. After each settle step that ends with a window, a new watch looks at
/// what each port delivers in 128 more rounds. The lines of all watches come after the line of the step. The last line
/// says how the run ended. The text is written once, at the end.
pub fn sdhwatch<R: Source, W: Sink, P: Plant>(
    alloc: Global,
    words: &[String],
    source: &mut R,
    sink: &mut W,
    plant: &mut P,
) -> u8
    requires fresh { HasNoFibres (P.fibres plant.old) }

    // The number and the text that is written, where the bytes of a source that is read are known, and where the sink
    // shows what was written.
    ensures outcome { let ask = asked (words_of words.now) in
        let reads : Counts = record { before = R.faults source.old; after = R.faults source.new } in
        let calls : Counts = record { before = P.faults plant.old; after = P.faults plant.new } in
        IfSome (told_if (is_some ask) (R.left source.old)) (λ bytes. Answers watching ask bytes (P.fibres plant.old) (P.fibres plant.new)
        reads calls result (W.written sink.old) (W.written sink.new)) }

    // Over honest fibres: each watch shows what its port is owed, and with a large limit no settle step is unsettled.
    ensures owed { is_run (words_of words.now) ≡ true → (P.fibres plant.old).honest ≡ true → IfSome (R.left source.old) (λ bytes.
        IsNumberOf result (λ how. Shows watching tt ShowsClean bytes how (W.written sink.old) (W.written sink.new))) }
    ensures settles { is_run (words_of words.now) ≡ true → (P.fibres plant.old).honest ≡ true
        → IfSome (R.left source.old) (λ bytes. IsNumberOf result (λ how. AlwaysSettles bytes how)) }

    // Where arrivals are known, unsettled comes at exactly the settle step in which no quiet window comes within the
    // limit.
    ensures unsettled { is_run (words_of words.now) ≡ true
        → IfSome (R.left source.old) (λ bytes. IsNumberOf result (λ how. EndsAsItRuns bytes (P.fibres plant.old) how)) }

    // What the call keeps, over every source, sink and plant (`KeepsAll` in `sdh_shell/specs/Kept`): each fault has its
    // cause, what isn't asked for stays as it was, and where all that a run needs is given, and no call fails, all is
    // done.
    ensures kept { IsNumberOf result (λ how. KeepsCall watching AtOnce (asked (words_of words.now))
        (seen_around R.faults R.exact R.left source.old source.new)
        (seen_around W.faults W.exact W.written sink.old sink.new) (seen_around P.faults P.exact P.fibres plant.old plant.new) how) }
{
    call::<P, Watching, R, W>(alloc, words, source, sink, plant).number()
}
