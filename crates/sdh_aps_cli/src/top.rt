//! The program's call.
ghost use Rattle.std.specs.Prelude.{IfSome};
ghost use Rattle.sdh_plant.specs.Fibres.{HasNoFibres};
ghost use Rattle.sdh_shell.specs.Calls.{words_of};
ghost use Rattle.sdh_shell.specs.Failing.{Counts};
ghost use Rattle.sdh_shell.specs.Writing.{TellsWith};
ghost use Rattle.sdh_programs.specs.Outcome.{MayEndIn, told};
ghost use Rattle.sdh_programs.specs.Calls.{AsItComes, IsCutShort};
ghost use Rattle.sdh_aps_cli.specs.Endings.{signalling_endings};
ghost use Rattle.sdh_aps_cli.specs.Words.{asked};
ghost use Rattle.sdh_aps_cli.specs.Plans.{IsCutRun};
ghost use Rattle.sdh_aps_cli.specs.Headline.{signalling};
ghost use Rattle.sdh_aps_cli.specs.declared.ending.Ending.{Ending};
ghost use Rattle.sdh_shell.specs.Kept.{seen_around};
ghost use Rattle.sdh_programs.specs.Calls.{KeepsCall};

use crate::ending::Ending;
use crate::listing::SignalAsk;
use sdh_outside::{Sink, Source};
use sdh_plant::LendingPlant;
use sdh_programs::call_over;
use sdh_report::Status;
use std::alloc::Global;

/// Does all that the program does, and returns how it ended. With the word `run` it reads a plan from the source and
/// runs its ring over the plant. It writes a line for each node in the first round, and in each later round for each
/// node that shows something new: its state and far end, the words that it sent, those that it hears, and what its
/// sides ask for. With `node` and an identifier it writes these lines for that node alone. Each round is written before
/// the next one runs. A settle step that ends with a quiet window has a line after its rounds, and the last line says
/// how it ended. With `frames`, an identifier, a side, a first round and a number of rounds it writes the frames that
/// the node sent on that side in these rounds, scrambled as on the line, and nothing else. There is a last line then
/// only where the ending isn't `Ok`. The frames are lent by the plant; a plant that lends none can be put into a
/// `KeepingPlant`.
pub fn sdhaps<R: Source, W: Sink, P: LendingPlant>(
    alloc: Global,
    words: &[String],
    source: &mut R,
    sink: &mut W,
    plant: &mut P,
) -> Ending
    requires fresh { HasNoFibres (P.fibres plant.old) }

    // The ending and the text that is written, where the bytes of a source that is read are known, and where the sink
    // shows what was written. Where a write failed while a plan was run, all that was to be written of the rounds before
    // the last one was written, and only a beginning of what that round adds, or its step's end. No round ran after it,
    // and the fibres are as it left them. Where a write failed in the last line, all that was to be reported was written.
    ensures outcome { let ask = asked (words_of words.now) in
        let reads : Counts = record { before = R.faults source.old; after = R.faults source.new } in
        let calls : Counts = record { before = P.faults plant.old; after = P.faults plant.new } in
        IfSome (told signalling ask (R.left source.old)) (λ bytes. TellsWith signalling_endings
        (λ how text. MayEndIn signalling ask bytes (P.fibres plant.old) reads calls how text (P.fibres plant.new))
        (IsCutShort signalling (AsItComes IsCutRun) ask bytes (P.fibres plant.old) (W.written sink.old) (W.written sink.new) (P.fibres plant.new))
        result (W.written sink.old) (W.written sink.new)) }

    // What the call keeps, over every source, sink and plant (`KeepsAll` in `sdh_shell/specs/Kept`): each fault has its
    // cause, what isn't asked for stays as it was, and where all that a run needs is given, and no call fails, all is
    // done.
    ensures kept { KeepsCall signalling (AsItComes IsCutRun) (asked (words_of words.now))
        (seen_around R.faults R.exact R.left source.old source.new)
        (seen_around W.faults W.exact W.written sink.old sink.new) (seen_around P.faults P.exact P.fibres plant.old plant.new) result }
{
    call_over::<W, P, SignalAsk, R>(alloc, words, source, sink, plant)
}
