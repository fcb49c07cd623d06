//! The call of a program that runs plans, over any source, sink and plant.
ghost use Rattle.std.specs.Prelude.{◌≡◌, IfSome};
ghost use Rattle.sdh_plant.specs.Fibres.{HasNoFibres};
ghost use Rattle.sdh_shell.specs.Calls.{words_of};
ghost use Rattle.sdh_shell.specs.Failing.{Counts};
ghost use Rattle.sdh_shell.specs.Kept.{seen_around};
ghost use Rattle.sdh_shell.specs.Writing.{WritesWith, TellsWith};
ghost use Rattle.sdh_programs.specs.Outcome.{MayEnd, MayEndIn, told};
ghost use Rattle.sdh_programs.specs.Calls.{AtOnce, AsItComes, IsCutShort, KeepsCall};

use crate::answering::answer;
use crate::carrying::{ending_of, endings_agree};
use crate::program::Program;
use sdh_outside::{Sink, Source};
use sdh_plant::Plant;
use sdh_report::{LINE_MAX, Status, Text};
use sdh_shell::{EndedText, write_ended};
use std::alloc::{AllocError, Global};

/// Does all that a program does, and returns how it ended. The program writes its reports as they come. Where its words
/// ask for something, it reads a plan from the source, unless what is asked names one, and runs it over the plant, or
/// writes a text of it. The last line says how it ended. After a write that failed nothing more is run.
pub fn call_over<'a, W: Sink, P: Plant, M: Program<'a, W, P>, R: Source>(
    alloc: Global,
    words: &'a [String],
    source: &mut R,
    sink: &mut W,
    plant: &mut P,
) -> M::Ending
    requires fresh { HasNoFibres (P.fibres plant.old) }
    requires same { (old new : W) → M.Reserves old new → new ≡ old }

    // The ending and the text that is written, where the bytes of a source that is read are known, and where the sink
    // shows what was written. Where a write failed, all was written that was to be written before, and of what was being
    // written only a beginning.
    ensures outcome { let ask = M.program.asked (words_of words.now) in
        let reads : Counts = record { before = R.faults source.old; after = R.faults source.new } in
        let calls : Counts = record { before = P.faults plant.old; after = P.faults plant.new } in
        IfSome (told M.program ask (R.left source.old)) (λ bytes. TellsWith M.program.endings
        (λ how text. MayEndIn M.program ask bytes (P.fibres plant.old) reads calls how text (P.fibres plant.new))
        (IsCutShort M.program (AsItComes M.cut) ask bytes (P.fibres plant.old) (W.written sink.old) (W.written sink.new) (P.fibres plant.new))
        result (W.written sink.old) (W.written sink.new)) }

    // What the call keeps, over every source, sink and plant (`KeepsAll` in `sdh_shell/specs/Kept`): each fault has its
    // cause, what isn't asked for stays as it was, and where all that is needed is given, and no call fails, everything
    // is done.
    ensures kept { KeepsCall M.program (AsItComes M.cut) (M.program.asked (words_of words.now))
        (seen_around R.faults R.exact R.left source.old source.new) (seen_around W.faults W.exact W.written sink.old sink.new)
        (seen_around P.faults P.exact P.fibres plant.old plant.new) result }
{
    match answer::<W, P, M, R>(alloc, words, source, sink, plant) {
        Ok(ending) => ending,
        Err(AllocError) => ending_of::<W, P, M>(Status::Memory),
    }
}

/// Does all that a program does, and returns how it ended. Where its words ask for something, it reads a plan from the
/// source, unless what is asked names one, and runs it over the plant, or writes a text of it. The last line says how
/// it ended. All is written once, at the end.
pub fn call<'a, P: Plant, M: Program<'a, Text, P>, R: Source, W: Sink>(
    alloc: Global,
    words: &'a [String],
    source: &mut R,
    sink: &mut W,
    plant: &mut P,
) -> M::Ending
    requires fresh { HasNoFibres (P.fibres plant.old) }

    // The ending and the text that is written, where the bytes of a source that is read are known, and where the sink
    // shows what was written.
    ensures outcome { let ask = M.program.asked (words_of words.now) in
        let reads : Counts = record { before = R.faults source.old; after = R.faults source.new } in
        let calls : Counts = record { before = P.faults plant.old; after = P.faults plant.new } in
        IfSome (told M.program ask (R.left source.old)) (λ bytes. WritesWith M.program.endings
        (λ how text. MayEnd M.program ask bytes (P.fibres plant.old) reads calls how text (P.fibres plant.new)) result
        (W.written sink.old) (W.written sink.new)) }

    // What the call keeps, over every source, sink and plant (`KeepsAll` in `sdh_shell/specs/Kept`): each fault has its
    // cause, what isn't asked for stays as it was, and where all that is needed is given, and no call fails, everything
    // is done.
    ensures kept { KeepsCall M.program AtOnce (M.program.asked (words_of words.now))
        (seen_around R.faults R.exact R.left source.old source.new) (seen_around W.faults W.exact W.written sink.old sink.new)
        (seen_around P.faults P.exact P.fibres plant.old plant.new) result }
{
    endings_agree::<Text, P, M>();
    let Ok(mut text) = Text::try_new(alloc, LINE_MAX) else {
        return ending_of::<Text, P, M>(Status::Memory);
    };
    match answer::<Text, P, M, R>(alloc, words, source, &mut text, plant) {
        Ok(ending) => write_ended(sink, EndedText { ending, text }),
        Err(AllocError) => ending_of::<Text, P, M>(Status::Memory),
    }
}
