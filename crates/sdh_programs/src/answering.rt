//! The answer to a call: its words lead to an ending and to the text that is written.
ghost use Rattle.std.specs.Prelude.{◌≡◌, ◌+◌, ◌≤◌, true, false, [], Some, Err, IfOk, IfErr, OnErr};
ghost use Rattle.sdh_basics.specs.Causes.{Rose, IsCounted};
ghost use Rattle.sdh_outside.specs.Reading.{TakesFewer};
ghost use Rattle.sdh_plant.specs.Fibres.{HasNoFibres};
ghost use Rattle.sdh_report.specs.Lines.{own_line};
ghost use Rattle.sdh_status.specs.declared.Status.{Status};
ghost use Rattle.sdh_shell.specs.Calls.{words_of};
ghost use Rattle.sdh_shell.specs.Failing.{plan_max, TakesAtMost};
ghost use Rattle.sdh_shell.specs.Writing.{WroteEnding, Whole, telling_of};
ghost use Rattle.sdh_programs.specs.Outcome.{LeavesPlant, reads_source};
ghost use Rattle.sdh_programs.specs.Calls.{AsItComes, Seen, IsAnswer};
ghost use Rattle.sdh_programs.specs.Sources.{IsPlanOf, IsNoPlanOf};

use crate::carrying::{carry_out, ending_of, endings_agree};
use crate::program::Program;
use sdh_outside::{Output, Source};
use sdh_plan::Plan;
use sdh_plant::Plant;
use sdh_report::{LINE_MAX, Status, Text};
use sdh_shell::{EndedText, NoPlan, ended, plan_in, write_ended};
use std::alloc::{AllocError, Global};

// Writes the last line of an ending alone, and returns the ending, or a write fault.
fn answer_line<'a, O: Output, P: Plant, M: Program<'a, O, P>>(
    output: &mut O,
    how: Status,
    line: Text,
) -> M::Ending
    requires room { 96 ≤ line.room }
    requires empty { line.bytes ≡ [] }
    requires takes { O.Takes 96 output.old }
    requires whole { telling_of how ≡ Whole }
    ensures wrote { WroteEnding M.program.endings (M.program.endings.of how) (M.program.endings.line (M.program.endings.of how)) result
        (O.written output.old) (O.written output.new) }
    ensures fault { result ≡ M.program.endings.of Status.WriteFault → Rose (O.faults output.old) (O.faults output.new) }
    ensures writes { IsCounted O.exact (result ≡ M.program.endings.of Status.WriteFault) (O.faults output.old) (O.faults output.new) }
    ensures later { O.faults output.old ≤ O.faults output.new }
{
    endings_agree::<O, P, M>();
    let said = ended(ending_of::<O, P, M>(how), line);
    write_ended(output, said)
}

// Writes how the program is called, and returns the ending of `Usage`, or a write fault.
fn answer_usage<'a, O: Output, P: Plant, M: Program<'a, O, P>>(
    output: &mut O,
    mut line: Text,
) -> M::Ending
    requires room { 96 ≤ line.room }
    requires empty { line.bytes ≡ [] }
    requires takes { O.Takes 96 output.old }
    ensures wrote { WroteEnding M.program.endings (M.program.endings.of Status.Usage) (own_line M.program.usage) result
        (O.written output.old) (O.written output.new) }
    ensures fault { result ≡ M.program.endings.of Status.WriteFault → Rose (O.faults output.old) (O.faults output.new) }
    ensures writes { IsCounted O.exact (result ≡ M.program.endings.of Status.WriteFault) (O.faults output.old) (O.faults output.new) }
    ensures later { O.faults output.old ≤ O.faults output.new }
{
    endings_agree::<O, P, M>();
    line.own_line(M::usage());
    let ending = ending_of::<O, P, M>(Status::Usage);
    write_ended(output, EndedText { ending, text: line })
}

// Returns the plan that what is asked names by itself, or else the plan that is read from the source.
fn plan_for<'a, O: Output, P: Plant, M: Program<'a, O, P>, R: Source>(
    alloc: Global,
    asked: &M,
    source: &mut R,
) -> Result<Plan, NoPlan>
    ensures plan { IfOk result
        (λ plan. IsPlanOf (M.program.own_plan (M.ask_of asked.now)) (R.left source.old) (R.left source.new) plan) }
    ensures none { IfErr result (λ why. IsNoPlanOf (M.program.own_plan (M.ask_of asked.now)) (R.left source.old) (R.left source.new)
        (R.faults source.old) (R.faults source.new) why) }
    ensures counted { IsCounted R.exact (result ≡ Err (NoPlan.Refused Status.ReadFault)) (R.faults source.old) (R.faults source.new) }
    ensures taken { TakesAtMost plan_max (R.left source.old) (R.left source.new) (result ≡ Err (NoPlan.Refused Status.TooLong)) }
    ensures unread { reads_source M.program (Some (M.ask_of asked.now)) ≡ false → source.new ≡ source.old }
    ensures later { R.faults source.old ≤ R.faults source.new }
{
    let Ok(own) = asked.own_plan(alloc) else {
        return Err(NoPlan::Memory);
    };
    match own {
        Some(plan) => Ok(plan),
        None => plan_in(alloc, source),
    }
}

/// Does what the words ask for with `source` and `plant`, writes the result to `output`, and returns the ending.
pub fn answer<'a, O: Output, P: Plant, M: Program<'a, O, P>, R: Source>(
    alloc: Global,
    words: &'a [String],
    source: &mut R,
    output: &mut O,
    plant: &mut P,
) -> Result<M::Ending, AllocError>
    requires fresh { HasNoFibres (P.fibres plant.old) }
    requires room { O.Takes 96 output.old }
    ensures answer { IfOk result (λ end. let seen : Seen = record {
      reads = record { before = R.faults source.old; after = R.faults source.new };
      calls = record { before = P.faults plant.old; after = P.faults plant.new };
      reads_exact = R.exact;
      calls_exact = P.exact;
      source = R.left source.old;
      source_left = R.left source.new;
      fibres = P.fibres plant.old;
      fibres_left = P.fibres plant.new;
    } in IsAnswer M.program (AsItComes M.cut) (M.program.asked (words_of words.now)) seen end (O.written output.old) (O.written output.new)) }
    ensures fault { IfOk result (λ end. end ≡ M.program.endings.of Status.WriteFault → Rose (O.faults output.old) (O.faults output.new)) }
    ensures writes { IfOk result
        (λ end. IsCounted O.exact (end ≡ M.program.endings.of Status.WriteFault) (O.faults output.old) (O.faults output.new)) }
    ensures without { OnErr result
        ((R.exact ≡ true → R.faults source.new ≡ R.faults source.old) × (P.exact ≡ true → P.faults plant.new ≡ P.faults plant.old)) }
    ensures few { OnErr result (TakesFewer (R.left source.old) (R.left source.new) (plan_max + 1)) }
    ensures unread { reads_source M.program (M.program.asked (words_of words.now)) ≡ false → source.new ≡ source.old }
    ensures alone { LeavesPlant M.program (M.program.asked (words_of words.now)) → plant.new ≡ plant.old }
    ensures later { (R.faults source.old ≤ R.faults source.new) × (O.faults output.old ≤ O.faults output.new)
        × (P.faults plant.old ≤ P.faults plant.new) }
    ensures unwritten { OnErr result (M.Reserves output.old output.new) }
    ensures unsent { OnErr result (P.fibres plant.new ≡ P.fibres plant.old) }
{
    // Room for the line is taken first, so that a read that fails is always reported.
    let line = Text::try_new(alloc, LINE_MAX)?;
    let Some(asked) = M::asked(words) else {
        return Ok(answer_usage::<O, P, M>(output, line));
    };
    match plan_for::<O, P, M, R>(alloc, &asked, source) {
        Ok(plan) => carry_out(alloc, asked, plan, output, plant),
        Err(NoPlan::Memory) => Err(AllocError),
        Err(NoPlan::Refused(how)) => Ok(answer_line::<O, P, M>(output, how, line)),
    }
}
