//! What is asked is done with a plan.
ghost use Rattle.std.specs.Prelude.{◌≡◌, ◌≤◌, true, IfOk, OnErr};
ghost use Rattle.sdh_basics.specs.Causes.{Rose, IsCounted};
ghost use Rattle.sdh_plant.specs.Fibres.{HasNoFibres};
ghost use Rattle.sdh_status.specs.declared.Status.{Status};
ghost use Rattle.sdh_shell.specs.Failing.{Counts};
ghost use Rattle.sdh_programs.specs.Programs.{Runs};
ghost use Rattle.sdh_programs.specs.Calls.{Goes};

use crate::program::{Deed, Program};
use sdh_outside::Output;
use sdh_plan::Plan;
use sdh_plant::Plant;
use sdh_report::{LINE_MAX, Status, Text};
use sdh_scripts::{NewRun, run_over};
use sdh_shell::{EndedText, Ends, ended, write_ended};
use std::alloc::{AllocError, Global};

/// Returns the program's own ending for a status that all programs share.
pub fn ending_of<'a, O: Output, P: Plant, M: Program<'a, O, P>>(status: Status) -> M::Ending
    ensures { result ≡ M.program.endings.of status }
{
    M::Ending::of(status)
}

/// The endings of a program are those that its type `Ending` has.
pub fn endings_agree<'a, O: Output, P: Plant, M: Program<'a, O, P>>()
    ensures { M.program.endings ≡ M.Ending.endings }
{}

/// Does what is asked with a plan, and runs it over new fibres where it is to be run. Writes what is reported of the
/// plan, and the last line. After a write that failed nothing more is run. Returns the ending. All memory is taken
/// before the first round.
pub fn carry_out<'a, O: Output, P: Plant, M: Program<'a, O, P>>(
    alloc: Global,
    asked: M,
    plan: Plan,
    output: &mut O,
    plant: &mut P,
) -> Result<M::Ending, AllocError>
    requires fresh { HasNoFibres (P.fibres plant.old) }
    requires room { O.Takes 96 output.old }
    ensures goes { let calls : Counts = record { before = P.faults plant.old; after = P.faults plant.new } in IfOk result
        (λ end. Goes M.program M.cut (M.ask_of asked) plan (P.fibres plant.old) (P.fibres plant.new) P.exact calls end
        (O.written output.old) (O.written output.new)) }

    // A plan that isn't to be run leaves the plant as it is.
    ensures alone { ((listing : M.Listing) → ¬ (M.program.Does (M.ask_of asked) plan (Runs listing))) → plant.new ≡ plant.old }
    ensures fault { IfOk result
        (λ end. end ≡ M.program.endings.of Status.WriteFault → Rose (O.faults output.old) (O.faults output.new)) }
    ensures writes { IfOk result
        (λ end. IsCounted O.exact (end ≡ M.program.endings.of Status.WriteFault) (O.faults output.old) (O.faults output.new)) }
    ensures without { OnErr result (P.exact ≡ true → P.faults plant.new ≡ P.faults plant.old) }
    ensures later { (P.faults plant.old ≤ P.faults plant.new) × (O.faults output.old ≤ O.faults output.new) }
    ensures unwritten { OnErr result (M.Reserves output.old output.new) }
    ensures unsent { OnErr result (P.fibres plant.new ≡ P.fibres plant.old) }
{
    endings_agree::<O, P, M>();
    asked.laws();
    let mut line = Text::try_new(alloc, LINE_MAX)?;
    let deed = asked.deed(alloc, plan, output)?;
    match deed {
        Deed::Refuse(why) => Ok(write_ended(output, ended(why, line))),
        Deed::Write(text) => Ok(write_ended(output, ended(ending_of::<O, P, M>(Status::Ok), text))),
        Deed::Run(listing, new_run) => {
            let NewRun {
                runner: mut run,
                script,
            } = new_run;
            let status = run_over(alloc, plant, &mut run, script, output)?;
            match status {
                Status::WriteFault => Ok(ending_of::<O, P, M>(Status::WriteFault)),
                _ => {
                    let ending = asked.close(listing, &run, status, &mut line);
                    Ok(write_ended(output, EndedText { ending, text: line }))
                }
            }
        }
    }
}
