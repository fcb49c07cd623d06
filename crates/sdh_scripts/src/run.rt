//! A whole run: the fibres of a script are made, and it runs.
ghost use Rattle.std.specs.Prelude.{◌≡◌, ◌≢◌, ◌≤◌, ◌^◌, true, IfOk, OnOk, OnErr};
ghost use Rattle.sdh_basics.specs.Causes.{Rose, IsCounted};
ghost use Rattle.sdh_plant.specs.Fibres.{HasNoFibres};
ghost use Rattle.sdh_status.specs.declared.Status.{Status};
ghost use Rattle.sdh_rounds.specs.Held.{world};
ghost use Rattle.sdh_scripts.specs.Texts.{room_for, WriteFailed};
ghost use Rattle.sdh_scripts.specs.Outcomes.{with_fibres};
ghost use Rattle.sdh_scripts.specs.Streams.{WroteSteps};
ghost use Rattle.sdh_scripts.specs.NewRuns.{MayStartRun};

use crate::script::run_script;
use crate::teller::Teller;
use sdh_outside::Output;
use sdh_plan::Step;
use sdh_plant::{Plant, PrepareError};
use sdh_report::{LINE_MAX, Status};
use sdh_ringmap::Rate;
use std::alloc::{AllocError, Global};

/// The largest number of settle steps in a script.
const SETTLES_MAX: usize = 64;

/// Returns room enough, in bytes, for what is written of all settle steps of a script, `each` of each, and for a last
/// line.
pub fn script_room(each: usize) -> usize
    requires { each ≤ 2 ^ 32 }
    ensures { result ≡ room_for each 0 }
{
    each * SETTLES_MAX + LINE_MAX
}

/// A script before its fibres are there: the rate and the number of the nodes of its ring, the steps, and the number of
/// rounds that each settle step has at most.
#[derive(Drop)]
pub struct NewScript {
    pub rate: Rate,
    pub nodes: usize,
    pub steps: Vec<Step>,
    pub limit: u32,
}

/// A run before its fibres are there: a ring in which no round has run, with what reports it, and its script.
#[derive(Drop)]
pub struct NewRun<R> {
    pub runner: R,
    pub script: NewScript,
}

/// Makes the fibres of a script, runs it over them, and writes what is reported of each settle step as it comes.
/// Returns how the script ended: `Ok`, `Unsettled` or `PlantFault`; or `WriteFault`, where a write failed, and nothing
/// more was run. The plant's memory is taken before the first round.
pub fn run_over<O: Output, P: Plant, R: Teller<O, P>>(
    alloc: Global,
    plant: &mut P,
    runner: &mut R,
    script: NewScript,
    output: &mut O,
) -> Result<Status, AllocError>
    requires fresh { HasNoFibres (P.fibres plant.old) }
    requires ready { MayStartRun R.ring R.MayRun runner.old script }
    requires room { O.Takes (room_for (R.room runner.old) 0) output.old }

    // Either no fibres were made. Or the text lists reports that came over the fibres prepared for the ring, and then
    // what is written of the step that stopped the script before its end, if one did.
    ensures wrote { IfOk result (λ end. end ≢ Status.WriteFault → WroteSteps R.walk script.limit (R.text_of runner.old)
        (R.begun_of runner.old) script.steps.items (with_fibres (R.ring runner.old) (P.fibres plant.old)) (P.fibres plant.old)
        (O.written output.old) (O.written output.new) end (world (R.ring runner.new) (P.fibres plant.new))) }
    ensures breaks { IfOk result (λ end. end ≡ Status.WriteFault → WriteFailed R.walk script.limit (R.text_of runner.old)
        (R.begun_of runner.old) script.steps.items (with_fibres (R.ring runner.old) (P.fibres plant.old))
        (O.written output.old) (O.written output.new) (world (R.ring runner.new) (P.fibres plant.new))) }
    ensures failed { IfOk result (λ end. end ≡ Status.PlantFault → Rose (P.faults plant.old) (P.faults plant.new)) }
    ensures cut { IfOk result (λ end. end ≡ Status.WriteFault → Rose (O.faults output.old) (O.faults output.new)) }

    // Where a count of faults is exact: one call of the plant failed if the script ended with a plant fault, one write
    // if it ended with a write fault, and none with any other ending or where memory ran out.
    ensures counted { IfOk result (λ end. IsCounted P.exact (end ≡ Status.PlantFault) (P.faults plant.old) (P.faults plant.new)) }
    ensures writes_counted { IfOk result (λ end. IsCounted O.exact (end ≡ Status.WriteFault) (O.faults output.old) (O.faults output.new)) }
    ensures uncounted { OnErr result (P.exact ≡ true → P.faults plant.new ≡ P.faults plant.old) }
    ensures later { (P.faults plant.old ≤ P.faults plant.new) × (O.faults output.old ≤ O.faults output.new) }
    ensures room { OnOk result (O.Takes 96 output.new) }

    // Where memory ran out nothing was written, no fibre was made, and no round has run.
    ensures unwritten { OnErr result (output.new ≡ output.old) }
    ensures unsent { OnErr result (P.fibres plant.new ≡ P.fibres plant.old) }
{
    match plant.prepare(alloc, script.rate, script.nodes) {
        Ok(()) => Ok(run_script(runner, plant, &script.steps, script.limit, output)),
        Err(PrepareError::Memory) => Err(AllocError),
        Err(PrepareError::Failed) => Ok(Status::PlantFault),
    }
}
