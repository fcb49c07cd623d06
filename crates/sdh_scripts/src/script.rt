//! A script, step by step.
ghost use Rattle.std.specs.Prelude.{◌≡◌, ◌≢◌, ◌+◌, ◌≤◌, [], ◌∷◌, List, Err, IfOk, IfErr, OnOk};
ghost use Rattle.sdh_basics.specs.Causes.{Rose, IsCounted};
ghost use Rattle.sdh_rounds.specs.Held.{world};
ghost use Rattle.sdh_plan.specs.declared.step.Step.{Step};
ghost use Rattle.sdh_status.specs.declared.Status.{Status};
ghost use Rattle.sdh_scripts.specs.Tellers.{ended_by};
ghost use Rattle.sdh_scripts.specs.Texts.{room_for, Went, StopsAt, FailsAt, Lists, WriteFailed};

use crate::teller::{StepError, Teller};
use sdh_outside::Output;
use sdh_plan::Step;
use sdh_plant::Plant;
use sdh_report::Status;

// Returns how a script ends with settle step `number`, by why the step did not end.
fn ended_by(why: StepError, number: u32) -> Status
    ensures { result ≡ ended_by why number }
{
    match why {
        StepError::Unsettled => Status::Unsettled(number),
        StepError::PlantFault => Status::PlantFault,
        StepError::WriteFault => Status::WriteFault,
    }
}

// Runs one step, before which `number` settle steps have ended. Returns the number that have ended after it, or how
// the script ended.
fn run_step<O: Output, P: Plant, R: Teller<O, P>>(
    runner: &mut R,
    plant: &mut P,
    step: Step,
    limit: u32,
    number: u32,
    output: &mut O,
) -> Result<u32, Status>
    requires may { (later : List Step) × R.MayRun number (step ∷ later) runner.old (P.fibres plant.old) }
    requires room { O.Takes (room_for (R.room runner.old) number) output.old }
    requires some { 1 ≤ limit }
    requires few { limit ≤ 65536 }
    ensures ok { IfOk result (λ n. Went R.walk limit (R.text_of runner.old) number (step ∷ []) (world (R.ring runner.old) (P.fibres plant.old))
        (O.written output.old) (O.written output.new) n (world (R.ring runner.new) (P.fibres plant.new))) }
    ensures next { IfOk result (λ n. (later : List Step) → R.MayRun number (step ∷ later) runner.old (P.fibres plant.old)
        → R.MayRun n later runner.new (P.fibres plant.new)) }
    ensures room { IfOk result (λ n. O.Takes (room_for (R.room runner.old) n) output.new) }
    ensures line_room { O.Takes 96 output.new }
    ensures stops { IfErr result (λ end. end ≢ Status.WriteFault → StopsAt R.walk limit (R.begun_of runner.old) number step
        (world (R.ring runner.old) (P.fibres plant.old)) (O.written output.old) (O.written output.new) end
        (world (R.ring runner.new) (P.fibres plant.new))) }
    ensures fails { result ≡ Err Status.WriteFault → FailsAt R.walk limit (R.text_of runner.old) (R.begun_of runner.old) number step
        (world (R.ring runner.old) (P.fibres plant.old)) (O.written output.old) (O.written output.new)
        (world (R.ring runner.new) (P.fibres plant.new)) }
    ensures writes { OnOk result (R.text_of runner.new ≡ R.text_of runner.old) }
    ensures begins { OnOk result (R.begun_of runner.new ≡ R.begun_of runner.old) }
    ensures same_room { OnOk result (R.room runner.new ≡ R.room runner.old) }
    ensures later { P.faults plant.old ≤ P.faults plant.new }
    ensures later_writes { O.faults output.old ≤ O.faults output.new }
    ensures failed { result ≡ Err Status.PlantFault → Rose (P.faults plant.old) (P.faults plant.new) }
    ensures cut { result ≡ Err Status.WriteFault → Rose (O.faults output.old) (O.faults output.new) }
    ensures counted { IsCounted P.exact (result ≡ Err Status.PlantFault) (P.faults plant.old) (P.faults plant.new) }
    ensures writes_counted { IsCounted O.exact (result ≡ Err Status.WriteFault) (O.faults output.old) (O.faults output.new) }
{
    match step {
        Step::Settle => match runner.settle(plant, limit, number, output) {
            Ok(()) => Ok(number + 1),
            Err(why) => Err(ended_by(why, number + 1)),
        },
        _ => match runner.change(plant, step) {
            Ok(()) => Ok(number),
            Err(_) => Err(Status::PlantFault),
        },
    }
}

/// Runs a script over a ring and its fibres, and writes what is reported of each settle step as it comes. Returns how
/// the script ended: `Ok`, `Unsettled` or `PlantFault`; or `WriteFault`, where a write failed, and nothing more was
/// run.
pub fn run_script<O: Output, P: Plant, R: Teller<O, P>>(
    runner: &mut R,
    plant: &mut P,
    steps: &[Step],
    limit: u32,
    output: &mut O,
) -> Status
    requires may { R.MayRun 0 steps.now runner.old (P.fibres plant.old) }
    requires room { O.Takes (room_for (R.room runner.old) 0) output.old }
    requires some { 1 ≤ limit }
    requires few { limit ≤ 65536 }
    ensures ran { result ≢ Status.WriteFault → Lists R.walk limit (R.text_of runner.old) (R.begun_of runner.old) steps.now
        (world (R.ring runner.old) (P.fibres plant.old)) (O.written output.old) (O.written output.new) result
        (world (R.ring runner.new) (P.fibres plant.new)) }
    ensures fails { result ≡ Status.WriteFault → WriteFailed R.walk limit (R.text_of runner.old) (R.begun_of runner.old) steps.now
        (world (R.ring runner.old) (P.fibres plant.old)) (O.written output.old) (O.written output.new)
        (world (R.ring runner.new) (P.fibres plant.new)) }
    ensures room { O.Takes 96 output.new }
    ensures later { (P.faults plant.old ≤ P.faults plant.new) × (O.faults output.old ≤ O.faults output.new) }
    ensures failed { result ≡ Status.PlantFault → Rose (P.faults plant.old) (P.faults plant.new) }
    ensures cut { result ≡ Status.WriteFault → Rose (O.faults output.old) (O.faults output.new) }

    // Where a count of faults is exact: one call of the plant failed if the script ended with a plant fault, one write
    // if it ended with a write fault, and none with any other ending.
    ensures counted { IsCounted P.exact (result ≡ Status.PlantFault) (P.faults plant.old) (P.faults plant.new) }
    ensures writes_counted { IsCounted O.exact (result ≡ Status.WriteFault) (O.faults output.old) (O.faults output.new) }
{
    let mut number = 0u32;
    'steps: for step in steps {
        match run_step(runner, plant, *step, limit, number, output) {
            Ok(ended) => number = ended,
            Err(how) => return how,
        }
    }
    Status::Ok
}
