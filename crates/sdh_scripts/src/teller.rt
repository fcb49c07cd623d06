//! What runs a script and writes its reports as they come.
ghost use Rattle.std.specs.Prelude.{◌≡◌, ℕ, ◌+◌, ◌≤◌, List, ◌∷◌, OnOk, OnErr, IfErr, Err};
ghost use Rattle.sdh_basics.specs.Causes.{HasCause, Rose, IsCounted};
ghost use Rattle.sdh_plant.specs.Fibres.{Fibres};
ghost use Rattle.sdh_rounds.specs.Held.{HeldRing, world};
ghost use Rattle.sdh_plan.specs.declared.step.Step.{Step};
ghost use Rattle.sdh_scripts.specs.Walks.{Walk};
ghost use Rattle.sdh_scripts.specs.Runners.{Refused, WroteStep};

use sdh_outside::Output;
use sdh_plan::Step;
use sdh_plant::Plant;
use sdh_rounds::{PlantFault, SettleError};

/// Why a settle step, with the rounds after it, didn't end.
#[derive(Clone, Copy, Debug, PartialEq, Eq)]
pub enum StepError {
    /// No quiet window came within the limit.
    Unsettled,
    /// A call of the plant failed.
    PlantFault,
    /// A write failed.
    WriteFault,
}

impl From<SettleError> for StepError {
    ghost use Rattle.sdh_scripts.specs.Tellers.{step_error};

    ghost from_gives = { λ why e. e ≡ step_error why };

    fn from(why: SettleError) -> StepError {
        match why {
            SettleError::Unsettled => StepError::Unsettled,
            SettleError::PlantFault => StepError::PlantFault,
        }
    }
}

/// A ring over which the steps of a script run, with fibres of this kind of plant. All that is reported of it is written
/// to an output as it comes.
pub trait Teller<O: Output, P: Plant> {
    ghost use Rattle.sdh_scripts.specs.Tellers.{StopsBy, WroteBegun};

    /// What its nodes are.
    ghost Node: { Type 0 };

    /// What is reported of a settle step.
    ghost Told: { Type 0 };

    /// What a script does with the ring, by definitions.
    ghost walk: { Walk Node Told };

    /// The ring.
    ghost ring: { Self → HeldRing Node };

    /// What is written of the report of a settle step that ended.
    ghost text_of: { Self → Told → List ℕ };

    /// What is written of the report of the rounds of a settle step that didn't end.
    ghost begun_of: { Self → Told → List ℕ };

    /// Room enough for what is written of a settle step, in bytes.
    ghost room: { Self → ℕ };

    /// Whether these steps may run over these fibres, once a number of settle steps have ended.
    ghost MayRun: { ℕ → List Step → Self → Fibres → Type 0 };

    /// Does a step that runs no round. A fault leaves the fibres as they were.
    fn change(&mut self, plant: &mut P, step: Step) -> Result<(), PlantFault>
        requires may { (number : ℕ) × (later : List Step) × MayRun number (step ∷ later) self.old (P.fibres plant.old) }
        requires other { step ≡ Step.Settle → ⊥ }
        ensures ok { OnOk result
            (world (ring self.new) (P.fibres plant.new) ≡ walk.does step (world (ring self.old) (P.fibres plant.old))) }
        ensures next { OnOk result ((number : ℕ) (later : List Step) → MayRun number (step ∷ later) self.old (P.fibres plant.old)
            → MayRun number later self.new (P.fibres plant.new)) }
        ensures err { OnErr result (Refused step (P.fibres plant.old) (P.fibres plant.new)) }
        ensures writes { OnOk result (text_of self.new ≡ text_of self.old) }
        ensures begins { OnOk result (begun_of self.new ≡ begun_of self.old) }
        ensures same_room { OnOk result (room self.new ≡ room self.old) }
        ensures cause { HasCause P.exact (P.faults plant.old) (P.faults plant.new) result };

    /// Runs a settle step, and then the rounds that `walk` has after it, where `number` settle steps have ended before.
    /// What is reported of them is written as it comes, and after a write that fails nothing more is run.
    fn settle(
        &mut self,
        plant: &mut P,
        limit: u32,
        number: u32,
        output: &mut O,
    ) -> Result<(), StepError>
        requires may { (later : List Step) × MayRun number (Step.Settle ∷ later) self.old (P.fibres plant.old) }
        requires room { O.Takes (room self.old) output.old }
        requires some { 1 ≤ limit }
        requires few { limit ≤ 65536 }
        ensures ok { OnOk result (WroteStep walk limit (number + 1) (text_of self.old) (world (ring self.old) (P.fibres plant.old))
            (world (ring self.new) (P.fibres plant.new)) (O.written output.old) (O.written output.new)) }
        ensures next { OnOk result ((later : List Step) → MayRun number (Step.Settle ∷ later) self.old (P.fibres plant.old)
            → MayRun (number + 1) later self.new (P.fibres plant.new)) }
        ensures room { (more : ℕ) → O.Takes (room self.old + more) output.old → O.Takes more output.new }
        ensures err { IfErr result
            (λ why. StopsBy walk limit (world (ring self.old) (P.fibres plant.old)) why (world (ring self.new) (P.fibres plant.new))) }
        ensures begun { IfErr result (λ why. WroteBegun walk limit (number + 1) (text_of self.old) (begun_of self.old)
            (world (ring self.old) (P.fibres plant.old)) why (world (ring self.new) (P.fibres plant.new)) (O.written output.old)
            (O.written output.new)) }
        ensures writes { OnOk result (text_of self.new ≡ text_of self.old) }
        ensures begins { OnOk result (begun_of self.new ≡ begun_of self.old) }
        ensures same_room { OnOk result (room self.new ≡ room self.old) }
        ensures later { (P.faults plant.old ≤ P.faults plant.new) × (O.faults output.old ≤ O.faults output.new) }
        ensures failed { result ≡ Err StepError.PlantFault → Rose (P.faults plant.old) (P.faults plant.new) }
        ensures cut { result ≡ Err StepError.WriteFault → Rose (O.faults output.old) (O.faults output.new) }
        ensures counted { IsCounted P.exact (result ≡ Err StepError.PlantFault) (P.faults plant.old) (P.faults plant.new) }
        ensures writes_counted { IsCounted O.exact (result ≡ Err StepError.WriteFault) (O.faults output.old) (O.faults output.new) };

    /// At most 64 settle steps end.
    ghost few: { (number : ℕ) (later : List Step) (r : Self) (f : Fibres) → MayRun number (Step.Settle ∷ later) r f → number + 1 ≤ 64 };
}
