//! A plan from a source.
ghost use Rattle.std.specs.Prelude.{◌≡◌, ◌⊎◌, ◌≤◌, Ok, Err, IfOk, IfErr, OnOk, IsOk, IfSome};
ghost use Rattle.std.specs.Io.KnownBytes.{IsAtEnd};
ghost use Rattle.sdh_basics.specs.Causes.{Rose, IsCounted};
ghost use Rattle.sdh_shell.specs.Failing.{TakesAtMost};
ghost use Rattle.sdh_shell.specs.Reading.{TellsPlan, IsWhyNone, IsRefusal, HasPlan};

use sdh_outside::{ReadAllError, Source, read_all};
use sdh_plan::{Plan, PlanError, read_plan};
use sdh_report::Status;
use std::alloc::Global;

/// Why there is no plan.
#[derive(Clone, Copy, Debug, PartialEq, Eq)]
pub enum NoPlan {
    /// Memory ran out.
    Memory,
    /// The plan was refused with this status: `ReadFault`, `TooLong`, `NotToml` or `BadPlan`.
    Refused(Status),
}

/// Reads a source to its end, and returns the plan that its bytes are.
pub fn plan_in<R: Source>(alloc: Global, source: &mut R) -> Result<Plan, NoPlan>
    ensures plan { IfOk result (λ plan. IfSome (R.left source.old) (λ bytes. TellsPlan bytes plan)) }
    ensures end { OnOk result (IsAtEnd (R.left source.new)) }
    ensures refused { IfErr result (λ why. IfSome (R.left source.old) (λ bytes. IsWhyNone bytes why)) }
    ensures kind { IfErr result IsRefusal }
    ensures fault { result ≡ Err (NoPlan.Refused Status.ReadFault) → Rose (R.faults source.old) (R.faults source.new) }
    ensures taken { TakesAtMost 1048576 (R.left source.old) (R.left source.new) (result ≡ Err (NoPlan.Refused Status.TooLong)) }

    // Where the source shows the bytes of a plan and no read fails, the plan is returned, or memory ran out.
    ensures complete { HasPlan (R.left source.old) → ¬ (Rose (R.faults source.old) (R.faults source.new))
        → IsOk result ⊎ (result ≡ Err NoPlan.Memory) }
    ensures later { R.faults source.old ≤ R.faults source.new }

    // Where the source's count of faults is exact, one read failed if the result is `ReadFault`, and none otherwise.
    ensures counted { IsCounted R.exact (result ≡ Err (NoPlan.Refused Status.ReadFault)) (R.faults source.old) (R.faults source.new) }
{
    let bytes = match read_all(alloc, source) {
        Ok(bytes) => bytes,
        Err(ReadAllError::Memory) => return Err(NoPlan::Memory),
        Err(ReadAllError::ReadFault) => return Err(NoPlan::Refused(Status::ReadFault)),
        Err(ReadAllError::TooLong) => return Err(NoPlan::Refused(Status::TooLong)),
    };
    match read_plan(alloc, &bytes) {
        Ok(plan) => Ok(plan),
        Err(PlanError::Memory) => Err(NoPlan::Memory),
        Err(PlanError::NotToml) => Err(NoPlan::Refused(Status::NotToml)),
        Err(PlanError::BadPlan { reason, place }) => {
            Err(NoPlan::Refused(Status::BadPlan { reason, place }))
        }
    }
}
