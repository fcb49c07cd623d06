//! Why there is no plan.
ghost use Rattle.std.specs.Prelude.{◌≡◌};
ghost use Rattle.sdh_plan.specs.Answers.{plan_error};

use crate::check_error::CheckError;
use thiserror::Error;

/// Why there is no plan.
#[derive(Clone, Copy, Debug, PartialEq, Eq, Error)]
pub enum PlanError {
    /// There was no memory.
    #[error("no memory")]
    Memory,
    /// The bytes are no TOML document in UTF-8.
    #[error("not a TOML document")]
    NotToml,
    /// A check of the plan fails. `reason` is its number, 1 to 31. Places of nodes, circuits and steps count from 1, and
    /// 0 is the document.
    #[error("the plan fails by reason {reason} at {place}")]
    BadPlan { reason: u8, place: u32 },
}

/// Returns why there is no plan where a part of a document gives none.
pub fn plan_error(why: CheckError) -> PlanError
    ensures { result ≡ plan_error why }
{
    match why {
        CheckError::Memory => PlanError::Memory,
        CheckError::BadPlan { reason, place } => PlanError::BadPlan {
            reason: reason.number(),
            place,
        },
    }
}
