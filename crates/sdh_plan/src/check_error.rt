//! Why a part of a document gives no part of a plan.
ghost use Rattle.std.specs.Prelude.{◌≡◌};

use crate::reason::Reason;
use std::alloc::AllocFailed;

/// Why a part of a document gives no part of a plan.
#[derive(Clone, Copy, Debug, PartialEq, Eq)]
pub enum CheckError {
    /// There was no memory.
    Memory,
    /// A check fails. Places of nodes, circuits and steps count from 1, and 0 is the document.
    BadPlan { reason: Reason, place: u32 },
}

impl<T: Drop> From<AllocFailed<T>> for CheckError {
    ghost use Rattle.sdh_plan.specs.declared.check_error.CheckError.TheVariants.{Memory};

    ghost from_gives = { λ _ error. error ≡ Memory };

    fn from(_failed: AllocFailed<T>) -> CheckError {
        CheckError::Memory
    }
}

/// Returns the error of a check of the whole document.
pub fn of_document(reason: Reason) -> CheckError
    ensures { result ≡ CheckError.BadPlan reason 0 }
{
    CheckError::BadPlan { reason, place: 0 }
}
