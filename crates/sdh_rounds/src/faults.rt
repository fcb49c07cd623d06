//! Why a round or a settle step didn't end as it should.
ghost use Rattle.std.specs.Prelude.{◌≡◌};

use sdh_plant::Failed;
use thiserror::Error;

/// A call of the plant failed. Where it was one of a round, the ring is broken from then on.
#[derive(Clone, Copy, Debug, PartialEq, Eq, Error)]
#[error("a call of the plant failed")]
pub struct PlantFault;

impl From<Failed> for PlantFault {
    fn from(_: Failed) -> PlantFault {
        PlantFault
    }
}

/// Why a settle step didn't end with a quiet window.
#[derive(Clone, Copy, Debug, PartialEq, Eq, Error)]
pub enum SettleError {
    /// The limit's rounds have run, and none of them ended a quiet window.
    #[error("no quiet window in as many rounds as might run")]
    Unsettled,
    /// A call of the plant failed in a round. The ring is broken from then on.
    #[error("a call of the plant failed, and the ring is broken")]
    PlantFault,
}

/// A recorder stopped a settle step after a round.
#[derive(Clone, Copy, Debug, PartialEq, Eq, Error)]
#[error("the settle step was stopped after a round")]
pub struct Stopped;

impl From<PlantFault> for SettleError {
    ghost use Rattle.sdh_rounds.specs.declared.faults.SettleError.TheVariants.{PlantFault as Faulted};

    ghost from_gives = { λ _ e. e ≡ Faulted };

    fn from(_: PlantFault) -> SettleError {
        SettleError::PlantFault
    }
}
