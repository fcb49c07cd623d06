//! Rounds of a ring over its fibres, for nodes of any kind. The trait `Station` has what a round asks of a node. A
//! round is defined in `specs/Rounds.antt`, a run with any arrivals in `specs/Runs.antt`, and the end of a settle step
//! in `specs/Quiet.antt`. Each function in this file has a law as its contract and no work to do.
#![tactic(auto)]

ghost use Rattle.sdh_rounds.specs.Laws.{KnownRounds, RoundsKeep, FaultsKeep, HonestRounds, RunsKeep, SettledNumbers, BrokenStepsSend};
ghost use Rattle.sdh_rounds.specs.Laws.{KnownSteps, StepsAreComputed};

mod changing;
mod faults;
mod receiving;
mod ring;
mod sending;
mod showing;
mod station;
mod steps;

pub use changing::TakesChanges;
pub use faults::{PlantFault, SettleError, Stopped};
pub use ring::StationRing;
pub use showing::ShowsPorts;
pub use station::{IntoForm, Station};
pub use steps::{Nobody, Nowhere, Observer, Recorder, RunsRounds, settle, settle_recording};

/// Where the arrivals are known they determine what a round leaves.
pub fn known_rounds_are<S: Station>()
    ensures { KnownRounds S.kind }
{}

/// A round changes nothing of the ring but its nodes and its number of rounds, and keeps the conditions of the fibres.
/// Where the plant reports all frames that were sent, those of the round come after them.
pub fn rounds_keep<S: Station>()
    ensures { RoundsKeep S.kind }
{}

/// A round that a fault broke off keeps the conditions of the fibres. Where the plant reports all frames that were
/// sent, only those that the round had sent before the fault come after the earlier ones.
#[tactic(auto, using(crate::proofs::Laws::faults_keep))]
pub fn faults_keep<S: Station>()
    ensures { FaultsKeep S.kind }
{}

/// Honest fibres stay honest, and what arrives is what was sent, as their conditions let it through.
#[tactic(auto, using(crate::proofs::Honest::honest_rounds))]
pub fn honest_fibres_stay_honest<S: Station>()
    ensures { HonestRounds S.kind }
{}

/// Rounds one after the other change nothing of the ring but its nodes and its number of rounds, and keep the
/// conditions of the fibres. Their frames come, in order, after those that were sent before.
pub fn runs_keep<S: Station>()
    ensures { RunsKeep S.kind }
{}

/// A settle step that ends with a quiet window ends with a round whose number is a multiple of 128 and not 0.
pub fn settled_numbers<S: Station>()
    ensures { SettledNumbers S.kind }
{}

/// A settle step that a fault broke off has sent all frames of its whole rounds, and the first frames of the round
/// after them.
pub fn broken_steps_send<S: Station>()
    ensures { BrokenStepsSend S.kind }
{}

/// Where the arrivals are known they determine what a settle step leaves.
#[tactic(auto, using(crate::proofs::Laws::known_steps))]
pub fn known_steps<S: Station>()
    ensures { KnownSteps S.kind }
{}

/// Where the arrivals are known the number of rounds of a settle step can be computed.
#[tactic(auto, using(crate::proofs::Laws::steps_are_computed))]
pub fn steps_are_computed<S: Station>()
    ensures { StepsAreComputed S.kind }
{}
