//! What becomes of each circuit of a ring where things fail, by the restoration model alone: no round is run.
//! `specs/Failures.antt` has the failures and their steps, and `specs/Verdicts.antt` what becomes of a circuit.
//! `specs/Resting.antt` has the state of a ring's sides at each settle step, and the requests that follow from it.
//! `specs/Foretold.antt` says that these requests decide what reports show, where the reports show what they owe.
//! `specs/Laws.antt` says that such reports show what becomes of each circuit.
#![tactic(auto)]

mod failure;
pub mod foretold;
mod judging;
pub mod laws;
mod plans;
mod resting;

pub use failure::{Failure, STEPS_MAX, count_of, failure_at, step_of};
pub use judging::{CaseSpans, Sides, SpanSet, Verdict};
pub use plans::{told, told_hops, told_impaired};
