//! What scripts come to over rings of any kind. `specs/Walks.antt` says what a script needs of a kind of ring,
//! `specs/Scripts.antt` what a script comes to, and `specs/Laws.antt` has the law of scripts.
//!
//! `run_script` runs a script over a `Teller`, which writes each report to an output while the rounds run. What was
//! written, wherever the script stopped, is in `specs/Texts.antt`. `run_over` runs a script over new fibres and any
//! output; what was written then is in `specs/Streams.antt`, and what is reported of a plan is `Tells` in
//! `specs/Plans.antt`.
#![tactic(auto)]

ghost use Rattle.sdh_scripts.specs.Laws.{KeepsRounds, KnownScripts};

mod changing;
mod lines;
mod run;
mod script;
mod teller;

pub use changing::change;
pub use lines::{lines_room, put_ports, put_settle};
pub use run::{NewRun, NewScript, run_over, script_room};
pub use script::run_script;
use sdh_outside::Output;
use sdh_plant::Plant;
pub use teller::{StepError, Teller};

/// Where arrivals are known they determine what a script comes to. A script that a fault broke off comes to the
/// beginning of that.
#[tactic(auto, using(crate::proofs::Known::known_scripts))]
pub fn known_scripts<O: Output, P: Plant, R: Teller<O, P>>()
    ensures { KeepsRounds R.walk → KnownScripts R.walk }
{}
