//! What the programs' calls share: what a program is called with, whether the words are the one word `run`, which end of
//! a circuit a letter names, a plan that is read or refused, the endings of a program, and counts of calls that failed.
//!
//! How a plan is refused is `HasNoPlan` in `specs/Reading.antt`. How a script that was run may end is `HasRun` in
//! `specs/Calls.antt`. The endings of a program are `Endings` in `specs/Endings.antt`, and the failures that an ending
//! shows are `CameToEnding` in `specs/Failing.antt`. The texts that go with an ending are
//! `WritesAs` in `specs/Writing.antt`.
#![tactic(auto)]

mod ended_text;
mod ending;
mod reading;
mod standard;
mod words;

pub use ended_text::{EndedText, ended, write_ended};
pub use ending::Ends;
pub use reading::{NoPlan, plan_in};
pub use standard::run_program;
pub use words::{end_lettered, is_run};
