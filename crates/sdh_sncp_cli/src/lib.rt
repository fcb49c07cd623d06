//! The call of the program `sdhpath`, which runs a path ring: from the words, a source of bytes and a plant to a number
//! and a text. A plan's script is run step by step over a path ring and its fibres, and the report of each settle step
//! is appended to a text.
//!
//! What a script comes to is `Runs` in `sdh_scripts`. What its reports owe to each port is `PathOwesAll` in
//! `specs/Promise.antt`.
#![tactic(auto)]

mod ending;
mod laws;
mod program;
mod reports;
mod run;
mod script;
mod steps;
mod top;

pub use ending::Ending;
pub use laws::{path_scripts_settle, reports_are_due};
pub use top::sdhpath;
