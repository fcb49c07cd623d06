//! The one call of the program `sdhwatch`: from the words, a source of bytes and a plant to a number and a text. A plan
//! is run over any plant with watches. After each settle step a new watch looks at what each port delivers in 128 more
//! rounds, and its line is appended to a text.
//!
//! What a script with watches comes to is `Watches` in `specs/Scripts.antt`. What the watches should show is `AreClean`
//! in `specs/Owed.antt`.
#![tactic(auto)]

pub mod laws;
mod lines;
mod ports;
mod program;
mod run;
mod script;
mod top;

pub use top::sdhwatch;
