//! All AU-4s of a frame in one pass: each comes from one of two other frames or from an own payload, or is ones.
#![tactic(auto)]

mod assembling;
mod choice;
mod choose;
mod columns;
mod lanes;
mod own;
mod pass;
mod payloads;
mod table;
mod taken;

pub use assembling::assemble;
pub use choice::Choice;
pub use choose::Source;
pub use own::Payloads;
pub use taken::Taken;
