//! The restoration model: what a ring owes its customers, in spans, arcs and customers' bytes alone.
//!
//! The definitions in `specs/` are what reports are compared with. The functions here compute what the definitions say.
#![tactic(auto)]

pub mod applied;
pub mod history;
pub mod routes;
