//! Path supervision: what a port delivers is watched VC-4 by VC-4, by the path overhead bytes J1, B3 and C2 (ITU-T
//! G.707 clause 9.3).
#![tactic(auto)]

pub mod laws;
mod tally;
mod trace;
mod watch;

pub use watch::{BadTrace, PathReport, TraceWord, Watch};
