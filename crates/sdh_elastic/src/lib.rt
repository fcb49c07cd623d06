//! Elastic stores. A node whose clock isn't the one of the line takes chunks in at the line's pace and gives frames at
//! its own. It evens out the difference by pointer justifications (ITU-T G.707 clause 8.1). In a turn a store takes in
//! a chunk of 2346 to 2352 bytes, and from the second turn on it gives the bytes of one frame. A turn after which it
//! would hold too few or too many bytes is a drift, and is refused. All numbers of the store are this project's own.
#![tactic(auto)]

mod held;
pub mod laws;
mod lengths;
mod stage;
mod store;

pub use lengths::Lengths;
pub use stage::Stage;
pub use store::{Drift, Elastic};
