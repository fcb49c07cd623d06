//! A ring of add-drop multiplexers: rounds of all its nodes over the fibres between them, and settle steps, which run
//! rounds until a quiet window ends.
//!
//! Its round is `round_with` in `sdh_rounds/specs/Rounds.antt`. Where a step ends is in `sdh_rounds/specs/Quiet.antt`.
#![tactic(auto)]

mod adm_ring;
mod changing;
mod ring;
mod showing;

pub use adm_ring::{AdmRing, Running};
pub use ring::Ring;
pub use sdh_rounds::{Observer, PlantFault, SettleError};
pub use showing::ShowsNodes;
