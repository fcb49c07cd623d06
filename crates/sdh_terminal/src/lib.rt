//! The parts of a ring node that handle frames and pointers: sides that receive frames and interpret pointers, ports
//! that add and drop, and sides that generate pointers and send frames.
//!
//! A `Matrix` decides where AU-4s come from. Each kind of node has its own. An `Exit` decides where frames are
//! scrambled to.
#![tactic(auto)]

mod deliveries;
mod exit;
mod inlet;
mod intake;
mod making;
mod matrix;
mod outlet;
mod passing;
mod sender;
mod tributaries;
mod tributary;

pub use deliveries::{Deliveries, Delivers};
pub use exit::{Exit, InPlace};
pub use inlet::Inlet;
pub use intake::{Intake, h3_at};
pub use matrix::{Feeder, Matrix};
pub use outlet::{Outlet, Outlets, TakenPair};
pub use sender::{Sender, send_both};
pub use tributaries::Tributaries;
