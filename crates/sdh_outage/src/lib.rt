//! What one port of a ring delivered in the rounds of a settle step, counted.
#![tactic(auto)]

mod change;
mod kind;
mod last;
mod latest;
pub mod laws;
mod lines;
mod listener;
mod outage;
mod part;
mod reach;
mod scratch;
mod summary;
mod trace;
mod window;

pub use change::Change;
pub use kind::{Kind, kind_of_others};
pub use lines::{LINE_MAX, change_line, more_line, of_nobody, of_port, outage_front, summary_line};
pub use listener::Listener;
pub use outage::{Outage, Runs, Stretch};
pub use scratch::Scratch;
pub use summary::Summary;
pub use trace::Trace;
pub use window::Window;
