//! The one call of the program `sdhoutage`: from the words, a source of bytes and a plant to a status and a text. A
//! plan is run over any plant with a listener on each port. For each settle step a text gets what each port went
//! through, counted round by round, in one line a port; or what one port went through, change by change.
//!
//! What is reported of a settle step is `Outaged` in `specs/Outages.antt`, and what a round is to a port is `kind_of`
//! in `sdh_outage`. What is listed of that is `outages_listed` in `specs/Lines.antt`.
#![tactic(auto)]

pub mod laws;
mod lines;
mod listeners;
mod listing;
mod ports;
mod program;
mod rooms;
mod run;
mod script;
mod streams;
mod top;
mod words;

pub use sdh_report::Status;
pub use top::sdhoutage;
