//! The program's one call: from the words, a source of bytes and a plant to a status and a text. A plan's script is run
//! step by step over a ring and its fibres, and what is listed of each report is appended to a text.
//!
//! What comes of a script is `Runs` in `sdh_owed`, and what its reports owe to each port is `AreOwed` in `sdh_promise`.
#![tactic(auto)]

mod program;
mod reports;
mod run;
mod script;
mod tables;
mod top;
mod words;

pub use sdh_report::Status;
pub use tables::table_text;
pub use top::sdhring;
