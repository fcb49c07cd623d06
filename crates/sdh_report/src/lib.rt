//! The texts that the program writes, line by line, in room that was reserved before.
#![tactic(auto)]

pub mod laws;
mod lines;
mod listing;
mod node_line;
mod output;
mod text;
mod usage_line;

pub use listing::Listing;
pub use node_line::{NodeLine, StateWord};
pub use sdh_status::Status;
pub use text::{CHUNK_MAX, LINE_MAX, Text};
pub use usage_line::usage;
