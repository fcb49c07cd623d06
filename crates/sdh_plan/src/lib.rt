//! The plan of a run: read from a TOML document, or the large plan of a number.
#![tactic(auto)]

mod big;
mod check_error;
mod circuit;
mod document;
mod draws;
mod error;
mod form;
mod past;
mod plan;
mod reading;
mod reason;
mod ring;
mod script;
mod slips;
mod step;
mod words;

pub use big::big_plan;
pub use error::PlanError;
pub use form::{circuit_named, side_at, turn_at};
pub use plan::Plan;
pub use reading::read_plan;
pub use reason::Reason;
pub use step::Step;
pub use words::{is_word, numeral_in, words_of};
