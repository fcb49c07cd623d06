//! AU pointers: the words H1 and H2, their interpreter and their generator (ITU-T G.707 clause 8.1,
//! after G.783). The tables of interpreter and generator are this project's own.
#![tactic(auto)]

mod generator;
mod interpreter;
pub mod laws;
mod reading;
mod word;

pub use generator::Gen;
pub use interpreter::Interp;
pub use reading::{Action, Event, Mode, Reading};
pub use word::{Form, Word, read_word, word_of, write_word};
