//! How a node signals in a round, and the line that shows it: its state and far end, the words that it sent, those that
//! it hears, and what its sides ask for. `specs/Showing.antt` says what a node shows, and `specs/Lines.antt` has the
//! line's bytes.
#![tactic(auto)]

mod lines;
mod showing;
mod shown;

pub use lines::{LINE_MAX, signal_line};
pub use showing::shown_of;
pub use shown::{Shown, WordPair, same_shown};
