//! The table that says which circuits survive each failure of a ring, by the restoration model alone: no round is run.
//! `specs/Words.antt` has what words ask for, `specs/Cases.antt` the cases in their order, `specs/Lines.antt` the
//! lines, `specs/Own.antt` what the user's own failures are, `specs/Singles.antt` the number of circuits lost in each
//! failure alone, and `specs/Laws.antt` that each line is true.
#![tactic(auto)]

mod ask;
mod counting;
mod forms;
mod gathered;
pub mod laws;
mod line;
mod lines;
mod names;
mod own;
mod scene;
mod singles;
mod table;
mod top;

pub use ask::{Ask, AskedSoFar, Awaited, Depth, Form, Kind, Kinds, asked};
pub use counting::{Counts, Fate};
pub use forms::{Digits, Entry};
pub use line::Line;
pub use own::OwnFailures;
pub use scene::Scene;
pub use sdh_report::Status;
pub use singles::Tally;
pub use table::write_table;
pub use top::whatif;
