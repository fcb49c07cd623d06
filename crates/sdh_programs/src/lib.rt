//! The call of a program that runs plans, over any source, sink and plant.
//!
//! A program is a `Program`: what its words ask for, what it makes of a plan (a `Deed`), what it reports of the steps of
//! a script to an output, and how it ends. `call_over` is the call of a program that writes to a sink while it runs.
//! `call` is that of a program whose text is kept in memory until the run has ended. How a call ends is `IsOutcome` in
//! `specs/Outcome.antt`, what was written where a write failed is in `specs/Calls.antt`, and what a program may promise
//! of a plan is in `specs/Headline.antt`. What a program's laws have to say is in `specs/Laws.antt`.
#![tactic(auto)]

mod answering;
mod calling;
mod carrying;
mod closing;
mod program;

pub use calling::{call, call_over};
pub use closing::end_as_script;
pub use program::{Deed, Program};
