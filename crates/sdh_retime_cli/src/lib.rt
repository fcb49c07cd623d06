//! The call of the program `sdhretime`. The call is given the words of the command line and a source of bytes. It
//! writes a text, and returns the number with which the program ends. The program takes a customer's bytes into an
//! elastic store, and gives them at a pace of its own. In a turn the store takes one chunk in and gives the bytes of
//! one frame. In the first turn it gives none. A turn is a *drift* if taking the chunk in and giving the frame's bytes
//! would leave too few or too many bytes in the store. The store then refuses the whole turn: it takes nothing in and
//! gives nothing.
#![tactic(auto)]

mod digits;
pub mod laws;
mod retiming;
mod status;
mod top;

pub use status::Status;
pub use top::retime;
