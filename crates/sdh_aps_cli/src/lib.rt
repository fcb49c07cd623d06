//! The one call of the program `sdhaps`. By the words of the command line it reads a plan from a source of bytes, and
//! runs it over any plant. After the first round it writes a line for each node, and after each later one for each node
//! that shows something else than in the round before. Or it writes frames, as they were sent. It returns how it ended.
//!
//! What is shown of a settle step is `Signalled` in `specs/Signalled.antt`, what is listed of it is in
//! `specs/Listing.antt`, and what the program reports of a plan is `signalling` in `specs/Headline.antt`. What reports
//! owe over honest fibres is in `specs/Owed.antt`: it follows from the script alone.
#![tactic(auto)]

ghost use Rattle.sdh_aps_cli.specs.Frames.{FramesAreSent};

mod ending;
mod frames;
mod framing;
pub mod laws;
mod listing;
mod parts;
mod program;
mod recorder;
mod recording;
mod run;
mod running;
mod script;
mod showing;
mod top;
mod window;
mod words;

pub use ending::Ending;
pub use top::sdhaps;

/// What fibres carry after a round are the frames that the nodes sent in it, by the definitions of a round.
#[tactic(auto, using(crate::proofs::FrameRounds::sent_are))]
pub fn frames_are_sent()
    ensures { FramesAreSent }
{}
