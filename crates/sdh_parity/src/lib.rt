//! The scrambler and the parities of a frame (ITU-T G.707 clauses 6.5 and 9.2), over plain bytes.
#![tactic(auto)]

mod adding;
mod difference;
mod laws;
mod parity;
mod pieces;
mod scrambler;
mod through;
mod whole;

pub use difference::{differing_bits, violations};
pub use laws::scrambling_is_undone;
pub use parity::{bip_section, bip8};
pub use pieces::{Bip8, BipSection, Scrambler, pieces_make_the_whole, receive_piece, send_piece};
pub use scrambler::{Rate9, scramble};
pub use whole::{FrameParities, open_frame, receive_frame, send_frame, send_frame_to};
