//! One add-drop multiplexer of the ring. It reads a whole frame from each side. From the words of the K bytes, the
//! defects and the commands it decides what it bridges, switches or squelches. It delivers to its ports, and sends a
//! whole frame on each side.
//!
//! The round is `node_round` in `specs/Node.antt`.
#![tactic(auto)]

mod adm;
mod cross;
mod receiver;
pub mod rings;
mod signs;
mod station;
mod taking;

pub use adm::Adm;
pub use sdh_payload::{Delivered, Turn};
pub use sdh_request::Settings;
pub use taking::{EachRound, Taking, WhenAsked};
