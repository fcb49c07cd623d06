//! The ports of circuits: what a customer sends there round by round, by a clock that may slip, and what a port takes
//! from an AU-4 that arrived.
#![tactic(auto)]

pub mod cells;
pub mod chunk;
pub mod clock;
pub mod delivered;
pub mod feed;
pub mod laws;
pub mod port;
mod repeated;
mod short_text;
mod walk;

pub use cells::Cells;
pub use chunk::{ChunkForm, lay_chunk_in_place, take_chunk, take_chunk_in_place};
pub use clock::Turn;
pub use delivered::{Delivered, Front};
pub use feed::Feed;
pub use port::{Port, PortError};
pub use walk::trace_byte;
