//! What a port delivers in a round.
use crate::cells::Cells;

/// AIS, or the bytes that the port takes from the AU-4 in which its circuit arrives.
#[derive(Debug, Drop)]
pub enum Delivered {
    Ais,
    Chunk(Cells),
}

/// The front of what a port delivers: AIS, or the first 16 bytes that the port takes, and the pointer value with which
/// they come.
#[derive(Clone, Copy, Debug, PartialEq, Eq)]
pub enum Front {
    Ais,
    Bytes([u8; 16], u16),
}
