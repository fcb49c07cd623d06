//! The frames that are asked for.

use sdh_ringmap::{Pos, Side};

/// The frames that the node of an identifier sends on a side, in `count` rounds from round `first` on.
#[derive(Clone, Copy, Debug, PartialEq, Eq)]
pub struct FrameAsk {
    pub id: u8,
    pub side: Side,
    pub first: u32,
    pub count: u32,
}

/// The frames that the node at a position sends on a side, in `count` rounds from round `first` on.
#[derive(Clone, Copy, Debug, PartialEq, Eq)]
pub struct FrameWindow {
    pub at: Pos,
    pub side: Side,
    pub first: u32,
    pub count: u32,
}
