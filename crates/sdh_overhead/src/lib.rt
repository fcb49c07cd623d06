//! Section overhead both ways (ITU-T G.707 clause 9.2): framing, K bytes, the parities B1 and B2, and the scrambler.
#![tactic(auto)]

mod landed;
mod laws;
mod overhead;
mod rows;
mod section;

pub use landed::{Landed, read_landed};
pub use laws::{fields_are_found, what_is_written_is_read};
pub use section::{Section, read_row, read_section, write_row, write_section, write_section_to};

/// What the overhead of a received frame says.
#[derive(Clone, Copy, Debug, PartialEq, Eq)]
pub enum Received {
    /// K1 and K2, and in `b1` and `b2` the number of bits in which B1 and B2 differ from the parities of the frame
    /// before. Both are 0 where those parities are not known.
    Framed { k1: u8, k2: u8, b1: u32, b2: u32 },
    /// A byte A1 isn't F6, or a byte A2 isn't 28 (hexadecimal).
    Unframed,
}
