//! Why no more records are done.

use crate::ending::Flaw;

/// Why no more records are done.
#[derive(Clone, Copy)]
pub enum Stop {
    /// The source has ended.
    Done,
    /// The next record is flawed, and can't be done.
    Bad(Flaw),
    /// A read failed.
    ReadFault,
    /// A write failed.
    WriteFault,
}
