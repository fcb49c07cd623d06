//! How the program ends.
ghost use Rattle.std.specs.Prelude.{◌≡◌};
ghost use Rattle.sdh_retime_cli.specs.Outcome.{number_of};

/// How the program ends. Each status but `WriteFault` and `Memory` comes with a text.
#[derive(Clone, Copy, Debug, PartialEq, Eq)]
pub enum Status {
    /// All whole chunks were taken in.
    Ok,
    /// The words aren't one word of digits.
    Usage,
    /// The source failed.
    ReadFault,
    /// The sink failed. What was written is the front of a text.
    WriteFault,
    /// The source has more than 1,048,576 bytes.
    TooLong,
    /// This turn, counted from 1, is a drift: the store would hold too few or too many bytes after its chunk.
    Drift(usize),
    /// Memory ran out. Nothing was written.
    Memory,
}

impl Status {
    /// Returns the number with which the program ends.
    pub fn number(&self) -> u8
        ensures { result ≡ number_of self.now }
    {
        match self {
            Status::Ok => 0,
            Status::Usage => 2,
            Status::ReadFault => 3,
            Status::WriteFault => 4,
            Status::TooLong => 9,
            Status::Drift(_) => 12,
            Status::Memory => 70,
        }
    }
}
