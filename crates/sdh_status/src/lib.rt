//! The status with which a program ends, and its number. `specs/PortLine.antt` has what a report shows of a port.
#![tactic(auto)]

ghost use Rattle.std.specs.Prelude.{◌≡◌};
ghost use Rattle.sdh_status.specs.Numbers.{number_of};

/// How the program ends. A text goes with each status but `WriteFault` and `Memory`.
#[derive(Clone, Copy, Debug, PartialEq, Eq)]
pub enum Status {
    /// Everything was done.
    Ok,
    /// The words that the program was called with are none of its commands.
    Usage,
    /// The plan couldn't be read: a call of its source failed.
    ReadFault,
    /// The text couldn't be written to its end: a call of the sink failed. What was written is the beginning of a text.
    WriteFault,
    /// What was read is no TOML document.
    NotToml,
    /// What was read is a document, but no plan. `reason` is the number of the first check that fails. `place` is the
    /// node, circuit or step that the check is about, counted from 1, or 0 for the document.
    BadPlan { reason: u8, place: u32 },
    /// The settle step of this number, counted from 1, ended without a quiet window.
    Unsettled(u32),
    /// Fibres couldn't be made or changed, or a frame couldn't be sent or received over them: a call of the plant
    /// failed.
    PlantFault,
    /// The source has more than 1,048,576 bytes.
    TooLong,
    /// The plan has no circuit of the name that is asked for.
    NoSuchPort,
    /// Memory ran out. Nothing was written.
    Memory,
}

impl Status {
    /// Returns the number with which the program ends.
    pub fn number(&self) -> u8
        ensures { result ≡ number_of self.now }
    {
        match self {
            Status::Ok => 0,
            Status::Usage => 2,
            Status::ReadFault => 3,
            Status::WriteFault => 4,
            Status::NotToml => 5,
            Status::BadPlan { .. } => 6,
            Status::Unsettled(_) => 7,
            Status::PlantFault => 8,
            Status::TooLong => 9,
            Status::NoSuchPort => 10,
            Status::Memory => 70,
        }
    }
}
