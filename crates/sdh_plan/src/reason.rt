//! The reasons for which a document is refused.
ghost use Rattle.std.specs.Prelude.{◌≡◌};
ghost use Rattle.sdh_plan.specs.Reasons.{reason_number};

/// Why a document is refused.
#[derive(Clone, Copy, Debug, PartialEq, Eq)]
pub enum Reason {
    /// There aren't 2 to 16 nodes.
    NodeCount = 1,
    /// The identifier of a node isn't 0 to 15.
    NodeId = 2,
    /// An earlier node has the same identifier.
    Repeat = 3,
    /// The slot isn't 1 to half the rate.
    Slot = 4,
    /// An end isn't in the ring.
    End = 5,
    /// Both ends are one node.
    SameEnds = 6,
    /// An offset isn't 0 to 782.
    Offset = 7,
    /// A text isn't 1 to 64 bytes of 0x20 to 0x7E.
    Text = 8,
    /// An earlier circuit has one of the spans in the slot.
    Overlap = 9,
    /// The name isn't 1 to 16 bytes of `a` to `z`, `0` to `9`, `-` and `_`, or an earlier circuit has it.
    Name = 10,
    /// A trace isn't 1 to 64 bytes of 0x20 to 0x7E. A missing trace is the name.
    Trace = 11,
    /// A key isn't listed.
    UnknownKey = 12,
    /// The rate is missing, no integer, or not 4 or 16.
    Rate = 13,
    /// The nodes are missing, or no array of integers.
    Nodes = 14,
    /// The threshold is missing, no integer, or not 1 to 3 times the rate.
    Threshold = 15,
    /// The waiting time is missing, no integer, or not 0 to 1,000,000.
    Wait = 16,
    /// The limit is missing, no integer, or not 1 to 65,536.
    Limit = 17,
    /// The circuits are there, but they are no array of tables.
    Circuits = 18,
    /// A needed key of a circuit is missing, or the value of a listed key has the wrong kind.
    CircuitField = 19,
    /// The script is missing, or no array of texts.
    Script = 20,
    /// There aren't 1 to 1,000 steps.
    ScriptLength = 21,
    /// The first word of a step isn't listed.
    StepWord = 22,
    /// A word of a step is empty, or the number of words isn't that of the step.
    StepForm = 23,
    /// A word isn't the identifier of a node in the ring.
    StepNode = 24,
    /// A word isn't a side, or isn't a turn of a clock.
    StepSide = 25,
    /// A word isn't a number, or out of its range.
    StepNumber = 26,
    /// The moment is below the one before.
    MomentBack = 27,
    /// The step is the 65th settle step.
    Settles = 28,
    /// The last step runs no rounds.
    LastStep = 29,
    /// A word isn't the name of a circuit, or isn't an end of one.
    SlipPort = 30,
    /// A port is given more than 16 slips between two settle steps.
    Slips = 31,
}

impl Reason {
    /// Returns the number of the reason in texts, 1 to 31.
    pub fn number(self) -> u8
        ensures { result ≡ reason_number self }
    {
        self as u8
    }
}
