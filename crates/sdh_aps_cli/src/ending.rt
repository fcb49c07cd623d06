//! How the program ends.
ghost use Rattle.std.specs.Prelude.{◌≡◌};
ghost use Rattle.sdh_aps_cli.specs.Endings.{number_of, signalling_endings};

use sdh_report::{Status, Text};
use sdh_shell::Ends;

/// How the program ends.
#[derive(Clone, Copy, Debug, PartialEq, Eq)]
pub enum Ending {
    /// The plan has no node of the identifier.
    NoSuchNode,
    /// The run ended before it had all rounds whose frames are asked for.
    NoSuchRound,
    /// An ending that the program `sdhring` has too: `Ok`, `Usage`, `ReadFault`, `WriteFault`, `NotToml`, `BadPlan`,
    /// `Unsettled`, `PlantFault`, `TooLong` or `Memory`.
    Shared(Status),
}

impl Ending {
    /// Returns the number with which the program ends.
    pub fn number(&self) -> u8
        ensures { result ≡ number_of self.now }
    {
        match self {
            Ending::NoSuchNode => 15,
            Ending::NoSuchRound => 16,
            Ending::Shared(status) => status.number(),
        }
    }
}

impl Ends for Ending {
    ghost endings = { signalling_endings };

    fn of(status: Status) -> Ending {
        Ending::Shared(status)
    }

    fn put_line(&self, text: &mut Text) {
        match *self {
            Ending::NoSuchNode => text.own_line(b"no such node"),
            Ending::NoSuchRound => text.own_line(b"no such round"),
            Ending::Shared(status) => status.put_line(text),
        }
    }
}
