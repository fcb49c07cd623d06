//! How a program ends.
ghost use Rattle.std.specs.Prelude.{◌≡◌, ◌≤◌, ◌++◌, length};
ghost use Rattle.sdh_shell.specs.Endings.{Endings, statuses};

use sdh_report::laws::last_line_is_short;
use sdh_report::{Status, Text};

/// How a program ends: with a status that all programs share, or with an ending of its own.
pub trait Ends: Copy {
    /// The endings of a program, as its definitions give them.
    ghost endings: { Endings Self };

    /// Returns the ending that stands for a shared status.
    fn of(status: Status) -> Self
        ensures { result ≡ endings.of status };

    /// Appends the last line of the text that goes with an ending, which has at most 96 bytes.
    fn put_line(&self, text: &mut Text)
        requires room { 96 ≤ text.old.room }
        ensures bytes { text.new.bytes ≡ text.old.bytes ++ endings.line self.now }
        ensures short { length (endings.line self.now) ≤ 96 };
}

impl Ends for Status {
    ghost endings = { statuses };

    fn of(status: Status) -> Status {
        status
    }

    fn put_line(&self, text: &mut Text) {
        last_line_is_short(self);
        text.last_line(self);
    }
}
