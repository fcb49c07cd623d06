//! How the program ends.
ghost use Rattle.std.specs.Prelude.{◌≡◌, ◌≤◌, length};
ghost use Rattle.sdh_report.specs.Written.{with_part};
ghost use Rattle.sdh_sncp_cli.specs.Endings.{number_of, same_slot_line, no_such_step_line, path_endings};

use sdh_report::{Status, Text};
use sdh_shell::Ends;

/// How the program ends.
#[derive(Clone, Copy, Debug, PartialEq, Eq)]
pub enum Ending {
    /// This step of the script, counted from 1, is the first that a path ring doesn't have.
    NoSuchStep(u32),
    /// These two circuits, counted from 0, are the first that share a slot.
    SameSlot { first: u8, second: u8 },
    /// An ending that the other programs that run plans have too: `Ok`, `Usage`, `ReadFault`, `WriteFault`, `NotToml`,
    /// `BadPlan`, `Unsettled`, `PlantFault`, `TooLong` or `Memory`.
    Shared(Status),
}

impl Ending {
    /// Returns the number with which the program ends.
    pub fn number(&self) -> u8
        ensures { result ≡ number_of self.now }
    {
        match self {
            Ending::SameSlot { .. } => 13,
            Ending::NoSuchStep(_) => 14,
            Ending::Shared(status) => status.number(),
        }
    }
}

// The last line for a step has at most 96 bytes, since a number of this size has few digits: the function does nothing,
// and its contract is the law.
fn short_step(step: u32)
    ensures { length (no_such_step_line step) ≤ 96 }
{
    let _ = step;
}

// The last line for two circuits has at most 96 bytes: the function does nothing, and its contract is the law.
fn short_slot(first: u8, second: u8)
    ensures { length (same_slot_line first second) ≤ 96 }
{
    let _ = (first, second);
}

// Appends the last line for two circuits that share a slot.
fn put_same_slot(text: &mut Text, first: u8, second: u8)
    requires { length (same_slot_line first second) ≤ text.old.room }
    ensures { text.new ≡ with_part text.old (same_slot_line first second) }
{
    text.put(b"same slot ");
    text.put_number(u64::from(first) + 1);
    text.put(b" ");
    text.put_number(u64::from(second) + 1);
    text.put(b"\n");
}

// Appends the last line for a step that a path ring doesn't have.
fn put_no_such_step(text: &mut Text, step: u32)
    requires { length (no_such_step_line step) ≤ text.old.room }
    ensures { text.new ≡ with_part text.old (no_such_step_line step) }
{
    text.put(b"no such step ");
    text.put_number(u64::from(step));
    text.put(b"\n");
}

impl Ends for Ending {
    ghost endings = { path_endings };

    fn of(status: Status) -> Ending {
        Ending::Shared(status)
    }

    fn put_line(&self, text: &mut Text) {
        match *self {
            Ending::NoSuchStep(step) => {
                short_step(step);
                put_no_such_step(text, step);
            }
            Ending::SameSlot { first, second } => {
                short_slot(first, second);
                put_same_slot(text, first, second);
            }
            Ending::Shared(status) => status.put_line(text),
        }
    }
}
