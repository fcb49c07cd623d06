//! How the program ends.
ghost use Rattle.std.specs.Prelude.{◌≡◌, ◌≤◌, length};
ghost use Rattle.sdh_report.specs.Written.{with_part};
ghost use Rattle.sdh_node_cli.specs.Endings.{flaw_number, number_of, bad_record_text, bench_endings};

use sdh_plan::Reason;
use sdh_report::{Status, Text};
use sdh_shell::Ends;

/// What is wrong with a record.
#[derive(Clone, Copy, Debug, PartialEq, Eq)]
pub enum Flaw {
    /// A check of its words fails, or the node can't do it.
    Said(Reason),
    /// The stream ended within it.
    Cut,
    /// Its line has more than 64 bytes.
    Long,
    /// 4,294,967,295 records, the most that are done, came before it.
    Many,
}

/// How the program ends.
#[derive(Clone, Copy, Debug, PartialEq, Eq)]
pub enum Ending {
    /// The plan has no node of the identifier.
    NoSuchNode,
    /// A record can't be done: what is wrong with it, and its number, counted from 1. Number 0 is the plan, which comes
    /// before the records.
    BadRecord(Flaw, u64),
    /// An ending that the program `sdhring` has too: `Ok`, `Usage`, `ReadFault`, `WriteFault`, `NotToml`, `BadPlan`,
    /// `TooLong` or `Memory`.
    Shared(Status),
}

impl Flaw {
    /// Returns the number of what is wrong, which the last line shows.
    pub fn number(self) -> u8
        ensures { result ≡ flaw_number self }
    {
        match self {
            Flaw::Said(reason) => reason.number(),
            Flaw::Cut => 32,
            Flaw::Long => 33,
            Flaw::Many => 34,
        }
    }
}

impl Ending {
    /// Returns the exit status of the program.
    pub fn number(&self) -> u8
        ensures { result ≡ number_of self.now }
    {
        match self {
            Ending::NoSuchNode => 15,
            Ending::BadRecord(_, _) => 17,
            Ending::Shared(status) => status.number(),
        }
    }
}

// The last line of a record that can't be done has at most 96 bytes, whatever its two numbers. The function does
// nothing: its contract is the law.
fn short_line(why: u8, number: u64)
    ensures { length (bad_record_text why number) ≤ 96 }
{
    let _ = (why, number);
}

// Appends the last line for a record that can't be done: `why` is the number of what is wrong with it, and `number` is
// that of the record.
fn put_bad_record(text: &mut Text, why: u8, number: u64)
    requires { length (bad_record_text why number) ≤ text.old.room }
    ensures { text.new ≡ with_part text.old (bad_record_text why number) }
{
    text.put(b"bad record ");
    text.put_number(u64::from(why));
    text.put(b" at ");
    text.put_number(number);
    text.put(b"\n");
}

impl Ends for Ending {
    ghost endings = { bench_endings };

    fn of(status: Status) -> Ending {
        Ending::Shared(status)
    }

    fn put_line(&self, text: &mut Text) {
        match *self {
            Ending::NoSuchNode => text.own_line(b"no such node"),
            Ending::BadRecord(flaw, number) => {
                let why = flaw.number();
                short_line(why, number);
                put_bad_record(text, why, number);
            }
            Ending::Shared(status) => status.put_line(text),
        }
    }
}
