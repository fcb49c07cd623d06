//! The lines of outages.
ghost use Rattle.std.specs.Prelude.{◌≡◌, ◌*◌, ◌<◌, ◌≤◌, ◌++◌, decimal, length};
ghost use Rattle.sdh_report.specs.Written.{with_part};
ghost use Rattle.sdh_outage.specs.Lines.{three_digits, ms_text, rounds_text, stretch_text, runs_text, first_counts_text, counts_text};
ghost use Rattle.sdh_outage.specs.Lines.{outage_front, of_port, of_nobody, longest_text, kind_word, change_line, more_line, foreign_line, summary_line};

use crate::change::Change;
use crate::kind::Kind;
use crate::outage::{Outage, Runs, Stretch};
use crate::summary::Summary;
use sdh_circuits::{End, Name};
use sdh_report::Text;

/// Room for any line of an outage, a change or a summary, in bytes.
pub const LINE_MAX: usize = 250;

// Appends a number with exactly three digits.
fn put_three(text: &mut Text, number: u64)
    requires small { number < 1000 }
    requires room { length (three_digits number) ≤ text.old.room }
    ensures { text.new ≡ with_part text.old (three_digits number) }
{
    text.put_number(number / 100);
    text.put_number(number / 10 % 10);
    text.put_number(number % 10);
}

// Appends the time of `rounds` rounds in milliseconds, with three decimals. Eight rounds are 1 ms.
fn put_ms(text: &mut Text, rounds: u64)
    requires { length (ms_text (125 * rounds)) ≤ text.old.room }
    ensures { text.new ≡ with_part text.old (ms_text (125 * rounds)) }
{
    text.put_number(rounds / 8);
    text.put(b".");
    put_three(text, rounds % 8 * 125);
}

// Appends a number of rounds, and their time in milliseconds.
fn put_rounds(text: &mut Text, rounds: u64)
    requires { length (rounds_text rounds) ≤ text.old.room }
    ensures { text.new ≡ with_part text.old (rounds_text rounds) }
{
    text.put_number(rounds);
    text.put(b" ms ");
    put_ms(text, rounds);
}

// Appends the first round that wasn't in order and the last one.
fn put_stretch(text: &mut Text, stretch: Option<Stretch>)
    requires { length (stretch_text stretch) ≤ text.old.room }
    ensures { text.new ≡ with_part text.old (stretch_text stretch) }
{
    match stretch {
        None => text.put(b" from - to -"),
        Some(s) => {
            text.put(b" from ");
            text.put_number(u64::from(s.from));
            text.put(b" to ");
            text.put_number(u64::from(s.to));
        }
    }
}

// Appends a word and a number after it.
fn put_count(text: &mut Text, word: &[u8], count: u32)
    requires { length (word.now ++ decimal count) ≤ text.old.room }
    ensures { text.new ≡ with_part text.old (word.now ++ decimal count) }
{
    text.put(word);
    text.put_number(u64::from(count));
}

// Appends how many rounds there were of the first three kinds.
fn put_first_counts(text: &mut Text, outage: &Outage)
    requires { length (first_counts_text outage.now) ≤ text.old.room }
    ensures { text.new ≡ with_part text.old (first_counts_text outage.now) }
{
    put_count(text, b" ais ", outage.ais);
    put_count(text, b" ones ", outage.ones);
    put_count(text, b" jump ", outage.jump);
}

// Appends how many rounds there were of each kind.
fn put_counts(text: &mut Text, outage: &Outage)
    requires { length (counts_text outage.now) ≤ text.old.room }
    ensures { text.new ≡ with_part text.old (counts_text outage.now) }
{
    put_first_counts(text, outage);
    put_count(text, b" torn ", outage.torn);
    put_count(text, b" strange ", outage.strange);
    put_count(text, b" foreign ", outage.foreign);
}

// Appends how many runs of rounds there were, and the longest.
fn put_runs(text: &mut Text, runs: &Runs)
    requires { length (runs_text runs.now) ≤ text.old.room }
    ensures { text.new ≡ with_part text.old (runs_text runs.now) }
{
    text.put(b" runs ");
    text.put_number(u64::from(runs.count));
    text.put(b" longest ");
    put_rounds(text, u64::from(runs.longest));
}

/// Appends the front of the line of a port with this outage: the port at an end of the circuit of this name.
pub fn outage_front(text: &mut Text, name: &Name, end: End, outage: &Outage)
    requires { length (outage_front name.now end outage.now) ≤ text.old.room }
    ensures { text.new ≡ with_part text.old (outage_front name.now end outage.now) }
{
    text.put_port(name, end);
    text.put(b" out ");
    text.put_number(outage.out());
    put_runs(text, &outage.runs);
    put_stretch(text, outage.stretch);
    put_counts(text, outage);
}

/// Appends the end of a port's line where foreign bytes came: the port that sends them, by its circuit's name and end.
pub fn of_port(text: &mut Text, name: &Name, end: End)
    requires { length (of_port name.now end) ≤ text.old.room }
    ensures { text.new ≡ with_part text.old (of_port name.now end) }
{
    text.put(b" of ");
    text.put(name.as_slice());
    text.put(b" ");
    text.put_end(end);
    text.put(b"\n");
}

/// Appends the end of a port's line where no foreign bytes came.
pub fn of_nobody(text: &mut Text)
    requires { length of_nobody ≤ text.old.room }
    ensures { text.new ≡ with_part text.old of_nobody }
{
    text.put(b" of - -\n");
}

// Returns the word of a kind.
fn kind_word(kind: Kind) -> &'static [u8]
    ensures { result.now ≡ kind_word kind }
{
    match kind {
        Kind::Ais => b"ais",
        Kind::Ones => b"ones",
        Kind::InOrder => b"in-order",
        Kind::Jump => b"jump",
        Kind::Torn => b"torn",
        Kind::Foreign(_) => b"foreign",
        Kind::Strange => b"strange",
    }
}

/// Appends the line of a change.
pub fn change_line(text: &mut Text, change: &Change)
    requires { length (change_line change.now) ≤ text.old.room }
    ensures { text.new ≡ with_part text.old (change_line change.now) }
{
    text.put(b"round ");
    text.put_number(u64::from(change.round));
    text.put(b" ");
    text.put(kind_word(change.kind));
    text.put(b"\n");
}

/// Appends the line that says how many changes came after those that were written.
pub fn more_line(text: &mut Text, count: u32)
    requires { length (more_line count) ≤ text.old.room }
    ensures { text.new ≡ with_part text.old (more_line count) }
{
    text.put(b"more ");
    text.put_number(u64::from(count));
    text.put(b"\n");
}

// Appends the line of ports that got bytes of another circuit, where there are any.
fn put_foreign(text: &mut Text, ports: u32)
    requires { length (foreign_line ports) ≤ text.old.room }
    ensures { text.new ≡ with_part text.old (foreign_line ports) }
{
    if ports > 0 {
        text.put(b"foreign ports ");
        text.put_number(u64::from(ports));
        text.put(b"\n");
    }
}

// Appends the longest run of the ports that came back, and how many of these had one of more than 400 rounds.
fn put_longest(text: &mut Text, summary: &Summary)
    requires { length (longest_text summary.now) ≤ text.old.room }
    ensures { text.new ≡ with_part text.old (longest_text summary.now) }
{
    text.put(b"longest ");
    put_rounds(text, u64::from(summary.longest));
    text.put(b" over ");
    text.put_number(u64::from(summary.over));
}

/// Appends the line of a settle step: the longest run of the ports that came back, how many of these had one of more
/// than 400 rounds, and how many ports were never out and are out still. A second line has the number of ports that got
/// bytes of another circuit, where any did.
pub fn summary_line(text: &mut Text, summary: &Summary)
    requires { length (summary_line summary.now) ≤ text.old.room }
    ensures { text.new ≡ with_part text.old (summary_line summary.now) }
{
    put_longest(text, summary);
    put_count(text, b" none ", summary.none);
    put_count(text, b" still ", summary.still);
    text.put(b"\n");
    put_foreign(text, summary.foreign);
}
