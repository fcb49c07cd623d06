//! The line of a watch.
ghost use Rattle.std.specs.Prelude.{◌≡◌, ◌≤◌, length};
ghost use Rattle.sdh_report.specs.Written.{with_part};
ghost use Rattle.sdh_watch.specs.Shows.{shown};
ghost use Rattle.sdh_watch.specs.Lines.{trace_word_text, watch_named, path_counts_text, path_report_text, watch_line};

use sdh_circuits::{End, Name};
use sdh_path::{PathReport, TraceWord};
use sdh_payload::Delivered;
use sdh_report::Text;

// Returns the word of a line for a trace.
fn letters(word: TraceWord) -> &'static [u8]
    ensures { result.now ≡ trace_word_text word }
{
    match word {
        TraceWord::Ok => b"ok",
        TraceWord::Mismatch => b"mismatch",
        TraceWord::Short => b"short",
    }
}

// Appends the start of the line of a watch: the word `watch`, and the name and end of the port that it is on.
fn put_named(text: &mut Text, name: &Name, end: End)
    requires { length (watch_named name.now end) ≤ text.old.room }
    ensures { text.new ≡ with_part text.old (watch_named name.now end) }
{
    text.put(b"watch ");
    text.put(name.as_slice());
    text.put(b" ");
    text.put_end(end);
}

// Appends the number of VC-4s, and the number of bits in which their bytes B3 differ from the parities.
fn put_counts(text: &mut Text, report: &PathReport)
    requires { length (path_counts_text report.now) ≤ text.old.room }
    ensures { text.new ≡ with_part text.old (path_counts_text report.now) }
{
    text.put(b" vcs ");
    text.put_number(u64::from(report.vcs));
    text.put(b" b3 ");
    text.put_number(u64::from(report.b3));
}

// Appends the rest of the line of a watch on a port that delivers bytes.
fn put_report(text: &mut Text, report: &PathReport)
    requires { length (path_report_text report.now) ≤ text.old.room }
    ensures { text.new ≡ with_part text.old (path_report_text report.now) }
{
    put_counts(text, report);
    text.put(b" label ");
    text.put_number(u64::from(report.label));
    text.put(b" trace ");
    text.put(letters(report.trace));
    text.put(b"\n");
}

/// Appends the line of the watch on the port at an end of the circuit of this name, by what the port delivered last.
pub fn watch_line(
    text: &mut Text,
    name: &Name,
    end: End,
    delivered: &Delivered,
    report: &PathReport,
)
    requires { length (watch_line name.now end (shown delivered.now report.now)) ≤ text.old.room }
    ensures { text.new ≡ with_part text.old (watch_line name.now end (shown delivered.now report.now)) }
{
    put_named(text, name, end);
    match delivered {
        Delivered::Ais => text.put(b" ais\n"),
        Delivered::Chunk(_) => put_report(text, report),
    }
}
