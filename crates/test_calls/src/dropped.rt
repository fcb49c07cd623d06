//! Chunks that are written whole: where the trace stands in them, by the offset of their customer.
ghost use Rattle.std.specs.Prelude.{◌≤◌};

use crate::calls::{Given, SOUND, all_right, call};
use std::alloc::{AllocError, Global};
use test_texts::SMALLEST;

const DROP: &[&str] = &["drop", "c1", "b"];

// The bytes of a line, and the number of lines.
const LINE: usize = 261;

const LINES: usize = 9;

// The offset of the customer at a, the line and the byte at which J1 stands, counted from 1, and its two digits.
type Row = (&'static str, usize, usize, &'static [u8; 2]);

// The trace is `c1` and spaces. In the chunk of round 128 J1 is byte 63 of it, `c`, or, where a VC-4 that began before
// stands first, byte 62 of it, a space.
const ROWS: &[Row] = &[
    ("offset_a = 0", 4, 1, b"63"),
    ("offset_a = 521", 9, 259, b"63"),
    ("offset_a = 522", 1, 1, b"20"),
    ("offset_a = 782", 3, 259, b"63"),
];

// Returns where a byte of the chunk begins in the text: two digits a byte, and a newline byte after each line.
fn place(line: usize, byte: usize) -> usize
    requires line_first { 1 ≤ line }
    requires line_last { line ≤ 9 }
    requires byte_first { 1 ≤ byte }
    requires byte_last { byte ≤ 261 }
    ensures { result ≤ 4704 }
{
    (line - 1) * (2 * LINE + 1) + 2 * (byte - 1)
}

// Returns whether a text is that of a chunk, with these digits at that byte.
fn has(text: &[u8], row: &Row) -> bool {
    let (_, line, byte, digits) = *row;
    if line == 0 || line > LINES || byte == 0 || byte > LINE {
        return false;
    }
    let at = place(line, byte);
    text.len() == LINES * (2 * LINE + 1) + 5
        && text.get(at..at + 2) == Some(digits.as_slice())
        && text.ends_with(b"\ndone\n")
}

fn comes_out(alloc: Global, row: &Row) -> Result<bool, AllocError> {
    let document = SMALLEST.replacen(alloc, "slot = 1", row.0, 1)?;
    let document = document
        .as_str()
        .replacen(alloc, "text_a", "slot = 1\ntext_a", 1)?;
    let given = Given {
        words: DROP,
        document: document.as_str(),
        ..SOUND
    };
    let (number, sink) = call(alloc, given)?;
    Ok(number == 0 && has(sink.bytes(), row))
}

fn right_rows(alloc: Global) -> usize {
    for i in 0..ROWS.len() {
        if comes_out(alloc, &ROWS[i]) != Ok(true) {
            return i;
        }
    }
    ROWS.len()
}

#[test]
fn the_trace_stands_where_the_offset_puts_it(rt: HostRuntime) {
    all_right(&rt, right_rows(rt.alloc()), ROWS.len());
}

const WITHOUT_OFFSET: Given<'static> = Given {
    words: DROP,
    ..SOUND
};

fn begins_so(alloc: Global, front: &[u8]) -> Result<bool, AllocError> {
    let (number, sink) = call(alloc, WITHOUT_OFFSET)?;
    Ok(number == 0 && sink.bytes().starts_with(front))
}

#[test]
fn a_chunk_begins_with_the_text_of_its_customer(rt: HostRuntime) {
    assert!(rt; begins_so(rt.alloc(), b"00414c5048") == Ok(true));
}
