//! Runs over objects in memory: each number with its text.

use sdh_outside::{MemSink, MemSource};
use sdh_retime_cli::retime;
use std::alloc::{AllocError, Global};
use std::test::Fail;

// The first bytes of the stream whose byte number i is 97 + i mod 23.
fn stream(alloc: Global, len: usize) -> Result<Vec<u8>, AllocError> {
    let mut bytes = Vec::new(alloc);
    for i in 0..len {
        bytes.push(97 + (i % 23) as u8)?;
    }
    Ok(bytes)
}

// Lines, each with the next bytes of the stream in hexadecimal behind it, where there are some; and a last line.
fn text(alloc: Global, lines: &[(&str, usize)], last: &str) -> Result<Vec<u8>, AllocError> {
    let mut text = Vec::new(alloc);
    let mut at = 0usize;
    for (line, count) in lines {
        text.extend_from_slice(line.as_bytes())?;
        text.push(b'\n')?;
        for i in 0..*count {
            let byte = 97 + (at.wrapping_add(i) % 23) as u8;
            text.push(b"0123456789abcdef"[usize::from(byte / 16)])?;
            text.push(b"0123456789abcdef"[usize::from(byte % 16)])?;
        }
        if *count > 0 {
            text.push(b'\n')?;
        }
        at = at.wrapping_add(*count);
    }
    text.extend_from_slice(last.as_bytes())?;
    text.push(b'\n')?;
    Ok(text)
}

// Runs the program on so many bytes of the stream, where these reads and writes fail.
fn run(
    alloc: Global,
    word: &str,
    len: usize,
    reads: &[u32],
    writes: &[u32],
) -> Result<(u8, MemSink), AllocError> {
    let words = Vec::from_array(alloc, [String::from_str(alloc, word)?])?;
    let bytes = stream(alloc, len)?;
    let mut source = MemSource::new(alloc, &bytes, 65_536, reads)?;
    let mut sink = MemSink::new(alloc, 65_536, 5000, writes)?;
    let number = retime(alloc, &words, &mut source, &mut sink);
    Ok((number, sink))
}

const LITTLE: &[(&str, usize)] = &[
    ("1 ais 2346", 0),
    ("2 new 2346", 2349),
    ("3 plain 2346", 2349),
    ("4 plain 2346", 2349),
    ("5 plain 2343", 2349),
    ("6 up 2346", 2346),
];

#[test]
fn little_is_held_so_a_turn_gives_less(rt: HostRuntime) -> Result<(), Fail> {
    let (number, sink) = run(rt.alloc(), "0333", 14_090, &[], &[])?;
    let wanted = text(rt.alloc(), LITTLE, "left 2")?;
    assert!(rt; number == 0 && sink.bytes() == wanted.as_slice());
    Ok(())
}

const MUCH: &[(&str, usize)] = &[
    ("1 ais 2352", 0),
    ("2 new 2352", 2349),
    ("3 plain 2352", 2349),
    ("4 plain 2352", 2349),
    ("5 plain 2355", 2349),
    ("6 down 2352", 2352),
];

#[test]
fn much_is_held_so_a_turn_gives_more(rt: HostRuntime) -> Result<(), Fail> {
    let (number, sink) = run(rt.alloc(), "6333", 14_100, &[], &[])?;
    let wanted = text(rt.alloc(), MUCH, "left 0")?;
    assert!(rt; number == 0 && sink.bytes() == wanted.as_slice());
    Ok(())
}

const DRIFTS: &[(&str, usize)] = &[
    ("1 ais 2352", 0),
    ("2 new 2355", 2349),
    ("3 plain 2358", 2349),
];

#[test]
fn a_run_that_is_not_steady_ends_with_a_drift(rt: HostRuntime) -> Result<(), Fail> {
    let (number, sink) = run(rt.alloc(), "6", 9408, &[], &[])?;
    let wanted = text(rt.alloc(), DRIFTS, "drift 4")?;
    assert!(rt; number == 12 && sink.bytes() == wanted.as_slice());
    Ok(())
}

const LONG: &str = "0123456012345601234560123456012345601234560123456012345601234560";

// The word, how many bytes come, the reads and the writes that fail, the number and the text.
type Row = (
    &'static str,
    usize,
    &'static [u32],
    &'static [u32],
    u8,
    &'static str,
);

const ROWS: &[Row] = &[
    ("3", 0, &[], &[], 0, "left 0\n"),
    (LONG, 2345, &[], &[], 0, "left 2345\n"),
    ("3", 2349, &[], &[], 0, "1 ais 2349\nleft 0\n"),
    ("", 0, &[], &[], 2, "usage: sdhretime DIGITS\n"),
    ("7", 0, &[], &[], 2, "usage: sdhretime DIGITS\n"),
    ("3 ", 0, &[], &[], 2, "usage: sdhretime DIGITS\n"),
    ("3", 100, &[1], &[], 3, "read fault\n"),
    ("3", 100, &[2], &[], 3, "read fault\n"),
    ("3", 100, &[], &[1], 4, ""),
    ("3", 1_048_577, &[], &[], 9, "too long\n"),
];

#[test]
fn other_words_and_faults_have_their_lines(rt: HostRuntime) -> Result<(), Fail> {
    for (word, len, reads, writes, number, text) in ROWS {
        let (answer, sink) = run(rt.alloc(), word, *len, reads, writes)?;
        assert!(rt;
            answer == *number && sink.bytes() == text.as_bytes(),
            "on {word} and {len}"
        );
    }
    Ok(())
}
