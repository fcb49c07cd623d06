//! What is outside fails, and how far the stream was read by then.

use crate::called::{
    DARK, END, FIRST, FORCED, IDLE, ISOLATED, NODE_2, Outside, RECORDS, SOUND, call, joined, stream,
};
use sdh_node_cli::Ending;
use sdh_outside::read_all;
use std::alloc::{AllocError, Global};
use std::test::Fail;
use test_texts::SMALLEST;

// The write that fails, what was written by then, and the records that are left.
type Row = (u32, &'static [&'static str], &'static [&'static str]);

const ROWS: &[Row] = &[
    (1, &[], &[FORCED, DARK]),
    (2, &[IDLE], &[]),
    (3, &[IDLE, ISOLATED], &[]),
];

// No byte is read after the record whose answer can't be written.
#[test]
fn each_write_that_fails_is_told(rt: HostRuntime) -> Result<(), Fail> {
    for (number, written, left) in ROWS {
        let failing = [*number];
        let outside = Outside {
            writes: &failing,
            ..SOUND
        };
        let (ending, mut source, sink) = call(rt.alloc(), NODE_2, &stream(rt.alloc())?, outside)?;
        assert!(rt; ending.number() == 4, "{number}");
        assert!(rt;
            sink.bytes() == joined(rt.alloc(), written)?.as_slice(),
            "{number}"
        );
        let rest = read_all(rt.alloc(), &mut source)?;
        assert!(rt;
            rest.as_slice() == joined(rt.alloc(), left)?.as_slice(),
            "{number}"
        );
    }
    Ok(())
}

// A read gives one byte here, so the number of a read is that of a byte.
#[test]
fn each_read_of_a_record_that_fails_is_told(rt: HostRuntime) -> Result<(), Fail> {
    let mut before = SMALLEST.len().saturating_add(END.len());
    for (at, record) in RECORDS.iter().enumerate() {
        let written = joined(
            rt.alloc(),
            &[if at > 0 { IDLE } else { "" }, "read fault\n"],
        )?;
        for byte in 1..=record.len() {
            let failing = [u32::try_from(before.saturating_add(byte)).unwrap_or(u32::MAX)];
            let outside = Outside {
                piece: 1,
                reads: &failing,
                ..SOUND
            };
            let (ending, _, sink) = call(rt.alloc(), NODE_2, &stream(rt.alloc())?, outside)?;
            assert!(rt;
                ending.number() == 3 && sink.bytes() == written.as_slice(),
                "{record} {byte}"
            );
        }
        before = before.saturating_add(record.len());
    }
    Ok(())
}

// There is no read after the end of the stream, and no write after the last line.
#[test]
fn what_comes_in_pieces_is_the_same(rt: HostRuntime) -> Result<(), Fail> {
    let pieces = Outside { piece: 7, ..SOUND };
    let after = Outside {
        reads: &[1_000],
        writes: &[4],
        ..SOUND
    };
    let wanted = joined(rt.alloc(), &[IDLE, ISOLATED, "done\n"])?;
    for outside in [SOUND, pieces, after] {
        let (ending, _, sink) = call(rt.alloc(), NODE_2, &stream(rt.alloc())?, outside)?;
        assert!(rt; ending.number() == 0 && sink.bytes() == wanted.as_slice());
    }
    Ok(())
}

// A record that can't be done, the number of its reason, and what is left of the record behind it.
const BAD: &[(&str, &str, &str)] = &[
    ("cut 2 east\n", "22", "round dark none\n"),
    ("x\n", "22", " dark none\n"),
    ("round x\n", "23", "rk none\n"),
    ("round f\n", "23", " none\n"),
    ("round up up\n", "25", "d dark none\n"),
    ("slip c2 up 4\n", "30", "round dark none\n"),
];

// It is read up to its newline byte, and behind a line that is shorter than each record that begins so as many bytes
// as it lacks to that.
#[test]
fn a_bad_record_is_told_with_its_number(rt: HostRuntime) -> Result<(), Fail> {
    for (bad, why, left) in BAD {
        let given = joined(rt.alloc(), &[SMALLEST, END, FIRST, bad, DARK])?;
        let (ending, mut source, sink) = call(rt.alloc(), NODE_2, &given, SOUND)?;
        assert!(rt;
            matches!(ending, Ending::BadRecord(_, 2)) && ending.number() == 17,
            "{bad}"
        );
        let wanted = joined(rt.alloc(), &[IDLE, "bad record ", why, " at 2\n"])?;
        assert!(rt; sink.bytes() == wanted.as_slice(), "{bad}");
        let rest = read_all(rt.alloc(), &mut source)?;
        assert!(rt; rest.as_slice() == left.as_bytes(), "{bad}");
    }
    Ok(())
}

// A frame comes from the west. With its line its first byte is read, where a read gives more than one.
const FRAMED: &str = "round frame dark\n";

// Returns the smallest plan, a round with a frame from the west that begins as frames do, and one without.
fn framed(alloc: Global) -> Result<Vec<u8>, AllocError> {
    let mut all = joined(alloc, &[SMALLEST, END, FRAMED])?;
    for at in 0..9_720u32 {
        all.push(if at < 12 {
            0xf6
        } else if at < 24 {
            0x28
        } else {
            0
        })?;
    }
    all.extend_from_slice(FIRST.as_bytes())?;
    Ok(all)
}

// So the answers are the same as where no byte is read before it is needed.
#[test]
fn the_first_byte_of_a_frame_is_kept(rt: HostRuntime) -> Result<(), Fail> {
    let given = framed(rt.alloc())?;
    let single = Outside { piece: 1, ..SOUND };
    let (ending, _, sink) = call(rt.alloc(), NODE_2, &given, SOUND)?;
    let (wanted, _, other) = call(rt.alloc(), NODE_2, &given, single)?;
    assert!(rt; ending.number() == 0 && wanted.number() == 0);
    assert!(rt; sink.bytes() == other.bytes());
    Ok(())
}
