//! Calls that run out of memory.

use crate::called::{END, FIRST, IDLE, NO_WORDS, NODE_2, SOUND, USAGE, call, joined};
use std::test::Fail;
use test_texts::SMALLEST;

// The words, the stream, and the number and the text of the answer.
type Row = (
    &'static [&'static str],
    &'static [&'static str],
    u8,
    &'static [&'static str],
);

const ROWS: &[Row] = &[
    (NODE_2, &[SMALLEST, END, FIRST], 0, &[IDLE, "done\n"]),
    (NODE_2, &["rate = \nend of plan\n"], 5, &["not toml\n"]),
    (NODE_2, &[FIRST], 17, &["bad record 32 at 0\n"]),
    (&["4"], &[SMALLEST, END, FIRST], 15, &["no such node\n"]),
    (NO_WORDS, &[SMALLEST, END], 2, &[USAGE]),
];

// This test shows most where one of its allocations is made to fail (`rt try --test --fail-alloc`).
#[test]
fn nothing_is_written_out_of_memory(rt: HostRuntime) -> Result<(), Fail> {
    for (words, given, number, wanted) in ROWS {
        let given = joined(rt.alloc(), given)?;
        let (ending, _, sink) = call(rt.alloc(), words, &given, SOUND)?;
        if ending.number() == 70 {
            assert!(rt; sink.bytes().is_empty(), "{words:?}");
        } else {
            let wanted = joined(rt.alloc(), wanted)?;
            assert!(rt;
                ending.number() == *number && sink.bytes() == wanted.as_slice(),
                "{words:?}"
            );
        }
    }
    Ok(())
}
