//! The smallest plan with one change each: what is refused, and with which limit a ring settles.
use crate::calls::{Ending, Given, SOUND, all_right, ends};
use crate::texts::{SMALLEST_TEXT, USAGE};
use std::alloc::{AllocError, Global};
use test_texts::SMALLEST;

const NODES: &str = "nodes = [1, 2, 3]";

const SLOT: &str = "slot = 1";

const LIMIT: &str = "limit = 1000";

const SCRIPT: &str = "script = [\"settle\"]";

const TEXT_A: &str = "text_a = \"ALPHA\"";

const ENDS: &str = "from = 1\nto = 2\n";

// The call, what stands in the plan, what comes in its place, and how the call ends.
type Row = (Given<'static>, &'static str, &'static str, Ending<'static>);

const RUN: Given<'static> = SOUND;

// A port of no circuit, and an end that no circuit has.
const OTHER_CIRCUIT: Given<'static> = Given {
    words: &["drop", "c9", "a"],
    ..SOUND
};

const OTHER_END: Given<'static> = Given {
    words: &["drop", "c1", "c"],
    ..SOUND
};

const SEVENTEEN: &str = "nodes = [0, 1, 2, 3, 4, 5, 6, 7, 8, 9, 10, 11, 12, 13, 14, 15, 16]";

// A circuit from node 3 over node 1 to node 2, and one from 1 to 2 in the same slot.
const OVERLAP: &str = "from = 3
to = 2
slot = 1
text_a = \"ALPHA\"
text_b = \"BETA!\"
[[circuit]]
name = \"c2\"
from = 1
to = 2
";

const MANY: &str = "limit = 128
script = [
\"settle\", \"settle\", \"settle\", \"settle\", \"settle\", \"settle\", \"settle\", \"settle\",
\"settle\", \"settle\", \"settle\", \"settle\", \"settle\", \"settle\", \"settle\", \"settle\",
\"settle\", \"settle\", \"settle\", \"settle\", \"settle\", \"settle\", \"settle\", \"settle\",
\"settle\", \"settle\", \"settle\", \"settle\", \"settle\", \"settle\", \"settle\", \"settle\",
\"settle\", \"settle\", \"settle\", \"settle\", \"settle\", \"settle\", \"settle\", \"settle\",
\"settle\", \"settle\", \"settle\", \"settle\", \"settle\", \"settle\", \"settle\", \"settle\",
\"settle\", \"settle\", \"settle\", \"settle\", \"settle\", \"settle\", \"settle\", \"settle\",
\"settle\", \"settle\", \"settle\", \"settle\", \"settle\", \"settle\", \"settle\", \"settle\"]";

const ROWS: &[Row] = &[
    (RUN, NODES, SEVENTEEN, (6, "bad plan 1 at 0\n")),
    (RUN, NODES, "nodes = [1, 16]", (6, "bad plan 2 at 2\n")),
    (RUN, NODES, "nodes = [1, 2, 1]", (6, "bad plan 3 at 3\n")),
    (RUN, SLOT, "slot = 3", (6, "bad plan 4 at 1\n")),
    (
        RUN,
        SLOT,
        "slot = 1\noffset_a = 783",
        (6, "bad plan 7 at 1\n"),
    ),
    (RUN, ENDS, OVERLAP, (6, "bad plan 9 at 2\n")),
    (
        RUN,
        SCRIPT,
        "script = [\"cut 2 east\"]",
        (6, "bad plan 29 at 1\n"),
    ),
    (OTHER_CIRCUIT, "", "", (10, "no such port\n")),
    (OTHER_END, "", "", (2, USAGE)),
    (RUN, LIMIT, "limit = 128", (7, "unsettled 1\n")),
    (RUN, LIMIT, "limit = 129", (0, SMALLEST_TEXT)),
    (
        RUN,
        "limit = 1000\nscript = [\"settle\"]",
        MANY,
        (7, "unsettled 1\n"),
    ),
    // a text is a text, whichever key stands before it
    (
        RUN,
        TEXT_A,
        "text_a = \"ALPHA\"\noffset_b = 0",
        (0, SMALLEST_TEXT),
    ),
];

fn comes_out(alloc: Global, row: &Row) -> Result<bool, AllocError> {
    let (given, from, to, ending) = *row;
    let document = SMALLEST.replacen(alloc, from, to, 1)?;
    let given = Given {
        document: document.as_str(),
        ..given
    };
    Ok(ends(alloc, given, ending))
}

fn right_rows(alloc: Global) -> usize {
    for i in 0..ROWS.len() {
        if comes_out(alloc, &ROWS[i]) != Ok(true) {
            return i;
        }
    }
    ROWS.len()
}

#[test]
fn one_change_of_a_plan_has_its_answer(rt: HostRuntime) {
    all_right(&rt, right_rows(rt.alloc()), ROWS.len());
}

// Nothing, what is no document, and what is too long by one byte, of which all but the plan is spaces.
const EMPTY: Given<'static> = Given {
    document: "",
    ..SOUND
};

const NOT_TOML: Given<'static> = Given {
    document: "rate = ",
    ..SOUND
};

// Returns a text and spaces after it, so many bytes in all.
fn lengthened(alloc: Global, text: &str, len: usize) -> Result<String, AllocError> {
    let mut long = String::from_str(alloc, text)?;
    for _place in text.len()..len {
        long.push(' ')?;
    }
    Ok(long)
}

fn too_long(alloc: Global) -> Result<bool, AllocError> {
    let document = lengthened(alloc, SMALLEST, 1_048_577)?;
    let given = Given {
        document: document.as_str(),
        read: 65_536,
        ..SOUND
    };
    Ok(ends(alloc, given, (9, "too long\n")))
}

#[test]
fn what_is_no_plan_is_refused(rt: HostRuntime) {
    assert!(rt; ends(rt.alloc(), EMPTY, (6, "bad plan 13 at 0\n")));
    assert!(rt; ends(rt.alloc(), NOT_TOML, (5, "not toml\n")));
    assert!(rt; too_long(rt.alloc()) == Ok(true));
}
