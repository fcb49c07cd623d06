//! What is outside fails in mid-stream: the failure is reported, in place of an answer to what came before it. And
//! fibres out of which nothing comes, and calls that run no round.

use crate::calls::{
    CHECK, DROP, DROP_OTHER, Fibres, Given, NO_WORDS, ONCE, Program, Row, SOUND, TWICE,
    all_come_out, all_right,
};
use crate::sweeps::{Sweep, right_memories, right_reads, right_writes};
use crate::texts::{
    BOTH_WAYS, BOTH_WAYS_BROKEN, CUT_OFF, CUT_OFF_TABLES, LETTERS, NO_CIRCUITS, SIGNAL_PIECES,
    SIGNALLED, SIGNALLED_BROKEN, SIGNALS_BROKEN, SMALLEST_BROKEN, SMALLEST_TABLES, SMALLEST_TEXT,
    TWO_SPANS, UNSETTLED, USAGE, WATCHED, WATCHED_BROKEN,
};
use Fibres::{Dark, Failing, Honest, Recording};
use sdh_plant::PlantCall::{Apply, Prepare, Receive, Send};
use test_texts::SMALLEST;

const RING: Given<'static> = SOUND;

const PATH: Given<'static> = Given {
    program: Program::Path,
    document: TWO_SPANS,
    ..SOUND
};

const WATCH: Given<'static> = Given {
    program: Program::Watch,
    ..SOUND
};

const SIGNALS: Given<'static> = Given {
    program: Program::Signals,
    ..SOUND
};

// 100 bytes come in two reads.
const RETIMING: Given<'static> = Given {
    program: Program::Retiming,
    words: &["3"],
    document: LETTERS,
    ..SOUND
};

const RETIMES: Sweep = Sweep {
    given: RETIMING,
    ending: (0, "left 100\n"),
    pieces: &["left 100\n"],
};

// Tables run no round.
const CHECKED: Given<'static> = Given {
    words: CHECK,
    ..SOUND
};

// No circuit has this name.
const DROPPED_OTHER: Given<'static> = Given {
    words: DROP_OTHER,
    ..SOUND
};

const WORDLESS: Given<'static> = Given {
    words: NO_WORDS,
    ..SOUND
};

const RUNS: Sweep = Sweep {
    given: RING,
    ending: (0, SMALLEST_TEXT),
    pieces: &[SMALLEST_TEXT],
};

const CHECKS: Sweep = Sweep {
    given: CHECKED,
    ending: (0, SMALLEST_TABLES),
    pieces: &[SMALLEST_TABLES],
};

const DROPS_OTHER: Sweep = Sweep {
    given: DROPPED_OTHER,
    ending: (10, "no such port\n"),
    pieces: &["no such port\n"],
};

const HAS_NO_WORDS: Sweep = Sweep {
    given: WORDLESS,
    ending: (2, USAGE),
    pieces: &[USAGE],
};

const PATHS: Sweep = Sweep {
    given: PATH,
    ending: (0, BOTH_WAYS),
    pieces: &[BOTH_WAYS],
};

const WATCHES: Sweep = Sweep {
    given: WATCH,
    ending: (0, WATCHED),
    pieces: &[WATCHED],
};

const SIGNALLING: Sweep = Sweep {
    given: SIGNALS,
    ending: (0, SIGNALLED),
    pieces: SIGNAL_PIECES,
};

// All commands that read a plan, and whose text is short.
const READERS: &[Sweep] = &[
    RUNS,
    CHECKS,
    DROPS_OTHER,
    PATHS,
    WATCHES,
    SIGNALLING,
    RETIMES,
];

#[test]
fn each_read_that_fails_is_told(rt: HostRuntime) {
    all_right(&rt, right_reads(rt.alloc(), READERS), READERS.len());
}

const WRITERS: &[Sweep] = &[RUNS, CHECKS, DROPS_OTHER, HAS_NO_WORDS];

#[test]
fn each_write_of_a_ring_that_fails_is_told(rt: HostRuntime) {
    all_right(&rt, right_writes(rt.alloc(), WRITERS), WRITERS.len());
}

const OTHER_WRITERS: &[Sweep] = &[PATHS, WATCHES, SIGNALLING, RETIMES];

#[test]
fn each_other_write_that_fails_is_told(rt: HostRuntime) {
    all_right(
        &rt,
        right_writes(rt.alloc(), OTHER_WRITERS),
        OTHER_WRITERS.len(),
    );
}

const BROKEN: &str = "plant fault\n";

const CUT: &str = "\"cut 2 east\", \"settle\"";

// A settle step of these plans has 129 rounds. In each a ring of three sends 6 frames, and one of four 8; it receives
// as many in each round but the first. The last rows are calls that are never made.
const RINGS_FAIL: &[Row] = &[
    (RING, Recording(0), TWICE, 8, BROKEN),
    (RING, Recording(4), TWICE, 8, BROKEN),
    (RING, Recording(773), TWICE, 8, BROKEN),
    (RING, Recording(774), TWICE, 8, SMALLEST_BROKEN),
    (RING, Recording(780), TWICE, 8, SMALLEST_BROKEN),
    (RING, Failing(Prepare, 1), ONCE, 8, BROKEN),
    (RING, Failing(Send, 1), ONCE, 8, BROKEN),
    (RING, Failing(Send, 5), ONCE, 8, BROKEN),
    (RING, Failing(Send, 774), ONCE, 8, BROKEN),
    (RING, Failing(Receive, 1), ONCE, 8, BROKEN),
    (RING, Failing(Receive, 768), ONCE, 8, BROKEN),
    (RING, Failing(Send, 775), TWICE, 8, SMALLEST_BROKEN),
    (RING, Failing(Receive, 769), TWICE, 8, SMALLEST_BROKEN),
    (RING, Failing(Apply, 1), CUT, 8, BROKEN),
    (RING, Failing(Prepare, 2), ONCE, 0, SMALLEST_TEXT),
    (RING, Failing(Send, 775), ONCE, 0, SMALLEST_TEXT),
    (RING, Failing(Receive, 769), ONCE, 0, SMALLEST_TEXT),
    (RING, Failing(Apply, 1), ONCE, 0, SMALLEST_TEXT),
];

#[test]
fn fibres_of_a_ring_that_fail_are_told(rt: HostRuntime) {
    all_come_out(&rt, rt.alloc(), RINGS_FAIL);
}

const PATHS_FAIL: &[Row] = &[
    (PATH, Failing(Prepare, 1), ONCE, 8, BROKEN),
    (PATH, Failing(Send, 1032), ONCE, 8, BROKEN),
    (PATH, Failing(Receive, 1), ONCE, 8, BROKEN),
    (PATH, Failing(Apply, 1), CUT, 8, BROKEN),
    (PATH, Failing(Receive, 1025), TWICE, 8, BOTH_WAYS_BROKEN),
    (PATH, Failing(Send, 1033), ONCE, 0, BOTH_WAYS),
    (PATH, Recording(1031), TWICE, 8, BROKEN),
    (PATH, Recording(1032), TWICE, 8, BOTH_WAYS_BROKEN),
];

#[test]
fn fibres_of_a_path_ring_that_fail_are_told(rt: HostRuntime) {
    all_come_out(&rt, rt.alloc(), PATHS_FAIL);
}

// After a settle step 128 rounds are watched, and a fault in one of them ends the run without the lines of the step.
const WATCHES_FAIL: &[Row] = &[
    (WATCH, Failing(Prepare, 1), ONCE, 8, BROKEN),
    (WATCH, Failing(Send, 774), ONCE, 8, BROKEN),
    (WATCH, Failing(Receive, 769), ONCE, 8, BROKEN),
    (WATCH, Failing(Send, 1542), ONCE, 8, BROKEN),
    (WATCH, Failing(Apply, 1), CUT, 8, BROKEN),
    (WATCH, Failing(Receive, 1537), TWICE, 8, WATCHED_BROKEN),
    (WATCH, Failing(Send, 1543), ONCE, 0, WATCHED),
    (WATCH, Recording(1541), TWICE, 8, BROKEN),
    (WATCH, Recording(1542), TWICE, 8, WATCHED_BROKEN),
];

#[test]
fn watched_fibres_that_fail_are_told(rt: HostRuntime) {
    all_come_out(&rt, rt.alloc(), WATCHES_FAIL);
}

const SIGNALS_FAIL: &[Row] = &[
    (SIGNALS, Failing(Prepare, 1), ONCE, 8, BROKEN),
    (SIGNALS, Failing(Send, 1), ONCE, 8, BROKEN),
    (SIGNALS, Failing(Send, 774), ONCE, 8, SIGNALS_BROKEN),
    (SIGNALS, Failing(Receive, 768), ONCE, 8, SIGNALS_BROKEN),
    (SIGNALS, Failing(Apply, 1), CUT, 8, BROKEN),
    (SIGNALS, Failing(Receive, 769), TWICE, 8, SIGNALLED_BROKEN),
    (SIGNALS, Failing(Send, 775), ONCE, 0, SIGNALLED),
    (SIGNALS, Recording(773), TWICE, 8, SIGNALS_BROKEN),
    (SIGNALS, Recording(774), TWICE, 8, SIGNALLED_BROKEN),
];

#[test]
fn signalling_fibres_that_fail_are_told(rt: HostRuntime) {
    all_come_out(&rt, rt.alloc(), SIGNALS_FAIL);
}

// Both the first read and the first write fail.
const DEAF_RING: Given<'static> = Given {
    reads: &[1],
    writes: &[1],
    ..RING
};

const DEAF_PATH: Given<'static> = Given {
    reads: &[1],
    writes: &[1],
    ..PATH
};

const DEAF_WATCH: Given<'static> = Given {
    reads: &[1],
    writes: &[1],
    ..WATCH
};

const DEAF_SIGNALS: Given<'static> = Given {
    reads: &[1],
    writes: &[1],
    ..SIGNALS
};

const OF_CUT_OFF: Given<'static> = Given {
    document: CUT_OFF,
    ..CHECKED
};

const OF_UNSETTLED: Given<'static> = Given {
    document: UNSETTLED,
    ..CHECKED
};

const OF_NO_CIRCUITS: Given<'static> = Given {
    document: NO_CIRCUITS,
    ..CHECKED
};

const PATH_OF_SMALLEST: Given<'static> = Given {
    document: SMALLEST,
    ..PATH
};

// The first read of the plan fails, or the last one before its end.
const DEAF_DROP: Given<'static> = Given {
    words: DROP,
    reads: &[1],
    ..SOUND
};

const LATE_DEAF_DROP: Given<'static> = Given {
    words: DROP,
    reads: &[3],
    ..SOUND
};

// The first ten bytes are written.
const FULL_SINK: Given<'static> = Given {
    write: 10,
    room: 10,
    ..SOUND
};

const FAILING_SINK: Given<'static> = Given {
    write: 10,
    writes: &[2],
    ..SOUND
};

const READ_FAULT: &str = "read fault\n";

const DARK_RING: &str = "settle 1 round 128
node 1 isolated west b3 16 east b2 16
node 2 isolated west b1 26 east b3 26
node 3 isolated west b2 36 east b1 36
port c1 a ais
port c1 b ais
done
";

const DARK_PATHS: &str = "settle 1 round 128\nport c1 a ais\nport c1 b ais\ndone\n";

const DARK_WATCHES: &str = "settle 1 round 128\nwatch c1 a ais\nwatch c1 b ais\ndone\n";

// A sink takes no more; a port isn't listed whose plan can't be read; a write that fails hides a read that fails;
// tables run no round, since these fibres have no room for a frame, and the limit of one plan is too small for a settle
// step; nothing comes out of fibres.
const OTHERS: &[Row] = &[
    (FULL_SINK, Honest, ONCE, 4, "settle 1 r"),
    (FAILING_SINK, Honest, ONCE, 4, "settle 1 r"),
    (DEAF_DROP, Honest, ONCE, 3, READ_FAULT),
    (LATE_DEAF_DROP, Honest, ONCE, 3, READ_FAULT),
    (DEAF_RING, Honest, ONCE, 4, ""),
    (DEAF_PATH, Honest, ONCE, 4, ""),
    (DEAF_WATCH, Honest, ONCE, 4, ""),
    (DEAF_SIGNALS, Honest, ONCE, 4, ""),
    (OF_UNSETTLED, Recording(0), ONCE, 0, SMALLEST_TABLES),
    (OF_CUT_OFF, Recording(0), ONCE, 0, CUT_OFF_TABLES),
    (OF_NO_CIRCUITS, Recording(0), ONCE, 0, "done\n"),
    (RING, Dark, ONCE, 0, DARK_RING),
    (PATH_OF_SMALLEST, Dark, ONCE, 0, DARK_PATHS),
    (WATCH, Dark, ONCE, 0, DARK_WATCHES),
];

#[test]
fn other_calls_end_as_told(rt: HostRuntime) {
    all_come_out(&rt, rt.alloc(), OTHERS);
}

// What is no document, and the tables of a plan.
const NOT_TOML: Sweep = Sweep {
    given: Given {
        document: "rate = ",
        ..SOUND
    },
    ending: (5, "not toml\n"),
    pieces: &[],
};

const CHECKS_CUT_OFF: Sweep = Sweep {
    given: OF_CUT_OFF,
    ending: (0, CUT_OFF_TABLES),
    pieces: &[],
};

const MEMORY: &[Sweep] = &[RUNS, CHECKS_CUT_OFF, DROPS_OTHER, NOT_TOML, HAS_NO_WORDS];

// It shows most where one of the allocations is made to fail.
#[test]
fn want_of_memory_writes_nothing(rt: HostRuntime) {
    all_right(&rt, right_memories(rt.alloc(), MEMORY), MEMORY.len());
}
