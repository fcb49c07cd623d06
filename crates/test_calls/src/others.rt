//! Worked plans of path rings, of watches and of outages.
use crate::calls::{Fibres, Given, Program, Row, SOUND, all_come_out};
use crate::rows::{ARC_OF_THREE, FOUR_NODES, TWO_CIRCUITS};
use crate::texts::BOTH_WAYS;

const PATHS: Given<'static> = Given {
    program: Program::Path,
    document: FOUR_NODES,
    ..SOUND
};

const PATHS_OF_THREE_SPANS: Given<'static> = Given {
    document: ARC_OF_THREE,
    ..PATHS
};

const PATHS_IN_ONE_SLOT: Given<'static> = Given {
    document: TWO_CIRCUITS,
    ..PATHS
};

// Each fibre is cut one way alone: the path of one end, and then of both ways to the other end.
const PATH_ROWS: &[Row] = &[
    (
        PATHS,
        Fibres::Honest,
        "\"cut 2 east\", \"settle\"",
        0,
        BOTH_WAYS,
    ),
    (
        PATHS,
        Fibres::Honest,
        "\"cut 2 east\", \"cut 1 west\", \"settle\"",
        0,
        "settle 1 round 128
port c1 a norm 0 00676162636465666761626364656667
port c1 b ais
done
",
    ),
    (
        PATHS_OF_THREE_SPANS,
        Fibres::Honest,
        "\"cut 1 east\", \"settle\"",
        0,
        "settle 1 round 128
port c1 a norm 0 00656667616263646566676162636465
port c1 b norm 0 00424344454647414243444546474142
done
",
    ),
    (
        PATHS_IN_ONE_SLOT,
        Fibres::Honest,
        "\"settle\"",
        13,
        "same slot 1 2\n",
    ),
    (
        PATHS,
        Fibres::Honest,
        "\"forced 2 east\", \"settle\"",
        14,
        "no such step 1\n",
    ),
];

#[test]
fn worked_path_rings_come_out(rt: HostRuntime) {
    all_come_out(&rt, rt.alloc(), PATH_ROWS);
}

// The smallest plan, with the value 522 at its first port.
const VALUE_522: &str = r#"rate = 4
nodes = [1, 2, 3]
threshold = 3
wait = 10
limit = 1000
script = ["settle"]
[[circuit]]
name = "c1"
from = 1
to = 2
slot = 1
offset_a = 522
text_a = "ALPHA"
text_b = "BETA!"
"#;

const WATCHES: Given<'static> = Given {
    program: Program::Watch,
    document: VALUE_522,
    ..SOUND
};

const WATCHES_OF_TWO: Given<'static> = Given {
    document: TWO_CIRCUITS,
    ..WATCHES
};

// The node between two circuits is cut off.
const CUT_OFF: &str = "\"cut 1 east\", \"cut 2 west\", \"cut 2 east\", \"cut 3 west\", \"settle\"";

const WATCH_ROWS: &[Row] = &[
    (
        WATCHES,
        Fibres::Honest,
        "\"settle\"",
        0,
        "settle 1 round 128
watch c1 a vcs 127 b3 0 label 0 trace ok
watch c1 b vcs 128 b3 0 label 0 trace ok
done
",
    ),
    (
        WATCHES_OF_TWO,
        Fibres::Honest,
        CUT_OFF,
        0,
        "settle 1 round 128
watch x a ais
watch x b ais
watch y a ais
watch y b ais
done
",
    ),
];

#[test]
fn worked_watches_come_out(rt: HostRuntime) {
    all_come_out(&rt, rt.alloc(), WATCH_ROWS);
}

const OUTAGES: Given<'static> = Given {
    program: Program::Outages,
    document: TWO_CIRCUITS,
    ..SOUND
};

const OUTAGES_OF_SMALLEST: Given<'static> = Given {
    program: Program::Outages,
    ..SOUND
};

// A new ring delivers AIS in its first round, in which nothing has arrived. The node between two circuits is cut off
// from that round on, and its ports and theirs deliver nothing.
const OUTAGE_ROWS: &[Row] = &[
    (
        OUTAGES_OF_SMALLEST,
        Fibres::Honest,
        "\"settle\"",
        0,
        "settle 1 round 128
port c1 a out 1 runs 1 longest 1 ms 0.125 from 0 to 0 ais 1 ones 0 jump 0 torn 0 strange 0 foreign 0 of - -
port c1 b out 1 runs 1 longest 1 ms 0.125 from 0 to 0 ais 1 ones 0 jump 0 torn 0 strange 0 foreign 0 of - -
longest 1 ms 0.125 over 0 none 0 still 0
done
",
    ),
    (
        OUTAGES,
        Fibres::Honest,
        CUT_OFF,
        0,
        "settle 1 round 128
port x a out 129 runs 1 longest 129 ms 16.125 from 0 to 128 ais 129 ones 0 jump 0 torn 0 strange 0 foreign 0 of - -
port x b out 129 runs 1 longest 129 ms 16.125 from 0 to 128 ais 129 ones 0 jump 0 torn 0 strange 0 foreign 0 of - -
port y a out 129 runs 1 longest 129 ms 16.125 from 0 to 128 ais 129 ones 0 jump 0 torn 0 strange 0 foreign 0 of - -
port y b out 129 runs 1 longest 129 ms 16.125 from 0 to 128 ais 129 ones 0 jump 0 torn 0 strange 0 foreign 0 of - -
longest 0 ms 0.000 over 0 none 0 still 4
done
",
    ),
];

#[test]
fn worked_outages_come_out(rt: HostRuntime) {
    all_come_out(&rt, rt.alloc(), OUTAGE_ROWS);
}
