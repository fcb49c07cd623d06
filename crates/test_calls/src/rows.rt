//! Worked plans of rings: what happens to a ring, and what `sdhring` writes of it. Words, states, routes and bytes were
//! worked out by hand.
use crate::calls::{Fibres, Given, Row, SOUND, all_come_out};

// Two nodes, and a circuit each way round.
const TWO_NODES: &str = r#"rate = 4
nodes = [7, 9]
threshold = 3
wait = 10
limit = 1000
script = ["settle"]
[[circuit]]
name = "p"
from = 7
to = 9
slot = 1
text_a = "ALPHA"
text_b = "BETA!"
[[circuit]]
name = "q"
from = 9
to = 7
slot = 1
text_a = "ALPHA"
text_b = "BETA!"
"#;

/// Four nodes, and a circuit over two spans.
pub(crate) const FOUR_NODES: &str = r#"rate = 4
nodes = [1, 2, 3, 4]
threshold = 3
wait = 10
limit = 1000
script = ["settle"]
[[circuit]]
name = "c1"
from = 1
to = 3
slot = 1
text_a = "ABCDEFG"
text_b = "abcdefg"
"#;

/// The same, with a circuit over three spans.
pub(crate) const ARC_OF_THREE: &str = r#"rate = 4
nodes = [1, 2, 3, 4]
threshold = 3
wait = 10
limit = 1000
script = ["settle"]
[[circuit]]
name = "c1"
from = 1
to = 4
slot = 1
text_a = "ABCDEFG"
text_b = "abcdefg"
"#;

/// Four nodes, and two circuits that meet at the second node.
pub(crate) const TWO_CIRCUITS: &str = r#"rate = 4
nodes = [1, 2, 3, 4]
threshold = 3
wait = 10
limit = 1000
script = ["settle"]
[[circuit]]
name = "x"
from = 1
to = 2
slot = 1
text_a = "ALPHA"
text_b = "BETA!"
[[circuit]]
name = "y"
from = 2
to = 3
slot = 1
text_a = "ALPHA"
text_b = "BETA!"
"#;

// Sixteen nodes, and a circuit over fifteen spans.
const SIXTEEN_NODES: &str = r#"rate = 4
nodes = [0, 1, 2, 3, 4, 5, 6, 7, 8, 9, 10, 11, 12, 13, 14, 15]
threshold = 3
wait = 10
limit = 1000
script = ["settle"]
[[circuit]]
name = "c1"
from = 0
to = 15
slot = 1
text_a = "ABCDEFG"
text_b = "abcdefg"
"#;

// Each plan, the steps of its script, the number with which the program ends, and the text.
const ROWS: &[Row] = &[
    (
        Given {
            document: TWO_NODES,
            ..SOUND
        },
        Fibres::Honest,
        "\"settle\", \"cut 7 east\", \"cut 9 west\", \"settle\"",
        0,
        "settle 1 round 128
node 7 idle west 09 70 east 09 70
node 9 idle west 07 90 east 07 90
port p a norm 0 00424554412142455441214245544121
port p b norm 0 00414c504841414c504841414c504841
port q a norm 0 00424554412142455441214245544121
port q b norm 0 00414c504841414c504841414c504841
settle 2 round 256
node 7 switch-east west b9 7a east b9 76
node 9 switch-west west b7 96 east b7 9a
port p a norm 0 00424554412142455441214245544121
port p b norm 0 00414c504841414c504841414c504841
port q a norm 0 00424554412142455441214245544121
port q b norm 0 00414c504841414c504841414c504841
done
",
    ),
    (
        Given {
            document: FOUR_NODES,
            ..SOUND
        },
        Fibres::Honest,
        "\"settle\"",
        0,
        "settle 1 round 128
node 1 idle west 04 10 east 02 10
node 2 idle west 01 20 east 03 20
node 3 idle west 02 30 east 04 30
node 4 idle west 03 40 east 01 40
port c1 a norm 0 00676162636465666761626364656667
port c1 b norm 0 00474142434445464741424344454647
done
",
    ),
    (
        Given {
            document: FOUR_NODES,
            ..SOUND
        },
        Fibres::Honest,
        "\"cut 2 east\", \"cut 3 west\", \"settle\"",
        0,
        "settle 1 round 128
node 1 pass west b3 2a east b2 3a
node 2 switch-east west b3 2a east b3 26
node 3 switch-west west b2 36 east b2 3a
node 4 pass west b3 2a east b2 3a
port c1 a norm 0 00636465666761626364656667616263
port c1 b norm 0 00434445464741424344454647414243
done
",
    ),
    (
        Given {
            document: FOUR_NODES,
            ..SOUND
        },
        Fibres::Honest,
        "\"cut 2 east\", \"settle\"",
        0,
        "settle 1 round 128
node 1 pass west b3 2a east b2 3a
node 2 switch-east west b3 2a east 13 22
node 3 switch-west west b2 36 east b2 3a
node 4 pass west b3 2a east b2 3a
port c1 a norm 0 00636465666761626364656667616263
port c1 b norm 0 00434445464741424344454647414243
done
",
    ),
    (
        Given {
            document: ARC_OF_THREE,
            ..SOUND
        },
        Fibres::Honest,
        "\"cut 1 east\", \"cut 2 west\", \"cut 3 east\", \"cut 4 west\", \"settle\"",
        0,
        "settle 1 round 128
node 1 switch-east west b2 1a east b2 16
node 2 switch-west west b1 26 east b1 2a
node 3 switch-east west b4 3a east b4 36
node 4 switch-west west b3 46 east b3 4a
port c1 a norm 0 00626364656667616263646566676162
port c1 b norm 0 00424344454647414243444546474142
done
",
    ),
    (
        Given {
            document: TWO_CIRCUITS,
            ..SOUND
        },
        Fibres::Honest,
        "\"cut 1 east\", \"cut 2 west\", \"cut 2 east\", \"cut 3 west\", \"settle\"",
        0,
        "settle 1 round 128
node 1 switch-east west b2 1a east b2 16
node 2 isolated west b1 26 east b3 26
node 3 switch-west west b2 36 east b2 3a
node 4 pass west b2 1a east b2 3a
port x a ais
port x b ais
port y a ais
port y b ais
done
",
    ),
    (
        Given {
            document: TWO_CIRCUITS,
            ..SOUND
        },
        Fibres::Honest,
        "\"forced 1 east\", \"forced 3 east\", \"settle\"",
        0,
        "settle 1 round 128
node 1 switch-east west d2 1a east d2 12
node 2 switch-west west 11 22 east d1 2a
node 3 switch-east west d4 3a east d4 32
node 4 switch-west west 13 42 east d3 4a
port x a ais
port x b ais
port y a norm 0 00424554412142455441214245544121
port y b norm 0 00414c504841414c504841414c504841
done
",
    ),
    (
        Given {
            document: FOUR_NODES,
            ..SOUND
        },
        Fibres::Honest,
        "\"cut 2 east\", \"cut 3 west\", \"settle\", \"mend 2 east\", \"mend 3 west\", \"settle\"",
        0,
        "settle 1 round 128
node 1 pass west b3 2a east b2 3a
node 2 switch-east west b3 2a east b3 26
node 3 switch-west west b2 36 east b2 3a
node 4 pass west b3 2a east b2 3a
port c1 a norm 0 00636465666761626364656667616263
port c1 b norm 0 00434445464741424344454647414243
settle 2 round 256
node 1 pass west 53 2a east 52 3a
node 2 switch-east west 53 2a east 53 22
node 3 switch-west west 52 32 east 52 3a
node 4 pass west 53 2a east 52 3a
port c1 a norm 0 00676162636465666761626364656667
port c1 b norm 0 00474142434445464741424344454647
done
",
    ),
    (
        Given {
            document: FOUR_NODES,
            ..SOUND
        },
        Fibres::Honest,
        "\"manual 2 east\", \"manual 4 east\", \"settle\", \"clear 2 east\", \"settle\"",
        0,
        "settle 1 round 128
node 1 idle west 14 10 east 64 18
node 2 idle west 63 28 east 63 20
node 3 idle west 12 30 east 62 38
node 4 idle west 61 48 east 61 40
port c1 a norm 0 00676162636465666761626364656667
port c1 b norm 0 00474142434445464741424344454647
settle 2 round 256
node 1 switch-west west 14 12 east 64 1a
node 2 pass west 61 4a east 64 1a
node 3 pass west 61 4a east 64 1a
node 4 switch-east west 61 4a east 61 42
port c1 a norm 0 00646566676162636465666761626364
port c1 b norm 0 00444546474142434445464741424344
done
",
    ),
    (
        Given {
            document: FOUR_NODES,
            ..SOUND
        },
        Fibres::Honest,
        "\"cut 2 east\", \"cut 3 west\", \"settle\", \"mend 2 east\", \"mend 3 west\", \"settle\", \"moment 9\", \"settle\", \"moment 10\", \"settle\"",
        0,
        "settle 1 round 128
node 1 pass west b3 2a east b2 3a
node 2 switch-east west b3 2a east b3 26
node 3 switch-west west b2 36 east b2 3a
node 4 pass west b3 2a east b2 3a
port c1 a norm 0 00636465666761626364656667616263
port c1 b norm 0 00434445464741424344454647414243
settle 2 round 256
node 1 pass west 53 2a east 52 3a
node 2 switch-east west 53 2a east 53 22
node 3 switch-west west 52 32 east 52 3a
node 4 pass west 53 2a east 52 3a
port c1 a norm 0 00676162636465666761626364656667
port c1 b norm 0 00474142434445464741424344454647
settle 3 round 384
node 1 pass west 53 2a east 52 3a
node 2 switch-east west 53 2a east 53 22
node 3 switch-west west 52 32 east 52 3a
node 4 pass west 53 2a east 52 3a
port c1 a norm 0 00646566676162636465666761626364
port c1 b norm 0 00444546474142434445464741424344
settle 4 round 512
node 1 idle west 04 10 east 02 10
node 2 idle west 01 20 east 03 20
node 3 idle west 02 30 east 04 30
node 4 idle west 03 40 east 01 40
port c1 a norm 0 00656667616263646566676162636465
port c1 b norm 0 00454647414243444546474142434445
done
",
    ),
    (
        Given {
            document: FOUR_NODES,
            ..SOUND
        },
        Fibres::Honest,
        "\"degrade 2 east 2\", \"settle\"",
        0,
        "settle 1 round 128
node 1 idle west 04 10 east 02 10
node 2 idle west 01 20 east 03 20
node 3 idle west 02 30 east 04 30
node 4 idle west 03 40 east 01 40
port c1 a norm 0 00676162636465666761626364656667
port c1 b norm 0 00474142434445464741424344454647
done
",
    ),
    (
        Given {
            document: FOUR_NODES,
            ..SOUND
        },
        Fibres::Honest,
        "\"degrade 2 east 3\", \"settle\"",
        0,
        "settle 1 round 128
node 1 pass west 83 2a east 82 3a
node 2 switch-east west 83 2a east 13 22
node 3 switch-west west 82 32 east 82 3a
node 4 pass west 83 2a east 82 3a
port c1 a norm 0 00636465666761626364656667616263
port c1 b norm 0 00434445464741424344454647414243
done
",
    ),
    (
        Given {
            document: FOUR_NODES,
            ..SOUND
        },
        Fibres::Honest,
        "\"degrade 2 east 3\", \"cut 4 east\", \"cut 1 west\", \"settle\"",
        0,
        "settle 1 round 128
node 1 switch-west west b4 16 east b4 1a
node 2 pass west b1 4a east b4 1a
node 3 pass west b1 4a east b4 1a
node 4 switch-east west b1 4a east b1 46
port c1 a norm 0 00676162636465666761626364656667
port c1 b norm 0 00474142434445464741424344454647
done
",
    ),
    (
        Given {
            document: SIXTEEN_NODES,
            ..SOUND
        },
        Fibres::Honest,
        "\"cut 14 east\", \"cut 15 west\", \"settle\"",
        0,
        "settle 1 round 128
node 0 pass west bf ea east be fa
node 1 pass west bf ea east be fa
node 2 pass west bf ea east be fa
node 3 pass west bf ea east be fa
node 4 pass west bf ea east be fa
node 5 pass west bf ea east be fa
node 6 pass west bf ea east be fa
node 7 pass west bf ea east be fa
node 8 pass west bf ea east be fa
node 9 pass west bf ea east be fa
node 10 pass west bf ea east be fa
node 11 pass west bf ea east be fa
node 12 pass west bf ea east be fa
node 13 pass west bf ea east be fa
node 14 switch-east west bf ea east bf e6
node 15 switch-west west be f6 east be fa
port c1 a norm 0 00626364656667616263646566676162
port c1 b norm 0 00424344454647414243444546474142
done
",
    ),
];

#[test]
fn worked_plans_come_out(rt: HostRuntime) {
    all_come_out(&rt, rt.alloc(), ROWS);
}
