//! Plans, and the texts that their runs write.

/// What is written of the smallest plan.
pub const SMALLEST_TEXT: &str = "settle 1 round 128
node 1 idle west 03 10 east 02 10
node 2 idle west 01 20 east 03 20
node 3 idle west 02 30 east 01 30
port c1 a norm 0 00424554412142455441214245544121
port c1 b norm 0 00414c504841414c504841414c504841
done
";

/// What is written where its first settle step ended and a fault came in a second one.
pub const SMALLEST_BROKEN: &str = "settle 1 round 128
node 1 idle west 03 10 east 02 10
node 2 idle west 01 20 east 03 20
node 3 idle west 02 30 east 01 30
port c1 a norm 0 00424554412142455441214245544121
port c1 b norm 0 00414c504841414c504841414c504841
plant fault
";

/// The ring of the smallest plan, without its circuit.
pub const NO_CIRCUITS: &str = r#"rate = 4
nodes = [1, 2, 3]
threshold = 3
wait = 10
limit = 1000
script = ["settle"]
"#;

/// The smallest plan, with a limit that is too small for a settle step.
pub const UNSETTLED: &str = r#"rate = 4
nodes = [1, 2, 3]
threshold = 3
wait = 10
limit = 128
script = ["settle"]
[[circuit]]
name = "c1"
from = 1
to = 2
slot = 1
text_a = "ALPHA"
text_b = "BETA!"
"#;

/// Four nodes, and two circuits that meet at the second, which is cut off.
pub const CUT_OFF: &str = r#"rate = 4
nodes = [1, 2, 3, 4]
threshold = 3
wait = 10
limit = 1000
script = ["cut 1 east", "cut 2 west", "cut 2 east", "cut 3 west", "settle"]
[[circuit]]
name = "x"
from = 1
to = 2
slot = 1
text_a = "ABCDEFG"
text_b = "abcdefg"
[[circuit]]
name = "y"
from = 2
to = 3
slot = 1
text_a = "ABCDEFG"
text_b = "abcdefg"
"#;

pub const CUT_OFF_TABLES: &str = "node 1 east slot 1 x 1 2
node 2 west slot 1 x 1 2
node 2 east slot 1 y 2 3
node 3 west slot 1 y 2 3
done
";

pub const SMALLEST_TABLES: &str = "node 1 east slot 1 c1 1 2
node 2 west slot 1 c1 1 2
done
";

pub const USAGE: &str = "usage: sdhring run, check, drop NAME END, big NUMBER\n";

/// What the watches of the smallest plan show.
pub const WATCHED: &str = "settle 1 round 128
watch c1 a vcs 127 b3 0 label 0 trace ok
watch c1 b vcs 127 b3 0 label 0 trace ok
done
";

/// What is written where its first settle step was watched to the end and a fault came in a second one.
pub const WATCHED_BROKEN: &str = "settle 1 round 128
watch c1 a vcs 127 b3 0 label 0 trace ok
watch c1 b vcs 127 b3 0 label 0 trace ok
plant fault
";

/// What is written of how its ring signals, piece by piece: in the first round each node says to both neighbours that
/// it asks for nothing, and in the fourth each hears it, as three frames in a row have come.
pub const SIGNAL_PIECES: &[&str] = &[
    "round 0 node 1 idle far - west 03 10 east 02 10 heard - - - - asks nr nr
round 0 node 2 idle far - west 01 20 east 03 20 heard - - - - asks nr nr
round 0 node 3 idle far - west 02 30 east 01 30 heard - - - - asks nr nr
",
    "round 3 node 1 idle far - west 03 10 east 02 10 heard 01 30 01 20 asks nr nr
round 3 node 2 idle far - west 01 20 east 03 20 heard 02 10 02 30 asks nr nr
round 3 node 3 idle far - west 02 30 east 01 30 heard 03 20 03 10 asks nr nr
",
    "settle 1 round 128\n",
    "done\n",
];

/// The same as one text.
pub const SIGNALLED: &str =
    "round 0 node 1 idle far - west 03 10 east 02 10 heard - - - - asks nr nr
round 0 node 2 idle far - west 01 20 east 03 20 heard - - - - asks nr nr
round 0 node 3 idle far - west 02 30 east 01 30 heard - - - - asks nr nr
round 3 node 1 idle far - west 03 10 east 02 10 heard 01 30 01 20 asks nr nr
round 3 node 2 idle far - west 01 20 east 03 20 heard 02 10 02 30 asks nr nr
round 3 node 3 idle far - west 02 30 east 01 30 heard 03 20 03 10 asks nr nr
settle 1 round 128
done
";

/// What is written where a fault came in its first settle step after the fourth round.
pub const SIGNALS_BROKEN: &str =
    "round 0 node 1 idle far - west 03 10 east 02 10 heard - - - - asks nr nr
round 0 node 2 idle far - west 01 20 east 03 20 heard - - - - asks nr nr
round 0 node 3 idle far - west 02 30 east 01 30 heard - - - - asks nr nr
round 3 node 1 idle far - west 03 10 east 02 10 heard 01 30 01 20 asks nr nr
round 3 node 2 idle far - west 01 20 east 03 20 heard 02 10 02 30 asks nr nr
round 3 node 3 idle far - west 02 30 east 01 30 heard 03 20 03 10 asks nr nr
plant fault
";

/// What is written where its first settle step ended and a fault came in a second one.
pub const SIGNALLED_BROKEN: &str =
    "round 0 node 1 idle far - west 03 10 east 02 10 heard - - - - asks nr nr
round 0 node 2 idle far - west 01 20 east 03 20 heard - - - - asks nr nr
round 0 node 3 idle far - west 02 30 east 01 30 heard - - - - asks nr nr
round 3 node 1 idle far - west 03 10 east 02 10 heard 01 30 01 20 asks nr nr
round 3 node 2 idle far - west 01 20 east 03 20 heard 02 10 02 30 asks nr nr
round 3 node 3 idle far - west 02 30 east 01 30 heard 03 20 03 10 asks nr nr
settle 1 round 128
plant fault
";

/// Four nodes and a circuit over two spans.
pub const TWO_SPANS: &str = r#"rate = 4
nodes = [1, 2, 3, 4]
threshold = 3
wait = 10
limit = 1000
script = ["settle"]
[[circuit]]
name = "c1"
from = 1
to = 3
slot = 1
text_a = "ABCDEFG"
text_b = "abcdefg"
"#;

/// What its ports deliver over a path ring.
pub const BOTH_WAYS: &str = "settle 1 round 128
port c1 a norm 0 00676162636465666761626364656667
port c1 b norm 0 00474142434445464741424344454647
done
";

/// What is written where its first settle step ended and a fault came in a second one.
pub const BOTH_WAYS_BROKEN: &str = "settle 1 round 128
port c1 a norm 0 00676162636465666761626364656667
port c1 b norm 0 00474142434445464741424344454647
plant fault
";

/// What the program that reports losses writes of other words.
pub const USAGE_OF_LOSSES: &str =
    "usage: sdhwhatif single, double, triple, with kinds, own NAMES, part K N, head, json, summary\n";

/// The table of the smallest plan, as the rules make it.
pub const TABLE: &str = "number,failures,steps,applied,kept,impaired,over,lost,hops,c1\r\n\
0,,\"\"\"settle\"\"\",,1,0,0,0,1,\r\n\
1,degraded 1>3,\"\"\"degrade 1 west 3\"\", \"\"settle\"\"\",3-1,1,0,0,0,1,\r\n\
2,degraded 1>2,\"\"\"degrade 1 east 3\"\", \"\"settle\"\"\",1-2,0,0,1,0,2,2\r\n\
3,degraded 2>1,\"\"\"degrade 2 west 3\"\", \"\"settle\"\"\",1-2,0,0,1,0,2,2\r\n\
4,degraded 2>3,\"\"\"degrade 2 east 3\"\", \"\"settle\"\"\",2-3,1,0,0,0,1,\r\n\
5,degraded 3>2,\"\"\"degrade 3 west 3\"\", \"\"settle\"\"\",2-3,1,0,0,0,1,\r\n\
6,degraded 3>1,\"\"\"degrade 3 east 3\"\", \"\"settle\"\"\",3-1,1,0,0,0,1,\r\n\
7,fibre 1>3,\"\"\"cut 1 west\"\", \"\"settle\"\"\",3-1,1,0,0,0,1,\r\n\
8,fibre 1>2,\"\"\"cut 1 east\"\", \"\"settle\"\"\",1-2,0,0,1,0,2,2\r\n\
9,fibre 2>1,\"\"\"cut 2 west\"\", \"\"settle\"\"\",1-2,0,0,1,0,2,2\r\n\
10,fibre 2>3,\"\"\"cut 2 east\"\", \"\"settle\"\"\",2-3,1,0,0,0,1,\r\n\
11,fibre 3>2,\"\"\"cut 3 west\"\", \"\"settle\"\"\",2-3,1,0,0,0,1,\r\n\
12,fibre 3>1,\"\"\"cut 3 east\"\", \"\"settle\"\"\",3-1,1,0,0,0,1,\r\n\
13,span 1-2,\"\"\"cut 1 east\"\", \"\"cut 2 west\"\", \"\"settle\"\"\",1-2,0,0,1,0,2,2\r\n\
14,span 2-3,\"\"\"cut 2 east\"\", \"\"cut 3 west\"\", \"\"settle\"\"\",2-3,1,0,0,0,1,\r\n\
15,span 3-1,\"\"\"cut 3 east\"\", \"\"cut 1 west\"\", \"\"settle\"\"\",3-1,1,0,0,0,1,\r\n\
16,node 1,\"\"\"cut 1 east\"\", \"\"cut 2 west\"\", \"\"cut 3 east\"\", \"\"cut 1 west\"\", \"\"settle\"\"\",1-2 3-1,0,0,0,1,0,x\r\n\
17,node 2,\"\"\"cut 2 east\"\", \"\"cut 3 west\"\", \"\"cut 1 east\"\", \"\"cut 2 west\"\", \"\"settle\"\"\",1-2 2-3,0,0,0,1,0,x\r\n\
18,node 3,\"\"\"cut 3 east\"\", \"\"cut 1 west\"\", \"\"cut 2 east\"\", \"\"cut 3 west\"\", \"\"settle\"\"\",2-3 3-1,1,0,0,0,1,\r\n\
19,manual 1>3,\"\"\"manual 1 west\"\", \"\"settle\"\"\",3-1,1,0,0,0,1,\r\n\
20,manual 1>2,\"\"\"manual 1 east\"\", \"\"settle\"\"\",1-2,0,0,1,0,2,2\r\n\
21,manual 2>1,\"\"\"manual 2 west\"\", \"\"settle\"\"\",1-2,0,0,1,0,2,2\r\n\
22,manual 2>3,\"\"\"manual 2 east\"\", \"\"settle\"\"\",2-3,1,0,0,0,1,\r\n\
23,manual 3>2,\"\"\"manual 3 west\"\", \"\"settle\"\"\",2-3,1,0,0,0,1,\r\n\
24,manual 3>1,\"\"\"manual 3 east\"\", \"\"settle\"\"\",3-1,1,0,0,0,1,\r\n\
25,forced 1>3,\"\"\"forced 1 west\"\", \"\"settle\"\"\",3-1,1,0,0,0,1,\r\n\
26,forced 1>2,\"\"\"forced 1 east\"\", \"\"settle\"\"\",1-2,0,0,1,0,2,2\r\n\
27,forced 2>1,\"\"\"forced 2 west\"\", \"\"settle\"\"\",1-2,0,0,1,0,2,2\r\n\
28,forced 2>3,\"\"\"forced 2 east\"\", \"\"settle\"\"\",2-3,1,0,0,0,1,\r\n\
29,forced 3>2,\"\"\"forced 3 west\"\", \"\"settle\"\"\",2-3,1,0,0,0,1,\r\n\
30,forced 3>1,\"\"\"forced 3 east\"\", \"\"settle\"\"\",3-1,1,0,0,0,1,\r\n\
";

/// A hundred bytes.
pub const LETTERS: &str = "abcdefghijklmnopqrstuvwxyzabcdefghijklmnopqrstuvwxyz\
abcdefghijklmnopqrstuvwxyzabcdefghijklmnopqrstuv";
