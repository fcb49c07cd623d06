//! Single steps of nodes. Each word is given by its two bytes; `None` is a side on which nothing is heard.
ghost use Rattle.std.specs.Prelude.{◌≡◌, ◌≢◌, true, false};
ghost use Rattle.sdh_nodestate.specs.Conditions.{MayNeed};

use sdh_kbytes::{K, decode};
use sdh_nodestate::{
    Filter, Heard, Needs, NodeState, Sent, Shape, same_shape, shape_of, start, step,
};
use sdh_ringmap::{Code, Pos, RingMap};

type Bytes = Option<(u8, u8)>;

// Returns the needs of a node with two local requests, where no side fails.
fn asks(west: Code, east: Code) -> Needs
    requires west { west ≢ Code.Rr }
    requires east { east ≢ Code.Rr }
    ensures { result ≡ record { west = west; east = east; west_fails = false; east_fails = false } }
{
    Needs {
        west,
        east,
        west_fails: false,
        east_fails: false,
    }
}

// Returns the needs of a node whose sides fail so, and that asks for nothing else.
fn fail(west: bool, east: bool) -> Needs
    ensures may { MayNeed result }
    ensures west { result.west_fails ≡ west }
    ensures east { result.east_fails ≡ east }
{
    let code = |fails: bool| if fails { Code::Sf } else { Code::Nr };
    Needs {
        west: code(west),
        east: code(east),
        west_fails: west,
        east_fails: east,
    }
}

fn word(bytes: Bytes) -> Option<K>
    ensures { bytes ≡ None → result ≡ None }
{
    match bytes {
        Some((k1, k2)) => decode(k1, k2),
        None => None,
    }
}

// Returns the step of the second of four nodes, which hears these words.
fn stepped(needs: Needs, west: Option<K>, east: Option<K>) -> Option<(NodeState, Sent)>
    requires needs { MayNeed needs }
    requires west { needs.west_fails ≡ true → west ≡ None }
    requires east { needs.east_fails ≡ true → east ≡ None }
{
    let map = RingMap::new(&[1, 2, 3, 4]).ok()?;
    if map.len() < 2 {
        return None;
    }
    Some(step(start(), &map, Pos(1), needs, Heard { west, east }))
}

// Returns whether a step ends in a state, with these words.
fn is(answer: Option<(NodeState, Sent)>, state: Shape, west: (u8, u8), east: (u8, u8)) -> bool {
    match answer {
        None => false,
        Some((new, sent)) => {
            same_shape(shape_of(&new), state)
                && Some(sent.west) == decode(west.0, west.1)
                && Some(sent.east) == decode(east.0, east.1)
        }
    }
}

// Whether the east side fails, where nothing else is asked for, what is heard on each side, and the state and the words
// that are sent.
type Row = (bool, Bytes, Bytes, Shape, (u8, u8), (u8, u8));

const ROWS: &[Row] = &[
    // a long word from the neighbour, without a request here
    (
        false,
        Some((0xb2, 0x3a)),
        None,
        Shape::Idle,
        (0x01, 0x20),
        (0x03, 0x20),
    ),
    // a span that fails, and nothing is heard
    (
        true,
        None,
        None,
        Shape::SwitchEast(None),
        (0xb3, 0x29),
        (0xb3, 0x26),
    ),
    // a span that fails, and the other end is heard the long way
    (
        true,
        Some((0xb2, 0x3a)),
        None,
        Shape::SwitchEast(Some(Pos(2))),
        (0xb3, 0x2a),
        (0xb3, 0x26),
    ),
    // a word of this node's own comes back
    (
        false,
        Some((0xb3, 0x28)),
        None,
        Shape::Idle,
        (0x01, 0x20),
        (0x03, 0x20),
    ),
    // words of others from both sides
    (
        false,
        Some((0xb3, 0x18)),
        Some((0xb1, 0x38)),
        Shape::PassThrough,
        (0xb1, 0x38),
        (0xb3, 0x18),
    ),
];

// Returns the step of the second of four nodes, which hears these words, and whose east side fails or not.
fn step_of(east_fails: bool, west: Bytes, east: Bytes) -> Option<(NodeState, Sent)> {
    if east_fails {
        stepped(fail(false, true), word(west), None)
    } else {
        stepped(asks(Code::Nr, Code::Nr), word(west), word(east))
    }
}

#[test]
fn requests_of_the_second_of_four(rt: HostRuntime) {
    for (east_fails, west, east, state, to_west, to_east) in ROWS {
        let answer = step_of(*east_fails, *west, *east);
        assert!(rt; is(answer, *state, *to_west, *to_east), "{state:?}");
    }
}

const THIRD: &[(Shape, (u8, u8), (u8, u8))] = &[
    (Shape::Idle, (0x01, 0x20), (0x03, 0x20)),
    (Shape::Idle, (0x01, 0x20), (0x03, 0x20)),
    (Shape::SwitchWest(None), (0x11, 0x21), (0xb1, 0x29)),
];

#[test]
fn the_third_frame_counts(rt: HostRuntime) {
    let mut filter = Filter::new();
    for (state, west, east) in THIRD {
        let heard = filter.hear(decode(0xb2, 0x10));
        let answer = stepped(asks(Code::Nr, Code::Nr), heard, None);
        assert!(rt; is(answer, *state, *west, *east), "{state:?}");
    }
}
