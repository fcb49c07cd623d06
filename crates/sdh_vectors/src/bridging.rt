//! What nodes of a ring of four connect. Each state comes from a step that hears words of other nodes, given by their two
//! bytes; a side on which nothing is heard fails.
ghost use Rattle.std.specs.Prelude.{◌≡◌, ◌<◌, length, if◌then◌else◌};
ghost use Rattle.sdh_nodestate.specs.FarEnds.{far_of, IsElsewhere};
ghost use Rattle.std.specs.Option.{is_none};

use sdh_bridge::{Origin, drop_origin, protection_origin, working_origin};
use sdh_circuits::{Asked, CircuitMap, End, PortId, Slot};
use sdh_kbytes::{K, decode};
use sdh_nodestate::{Heard, Needs, NodeState, start, step};
use sdh_ringmap::{Code, Pos, RingMap, Side};
use sdh_squelch::Table;
use std::alloc::Global;

type Bytes = Option<(u8, u8)>;

// The words of a ring whose second span has failed at both ends, sent the long way by its ends.
const FROM_2: Bytes = Some((0xb3, 0x2a));

const FROM_3: Bytes = Some((0xb2, 0x3a));

// The same of the first node, whose east span has failed.
const FROM_1: Bytes = Some((0xb2, 0x1a));

fn heard(bytes: Bytes) -> Option<K> {
    match bytes {
        Some((k1, k2)) => decode(k1, k2),
        None => None,
    }
}

// A side fails where nothing is heard there.
fn local(word: Option<K>) -> Code
    ensures { result ≡ (if is_none word then Code.Sf else Code.Nr) }
{
    match word {
        None => Code::Sf,
        Some(_) => Code::Nr,
    }
}

// The state of a node that hears these words.
fn state(map: &RingMap, at: Pos, west: Bytes, east: Bytes) -> NodeState
    requires { at.0 < length map.now }
    ensures { IsElsewhere (length map.now) at.0 (far_of result) }
{
    let heard = Heard {
        west: heard(west),
        east: heard(east),
    };
    let needs = Needs {
        west: local(heard.west),
        east: local(heard.east),
        west_fails: heard.west.is_none(),
        east_fails: heard.east.is_none(),
    };
    step(start(), map, at, needs, heard).0
}

// A circuit from one node to another in a slot.
fn asked<'a>(name: &'a str, way: (i64, i64), slot: i64) -> Asked<'a> {
    Asked {
        name,
        from: way.0,
        to: way.1,
        slot,
        offset_a: 0,
        offset_b: 0,
        text_a: "ABCDEFG",
        text_b: "abcdefg",
        trace_a: "a",
        trace_b: "b",
    }
}

// The origins of both sides of a node in slot 1: working, protection and drop, west before east.
type Origins = [Origin; 6];

// The origins of a node that hears these words, in a ring of nodes 1 to 4 with two circuits.
fn origins(
    alloc: Global,
    x: &Asked<'_>,
    y: &Asked<'_>,
    at: u8,
    west: Bytes,
    east: Bytes,
) -> Option<Origins> {
    let map = RingMap::new(&[1, 2, 3, 4]).ok()?;
    let mut kept = CircuitMap::new(alloc, 2);
    kept.add(&map, x).ok()?;
    kept.add(&map, y).ok()?;
    let at = Pos(at);
    if at.0 as usize >= map.len() {
        return None;
    }
    let table = Table::try_new(alloc, &map, &kept, at).ok()?;
    let now = state(&map, at, west, east);
    Some([
        working_origin(&now, &map, &table, at, Side::West, Slot(1)),
        working_origin(&now, &map, &table, at, Side::East, Slot(1)),
        protection_origin(&now, &map, &table, at, Side::West, Slot(1)),
        protection_origin(&now, &map, &table, at, Side::East, Slot(1)),
        drop_origin(&now, &map, &table, at, Side::West, Slot(1)),
        drop_origin(&now, &map, &table, at, Side::East, Slot(1)),
    ])
}

const WEST: Origin = Origin::Protection(Side::West);

const EAST: Origin = Origin::Protection(Side::East);

const FROM_WEST: Origin = Origin::Working(Side::West);

const FROM_EAST: Origin = Origin::Working(Side::East);

const AIS: Origin = Origin::Ais;

// Port a of the first circuit, port b of it, and port b of the second one.
const X_A: Origin = Origin::Add(PortId {
    circuit: 0,
    end: End::A,
});

const X_B: Origin = Origin::Add(PortId {
    circuit: 0,
    end: End::B,
});

const Y_B: Origin = Origin::Add(PortId {
    circuit: 1,
    end: End::B,
});

// Whether a node that hears these words has these origins.
fn has(
    alloc: Global,
    x: &Asked<'_>,
    y: &Asked<'_>,
    at: u8,
    west: Bytes,
    east: Bytes,
    wanted: &[Origin],
) -> bool {
    match origins(alloc, x, y, at, west, east) {
        Some(found) => found.as_slice() == wanted,
        None => false,
    }
}

// A node, the words that it hears, and its origins.
type Row = (u8, Bytes, Bytes, &'static [Origin]);

// In slot 1 there is one circuit, from node 1 to node 3, whose second span has failed.
const LED: &[Row] = &[
    // the second node switches east, with the third as its far end
    (
        1,
        FROM_3,
        None,
        &[WEST, FROM_WEST, FROM_WEST, AIS, FROM_WEST, WEST],
    ),
    // the third node switches west, with the second as its far end
    (2, None, FROM_2, &[X_B, AIS, AIS, X_B, EAST, FROM_EAST]),
    // the fourth passes through
    (
        3,
        FROM_3,
        FROM_2,
        &[AIS, AIS, EAST, WEST, FROM_WEST, FROM_EAST],
    ),
];

#[test]
fn a_circuit_is_led_round_a_failed_span(rt: HostRuntime) {
    let x = asked("x", (1, 3), 1);
    let y = asked("y", (1, 2), 2);
    for (at, west, east, wanted) in LED {
        assert!(rt; has(rt.alloc(), &x, &y, *at, *west, *east, wanted), "{at}");
    }
}

// Two circuits in one slot end at the second node, both of whose spans have failed.
const ALONE: &[Row] = &[
    // the first node switches east, with the third as its far end, and the third west, with the first: the circuits'
    // other ends aren't in their chain
    (0, FROM_3, None, &[AIS, X_A, AIS, AIS, FROM_WEST, AIS]),
    (2, None, FROM_1, &[Y_B, AIS, AIS, AIS, AIS, FROM_EAST]),
    // every origin of the isolated node is AIS
    (1, None, None, &[AIS, AIS, AIS, AIS, AIS, AIS]),
];

#[test]
fn circuits_of_an_isolated_node_meet_no_other(rt: HostRuntime) {
    let x = asked("x", (1, 2), 1);
    let y = asked("y", (2, 3), 1);
    for (at, west, east, wanted) in ALONE {
        assert!(rt; has(rt.alloc(), &x, &y, *at, *west, *east, wanted), "{at}");
    }
}
