//! Rings of four nodes with identifiers 1 to 4, and of two: rounds until still, and the states and words then. Each word is
//! given by its two bytes.
ghost use Rattle.std.specs.Prelude.{◌≡◌, ◌≢◌, ◌≤◌, ◌<◌, true, false, length, All, IfSome};
ghost use Rattle.sdh_nodestate.specs.Conditions.{MayNeed};

use sdh_kbytes::decode;
use sdh_nodestate::Shape::{Idle, Isolated, PassThrough, SwitchEast, SwitchWest};
use sdh_nodestate::{Needs, Shape, same_shape, shape_of};
use sdh_ringmap::{Code, Pos, RingMap};
use sdh_signal::SignalRing;
use std::alloc::Global;

type Line = (Shape, (u8, u8), (u8, u8));

const FREE: [bool; 4] = [false; 4];

// The local requests of a node, where no side fails.
fn asks(west: Code, east: Code) -> Needs
    requires west { west ≢ Code.Rr }
    requires east { east ≢ Code.Rr }
    ensures { MayNeed result }
{
    Needs {
        west,
        east,
        west_fails: false,
        east_fails: false,
    }
}

// Which sides of a node fail, where it asks for nothing else.
fn fails(west: bool, east: bool) -> Needs
    ensures { MayNeed result }
{
    let code = |fails: bool| if fails { Code::Sf } else { Code::Nr };
    Needs {
        west: code(west),
        east: code(east),
        west_fails: west,
        east_fails: east,
    }
}

fn four(one: Needs, two: Needs, three: Needs, four: Needs) -> [Needs; 4]
    requires one { MayNeed one }
    requires two { MayNeed two }
    requires three { MayNeed three }
    requires four { MayNeed four }
    ensures { All MayNeed result }
{
    [one, two, three, four]
}

// Rounds with the same needs and no held node until the ring of four is still: how many, or 0 where 40 are too few.
fn rounds_until_still(ring: &mut SignalRing, needs: &[Needs]) -> u32
    requires four { length ring.old.ring.ids ≡ 4 }
    requires needs { length needs.now ≡ 4 }
    requires may { All MayNeed needs.now }
    ensures ids { ring.new.ring.ids ≡ ring.old.ring.ids }
    ensures ran { 1 ≤ ring.new.rounds }
{
    ring.round(needs, &FREE);
    for count in 2..40 {
        ring.round(needs, &FREE);
        if ring.is_still() {
            return count;
        }
    }
    0
}

// Whether a node has the state and sent the words of a line.
fn has_line(ring: &SignalRing, at: u8, line: Line) -> bool
    requires at { at < length ring.now.ring.ids }
    requires ran { 1 ≤ ring.now.rounds }
{
    let sent = ring.sent(Pos(at));
    same_shape(shape_of(ring.state(Pos(at))), line.0)
        && Some(sent.west) == decode(line.1.0, line.1.1)
        && Some(sent.east) == decode(line.2.0, line.2.1)
}

// Whether the four nodes have the states and words of these lines.
fn has_lines(ring: &SignalRing, lines: &[Line]) -> bool
    requires size { length ring.now.ring.ids ≡ 4 }
    requires ran { 1 ≤ ring.now.rounds }
{
    lines.len() == 4
        && has_line(ring, 0, lines[0])
        && has_line(ring, 1, lines[1])
        && has_line(ring, 2, lines[2])
        && has_line(ring, 3, lines[3])
}

// A ring of four in which no round has run.
fn ring_of_four(alloc: Global) -> Option<SignalRing>
    ensures { IfSome result (λ ring. length ring.ring.ids ≡ 4) }
{
    let map = RingMap::new(&[1, 2, 3, 4]).ok()?;
    SignalRing::try_new(alloc, map).ok()
}

// The number of rounds until a new ring is still, where it then has these lines.
fn stills(alloc: Global, needs: [Needs; 4], lines: &[Line]) -> Option<u32>
    requires { All MayNeed needs }
{
    let mut ring = ring_of_four(alloc)?;
    let count = rounds_until_still(&mut ring, &needs);
    if ring.is_still() && has_lines(&ring, lines) {
        Some(count)
    } else {
        None
    }
}

// What a node asks for.
#[derive(Clone, Copy)]
enum Request {
    Nothing,
    FailsWest,
    FailsEast,
    FailsBoth,
    Forced,
    Manual,
    DegradedWest,
}

fn needs_of(asked: Request) -> Needs
    ensures { MayNeed result }
{
    match asked {
        Request::Nothing => asks(Code::Nr, Code::Nr),
        Request::FailsWest => fails(true, false),
        Request::FailsEast => fails(false, true),
        Request::FailsBoth => fails(true, true),
        Request::Forced => asks(Code::Nr, Code::Fs),
        Request::Manual => asks(Code::Nr, Code::Ms),
        Request::DegradedWest => asks(Code::Sd, Code::Nr),
    }
}

// What four nodes need that ask for this; nothing, where not four are told of.
fn all_needs(asked: &[Request]) -> [Needs; 4]
    ensures { All MayNeed result }
{
    if asked.len() != 4 {
        let none = asks(Code::Nr, Code::Nr);
        return four(none, none, none, none);
    }
    four(
        needs_of(asked[0]),
        needs_of(asked[1]),
        needs_of(asked[2]),
        needs_of(asked[3]),
    )
}

const IDLE: &[Line] = &[
    (Idle, (0x04, 0x10), (0x02, 0x10)),
    (Idle, (0x01, 0x20), (0x03, 0x20)),
    (Idle, (0x02, 0x30), (0x04, 0x30)),
    (Idle, (0x03, 0x40), (0x01, 0x40)),
];

// Before a ring without requests runs, and after each of four rounds: whether it is still, and whether it has these lines.
fn idle_rounds(ring: &mut SignalRing) -> [(bool, bool); 5]
    requires four { length ring.old.ring.ids ≡ 4 }
{
    let needs = all_needs(&[Request::Nothing; 4]);
    let before = (ring.is_still(), false);
    ring.round(&needs, &FREE);
    let first = (ring.is_still(), has_lines(ring, IDLE));
    ring.round(&needs, &FREE);
    let second = (ring.is_still(), has_lines(ring, IDLE));
    ring.round(&needs, &FREE);
    let third = (ring.is_still(), has_lines(ring, IDLE));
    ring.round(&needs, &FREE);
    let fourth = (ring.is_still(), has_lines(ring, IDLE));
    [before, first, second, third, fourth]
}

const STILL: [(bool, bool); 5] = [
    (false, false),
    (false, true),
    (false, true),
    (false, true),
    (true, true),
];

#[test]
fn idle_ring(rt: HostRuntime) {
    let mut ring = ring_of_four(rt.alloc()).expect(&rt, "memory for a ring");
    assert!(rt; idle_rounds(&mut ring) == STILL);
}

// What each node asks for, after at most how many rounds the ring is still, and its lines then.
type Row = (&'static [Request], u32, &'static [Line]);

const ROWS: &[Row] = &[
    // one span fails both ways
    (
        &[
            Request::Nothing,
            Request::FailsEast,
            Request::FailsWest,
            Request::Nothing,
        ],
        21,
        &[
            (PassThrough, (0xb3, 0x2a), (0xb2, 0x3a)),
            (SwitchEast(Some(Pos(2))), (0xb3, 0x2a), (0xb3, 0x26)),
            (SwitchWest(Some(Pos(1))), (0xb2, 0x36), (0xb2, 0x3a)),
            (PassThrough, (0xb3, 0x2a), (0xb2, 0x3a)),
        ],
    ),
    // two spans that don't meet
    (
        &[
            Request::FailsEast,
            Request::FailsWest,
            Request::FailsEast,
            Request::FailsWest,
        ],
        28,
        &[
            (SwitchEast(Some(Pos(3))), (0xb2, 0x1a), (0xb2, 0x16)),
            (SwitchWest(Some(Pos(2))), (0xb1, 0x26), (0xb1, 0x2a)),
            (SwitchEast(Some(Pos(1))), (0xb4, 0x3a), (0xb4, 0x36)),
            (SwitchWest(Some(Pos(0))), (0xb3, 0x46), (0xb3, 0x4a)),
        ],
    ),
    // both spans of one node
    (
        &[
            Request::FailsEast,
            Request::FailsBoth,
            Request::FailsWest,
            Request::Nothing,
        ],
        28,
        &[
            (SwitchEast(Some(Pos(2))), (0xb2, 0x1a), (0xb2, 0x16)),
            (Isolated, (0xb1, 0x26), (0xb3, 0x26)),
            (SwitchWest(Some(Pos(0))), (0xb2, 0x36), (0xb2, 0x3a)),
            (PassThrough, (0xb2, 0x1a), (0xb2, 0x3a)),
        ],
    ),
    // two spans that don't fail are switched by force
    (
        &[
            Request::Forced,
            Request::Nothing,
            Request::Forced,
            Request::Nothing,
        ],
        28,
        &[
            (SwitchEast(Some(Pos(3))), (0xd2, 0x1a), (0xd2, 0x12)),
            (SwitchWest(Some(Pos(2))), (0x11, 0x22), (0xd1, 0x2a)),
            (SwitchEast(Some(Pos(1))), (0xd4, 0x3a), (0xd4, 0x32)),
            (SwitchWest(Some(Pos(0))), (0x13, 0x42), (0xd3, 0x4a)),
        ],
    ),
    // a failure goes before a degraded span
    (
        &[
            Request::FailsWest,
            Request::Nothing,
            Request::DegradedWest,
            Request::FailsEast,
        ],
        21,
        &[
            (SwitchWest(Some(Pos(3))), (0xb4, 0x16), (0xb4, 0x1a)),
            (PassThrough, (0xb1, 0x4a), (0xb4, 0x1a)),
            (PassThrough, (0xb1, 0x4a), (0xb4, 0x1a)),
            (SwitchEast(Some(Pos(0))), (0xb1, 0x4a), (0xb1, 0x46)),
        ],
    ),
];

#[test]
fn requests_of_at_least_a_signal_failure(rt: HostRuntime) {
    for (asked, most, lines) in ROWS {
        let count = stills(rt.alloc(), all_needs(asked), lines);
        assert!(rt; count.is_some_and(|count| count >= 4 && count <= *most));
    }
}

const TIE: &[Line] = &[
    (Idle, (0x14, 0x10), (0x64, 0x18)),
    (Idle, (0x63, 0x28), (0x63, 0x20)),
    (Idle, (0x12, 0x30), (0x62, 0x38)),
    (Idle, (0x61, 0x48), (0x61, 0x40)),
];

const ONE_ALONE: &[Line] = &[
    (SwitchWest(Some(Pos(3))), (0x14, 0x12), (0x64, 0x1a)),
    (PassThrough, (0x61, 0x4a), (0x64, 0x1a)),
    (PassThrough, (0x61, 0x4a), (0x64, 0x1a)),
    (SwitchEast(Some(Pos(0))), (0x61, 0x4a), (0x61, 0x42)),
];

// Whether a ring gets still with these requests, and has these lines then.
fn comes_to(ring: &mut SignalRing, asked: &[Request], lines: &[Line]) -> bool
    requires { length ring.old.ring.ids ≡ 4 }
    ensures { ring.new.ring.ids ≡ ring.old.ring.ids }
{
    rounds_until_still(ring, &all_needs(asked)) > 0 && has_lines(ring, lines)
}

#[test]
fn a_tie_and_its_end(rt: HostRuntime) {
    let mut ring = ring_of_four(rt.alloc()).expect(&rt, "memory for a ring");
    let tie = [
        Request::Nothing,
        Request::Manual,
        Request::Nothing,
        Request::Manual,
    ];
    assert!(rt; comes_to(&mut ring, &tie, TIE));
    let alone = [
        Request::Nothing,
        Request::Nothing,
        Request::Nothing,
        Request::Manual,
    ];
    assert!(rt; comes_to(&mut ring, &alone, ONE_ALONE));
}
