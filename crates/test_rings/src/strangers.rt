//! What a controller that is held while the ring switches lets through: two circuits whose ports get each other's
//! bytes. What happens between settle steps is told by a plan too, and `tools/testing/test_rings.py` runs such; here
//! spans change and controllers are held while the ring switches.

use crate::scripts::{Step, met_in};
use sdh_circuits::{End, PortId};
use sdh_node::Turn;
use sdh_request::Command;
use sdh_ringmap::{Condition, Side};

// Span 0 is cut and mended, and span 1 cut while node 2 is held and mended while node 3 is, so that it goes on passing
// traffic through; then both spans are cut. Node 3 has 88 turns left to miss when both are. In the first two of these
// rounds its neighbours hear that, and from the third one on they switch towards each other and away from their own
// customers.
const HELD: &[Step] = &[
    Step::Span(0, Condition::Cut),
    Step::Settle,
    Step::Hold(2, 8),
    Step::Span(0, Condition::Clear),
    Step::Span(1, Condition::Cut),
    Step::Rounds(8),
    Step::Hold(3, 100),
    Step::Span(1, Condition::Clear),
    Step::Rounds(12),
    Step::Span(0, Condition::Cut),
    Step::Span(1, Condition::Cut),
    Step::Rounds(100),
];

#[test]
fn a_node_that_is_held_while_it_passes_through_lets_strangers_meet(rt: HostRuntime) {
    assert!(rt; met_in(rt.alloc(), HELD) == Ok(88 - 1));
}

// The same, and none is held.
const FREE: &[Step] = &[
    Step::Span(0, Condition::Cut),
    Step::Settle,
    Step::Span(0, Condition::Clear),
    Step::Span(1, Condition::Cut),
    Step::Rounds(8),
    Step::Span(1, Condition::Clear),
    Step::Rounds(12),
    Step::Span(0, Condition::Cut),
    Step::Span(1, Condition::Cut),
    Step::Rounds(100),
];

// Slips that wait, a cut, a degraded and a commanded span, and others while the ring is switching.
const MANY: &[Step] = &[
    Step::Slip(
        PortId {
            circuit: 0,
            end: End::A,
        },
        Turn::Up,
        3,
    ),
    Step::Slip(
        PortId {
            circuit: 1,
            end: End::B,
        },
        Turn::Up,
        2,
    ),
    Step::Span(0, Condition::Cut),
    Step::Rounds(3),
    Step::Span(2, Condition::Degraded(5)),
    Step::Rounds(2),
    Step::Span(1, Condition::Cut),
    Step::Rounds(4),
    Step::Span(0, Condition::Clear),
    Step::Slip(
        PortId {
            circuit: 1,
            end: End::A,
        },
        Turn::Up,
        5,
    ),
    Step::Rounds(1),
    Step::Order(3, Side::East, Command::Manual),
    Step::Rounds(7),
    Step::Span(0, Condition::Cut),
    Step::Span(1, Condition::Clear),
    Step::Rounds(2),
    Step::Span(3, Condition::Cut),
    Step::Rounds(40),
    Step::Span(2, Condition::Clear),
    Step::Span(3, Condition::Clear),
    Step::Rounds(12),
    Step::Span(1, Condition::Cut),
    Step::Span(0, Condition::Clear),
    Step::Rounds(60),
];

#[test]
fn no_port_meets_a_stranger_while_no_controller_is_held(rt: HostRuntime) {
    assert!(rt; met_in(rt.alloc(), FREE) == Ok(0));
    assert!(rt; met_in(rt.alloc(), MANY) == Ok(0));
}
