//! What comes out of degraded fibres, at both rates.
ghost use Rattle.std.specs.Prelude.{◌+◌, ◌*◌, ◌≤◌};
ghost use Rattle.sdh_ringmap.specs.Rates.{n_of};

use sdh_frame::FrameBuf;
use sdh_plant::{Arrived, Condition, FibreEvent, FibrePlant, Plant};
use sdh_ringmap::{Pos, Rate, Side};
use std::alloc::{AllocError, Global};

// Returns whether all of these bytes are this one.
fn are_all(bytes: &[u8], value: u8) -> bool {
    for byte in bytes {
        if *byte != value {
            return false;
        }
    }
    true
}

// Returns whether a frame has the second byte in these places, and the first one everywhere else.
fn is_full_of_but(frame: &FrameBuf, value: u8, first: usize, count: usize, other: u8) -> bool
    requires { first + count ≤ 2430 * n_of frame.now.rate }
{
    let bytes = frame.bytes();
    are_all(&bytes[..first], value)
        && are_all(&bytes[first..first + count], other)
        && are_all(&bytes[first + count..], value)
}

// Returns whether a frame that goes eastwards over a span comes with the top bits of `columns` bytes inverted, from an
// index on, where the fibre is degraded by as many columns, and one that goes back comes as it was sent.
fn is_degraded(alloc: Global, rate: Rate, columns: u16, first: usize) -> Result<bool, AllocError> {
    let count = usize::from(columns);
    if count < 1 || count > 3 * rate.n() || first > 30_000 || first + count > 2430 * rate.n() {
        return Ok(false);
    }
    let mut plant = FibrePlant::new();
    let mut there = FrameBuf::try_new(alloc, rate)?;
    let mut back = FrameBuf::try_new(alloc, rate)?;
    if plant.prepare(alloc, rate, 2).is_err() {
        return Ok(false);
    }
    there.fill(0x35);
    back.fill(0x36);
    let degraded = FibreEvent {
        at: Pos(0),
        side: Side::East,
        condition: Condition::Degraded(columns),
    };
    let sent = plant.send(Pos(0), Side::East, &there).is_ok();
    let sent_back = plant.send(Pos(1), Side::West, &back).is_ok();
    let applied = plant.apply(degraded).is_ok();
    there.fill(0);
    back.fill(0);
    let came = plant.receive(Pos(1), Side::West, &mut there) == Ok(Arrived::Frame);
    let came_back = plant.receive(Pos(0), Side::East, &mut back) == Ok(Arrived::Frame);
    Ok(
        sent && sent_back
            && applied
            && came
            && came_back
            && is_full_of_but(&there, 0x35, first, count, 0xB5)
            && are_all(back.bytes(), 0x36),
    )
}

// The rate, the columns and the index of the first byte of row 6.
const DEGREES: &[(Rate, u16, usize)] = &[
    (Rate::Four, 1, 5400),
    (Rate::Four, 7, 5400),
    (Rate::Four, 12, 5400),
    (Rate::Sixteen, 1, 21_600),
    (Rate::Sixteen, 13, 21_600),
    (Rate::Sixteen, 48, 21_600),
];

// Returns how many rows come out before the first that doesn't.
fn right_degrees(alloc: Global) -> usize {
    for i in 0..DEGREES.len() {
        let (rate, columns, first) = DEGREES[i];
        if is_degraded(alloc, rate, columns, first) != Ok(true) {
            return i;
        }
    }
    DEGREES.len()
}

#[test]
fn a_degraded_fibre_inverts_the_first_columns_of_row_6(rt: HostRuntime) {
    assert!(rt; right_degrees(rt.alloc()) == DEGREES.len());
}
