//! Scripts of rings with two circuits: what happens to a ring, and in how many rounds a port meets a stranger.
ghost use Rattle.std.specs.Prelude.{◌≡◌, OnOk, false, length};
ghost use Rattle.sdh_plant.specs.Fibres.{HasNoFibres, IsPrepared};

use crate::rings::{hold, laid, order, run, settle, slip, span_is};
use sdh_circuits::{End, PortId};
use sdh_node::{Delivered, Turn};
use sdh_plant::{FibrePlant, Plant};
use sdh_request::Command;
use sdh_ring::Ring;
use sdh_ringmap::{Condition, Side};
use std::alloc::{AllocError, Global};

/// What happens to a ring: nodes by position, a span by that of the node west of it.
#[derive(Clone, Copy)]
pub(crate) enum Step {
    Span(u8, Condition),
    Order(u8, Side, Command),
    Slip(PortId, Turn, u8),
    Hold(u8, u32),
    Rounds(u32),
    Settle,
}

/// Returns the letter that a port delivers, and a dash for AIS.
pub(crate) fn letter(ring: &Ring, circuit: u8, end: End) -> u8 {
    if circuit as usize >= ring.circuits().len() {
        return b'?';
    }
    match ring.port(PortId { circuit, end }) {
        Delivered::Ais => b'-',
        Delivered::Chunk(cells) => cells.as_slice().get(100).copied().unwrap_or(b'?'),
    }
}

// Returns whether a port of a circuit delivers one of two letters.
fn has_letter(ring: &Ring, circuit: u8, a: u8, b: u8) -> bool {
    let (at_a, at_b) = (letter(ring, circuit, End::A), letter(ring, circuit, End::B));
    at_a == a || at_a == b || at_b == a || at_b == b
}

// Returns whether a port gets the bytes of the other circuit: those of the first are A and B, and of the second C and
// D.
fn meets(ring: &Ring) -> bool {
    has_letter(ring, 0, b'C', b'D') || has_letter(ring, 1, b'A', b'B')
}

// Runs `rounds` rounds, and counts those in which a port met a stranger.
fn counted<P: Plant>(ring: &mut Ring, plant: &mut P, rounds: u32) -> Result<u32, AllocError>
    requires prepared { IsPrepared ring.old.settings.rate (length ring.old.ids) (P.fibres plant.old) }
    requires whole { ring.old.broken ≡ false }
    ensures prepared { OnOk result (IsPrepared ring.new.settings.rate (length ring.new.ids) (P.fibres plant.new)) }
    ensures whole { OnOk result (ring.new.broken ≡ false) }
{
    let mut met = 0u32;
    'turns: for _turn in 0..rounds {
        if ring.rounds() > 100_000 {
            return Err(AllocError);
        }
        run(ring, plant, 1).map_err(|_| AllocError)?;
        if meets(ring) {
            met = met.saturating_add(1);
        }
    }
    Ok(met)
}

// Does a step that runs no round, and returns whether it could be done.
fn is_done<P: Plant>(ring: &mut Ring, plant: &mut P, step: Step) -> bool
    requires prepared { IsPrepared ring.old.settings.rate (length ring.old.ids) (P.fibres plant.old) }
    ensures prepared { IsPrepared ring.new.settings.rate (length ring.new.ids) (P.fibres plant.new) }
    ensures whole { ring.new.broken ≡ ring.old.broken }
{
    match step {
        Step::Span(west, condition) => span_is(ring, plant, west, condition),
        Step::Order(at, side, command) => order(ring, at, side, command),
        Step::Slip(port, turn, count) => slip(ring, port, turn, count),
        Step::Hold(at, turns) => hold(ring, at, turns),
        Step::Rounds(_) | Step::Settle => false,
    }
}

// Takes one step, and returns in how many of its rounds a port met a stranger. Those of a settle step aren't counted.
fn taken<P: Plant>(ring: &mut Ring, plant: &mut P, step: Step) -> Result<u32, AllocError>
    requires prepared { IsPrepared ring.old.settings.rate (length ring.old.ids) (P.fibres plant.old) }
    requires whole { ring.old.broken ≡ false }
    ensures prepared { OnOk result (IsPrepared ring.new.settings.rate (length ring.new.ids) (P.fibres plant.new)) }
    ensures whole { OnOk result (ring.new.broken ≡ false) }
{
    match step {
        Step::Rounds(rounds) => counted(ring, plant, rounds),
        Step::Settle => settle(ring, plant).map(|()| 0),
        _ if is_done(ring, plant, step) => Ok(0),
        _ => Err(AllocError),
    }
}

// Takes steps, and returns in how many of their rounds a port met a stranger.
fn all_taken<P: Plant>(ring: &mut Ring, plant: &mut P, steps: &[Step]) -> Result<u32, AllocError>
    requires prepared { IsPrepared ring.old.settings.rate (length ring.old.ids) (P.fibres plant.old) }
    requires whole { ring.old.broken ≡ false }
    ensures prepared { OnOk result (IsPrepared ring.new.settings.rate (length ring.new.ids) (P.fibres plant.new)) }
    ensures whole { OnOk result (ring.new.broken ≡ false) }
{
    let mut met = 0u32;
    'steps: for step in steps {
        met = met.saturating_add(taken(ring, plant, *step)?);
    }
    Ok(met)
}

fn met_over<P: Plant>(alloc: Global, plant: &mut P, steps: &[Step]) -> Result<u32, AllocError>
    requires { HasNoFibres (P.fibres plant.old) }
{
    let mut ring = laid(alloc, plant)?;
    all_taken(&mut ring, plant, steps)
}

/// Returns in how many of the rounds of these steps that are run one by one a port meets a stranger.
pub(crate) fn met_in(alloc: Global, steps: &[Step]) -> Result<u32, AllocError> {
    met_over(alloc, &mut FibrePlant::new(), steps)
}
