//! Calls of `sdhring` over objects in memory, for the drivers in `bench/trials`: one call of source, sink or fibres
//! fails at any place, or any bytes arrive. No other crate uses this one. Its functions have no clauses of their own:
//! the call's contract says what comes of it, and the drivers compare it.
#![tactic(auto)]

mod call;
mod told;
mod watched;

ghost use Rattle.std.specs.Prelude.{◌≤◌, ◌<◌, length};

use crate::call::{Failing, call_over};
use crate::told::arrivals_of;
use crate::watched::Watched;
use sdh_outside::MemSink;
use sdh_plant::{FailingPlant, PlantCall};
use sdh_ringmap::Rate;
use std::alloc::Global;

// The number that is returned where memory ran out for the objects themselves, so that the program wasn't called.
const NOT_CALLED: u8 = 255;

fn kind_of(kind: u8) -> PlantCall {
    match kind {
        0 => PlantCall::Prepare,
        1 => PlantCall::Apply,
        2 => PlantCall::Send,
        _ => PlantCall::Receive,
    }
}

// Copies as many bytes as there is room for.
fn copy_front(from: &[u8], to: &mut [u8]) {
    let count = from.len().min(to.len());
    to[..count].copy_from_slice(&from[..count]);
}

// Copies the front of what was written, and returns the number of bytes that were written.
fn show(sink: &MemSink, text: &mut [u8]) -> u64 {
    copy_front(sink.bytes(), text);
    sink.bytes().len() as u64
}

/// Runs a command over a document, which the source gives `piece` bytes at a time. Three calls fail: the read and the
/// write of these numbers, and the plant's call of this kind and number. They are counted from 1, and none fails at 0.
/// Returns the number of the status, or 255 where memory ran out before the program was called. `text` gets the front
/// of what was written. `told` gets the number of bytes written, and the numbers of calls of `prepare`, `apply`, `send`
/// and `receive`.
#[unsafe(no_mangle)]
pub extern "C" fn sdh_trials_call(
    alloc: Global,
    command: u8,
    document: &[u8],
    piece: usize,
    read: u32,
    write: u32,
    kind: u8,
    number: u32,
    text: &mut [u8],
    told: &mut [u64],
) -> u8
    requires piece { 0 < piece }
    requires told { 5 ≤ length told.old }
{
    let Ok(mut plant) = FailingPlant::new(alloc, &[(kind_of(kind), number)]) else {
        return NOT_CALLED;
    };
    let outside = Failing { piece, read, write };
    let Ok((status, sink)) = call_over(alloc, command, document, outside, text.len(), &mut plant)
    else {
        return NOT_CALLED;
    };
    told[0] = show(&sink, text);
    told[1] = plant.calls(PlantCall::Prepare);
    told[2] = plant.calls(PlantCall::Apply);
    told[3] = plant.calls(PlantCall::Send);
    told[4] = plant.calls(PlantCall::Receive);
    status.number()
}

/// Runs a plan over told arrivals. Each arrival is a byte, 0 where nothing comes, and the bytes of a frame. Returns the
/// number of the status, or 255 where memory ran out before the program was called. `text` gets the front of what was
/// written, and `sent` the front of all frames sent, one after the other. `told` gets the number of bytes written, and
/// the number of bytes of frames sent.
#[unsafe(no_mangle)]
pub extern "C" fn sdh_trials_told(
    alloc: Global,
    document: &[u8],
    is_sixteen: bool,
    arrivals: &[u8],
    text: &mut [u8],
    sent: &mut [u8],
    told: &mut [u64],
) -> u8
    requires told { 2 ≤ length told.old }
{
    let rate = if is_sixteen {
        Rate::Sixteen
    } else {
        Rate::Four
    };
    let Ok(arrivals) = arrivals_of(alloc, rate, arrivals) else {
        return NOT_CALLED;
    };
    let mut plant = Watched::new(alloc, rate, arrivals);
    let Ok((status, sink)) = call_over(alloc, 0, document, Failing::NONE, text.len(), &mut plant)
    else {
        return NOT_CALLED;
    };
    told[0] = show(&sink, text);
    copy_front(plant.sent(), sent);
    told[1] = plant.sent().len() as u64;
    status.number()
}
