//! Whole frames, round after round in one buffer.
ghost use Rattle.std.specs.Prelude.{◌≡◌, ◌*◌, ◌⊎◌, length, IfOk};
ghost use Rattle.sdh_ringmap.specs.Rates.{n_of};

use sdh_frame::FrameBuf;
use sdh_overhead::{Received, Section, read_section, write_section};
use sdh_ringmap::Rate;
use std::alloc::{AllocError, Global};

fn rate_of(n: usize) -> Rate
    requires { (n ≡ 4) ⊎ (n ≡ 16) }
    ensures { n_of result ≡ n }
{
    if n == 4 { Rate::Four } else { Rate::Sixteen }
}

// Returns a frame of these bytes.
fn frame_of(alloc: Global, rate: Rate, bytes: &[u8]) -> Result<FrameBuf, AllocError>
    requires { length bytes.now ≡ 2430 * n_of rate }
    ensures { IfOk result (λ frame. frame.rate ≡ rate) }
{
    let mut frame = FrameBuf::try_new(alloc, rate)?;
    frame.bytes_mut().copy_from_slice(bytes);
    Ok(frame)
}

/// Writes the section overhead of a frame `rounds` times, with the number of the round as K bytes. Returns false where
/// memory runs out.
#[unsafe(no_mangle)]
pub extern "C" fn sdh_bench_write_sections(
    alloc: Global,
    n: usize,
    rounds: u8,
    bytes: &mut [u8],
) -> bool
    requires rate { (n ≡ 4) ⊎ (n ≡ 16) }
    requires frame { length bytes.old ≡ 2430 * n }
{
    let rate = rate_of(n);
    let Ok(mut frame) = frame_of(alloc, rate, bytes) else {
        return false;
    };
    let mut section = Section::try_new(rate);
    for round in 0..rounds {
        write_section(&mut section, round, round, &mut frame);
    }
    bytes.copy_from_slice(frame.bytes());
    true
}

// Returns what a section found in a frame as a number: 0 for an unframed one, else 1 more than K1, K2 and the
// violations of B1 and B2 together.
fn number_of(received: Received) -> u64 {
    match received {
        Received::Framed { k1, k2, b1, b2 } => {
            1 + u64::from(k1) + u64::from(k2) + u64::from(b1) + u64::from(b2)
        }
        Received::Unframed => 0,
    }
}

/// Reads a frame `rounds` times. Returns the sum of what was found each time, as `number_of` counts it, or 0 where
/// memory runs out.
#[unsafe(no_mangle)]
pub extern "C" fn sdh_bench_read_sections(
    alloc: Global,
    n: usize,
    rounds: u8,
    bytes: &mut [u8],
) -> u64
    requires rate { (n ≡ 4) ⊎ (n ≡ 16) }
    requires frame { length bytes.old ≡ 2430 * n }
{
    let rate = rate_of(n);
    let Ok(mut frame) = frame_of(alloc, rate, bytes) else {
        return 0;
    };
    let mut section = Section::try_new(rate);
    let mut sum = 0u64;
    for _ in 0..rounds {
        sum = sum.wrapping_add(number_of(read_section(&mut section, &mut frame)));
    }
    bytes.copy_from_slice(frame.bytes());
    sum
}

/// Copies the payload of each AU-4 of a frame `rounds` times to the next AU-4 of another frame, and that of the last to
/// the first. It leaves the other frame, whose overhead is zero, in `bytes`. Returns false where memory runs out.
#[unsafe(no_mangle)]
pub extern "C" fn sdh_bench_copy_payloads(
    alloc: Global,
    n: usize,
    rounds: u8,
    bytes: &mut [u8],
) -> bool
    requires rate { (n ≡ 4) ⊎ (n ≡ 16) }
    requires frame { length bytes.old ≡ 2430 * n }
{
    let rate = rate_of(n);
    let Ok(from) = frame_of(alloc, rate, bytes) else {
        return false;
    };
    let Ok(mut to) = FrameBuf::try_new(alloc, rate) else {
        return false;
    };
    for _ in 0..rounds {
        copy_all(&mut to, &from);
    }
    bytes.copy_from_slice(to.bytes());
    true
}

// Copies the payload of each AU-4 to the AU-4 after it, and that of the last one to the first.
fn copy_all(to: &mut FrameBuf, from: &FrameBuf)
    requires { to.old.rate ≡ from.now.rate }
    ensures { to.new.rate ≡ to.old.rate }
{
    let n = from.rate().n() as u16;
    for au in 1..n {
        to.copy_payload(au + 1, from, au);
    }
    to.copy_payload(1, from, n);
}
