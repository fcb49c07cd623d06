//! Told arrivals, made from bytes.
ghost use Rattle.std.specs.Prelude.{◌≡◌, ◌+◌, ◌*◌, All, IfOk, length};
ghost use Rattle.sdh_ringmap.specs.Rates.{n_of};
ghost use Rattle.sdh_plant.specs.Kept.{IsToldAt};

use sdh_frame::FrameBuf;
use sdh_plant::Told;
use sdh_ringmap::Rate;
use std::alloc::{AllocError, Global};

// Returns an arrival from its bytes: a byte that is 0 where nothing comes, and then the bytes of a frame.
fn arrival_of(alloc: Global, rate: Rate, bytes: &[u8]) -> Result<Told, AllocError>
    requires { length bytes.now ≡ 1 + 2430 * n_of rate }
    ensures { IfOk result (λ told. IsToldAt rate told) }
{
    if bytes[0] == 0 {
        return Ok(Told::Dark);
    }
    let mut frame = FrameBuf::try_new(alloc, rate)?;
    frame.bytes_mut().copy_from_slice(&bytes[1..]);
    Ok(Told::Frame(frame))
}

/// Returns the arrivals of these bytes, one after the other.
pub fn arrivals_of(alloc: Global, rate: Rate, bytes: &[u8]) -> Result<Vec<Told>, AllocError>
    ensures { IfOk result (λ told. All (IsToldAt rate) told.items) }
{
    let mut told = Vec::new(alloc);
    'arrivals: for arrival in bytes.chunks_exact(1 + 2430 * rate.n()) {
        told.push(arrival_of(alloc, rate, arrival)?)?;
    }
    Ok(told)
}
