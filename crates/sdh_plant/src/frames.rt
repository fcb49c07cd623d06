//! Frames as they come out of a degraded fibre.
ghost use Rattle.std.specs.Prelude.{◌≡◌, ◌*◌, ◌≤◌, Some, length};
ghost use Rattle.sdh_frame.specs.Sizes.{size_of};
ghost use Rattle.sdh_ringmap.specs.Rates.{n_of};
ghost use Rattle.sdh_plant.specs.Arrivals.{degraded};

use sdh_frame::{FrameBuf, Landing};
use sdh_ringmap::Rate;

// Inverts the top bit of each of the first `columns` bytes of row 6.
fn invert_row_6(rate: Rate, columns: usize, bytes: &mut [u8])
    requires size { length bytes.old ≡ size_of rate }
    requires columns { columns ≤ 3 * n_of rate }
    ensures { bytes.new ≡ degraded (n_of rate) columns bytes.old }
{
    let first = 5 * 270 * rate.n();
    for i in first..first + columns {
        bytes[i] ^= 0x80;
    }
}

// Degrades a frame as a fibre that is degraded by `columns` columns does.
fn degrade(frame: &mut FrameBuf, columns: u16)
    requires { columns ≤ 3 * n_of frame.old.rate }
    ensures { frame.new ≡ record frame.old { bytes = degraded (n_of frame.old.rate) columns frame.old.bytes } }
{
    invert_row_6(frame.rate(), usize::from(columns), frame.bytes_mut());
}

#[tactic(auto, using(crate::proofs::Degrading::degraded_twice))]
/// Lands a frame as it leaves a fibre that is degraded by this number of columns. The frame is degraded in place, and
/// then once more, which restores it.
pub fn land_degraded<L: Landing>(frame: &mut FrameBuf, columns: u16, into: &mut L)
    requires columns { columns ≤ 3 * n_of frame.old.rate }
    requires rate { frame.old.rate ≡ L.rate into.old }
    ensures same { frame.new ≡ frame.old }
    ensures landed { L.landed into.new ≡ Some (degraded (n_of frame.old.rate) columns frame.old.bytes) }
    ensures rate { L.rate into.new ≡ L.rate into.old }
{
    degrade(frame, columns);
    into.land(frame);
    degrade(frame, columns);
}
