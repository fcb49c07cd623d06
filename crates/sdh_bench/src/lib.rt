//! Kernels that `bench/` measures against the same kernels in plain Rust. No other crate uses this one. A function that
//! calls one kernel states that kernel's clauses again. A function that works on a frame or a stream round after round
//! has no clauses of its own: the called crates' contracts say what a round does, and the measurement compares every
//! byte with plain Rust's.
#![tactic(auto)]

mod feeds;
mod frames;
mod pointers;
mod stores;

ghost use Rattle.std.specs.Prelude.{◌≡◌, ◌*◌, ◌⊎◌, length};
ghost use Rattle.sdh_basics.specs.Parity.{bip8 as parity_of};
ghost use Rattle.sdh_parity.specs.Scrambling.{scrambled};
ghost use Rattle.sdh_parity.specs.Parity.{section_parity};

use sdh_parity::Rate9;

/// Scrambles a whole frame of the rate n, 4 or 16, except for the 9n bytes of its first row that are never scrambled.
#[unsafe(no_mangle)]
pub extern "C" fn sdh_bench_scramble(n: usize, bytes: &mut [u8])
    requires rate { (n ≡ 4) ⊎ (n ≡ 16) }
    requires frame { length bytes.old ≡ 2430 * n }
    ensures { bytes.new ≡ scrambled (9 * n) bytes.old }
{
    sdh_parity::scramble(Rate9(9 * n), bytes);
}

/// Returns the parity BIP-8 of these bytes.
#[unsafe(no_mangle)]
pub extern "C" fn sdh_bench_bip8(bytes: &[u8]) -> u8
    ensures { result ≡ parity_of bytes.now }
{
    sdh_parity::bip8(bytes)
}

/// Writes the parity BIP-24N of a frame of the rate n, 4 or 16, into the 3n bytes of `out`.
#[unsafe(no_mangle)]
pub extern "C" fn sdh_bench_bip_section(n: usize, bytes: &[u8], out: &mut [u8])
    requires rate { (n ≡ 4) ⊎ (n ≡ 16) }
    requires frame { length bytes.now ≡ 2430 * n }
    requires out { length out.old ≡ 3 * n }
    ensures { out.new ≡ section_parity n bytes.now }
{
    sdh_parity::bip_section(n, bytes, out);
}
