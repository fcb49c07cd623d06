//! BIP-8 and BIP-24N.
ghost use Rattle.std.specs.Prelude.{◌≡◌, ◌*◌, ◌⊎◌, length};
ghost use Rattle.sdh_basics.specs.Parity.{bip8 as parity_of};
ghost use Rattle.sdh_parity.specs.Parity.{section_parity};

use crate::pieces::BipSection;

/// Returns the BIP-8 of the bytes: each bit is set in an even number of these bytes and the BIP-8 together.
pub fn bip8(bytes: &[u8]) -> u8
    ensures { result ≡ parity_of bytes.now }
{
    let mut parity = 0;
    for byte in bytes {
        parity ^= *byte;
    }
    parity
}

/// Writes the BIP-24N of a whole frame of 2430N bytes, before scrambling, to `out`, 3N bytes. `n` is N, 4 or 16.
/// Columns 1 to 9N of rows 1 to 3 don't count (ITU-T G.707 clause 9.2).
pub fn bip_section(n: usize, bytes: &[u8], out: &mut [u8])
    requires rate { (n ≡ 4) ⊎ (n ≡ 16) }
    requires frame { length bytes.now ≡ 2430 * n }
    requires out { length out.old ≡ 3 * n }
    ensures { out.new ≡ section_parity n bytes.now }
{
    let mut sum = BipSection::new(n);
    sum.add(&bytes[9 * n..270 * n]);
    sum.add(&bytes[279 * n..540 * n]);
    sum.add(&bytes[549 * n..810 * n]);
    sum.add(&bytes[810 * n..]);
    sum.write_value(out);
}
