//! Bits that differ.
ghost use Rattle.std.specs.Prelude.{◌≡◌, ◌≤◌, length};
ghost use Rattle.sdh_parity.specs.Violations.{differing_bits, violations_of};

/// Returns the number of bits in which two bytes differ.
#[tactic(auto, using(crate::proofs::Differing::ones_of_xor))]
pub fn differing_bits(left: u8, right: u8) -> u32
    ensures bits { result ≡ differing_bits left right }
    ensures few { result ≤ 8 }
{
    (left ^ right).count_ones()
}

/// Returns the number of bits in which two lists of the same length, at most 38,880 bytes, differ.
pub fn violations(left: &[u8], right: &[u8]) -> u32
    requires same_length { length left.now ≡ length right.now }
    requires few { length left.now ≤ 38880 }
    ensures { result ≡ violations_of left.now right.now }
{
    let mut count = 0;
    for i in 0..left.len() {
        count += differing_bits(left[i], right[i]);
    }
    count
}
