//! The overhead of a sent frame, row by row.
ghost use Rattle.std.specs.Prelude.{◌≡◌, ℕ, ◌+◌, ◌*◌, ◌<◌, ◌≤◌, length, slice_index};
ghost use Rattle.sdh_frame.specs.Fields.{field_at};
ghost use Rattle.sdh_overhead.specs.Overhead.{written};

// Writes `value` to the places from `from` on and before `to`.
#[inline(always)]
fn fill_part(bytes: &mut [u8], from: usize, to: usize, value: u8)
    requires order { from ≤ to }
    requires within { to ≤ length bytes.old }
    ensures before { (i : ℕ) → i < from → slice_index bytes.new i ≡ slice_index bytes.old i }
    ensures inside { (i : ℕ) → from ≤ i → i < to → slice_index bytes.new i ≡ value }
    ensures after { (i : ℕ) → to ≤ i → slice_index bytes.new i ≡ slice_index bytes.old i }
{
    for i in from..to {
        bytes[i] = value;
    }
}

// Writes the first 9N bytes of row 1: A1, A2, J0 and the other unscrambled bytes.
#[inline(always)]
fn write_framing(n: usize, head: &mut [u8])
    requires few { n ≤ 16 }
    requires some { 1 ≤ n }
    requires head { length head.old ≡ 9 * n }
    ensures a1 { (c : ℕ) → c < 3 * n → slice_index head.new c ≡ 0xF6 }
    ensures a2 { (c : ℕ) → 3 * n ≤ c → c < 6 * n → slice_index head.new c ≡ 0x28 }
    ensures j0 { slice_index head.new (6 * n) ≡ 1 }
    ensures fixed { (c : ℕ) → 6 * n < c → c < 9 * n → slice_index head.new c ≡ 0xAA }
{
    fill_part(head, 0, 3 * n, 0xF6);
    fill_part(head, 3 * n, 6 * n, 0x28);
    fill_part(head, 6 * n, 9 * n, 0xAA);
    head[6 * n] = 1;
}

// Writes the first 9N bytes of row 5: B2, K1 and K2, and zeros in the others.
#[inline(always)]
fn write_multiplex(n: usize, k1: u8, k2: u8, b2: &[u8], head: &mut [u8])
    requires few { n ≤ 16 }
    requires some { 1 ≤ n }
    requires b2 { length b2.now ≡ 3 * n }
    requires head { length head.old ≡ 9 * n }
    ensures b2 { (c : ℕ) → c < 3 * n → slice_index head.new c ≡ slice_index b2.now c }
    ensures k1 { slice_index head.new (3 * n) ≡ k1 }
    ensures k2 { slice_index head.new (6 * n) ≡ k2 }
    ensures low { (c : ℕ) → 3 * n < c → c < 6 * n → slice_index head.new c ≡ 0 }
    ensures high { (c : ℕ) → 6 * n < c → c < 9 * n → slice_index head.new c ≡ 0 }
{
    for i in 0..3 * n {
        head[i] = b2[i];
    }
    fill_part(head, 3 * n, 9 * n, 0);
    head[3 * n] = k1;
    head[6 * n] = k2;
}

/// Writes the section overhead in the first 9N bytes of a row. Rows are counted from 1. In row 4 these bytes are the
/// pointers, which stay.
#[inline(always)]
pub fn write_head(n: usize, row: usize, k1: u8, k2: u8, b1: u8, b2: &[u8], head: &mut [u8])
    requires few { n ≤ 16 }
    requires some { 1 ≤ n }
    requires row { 1 ≤ row }
    requires b2 { length b2.now ≡ 3 * n }
    requires head { length head.old ≡ 9 * n }
    ensures { (c : ℕ) → c < 9 * n → slice_index head.new c ≡ written (record { k1 = k1; k2 = k2; b1 = b1; b2 = b2.now })
        (field_at n row (c + 1)) (slice_index head.old c) }
{
    match row {
        1 => write_framing(n, head),
        2 => {
            fill_part(head, 0, 9 * n, 0);
            head[0] = b1;
        }
        4 => {}
        5 => write_multiplex(n, k1, k2, b2, head),
        _ => fill_part(head, 0, 9 * n, 0),
    }
}
