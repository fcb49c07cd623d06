//! Tables that turn payloads of several AU-4s into columns of a frame, and back, sixteen columns at a time. A table is
//! a list of rows, each a vector of sixteen lanes.
ghost use Rattle.std.specs.Prelude.{◌≡◌, ℕ, ◌+◌, ◌*◌, ◌/◌, ◌%◌, ◌<◌, ◌⊎◌, ◌==◌, length, slice_index};
ghost use Rattle.sdh_interchange.specs.Tables.{IsLaneTable, cell};

use std::simd::prelude::*;

// Returns the table with every element moved to another place. Row and lane of a place, four bits each, make one number
// of eight bits. The number of the new place is that of the old place, rotated left by one bit.
#[inline(always)]
fn turn(v: [u8x16; 16]) -> [u8x16; 16]
    requires { IsLaneTable 16 v }
    ensures table { IsLaneTable 16 result }
    ensures each { (i j : ℕ) → i < 16 → j < 16 → cell result i j ≡ cell v (8 * (j % 2) + i / 2) (8 * (i % 2) + j / 2) }
{
    let mut out = v;
    for i in 0..8 {
        let (low, high) = v[i].interleave(v[i + 8]);
        out[2 * i] = low;
        out[2 * i + 1] = high;
    }
    out
}

// Returns the table transposed: its rows become lanes.
#[inline(always)]
pub(crate) fn transpose(v: [u8x16; 16]) -> [u8x16; 16]
    requires { IsLaneTable 16 v }
    ensures table { IsLaneTable 16 result }
    ensures each { (i j : ℕ) → i < 16 → j < 16 → cell result i j ≡ cell v j i }
{
    turn(turn(turn(turn(v))))
}

// Returns the table with every element moved to another place. Row and lane of a place, three and four bits, make one
// number of seven bits. The number of the new place is that of the old place, rotated left by one bit.
#[inline(always)]
fn turn8(v: [u8x16; 8]) -> [u8x16; 8]
    requires { IsLaneTable 8 v }
    ensures table { IsLaneTable 8 result }
    ensures each { (i j : ℕ) → i < 8 → j < 16 → cell result i j ≡ cell v (4 * (j % 2) + i / 2) (8 * (i % 2) + j / 2) }
{
    let mut out = v;
    for i in 0..4 {
        let (low, high) = v[i].interleave(v[i + 4]);
        out[2 * i] = low;
        out[2 * i + 1] = high;
    }
    out
}

// Returns a table of eight rows transposed. Each of its sixteen columns has eight bytes, and two columns share a vector
// of the result.
#[inline(always)]
pub(crate) fn transpose8(v: [u8x16; 8]) -> [u8x16; 8]
    requires { IsLaneTable 8 v }
    ensures table { IsLaneTable 8 result }
    ensures each { (i j : ℕ) → i < 8 → j < 16 → cell result i j ≡ cell v (j % 8) (2 * i + j / 8) }
{
    turn8(turn8(turn8(v)))
}

// Returns the two columns that share each vector as two vectors. Only the first eight lanes of these count.
#[inline(always)]
pub(crate) fn apart(v: [u8x16; 8]) -> [u8x16; 16]
    requires { IsLaneTable 8 v }
    ensures table { IsLaneTable 16 result }
    ensures each { (k a : ℕ) → k < 16 → a < 8 → cell result k a ≡ cell v (k / 2) (8 * (k % 2) + a) }
{
    let last = u8x16::from_array([8, 9, 10, 11, 12, 13, 14, 15, 8, 9, 10, 11, 12, 13, 14, 15]);
    let mut out = [u8x16::splat(0); 16];
    for i in 0..8 {
        out[2 * i] = v[i];
        out[2 * i + 1] = v[i].swizzle_dyn(last);
    }
    out
}

// Returns the first eight lanes of sixteen rows. Row i of the result interleaves those of rows i and i + 8.
#[inline(always)]
fn lower(v: [u8x16; 16]) -> [u8x16; 8]
    requires { IsLaneTable 16 v }
    ensures table { IsLaneTable 8 result }
    ensures each { (i j : ℕ) → i < 8 → j < 16 → cell result i j ≡ cell v (8 * (j % 2) + i) (j / 2) }
{
    let mut out = [u8x16::splat(0); 8];
    for i in 0..8 {
        let (low, _) = v[i].interleave(v[i + 8]);
        out[i] = low;
    }
    out
}

// Returns the last eight lanes of sixteen rows. Row i of the result interleaves those of rows i and i + 8.
#[inline(always)]
fn upper(v: [u8x16; 16]) -> [u8x16; 8]
    requires { IsLaneTable 16 v }
    ensures table { IsLaneTable 8 result }
    ensures each { (i j : ℕ) → i < 8 → j < 16 → cell result i j ≡ cell v (8 * (j % 2) + i) (8 + j / 2) }
{
    let mut out = [u8x16::splat(0); 8];
    for i in 0..8 {
        let (_, high) = v[i].interleave(v[i + 8]);
        out[i] = high;
    }
    out
}

// Returns eight lanes of sixteen rows, from lane `base` on, as rows.
#[inline(always)]
pub(crate) fn lanes_from(v: [u8x16; 16], base: usize) -> [u8x16; 8]
    requires rows { IsLaneTable 16 v }
    requires base { (base ≡ 0) ⊎ (base ≡ 8) }
    ensures table { IsLaneTable 8 result }
    ensures each { (i j : ℕ) → i < 8 → j < 16 → cell result i j ≡ cell v j (base + i) }
{
    if base == 0 {
        transpose8(lower(v))
    } else {
        transpose8(upper(v))
    }
}

// Returns the table with every element moved to another place. Row and lane of a place, two and four bits, make one
// number of six bits. The number of the new place is that of the old place, rotated left by one bit.
#[inline(always)]
fn turn4(v: [u8x16; 4]) -> [u8x16; 4]
    requires { IsLaneTable 4 v }
    ensures table { IsLaneTable 4 result }
    ensures each { (i j : ℕ) → i < 4 → j < 16 → cell result i j ≡ cell v (2 * (j % 2) + i / 2) (8 * (i % 2) + j / 2) }
{
    let (a, b) = v[0].interleave(v[2]);
    let (c, d) = v[1].interleave(v[3]);
    [a, b, c, d]
}

// Returns the bytes of four rows, interleaved byte by byte.
#[inline(always)]
pub(crate) fn transpose4(v: [u8x16; 4]) -> [u8x16; 4]
    requires { IsLaneTable 4 v }
    ensures table { IsLaneTable 4 result }
    ensures each { (i j : ℕ) → i < 4 → j < 16 → cell result i j ≡ cell v (j % 4) (4 * i + j / 4) }
{
    turn4(turn4(v))
}

// Returns the first eight lanes, pair by pair, each pair twice.
#[inline(always)]
fn low_twice(v: u8x16) -> u8x16
    requires { length v ≡ 16 }
    ensures long { length result ≡ 16 }
    ensures each { (j : ℕ) → j < 16 → slice_index result j ≡ slice_index v (0 + (2 * (j / 4) + j % 2)) }
{
    v.swizzle([0, 1, 0, 1, 2, 3, 2, 3, 4, 5, 4, 5, 6, 7, 6, 7])
}

// Returns the last eight lanes, pair by pair, each pair twice.
#[inline(always)]
fn high_twice(v: u8x16) -> u8x16
    requires { length v ≡ 16 }
    ensures long { length result ≡ 16 }
    ensures each { (j : ℕ) → j < 16 → slice_index result j ≡ slice_index v (8 + (2 * (j / 4) + j % 2)) }
{
    v.swizzle([8, 9, 8, 9, 10, 11, 10, 11, 12, 13, 12, 13, 14, 15, 14, 15])
}

// Returns the bytes of two rows, interleaved byte by byte, in the first two lanes of each four. The other lanes mean
// nothing.
#[inline(always)]
pub(crate) fn spread(v: [u8x16; 2]) -> [u8x16; 4]
    requires { IsLaneTable 2 v }
    ensures table { IsLaneTable 4 result }
    ensures each { (k j : ℕ) → k < 4 → j < 16 → j % 4 < 2 → cell result k j ≡ cell v (j % 4) (4 * k + j / 4) }
{
    let (low, high) = v[0].interleave(v[1]);
    [
        low_twice(low),
        high_twice(low),
        low_twice(high),
        high_twice(high),
    ]
}

// Returns the last two of each four lanes of two rows, those of the first row before those of the second.
#[inline(always)]
fn last_pairs(a: u8x16, b: u8x16) -> u8x16
    requires a { length a ≡ 16 }
    requires b { length b ≡ 16 }
    ensures long { length result ≡ 16 }
    ensures first { (j : ℕ) → j < 8 → slice_index result j ≡ slice_index a (4 * (j / 2) + (2 + j % 2)) }
    ensures second { (j : ℕ) → j < 8 → slice_index result (8 + j) ≡ slice_index b (4 * (j / 2) + (2 + j % 2)) }
{
    a.shuffle(
        b,
        [2, 3, 6, 7, 10, 11, 14, 15, 18, 19, 22, 23, 26, 27, 30, 31],
    )
}

// Returns two rows: the third of each four lanes of four rows, and the fourth of each.
#[inline(always)]
pub(crate) fn last_two(v: [u8x16; 4]) -> [u8x16; 2]
    requires { IsLaneTable 4 v }
    ensures table { IsLaneTable 2 result }
    ensures each { (a j : ℕ) → a < 2 → j < 16 → cell result a j ≡ cell v (j / 4) (4 * (j % 4) + (2 + a)) }
{
    let first = last_pairs(v[0], v[1]);
    let second = last_pairs(v[2], v[3]);
    let (a, b) = first.deinterleave(second);
    [a, b]
}
