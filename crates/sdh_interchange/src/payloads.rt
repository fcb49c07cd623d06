//! Taking the payloads of half of the AU-4s out of a frame at once, sixteen columns at a time. Each payload goes into
//! cells of its own.
ghost use Rattle.std.specs.Prelude.{◌≡◌, ℕ, ◌+◌, ◌*◌, ◌-◌, ◌/◌, ◌<◌, ◌≤◌, ◌⊎◌, [], length, slice_index, slice_index_or};
ghost use Rattle.sdh_frame.specs.Sizes.{size_of};
ghost use Rattle.sdh_ringmap.specs.Rates.{n_of};
ghost use Rattle.sdh_frame.specs.Aus.{payload_of};
ghost use Rattle.sdh_interchange.specs.Tables.{cell, IsLaneTable};
ghost use Rattle.sdh_interchange.specs.Taking.{HaveRoom, KeepsOthers, HasTaken};

use crate::columns::byte_of;
use crate::table::{lanes_from, last_two};
use sdh_payload::Cells;
use sdh_ringmap::Rate;
use std::simd::prelude::*;

// Puts these sixteen bytes at a place.
#[inline(always)]
pub(crate) fn put(out: &mut [u8], at: usize, lanes: u8x16)
    requires long { length lanes ≡ 16 }
    requires room { at + 16 ≤ length out.old }
    ensures before { (i : ℕ) → i < at → slice_index out.new i ≡ slice_index out.old i }
    ensures inside { (k : ℕ) → k < 16 → slice_index out.new (at + k) ≡ slice_index lanes k }
    ensures behind { (i : ℕ) → at + 16 ≤ i → slice_index out.new i ≡ slice_index out.old i }
    ensures len { length out.new ≡ length out.old }
{
    lanes.copy_to_slice(&mut out[at..]);
}

// Puts these sixteen bytes at a place of one payload.
#[inline(always)]
fn put_in(out: &mut [Cells], a: usize, at: usize, lanes: u8x16)
    requires long { length lanes ≡ 16 }
    requires there { a < length out.old }
    requires room { at + 16 ≤ length (slice_index_or out.old a []) }
    ensures before { (i : ℕ) → i < at → cell out.new a i ≡ cell out.old a i }
    ensures inside { (k : ℕ) → k < 16 → cell out.new a (at + k) ≡ slice_index lanes k }
    ensures keeps { KeepsOthers a 1 out.old out.new }
{
    let payload = &mut out[a];
    put(payload.as_mut_slice(), at, lanes);
}

// Returns `V` vectors from a place on.
#[inline(always)]
fn load<const V: usize>(bytes: &[u8], at: usize) -> [u8x16; V]
    requires few { V ≤ 16 }
    requires room { at + 16 * V ≤ length bytes.now }
    ensures table { IsLaneTable V result }
    ensures each { (k j : ℕ) → k < V → j < 16 → cell result k j ≡ slice_index bytes.now (at + (16 * k + j)) }
{
    let mut rows = [u8x16::splat(0); V];
    for k in 0..V {
        rows[k] = u8x16::from_slice(&bytes[at + 16 * k..]);
    }
    rows
}

// Puts these sixteen bytes at a place of each payload from `base` on.
#[inline(always)]
fn put_all(out: &mut [Cells], base: usize, at: usize, payloads: &[u8x16])
    requires long { (a : ℕ) → a < length payloads.now → length (slice_index_or payloads.now a []) ≡ 16 }
    requires room { HaveRoom base (length payloads.now) out.old }
    requires place { at + 16 ≤ 2349 }
    ensures before { (a i : ℕ) → a < length payloads.now → i < at → cell out.new (base + a) i ≡ cell out.old (base + a) i }
    ensures inside { (a k : ℕ) → a < length payloads.now → k < 16 → cell out.new (base + a) (at + k) ≡ cell payloads.now a k }
    ensures keeps { KeepsOthers base (length payloads.now) out.old out.new }
{
    for a in 0..payloads.len() {
        put_in(out, base + a, at, payloads[a]);
    }
}

// Takes sixteen columns of row r, from payload column c on, of the AU-4s after the first `base`.
#[inline(always)]
fn take_block<const N: usize>(bytes: &[u8], base: usize, r: usize, c: usize, out: &mut [Cells])
    requires rate { (N ≡ 4) ⊎ (N ≡ 16) }
    requires base { (base ≡ 0) ⊎ (2 * base ≡ N) }
    requires row { r < 9 }
    requires column { c ≤ 245 }
    requires size { length bytes.now ≡ 2430 * N }
    requires room { HaveRoom base (N / 2) out.old }
    ensures { HasTaken N base (261 * r + c) (261 * r + (c + 16)) bytes.now out.old out.new }
{
    let at = byte_of::<N>(270 * r + (9 + c));
    if N == 4 {
        // In the vectors from `here` on, the two AU-4s after the first `base` are the last two lanes of each four.
        let here = at + base - 2;
        let payloads = last_two(load::<4>(bytes, here));
        put_all(out, base, 261 * r + c, &payloads);
    } else {
        let payloads = lanes_from(load::<16>(bytes, at), base);
        put_all(out, base, 261 * r + c, &payloads);
    }
}

// Takes row r, counted from 0, of the payloads of the N / 2 AU-4s after the first `base`.
#[inline(always)]
fn take_row<const N: usize>(bytes: &[u8], base: usize, r: usize, out: &mut [Cells])
    requires rate { (N ≡ 4) ⊎ (N ≡ 16) }
    requires base { (base ≡ 0) ⊎ (2 * base ≡ N) }
    requires row { r < 9 }
    requires size { length bytes.now ≡ 2430 * N }
    requires room { HaveRoom base (N / 2) out.old }
    ensures { HasTaken N base (261 * r) (261 * r + 261) bytes.now out.old out.new }
{
    for b in 0..16 {
        take_block::<N>(bytes, base, r, 16 * b, out);
    }
    take_block::<N>(bytes, base, r, 245, out);
}

// Takes all rows of the payloads of the N / 2 AU-4s after the first `base`.
#[inline(always)]
fn take_rows<const N: usize>(bytes: &[u8], base: usize, out: &mut [Cells])
    requires rate { (N ≡ 4) ⊎ (N ≡ 16) }
    requires base { (base ≡ 0) ⊎ (2 * base ≡ N) }
    requires size { length bytes.now ≡ 2430 * N }
    requires room { HaveRoom base (N / 2) out.old }
    ensures { HasTaken N base 0 2349 bytes.now out.old out.new }
{
    for r in 0..9 {
        take_row::<N>(bytes, base, r, out);
    }
}

// Takes the payloads of the lower or the upper half of the AU-4s. Each half is compiled with its lanes as constants.
fn take_half<const N: usize>(bytes: &[u8], base: usize, out: &mut [Cells])
    requires rate { (N ≡ 4) ⊎ (N ≡ 16) }
    requires base { (base ≡ 0) ⊎ (2 * base ≡ N) }
    requires size { length bytes.now ≡ 2430 * N }
    requires room { HaveRoom base (N / 2) out.old }
    ensures { HasTaken N base 0 2349 bytes.now out.old out.new }
{
    if base == 0 {
        take_rows::<N>(bytes, 0, out);
    } else {
        take_rows::<N>(bytes, N / 2, out);
    }
}

// Takes the payloads of half of the AU-4s, those after the first `base`, which is 0 or N / 2. Each goes into the cells
// at its AU-4's place.
pub(crate) fn take(rate: Rate, bytes: &[u8], base: usize, out: &mut [Cells])
    requires base { (base ≡ 0) ⊎ (2 * base ≡ n_of rate) }
    requires size { length bytes.now ≡ size_of rate }
    requires room { HaveRoom base (n_of rate / 2) out.old }
    ensures payloads { (au : ℕ) → base < au → 2 * au ≤ 2 * base + n_of rate
        → slice_index_or out.new (au - 1) [] ≡ payload_of (n_of rate) au bytes.now }
    ensures keeps { KeepsOthers base (n_of rate / 2) out.old out.new }
{
    match rate {
        Rate::Four => take_half::<4>(bytes, base, out),
        Rate::Sixteen => take_half::<16>(bytes, base, out),
    }
}
