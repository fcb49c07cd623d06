//! The scrambler and both parities in one pass over the bytes of a piece. `clear_after` says that the pass descrambles:
//! the clear bytes are those after it. Otherwise the pass scrambles, and the clear bytes are those before it. Only the
//! parity of the clear bytes is computed from bytes. The parity of the bytes on the line is the XOR of that parity and
//! the parity of the sequence.
ghost use Rattle.std.specs.Prelude.{◌≡◌, ℕ, ◌+◌, ◌*◌, ◌%◌, ◌^◌, ◌<◌, ◌≤◌, if◌then◌else◌, length, replicate, slice_index, bit_xor};
ghost use Rattle.sdh_basics.specs.Parity.{bip8 as parity_of};
ghost use Rattle.sdh_parity.specs.Parity.{every};
ghost use Rattle.sdh_parity.specs.Scrambling.{scrambling_byte};
ghost use Rattle.sdh_parity.specs.Pieces.{HasLanes};

use crate::parity::bip8;
use crate::scrambler::{key, sequence, sequence_parity};
use std::simd::prelude::*;

// Returns sixteen bytes to which the sequence, from its byte k on, is added.
#[inline(always)]
fn keyed(old: u8x16, k: usize) -> u8x16
    requires long { length old ≡ 16 }
    requires key { k + 16 ≤ 1160 }
    ensures len { length result ≡ 16 }
    ensures each { (j : ℕ) → j < 16 → slice_index result j ≡ bit_xor (slice_index old j) (scrambling_byte (k + j)) }
{
    old ^ key(k)
}

// Adds the sequence, from its byte k on, to the sixteen bytes from place i on. Returns the XOR of `sum` and the clear
// form of these bytes: that after the step where `clear_after` holds, and that before it otherwise.
#[inline(always)]
fn step(bytes: &mut [u8], i: usize, k: usize, sum: u8x16, clear_after: bool) -> u8x16
    requires room { i + 16 ≤ length bytes.old }
    requires key { k + 16 ≤ 1160 }
    requires sum { length sum ≡ 16 }
    ensures below { (m : ℕ) → m < i → slice_index bytes.new m ≡ slice_index bytes.old m }
    ensures inside { (j : ℕ) → j < 16 → slice_index bytes.new (i + j) ≡ bit_xor (slice_index bytes.old (i + j)) (scrambling_byte (k + j)) }
    ensures above { (m : ℕ) → i + 16 ≤ m → slice_index bytes.new m ≡ slice_index bytes.old m }
    ensures long { length result ≡ 16 }
    ensures sum { (j : ℕ) → j < 16
        → slice_index result j ≡ bit_xor (slice_index sum j) (slice_index (if clear_after then bytes.new else bytes.old) (i + j)) }
{
    let old = u8x16::from_slice(&bytes[i..]);
    let new = keyed(old, k);
    new.copy_to_slice(&mut bytes[i..]);
    sum ^ (if clear_after { new } else { old })
}

// Copies the sixteen bytes from place i on, and adds the sequence, from its byte k on, to the copy. Returns the clear
// form of these bytes: the copy where `clear_after` holds, and the bytes of `from` otherwise.
#[inline(always)]
fn step_to(from: &[u8], to: &mut [u8], i: usize, k: usize, clear_after: bool) -> u8x16
    requires room { i + 16 ≤ length from.now }
    requires same { length to.old ≡ length from.now }
    requires key { k + 16 ≤ 1160 }
    ensures below { (m : ℕ) → m < i → slice_index to.new m ≡ slice_index to.old m }
    ensures inside { (j : ℕ) → j < 16 → slice_index to.new (i + j) ≡ bit_xor (slice_index from.now (i + j)) (scrambling_byte (k + j)) }
    ensures long { length result ≡ 16 }
    ensures clear { (j : ℕ) → j < 16 → slice_index result j ≡ slice_index (if clear_after then to.new else from.now) (i + j) }
{
    let old = u8x16::from_slice(&from[i..]);
    let new = keyed(old, k);
    new.copy_to_slice(&mut to[i..]);
    if clear_after { new } else { old }
}

// The parities of 48 columns: `a` those of the first sixteen, `b` of the next sixteen and `c` of the last sixteen.
#[derive(Clone, Copy)]
struct Sums {
    a: u8x16,
    b: u8x16,
    c: u8x16,
}

fn no_sums() -> Sums
    ensures a { result.a ≡ replicate 16 0 }
    ensures b { result.b ≡ replicate 16 0 }
    ensures c { result.c ≡ replicate 16 0 }
{
    let none = u8x16::splat(0);
    Sums {
        a: none,
        b: none,
        c: none,
    }
}

// Returns the parities of the columns of two groups of rows together: the XOR of those of either group.
#[inline(always)]
fn xor_sums(sums: Sums, more: Sums) -> Sums
    requires sums { (length sums.a ≡ 16) × (length sums.b ≡ 16) × (length sums.c ≡ 16) }
    requires more { (length more.a ≡ 16) × (length more.b ≡ 16) × (length more.c ≡ 16) }
    ensures longs { (length result.a ≡ 16) × (length result.b ≡ 16) × (length result.c ≡ 16) }
    ensures a { (j : ℕ) → j < 16 → slice_index result.a j ≡ bit_xor (slice_index sums.a j) (slice_index more.a j) }
    ensures b { (j : ℕ) → j < 16 → slice_index result.b j ≡ bit_xor (slice_index sums.b j) (slice_index more.b j) }
    ensures c { (j : ℕ) → j < 16 → slice_index result.c j ≡ bit_xor (slice_index sums.c j) (slice_index more.c j) }
{
    Sums {
        a: sums.a ^ more.a,
        b: sums.b ^ more.b,
        c: sums.c ^ more.c,
    }
}

// Adds the sequence, from its byte k on, to the row of 48 bytes from place i on. Returns the XOR of the sums and the
// clear form of these bytes: that after the step where `clear_after` holds, and that before it otherwise.
#[inline(always)]
fn mix_row(bytes: &mut [u8], i: usize, k: usize, sums: Sums, clear_after: bool) -> Sums
    requires room { i + 48 ≤ length bytes.old }
    requires key { k + 48 ≤ 1160 }
    requires sums { (length sums.a ≡ 16) × (length sums.b ≡ 16) × (length sums.c ≡ 16) }
    ensures below { (m : ℕ) → m < i → slice_index bytes.new m ≡ slice_index bytes.old m }
    ensures inside { (j : ℕ) → j < 48 → slice_index bytes.new (i + j) ≡ bit_xor (slice_index bytes.old (i + j)) (scrambling_byte (k + j)) }
    ensures above { (m : ℕ) → i + 48 ≤ m → slice_index bytes.new m ≡ slice_index bytes.old m }
    ensures small { (m : ℕ) → slice_index bytes.new m < 2 ^ 8 }
    ensures longs { (length result.a ≡ 16) × (length result.b ≡ 16) × (length result.c ≡ 16) }
    ensures a { (j : ℕ) → j < 16
        → slice_index result.a j ≡ bit_xor (slice_index sums.a j) (slice_index (if clear_after then bytes.new else bytes.old) (i + j)) }
    ensures b { (j : ℕ) → j < 16 → slice_index result.b j
        ≡ bit_xor (slice_index sums.b j) (slice_index (if clear_after then bytes.new else bytes.old) (i + (16 + j))) }
    ensures c { (j : ℕ) → j < 16 → slice_index result.c j
        ≡ bit_xor (slice_index sums.c j) (slice_index (if clear_after then bytes.new else bytes.old) (i + (32 + j))) }
{
    let a = step(bytes, i, k, sums.a, clear_after);
    let b = step(bytes, i + 16, k + 16, sums.b, clear_after);
    let c = step(bytes, i + 32, k + 32, sums.c, clear_after);
    Sums { a, b, c }
}

// Copies the row of 48 bytes from place i on, and adds the sequence, from its byte k on, to the copy. Returns the
// parities of the columns of this row alone, which are its clear bytes: those of the copy where `clear_after` holds,
// and those of `from` otherwise.
#[inline(always)]
fn mix_row_to(from: &[u8], to: &mut [u8], i: usize, k: usize, clear_after: bool) -> Sums
    requires room { i + 48 ≤ length from.now }
    requires same { length to.old ≡ length from.now }
    requires key { k + 48 ≤ 1160 }
    ensures below { (m : ℕ) → m < i → slice_index to.new m ≡ slice_index to.old m }
    ensures inside { (j : ℕ) → j < 48 → slice_index to.new (i + j) ≡ bit_xor (slice_index from.now (i + j)) (scrambling_byte (k + j)) }
    ensures small { (m : ℕ) → slice_index to.new m < 2 ^ 8 }
    ensures longs { (length result.a ≡ 16) × (length result.b ≡ 16) × (length result.c ≡ 16) }
    ensures a { (j : ℕ) → j < 16 → slice_index result.a j ≡ slice_index (if clear_after then to.new else from.now) (i + j) }
    ensures b { (j : ℕ) → j < 16 → slice_index result.b j ≡ slice_index (if clear_after then to.new else from.now) (i + (16 + j)) }
    ensures c { (j : ℕ) → j < 16 → slice_index result.c j ≡ slice_index (if clear_after then to.new else from.now) (i + (32 + j)) }
{
    let a = step_to(from, to, i, k, clear_after);
    let b = step_to(from, to, i + 16, k + 16, clear_after);
    let c = step_to(from, to, i + 32, k + 32, clear_after);
    Sums { a, b, c }
}

// Returns the place in the sequence 144 bytes after place k, modulo 1016.
#[inline(always)]
fn after_three(k: usize) -> usize
    requires { k < 1016 }
    ensures { result ≡ (k + 144) % 1016 }
{
    if k + 144 >= 1016 {
        k + 144 - 1016
    } else {
        k + 144
    }
}

// Adds the sequence, from its byte `at` on, to whole rows of 48 bytes. Returns the parities of the columns of clear
// bytes. The loop takes three rows at a time, so that the place in the sequence is reduced modulo 1016 only after every
// third row.
#[inline(always)]
fn mix(bytes: &mut [u8], at: usize, rows: usize, clear_after: bool) -> Sums
    requires rows { length bytes.old ≡ 48 * rows }
    ensures bytes { (i : ℕ) → i < 48 * rows → slice_index bytes.new i ≡ bit_xor (slice_index bytes.old i) (scrambling_byte (at + i)) }
    ensures a { (j : ℕ) → j < 16 → slice_index result.a j ≡ parity_of (every j 48 rows (if clear_after then bytes.new else bytes.old)) }
    ensures b { (j : ℕ) → j < 16
        → slice_index result.b j ≡ parity_of (every (16 + j) 48 rows (if clear_after then bytes.new else bytes.old)) }
    ensures c { (j : ℕ) → j < 16
        → slice_index result.c j ≡ parity_of (every (32 + j) 48 rows (if clear_after then bytes.new else bytes.old)) }
    ensures longs { (length result.a ≡ 16) × (length result.b ≡ 16) × (length result.c ≡ 16) }
{
    let mut sums = no_sums();
    let mut k = at % 1016;
    'thirds: for t in 0..rows / 3 {
        let i = 144 * t;
        sums = mix_row(bytes, i, k, sums, clear_after);
        sums = mix_row(bytes, i + 48, k + 48, sums, clear_after);
        sums = mix_row(bytes, i + 96, k + 96, sums, clear_after);
        k = after_three(k);
    }
    'last: for r in 3 * (rows / 3)..rows {
        sums = mix_row(bytes, 48 * r, k, sums, clear_after);
        k += 48;
    }
    sums
}

// Copies whole rows of 48 bytes, and adds the sequence, from its byte `at` on, to the copies. Returns the parities of
// the columns of clear bytes. The loop takes three rows at a time, as that of `mix` does.
#[inline(always)]
fn mix_to(from: &[u8], to: &mut [u8], at: usize, rows: usize, clear_after: bool) -> Sums
    requires rows { length from.now ≡ 48 * rows }
    requires same { length to.old ≡ length from.now }
    ensures bytes { (i : ℕ) → i < 48 * rows → slice_index to.new i ≡ bit_xor (slice_index from.now i) (scrambling_byte (at + i)) }
    ensures a { (j : ℕ) → j < 16 → slice_index result.a j ≡ parity_of (every j 48 rows (if clear_after then to.new else from.now)) }
    ensures b { (j : ℕ) → j < 16 → slice_index result.b j ≡ parity_of (every (16 + j) 48 rows (if clear_after then to.new else from.now)) }
    ensures c { (j : ℕ) → j < 16 → slice_index result.c j ≡ parity_of (every (32 + j) 48 rows (if clear_after then to.new else from.now)) }
    ensures longs { (length result.a ≡ 16) × (length result.b ≡ 16) × (length result.c ≡ 16) }
{
    let mut sums = no_sums();
    let mut k = at % 1016;
    'thirds: for t in 0..rows / 3 {
        let i = 144 * t;
        sums = xor_sums(sums, mix_row_to(from, to, i, k, clear_after));
        sums = xor_sums(sums, mix_row_to(from, to, i + 48, k + 48, clear_after));
        sums = xor_sums(sums, mix_row_to(from, to, i + 96, k + 96, clear_after));
        k = after_three(k);
    }
    'last: for r in 3 * (rows / 3)..rows {
        sums = xor_sums(sums, mix_row_to(from, to, 48 * r, k, clear_after));
        k += 48;
    }
    sums
}

// Puts three vectors, one after the other, into the 48 bytes of `all`.
fn join(a: u8x16, b: u8x16, c: u8x16, all: &mut [u8])
    requires a { length a ≡ 16 }
    requires b { length b ≡ 16 }
    requires c { length c ≡ 16 }
    requires all { length all.old ≡ 48 }
    ensures first { (j : ℕ) → j < 16 → slice_index all.new j ≡ slice_index a j }
    ensures second { (j : ℕ) → j < 16 → slice_index all.new (16 + j) ≡ slice_index b j }
    ensures third { (j : ℕ) → j < 16 → slice_index all.new (32 + j) ≡ slice_index c j }
{
    a.copy_to_slice(&mut all[0..]);
    b.copy_to_slice(&mut all[16..]);
    c.copy_to_slice(&mut all[32..]);
}

/// Adds `len` bytes to the first `len` of the sums, one to each.
#[inline(always)]
pub fn add_to(sums: &mut [u8], bytes: &[u8], len: usize)
    requires bytes { length bytes.now ≡ len }
    requires room { len ≤ length sums.old }
    ensures front { (j : ℕ) → j < len → slice_index sums.new j ≡ bit_xor (slice_index sums.old j) (slice_index bytes.now j) }
    ensures rest { (j : ℕ) → len ≤ j → slice_index sums.new j ≡ slice_index sums.old j }
{
    for i in 0..len {
        sums[i] ^= bytes[i];
    }
}

// Adds the sequence, from its byte k on, to `len` bytes.
#[inline(always)]
fn add_key(bytes: &mut [u8], len: usize, k: usize)
    requires bytes { length bytes.old ≡ len }
    requires key { k + len ≤ 1160 }
    ensures { (i : ℕ) → i < len → slice_index bytes.new i ≡ bit_xor (slice_index bytes.old i) (scrambling_byte (k + i)) }
{
    for i in 0..len {
        bytes[i] ^= sequence(k + i);
    }
}

// Adds the sequence, from its byte k on, to a part of a row of 48 bytes, and adds the part's clear bytes to the first
// lanes. The clear bytes are those after the sequence is added where `clear_after` holds, and those before it
// otherwise.
#[inline(always)]
fn pass_part(bytes: &mut [u8], len: usize, k: usize, lanes: &mut [u8], clear_after: bool)
    requires bytes { length bytes.old ≡ len }
    requires few { len ≤ 48 }
    requires key { k + len ≤ 1160 }
    requires lanes { length lanes.old ≡ 48 }
    ensures bytes { (i : ℕ) → i < len → slice_index bytes.new i ≡ bit_xor (slice_index bytes.old i) (scrambling_byte (k + i)) }
    ensures lanes { (j : ℕ) → j < len
        → slice_index lanes.new j ≡ bit_xor (slice_index lanes.old j) (slice_index (if clear_after then bytes.new else bytes.old) j) }
    ensures rest { (j : ℕ) → len ≤ j → slice_index lanes.new j ≡ slice_index lanes.old j }
{
    if clear_after {
        add_key(bytes, len, k);
        add_to(lanes, bytes, len);
    } else {
        add_to(lanes, bytes, len);
        add_key(bytes, len, k);
    }
}

// Adds the sequence, from its byte k on, to the bytes after the last whole row of 48, and adds their clear bytes to the
// lanes. A row of an STM-4 frame has 24 such bytes, or 36 without its overhead. Both lengths are compiled as constants,
// so that the short loops are unrolled.
fn pass_rest(bytes: &mut [u8], k: usize, lanes: &mut [u8], clear_after: bool)
    requires few { length bytes.old ≤ 48 }
    requires key { k + length bytes.old ≤ 1160 }
    requires lanes { length lanes.old ≡ 48 }
    ensures bytes { (i : ℕ) → i < length bytes.old → slice_index bytes.new i ≡ bit_xor (slice_index bytes.old i) (scrambling_byte (k + i)) }
    ensures lanes { (j : ℕ) → j < length bytes.old
        → slice_index lanes.new j ≡ bit_xor (slice_index lanes.old j) (slice_index (if clear_after then bytes.new else bytes.old) j) }
    ensures rest { (j : ℕ) → length bytes.old ≤ j → slice_index lanes.new j ≡ slice_index lanes.old j }
{
    match bytes.len() {
        24 => pass_part(bytes, 24, k, lanes, clear_after),
        36 => pass_part(bytes, 36, k, lanes, clear_after),
        len => pass_part(bytes, len, k, lanes, clear_after),
    }
}

/// The parities of a piece: in `lanes` the BIP of 48 bytes of its clear bytes, and in `line` the BIP-8 of its bytes on
/// the line.
#[derive(Drop)]
pub struct Passed {
    pub lanes: [u8; 48],
    pub line: u8,
}

/// Adds the sequence, from its byte `at` on, to a piece, and returns the parities of its bytes. The clear bytes are
/// those after the pass where `clear_after` holds (descrambling), and those before it otherwise (scrambling).
#[inline(always)]
pub fn pass(bytes: &mut [u8], at: usize, clear_after: bool) -> Passed
    requires { at + length bytes.old ≤ 38880 }
    ensures bytes { (i : ℕ) → i < length bytes.old
        → slice_index bytes.new i ≡ bit_xor (slice_index bytes.old i) (scrambling_byte (at + i)) }
    ensures lanes { HasLanes 48 (if clear_after then bytes.new else bytes.old) result.lanes }
    ensures long { length result.lanes ≡ 48 }
    ensures line { result.line ≡ parity_of (if clear_after then bytes.old else bytes.new) }
    ensures small { (i : ℕ) → slice_index bytes.new i < 2 ^ 8 }
{
    let len = bytes.len();
    let rows = len / 48;
    let (whole, rest) = bytes.split_at_mut(48 * rows);
    let sums = mix(whole, at, rows, clear_after);
    let mut lanes = [0; 48];
    join(sums.a, sums.b, sums.c, &mut lanes);
    pass_rest(rest, (at + 48 * rows) % 1016, &mut lanes, clear_after);
    let line = bip8(&lanes) ^ sequence_parity(at, len);
    Passed { lanes, line }
}

/// Copies a piece, and adds the sequence, from its byte `at` on, to the copy. Returns the parities of its bytes. The
/// clear bytes are those of the copy where `clear_after` holds (descrambling), and those of `from` otherwise
/// (scrambling).
#[inline(always)]
pub fn pass_to(from: &[u8], to: &mut [u8], at: usize, clear_after: bool) -> Passed
    requires few { at + length from.now ≤ 38880 }
    requires same { length to.old ≡ length from.now }
    ensures bytes { (i : ℕ) → i < length from.now → slice_index to.new i ≡ bit_xor (slice_index from.now i) (scrambling_byte (at + i)) }
    ensures lanes { HasLanes 48 (if clear_after then to.new else from.now) result.lanes }
    ensures long { length result.lanes ≡ 48 }
    ensures line { result.line ≡ parity_of (if clear_after then from.now else to.new) }
    ensures small { (i : ℕ) → slice_index to.new i < 2 ^ 8 }
{
    let len = from.len();
    let rows = len / 48;
    let (front, back) = from.split_at(48 * rows);
    let (whole, rest) = to.split_at_mut(48 * rows);
    let sums = mix_to(front, whole, at, rows, clear_after);
    rest.copy_from_slice(back);
    let mut lanes = [0; 48];
    join(sums.a, sums.b, sums.c, &mut lanes);
    pass_rest(rest, (at + 48 * rows) % 1016, &mut lanes, clear_after);
    Passed {
        line: bip8(&lanes) ^ sequence_parity(at, len),
        lanes,
    }
}
