//! Adding pieces of any length to the 3N bytes of BIP-24N. Bytes are added modulo 2, bit by bit (XOR). In a parity of m
//! bytes, byte i of the input is in lane i modulo m, and byte j of the parity is the BIP-8 of lane j.
ghost use Rattle.std.specs.Prelude.{◌≡◌, ℕ, List, ◌++◌, ◌+◌, ◌*◌, ◌%◌, ◌^◌, ◌<◌, ◌≤◌, ◌⊎◌, length, slice_index, bit_xor};
ghost use Rattle.sdh_basics.specs.Parity.{bip8 as parity_of};
ghost use Rattle.sdh_parity.specs.Parity.{every};
ghost use Rattle.sdh_parity.specs.Pieces.{HasLanes};

use crate::through::add_to;
use std::simd::prelude::*;

// Returns sixteen parities, for `rows` rows of 12 bytes. Parity k is that of the bytes at `at` + k, `at` + k + 12 and
// so on, one in each row.
fn columns12(bytes: &[u8], at: usize, rows: usize) -> u8x16
    requires { at + 12 * rows + 4 ≤ length bytes.now }
    ensures len { length result ≡ 16 }
    ensures each { (k : ℕ) → k < 16 → slice_index result k ≡ parity_of (every (at + k) 12 rows bytes.now) }
{
    let mut all = u8x16::splat(0);
    for r in 0..rows {
        all = all ^ u8x16::from_slice(&bytes[at + r * 12..]);
    }
    all
}

// Returns the parities of sixteen neighbouring columns, from place `at` on, of a table with rows of 48 bytes.
fn columns48(bytes: &[u8], at: usize, rows: usize) -> u8x16
    requires { at + 48 * rows ≤ length bytes.now + 32 }
    ensures len { length result ≡ 16 }
    ensures each { (k : ℕ) → k < 16 → slice_index result k ≡ parity_of (every (at + k) 48 rows bytes.now) }
{
    let mut all = u8x16::splat(0);
    for r in 0..rows {
        all = all ^ u8x16::from_slice(&bytes[at + r * 48..]);
    }
    all
}

// Adds sixteen parities to those in `sums` from place `at` on.
fn add_vector(sums: &mut [u8], at: usize, more: u8x16)
    requires room { at + 16 ≤ length sums.old }
    requires more { length more ≡ 16 }
    ensures below { (k : ℕ) → k < at → slice_index sums.new k ≡ slice_index sums.old k }
    ensures inside { (j : ℕ) → j < 16 → slice_index sums.new (at + j) ≡ bit_xor (slice_index sums.old (at + j)) (slice_index more j) }
    ensures above { (k : ℕ) → at + 16 ≤ k → slice_index sums.new k ≡ slice_index sums.old k }
{
    let all = u8x16::from_slice(&sums[at..]) ^ more;
    all.copy_to_slice(&mut sums[at..]);
}

// Adds `rows` whole rows of 48 bytes to the 48 parities.
fn add_rows48(sums: &mut [u8], bytes: &[u8], rows: usize)
    requires sums { length sums.old ≡ 48 }
    requires rows { length bytes.now ≡ 48 * rows }
    ensures { (j : ℕ) → j < 48 → slice_index sums.new j ≡ bit_xor (slice_index sums.old j) (parity_of (every j 48 rows bytes.now)) }
{
    add_vector(sums, 0, columns48(bytes, 0, rows));
    add_vector(sums, 16, columns48(bytes, 16, rows));
    add_vector(sums, 32, columns48(bytes, 32, rows));
}

// Adds `rows` + 1 whole rows of 12 bytes to the first 12 parities. The bytes of the last row are added singly, since a
// vector of sixteen bytes would reach beyond them.
fn add_rows12(sums: &mut [u8], bytes: &[u8], rows: usize)
    requires sums { length sums.old ≡ 48 }
    requires rows { length bytes.now ≡ 12 * (rows + 1) }
    ensures { (j : ℕ) → j < 12 → slice_index sums.new j ≡ bit_xor (slice_index sums.old j) (parity_of (every j 12 (rows + 1) bytes.now)) }
{
    let mut front = [0; 16];
    columns12(bytes, 0, rows).copy_to_slice(&mut front);
    for i in 0..12 {
        sums[i] ^= front[i] ^ bytes[12 * rows + i];
    }
}

// Returns the lane of the byte after one in `lane`: the next lane, or lane 0 after the last one.
fn after(lane: usize, width: usize) -> usize
    requires { lane < width }
    ensures next { result ≡ (lane + 1) % width }
    ensures small { result < width }
{
    if lane + 1 == width { 0 } else { lane + 1 }
}

// Adds bytes singly, the first to the lane `next`, and returns the lane of the byte after them.
fn add_bytes(width: usize, next: usize, sums: &mut [u8], bytes: &[u8]) -> usize
    requires width { width ≤ 48 }
    requires next { next < width }
    requires sums { length sums.old ≡ 48 }
    ensures small { result < width }
    ensures each { (before : List ℕ) → next ≡ length before % width → HasLanes width before sums.old
        → (result ≡ length (before ++ bytes.now) % width) × HasLanes width (before ++ bytes.now) sums.new }
{
    let mut lane = next;
    for i in 0..bytes.len() {
        sums[lane] ^= bytes[i];
        lane = after(lane, width);
    }
    lane
}

/// Adds `rows` whole rows of 3N bytes to the first 3N parities.
pub fn add_rows(n: usize, sums: &mut [u8], bytes: &[u8], rows: usize)
    requires rate { (n ≡ 4) ⊎ (n ≡ 16) }
    requires sums { length sums.old ≡ 48 }
    requires rows { length bytes.now ≡ 3 * n * rows }
    ensures { (j : ℕ) → j < 3 * n → slice_index sums.new j ≡ bit_xor (slice_index sums.old j) (parity_of (every j (3 * n) rows bytes.now)) }
{
    if n == 16 {
        add_rows48(sums, bytes, rows);
    } else if rows > 0 {
        add_rows12(sums, bytes, rows - 1);
    }
}

// Adds a piece of any length, and returns the lane of the byte after it. A piece that begins in lane 0 is added by
// whole rows, as far as these reach.
pub fn add_piece(n: usize, next: usize, sums: &mut [u8], bytes: &[u8]) -> usize
    requires rate { (n ≡ 4) ⊎ (n ≡ 16) }
    requires next { next < 3 * n }
    requires sums { length sums.old ≡ 48 }
    ensures small { result < 3 * n }
    ensures each { (before : List ℕ) → next ≡ length before % (3 * n) → HasLanes (3 * n) before sums.old
        → (result ≡ length (before ++ bytes.now) % (3 * n)) × HasLanes (3 * n) (before ++ bytes.now) sums.new }
{
    let width = 3 * n;
    if next > 0 {
        return add_bytes(width, next, sums, bytes);
    }
    let rows = bytes.len() / width;
    let (whole, rest) = bytes.split_at(width * rows);
    add_rows(n, sums, whole, rows);
    add_bytes(width, 0, sums, rest)
}

// Adds 48 parities to the first 12 of `sums`, four to each.
fn add_folded(sums: &mut [u8], lanes: &[u8])
    requires sums { length sums.old ≡ 48 }
    requires lanes { length lanes.now ≡ 48 }
    ensures { (j : ℕ) → j < 12 → slice_index sums.new j ≡ bit_xor (slice_index sums.old j)
        (bit_xor (bit_xor (bit_xor (slice_index lanes.now j) (slice_index lanes.now (12 + j))) (slice_index lanes.now (24 + j)))
        (slice_index lanes.now (36 + j))) }
{
    for i in 0..12 {
        sums[i] ^= lanes[i] ^ lanes[12 + i] ^ lanes[24 + i] ^ lanes[36 + i];
    }
}

/// Adds a piece that is given by its BIP of 48 bytes, `lanes`. The number of bytes added before it has to be a multiple
/// of 3N.
pub fn add_lanes(n: usize, sums: &mut [u8], lanes: &[u8])
    requires rate { (n ≡ 4) ⊎ (n ≡ 16) }
    requires sums { length sums.old ≡ 48 }
    requires lanes { length lanes.now ≡ 48 }
    ensures { (before bytes : List ℕ) → 0 ≡ length before % (3 * n) → HasLanes (3 * n) before sums.old → HasLanes 48 bytes lanes.now
        → ((i : ℕ) → slice_index bytes i < 2 ^ 8) → HasLanes (3 * n) (before ++ bytes) sums.new }
{
    if n == 4 {
        add_folded(sums, lanes);
    } else {
        add_to(sums, lanes, 48);
    }
}

/// Returns the lane of the byte after a piece of `len` bytes that begins in lane 0.
pub fn lane_behind(n: usize, len: usize) -> usize
    requires rate { (n ≡ 4) ⊎ (n ≡ 16) }
    ensures lane { result ≡ len % (3 * n) }
    ensures small { result < 3 * n }
{
    if n == 4 { len % 12 } else { len % 48 }
}
