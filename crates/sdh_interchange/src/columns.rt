//! Payloads as columns: sixteen bytes of each payload become vectors over whole columns of a frame.
ghost use Rattle.std.specs.Prelude.{◌≡◌, ℕ, ◌+◌, ◌*◌, ◌/◌, ◌%◌, ◌<◌, ◌≤◌, ◌⊎◌};
ghost use Rattle.sdh_interchange.specs.Tables.{cell, IsLaneTable};

use crate::own::Payloads;
use crate::table::{apart, spread, transpose, transpose4, transpose8};
use std::simd::prelude::*;

// Returns the index in a frame of the first byte of a column. A column has N bytes, and columns are counted from 0
// through all rows.
#[inline(always)]
pub(crate) fn byte_of<const N: usize>(column: usize) -> usize
    requires rate { (N ≡ 4) ⊎ (N ≡ 16) }
    requires few { column ≤ 2430 }
    ensures place { result ≡ N * column }
    ensures small { result ≤ 38880 }
{
    N * column
}

// Returns the same sixteen bytes of each of the first `A` payloads, one below the other.
#[inline(always)]
fn rows_of<const A: usize>(own: &Payloads, from: usize) -> [u8x16; A]
    requires few { A ≤ 16 }
    requires room { from + 16 ≤ 2349 }
    ensures table { IsLaneTable A result }
    ensures each { (a k : ℕ) → a < A → k < 16 → cell result a k ≡ cell own.now a (from + k) }
{
    let mut rows = [u8x16::splat(0); A];
    for a in 0..A {
        rows[a] = own.sixteen(a, from);
    }
    rows
}

// Returns, for STM-16, sixteen vectors of one column each, with the bytes of the first `upto` payloads. The lanes of
// other payloads mean nothing.
#[inline(always)]
pub(crate) fn columns16(own: &Payloads, from: usize, upto: usize) -> [u8x16; 16]
    requires room { from + 16 ≤ 2349 }
    requires few { (upto ≡ 8) ⊎ (upto ≡ 16) }
    ensures table { IsLaneTable 16 result }
    ensures each { (k a : ℕ) → k < 16 → a < upto → cell result k a ≡ cell own.now a (from + k) }
{
    if upto == 8 {
        apart(transpose8(rows_of::<8>(own, from)))
    } else {
        transpose(rows_of::<16>(own, from))
    }
}

// Returns, for STM-4, four vectors of four columns each, with the bytes of the first `upto` payloads. The lanes of
// other payloads mean nothing.
#[inline(always)]
pub(crate) fn columns4(own: &Payloads, from: usize, upto: usize) -> [u8x16; 4]
    requires room { from + 16 ≤ 2349 }
    requires few { (upto ≡ 2) ⊎ (upto ≡ 4) }
    ensures table { IsLaneTable 4 result }
    ensures each { (k j : ℕ) → k < 4 → j < 16 → j % 4 < upto → cell result k j ≡ cell own.now (j % 4) (from + (4 * k + j / 4)) }
{
    if upto == 2 {
        spread(rows_of::<2>(own, from))
    } else {
        transpose4(rows_of::<4>(own, from))
    }
}
