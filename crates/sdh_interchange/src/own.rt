//! The payloads of a node's own ports.
ghost use Rattle.std.specs.Prelude.{◌≡◌, ◌≢◌, ℕ, ◌+◌, ◌-◌, ◌<◌, ◌≤◌, [], length, replicate, slice_index, slice_index_or};
ghost use Rattle.sdh_interchange.specs.Tables.{cell};

use std::fmt;
use std::marker::Model;
use std::simd::prelude::*;

/// A payload of zeros.
static ZEROS: [u8; 2349] = [0; 2349];

/// The payloads of a node's own ports, 2349 bytes each, by the numbers of the AU-4s that they go to, 1 to 16. Where no
/// port sends to a number, its payload is zeros.
#[derive(Drop)]
pub struct Payloads<'a> {
    pieces: [&'a [u8]; 16],
}

impl<'a> Model for Payloads<'a> {
    ghost use Rattle.std.specs.Prelude.{◌≡◌, ℕ, List, map};
    ghost use Rattle.sdh_interchange.specs.Own.{ArePayloads};

    ghost Value = { List (List ℕ) };

    ghost view = { λ o. map (λ p. p.now) o.pieces };

    ghost invariant = { λ o. ArePayloads (map (λ p. p.now) o.pieces) };
}

impl<'a> fmt::Debug for Payloads<'a> {
    fn fmt<W: fmt::Write>(&self, f: &mut fmt::Formatter<W>) -> fmt::Result {
        write!(f, "Payloads")
    }
}

fn zeros<'a>() -> &'a [u8]
    ensures { result.now ≡ replicate 2349 0 }
{
    &ZEROS
}

impl<'a> Payloads<'a> {
    /// Returns payloads of zeros for all numbers.
    pub fn none() -> Payloads<'a>
        ensures zeros { result ≡ replicate 16 (replicate 2349 0) }
        ensures many { length result ≡ 16 }
    {
        let pieces = [zeros(); 16];
        Payloads { pieces }
    }

    /// Sets the payload, 2349 bytes, for AU-4 number `k`, 1 to 16.
    pub fn put(&mut self, k: u16, payload: &'a [u8])
        requires first { 1 ≤ k }
        requires last { k ≤ 16 }
        requires payload { length payload.now ≡ 2349 }
        ensures here { slice_index_or self.new (k - 1) [] ≡ payload.now }
        ensures others { (m : ℕ) → m ≢ k - 1 → slice_index_or self.new m [] ≡ slice_index_or self.old m [] }
    {
        self.pieces[k as usize - 1] = payload;
    }

    // Returns a copy that refers to the same payloads.
    #[inline(always)]
    pub(crate) fn same(&self) -> Payloads<'a>
        ensures { result ≡ self.now }
    {
        Payloads {
            pieces: self.pieces,
        }
    }

    // Returns the payload for AU-4 number `a` + 1.
    #[inline(always)]
    fn piece(&self, a: usize) -> &[u8]
        requires { a < 16 }
        ensures bytes { result.now ≡ slice_index_or self.now a [] }
        ensures full { length result.now ≡ 2349 }
    {
        self.pieces[a]
    }

    /// Returns sixteen bytes of the payload for AU-4 number `a` + 1, from its byte `from` on, counted from 0.
    #[inline(always)]
    pub(crate) fn sixteen(&self, a: usize, from: usize) -> u8x16
        requires place { a < 16 }
        requires room { from + 16 ≤ 2349 }
        ensures long { length result ≡ 16 }
        ensures each { (k : ℕ) → k < 16 → slice_index result k ≡ cell self.now a (from + k) }
    {
        sixteen_of(self.piece(a), from)
    }
}

// Returns sixteen bytes from a place on.
#[inline(always)]
fn sixteen_of(bytes: &[u8], from: usize) -> u8x16
    requires { from + 16 ≤ length bytes.now }
    ensures long { length result ≡ 16 }
    ensures each { (k : ℕ) → k < 16 → slice_index result k ≡ slice_index bytes.now (from + k) }
{
    u8x16::from_slice(&bytes[from..])
}
