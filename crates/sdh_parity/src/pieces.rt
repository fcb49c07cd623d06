//! The scrambler and the parities over the pieces of a frame. However the frame is cut into pieces, the results are the
//! same.
ghost use Rattle.std.specs.Prelude.{◌≡◌, ℕ, ◌+◌, ◌-◌, ◌*◌, ◌%◌, ◌^◌, ◌<◌, ◌≤◌, ◌⊎◌, ◌==◌, nat_le, if◌then◌else◌, List, [], ◌++◌, length};
ghost use Rattle.std.specs.Prelude.{slice_index, bit_xor};
ghost use Rattle.sdh_basics.specs.Parity.{bip8 as parity_of};
ghost use Rattle.sdh_parity.specs.Scrambling.{scrambling_byte};
ghost use Rattle.sdh_parity.specs.Pieces.{scrambled_from, after_bytes, HasLanes, InPieces};

use crate::adding::{add_lanes, add_piece, lane_behind};
use crate::parity::bip8;
use crate::scrambler::{Rate9, add_sequence, sequence};
use crate::through::{Passed, pass};
use std::marker::Model;

// Adds the scrambling sequence, from its byte s on, to the bytes of a part.
#[inline(always)]
fn add_within(part: &mut [u8], s: usize)
    requires { s + length part.old ≤ 1016 }
    ensures { (k : ℕ) → k < length part.old → slice_index part.new k ≡ bit_xor (slice_index part.old k) (scrambling_byte (s + k)) }
{
    for i in 0..part.len() {
        part[i] ^= sequence(s + i);
    }
}

// Returns the number of bytes, at most `len`, from byte s of a block to the end of the block. A block is 1016 bytes of
// the sequence, which repeats after them.
#[inline(always)]
fn first_block(s: usize, len: usize) -> usize
    requires { s < 1016 }
    ensures which { (result ≡ len) ⊎ (result ≡ 1016 - s) }
    ensures few { result ≤ len }
    ensures fits { s + result ≤ 1016 }
{
    if len < 1016 - s { len } else { 1016 - s }
}

// Adds the scrambling sequence, from its byte p on, to the bytes.
fn add_from(bytes: &mut [u8], p: usize)
    ensures { (k : ℕ) → k < length bytes.old → slice_index bytes.new k ≡ bit_xor (slice_index bytes.old k) (scrambling_byte (p + k)) }
{
    let s = p % 1016;
    let first = first_block(s, bytes.len());
    let (head, rest) = bytes.split_at_mut(first);
    add_within(head, s);
    add_sequence(rest);
}

// Scrambles a piece that begins at byte `at` of its frame.
fn scramble_piece(clear: usize, at: usize, bytes: &mut [u8])
    requires { at + length bytes.old ≤ 38880 }
    ensures { bytes.new ≡ scrambled_from clear at bytes.old }
{
    if at + bytes.len() <= clear {
        return;
    }
    let skip = clear.saturating_sub(at);
    add_from(&mut bytes[skip..], at + skip - clear);
}

/// A scrambler that is given a frame in pieces.
#[derive(Debug, Drop)]
pub struct Scrambler {
    clear: usize,
    at: usize,
}

impl Model for Scrambler {
    ghost use Rattle.sdh_parity.specs.Pieces.{Position};

    ghost Value = { Position };

    ghost view = { λ s. record { clear = s.clear; at = s.at } };
}

impl Scrambler {
    /// Returns the scrambler at the start of a frame.
    pub fn new(rate: Rate9) -> Scrambler
        ensures clear { result.clear ≡ rate.0 }
        ensures at { result.at ≡ 0 }
    {
        Scrambler {
            clear: rate.0,
            at: 0,
        }
    }

    /// Scrambles or descrambles the next piece.
    pub fn apply(&mut self, bytes: &mut [u8])
        requires { self.old.at + length bytes.old ≤ 38880 }
        ensures bytes { bytes.new ≡ scrambled_from self.old.clear self.old.at bytes.old }
        ensures at { self.new ≡ record self.old { at = self.old.at + length bytes.old } }
    {
        scramble_piece(self.clear, self.at, bytes);
        self.at += bytes.len();
    }

    // Returns whether the next bytes are to be scrambled: the first bytes of the frame, which stay clear, have all
    // passed.
    fn is_behind(&self) -> bool
        ensures { result ≡ nat_le self.now.clear self.now.at }
    {
        self.clear <= self.at
    }

    // Scrambles the next piece, or descrambles it where `clear_after` holds, and returns the parities of its bytes, in
    // one pass. The piece lies after the first bytes of the frame, which are never scrambled.
    #[inline(always)]
    fn pass(&mut self, bytes: &mut [u8], clear_after: bool) -> Passed
        requires behind { self.old.clear ≤ self.old.at }
        requires few { self.old.at + length bytes.old ≤ 38880 }
        ensures bytes { bytes.new ≡ scrambled_from self.old.clear self.old.at bytes.old }
        ensures at { self.new ≡ record self.old { at = self.old.at + length bytes.old } }
        ensures lanes { HasLanes 48 (if clear_after then bytes.new else bytes.old) result.lanes }
        ensures long { length result.lanes ≡ 48 }
        ensures line { result.line ≡ parity_of (if clear_after then bytes.old else bytes.new) }
        ensures small { (i : ℕ) → slice_index bytes.old i < 2 ^ 8 }
    {
        let passed = pass(bytes, self.at - self.clear, clear_after);
        self.at += bytes.len();
        passed
    }

    /// Moves past the next `count` bytes of the frame without scrambling them.
    pub fn skip(&mut self, count: usize)
        requires { self.old.at + count ≤ 38880 }
        ensures { self.new ≡ record self.old { at = self.old.at + count } }
    {
        self.at += count;
    }
}

/// The BIP-8 of the bytes that were added so far.
#[derive(Debug, Drop)]
pub struct Bip8 {
    value: u8,
}

impl Model for Bip8 {
    ghost use Rattle.std.specs.Prelude.{ℕ};

    ghost Value = { ℕ };

    ghost view = { λ b. b.value };
}

impl Bip8 {
    /// Returns the parity of no bytes.
    pub fn new() -> Bip8
        ensures { result ≡ parity_of [] }
    {
        Bip8 { value: 0 }
    }

    /// Adds the next piece.
    pub fn add(&mut self, bytes: &[u8])
        ensures { (before : List ℕ) → self.old ≡ parity_of before → self.new ≡ parity_of (before ++ bytes.now) }
    {
        self.value ^= bip8(bytes);
    }

    // Adds the next piece, which is given by its BIP-8.
    fn add_parity(&mut self, parity: u8)
        ensures { (before bytes : List ℕ) → self.old ≡ parity_of before → parity ≡ parity_of bytes
            → self.new ≡ parity_of (before ++ bytes) }
    {
        self.value ^= parity;
    }

    /// Returns the parity of all pieces so far.
    pub fn value(&self) -> u8
        ensures { result ≡ self.now }
    {
        self.value
    }
}

/// The BIP-24N of the bytes that were added so far.
#[derive(Debug, Drop)]
pub struct BipSection {
    n: usize,
    next: usize,
    sums: [u8; 48],
}

impl Model for BipSection {
    ghost use Rattle.std.specs.Prelude.{◌≡◌, ◌<◌, ◌*◌, ◌⊎◌, take};
    ghost use Rattle.sdh_parity.specs.Pieces.{Running};

    ghost Value = { Running };

    ghost view = { λ b. record { n = b.n; next = b.next; sums = take (3 * b.n) b.sums } };

    ghost invariant = { λ b. ((b.n ≡ 4) ⊎ (b.n ≡ 16)) × (b.next < 3 * b.n) };
}

impl BipSection {
    /// Returns the parities of no bytes, for the rate N, 4 or 16.
    pub fn new(n: usize) -> BipSection
        requires { (n ≡ 4) ⊎ (n ≡ 16) }
        ensures none { result ≡ after_bytes n [] }
        ensures rate { result.n ≡ n }
    {
        BipSection {
            n,
            next: 0,
            sums: [0; 48],
        }
    }

    /// Adds the next piece.
    pub fn add(&mut self, bytes: &[u8])
        ensures each { (before : List ℕ) → self.old ≡ after_bytes self.old.n before
            → self.new ≡ after_bytes self.old.n (before ++ bytes.now) }
        ensures rate { self.new.n ≡ self.old.n }
    {
        self.next = add_piece(self.n, self.next, &mut self.sums, bytes);
    }

    // Returns whether the number of bytes so far is a multiple of 3N.
    fn is_whole(&self) -> bool
        ensures { result ≡ (self.now.next == 0) }
    {
        self.next == 0
    }

    // Adds the next piece, which is given by its length and its BIP of 48 bytes. The number of bytes so far has to be a
    // multiple of 3N.
    fn add_lanes(&mut self, len: usize, lanes: &[u8; 48])
        requires whole { self.old.next ≡ 0 }
        requires lanes { length lanes.now ≡ 48 }
        ensures each { (before bytes : List ℕ) → self.old ≡ after_bytes self.old.n before → length bytes ≡ len → HasLanes 48 bytes lanes.now
            → ((i : ℕ) → slice_index bytes i < 2 ^ 8) → self.new ≡ after_bytes self.old.n (before ++ bytes) }
        ensures rate { self.new.n ≡ self.old.n }
    {
        add_lanes(self.n, &mut self.sums, lanes);
        self.next = lane_behind(self.n, len);
    }

    /// Writes the 3N bytes of the parity of all pieces.
    pub fn write_value(&self, out: &mut [u8])
        requires { length out.old ≡ 3 * self.now.n }
        ensures { out.new ≡ self.now.sums }
    {
        out.copy_from_slice(&self.sums[..3 * self.n]);
    }
}

/// Sends the next piece of a frame: adds it to `clear`, the BIP-24N of the bytes before scrambling; scrambles it; and
/// adds it to `line`, the BIP-8 of the bytes on the line. All this takes one pass over the bytes where the piece lies
/// after the unscrambled head of the frame, and the number of bytes added to `clear` before is a multiple of 3N.
pub fn send_piece(
    clear: &mut BipSection,
    scrambler: &mut Scrambler,
    line: &mut Bip8,
    bytes: &mut [u8],
)
    requires { scrambler.old.at + length bytes.old ≤ 38880 }
    ensures bytes { bytes.new ≡ scrambled_from scrambler.old.clear scrambler.old.at bytes.old }
    ensures at { scrambler.new ≡ record scrambler.old { at = scrambler.old.at + length bytes.old } }
    ensures clear { (before : List ℕ) → clear.old ≡ after_bytes clear.old.n before
        → clear.new ≡ after_bytes clear.old.n (before ++ bytes.old) }
    ensures rate { clear.new.n ≡ clear.old.n }
    ensures line { (before : List ℕ) → line.old ≡ parity_of before → line.new ≡ parity_of (before ++ bytes.new) }
{
    if !(scrambler.is_behind() && clear.is_whole()) {
        clear.add(bytes);
        scrambler.apply(bytes);
        line.add(bytes);
        return;
    }
    let passed = scrambler.pass(bytes, false);
    clear.add_lanes(bytes.len(), &passed.lanes);
    line.add_parity(passed.line);
}

/// Receives the next piece of a frame: adds it to `line`, the BIP-8 of the bytes on the line; descrambles it; and adds
/// it to `clear`, the BIP-24N of the descrambled bytes. All this takes one pass over the bytes where the piece lies
/// after the unscrambled head of the frame, and the number of bytes added to `clear` before is a multiple of 3N.
pub fn receive_piece(
    line: &mut Bip8,
    scrambler: &mut Scrambler,
    clear: &mut BipSection,
    bytes: &mut [u8],
)
    requires { scrambler.old.at + length bytes.old ≤ 38880 }
    ensures bytes { bytes.new ≡ scrambled_from scrambler.old.clear scrambler.old.at bytes.old }
    ensures at { scrambler.new ≡ record scrambler.old { at = scrambler.old.at + length bytes.old } }
    ensures line { (before : List ℕ) → line.old ≡ parity_of before → line.new ≡ parity_of (before ++ bytes.old) }
    ensures clear { (before : List ℕ) → clear.old ≡ after_bytes clear.old.n before
        → clear.new ≡ after_bytes clear.old.n (before ++ bytes.new) }
    ensures rate { clear.new.n ≡ clear.old.n }
{
    if !(scrambler.is_behind() && clear.is_whole()) {
        line.add(bytes);
        scrambler.apply(bytes);
        clear.add(bytes);
        return;
    }
    let passed = scrambler.pass(bytes, true);
    line.add_parity(passed.line);
    clear.add_lanes(bytes.len(), &passed.lanes);
}

/// However a frame is cut into pieces, scrambling the pieces gives what scrambling the whole frame gives.
pub fn pieces_make_the_whole()
    ensures { InPieces }
{}
