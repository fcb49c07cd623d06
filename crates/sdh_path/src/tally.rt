//! Counts over the VC-4s of a run of bytes that is given in pieces.
ghost use Rattle.std.specs.Prelude.{◌≡◌, ℕ, ◌+◌, ◌*◌, ◌/◌, ◌%◌, ◌<◌, ◌≤◌, ◌==◌, if◌then◌else◌, List, [], ◌++◌, length, slice_index};
ghost use Rattle.sdh_parity.specs.Violations.{differing_bits};
ghost use Rattle.sdh_path.specs.Kept.{IsTallyOf, IsSmall};

use sdh_parity::{bip8, differing_bits};

/// The number of bytes of a VC-4.
pub(crate) const VC4_LEN: usize = 2349;

/// The place of B3 in a VC-4.
const B3: usize = 261;

/// The place of the signal label C2.
const C2: usize = 522;

/// The signal label of an equipped path.
const EQUIPPED: u8 = 1;

/// What is kept of a run of bytes that begins with a VC-4.
#[derive(Clone, Copy, Debug)]
pub struct Tally {
    /// The number of whole VC-4s.
    pub vcs: u32,
    /// The number of bits in which B3 of these VC-4s differs from the parity of the VC-4 before each.
    pub b3: u32,
    /// The number of these VC-4s whose signal label C2 isn't 1, equipped.
    pub label: u32,
    /// The BIP-8 of the last whole VC-4, with which B3 of the next one is compared.
    pub due: u8,
    /// The number of bytes after the last whole VC-4, which are those of an unfinished one.
    pub index: usize,
    /// The BIP-8 of the bytes of the unfinished VC-4.
    pub parity: u8,
    /// B3 of the unfinished VC-4, and 0 where it hasn't come.
    pub b3_byte: u8,
    /// C2 of the unfinished VC-4, and 0 where it hasn't come.
    pub label_byte: u8,
}

// Returns the byte at a place of an unfinished VC-4 of `index` bytes after a piece was added: the byte of the piece, if
// the piece reaches that place, and otherwise `kept`, which was known before.
fn byte_with(kept: u8, index: usize, piece: &[u8], place: usize) -> u8
    ensures { (part : List ℕ) → length part ≡ index → kept ≡ slice_index part place → result ≡ slice_index (part ++ piece.now) place }
{
    if index <= place && place - index < piece.len() {
        piece[place - index]
    } else {
        kept
    }
}

// Returns 0 for the signal label of an equipped path, and 1 for any other.
fn label_violations(label: u8) -> u32
    ensures value { result ≡ (if label == 1 then 0 else 1) }
    ensures few { result ≤ 1 }
{
    if label == EQUIPPED { 0 } else { 1 }
}

impl Tally {
    /// Returns the counts of no bytes.
    pub fn new() -> Tally
        ensures counts { IsTallyOf [] result }
        ensures small { IsSmall result }
        ensures none { result.vcs ≡ 0 }
        ensures start { result.index ≡ 0 }
    {
        Tally {
            vcs: 0,
            b3: 0,
            label: 0,
            due: 0,
            index: 0,
            parity: 0,
            b3_byte: 0,
            label_byte: 0,
        }
    }

    // Returns the counts with one more piece of the unfinished VC-4.
    fn with_piece(self, piece: &[u8]) -> Tally
        requires fits { self.index + length piece.now ≤ 2349 }
        ensures counts { (run : List ℕ) → IsTallyOf run self → IsTallyOf (run ++ piece.now) result }
        ensures index { result.index ≡ self.index + length piece.now }
        ensures vcs { result.vcs ≡ self.vcs }
        ensures b3 { result.b3 ≡ self.b3 }
        ensures label { result.label ≡ self.label }
    {
        Tally {
            index: self.index + piece.len(),
            parity: self.parity ^ bip8(piece),
            b3_byte: byte_with(self.b3_byte, self.index, piece, B3),
            label_byte: byte_with(self.label_byte, self.index, piece, C2),
            ..self
        }
    }

    // Returns the number of bits in which B3 of the VC-4 that is now whole differs from the parity of the one before
    // it, and 0 for the first one.
    fn b3_violations(self) -> u32
        ensures first { self.vcs ≡ 0 → result ≡ 0 }
        ensures later { 0 < self.vcs → result ≡ differing_bits self.b3_byte self.due }
        ensures few { result ≤ 8 }
    {
        if self.vcs == 0 {
            0
        } else {
            differing_bits(self.b3_byte, self.due)
        }
    }

    // Returns the counts with the last VC-4 counted too, if all its bytes have come, and otherwise as they are.
    fn closed(self) -> Tally
        requires b3 { self.b3 ≤ 8 * self.vcs }
        requires label { self.label ≤ self.vcs }
        requires within { self.index ≤ 2349 }
        requires few { self.vcs < 2000000 }
        ensures counts { (run : List ℕ) → IsTallyOf run self → IsTallyOf run result }
        ensures small { IsSmall result }
        ensures index { result.index ≡ self.index % 2349 }
        ensures vcs { result.vcs ≡ self.vcs + self.index / 2349 }
    {
        if self.index < VC4_LEN {
            return self;
        }
        Tally {
            vcs: self.vcs + 1,
            b3: self.b3 + self.b3_violations(),
            label: self.label + label_violations(self.label_byte),
            due: self.parity,
            index: 0,
            parity: 0,
            b3_byte: 0,
            label_byte: 0,
        }
    }

    /// Returns the counts with one more piece, which does not go past the end of the unfinished VC-4.
    pub fn with(self, piece: &[u8]) -> Tally
        requires small { IsSmall self }
        requires fits { self.index + length piece.now ≤ 2349 }
        requires few { self.vcs < 2000000 }
        ensures counts { (run : List ℕ) → IsTallyOf run self → IsTallyOf (run ++ piece.now) result }
        ensures small { IsSmall result }
        ensures index { result.index ≡ (self.index + length piece.now) % 2349 }
        ensures vcs { result.vcs ≡ self.vcs + (self.index + length piece.now) / 2349 }
    {
        self.with_piece(piece).closed()
    }
}
