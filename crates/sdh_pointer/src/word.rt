//! Pointer words.
ghost use Rattle.std.specs.Prelude.{◌≡◌, ◌/◌, ◌≤◌, length, bit_and, bit_xor, count_ones};
ghost use Rattle.sdh_pointer.specs.Words.{differing, n_bits, i_bits, d_bits, is_normal, is_enabled, word_in, word_bytes, word_of};

use byteorder::{BigEndian, ByteOrder};

/// The bytes H1 and H2 as one number, H1 first: `NNNNSSIDIDIDIDID`.
#[derive(Clone, Copy, Debug, PartialEq, Eq)]
pub struct Word(pub u16);

/// The form of a word that is sent: with the value, with the value and a new data flag, with the I
/// bits or the D bits of the value inverted, and all ones.
#[derive(Clone, Copy, Debug, PartialEq, Eq)]
pub enum Form {
    Normal,
    Enabled,
    Up,
    Down,
    Ais,
}

// The N bits of a normal and of an enabled word.
const NORMAL: u16 = 0b0110;

const ENABLED: u16 = 0b1001;

// Masks of the N bits, of the I bits and of the D bits.
const N_MASK: u16 = 0xF;

const I_MASK: u16 = 0x2AA;

const D_MASK: u16 = 0x155;

// Returns the number of bits of a mask in which two numbers differ.
fn differences(left: u16, right: u16, mask: u16) -> u32
    ensures { result ≡ count_ones (bit_and (bit_xor left right) mask) }
{
    ((left ^ right) & mask).count_ones()
}

// Returns the number of I bits in which two values differ.
#[tactic(auto, using(crate::proofs::Masks::i_mask))]
pub fn i_changes(left: u16, right: u16) -> u32
    ensures { result ≡ differing i_bits left right }
{
    differences(left, right, I_MASK)
}

// Returns the number of D bits in which two values differ.
#[tactic(auto, using(crate::proofs::Masks::d_mask))]
pub fn d_changes(left: u16, right: u16) -> u32
    ensures { result ≡ differing d_bits left right }
{
    differences(left, right, D_MASK)
}

// Returns the number of N bits in which a word differs from these.
#[tactic(auto, using(crate::proofs::Masks::n_mask))]
fn n_changes(word: u16, bits: u16) -> u32
    ensures { result ≡ differing n_bits (word / 4096) bits }
{
    differences(word / 4096, bits, N_MASK)
}

// Returns whether at most one of the N bits differs from 0110.
#[tactic(auto, unfolding(crate::specs::Words::is_normal))]
pub fn is_normal(word: Word) -> bool
    ensures { result ≡ is_normal word.0 }
{
    n_changes(word.0, NORMAL) <= 1
}

// Returns whether at most one of the N bits differs from 1001.
#[tactic(auto, unfolding(crate::specs::Words::is_enabled))]
pub fn is_enabled(word: Word) -> bool
    ensures { result ≡ is_enabled word.0 }
{
    n_changes(word.0, ENABLED) <= 1
}

/// Returns the word of a form with a value. SS is sent as 10. A word `Ais` carries no value.
#[tactic(auto, unfolding(crate::specs::Words::word_of))]
pub fn word_of(form: Form, value: u16) -> Word
    requires { value ≤ 782 }
    ensures { result.0 ≡ word_of form value }
{
    match form {
        Form::Normal => Word(0x6800 + value),
        Form::Enabled => Word(0x9800 + value),
        Form::Up => Word(0x6800 + (value ^ I_MASK)),
        Form::Down => Word(0x6800 + (value ^ D_MASK)),
        Form::Ais => Word(0xFFFF),
    }
}

/// Returns the word in the bytes H1 and H2.
pub fn read_word(bytes: &[u8]) -> Word
    requires { length bytes.now ≡ 2 }
    ensures word { result.0 ≡ word_in bytes.now }
    ensures writes_back { word_bytes result.0 ≡ bytes.now }
{
    Word(BigEndian::read_u16(bytes))
}

/// Writes the bytes H1 and H2 of a word.
pub fn write_word(word: Word, out: &mut [u8])
    requires { length out.old ≡ 2 }
    ensures bytes { out.new ≡ word_bytes word.0 }
    ensures reads_back { word_in out.new ≡ word.0 }
{
    BigEndian::write_u16(out, word.0);
}
