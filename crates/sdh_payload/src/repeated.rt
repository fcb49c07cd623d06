//! A text that is repeated for more than a row of a VC-4.
ghost use Rattle.std.specs.Prelude.{◌≡◌, ◌+◌, ◌%◌, ◌<◌, ◌≤◌, length};
ghost use Rattle.sdh_basics.specs.Parity.{bip8};
ghost use Rattle.sdh_payload.specs.Walk.{repeated_from, AreFrontParities};

use std::fmt;
use std::marker::Model;

/// The number of text bytes in a row of a VC-4, which has 261 columns: all but the first.
pub const ROW: usize = 260;

/// The number of bytes that are kept: enough for a row from any place in the longest text, 64 bytes.
const ROOM: usize = 64 + ROW;

/// A text of 1 to 64 bytes, kept repeated. So the text bytes of a row are contiguous in it, at whatever place of the
/// text the row begins. Their parity follows from two stored ones, without a loop over the bytes.
#[derive(Drop)]
pub struct Repeated {
    bytes: [u8; ROOM],
    // The BIP-8 of the first bytes: of none, of one and so on.
    parities: [u8; ROOM + 1],
    len: usize,
    // The place after a row from place 0 on.
    after_row: usize,
}

impl Model for Repeated {
    ghost use Rattle.std.specs.Prelude.{◌≡◌, ◌%◌, ℕ, List, take};
    ghost use Rattle.sdh_payload.specs.Walk.{Repeats, AreFrontParities};

    ghost Value = { List ℕ };

    ghost view = { λ r. take r.len r.bytes };

    ghost invariant = { λ r. record {
      repeats : Repeats r.len r.bytes;
      parities : AreFrontParities r.bytes r.parities;
      after_row : r.after_row ≡ 260 % r.len;
    } };
}

impl fmt::Debug for Repeated {
    fn fmt<W: fmt::Write>(&self, f: &mut fmt::Formatter<W>) -> fmt::Result {
        write!(f, "Repeated({} bytes)", self.len)
    }
}

// Returns the BIP-8 of the first bytes: of none, of one and so on, up to all.
fn front_parities(bytes: &[u8; ROOM]) -> [u8; ROOM + 1]
    requires { length bytes.now ≡ 324 }
    ensures { AreFrontParities bytes.now result }
{
    let mut parities = [0; ROOM + 1];
    for i in 0..ROOM {
        parities[i + 1] = parities[i] ^ bytes[i];
    }
    parities
}

impl Repeated {
    /// Returns this text, repeated. It has 1 to 64 bytes.
    pub fn new(text: &[u8]) -> Repeated
        requires some { 0 < length text.now }
        requires few { length text.now ≤ 64 }
        ensures { result ≡ text.now }
    {
        let len = text.len();
        let mut bytes = [0; ROOM];
        for i in 0..ROOM {
            bytes[i] = text[i % len];
        }
        let parities = front_parities(&bytes);
        Repeated {
            bytes,
            parities,
            len,
            after_row: ROW % len,
        }
    }

    /// Returns the number of bytes of the text, 1 to 64.
    pub fn len(&self) -> usize
        ensures len { result ≡ length self.now }
        ensures some { 0 < result }
        ensures few { result ≤ 64 }
    {
        self.len
    }

    /// Returns `count` bytes, at most 260, of the repeated text from a place in the text on.
    pub fn from(&self, place: usize, count: usize) -> &[u8]
        requires place { place < length self.now }
        requires count { count ≤ 260 }
        ensures bytes { result.now ≡ repeated_from self.now place count }
        ensures count { length result.now ≡ count }
    {
        let rest = &self.bytes[place..];
        &rest[..count]
    }

    /// Returns the BIP-8 of the `count` bytes from a place in the text on.
    pub fn parity(&self, place: usize, count: usize) -> u8
        requires place { place < length self.now }
        requires count { count ≤ 260 }
        ensures { result ≡ bip8 (repeated_from self.now place count) }
    {
        self.parities[place] ^ self.parities[place + count]
    }

    /// Returns the place in the text after the `count` bytes from a place on.
    pub fn behind(&self, place: usize, count: usize) -> usize
        requires place { place < length self.now }
        requires count { count ≤ 260 }
        ensures { result ≡ (place + count) % length self.now }
    {
        if count < ROW {
            return (place + count) % self.len;
        }
        let next = place + self.after_row;
        if next < self.len {
            next
        } else {
            next - self.len
        }
    }
}
