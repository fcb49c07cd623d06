//! Up to 64 bytes that are kept in place, without memory of their own.
ghost use Rattle.std.specs.Prelude.{◌≡◌, ◌≤◌, length};

use std::fmt;
use std::marker::Model;

/// The most bytes of a text or a trace.
const MOST: usize = 64;

/// The bytes of a text or a trace, at most 64.
#[derive(Drop)]
pub struct ShortText {
    bytes: [u8; MOST],
    len: usize,
}

impl Model for ShortText {
    ghost use Rattle.std.specs.Prelude.{ℕ, ◌≤◌, List, take};

    ghost Value = { List ℕ };

    ghost view = { λ t. take t.len t.bytes };

    ghost invariant = { λ t. t.len ≤ 64 };
}

impl fmt::Debug for ShortText {
    fn fmt<W: fmt::Write>(&self, f: &mut fmt::Formatter<W>) -> fmt::Result {
        write!(f, "\"{}\"", self.as_slice().escape_ascii())
    }
}

impl ShortText {
    /// Returns a copy of these bytes, at most 64.
    pub fn new(bytes: &[u8]) -> ShortText
        requires { length bytes.now ≤ 64 }
        ensures { result ≡ bytes.now }
    {
        let mut all = [0; MOST];
        all[..bytes.len()].copy_from_slice(bytes);
        ShortText {
            bytes: all,
            len: bytes.len(),
        }
    }

    /// Returns an equal text.
    pub fn copy(&self) -> ShortText
        ensures { result ≡ self.now }
    {
        ShortText {
            bytes: self.bytes,
            len: self.len,
        }
    }

    /// Returns the bytes, at most 64.
    pub fn as_slice(&self) -> &[u8]
        ensures bytes { result.now ≡ self.now }
        ensures few { length self.now ≤ 64 }
    {
        &self.bytes[..self.len]
    }
}
