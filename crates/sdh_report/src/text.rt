//! A text with reserved room.
ghost use Rattle.std.specs.Prelude.{◌≡◌, ◌+◌, ◌-◌, ◌*◌, ◌<◌, ◌≤◌, [], length, decimal, false, IfOk, OnOk, OnErr};
ghost use Rattle.std.specs.Fmt.{digit_glyph};
ghost use Rattle.sdh_basics.specs.Hexadecimal.{hex_of};
ghost use Rattle.sdh_report.specs.Written.{Written, with_part};

use itoa::Buffer;
use std::alloc::{AllocError, Global};
use std::fmt;
use std::marker::Model;

/// Room for any one line, in bytes, except those of a delivered chunk and a line of the caller's own.
pub const LINE_MAX: usize = 96;

/// Room for the lines of a delivered chunk, in bytes: nine rows of 261 bytes, two digits each, with their newline
/// bytes.
pub const CHUNK_MAX: usize = 4707;

/// A list of bytes with reserved room. All its room is reserved when it is made, so appending takes no memory.
#[derive(Drop)]
pub struct Text {
    bytes: Vec<u8>,
    room: usize,
}

impl Model for Text {
    ghost use Rattle.std.specs.Prelude.{◌+◌, ◌≤◌, vec_len, vec_capacity};
    ghost use Rattle.sdh_report.specs.Written.{Written};

    ghost Value = { Written };

    ghost view = { λ t. record { bytes = t.bytes.items; room = t.room } };

    ghost invariant = { λ t. vec_len t.bytes + t.room ≤ vec_capacity t.bytes };
}

impl fmt::Debug for Text {
    fn fmt<W: fmt::Write>(&self, f: &mut fmt::Formatter<W>) -> fmt::Result {
        write!(
            f,
            "Text({} bytes, room for {})",
            self.bytes.len(),
            self.room
        )
    }
}

// Returns the hexadecimal digit of a number below 16, in lower case.
fn digit(value: u8) -> u8
    requires { value < 16 }
    ensures { result ≡ digit_glyph false value }
{
    if value < 10 {
        b'0' + value
    } else {
        b'a' - 10 + value
    }
}

impl Text {
    /// Returns an empty text with room for `room` bytes, or an error where memory runs out.
    pub fn try_new(alloc: Global, room: usize) -> Result<Text, AllocError>
        ensures { IfOk result (λ text. text ≡ record { bytes = []; room = room }) }
    {
        Ok(Text {
            bytes: Vec::with_capacity(alloc, room)?,
            room,
        })
    }

    /// Makes room for at least `room` bytes after those of the text. An error leaves the text as it was.
    pub fn make_room(&mut self, room: usize) -> Result<(), AllocError>
        ensures bytes { self.new.bytes ≡ self.old.bytes }
        ensures room { OnOk result (room ≤ self.new.room) }
        ensures err { OnErr result (self.new ≡ self.old) }
    {
        if self.room < room {
            self.bytes.reserve_exact(room)?;
            self.room = room;
        }
        Ok(())
    }

    /// Returns the number of bytes for which there is room left.
    pub fn room(&self) -> usize
        ensures { result ≡ self.now.room }
    {
        self.room
    }

    /// Returns the text so far.
    pub fn bytes(&self) -> &[u8]
        ensures { result.now ≡ self.now.bytes }
    {
        &self.bytes
    }

    /// Removes all bytes of the text, whose room is then free again.
    pub fn clear(&mut self)
        ensures { self.new ≡ record { bytes = []; room = self.old.room + length self.old.bytes } }
    {
        self.room += self.bytes.len();
        self.bytes.clear();
    }

    /// Appends a part of a line.
    pub fn put(&mut self, part: &[u8])
        requires { length part.now ≤ self.old.room }
        ensures { self.new ≡ with_part self.old part.now }
    {
        self.bytes.extend_from_slice(part).unwrap();
        self.room -= part.len();
    }

    /// Appends a number in decimal.
    pub fn put_number(&mut self, number: u64)
        requires { length (decimal number) ≤ self.old.room }
        ensures { self.new ≡ with_part self.old (decimal number) }
    {
        let mut buffer = Buffer::new();
        self.put(buffer.format(number).as_bytes());
    }

    /// Appends two hexadecimal digits for each byte.
    pub fn put_hex(&mut self, bytes: &[u8])
        requires { 2 * length bytes.now ≤ self.old.room }
        ensures { self.new ≡ with_part self.old (hex_of bytes.now) }
    {
        for byte in bytes {
            self.put(&[digit(*byte / 16), digit(*byte % 16)]);
        }
    }
}
