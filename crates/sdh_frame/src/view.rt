//! Views of the AU-4s of a frame, without a copy.
ghost use Rattle.std.specs.Prelude.{◌≡◌, ◌*◌, ◌-◌, ◌<◌, ◌≤◌, length, slice_index, slice_set, slice_range};
ghost use Rattle.std.specs.Borrow.{sem};
ghost use Rattle.sdh_frame.specs.Sizes.{size_of};
ghost use Rattle.sdh_ringmap.specs.Rates.{n_of};
ghost use Rattle.sdh_frame.specs.Lending.{LendsRow};
ghost use Rattle.sdh_frame.specs.Aus.{payload_of, pointers_of, with_payload, with_pointers, with_au, ones};

use crate::places::{payload_index, pointer_index};
use crate::{FrameBuf, Rate};

/// A view of an AU-4 of a frame for reading.
#[derive(Debug, Drop)]
pub struct AuView<'a> {
    frame: &'a FrameBuf,
    au: u16,
    ghost first: { 1 ≤ au },
    ghost last: { au ≤ n_of frame.now.rate },
}

/// A view of an AU-4 of a frame for writing.
#[derive(Debug, Drop)]
pub struct AuViewMut<'a> {
    frame: &'a mut FrameBuf,
    au: u16,
    ghost first: { 1 ≤ au },
    ghost last: { au ≤ n_of frame.now.rate },
}

#[tactic(auto, using(crate::proofs::Single::read_payload))]
fn payload_byte(rate: Rate, bytes: &[u8], au: u16, index: u16) -> u8
    requires size { length bytes.now ≡ size_of rate }
    requires first { 1 ≤ au }
    requires last { au ≤ n_of rate }
    requires index { index < 2349 }
    ensures { result ≡ slice_index (payload_of (n_of rate) au bytes.now) index }
{
    bytes[payload_index(rate, au, index)]
}

#[tactic(auto, using(crate::proofs::Single::read_pointer))]
fn pointer_byte(rate: Rate, bytes: &[u8], au: u16, index: u16) -> u8
    requires size { length bytes.now ≡ size_of rate }
    requires first { 1 ≤ au }
    requires last { au ≤ n_of rate }
    requires index { index < 9 }
    ensures { result ≡ slice_index (pointers_of (n_of rate) au bytes.now) index }
{
    bytes[pointer_index(rate, au, index)]
}

fn put_payload_byte(rate: Rate, bytes: &mut [u8], au: u16, index: u16, value: u8)
    requires size { length bytes.old ≡ size_of rate }
    requires first { 1 ≤ au }
    requires last { au ≤ n_of rate }
    requires index { index < 2349 }
    ensures { bytes.new ≡ with_payload (n_of rate) au (slice_set (payload_of (n_of rate) au bytes.old) index value) bytes.old }
{
    bytes[payload_index(rate, au, index)] = value;
}

fn put_pointer_byte(rate: Rate, bytes: &mut [u8], au: u16, index: u16, value: u8)
    requires size { length bytes.old ≡ size_of rate }
    requires first { 1 ≤ au }
    requires last { au ≤ n_of rate }
    requires index { index < 9 }
    ensures { bytes.new ≡ with_pointers (n_of rate) au (slice_set (pointers_of (n_of rate) au bytes.old) index value) bytes.old }
{
    bytes[pointer_index(rate, au, index)] = value;
}

// Copies the payload of AU-4 `au` of a frame to AU-4 `to` of another one, byte by byte: the frames may have different
// rates.
pub(crate) fn copy_across(frame: &mut FrameBuf, to: u16, from: &FrameBuf, au: u16)
    requires to_first { 1 ≤ to }
    requires to_last { to ≤ n_of frame.old.rate }
    requires first { 1 ≤ au }
    requires last { au ≤ n_of from.now.rate }
    ensures { frame.new ≡ record frame.old {
      bytes = with_payload (n_of frame.old.rate) to (payload_of (n_of from.now.rate) au from.now.bytes) frame.old.bytes;
    } }
{
    prove!(frame.bytes().len() == 2430 * frame.rate().n());
    for index in 0..2349 {
        let value = from.payload_at(au, index);
        frame.set_payload_at(to, index, value);
    }
}

impl FrameBuf {
    /// Returns a pointer byte of an AU-4, by its index 0 to 8.
    pub fn pointer(&self, au: u16, index: u16) -> u8
        requires first { 1 ≤ au }
        requires last { au ≤ n_of self.now.rate }
        requires index { index < 9 }
        ensures { result ≡ slice_index (pointers_of (n_of self.now.rate) au self.now.bytes) index }
    {
        pointer_byte(self.rate, self.bytes.as_slice(), au, index)
    }

    fn payload_at(&self, au: u16, index: u16) -> u8
        requires first { 1 ≤ au }
        requires last { au ≤ n_of self.now.rate }
        requires index { index < 2349 }
        ensures { result ≡ slice_index (payload_of (n_of self.now.rate) au self.now.bytes) index }
    {
        payload_byte(self.rate, self.bytes.as_slice(), au, index)
    }

    fn set_payload_at(&mut self, au: u16, index: u16, value: u8)
        requires first { 1 ≤ au }
        requires last { au ≤ n_of self.old.rate }
        requires index { index < 2349 }
        ensures { let n = n_of self.old.rate in self.new ≡ record self.old {
          bytes = with_payload n au (slice_set (payload_of n au self.old.bytes) index value) self.old.bytes;
        } }
    {
        put_payload_byte(self.rate, self.bytes.as_mut_slice(), au, index, value);
    }

    fn set_pointer_at(&mut self, au: u16, index: u16, value: u8)
        requires first { 1 ≤ au }
        requires last { au ≤ n_of self.old.rate }
        requires index { index < 9 }
        ensures { let n = n_of self.old.rate in self.new ≡ record self.old {
          bytes = with_pointers n au (slice_set (pointers_of n au self.old.bytes) index value) self.old.bytes;
        } }
    {
        put_pointer_byte(self.rate, self.bytes.as_mut_slice(), au, index, value);
    }

    /// Returns a view of an AU-4, 1 to N.
    pub fn au(&self, au: u16) -> AuView<'_>
        requires first { 1 ≤ au }
        requires last { au ≤ n_of self.now.rate }
        ensures frame { result.frame.now ≡ self.now }
        ensures au { result.au ≡ au }
    {
        AuView { frame: self, au }
    }

    /// Returns a view of an AU-4, 1 to N, for writing.
    pub fn au_mut(&mut self, au: u16) -> AuViewMut<'_>
        requires first { 1 ≤ au }
        requires last { au ≤ n_of self.old.rate }
        ensures same_reference { result.frame.ghost_name ≡ self.entry.ghost_name }
        ensures frame { result.frame.now ≡ self.old }
        ensures au { result.au ≡ au }
    {
        AuViewMut { frame: self, au }
    }

    /// Returns the 270 N bytes of a row, 1 to 9.
    pub fn row(&self, row: u16) -> &[u8]
        requires first { 1 ≤ row }
        requires last { row ≤ 9 }
        ensures row { let w = 270 * n_of self.now.rate in result.now ≡ slice_range self.now.bytes ((row - 1) * w) (row * w) }
        ensures len { length result.now ≡ 270 * n_of self.now.rate }
    {
        let width = 270 * self.rate.n();
        let row = row as usize;
        &self.bytes.as_slice()[(row - 1) * width..row * width]
    }

    /// Returns the 270 N bytes of a row, 1 to 9, for writing.
    pub fn row_mut(&mut self, row: u16) -> &mut [u8]
        requires first { 1 ≤ row }
        requires last { row ≤ 9 }
        ensures* lends { sem 𝓛 (LendsRow row self.entry result) }
        ensures row { let w = 270 * n_of self.old.rate in result.now ≡ slice_range self.old.bytes ((row - 1) * w) (row * w) }
        ensures len { length result.now ≡ 270 * n_of self.old.rate }
    {
        let width = 270 * self.rate.n();
        let row = row as usize;
        self.bytes.slice_mut((row - 1) * width..row * width)
    }
}

impl<'a> AuView<'a> {
    /// Returns a payload byte, by its index 0 to 2348.
    pub fn payload(&self, index: u16) -> u8
        requires { index < 2349 }
        ensures { result ≡ slice_index (payload_of (n_of self.now.frame.now.rate) self.now.au self.now.frame.now.bytes) index }
    {
        self.frame.payload_at(self.au, index)
    }

    /// Returns a pointer byte, by its index 0 to 8.
    pub fn pointer(&self, index: u16) -> u8
        requires { index < 9 }
        ensures { result ≡ slice_index (pointers_of (n_of self.now.frame.now.rate) self.now.au self.now.frame.now.bytes) index }
    {
        self.frame.pointer(self.au, index)
    }
}

impl<'a> AuViewMut<'a> {
    /// Returns a payload byte, by its index 0 to 2348.
    pub fn payload(&self, index: u16) -> u8
        requires { index < 2349 }
        ensures { result ≡ slice_index (payload_of (n_of self.now.frame.now.rate) self.now.au self.now.frame.now.bytes) index }
    {
        self.frame.payload_at(self.au, index)
    }

    /// Returns a pointer byte, by its index 0 to 8.
    pub fn pointer(&self, index: u16) -> u8
        requires { index < 9 }
        ensures { result ≡ slice_index (pointers_of (n_of self.now.frame.now.rate) self.now.au self.now.frame.now.bytes) index }
    {
        self.frame.pointer(self.au, index)
    }

    /// Writes a payload byte, by its index 0 to 2348.
    pub fn set_payload(&mut self, index: u16, value: u8)
        requires { index < 2349 }
        ensures same_reference { self.new.frame.ghost_name ≡ self.old.frame.ghost_name }
        ensures au { self.new.au ≡ self.old.au }
        ensures frame { let f = self.old.frame.now in let n = n_of f.rate in self.new.frame.now ≡ record f {
          bytes = with_payload n self.old.au (slice_set (payload_of n self.old.au f.bytes) index value) f.bytes;
        } }
    {
        let au = self.au;
        self.frame.set_payload_at(au, index, value);
    }

    /// Writes a pointer byte, by its index 0 to 8.
    pub fn set_pointer(&mut self, index: u16, value: u8)
        requires { index < 9 }
        ensures same_reference { self.new.frame.ghost_name ≡ self.old.frame.ghost_name }
        ensures au { self.new.au ≡ self.old.au }
        ensures frame { let f = self.old.frame.now in let n = n_of f.rate in self.new.frame.now ≡ record f {
          bytes = with_pointers n self.old.au (slice_set (pointers_of n self.old.au f.bytes) index value) f.bytes;
        } }
    {
        let au = self.au;
        self.frame.set_pointer_at(au, index, value);
    }

    /// Copies the payload of another AU-4. Its frame may have another rate.
    pub fn copy_payload(&mut self, from: &AuView<'_>)
        ensures same_reference { self.new.frame.ghost_name ≡ self.old.frame.ghost_name }
        ensures au { self.new.au ≡ self.old.au }
        ensures frame { let f = self.old.frame.now in let n = n_of f.rate in self.new.frame.now ≡ record f {
          bytes = with_payload n self.old.au (payload_of (n_of from.now.frame.now.rate) from.now.au from.now.frame.now.bytes) f.bytes;
        } }
    {
        let au = self.au;
        self.frame.copy_payload(au, from.frame, from.au);
    }

    /// Sets all bytes of the AU-4 to ones, as AU-AIS (ITU-T G.707).
    pub fn fill_ones(&mut self)
        ensures same_reference { self.new.frame.ghost_name ≡ self.old.frame.ghost_name }
        ensures au { self.new.au ≡ self.old.au }
        ensures frame { let f = self.old.frame.now in
            self.new.frame.now ≡ record f { bytes = with_au (n_of f.rate) self.old.au ones f.bytes } }
    {
        let au = self.au;
        self.frame.fill_ones(au);
    }
}
