//! The AU-4s of a frame, written in place. Each loop is compiled once for each rate, with N as a constant.
ghost use Rattle.std.specs.Prelude.{◌≡◌, ◌+◌, ◌*◌, ◌-◌, ◌/◌, ◌%◌, ◌<◌, ◌≤◌, ◌⊎◌, length, slice_index, replicate};
ghost use Rattle.sdh_frame.specs.Sizes.{size_of};
ghost use Rattle.sdh_ringmap.specs.Rates.{n_of};
ghost use Rattle.sdh_frame.specs.Columns.{HasWritten};
ghost use Rattle.sdh_frame.specs.Aus.{payload_of, with_payload, with_pointers, with_au, ones, is_payload, is_pointer};

use crate::places::byte_of;
use crate::view::copy_across;
use crate::{FrameBuf, Rate};

// Copies row r of the payload of an AU-4 of another frame to an AU-4 of this frame.
#[inline(always)]
fn copy_row<const N: usize>(bytes: &mut [u8], to: usize, source: &[u8], from: usize, r: usize)
    requires rate { (N ≡ 4) ⊎ (N ≡ 16) }
    requires size { length bytes.old ≡ 2430 * N }
    requires source_size { length source.now ≡ 2430 * N }
    requires to_low { 1 ≤ to }
    requires to_high { to ≤ N }
    requires from_low { 1 ≤ from }
    requires from_high { from ≤ N }
    requires row { r < 9 }
    ensures { HasWritten N (270 * r) (270 * r + 270) (is_payload N to) (λ i. slice_index source.now (i - to + from)) bytes.old bytes.new }
{
    for column in 270 * r + 9..270 * r + 270 {
        let i = byte_of::<N>(column) - 1;
        bytes[i + to] = source[i + from];
    }
}

// Sets row r of the payload of an AU-4 to ones.
#[inline(always)]
fn fill_row<const N: usize>(bytes: &mut [u8], au: usize, r: usize)
    requires rate { (N ≡ 4) ⊎ (N ≡ 16) }
    requires size { length bytes.old ≡ 2430 * N }
    requires low { 1 ≤ au }
    requires high { au ≤ N }
    requires row { r < 9 }
    ensures { HasWritten N (270 * r) (270 * r + 270) (is_payload N au) (λ i. 0xFF) bytes.old bytes.new }
{
    for column in 270 * r + 9..270 * r + 270 {
        let i = byte_of::<N>(column) - 1;
        bytes[i + au] = 0xFF;
    }
}

// Copies all rows of the payload of an AU-4 of another frame to an AU-4 of this frame.
#[inline(always)]
fn copy_rows<const N: usize>(bytes: &mut [u8], to: usize, source: &[u8], from: usize)
    requires rate { (N ≡ 4) ⊎ (N ≡ 16) }
    requires size { length bytes.old ≡ 2430 * N }
    requires source_size { length source.now ≡ 2430 * N }
    requires to_low { 1 ≤ to }
    requires to_high { to ≤ N }
    requires from_low { 1 ≤ from }
    requires from_high { from ≤ N }
    ensures { HasWritten N 0 2430 (is_payload N to) (λ i. slice_index source.now (i - to + from)) bytes.old bytes.new }
{
    for r in 0..9 {
        copy_row::<N>(bytes, to, source, from, r);
    }
}

#[inline(always)]
fn fill_rows<const N: usize>(bytes: &mut [u8], au: usize)
    requires rate { (N ≡ 4) ⊎ (N ≡ 16) }
    requires size { length bytes.old ≡ 2430 * N }
    requires low { 1 ≤ au }
    requires high { au ≤ N }
    ensures { HasWritten N 0 2430 (is_payload N au) (λ i. 0xFF) bytes.old bytes.new }
{
    for r in 0..9 {
        fill_row::<N>(bytes, au, r);
    }
}

// Sets the pointer bytes of an AU-4.
#[inline(always)]
fn put_pointer<const N: usize>(bytes: &mut [u8], au: usize, pointers: &[u8])
    requires rate { (N ≡ 4) ⊎ (N ≡ 16) }
    requires size { length bytes.old ≡ 2430 * N }
    requires pointers { length pointers.now ≡ 9 }
    requires low { 1 ≤ au }
    requires high { au ≤ N }
    ensures { HasWritten N 0 2430 (is_pointer N au) (λ i. slice_index pointers.now (i % (270 * N) / N)) bytes.old bytes.new }
{
    for p in 0..9 {
        let i = byte_of::<N>(810 + p) - 1;
        bytes[i + au] = pointers[p];
    }
}

// Copies the payload of AU-4 `from` of `source` to AU-4 `to`, by the code that is compiled for the rate.
fn copy(rate: Rate, bytes: &mut [u8], to: usize, source: &[u8], from: usize)
    requires size { length bytes.old ≡ size_of rate }
    requires source_size { length source.now ≡ size_of rate }
    requires to_low { 1 ≤ to }
    requires to_high { to ≤ n_of rate }
    requires from_low { 1 ≤ from }
    requires from_high { from ≤ n_of rate }
    ensures { bytes.new ≡ with_payload (n_of rate) to (payload_of (n_of rate) from source.now) bytes.old }
{
    match rate {
        Rate::Four => copy_rows::<4>(bytes, to, source, from),
        Rate::Sixteen => copy_rows::<16>(bytes, to, source, from),
    }
}

fn fill(rate: Rate, bytes: &mut [u8], au: usize)
    requires size { length bytes.old ≡ size_of rate }
    requires low { 1 ≤ au }
    requires high { au ≤ n_of rate }
    ensures { bytes.new ≡ with_payload (n_of rate) au (replicate 2349 0xFF) bytes.old }
{
    match rate {
        Rate::Four => fill_rows::<4>(bytes, au),
        Rate::Sixteen => fill_rows::<16>(bytes, au),
    }
}

fn point(rate: Rate, bytes: &mut [u8], au: usize, pointers: &[u8])
    requires size { length bytes.old ≡ size_of rate }
    requires pointers { length pointers.now ≡ 9 }
    requires low { 1 ≤ au }
    requires high { au ≤ n_of rate }
    ensures { bytes.new ≡ with_pointers (n_of rate) au pointers.now bytes.old }
{
    match rate {
        Rate::Four => put_pointer::<4>(bytes, au, pointers),
        Rate::Sixteen => put_pointer::<16>(bytes, au, pointers),
    }
}

impl FrameBuf {
    /// Copies the payload of AU-4 `au` of another frame to AU-4 `to`, each 1 to the N of its frame. The frames may
    /// have different rates.
    pub fn copy_payload(&mut self, to: u16, from: &FrameBuf, au: u16)
        requires to_first { 1 ≤ to }
        requires to_last { to ≤ n_of self.old.rate }
        requires first { 1 ≤ au }
        requires last { au ≤ n_of from.now.rate }
        ensures { self.new ≡ record self.old {
          bytes = with_payload (n_of self.old.rate) to (payload_of (n_of from.now.rate) au from.now.bytes) self.old.bytes;
        } }
    {
        if self.rate == from.rate {
            copy(
                self.rate,
                self.bytes.as_mut_slice(),
                to as usize,
                from.bytes.as_slice(),
                au as usize,
            );
        } else {
            copy_across(self, to, from, au);
        }
    }

    /// Writes the nine pointer bytes of an AU-4.
    pub fn put_pointers(&mut self, au: u16, pointers: &[u8])
        requires first { 1 ≤ au }
        requires last { au ≤ n_of self.old.rate }
        requires pointers { length pointers.now ≡ 9 }
        ensures { self.new ≡ record self.old { bytes = with_pointers (n_of self.old.rate) au pointers.now self.old.bytes } }
    {
        point(self.rate, self.bytes.as_mut_slice(), au as usize, pointers);
    }

    /// Sets all bytes of an AU-4 to ones, as AU-AIS (ITU-T G.707).
    #[tactic(auto, unfolding(crate::specs::Aus::with_au))]
    pub fn fill_ones(&mut self, au: u16)
        requires first { 1 ≤ au }
        requires last { au ≤ n_of self.old.rate }
        ensures { self.new ≡ record self.old { bytes = with_au (n_of self.old.rate) au ones self.old.bytes } }
    {
        fill(self.rate, self.bytes.as_mut_slice(), au as usize);
        self.put_pointers(au, &[0xFF; 9]);
    }
}
