//! An STM-N frame in memory (ITU-T G.707): its places, its fields and its AU-4s.
#![tactic(auto)]

mod au;
mod landing;
mod laws;
mod places;
mod view;

ghost use Rattle.std.specs.Prelude.{◌≡◌, ◌*◌, ◌-◌, ◌<◌, ◌≤◌, length, slice_index, slice_set, replicate, IfOk};
ghost use Rattle.std.specs.Borrow.{sem};
ghost use Rattle.sdh_frame.specs.Sizes.{size_of};
ghost use Rattle.sdh_ringmap.specs.Rates.{n_of};
ghost use Rattle.sdh_frame.specs.Fields.{index_of};
ghost use Rattle.sdh_frame.specs.Lending.{LendsBytes};

pub use landing::Landing;
pub use laws::{
    payload_places_have_one_index, pointer_places_have_one_index, writing_all_aus_keeps_overhead,
    writing_an_au_keeps_the_rest, writing_one_list_writes_the_au,
};
use places::index_in;
pub use places::{au_place, place_of, pointer_place};
pub use sdh_ringmap::Rate;
use std::alloc::{AllocError, Global};
use std::fmt;
use std::marker::Model;
pub use view::{AuView, AuViewMut};

/// A place in a frame: row 1 to 9 and column 1 to 270N.
#[derive(Clone, Copy, Debug, PartialEq, Eq)]
pub struct Place {
    pub row: u16,
    pub column: u16,
}

/// What a place of a frame holds.
#[derive(Clone, Copy, Debug, PartialEq, Eq)]
pub enum Field {
    /// The first 3N bytes of the frame.
    A1,
    /// The 3N bytes after them.
    A2,
    J0,
    /// The other unscrambled bytes of row 1.
    Fixed,
    B1,
    /// A byte of the BIP-24N, by its number, 0 to 3N - 1.
    B2(u16),
    K1,
    K2,
    /// Section overhead that is not used here: it is sent as 0, and read only for the parities.
    Unused,
    /// A pointer byte: the AU-4, 1 to N, and the place in its pointer, 0 to 8.
    Pointer(u16, u16),
    /// A payload byte of this AU-4, 1 to N.
    Payload(u16),
}

/// The bytes of one frame, row by row: 9 rows of 270 N.
#[derive(Drop)]
pub struct FrameBuf {
    rate: Rate,
    bytes: Vec<u8>,
}

impl Model for FrameBuf {
    ghost use Rattle.std.specs.Prelude.{◌≡◌, length};
    ghost use Rattle.sdh_frame.specs.Sizes.{Frame, size_of};

    ghost Value = { Frame };

    ghost view = { λ a. record { rate = a.rate; bytes = a.bytes.items } };

    ghost invariant = { λ a. length a.bytes.items ≡ size_of a.rate };
}

impl fmt::Debug for FrameBuf {
    fn fmt<W: fmt::Write>(&self, f: &mut fmt::Formatter<W>) -> fmt::Result {
        write!(f, "FrameBuf({:?}, {} bytes)", self.rate, self.bytes.len())
    }
}

impl FrameBuf {
    /// Returns a frame of zeros. It takes all its memory here.
    pub fn try_new(alloc: Global, rate: Rate) -> Result<FrameBuf, AllocError>
        ensures rate { IfOk result (λ f. f.rate ≡ rate) }
        ensures bytes { IfOk result (λ f. f.bytes ≡ replicate (size_of rate) 0) }
    {
        let bytes = vec![in alloc; 0; 2430 * rate.n()]?;
        Ok(FrameBuf { rate, bytes })
    }

    /// Returns the frame's rate.
    pub fn rate(&self) -> Rate
        ensures rate { result ≡ self.now.rate }
        ensures len { length self.now.bytes ≡ size_of self.now.rate }
    {
        self.rate
    }

    /// Returns the byte at a place.
    pub fn get(&self, place: Place) -> u8
        requires row { 1 ≤ place.row }
        requires rows { place.row ≤ 9 }
        requires column { 1 ≤ place.column }
        requires columns { place.column ≤ 270 * n_of self.now.rate }
        ensures { result ≡ slice_index self.now.bytes (index_of (n_of self.now.rate) place) }
    {
        self.bytes[index_in(self.rate, place)]
    }

    /// Writes the byte at a place.
    pub fn set(&mut self, place: Place, value: u8)
        requires row { 1 ≤ place.row }
        requires rows { place.row ≤ 9 }
        requires column { 1 ≤ place.column }
        requires columns { place.column ≤ 270 * n_of self.old.rate }
        ensures { self.new ≡ record self.old { bytes = slice_set self.old.bytes (index_of (n_of self.old.rate) place) value } }
    {
        let at = index_in(self.rate, place);
        self.bytes[at] = value;
    }

    /// Returns all bytes, row by row: 2430 N of them.
    pub fn bytes(&self) -> &[u8]
        ensures bytes { result.now ≡ self.now.bytes }
        ensures len { length self.now.bytes ≡ size_of self.now.rate }
    {
        self.bytes.as_slice()
    }

    /// Returns all bytes for writing, row by row.
    pub fn bytes_mut(&mut self) -> &mut [u8]
        ensures* lends { sem 𝓛 (LendsBytes self.entry result) }
        ensures bytes { result.now ≡ self.old.bytes }
        ensures len { length result.now ≡ size_of self.old.rate }
    {
        self.bytes.as_mut_slice()
    }

    /// Copies all bytes of another frame of the same rate.
    pub fn copy_from(&mut self, other: &FrameBuf)
        requires { other.now.rate ≡ self.old.rate }
        ensures { self.new ≡ other.now }
    {
        self.bytes
            .as_mut_slice()
            .copy_from_slice(other.bytes.as_slice());
    }

    /// Sets every byte to one value.
    pub fn fill(&mut self, value: u8)
        ensures { self.new ≡ record self.old { bytes = replicate (size_of self.old.rate) value } }
    {
        self.bytes.as_mut_slice().fill(value);
    }
}
