//! Payloads that are taken out of a frame when they are asked for, those of half of the AU-4s at a time.
ghost use Rattle.std.specs.Prelude.{◌≡◌, ℕ, ◌+◌, ◌*◌, ◌-◌, ◌<◌, ◌≤◌, ◌⊎◌, true, false, IfOk, [], length, replicate, slice_index_or};
ghost use Rattle.sdh_ringmap.specs.Rates.{n_of};
ghost use Rattle.sdh_frame.specs.Aus.{payload_of};
ghost use Rattle.sdh_interchange.specs.Taking.{HaveRoom, none_taken, IsOf, has};

use crate::payloads::take;
use sdh_frame::FrameBuf;
use sdh_payload::Cells;
use std::alloc::{AllocError, Global};
use std::fmt;
use std::marker::Model;

/// The payloads of a frame that have been taken out of it and have not been given away since.
#[derive(Drop)]
pub struct Taken {
    half: usize,
    here: [bool; 16],
    payloads: Vec<Cells>,
}

impl Model for Taken {
    ghost use Rattle.std.specs.Prelude.{◌≡◌, ◌≤◌, length};
    ghost use Rattle.sdh_interchange.specs.Taking.{Held};

    ghost Value = { Held };

    ghost view = { λ t. record { half = t.half; here = t.here; payloads = t.payloads.items } };

    ghost invariant = { λ t. record {
      few : t.half ≤ 8;
      here : length t.here ≡ 16;
      payloads : length t.payloads.items ≡ 16;
    } };
}

impl fmt::Debug for Taken {
    fn fmt<W: fmt::Write>(&self, f: &mut fmt::Formatter<W>) -> fmt::Result {
        write!(f, "Taken({} in a half)", self.half)
    }
}

// Returns cells for sixteen payloads.
fn sixteen_cells(alloc: Global) -> Result<Vec<Cells>, AllocError>
    ensures { IfOk result (λ v. v.items ≡ replicate 16 []) }
{
    let mut cells = Vec::with_capacity(alloc, 16)?;
    'cells: for _cell in 0..16usize {
        cells.push(Cells::try_new(alloc)?)?;
    }
    Ok(cells)
}

// Makes room for a payload in each of `count` cells from a place on.
fn make_room(cells: &mut [Cells], from: usize, count: usize)
    requires { from + count ≤ length cells.old }
    ensures room { HaveRoom from count cells.new }
    ensures many { length cells.new ≡ length cells.old }
    ensures others { (a : ℕ) → (a < from) ⊎ (from + count ≤ a) → slice_index_or cells.new a [] ≡ slice_index_or cells.old a [] }
{
    for a in 0..count {
        let payload = &mut cells[from + a];
        payload.make_room(2349);
    }
}

// Sets `count` marks from a place on.
fn mark(here: &mut [bool], from: usize, count: usize)
    requires { from + count ≤ length here.old }
    ensures inside { (a : ℕ) → a < count → slice_index_or here.new (from + a) false ≡ true }
    ensures others { (a : ℕ) → (a < from) ⊎ (from + count ≤ a) → slice_index_or here.new a false ≡ slice_index_or here.old a false }
    ensures many { length here.new ≡ length here.old }
{
    for a in 0..count {
        here[from + a] = true;
    }
}

impl Taken {
    /// Returns a store that holds no payloads. It takes all its memory here, enough for either rate.
    pub fn try_new(alloc: Global) -> Result<Taken, AllocError>
        ensures { IfOk result (λ taken. taken ≡ none_taken) }
    {
        Ok(Taken {
            half: 0,
            here: [false; 16],
            payloads: sixteen_cells(alloc)?,
        })
    }

    /// Begins with a new frame, and holds none of its payloads yet.
    pub fn begin(&mut self, frame: &FrameBuf)
        ensures { IsOf frame.now self.new }
    {
        self.half = usize::from(frame.rate().half());
        self.here = [false; 16];
    }

    // Takes the payloads of half of the AU-4s, those after the first `base`.
    fn take(&mut self, frame: &FrameBuf, base: usize)
        requires held { IsOf frame.now self.old }
        requires base { (base ≡ 0) ⊎ (base ≡ self.old.half) }
        ensures held { IsOf frame.now self.new }
        ensures here { (au : ℕ) → base < au → au ≤ base + self.old.half → has self.new au ≡ true }
        ensures half { self.new.half ≡ self.old.half }
    {
        make_room(self.payloads.as_mut_slice(), base, self.half);
        take(
            frame.rate(),
            frame.bytes(),
            base,
            self.payloads.as_mut_slice(),
        );
        mark(&mut self.here, base, self.half);
    }

    // Takes the payload of an AU-4 out of the frame, with those of its half of the AU-4s, unless it is held already.
    fn provide(&mut self, frame: &FrameBuf, au: usize)
        requires held { IsOf frame.now self.old }
        requires first { 1 ≤ au }
        requires last { au ≤ 2 * self.old.half }
        ensures held { IsOf frame.now self.new }
        ensures here { has self.new au ≡ true }
        ensures half { self.new.half ≡ self.old.half }
    {
        if self.here[au - 1] {
            return;
        }
        let base = if au <= self.half { 0 } else { self.half };
        self.take(frame, base);
    }

    /// Gives the payload of an AU-4 of the frame, 1 to N, to `out` in place of its bytes, without a copy. Where the
    /// payload isn't held it is first taken out of the frame, with those of its half of the AU-4s. Afterwards it isn't
    /// held any more.
    pub fn give(&mut self, frame: &FrameBuf, au: u16, out: &mut Cells)
        requires held { IsOf frame.now self.old }
        requires first { 1 ≤ au }
        requires last { au ≤ n_of frame.now.rate }
        ensures held { IsOf frame.now self.new }
        ensures payload { out.new ≡ payload_of (n_of frame.now.rate) au frame.now.bytes }
        ensures full { length out.new ≡ 2349 }
    {
        let au = au as usize;
        self.provide(frame, au);
        std::mem::swap(&mut self.payloads[au - 1], out);
        self.here[au - 1] = false;
    }
}
