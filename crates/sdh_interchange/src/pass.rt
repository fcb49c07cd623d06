//! All AU-4s of a frame in one pass over its columns.
ghost use Rattle.std.specs.Prelude.{◌≡◌, ◌≢◌, ℕ, List, ◌+◌, ◌*◌, ◌/◌, ◌%◌, ◌<◌, ◌≤◌, ◌⊎◌, true, false, length, slice_index, slice_index_or};
ghost use Rattle.std.specs.Prelude.{if◌then◌else◌};
ghost use Rattle.sdh_interchange.specs.declared.choose.Source.{Source};
ghost use Rattle.sdh_interchange.specs.declared.choose.Source.TheVariants.{Ones};
ghost use Rattle.sdh_interchange.specs.Choosing.{own_byte, is_au_byte};
ghost use Rattle.sdh_interchange.specs.Lanes.{AreLanes, AreExtra, ArePicked, IsPlain};
ghost use Rattle.sdh_interchange.specs.Passes.{IsPass, byte_by_source, HasPassed, AreColumns};

use crate::choose::Source;
use crate::columns::{byte_of, columns4, columns16};
use crate::lanes::Lanes;
use crate::own::Payloads;
use crate::payloads::put;
use std::simd::prelude::*;

/// What the AU-4s of a frame come from: two other frames, and payloads of a node's own ports.
#[derive(Drop)]
pub(crate) struct Inputs<'a> {
    pub(crate) first: &'a [u8],
    pub(crate) second: &'a [u8],
    pub(crate) own: &'a Payloads<'a>,
}

/// What a pass over a row of a frame of N AU-4s reads: its inputs, the source of each AU-4, and what was derived from
/// the sources. `passed` says whether an AU-4 comes from one of the two frames, and `owned` whether one has an own
/// payload.
#[derive(Drop)]
pub(crate) struct Pass<'a, const N: usize> {
    pub(crate) inputs: &'a Inputs<'a>,
    pub(crate) sources: &'a [Source],
    pub(crate) lanes: &'a Lanes,
    pub(crate) passed: bool,
    pub(crate) owned: bool,
}

// Returns the sixteen bytes from `at` on: the bytes that these lanes read in two frames, with the bits of `extra` set
// too.
#[inline(always)]
fn merged(first: &[u8], second: &[u8], at: usize, lanes: &Lanes, extra: u8x16) -> u8x16
    requires first { at + 16 ≤ length first.now }
    requires second { at + 16 ≤ length second.now }
    requires lanes { (n : ℕ) × ((sources : List Source) × AreLanes n sources lanes.now) }
    requires extra { length extra ≡ 16 }
    ensures { (n : ℕ) (sources : List Source) (own : List (List ℕ)) → (n ≡ 4) ⊎ (n ≡ 16) → at % n ≡ 0 → AreLanes n sources lanes.now
        → AreExtra n sources own at extra → ArePicked n sources first.now second.now own at result }
{
    let from_first = u8x16::from_slice(&first[at..]).swizzle_dyn(u8x16::from_array(lanes.first));
    let from_second = u8x16::from_slice(&second[at..]).swizzle_dyn(u8x16::from_array(lanes.second));
    from_first | from_second | extra
}

// `READS` says whether the two frames are read. They have to be read where an AU-4 comes from one of them.
impl<'a, const N: usize> Pass<'a, N> {
    // Writes the sixteen bytes from `at` on: the bytes that the lanes read in the two frames, with the bits of `extra`
    // set too.
    #[inline(always)]
    fn store<const READS: bool>(&self, bytes: &mut [u8], at: usize, extra: u8x16)
        requires pass { IsPass N self.now }
        requires reads { (READS ≡ true) ⊎ (self.now.passed ≡ false) }
        requires size { length bytes.old ≡ 2430 * N }
        requires whole { at % N ≡ 0 }
        requires room { at + 16 ≤ length bytes.old }
        requires extra { AreExtra N self.now.sources.now self.now.inputs.now.own.now at extra }
        ensures { HasPassed N self.now at (at + 16) bytes.old bytes.new }
    {
        if READS {
            let (first, second) = (self.inputs.first, self.inputs.second);
            let all = merged(first, second, at, self.lanes, extra);
            put(bytes, at, all);
        } else {
            put(bytes, at, extra);
        }
    }

    // Returns what the sixteen bytes from `at` on get besides the bytes of the two frames. `column` has the bytes of
    // the own payloads there. Where no frame is read, each lane without an own payload is ones.
    #[inline(always)]
    fn extra<const READS: bool>(&self, at: usize, column: u8x16) -> u8x16
        requires pass { IsPass N self.now }
        requires reads { (READS ≡ true) ⊎ (self.now.passed ≡ false) }
        requires whole { at % N ≡ 0 }
        requires long { length column ≡ 16 }
        requires column { (j : ℕ) → j < 16 → j % N < self.now.lanes.now.upto
            → slice_index column j ≡ own_byte N self.now.inputs.now.own.now (at + j) }
        ensures { AreExtra N self.now.sources.now self.now.inputs.now.own.now at result }
    {
        let lanes = self.lanes;
        if READS {
            return (column & u8x16::from_array(lanes.own)) | u8x16::from_array(lanes.more);
        }
        column | u8x16::from_array(lanes.more)
    }

    // Writes the bytes from `from` on and before `to`. Each byte of an own payload there has to be zero.
    fn plain<const READS: bool>(&self, bytes: &mut [u8], from: usize, to: usize)
        requires pass { IsPass N self.now }
        requires reads { (READS ≡ true) ⊎ (self.now.passed ≡ false) }
        requires size { length bytes.old ≡ 2430 * N }
        requires start { from % N ≡ 0 }
        requires end { to % N ≡ 0 }
        requires some { from + 16 ≤ to }
        requires room { to ≤ length bytes.old }
        requires plain { (i : ℕ) → from ≤ i → i < to
            → IsPlain N (slice_index_or self.now.sources.now (i % N) Ones) self.now.inputs.now.own.now i }
        ensures { HasPassed N self.now from to bytes.old bytes.new }
    {
        let more = u8x16::from_array(self.lanes.more);
        for b in 0..(to - from) / 16 {
            self.store::<READS>(bytes, from + b * 16, more);
        }
        self.store::<READS>(bytes, to - 16, more);
    }

    // Writes sixteen columns from byte `at` on. The vectors `columns` have the bytes of the own payloads there.
    #[inline(always)]
    fn put<const READS: bool>(&self, bytes: &mut [u8], at: usize, columns: &[u8x16])
        requires pass { IsPass N self.now }
        requires reads { (READS ≡ true) ⊎ (self.now.passed ≡ false) }
        requires size { length bytes.old ≡ 2430 * N }
        requires whole { at % N ≡ 0 }
        requires room { at + 16 * N ≤ length bytes.old }
        requires columns { AreColumns N self.now.lanes.now.upto self.now.inputs.now.own.now at columns.now }
        ensures { HasPassed N self.now at (at + 16 * N) bytes.old bytes.new }
    {
        for k in 0..N {
            let here = at + 16 * k;
            let extra = self.extra::<READS>(here, columns[k]);
            self.store::<READS>(bytes, here, extra);
        }
    }

    // Writes sixteen columns of row r, from payload column c on.
    #[inline(always)]
    fn block<const READS: bool>(&self, bytes: &mut [u8], r: usize, c: usize)
        requires pass { IsPass N self.now }
        requires reads { (READS ≡ true) ⊎ (self.now.passed ≡ false) }
        requires size { length bytes.old ≡ 2430 * N }
        requires row { r < 9 }
        requires column { c ≤ 245 }
        ensures { HasPassed N self.now (N * (270 * r + (9 + c))) (N * (270 * r + (25 + c))) bytes.old bytes.new }
    {
        let at = byte_of::<N>(270 * r + (9 + c));
        let (own, upto) = (self.inputs.own, self.lanes.upto);
        if N == 4 {
            let columns = columns4(own, 261 * r + c, upto);
            self.put::<READS>(bytes, at, &columns);
        } else {
            let columns = columns16(own, 261 * r + c, upto);
            self.put::<READS>(bytes, at, &columns);
        }
    }

    // Writes row r of the payloads, where some of them are own payloads.
    #[inline(always)]
    fn blocks<const READS: bool>(&self, bytes: &mut [u8], r: usize)
        requires pass { IsPass N self.now }
        requires reads { (READS ≡ true) ⊎ (self.now.passed ≡ false) }
        requires size { length bytes.old ≡ 2430 * N }
        requires row { r < 9 }
        ensures { HasPassed N self.now (N * (270 * r + 9)) (N * (270 * r + 270)) bytes.old bytes.new }
    {
        for b in 0..16 {
            self.block::<READS>(bytes, r, 16 * b);
        }
        self.block::<READS>(bytes, r, 245);
    }

    // Writes row r of the payloads as `blocks` does, from a local copy of what is read for each block. Since nothing
    // else refers to the copy, the compiler need not read it again after each write to the frame.
    fn copied_blocks<const READS: bool>(&self, bytes: &mut [u8], r: usize)
        requires pass { IsPass N self.now }
        requires reads { (READS ≡ true) ⊎ (self.now.passed ≡ false) }
        requires size { length bytes.old ≡ 2430 * N }
        requires row { r < 9 }
        ensures { HasPassed N self.now (N * (270 * r + 9)) (N * (270 * r + 270)) bytes.old bytes.new }
    {
        let (own, lanes) = (self.inputs.own.same(), *self.lanes);
        let inputs = Inputs {
            first: self.inputs.first,
            second: self.inputs.second,
            own: &own,
        };
        let pass: Pass<'_, N> = Pass {
            inputs: &inputs,
            sources: self.sources,
            lanes: &lanes,
            passed: self.passed,
            owned: self.owned,
        };
        pass.blocks::<READS>(bytes, r);
    }

    // Writes row r of the payloads.
    fn row<const READS: bool>(&self, bytes: &mut [u8], r: usize)
        requires pass { IsPass N self.now }
        requires reads { (READS ≡ true) ⊎ (self.now.passed ≡ false) }
        requires size { length bytes.old ≡ 2430 * N }
        requires row { r < 9 }
        ensures { HasPassed N self.now (N * (270 * r + 9)) (N * (270 * r + 270)) bytes.old bytes.new }
    {
        if self.owned {
            self.copied_blocks::<READS>(bytes, r);
        } else {
            let from = byte_of::<N>(270 * r + 9);
            let to = byte_of::<N>(270 * r + 270);
            self.plain::<READS>(bytes, from, to);
        }
    }

    // Writes row r of the payloads. It reads the two frames only where an AU-4 comes from one of them.
    fn any_row(&self, bytes: &mut [u8], r: usize)
        requires pass { IsPass N self.now }
        requires size { length bytes.old ≡ 2430 * N }
        requires row { r < 9 }
        ensures { HasPassed N self.now (N * (270 * r + 9)) (N * (270 * r + 270)) bytes.old bytes.new }
    {
        if self.passed {
            self.row::<true>(bytes, r);
        } else {
            self.row::<false>(bytes, r);
        }
    }

    // Writes the pointer bytes, which are in row 3, counted from 0.
    fn pointers(&self, bytes: &mut [u8])
        requires pass { IsPass N self.now }
        requires size { length bytes.old ≡ 2430 * N }
        ensures { HasPassed N self.now (N * 810) (N * 819) bytes.old bytes.new }
    {
        let from = byte_of::<N>(810);
        let to = byte_of::<N>(819);
        self.plain::<true>(bytes, from, to);
    }

    // Writes row r of all AU-4s, counted from 0, and in row 3 the pointer bytes too.
    fn choose_row(&self, bytes: &mut [u8], r: usize)
        requires pass { IsPass N self.now }
        requires size { length bytes.old ≡ 2430 * N }
        requires row { r < 9 }
        ensures here { (i : ℕ) → i < 2430 * N → i / (270 * N) ≡ r
            → slice_index bytes.new i ≡ (if is_au_byte N i then byte_by_source N self.now i else slice_index bytes.old i) }
        ensures others { (i : ℕ) → i / (270 * N) ≢ r → slice_index bytes.new i ≡ slice_index bytes.old i }
    {
        self.any_row(bytes, r);
        if r == 3 {
            self.pointers(bytes);
        }
    }

    // Writes all rows of all AU-4s, and the pointer bytes.
    pub(crate) fn choose(&self, bytes: &mut [u8])
        requires pass { IsPass N self.now }
        requires size { length bytes.old ≡ 2430 * N }
        ensures { (i : ℕ) → i < 2430 * N
            → slice_index bytes.new i ≡ (if is_au_byte N i then byte_by_source N self.now i else slice_index bytes.old i) }
    {
        for r in 0..9 {
            self.choose_row(bytes, r);
        }
    }
}
