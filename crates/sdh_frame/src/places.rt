//! The places of fields, and the indexes of places among the bytes of a frame.
ghost use Rattle.std.specs.Prelude.{◌≡◌, ◌+◌, ◌*◌, ◌<◌, ◌≤◌, ◌⊎◌};
ghost use Rattle.sdh_frame.specs.Sizes.{size_of};
ghost use Rattle.sdh_ringmap.specs.Rates.{n_of};
ghost use Rattle.sdh_frame.specs.Fields.{index_of, field_at, payload_place, place_of_pointer};

use crate::{Field, Place, Rate};

/// Returns the field at a place.
#[tactic(auto, unfolding(crate::specs::Fields::field_at))]
pub fn place_of(rate: Rate, place: Place) -> Field
    requires row { 1 ≤ place.row }
    requires rows { place.row ≤ 9 }
    requires column { 1 ≤ place.column }
    requires columns { place.column ≤ 270 * n_of rate }
    ensures { result ≡ field_at (n_of rate) place.row place.column }
{
    let n = rate.n() as u16;
    let column = place.column;
    if column > 9 * n {
        return Field::Payload((column - 9 * n - 1) % n + 1);
    }
    match place.row {
        1 if column <= 3 * n => Field::A1,
        1 if column <= 6 * n => Field::A2,
        1 if column == 6 * n + 1 => Field::J0,
        1 => Field::Fixed,
        2 if column == 1 => Field::B1,
        4 => Field::Pointer((column - 1) % n + 1, (column - 1) / n),
        5 if column <= 3 * n => Field::B2(column - 1),
        5 if column == 3 * n + 1 => Field::K1,
        5 if column == 6 * n + 1 => Field::K2,
        _ => Field::Unused,
    }
}

/// Returns the place of a payload byte of an AU-4, by its index 0 to 2348.
pub fn au_place(rate: Rate, au: u16, index: u16) -> Place
    requires first { 1 ≤ au }
    requires last { au ≤ n_of rate }
    requires index { index < 2349 }
    ensures { result ≡ payload_place (n_of rate) au index }
{
    let n = rate.n() as u16;
    Place {
        row: index / 261 + 1,
        column: 9 * n + (index % 261 * n + au),
    }
}

/// Returns the place of a pointer byte of an AU-4, by its index 0 to 8: H1, Y, Y, H2, two bytes of ones, H3, H3, H3.
pub fn pointer_place(rate: Rate, au: u16, index: u16) -> Place
    requires first { 1 ≤ au }
    requires last { au ≤ n_of rate }
    requires index { index < 9 }
    ensures { result ≡ place_of_pointer (n_of rate) au index }
{
    let n = rate.n() as u16;
    Place {
        row: 4,
        column: index * n + au,
    }
}

// Returns the index of a place among the bytes of a frame.
pub(crate) fn index_in(rate: Rate, place: Place) -> usize
    requires row { 1 ≤ place.row }
    requires rows { place.row ≤ 9 }
    requires column { 1 ≤ place.column }
    requires columns { place.column ≤ 270 * n_of rate }
    ensures index { result ≡ index_of (n_of rate) place }
    ensures within { result < size_of rate }
{
    let width = 270 * rate.n();
    (place.row as usize - 1) * width + (place.column as usize - 1)
}

// Returns the index, among the bytes of a frame, of payload byte `index` (0 to 2348) of an AU-4.
pub(crate) fn payload_index(rate: Rate, au: u16, index: u16) -> usize
    requires first { 1 ≤ au }
    requires last { au ≤ n_of rate }
    requires index { index < 2349 }
    ensures place { result ≡ index_of (n_of rate) (payload_place (n_of rate) au index) }
    ensures within { result < size_of rate }
{
    let place = au_place(rate, au, index);
    index_in(rate, place)
}

// Returns the index, among the bytes of a frame, of pointer byte `index` (0 to 8) of an AU-4.
pub(crate) fn pointer_index(rate: Rate, au: u16, index: u16) -> usize
    requires first { 1 ≤ au }
    requires last { au ≤ n_of rate }
    requires index { index < 9 }
    ensures place { result ≡ index_of (n_of rate) (place_of_pointer (n_of rate) au index) }
    ensures within { result < size_of rate }
{
    let place = pointer_place(rate, au, index);
    index_in(rate, place)
}

// Returns the index of the first byte of a column. A column here is N consecutive bytes of one row, and the numbers go
// on from row to row: 0 to 269 in the first row, 270 to 539 in the second, up to 2429. The columns of a `Place` are one
// byte wide and are counted from 1 in each row.
#[inline(always)]
pub(crate) fn byte_of<const N: usize>(column: usize) -> usize
    requires rate { (N ≡ 4) ⊎ (N ≡ 16) }
    requires few { column < 2430 }
    ensures place { result ≡ N * column }
    ensures some { column ≤ result }
    ensures within { result + N ≤ 2430 * N }
{
    N * column
}
