//! Places in frames by the layout's own tables.
ghost use Rattle.std.specs.Prelude.{◌≡◌, ◌≤◌};

use sdh_frame::{Field, FrameBuf, Place, au_place, place_of, pointer_place};
use sdh_ringmap::Rate;
use std::test::Fail;

// Returns what a frame has in a row and a column, both counted from 1, and nothing outside of it.
fn field(rate: Rate, row: u16, column: u16) -> Option<Field> {
    if row < 1 || row > 9 || column < 1 || column as usize > 270 * rate.n() {
        return None;
    }
    Some(place_of(rate, Place { row, column }))
}

const FIELDS: &[(Rate, u16, u16, Field)] = &[
    (Rate::Four, 1, 12, Field::A1),
    (Rate::Four, 1, 13, Field::A2),
    (Rate::Four, 1, 24, Field::A2),
    (Rate::Four, 1, 25, Field::J0),
    (Rate::Four, 1, 26, Field::Fixed),
    (Rate::Four, 1, 36, Field::Fixed),
    (Rate::Four, 2, 1, Field::B1),
    (Rate::Four, 2, 2, Field::Unused),
    (Rate::Four, 4, 14, Field::Pointer(2, 3)),
    (Rate::Four, 5, 12, Field::B2(11)),
    (Rate::Four, 5, 13, Field::K1),
    (Rate::Four, 5, 14, Field::Unused),
    (Rate::Four, 5, 25, Field::K2),
    (Rate::Four, 9, 36, Field::Unused),
    (Rate::Four, 9, 1080, Field::Payload(4)),
    (Rate::Sixteen, 1, 48, Field::A1),
    (Rate::Sixteen, 1, 49, Field::A2),
    (Rate::Sixteen, 1, 97, Field::J0),
    (Rate::Sixteen, 1, 144, Field::Fixed),
    (Rate::Sixteen, 1, 145, Field::Payload(1)),
    (Rate::Sixteen, 4, 144, Field::Pointer(16, 8)),
    (Rate::Sixteen, 5, 48, Field::B2(47)),
    (Rate::Sixteen, 5, 49, Field::K1),
    (Rate::Sixteen, 5, 97, Field::K2),
];

#[test]
fn fields_of_frames(rt: HostRuntime) {
    for (rate, row, column, wanted) in FIELDS {
        assert!(rt;
            field(*rate, *row, *column) == Some(*wanted),
            "{row} {column}"
        );
    }
}

// Returns the row and the column of a byte of an AU-4: of its payload, or of its pointer.
fn stands(rate: Rate, au: u16, is_payload: bool, index: u16) -> Option<(u16, u16)> {
    if au < 1 || au as usize > rate.n() || index >= 2349 || !is_payload && index >= 9 {
        return None;
    }
    let place = if is_payload {
        au_place(rate, au, index)
    } else {
        pointer_place(rate, au, index)
    };
    Some((place.row, place.column))
}

// The rate, the AU-4, whether it is a byte of its payload, its index, and its row and its column. Payload columns are
// 9N + k, 10N + k and so on; index 783 is the byte after the last H3. H1 is at column k, Y at N + k and 2N + k, H2 at
// 3N + k, ones at 4N + k and 5N + k, H3 at 6N + k, 7N + k and 8N + k.
const PLACES: &[(Rate, u16, bool, u16, u16, u16)] = &[
    (Rate::Four, 1, true, 0, 1, 37),
    (Rate::Four, 2, true, 1, 1, 42),
    (Rate::Four, 3, true, 783, 4, 39),
    (Rate::Four, 4, true, 2348, 9, 1080),
    (Rate::Sixteen, 1, true, 0, 1, 145),
    (Rate::Sixteen, 16, true, 1, 1, 176),
    (Rate::Sixteen, 5, true, 783, 4, 149),
    (Rate::Sixteen, 16, true, 2348, 9, 4320),
    (Rate::Four, 2, false, 0, 4, 2),
    (Rate::Four, 2, false, 3, 4, 14),
    (Rate::Four, 2, false, 6, 4, 26),
    (Rate::Four, 2, false, 8, 4, 34),
    (Rate::Sixteen, 16, false, 0, 4, 16),
    (Rate::Sixteen, 16, false, 3, 4, 64),
    (Rate::Sixteen, 16, false, 8, 4, 144),
];

#[test]
fn places_of_an_au(rt: HostRuntime) {
    for (rate, au, is_payload, index, row, column) in PLACES {
        let wanted = Some((*row, *column));
        assert!(rt;
            stands(*rate, *au, *is_payload, *index) == wanted,
            "{au} {index}"
        );
    }
}

// Copies AU-4 number 2 of another frame to number 16. A view for writing is done with before the next one is lent.
fn write_two(frame: &mut FrameBuf, other: &mut FrameBuf)
    requires rate { frame.old.rate ≡ Rate.Sixteen }
    requires other_rate { other.old.rate ≡ Rate.Sixteen }
    ensures rate { frame.new.rate ≡ Rate.Sixteen }
{
    other.au_mut(2).fill_ones();
    let mut first = frame.au_mut(16);
    first.copy_payload(&other.au(2));
    first.set_pointer(0, 0x68);
    let mut second = frame.au_mut(1);
    second.set_payload(0, 7);
}

// Returns the first pointer byte of an AU-4 of an STM-16 frame, and the first and the last byte of its payload.
fn ends_of(frame: &FrameBuf, au: u16) -> [u8; 3]
    requires rate { frame.now.rate ≡ Rate.Sixteen }
    requires first { 1 ≤ au }
    requires last { au ≤ 16 }
{
    let view = frame.au(au);
    [view.pointer(0), view.payload(0), view.payload(2348)]
}

#[test]
fn views_are_lent_one_after_the_other(rt: HostRuntime) -> Result<(), Fail> {
    let mut frame = FrameBuf::try_new(rt.alloc(), Rate::Sixteen)?;
    let mut other = FrameBuf::try_new(rt.alloc(), Rate::Sixteen)?;
    write_two(&mut frame, &mut other);
    assert_eq!(rt; ends_of(&frame, 16), [0x68, 0xFF, 0xFF]);
    assert_eq!(rt; ends_of(&frame, 15), [0, 0, 0]);
    assert_eq!(rt; ends_of(&frame, 1), [0, 7, 0]);
    Ok(())
}
