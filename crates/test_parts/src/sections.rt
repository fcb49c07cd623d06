//! Frames from zeros with K bytes 03 10, as they are read.
ghost use Rattle.std.specs.Prelude.{◌≡◌, ◌≤◌, IfOk, None, length};

use sdh_frame::{FrameBuf, Place};
use sdh_overhead::{Received, Section, read_row, read_section, write_row, write_section};
use sdh_ringmap::Rate;
use std::alloc::{AllocError, Global};

const GOOD: Received = Received::Framed {
    k1: 0x03,
    k2: 0x10,
    b1: 0,
    b2: 0,
};

fn written(alloc: Global, sending: &mut Section, rate: Rate) -> Result<FrameBuf, AllocError>
    requires { sending.old.rate ≡ rate }
    ensures frame { IfOk result (λ f. f.rate ≡ rate) }
    ensures kept { sending.new.rate ≡ sending.old.rate }
{
    let mut frame = FrameBuf::try_new(alloc, rate)?;
    write_section(sending, 0x03, 0x10, &mut frame);
    Ok(frame)
}

fn read(receiving: &mut Section, frame: &mut FrameBuf) -> Received
    requires { frame.old.rate ≡ receiving.old.rate }
    ensures frame { frame.new.rate ≡ frame.old.rate }
    ensures kept { receiving.new.rate ≡ receiving.old.rate }
{
    read_section(receiving, frame)
}

// Inverts the top bit of a byte on the line.
fn invert(frame: &mut FrameBuf, row: u16, column: u16)
    requires rate { frame.old.rate ≡ Rate.Four }
    requires row_first { 1 ≤ row }
    requires row_last { row ≤ 9 }
    requires column_first { 1 ≤ column }
    requires column_last { column ≤ 36 }
    ensures { frame.new.rate ≡ frame.old.rate }
{
    let place = Place { row, column };
    let value = frame.get(place);
    frame.set(place, value ^ 0x80);
}

// Returns what is read of three frames, the second of which can't be read, so that the third has nothing to be compared
// with.
fn past_an_unframed_frame(alloc: Global) -> Result<[Received; 3], AllocError> {
    let mut sending = Section::try_new(Rate::Four);
    let mut receiving = Section::try_new(Rate::Four);
    let mut first = written(alloc, &mut sending, Rate::Four)?;
    let mut second = written(alloc, &mut sending, Rate::Four)?;
    let mut third = written(alloc, &mut sending, Rate::Four)?;
    second.set(Place { row: 1, column: 1 }, 0xF7);
    let first = read(&mut receiving, &mut first);
    let second = read(&mut receiving, &mut second);
    Ok([first, second, read(&mut receiving, &mut third)])
}

#[test]
fn an_unframed_frame(rt: HostRuntime) {
    assert!(rt; past_an_unframed_frame(rt.alloc()) == Ok([GOOD, Received::Unframed, GOOD]));
}

// Returns what is read of two frames, in the first of which five top bits are inverted.
fn past_a_degraded_frame(alloc: Global) -> Result<[Received; 2], AllocError> {
    let mut sending = Section::try_new(Rate::Four);
    let mut receiving = Section::try_new(Rate::Four);
    let mut first = written(alloc, &mut sending, Rate::Four)?;
    let mut second = written(alloc, &mut sending, Rate::Four)?;
    invert(&mut first, 6, 1);
    invert(&mut first, 6, 2);
    invert(&mut first, 6, 3);
    invert(&mut first, 6, 4);
    invert(&mut first, 6, 5);
    let first = read(&mut receiving, &mut first);
    Ok([first, read(&mut receiving, &mut second)])
}

// Five violations of B2, and an odd number of them in one bit of B1.
const DEGRADED: Received = Received::Framed {
    k1: 0x03,
    k2: 0x10,
    b1: 1,
    b2: 5,
};

#[test]
fn a_degraded_frame(rt: HostRuntime) {
    assert!(rt; past_a_degraded_frame(rt.alloc()) == Ok([GOOD, DEGRADED]));
}

// Writes the rows of an STM-4 frame one by one, after each other, with K bytes 03 10.
fn write_by_rows(sending: &mut Section, bytes: &mut [u8])
    requires rate { sending.old.rate ≡ Rate.Four }
    requires fresh { sending.old.under_way ≡ None }
    requires bytes { length bytes.old ≡ 9720 }
    ensures rate { sending.new.rate ≡ Rate.Four }
    ensures fresh { sending.new.under_way ≡ None }
{
    for row in 1..10 {
        let at = (row as usize - 1) * 1080;
        write_row(sending, row, 0x03, 0x10, &mut bytes[at..at + 1080]);
    }
}

// Reads the rows of an STM-4 frame one by one.
fn read_by_rows(receiving: &mut Section, bytes: &mut [u8]) -> Received
    requires rate { receiving.old.rate ≡ Rate.Four }
    requires fresh { receiving.old.under_way ≡ None }
    requires bytes { length bytes.old ≡ 9720 }
    ensures rate { receiving.new.rate ≡ Rate.Four }
    ensures fresh { receiving.new.under_way ≡ None }
{
    for row in 1..10 {
        let at = (row as usize - 1) * 1080;
        read_row(receiving, row, &mut bytes[at..at + 1080]);
    }
    receiving.finish_read()
}

// Reads a frame of zeros by its rows. Returns what is read, and the first two bytes of B2.
fn by_rows(
    alloc: Global,
    sending: &mut Section,
    receiving: &mut Section,
) -> Result<(Received, u8, u8), AllocError>
    requires sending { sending.old.rate ≡ Rate.Four }
    requires sending_fresh { sending.old.under_way ≡ None }
    requires receiving { receiving.old.rate ≡ Rate.Four }
    requires receiving_fresh { receiving.old.under_way ≡ None }
    ensures sending { sending.new.rate ≡ Rate.Four }
    ensures sending_fresh { sending.new.under_way ≡ None }
    ensures receiving { receiving.new.rate ≡ Rate.Four }
    ensures receiving_fresh { receiving.new.under_way ≡ None }
{
    let mut bytes = vec![in alloc; 0; 9720]?;
    write_by_rows(sending, bytes.as_mut_slice());
    let received = read_by_rows(receiving, bytes.as_mut_slice());
    Ok((received, bytes[4320], bytes[4321]))
}

// Reads three frames of zeros by their rows. Returns what is read of each, and the rows that come next after them.
fn three_by_rows(alloc: Global) -> Result<([(Received, u8, u8); 3], u16, u16), AllocError> {
    let mut sending = Section::try_new(Rate::Four);
    let mut receiving = Section::try_new(Rate::Four);
    let first = by_rows(alloc, &mut sending, &mut receiving)?;
    let second = by_rows(alloc, &mut sending, &mut receiving)?;
    let third = by_rows(alloc, &mut sending, &mut receiving)?;
    Ok((
        [first, second, third],
        sending.next_row(),
        receiving.next_row(),
    ))
}

const BY_ROWS: [(Received, u8, u8); 3] = [(GOOD, 0, 0), (GOOD, 0x13, 0), (GOOD, 0, 0)];

#[test]
fn frames_go_row_by_row(rt: HostRuntime) {
    assert!(rt; three_by_rows(rt.alloc()) == Ok((BY_ROWS, 1, 1)));
}
