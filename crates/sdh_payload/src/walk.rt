//! A walk along a customer's VC-4s, row by row.
ghost use Rattle.std.specs.Prelude.{◌≡◌, ◌+◌, ◌-◌, ◌*◌, ◌/◌, ◌%◌, ◌^◌, ◌<◌, ◌≤◌, [], ◌∷◌, ◌++◌, length, take, bytes_eq, slice_index};
ghost use Rattle.sdh_basics.specs.Parity.{bip8};
ghost use Rattle.sdh_payload.specs.Stream.{path_overhead, padded, start_of, vc4_byte, vc4_front};
ghost use Rattle.sdh_payload.specs.Walk.{containers_from, text_before};

use crate::cells::Cells;
use crate::port::Port;
use crate::repeated::{ROW, Repeated};
use std::marker::Model;

/// The number of bytes of a VC-4: nine rows of 261.
const VC4_LEN: usize = 2349;

/// The number of columns of a VC-4. The first is the path overhead.
const COLUMNS: usize = 261;

/// A space, which pads a trace.
const SPACE: u8 = 0x20;

/// The signal label C2, equipped and non-specific (ITU-T G.707 clause 9.3).
const EQUIPPED: u8 = 1;

/// The place of the next byte in a port's VC-4s, with B3 of its VC-4, the parity of the bytes before it in that VC-4,
/// and the place in the text of the next text byte.
#[derive(Debug, Drop)]
pub struct Walk {
    port: Port,
    text: Repeated,
    number: u64,
    index: usize,
    b3: u8,
    parity: u8,
    place: usize,
}

impl Model for Walk {
    ghost use Rattle.std.specs.Prelude.{◌≡◌, ◌+◌, ◌*◌};
    ghost use Rattle.sdh_payload.specs.Walk.{Walked, IsAt};

    ghost Value = { Walked };

    ghost view = { λ w. record { port = w.port; at = 2349 * w.number + w.index } };

    ghost invariant = { λ w. IsAt w.port w.number w.index w.b3 w.parity w.place × (w.text ≡ w.port.text) };
}

/// Returns J1 of VC-4 number `number`, of a port with this trace.
pub fn trace_byte(trace: &[u8], number: u64) -> u8
    ensures { result ≡ slice_index (padded trace.now) (number % 64) }
{
    let place = (number % 64) as usize;
    if place < trace.len() {
        trace[place]
    } else {
        SPACE
    }
}

// Returns the path overhead byte in a row of VC-4 number `number`.
fn overhead_byte(trace: &[u8], b3: u8, number: u64, row: usize) -> u8
    ensures { result ≡ slice_index (path_overhead trace.now b3 number) row }
{
    match row {
        0 => trace_byte(trace, number),
        1 => b3,
        2 => EQUIPPED,
        _ => 0,
    }
}

// Returns the byte at a place of VC-4 number 0.
fn first_byte(port: &Port, index: usize) -> u8
    ensures { result ≡ vc4_byte port.now 0 0 index }
{
    let row = index / COLUMNS;
    let column = index % COLUMNS;
    if column == 0 {
        return overhead_byte(port.trace(), 0, 0, row);
    }
    let text = port.text();
    text[(ROW * row + column - 1) % text.len()]
}

// Returns the BIP-8 of the first `count` bytes of VC-4 number 0.
fn first_parity(port: &Port, count: usize) -> u8
    ensures { result ≡ bip8 (vc4_front port.now 0 0 count) }
{
    let mut parity = 0;
    for index in 0..count {
        parity ^= first_byte(port, index);
    }
    parity
}

// Returns the index in VC-4 number 0 of the byte with which a stream begins.
fn start_index(offset: u16) -> usize
    requires { offset ≤ 782 }
    ensures start { result ≡ start_of offset }
    ensures within { result < 2349 }
{
    let phase = (783 + 3 * usize::from(offset)) % VC4_LEN;
    (VC4_LEN - phase) % VC4_LEN
}

// Returns the place, in a text of `len` bytes, of the first text byte that is not before byte `index` of VC-4 number 0.
fn first_place(index: usize, len: usize) -> usize
    requires some { 0 < len }
    requires within { index < 2349 }
    ensures { result ≡ text_before 0 index % len }
{
    let before = ROW * (index / COLUMNS) + (index % COLUMNS).saturating_sub(1);
    before % len
}

impl Walk {
    /// Returns the place at which a port's stream begins. It takes no memory.
    pub fn new(port: &Port) -> Walk
        ensures { result ≡ record { port = port.now; at = start_of port.now.offset } }
    {
        let index = start_index(port.offset());
        let text = Repeated::new(port.text());
        let place = first_place(index, text.len());
        Walk {
            port: port.copy(),
            text,
            number: 0,
            index,
            b3: 0,
            parity: first_parity(port, index),
            place,
        }
    }

    // Returns the next byte, which is the path overhead byte of a row, and goes on after it.
    fn next_overhead(&mut self) -> u8
        requires start { self.old.at % 261 ≡ 0 }
        ensures byte { result ∷ [] ≡ containers_from self.old.port self.old.at 1 }
        ensures next { self.new ≡ record self.old { at = self.old.at + 1 } }
    {
        let byte = overhead_byte(
            self.port.trace(),
            self.b3,
            self.number,
            self.index / COLUMNS,
        );
        self.parity ^= byte;
        self.index += 1;
        byte
    }

    // Returns the next `count` text bytes, which are of one row.
    fn text_run(&self, count: usize) -> &[u8]
        requires inside { 0 < self.now.at % 261 }
        requires fits { self.now.at % 261 + count ≤ 261 }
        ensures bytes { result.now ≡ containers_from self.now.port self.now.at count }
        ensures count { length result.now ≡ count }
    {
        self.text.from(self.place, count)
    }

    // Goes on after the next `count` text bytes, which are of one row.
    fn pass_text(&mut self, count: usize)
        requires inside { 0 < self.old.at % 261 }
        requires fits { self.old.at % 261 + count ≤ 261 }
        requires few { self.old.at < 2 ^ 60 }
        ensures { self.new ≡ record self.old { at = self.old.at + count } }
    {
        self.parity ^= self.text.parity(self.place, count);
        self.place = self.text.behind(self.place, count);
        self.index += count;
        if self.index == VC4_LEN {
            self.index = 0;
            self.number += 1;
            self.b3 = self.parity;
            self.parity = 0;
        }
    }

    // Returns the number of text bytes that come next in the row, at most `most`, and 0 where the path overhead byte of
    // a row is next.
    fn text_count(&self, most: usize) -> usize
        requires some { 0 < most }
        ensures none { result ≡ 0 → self.now.at % 261 ≡ 0 }
        ensures some { 0 < result → 0 < self.now.at % 261 }
        ensures fits { 0 < result → self.now.at % 261 + result ≤ 261 }
        ensures within { result ≤ most }
    {
        let column = self.index % COLUMNS;
        if column == 0 {
            0
        } else {
            most.min(COLUMNS - column)
        }
    }

    // Puts the next byte, which is the path overhead byte of a row, at place `done` of `out`.
    fn put_overhead(&mut self, out: &mut [u8], done: usize)
        requires start { self.old.at % 261 ≡ 0 }
        requires room { done < length out.old }
        ensures bytes { take (done + 1) out.new ≡ take done out.old ++ containers_from self.old.port self.old.at 1 }
        ensures len { length out.new ≡ length out.old }
        ensures next { self.new ≡ record self.old { at = self.old.at + 1 } }
    {
        out[done] = self.next_overhead();
    }

    // Puts the next `count` text bytes, which are of one row, at place `done` of `out`.
    fn put_text(&mut self, count: usize, out: &mut [u8], done: usize)
        requires inside { 0 < self.old.at % 261 }
        requires fits { self.old.at % 261 + count ≤ 261 }
        requires room { done + count ≤ length out.old }
        requires few { self.old.at < 2 ^ 60 }
        ensures bytes { take (done + count) out.new ≡ take done out.old ++ containers_from self.old.port self.old.at count }
        ensures len { length out.new ≡ length out.old }
        ensures next { self.new ≡ record self.old { at = self.old.at + count } }
    {
        out[done..done + count].copy_from_slice(self.text_run(count));
        self.pass_text(count);
    }

    /// Puts the next bytes, which are of one row, after the first `done` bytes of `out`: at least one, and at most as
    /// many as fit. Returns their number.
    pub fn put_some(&mut self, out: &mut [u8], done: usize) -> usize
        requires some { done < length out.old }
        requires few { self.old.at < 2 ^ 60 }
        ensures some { 0 < result }
        ensures within { done + result ≤ length out.old }
        ensures bytes { take (done + result) out.new ≡ take done out.old ++ containers_from self.old.port self.old.at result }
        ensures len { length out.new ≡ length out.old }
        ensures next { self.new ≡ record self.old { at = self.old.at + result } }
    {
        let count = self.text_count(out.len() - done);
        if count == 0 {
            self.put_overhead(out, done);
            return 1;
        }
        self.put_text(count, out, done);
        count
    }

    // Goes on after the next bytes, which are of one row: at least one, and at most `most`. Returns their number.
    fn pass_some(&mut self, most: usize) -> usize
        requires some { 0 < most }
        requires few { self.old.at < 2 ^ 60 }
        ensures some { 0 < result }
        ensures within { result ≤ most }
        ensures next { self.new ≡ record self.old { at = self.old.at + result } }
    {
        let count = self.text_count(most);
        if count == 0 {
            self.next_overhead();
            return 1;
        }
        self.pass_text(count);
        count
    }

    /// Goes on after the next `count` bytes.
    pub fn pass(&mut self, count: usize)
        requires room { count ≤ 2352 }
        requires few { self.old.at < 2 ^ 59 }
        ensures { self.new ≡ record self.old { at = self.old.at + count } }
    {
        let mut done = 0;
        while done < count {
            done += self.pass_some(count - done);
        }
    }

    // Compares the next bytes, which are of one row, with the first of these: at least one, and at most all. Returns
    // their number, and whether they are equal, and goes on after them.
    fn compare_some(&mut self, bytes: &[u8]) -> (usize, bool)
        requires some { 0 < length bytes.now }
        requires few { self.old.at < 2 ^ 60 }
        ensures some { 0 < result.0 }
        ensures within { result.0 ≤ length bytes.now }
        ensures same { result.1 ≡ bytes_eq (take result.0 bytes.now) (containers_from self.old.port self.old.at result.0) }
        ensures next { self.new ≡ record self.old { at = self.old.at + result.0 } }
    {
        let count = self.text_count(bytes.len());
        if count == 0 {
            let byte = self.next_overhead();
            return (1, bytes[0] == byte);
        }
        let same = &bytes[..count] == self.text_run(count);
        self.pass_text(count);
        (count, same)
    }

    /// Returns whether these are the next bytes, and goes on after the next ones, as many as these.
    pub fn is_next(&mut self, bytes: &[u8]) -> bool
        requires room { length bytes.now ≤ 2352 }
        requires few { self.old.at < 2 ^ 58 }
        ensures answer { result ≡ bytes_eq bytes.now (containers_from self.old.port self.old.at (length bytes.now)) }
        ensures next { self.new ≡ record self.old { at = self.old.at + length bytes.now } }
    {
        let mut done = 0;
        while done < bytes.len() {
            let (count, same) = self.compare_some(&bytes[done..]);
            done += count;
            if !same {
                self.pass(bytes.len() - done);
                return false;
            }
        }
        true
    }

    // Fills `out` with the next bytes.
    fn fill_all(&mut self, out: &mut [u8])
        requires room { length out.old ≤ 2352 }
        requires few { self.old.at < 2 ^ 59 }
        ensures bytes { out.new ≡ containers_from self.old.port self.old.at (length out.old) }
        ensures next { self.new ≡ record self.old { at = self.old.at + length out.old } }
    {
        let mut done = 0;
        while done < out.len() {
            done += self.put_some(out, done);
        }
    }

    /// Puts the next `count` bytes in place of what `out` held.
    pub fn fill(&mut self, count: usize, out: &mut Cells)
        requires room { count ≤ 2352 }
        requires few { self.old.at < 2 ^ 59 }
        ensures bytes { out.new ≡ containers_from self.old.port self.old.at count }
        ensures next { self.new ≡ record self.old { at = self.old.at + count } }
    {
        out.make_room(count);
        self.fill_all(out.as_mut_slice());
    }
}
