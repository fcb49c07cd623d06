//! Sections: what they send, and what they find in a received frame.
ghost use Rattle.std.specs.Prelude.{◌≡◌, ℕ, List, ◌++◌, ◌+◌, ◌*◌, ◌-◌, ◌<◌, ◌≤◌, ◌==◌, true, false, length, take};
ghost use Rattle.std.specs.Prelude.{None, Some};
ghost use Rattle.std.specs.List.{list_all};
ghost use Rattle.sdh_frame.specs.Sizes.{size_of};
ghost use Rattle.sdh_ringmap.specs.Rates.{n_of};
ghost use Rattle.sdh_parity.specs.Pieces.{scrambled_from};
ghost use Rattle.sdh_overhead.specs.Sections.{SectionKept, holding, clear_frame, line_frame, parities_of, is_framed, found_in, received_in};
ghost use Rattle.sdh_overhead.specs.Sections.{kept_after, opened, next_of, MayWrite, MayRead};
ghost use Rattle.sdh_overhead.specs.Rows.{clear_row, line_row, ArePassed, HasSent, AreRead, opened_row};
ghost use Rattle.sdh_overhead.specs.Laws.{AreParities};

use crate::Received;
use crate::overhead::write_head;
use crate::rows::{Rows, b1_after, b2_after, k_after, parity_of_rows};
use sdh_frame::FrameBuf;
use sdh_parity::{receive_frame, send_frame, send_frame_to};
use sdh_ringmap::Rate;
use std::marker::Model;

/// One direction of a section: the parities of its last frame, or none, and what is kept of a frame that is being
/// written or read row by row.
#[derive(Debug, Drop)]
pub struct Section {
    rate: Rate,
    known: bool,
    b1: u8,
    b2: [u8; 48],
    rows: Rows,
}

impl Model for Section {
    ghost use Rattle.std.specs.Prelude.{◌≡◌, length};
    ghost use Rattle.sdh_ringmap.specs.Rates.{n_of};
    ghost use Rattle.sdh_overhead.specs.Sections.{SectionKept, last_of, under_way_in, under_way_of, IsBlank};
    ghost use Rattle.sdh_overhead.specs.Rows.{IsPlaced};

    ghost Value = { SectionKept };

    ghost view = { λ a. record {
      rate = a.rate;
      last = last_of (n_of a.rate) a.known a.b1 a.b2;
      under_way = under_way_of (under_way_in a.rows);
    } };

    ghost invariant = { λ a. record {
      blank : IsBlank a.known a.b1 a.b2;
      wide : length a.b2 ≡ 48;
      placed : IsPlaced (n_of a.rate) a.rows.passed a.rows.scrambler a.rows.line a.rows.clear;
    } };
}

fn are_all(bytes: &[u8], value: u8) -> bool
    ensures { result ≡ list_all (λ x. x == value) bytes.now }
{
    bytes.iter().all(|byte| *byte == value)
}

// Returns whether all bytes A1 and A2 have their values.
#[tactic(auto, unfolding(crate::specs::Sections::is_framed))]
pub(crate) fn is_framed(n: usize, bytes: &[u8]) -> bool
    requires few { n ≤ 16 }
    requires size { 6 * n ≤ length bytes.now }
    ensures { result ≡ is_framed n bytes.now }
{
    are_all(&bytes[..3 * n], 0xF6) && are_all(&bytes[3 * n..6 * n], 0x28)
}

impl Section {
    /// Returns a section without parities.
    pub fn try_new(rate: Rate) -> Section
        ensures { result ≡ holding rate None }
    {
        Section {
            rate,
            known: false,
            b1: 0,
            b2: [0; 48],
            rows: Rows::new(rate.n()),
        }
    }

    /// Forgets the parities of the last frame, and the rows of a frame that is under way.
    pub fn forget(&mut self)
        ensures { self.new ≡ holding self.old.rate None }
    {
        self.known = false;
        self.b1 = 0;
        self.b2 = [0; 48];
        self.rows = Rows::new(self.rate.n());
    }

    /// Returns the number of the next row, 1 to 10: 1 between frames, and 10 after the ninth row of a received frame,
    /// until `finish_read`.
    pub fn next_row(&self) -> u16
        ensures next { result ≡ next_of self.now.under_way }
        ensures few { result ≤ 10 }
    {
        self.rows.passed + 1
    }

    // Every section keeps either no parities, or a byte B1 and 3N bytes B2. The function does nothing: its contract is
    // the law.
    #[tactic(auto, using(crate::proofs::Trips::kept_whole))]
    pub(crate) fn parities_are_whole(&self)
        ensures { AreParities (n_of self.now.rate) self.now.last }
    {
        // Looking at a field gives the prover the section's invariant, from which the law follows.
        let _ = &self.known;
    }

    // Writes the overhead of a row with the parities of the frame before.
    #[inline(always)]
    fn place_by(&self, n: usize, row: u16, k1: u8, k2: u8, bytes: &mut [u8])
        requires rate { n ≡ n_of self.now.rate }
        requires first { 1 ≤ row }
        requires last { row ≤ 9 }
        requires bytes { length bytes.old ≡ 270 * n_of self.now.rate }
        ensures { bytes.new ≡ clear_row (n_of self.now.rate) self.now.last k1 k2 ((row - 1) * (270 * n_of self.now.rate)) bytes.old }
    {
        let b2 = &self.b2[..3 * n];
        write_head(n, row as usize, k1, k2, self.b1, b2, &mut bytes[..9 * n]);
    }

    // Writes the overhead of a row with the parities of the frame before, by the code that is compiled for the rate.
    fn place(&self, row: u16, k1: u8, k2: u8, bytes: &mut [u8])
        requires first { 1 ≤ row }
        requires last { row ≤ 9 }
        requires bytes { length bytes.old ≡ 270 * n_of self.now.rate }
        ensures { bytes.new ≡ clear_row (n_of self.now.rate) self.now.last k1 k2 ((row - 1) * (270 * n_of self.now.rate)) bytes.old }
    {
        match self.rate {
            Rate::Four => self.place_by(4, row, k1, k2, bytes),
            Rate::Sixteen => self.place_by(16, row, k1, k2, bytes),
        }
    }

    // Writes the overhead of all rows with the parities of the frame before.
    #[inline(always)]
    fn place_rows(&self, n: usize, k1: u8, k2: u8, bytes: &mut [u8])
        requires rate { n ≡ n_of self.now.rate }
        requires bytes { length bytes.old ≡ 2430 * n }
        ensures { bytes.new ≡ clear_frame (n_of self.now.rate) self.now.last k1 k2 bytes.old }
    {
        let width = 270 * n;
        for row in 1..10 {
            let at = (row as usize - 1) * width;
            self.place_by(n, row, k1, k2, &mut bytes[at..at + width]);
        }
    }

    // Writes the overhead of all rows with the parities of the frame before, by the code that is compiled for the rate.
    fn place_all(&self, k1: u8, k2: u8, bytes: &mut [u8])
        requires { length bytes.old ≡ size_of self.now.rate }
        ensures { bytes.new ≡ clear_frame (n_of self.now.rate) self.now.last k1 k2 bytes.old }
    {
        match self.rate {
            Rate::Four => self.place_rows(4, k1, k2, bytes),
            Rate::Sixteen => self.place_rows(16, k1, k2, bytes),
        }
    }

    // Adds the next row of a sent frame to both parities and scrambles it.
    fn send(&mut self, row: u16, bytes: &mut [u8])
        requires next { row ≡ next_of self.old.under_way }
        requires last { row ≤ 9 }
        requires bytes { length bytes.old ≡ 270 * n_of self.old.rate }
        ensures rate { self.new.rate ≡ self.old.rate }
        ensures last { self.new.last ≡ self.old.last }
        ensures next { next_of self.new.under_way ≡ row + 1 }
        ensures way { MayWrite self.new.under_way }
        ensures bytes { bytes.new ≡ scrambled_from (9 * n_of self.old.rate) ((row - 1) * (270 * n_of self.old.rate)) bytes.old }
        ensures passed { (clear line : List ℕ) → ArePassed (n_of self.old.rate) clear line self.old.under_way
            → ArePassed (n_of self.old.rate) (clear ++ bytes.old) (line ++ bytes.new) self.new.under_way }
    {
        self.rows.send(self.rate.n(), row, bytes);
    }

    // Returns whether the frame to which the next row belongs is framed. `bytes` are the bytes of that row; only those
    // of row 1 are looked at.
    fn is_framed(&self, row: u16, bytes: &[u8]) -> bool
        requires next { row ≡ next_of self.now.under_way }
        requires bytes { 270 * n_of self.now.rate ≤ length bytes.now }
        ensures { (line : List ℕ) → AreRead (n_of self.now.rate) self.now.last line self.now.under_way
            → result ≡ is_framed (n_of self.now.rate) (line ++ bytes.now) }
    {
        if row == 1 {
            return is_framed(self.rate.n(), bytes);
        }
        self.rows.framed
    }

    // Passes over the next row of an unframed frame.
    fn pass_over(&mut self, row: u16)
        requires next { row ≡ next_of self.old.under_way }
        requires last { row ≤ 9 }
        ensures rate { self.new.rate ≡ self.old.rate }
        ensures last { self.new.last ≡ self.old.last }
        ensures next { next_of self.new.under_way ≡ row + 1 }
        ensures way { MayRead self.new.under_way }
        ensures read { (line bytes : List ℕ) → AreRead (n_of self.old.rate) self.old.last line self.old.under_way
            → length bytes ≡ 270 * n_of self.old.rate → is_framed (n_of self.old.rate) (line ++ bytes) ≡ false
            → AreRead (n_of self.old.rate) self.old.last (line ++ bytes) self.new.under_way }
    {
        self.rows.pass_over(self.rate.n(), row);
    }

    // Descrambles the next row of a framed frame, adds it to both parities, and keeps what it says.
    fn receive(&mut self, row: u16, bytes: &mut [u8])
        requires next { row ≡ next_of self.old.under_way }
        requires last { row ≤ 9 }
        requires bytes { length bytes.old ≡ 270 * n_of self.old.rate }
        ensures rate { self.new.rate ≡ self.old.rate }
        ensures last { self.new.last ≡ self.old.last }
        ensures next { next_of self.new.under_way ≡ row + 1 }
        ensures way { MayRead self.new.under_way }
        ensures bytes { bytes.new ≡ scrambled_from (9 * n_of self.old.rate) ((row - 1) * (270 * n_of self.old.rate)) bytes.old }
        ensures read { (line : List ℕ) → AreRead (n_of self.old.rate) self.old.last line self.old.under_way
            → is_framed (n_of self.old.rate) (line ++ bytes.old) ≡ true
            → AreRead (n_of self.old.rate) self.old.last (line ++ bytes.old) self.new.under_way }
    {
        let n = self.rate.n();
        self.rows.receive(n, row, bytes);
        self.rows.k1 = k_after(row, self.rows.k1, bytes[3 * n]);
        self.rows.k2 = k_after(row, self.rows.k2, bytes[6 * n]);
        self.rows.b1 = b1_after(row, self.rows.b1, self.known, self.b1, bytes[0]);
        self.rows.b2 = b2_after(
            row,
            self.rows.b2,
            self.known,
            &self.b2[..3 * n],
            &bytes[..3 * n],
        );
        self.rows.framed = true;
    }

    // Returns what the rows of a framed frame said.
    fn found(&self) -> Received
        requires { next_of self.now.under_way ≡ 10 }
        ensures { (line : List ℕ) → AreRead (n_of self.now.rate) self.now.last line self.now.under_way
            → is_framed (n_of self.now.rate) line ≡ true → result ≡ received_in (n_of self.now.rate) self.now.last line }
    {
        let rows = &self.rows;
        Received::Framed {
            k1: rows.k1,
            k2: rows.k2,
            b1: rows.b1,
            b2: rows.b2,
        }
    }

    // Returns what the overhead of a whole frame says, which is framed and descrambled.
    pub(crate) fn find(&self, bytes: &[u8]) -> Received
        requires { length bytes.now ≡ size_of self.now.rate }
        ensures { result ≡ found_in (n_of self.now.rate) self.now.last bytes.now }
    {
        let n = self.rate.n();
        let b2 = &bytes[1080 * n..1083 * n];
        Received::Framed {
            k1: bytes[1083 * n],
            k2: bytes[1086 * n],
            b1: b1_after(2, 0, self.known, self.b1, bytes[270 * n]),
            b2: b2_after(5, 0, self.known, &self.b2[..3 * n], b2),
        }
    }

    // Keeps these parities as those of the last frame.
    pub(crate) fn keep(&mut self, b1: u8, b2: [u8; 48])
        requires { length b2 ≡ 48 }
        ensures { self.new ≡ holding self.old.rate (Some (record { b1 = b1; b2 = take (3 * n_of self.old.rate) b2 })) }
    {
        self.known = true;
        self.b1 = b1;
        self.b2 = b2;
        self.rows = Rows::new(self.rate.n());
    }

    // Ends the frame that is under way: the parities of its rows become those of the last frame.
    fn end(&mut self)
        ensures rate { self.new.rate ≡ self.old.rate }
        ensures under_way { self.new.under_way ≡ None }
        ensures last { (clear line : List ℕ) → ArePassed (n_of self.old.rate) clear line self.old.under_way
            → self.new ≡ holding self.old.rate (Some (parities_of (n_of self.old.rate) clear line)) }
    {
        let n = self.rate.n();
        self.b1 = self.rows.line.value();
        self.b2 = parity_of_rows(n, &self.rows.clear);
        self.known = true;
        self.rows = Rows::new(n);
    }

    /// Returns what the overhead of a received frame says, after its ninth row was read. B1 and B2 are compared with
    /// the parities of the frame read before. Afterwards the section keeps the parities of this frame, or none where it
    /// is unframed.
    pub fn finish_read(&mut self) -> Received
        requires { next_of self.old.under_way ≡ 10 }
        ensures read { (line : List ℕ) → AreRead (n_of self.old.rate) self.old.last line self.old.under_way
            → (result ≡ received_in (n_of self.old.rate) self.old.last line)
            × (self.new ≡ holding self.old.rate (kept_after (n_of self.old.rate) line)) }
        ensures rate { self.new.rate ≡ self.old.rate }
        ensures under_way { self.new.under_way ≡ None }
    {
        if !self.rows.framed {
            self.forget();
            return Received::Unframed;
        }
        let received = self.found();
        self.end();
        received
    }
}

/// Sets the section overhead of the next row of a frame, 1 to 9, whose 270N bytes are `bytes`. B1 and B2 are the
/// parities of the frame written before, and pointers and payload stay as they are. Then it scrambles the row in place.
/// After the ninth row the section keeps the parities of the frame. While a frame is read row by row, no row can be
/// written.
pub fn write_row(section: &mut Section, row: u16, k1: u8, k2: u8, bytes: &mut [u8])
    requires next { row ≡ next_of section.old.under_way }
    requires way { MayWrite section.old.under_way }
    requires last { row ≤ 9 }
    requires bytes { length bytes.old ≡ 270 * n_of section.old.rate }
    ensures bytes { bytes.new ≡ line_row (n_of section.old.rate) section.old.last k1 k2
        ((row - 1) * (270 * n_of section.old.rate)) bytes.old }
    ensures section { (first : SectionKept) (clear line : List ℕ) → HasSent first clear line section.old → HasSent first
        (clear ++ clear_row (n_of section.old.rate) section.old.last k1 k2 ((row - 1) * (270 * n_of section.old.rate)) bytes.old)
        (line ++ bytes.new) section.new }
    ensures rate { section.new.rate ≡ section.old.rate }
    ensures next { row < 9 → next_of section.new.under_way ≡ row + 1 }
    ensures way { MayWrite section.new.under_way }
    ensures ninth { row ≡ 9 → section.new.under_way ≡ None }
{
    section.place(row, k1, k2, bytes);
    section.send(row, bytes);
    if row < 9 {
        return;
    }
    section.end();
}

// Writes the overhead of a frame's bytes, and scrambles them.
fn write_bytes(section: &mut Section, k1: u8, k2: u8, bytes: &mut [u8])
    requires { length bytes.old ≡ size_of section.old.rate }
    ensures bytes { bytes.new ≡ line_frame (n_of section.old.rate) section.old.last k1 k2 bytes.old }
    ensures section { section.new ≡ holding section.old.rate
        (Some (parities_of (n_of section.old.rate) (clear_frame (n_of section.old.rate) section.old.last k1 k2 bytes.old) bytes.new)) }
{
    section.place_all(k1, k2, bytes);
    let parities = send_frame(section.rate.n(), bytes);
    section.keep(parities.line, parities.clear);
}

/// Sets all section overhead of a frame, and leaves pointers and payload as they are. B1 and B2 are the parities of the
/// frame written before, or zeros where these are not known. Then it scrambles the frame in place. The rows of a frame
/// that is under way are forgotten.
pub fn write_section(section: &mut Section, k1: u8, k2: u8, frame: &mut FrameBuf)
    requires { frame.old.rate ≡ section.old.rate }
    ensures frame { frame.new ≡ record frame.old { bytes = line_frame (n_of section.old.rate) section.old.last k1 k2 frame.old.bytes } }
    ensures section { section.new ≡ holding section.old.rate (Some (parities_of (n_of section.old.rate)
        (clear_frame (n_of section.old.rate) section.old.last k1 k2 frame.old.bytes) frame.new.bytes)) }
    ensures whole { AreParities (n_of section.old.rate) section.old.last }
{
    section.parities_are_whole();
    write_bytes(section, k1, k2, frame.bytes_mut());
}

// Writes the overhead of a frame's bytes, and scrambles them into `line`.
fn write_bytes_to(section: &mut Section, k1: u8, k2: u8, bytes: &mut [u8], line: &mut [u8])
    requires bytes { length bytes.old ≡ size_of section.old.rate }
    requires line { length line.old ≡ size_of section.old.rate }
    ensures line { line.new ≡ line_frame (n_of section.old.rate) section.old.last k1 k2 bytes.old }
    ensures bytes { bytes.new ≡ clear_frame (n_of section.old.rate) section.old.last k1 k2 bytes.old }
    ensures section { section.new ≡ holding section.old.rate
        (Some (parities_of (n_of section.old.rate) (clear_frame (n_of section.old.rate) section.old.last k1 k2 bytes.old) line.new)) }
{
    section.place_all(k1, k2, bytes);
    let parities = send_frame_to(section.rate.n(), bytes, line);
    section.keep(parities.line, parities.clear);
}

/// Sets all section overhead of a frame as `write_section` does, and then scrambles the frame into `line`, which has as
/// many bytes. The frame itself stays unscrambled. The rows of a frame that is under way are forgotten.
pub fn write_section_to(
    section: &mut Section,
    k1: u8,
    k2: u8,
    frame: &mut FrameBuf,
    line: &mut [u8],
)
    requires frame { frame.old.rate ≡ section.old.rate }
    requires line { length line.old ≡ size_of section.old.rate }
    ensures line { line.new ≡ line_frame (n_of section.old.rate) section.old.last k1 k2 frame.old.bytes }
    ensures frame { frame.new ≡ record frame.old { bytes = clear_frame (n_of section.old.rate) section.old.last k1 k2 frame.old.bytes } }
    ensures section { section.new ≡ holding section.old.rate (Some (parities_of (n_of section.old.rate) frame.new.bytes line.new)) }
    ensures whole { AreParities (n_of section.old.rate) section.old.last }
{
    section.parities_are_whole();
    write_bytes_to(section, k1, k2, frame.bytes_mut(), line);
}

/// Reads the next row of a received frame, 1 to 9, whose 270N bytes are `bytes`, and descrambles it in place. The rows
/// of an unframed frame stay as they came. After the ninth row `finish_read` returns what the frame says. While a frame
/// is written row by row, no row can be read.
pub fn read_row(section: &mut Section, row: u16, bytes: &mut [u8])
    requires next { row ≡ next_of section.old.under_way }
    requires way { MayRead section.old.under_way }
    requires last { row ≤ 9 }
    requires bytes { length bytes.old ≡ 270 * n_of section.old.rate }
    ensures bytes { (line : List ℕ) → AreRead (n_of section.old.rate) section.old.last line section.old.under_way
        → bytes.new ≡ opened_row (n_of section.old.rate) line bytes.old }
    ensures read { (line : List ℕ) → AreRead (n_of section.old.rate) section.old.last line section.old.under_way
        → AreRead (n_of section.old.rate) section.old.last (line ++ bytes.old) section.new.under_way }
    ensures rate { section.new.rate ≡ section.old.rate }
    ensures last { section.new.last ≡ section.old.last }
    ensures next { next_of section.new.under_way ≡ row + 1 }
    ensures way { MayRead section.new.under_way }
{
    if !section.is_framed(row, bytes) {
        section.pass_over(row);
        return;
    }
    section.receive(row, bytes);
}

// Reads the overhead of a frame's bytes, and descrambles them where the frame is framed.
fn read_bytes(section: &mut Section, bytes: &mut [u8]) -> Received
    requires { length bytes.old ≡ size_of section.old.rate }
    ensures result { result ≡ received_in (n_of section.old.rate) section.old.last bytes.old }
    ensures section { section.new ≡ holding section.old.rate (kept_after (n_of section.old.rate) bytes.old) }
    ensures bytes { bytes.new ≡ opened (n_of section.old.rate) bytes.old }
{
    let n = section.rate.n();
    if !is_framed(n, bytes) {
        section.forget();
        return Received::Unframed;
    }
    let parities = receive_frame(n, bytes);
    let received = section.find(bytes);
    section.keep(parities.line, parities.clear);
    received
}

/// Descrambles a received frame in place, and returns what its overhead says. B1 and B2 are compared with the parities
/// of the frame read before. An unframed frame stays as it came, and the section then keeps no parities. The rows of a
/// frame that is under way are forgotten.
pub fn read_section(section: &mut Section, frame: &mut FrameBuf) -> Received
    requires { frame.old.rate ≡ section.old.rate }
    ensures result { result ≡ received_in (n_of section.old.rate) section.old.last frame.old.bytes }
    ensures section { section.new ≡ holding section.old.rate (kept_after (n_of section.old.rate) frame.old.bytes) }
    ensures frame { frame.new ≡ record frame.old { bytes = opened (n_of section.old.rate) frame.old.bytes } }
{
    read_bytes(section, frame.bytes_mut())
}
