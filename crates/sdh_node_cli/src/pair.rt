//! The frames of both sides in a round, with room for what is written before them.
ghost use Rattle.std.specs.Prelude.{◌≡◌, ◌+◌, ◌*◌, ◌<◌, ◌≤◌, ◌++◌, Some, Err, IfOk, IfErr, IfSome, OnOk, OnErr, length, take, drop};
ghost use Rattle.std.specs.Io.KnownBytes.{Consumes, IsAtEnd};
ghost use Rattle.sdh_basics.specs.Causes.{HasCause};
ghost use Rattle.sdh_ringmap.specs.Rates.{n_of};
ghost use Rattle.sdh_ringmap.specs.declared.Side.TheVariants.{West, East};
ghost use Rattle.sdh_frame.specs.Sizes.{size_of};
ghost use Rattle.sdh_outside.specs.Reading.{TakesFewer};
ghost use Rattle.sdh_overhead.specs.Sections.{holding, clear_frame, line_frame, parities_of};
ghost use Rattle.sdh_node_cli.specs.Faults.{CountsFault};
ghost use Rattle.sdh_node_cli.specs.Pairs.{frame_on, both_in, whole};
ghost use Rattle.sdh_node_cli.specs.Turns.{with_ahead, TakesPart};

use crate::ending::Flaw;
use crate::stop::Stop;
use sdh_frame::FrameBuf;
use sdh_outside::{Failed, Source, fill};
use sdh_overhead::{Section, write_section_to};
use sdh_ringmap::{Rate, Side};
use sdh_terminal::Exit;
use std::alloc::{AllocError, Global};
use std::marker::Model;

/// The most bytes that the lines of an answer have: 128 in the first line, 96 in the line of each of 128 ports, and 32
/// in the line before the frames.
pub const LINES_MAX: usize = 12_448;

/// Room for the frames of both sides, that of the west first: for those that come before a round, and then for those
/// that leave in it, which are scrambled to it. In front of them there is room for the lines of an answer, so that the
/// lines and the frames are written as one slice.
#[derive(Drop)]
pub struct Pair {
    rate: Rate,
    bytes: Vec<u8>,
    /// Where the lines begin.
    from: usize,
    /// Where the lines end and the frames begin.
    at: usize,
}

impl Model for Pair {
    ghost use Rattle.std.specs.Prelude.{◌≡◌, ◌+◌, ◌*◌, ◌≤◌, length};
    ghost use Rattle.std.specs.List.{between};
    ghost use Rattle.sdh_frame.specs.Sizes.{size_of};
    ghost use Rattle.sdh_node_cli.specs.Pairs.{FramePair};

    ghost Value = { FramePair };

    ghost view = { λ a. record {
      rate = a.rate;
      lines = between a.from a.at a.bytes.items;
      west = between a.at (a.at + size_of a.rate) a.bytes.items;
      east = between (a.at + size_of a.rate) (a.at + size_of a.rate + size_of a.rate) a.bytes.items;
    } };

    ghost invariant = { λ a. record {
      begins : a.from ≤ a.at;
      lines : 12448 ≤ a.at;
      frames : length a.bytes.items ≡ a.at + 2 * size_of a.rate;
    } };
}

/// Returns the number of bytes of a frame.
pub fn size_of(rate: Rate) -> usize
    ensures { result ≡ size_of rate }
{
    2430 * rate.n()
}

// Fills a buffer: with the byte that was read before, if one was, and then from a source. Returns the number of bytes,
// that one included.
fn fill_after<R: Source>(source: &mut R, buf: &mut [u8], first: Option<u8>) -> Result<usize, Failed>
    requires some { IfSome first (λ _. 0 < length buf.old) }
    ensures within { IfOk result (λ count. count ≤ length buf.new) }
    ensures took { IfOk result (λ count. Consumes (with_ahead first (R.left source.old)) (R.left source.new) (take count buf.new)) }
    ensures end { IfOk result (λ count. count < length buf.new → IsAtEnd (R.left source.new)) }
    ensures failed { OnErr result (TakesFewer (with_ahead first (R.left source.old)) (R.left source.new) (length buf.new)) }
    ensures cause { HasCause R.exact (R.faults source.old) (R.faults source.new) result }
{
    match first {
        Some(byte) => {
            buf[0] = byte;
            match fill(source, &mut buf[1..]) {
                Ok(count) => Ok(1 + count),
                Err(failed) => Err(failed),
            }
        }
        None => fill(source, buf),
    }
}

// Reads this number of bytes to a place in a buffer. `first` is the first of them, where it was read before.
fn read_at<R: Source>(
    source: &mut R,
    buf: &mut [u8],
    at: usize,
    size: usize,
    first: Option<u8>,
) -> Result<(), Stop>
    requires some { IfSome first (λ _. 0 < size) }
    requires room { at + size ≤ length buf.old }
    ensures ok { OnOk result (Consumes (with_ahead first (R.left source.old)) (R.left source.new) (take size (drop at buf.new))) }
    ensures part { IfErr result (TakesPart size (with_ahead first (R.left source.old)) (R.left source.new)) }
    ensures front { take at buf.new ≡ take at buf.old }
    ensures reads { CountsFault R.exact (R.faults source.old) (R.faults source.new) (result ≡ Err Stop.ReadFault) }
{
    match fill_after(source, &mut buf[at..at + size], first) {
        Ok(count) if count == size => Ok(()),
        Ok(_) => Err(Stop::Bad(Flaw::Cut)),
        Err(_) => Err(Stop::ReadFault),
    }
}

// Copies a part to a place in a buffer.
fn place(bytes: &mut [u8], at: usize, part: &[u8])
    requires { at + length part.now ≤ length bytes.old }
    ensures { bytes.new ≡ take at bytes.old ++ (part.now ++ drop (length part.now) (drop at bytes.old)) }
{
    bytes[at..at + part.len()].copy_from_slice(part);
}

// Sets all section overhead of a frame, with these K bytes, and scrambles it to a place in a buffer.
fn seal_at(section: &mut Section, word: (u8, u8), frame: &mut FrameBuf, bytes: &mut [u8], at: usize)
    requires rate { frame.old.rate ≡ section.old.rate }
    requires room { at + size_of section.old.rate ≤ length bytes.old }
    ensures bytes { let line = line_frame (n_of section.old.rate) section.old.last word.0 word.1 frame.old.bytes in
        bytes.new ≡ take at bytes.old ++ (line ++ drop (length line) (drop at bytes.old)) }
    ensures line { length (line_frame (n_of section.old.rate) section.old.last word.0 word.1 frame.old.bytes) ≡ size_of section.old.rate }
    ensures section { section.new ≡ holding section.old.rate (Some (parities_of (n_of section.old.rate)
        (clear_frame (n_of section.old.rate) section.old.last word.0 word.1 frame.old.bytes)
        (line_frame (n_of section.old.rate) section.old.last word.0 word.1 frame.old.bytes))) }
    ensures rate { frame.new.rate ≡ frame.old.rate }
{
    let (k1, k2) = word;
    let end = at + size_of(frame.rate());
    write_section_to(section, k1, k2, frame, &mut bytes[at..end]);
}

// Returns where the frame of a side begins, if the frames begin at `at`.
fn start_on(side: Side, rate: Rate, at: usize) -> usize
    requires { at + size_of rate ≤ usize.MAX }
    ensures west { side ≡ West → result ≡ at }
    ensures east { side ≡ East → result ≡ at + size_of rate }
{
    match side {
        Side::West => at,
        Side::East => at + size_of(rate),
    }
}

impl Pair {
    /// Returns room for frames of this rate, and for `LINES_MAX` bytes of lines. It takes all its memory here.
    pub fn try_new(alloc: Global, rate: Rate) -> Result<Pair, AllocError>
        ensures { IfOk result (λ pair. pair.rate ≡ rate) }
    {
        let at = LINES_MAX;
        let bytes = vec![in alloc; 0; at + 2 * size_of(rate)]?;
        Ok(Pair {
            rate,
            bytes,
            from: at,
            at,
        })
    }

    /// Reads this number of bytes to the front of the frames. `first` is the first of them, where it was read before.
    /// Returns `Cut` where the source ends before, and `ReadFault` where a read fails.
    pub fn read<R: Source>(
        &mut self,
        source: &mut R,
        size: usize,
        first: Option<u8>,
    ) -> Result<(), Stop>
        requires some { IfSome first (λ _. 0 < size) }
        requires room { size ≤ 2 * size_of self.old.rate }
        ensures ok { OnOk result (Consumes (with_ahead first (R.left source.old)) (R.left source.new) (take size (both_in self.new))) }
        ensures part { IfErr result (TakesPart size (with_ahead first (R.left source.old)) (R.left source.new)) }
        ensures reads { CountsFault R.exact (R.faults source.old) (R.faults source.new) (result ≡ Err Stop.ReadFault) }
        ensures rate { self.new.rate ≡ self.old.rate }
        ensures lines { self.new.lines ≡ self.old.lines }
    {
        read_at(source, self.bytes.as_mut_slice(), self.at, size, first)
    }

    /// Returns this number of bytes of the frames, from the first one on.
    pub fn front(&self, size: usize) -> &[u8]
        requires { size ≤ 2 * size_of self.now.rate }
        ensures bytes { result.now ≡ take size (both_in self.now) }
        ensures len { length result.now ≡ size }
    {
        &self.bytes[self.at..self.at + size]
    }

    /// Returns the number of bytes of both frames.
    pub fn count(&self) -> usize
        ensures count { result ≡ length self.now.west + length self.now.east }
        ensures few { result ≤ 77760 }
    {
        2 * size_of(self.rate)
    }

    /// Puts lines in front of the frames, in place of those before.
    pub fn put_lines(&mut self, lines: &[u8])
        requires { length lines.now ≤ 12448 }
        ensures { self.new ≡ record self.old { lines = lines.now } }
    {
        self.from = self.at - lines.len();
        place(self.bytes.as_mut_slice(), self.from, lines);
    }

    /// Returns the lines and the frames.
    pub fn bytes(&self) -> &[u8]
        ensures { result.now ≡ whole self.now }
    {
        &self.bytes[self.from..]
    }
}

impl Exit for Pair {
    ghost Fits = { λ rate exit. exit.rate ≡ rate };

    ghost sent = { λ side exit buffer. frame_on side exit };

    fn seal(&mut self, side: Side, section: &mut Section, k1: u8, k2: u8, frame: &mut FrameBuf) {
        let at = start_on(side, self.rate, self.at);
        seal_at(section, (k1, k2), frame, self.bytes.as_mut_slice(), at);
    }
}
