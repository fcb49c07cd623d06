//! The sending half of one side.
ghost use Rattle.std.specs.Prelude.{◌≡◌, None, Some, IfOk, length};
ghost use Rattle.sdh_ringmap.specs.Rates.{n_of};
ghost use Rattle.sdh_ringmap.specs.Places.{opposite};
ghost use Rattle.sdh_frame.specs.Sizes.{Frame};
ghost use Rattle.sdh_overhead.specs.Sections.{holding, clear_frame, line_frame, parities_of};
ghost use Rattle.sdh_kbytes.specs.KBytes.{IsSpellable};
ghost use Rattle.sdh_ringmap.specs.declared.Side.TheVariants.{West, East};
ghost use Rattle.sdh_terminal.specs.Sources.{put_together};
ghost use Rattle.sdh_kbytes.specs.Same.{same_word};
ghost use Rattle.sdh_kbytes.specs.KBytes.{first_byte, second_byte};
ghost use Rattle.sdh_interchange.specs.Choosing.{AreSources};
ghost use Rattle.sdh_terminal.specs.Same.{same_generators};
ghost use Rattle.sdh_terminal.specs.Tributaries.{added_last};
ghost use Rattle.sdh_terminal.specs.Lines.{all_fed_by};
ghost use Rattle.sdh_terminal.specs.Sending.{new_sending, with_word, frame_from, after_sending};

use crate::exit::Exit;
use crate::making::new_generators;
use crate::matrix::Matrix;
use crate::passing::Assembly;
use crate::tributaries::Tributaries;
use sdh_frame::FrameBuf;
use sdh_interchange::{Choice, Payloads, assemble};
use sdh_kbytes::{K, encode, same_word};
use sdh_overhead::Section;
use sdh_pointer::Gen;
use sdh_ringmap::{Rate, Side};
use std::alloc::{AllocError, Global};
use std::marker::Model;

/// The sending half of one side: the section, the pointer generators and the word of its K bytes.
#[derive(Debug, Drop)]
pub struct Sender {
    section: Section,
    generators: Vec<Gen>,
    assembly: Assembly,
    word: K,
}

impl Model for Sender {
    ghost use Rattle.std.specs.Prelude.{◌≡◌, None, length};
    ghost use Rattle.sdh_ringmap.specs.Rates.{n_of};
    ghost use Rattle.sdh_terminal.specs.Passing.{states_of};
    ghost use Rattle.sdh_terminal.specs.Sending.{Sending, IsSending};

    ghost Value = { Sending };

    ghost view = { λ s. record { section = s.section; generators = states_of s.generators.items; word = s.word } };

    ghost invariant = { λ s. record {
      side : IsSending (record { section = s.section; generators = states_of s.generators.items; word = s.word });
      fresh : s.section.under_way ≡ None;
      sources : length s.assembly.sources.items ≡ n_of s.section.rate;
      pointers : length s.assembly.pointers.items ≡ n_of s.section.rate;
    } };
}

impl Sender {
    /// Returns a side that has sent nothing. Its word is `word` until `say` sets another one. All its memory is taken
    /// here.
    pub fn try_new(alloc: Global, rate: Rate, word: K) -> Result<Sender, AllocError>
        requires { IsSpellable word }
        ensures { IfOk result (λ s. s ≡ new_sending rate word) }
    {
        Ok(Sender {
            section: Section::try_new(rate),
            generators: new_generators(alloc, rate.n())?,
            assembly: Assembly::try_new(alloc, rate.n())?,
            word,
        })
    }

    /// Sets the word of the next frame. Returns whether it is the same as the word before.
    pub fn say(&mut self, word: K) -> bool
        requires { IsSpellable word }
        ensures sender { self.new ≡ with_word word self.old }
        ensures same { result ≡ same_word self.new.word self.old.word }
    {
        let same = same_word(word, self.word);
        self.word = word;
        same
    }

    /// Returns the word that was set last: that of the last frame, until `say` sets the next one.
    pub fn word(&self) -> K
        ensures word { result ≡ self.now.word }
        ensures spellable { IsSpellable result }
    {
        self.word
    }
}

// What one side's next frame is made of: the sources and the pointer bytes of its AU-4s, the frames that both sides
// took in, the payloads of the node's ports, and the K bytes.
#[derive(Drop)]
struct Content<'a, 'b> {
    choice: Choice<'a>,
    pointers: &'a [[u8; 9]],
    first: &'a FrameBuf,
    second: &'a FrameBuf,
    own: Payloads<'b>,
    k1: u8,
    k2: u8,
}

// Returns what was planned for a frame, with the K bytes of a word.
fn content_of<'a, 'b, X: Matrix>(
    rate: Rate,
    cross: &'a X,
    assembly: &'a Assembly,
    own: Payloads<'b>,
    word: K,
) -> Content<'a, 'b>
    requires rate { (X.lines cross.now).rate ≡ rate }
    requires sources { AreSources (n_of rate) assembly.now.sources.items }
    requires word { IsSpellable word }
    ensures choice { result.choice ≡ record { rate = rate; sources = assembly.now.sources.items } }
    ensures pointers { result.pointers.now ≡ assembly.now.pointers.items }
    ensures first { result.first.now ≡ (X.lines cross.now).west.intake.frame }
    ensures second { result.second.now ≡ (X.lines cross.now).east.intake.frame }
    ensures rates { (result.first.now.rate ≡ rate) × (result.second.now.rate ≡ rate) }
    ensures own { result.own ≡ own.entry }
    ensures k1 { result.k1 ≡ first_byte word }
    ensures k2 { result.k2 ≡ second_byte word }
{
    let (k1, k2) = encode(word);
    Content {
        choice: Choice::new(rate, assembly.sources.as_slice()),
        pointers: assembly.pointers.as_slice(),
        first: cross.intake(Side::West).frame(),
        second: cross.intake(Side::East).frame(),
        own,
        k1,
        k2,
    }
}

// Puts a frame together, gives it its overhead and scrambles it to where it leaves.
fn write_frame<E: Exit>(
    content: &Content,
    side: Side,
    section: &mut Section,
    out: &mut FrameBuf,
    exit: &mut E,
)
    requires content { content.now.choice.rate ≡ out.old.rate }
    requires pointers { length content.now.pointers.now ≡ n_of out.old.rate }
    requires first { content.now.first.now.rate ≡ out.old.rate }
    requires second { content.now.second.now.rate ≡ out.old.rate }
    requires section { section.old.rate ≡ out.old.rate }
    requires fits { E.Fits out.old.rate exit.old }
    ensures frame { E.sent side exit.new out.new ≡ record out.old {
      bytes = line_frame (n_of out.old.rate) section.old.last content.now.k1 content.now.k2
          (put_together (n_of out.old.rate) content.now.first.now.bytes content.now.second.now.bytes content.now.own
          content.now.choice.sources content.now.pointers.now out.old.bytes);
    } }
    ensures other { (buffer : Frame) → E.sent (opposite side) exit.new buffer ≡ E.sent (opposite side) exit.old buffer }
    ensures section { section.new ≡ holding out.old.rate (Some (parities_of (n_of out.old.rate)
        (clear_frame (n_of out.old.rate) section.old.last content.now.k1 content.now.k2
        (put_together (n_of out.old.rate) content.now.first.now.bytes content.now.second.now.bytes content.now.own
        content.now.choice.sources content.now.pointers.now out.old.bytes)) (E.sent side exit.new out.new).bytes)) }
    ensures out { out.new.rate ≡ out.old.rate }
    ensures fits { E.Fits out.old.rate exit.new }
{
    assemble(
        out,
        &content.choice,
        content.pointers,
        content.first,
        content.second,
        &content.own,
    );
    exit.seal(side, section, content.k1, content.k2, out);
}

// Sends the next frame of a side. Returns whether each of its generators is in the state in which it was.
fn send_side<X: Matrix, E: Exit>(
    sender: &mut Sender,
    side: Side,
    cross: &X,
    ports: &Tributaries,
    out: &mut FrameBuf,
    exit: &mut E,
) -> bool
    requires rate { (X.lines cross.now).rate ≡ out.old.rate }
    requires section { sender.old.section.rate ≡ out.old.rate }
    requires fits { E.Fits out.old.rate exit.old }
    ensures sender { sender.new ≡ after_sending (all_fed_by (X.lines cross.now) (added_last ports.now) (X.leads cross.now side)) sender.old }
    ensures frame { E.sent side exit.new out.new ≡ frame_from
        (all_fed_by (X.lines cross.now) (added_last ports.now) (X.leads cross.now side)) sender.old }
    ensures other { (buffer : Frame) → E.sent (opposite side) exit.new buffer ≡ E.sent (opposite side) exit.old buffer }
    ensures same { result ≡ same_generators sender.new.generators sender.old.generators }
    ensures rate { sender.new.section.rate ≡ sender.old.section.rate }
    ensures out { out.new.rate ≡ out.old.rate }
    ensures fits { E.Fits out.old.rate exit.new }
{
    let mut own = Payloads::none();
    let generators = &mut sender.generators;
    let same = sender
        .assembly
        .plan(cross, ports, side, generators, &mut own);
    let content = content_of(out.rate(), cross, &sender.assembly, own, sender.word);
    write_frame(&content, side, &mut sender.section, out, exit);
    same
}

/// Sends the next frames of both sides. They are put together in a buffer for each side, and scrambled to where they
/// leave. Returns for each side, the west first, whether each of its generators is in the state in which it was.
pub fn send_both<X: Matrix, E: Exit>(
    west: &mut Sender,
    east: &mut Sender,
    cross: &X,
    ports: &Tributaries,
    west_out: &mut FrameBuf,
    east_out: &mut FrameBuf,
    exit: &mut E,
) -> (bool, bool)
    requires west_rate { (X.lines cross.now).rate ≡ west_out.old.rate }
    requires east_rate { (X.lines cross.now).rate ≡ east_out.old.rate }
    requires west_section { west.old.section.rate ≡ west_out.old.rate }
    requires east_section { east.old.section.rate ≡ east_out.old.rate }
    requires fits { E.Fits (X.lines cross.now).rate exit.old }
    ensures west { west.new ≡ after_sending (all_fed_by (X.lines cross.now) (added_last ports.now) (X.leads cross.now West)) west.old }
    ensures east { east.new ≡ after_sending (all_fed_by (X.lines cross.now) (added_last ports.now) (X.leads cross.now East)) east.old }
    ensures west_frame { E.sent West exit.new west_out.new ≡ frame_from
        (all_fed_by (X.lines cross.now) (added_last ports.now) (X.leads cross.now West)) west.old }
    ensures east_frame { E.sent East exit.new east_out.new ≡ frame_from
        (all_fed_by (X.lines cross.now) (added_last ports.now) (X.leads cross.now East)) east.old }
    ensures west_same { result.0 ≡ same_generators west.new.generators west.old.generators }
    ensures east_same { result.1 ≡ same_generators east.new.generators east.old.generators }
    ensures rates { (west.new.section.rate ≡ west.old.section.rate) × (east.new.section.rate ≡ east.old.section.rate) }
    ensures outs { (west_out.new.rate ≡ west_out.old.rate) × (east_out.new.rate ≡ east_out.old.rate) }
    ensures fits { E.Fits (X.lines cross.now).rate exit.new }
{
    let west_same = send_side(west, Side::West, cross, ports, west_out, exit);
    let east_same = send_side(east, Side::East, cross, ports, east_out, exit);
    (west_same, east_same)
}
