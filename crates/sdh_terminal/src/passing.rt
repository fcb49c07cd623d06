//! The AU-4s of a sent frame: where each payload comes from, and its pointer bytes.
ghost use Rattle.std.specs.Prelude.{◌≡◌, ◌≢◌, ℕ, List, ◌+◌, ◌<◌, ◌≤◌, IfOk, length};
ghost use Rattle.sdh_ringmap.specs.Rates.{n_of};
ghost use Rattle.sdh_frame.specs.Aus.{au_of};
ghost use Rattle.std.specs.List.{list_any};
ghost use Rattle.sdh_pointer.specs.declared.word.Form.{Form};
ghost use Rattle.sdh_pointer.specs.Sending.{Generator, after_action};
ghost use Rattle.sdh_interchange.specs.Choosing.{IsSource, AreSources, payload_in};
ghost use Rattle.sdh_interchange.specs.Assembled.{payload_from, assembled};
ghost use Rattle.sdh_terminal.specs.Same.{same_generators};
ghost use Rattle.sdh_terminal.specs.Passing.{no_input, h3_of, h3_sent, pointers_with, au_for, au_sent, states_of, aus_sent, generators_after};
ghost use Rattle.sdh_terminal.specs.Sources.{payload_by, bytes_on};
ghost use Rattle.sdh_terminal.specs.Tributaries.{own_input, added_last};
ghost use Rattle.sdh_terminal.specs.Lines.{received, fed_by, all_fed_by, IsFeeder};

use crate::intake::h3_at;
use crate::matrix::{Feeder, Matrix};
use crate::tributaries::Tributaries;
use crate::tributary::Tributary;
use sdh_circuits::PortId;
use sdh_frame::FrameBuf;
use sdh_interchange::{Payloads, Source};
use sdh_pointer::{Action, Form, Gen, Word, write_word};
use sdh_ringmap::Side;
use std::alloc::{AllocError, Global};
use std::fmt;

// Returns the nine pointer bytes of an AU-4, with a pointer word and three H3 bytes.
fn pointers_with(word: Word, h3: [u8; 3]) -> [u8; 9]
    ensures { result ≡ pointers_with word.0 h3 }
{
    let mut h = [0; 2];
    write_word(word, &mut h);
    [h[0], 0x9B, 0x9B, h[1], 0xFF, 0xFF, h3[0], h3[1], h3[2]]
}

// Returns the three H3 bytes to send with a pointer word of this form: at a negative justification those that came,
// which carry payload, and otherwise zeros.
fn h3_sent(form: Form, h3: [u8; 3]) -> [u8; 3]
    ensures { (pointers : List ℕ) → h3 ≡ h3_of pointers → result ≡ h3_sent form pointers }
{
    match form {
        Form::Down => h3,
        Form::Normal | Form::Enabled | Form::Up | Form::Ais => [0, 0, 0],
    }
}

// Returns the nine pointer bytes of an AU-4 of a frame that is passed on.
fn pointers_for(action: Action, form: Form, word: Word, frame: &FrameBuf, au: u16) -> [u8; 9]
    requires first { 1 ≤ au }
    requires last { au ≤ n_of frame.now.rate }
    ensures { result ≡ (au_for action form word.0 (au_of (n_of frame.now.rate) au frame.now.bytes)).pointers }
{
    match action {
        Action::Ais => [0xFF; 9],
        Action::Normal | Action::New | Action::Up | Action::Down => {
            pointers_with(word, h3_sent(form, h3_at(frame, au)))
        }
    }
}

// Returns the source of the payload of an AU-4 that a side received, for this action of its interpreter.
fn source_for(action: Action, side: Side, au: u16) -> Source
    requires { 1 ≤ au }
    ensures source { (n to : ℕ) → au ≤ n → IsSource n to result }
    ensures payload { (n w : ℕ) (form : Form) (west east : List ℕ) (own : List (List ℕ))
        → payload_from n west east own result ≡ (au_for action form w (au_of n au (bytes_on side west east))).payload }
{
    match action {
        Action::Ais => Source::Ones,
        Action::Normal | Action::New | Action::Up | Action::Down => match side {
            Side::West => Source::First(au),
            Side::East => Source::Second(au),
        },
    }
}

// Steps a generator with AIS. Returns where the payload comes from, and the pointer bytes.
#[tactic(auto, unfolding(crate::specs::Passing::au_sent))]
fn send_ais(generator: &mut Gen) -> (Source, [u8; 9])
    ensures generator { generator.new ≡ after_action generator.old Action.Ais 0 }
    ensures source { (n to : ℕ) → IsSource n to result.0 }
    ensures pointers { result.1 ≡ (au_sent generator.old.sending no_input).pointers }
    ensures payload { (n : ℕ) (west east : List ℕ) (own : List (List ℕ))
        → payload_from n west east own result.0 ≡ (au_sent generator.old.sending no_input).payload }
{
    generator.step(Action::Ais, 0);
    (Source::Ones, [0xFF; 9])
}

// Steps a generator with an AU-4 that a side received. Returns where the payload comes from, and the pointer bytes.
#[tactic(auto, unfolding(crate::specs::Passing::au_sent, sdh_pointer::specs::Sending::after_action))]
fn pass_on<X: Matrix>(cross: &X, side: Side, au: u16, generator: &mut Gen) -> (Source, [u8; 9])
    requires first { 1 ≤ au }
    requires last { au ≤ n_of (X.lines cross.now).rate }
    ensures generator { let input = received (X.lines cross.now) side au in
        generator.new ≡ after_action generator.old input.action input.value }
    ensures source { (to : ℕ) → IsSource (n_of (X.lines cross.now).rate) to result.0 }
    ensures pointers { result.1 ≡ (au_sent generator.old.sending (received (X.lines cross.now) side au)).pointers }
    ensures payload { (own : List (List ℕ))
        → payload_by (X.lines cross.now) own result.0 ≡ (au_sent generator.old.sending (received (X.lines cross.now) side au)).payload }
{
    let action = cross.intake(side).action(au);
    let form = generator.step(action, cross.value(side, au));
    let frame = cross.intake(side).frame();
    let pointers = pointers_for(action, form, generator.word(), frame, au);
    (source_for(action, side, au), pointers)
}

// Steps a generator with what a port sends, and puts the port's payload at place `to` among the own payloads. Returns
// where the payload comes from, and the pointer bytes.
#[tactic(auto, unfolding(crate::specs::Passing::au_sent, sdh_pointer::specs::Sending::after_action))]
fn send_own<'a>(
    port: &'a Tributary,
    generator: &mut Gen,
    own: &mut Payloads<'a>,
    to: u16,
) -> (Source, [u8; 9])
    requires first { 1 ≤ to }
    requires last_to { to ≤ 16 }
    ensures generator { let input = own_input port.now in generator.new ≡ after_action generator.old input.action input.value }
    ensures source { (n : ℕ) → IsSource n to result.0 }
    ensures pointers { result.1 ≡ (au_sent generator.old.sending (own_input port.now)).pointers }
    ensures payload { (n : ℕ) (west east : List ℕ)
        → payload_from n west east own.new result.0 ≡ (au_sent generator.old.sending (own_input port.now)).payload }
    ensures others { (m : ℕ) → 1 ≤ m → m ≢ to → payload_in m own.new ≡ payload_in m own.old }
{
    let form = generator.step(port.action(), port.value());
    own.put(to, port.payload());
    let h3 = h3_sent(form, port.h3());
    (Source::Own(to), pointers_with(generator.word(), h3))
}

// Steps a generator with what the port with this name sends, or with AIS where the port isn't at the node. Returns
// where the payload comes from, and the pointer bytes.
fn add<'a>(
    id: PortId,
    ports: &'a Tributaries,
    generator: &mut Gen,
    own: &mut Payloads<'a>,
    to: u16,
) -> (Source, [u8; 9])
    requires first { 1 ≤ to }
    requires last_to { to ≤ 16 }
    ensures generator { let input = added_last ports.now id in generator.new ≡ after_action generator.old input.action input.value }
    ensures source { (n : ℕ) → IsSource n to result.0 }
    ensures pointers { result.1 ≡ (au_sent generator.old.sending (added_last ports.now id)).pointers }
    ensures payload { (n : ℕ) (west east : List ℕ)
        → payload_from n west east own.new result.0 ≡ (au_sent generator.old.sending (added_last ports.now id)).payload }
    ensures others { (m : ℕ) → 1 ≤ m → m ≢ to → payload_in m own.new ≡ payload_in m own.old }
{
    match ports.find(id) {
        Some(port) => send_own(port, generator, own, to),
        None => send_ais(generator),
    }
}

// Steps the generator of AU-4 number `to` with what feeds it. Returns where the payload comes from, and the pointer
// bytes. A port's payload is put at place `to` among the own payloads.
fn send_one<'a, X: Matrix>(
    cross: &X,
    ports: &'a Tributaries,
    feeder: Feeder,
    generator: &mut Gen,
    own: &mut Payloads<'a>,
    to: u16,
) -> (Source, [u8; 9])
    requires inside { IsFeeder (n_of (X.lines cross.now).rate) feeder }
    requires to_first { 1 ≤ to }
    requires last_to { to ≤ 16 }
    ensures generator { let input = fed_by (X.lines cross.now) (added_last ports.now) feeder in
        generator.new ≡ after_action generator.old input.action input.value }
    ensures source { IsSource (n_of (X.lines cross.now).rate) to result.0 }
    ensures pointers { result.1 ≡ (au_sent generator.old.sending (fed_by (X.lines cross.now) (added_last ports.now) feeder)).pointers }
    ensures payload { payload_by (X.lines cross.now) own.new result.0 ≡ (au_sent generator.old.sending
        (fed_by (X.lines cross.now) (added_last ports.now) feeder)).payload }
    ensures others { (m : ℕ) → 1 ≤ m → m ≢ to → payload_in m own.new ≡ payload_in m own.old }
{
    match feeder {
        Feeder::Port(id) => add(id, ports, generator, own, to),
        Feeder::Received(side, au) => pass_on(cross, side, au, generator),
        Feeder::Ais => send_ais(generator),
    }
}

// Returns whether one of these generators changed its state in its last step.
fn any_moved(generators: &[Gen]) -> bool
    ensures { result ≡ list_any (λ (g : Generator). g.moved) generators.now }
{
    generators.iter().any(|generator| generator.moved())
}

// Steps all generators of a side, and sets the sources and the pointer bytes of the AU-4s that leave there. Returns
// whether each generator is in the state in which it was.
fn plan_all<'a, X: Matrix>(
    cross: &X,
    ports: &'a Tributaries,
    side: Side,
    generators: &mut Vec<Gen>,
    sources: &mut [Source],
    pointers: &mut [[u8; 9]],
    own: &mut Payloads<'a>,
) -> bool
    requires few { n_of (X.lines cross.now).rate ≤ 16 }
    requires len { length generators.old.items ≡ n_of (X.lines cross.now).rate }
    requires sources { length sources.old ≡ n_of (X.lines cross.now).rate }
    requires pointers { length pointers.old ≡ n_of (X.lines cross.now).rate }
    ensures generators { states_of generators.new.items ≡ generators_after
        (all_fed_by (X.lines cross.now) (added_last ports.now) (X.leads cross.now side)) (states_of generators.old.items) }
    ensures aus { assembled (n_of (X.lines cross.now).rate)
        (X.lines cross.now).west.intake.frame.bytes (X.lines cross.now).east.intake.frame.bytes own.new sources.new pointers.new ≡ aus_sent
        (all_fed_by (X.lines cross.now) (added_last ports.now) (X.leads cross.now side)) (states_of generators.old.items) }
    ensures sources { AreSources (n_of (X.lines cross.now).rate) sources.new }
    ensures same { result ≡ same_generators (states_of generators.new.items) (states_of generators.old.items) }
    ensures len { length generators.new.items ≡ n_of (X.lines cross.now).rate }
    ensures pointers_len { length pointers.new ≡ n_of (X.lines cross.now).rate }
{
    for k in 0..generators.len() {
        let to = k as u16 + 1;
        let feeder = cross.leaving(side, to);
        let generator = &mut generators[k];
        let (source, bytes) = send_one(cross, ports, feeder, generator, own, to);
        sources[k] = source;
        pointers[k] = bytes;
    }
    !any_moved(generators)
}

/// The plan of a frame's AU-4s before the frame is put together: where the payload of each comes from, and its pointer
/// bytes.
#[derive(Drop)]
pub struct Assembly {
    pub sources: Vec<Source>,
    pub pointers: Vec<[u8; 9]>,
}

impl fmt::Debug for Assembly {
    fn fmt<W: fmt::Write>(&self, f: &mut fmt::Formatter<W>) -> fmt::Result {
        write!(f, "Assembly({} AU-4s)", self.sources.len())
    }
}

impl Assembly {
    /// Returns room for `n` AU-4s, at most 16. All its memory is taken here.
    pub fn try_new(alloc: Global, n: usize) -> Result<Assembly, AllocError>
        requires { n ≤ 16 }
        ensures sources { IfOk result (λ a. length a.sources.items ≡ n) }
        ensures pointers { IfOk result (λ a. length a.pointers.items ≡ n) }
    {
        Ok(Assembly {
            sources: vec![in alloc; Source::Ones; n]?,
            pointers: vec![in alloc; [0xFF; 9]; n]?,
        })
    }

    /// Steps all generators of a side, and plans the AU-4s of its next frame. Returns whether each generator is in the
    /// state in which it was.
    pub fn plan<'a, X: Matrix>(
        &mut self,
        cross: &X,
        ports: &'a Tributaries,
        side: Side,
        generators: &mut Vec<Gen>,
        own: &mut Payloads<'a>,
    ) -> bool
        requires few { n_of (X.lines cross.now).rate ≤ 16 }
        requires len { length generators.old.items ≡ n_of (X.lines cross.now).rate }
        requires sources { length self.old.sources.items ≡ n_of (X.lines cross.now).rate }
        requires pointers { length self.old.pointers.items ≡ n_of (X.lines cross.now).rate }
        ensures generators { states_of generators.new.items ≡ generators_after
            (all_fed_by (X.lines cross.now) (added_last ports.now) (X.leads cross.now side)) (states_of generators.old.items) }
        ensures aus { assembled (n_of (X.lines cross.now).rate) (X.lines cross.now).west.intake.frame.bytes
            (X.lines cross.now).east.intake.frame.bytes own.new self.new.sources.items self.new.pointers.items ≡ aus_sent
            (all_fed_by (X.lines cross.now) (added_last ports.now) (X.leads cross.now side)) (states_of generators.old.items) }
        ensures sources { AreSources (n_of (X.lines cross.now).rate) self.new.sources.items }
        ensures same { result ≡ same_generators (states_of generators.new.items) (states_of generators.old.items) }
        ensures len { length generators.new.items ≡ n_of (X.lines cross.now).rate }
        ensures pointers { length self.new.pointers.items ≡ n_of (X.lines cross.now).rate }
    {
        let sources = self.sources.as_mut_slice();
        let pointers = self.pointers.as_mut_slice();
        plan_all(cross, ports, side, generators, sources, pointers, own)
    }
}
