//! What a port delivers. It is taken out of the frames that both sides received.
ghost use Rattle.std.specs.Prelude.{◌≡◌, ◌<◌, ◌≤◌, IfOk, IfSome, IfNone, length, take, slice_index_or};
ghost use Rattle.sdh_ringmap.specs.Rates.{n_of};
ghost use Rattle.sdh_frame.specs.Aus.{au_of, payload_of};
ghost use Rattle.sdh_payload.specs.Chunk.{taken};
ghost use Rattle.sdh_payload.specs.Outlet.{silent, delivering, front_of};
ghost use Rattle.sdh_interchange.specs.Taking.{IsOf};
ghost use Rattle.sdh_terminal.specs.Passing.{h3_of};
ghost use Rattle.sdh_terminal.specs.Lines.{line_on, received, dropped_by, IsFeeder, AreOf};
ghost use Rattle.sdh_terminal.specs.Outlets.{chunk_form, chunk_from, delivered_from, HasRoom};

use crate::intake::h3_at;
use crate::matrix::{Feeder, Matrix};
use sdh_frame::FrameBuf;
use sdh_interchange::Taken;
use sdh_payload::{Cells, ChunkForm, Delivered, Front, take_chunk_in_place};
use sdh_pointer::Action;
use sdh_ringmap::Side;
use std::alloc::{AllocError, Global};
use std::marker::Model;

/// The payloads that have been taken out of the frames of both sides of a node, while its ports deliver. One pair
/// serves several nodes, one after the other.
#[derive(Debug, Drop)]
pub struct TakenPair {
    west: Taken,
    east: Taken,
}

impl TakenPair {
    /// Returns a pair in which nothing is held. All its memory is taken here.
    pub fn try_new(alloc: Global) -> Result<TakenPair, AllocError> {
        Ok(TakenPair {
            west: Taken::try_new(alloc)?,
            east: Taken::try_new(alloc)?,
        })
    }

    /// Begins with the frames of both sides of a node, and holds nothing of them yet.
    pub fn begin<X: Matrix>(&mut self, cross: &X)
        ensures { AreOf (X.lines cross.now) self.new.west self.new.east }
    {
        self.west.begin(cross.intake(Side::West).frame());
        self.east.begin(cross.intake(Side::East).frame());
    }
}

/// What a port delivers, and the pointer value of the interpreter through which it came.
#[derive(Debug, Drop)]
pub struct Outlet {
    delivered: Delivered,
    // The memory of a chunk, while AIS is delivered.
    spare: Option<Cells>,
    value: u16,
}

impl Model for Outlet {
    ghost use Rattle.std.specs.Prelude.{◌≤◌};
    ghost use Rattle.sdh_payload.specs.Outlet.{Outlet};
    ghost use Rattle.sdh_terminal.specs.Outlets.{HasRoom};

    ghost Value = { Outlet };

    ghost view = { λ o. record { delivered = o.delivered; value = o.value } };

    ghost invariant = { λ o. HasRoom o.delivered o.spare × (o.value ≤ 782) };
}

impl Outlet {
    /// Returns an outlet that delivers AIS, with room for a chunk.
    pub fn try_new(alloc: Global) -> Result<Outlet, AllocError>
        ensures { IfOk result (λ outlet. outlet ≡ silent) }
    {
        Ok(Outlet {
            delivered: Delivered::Ais,
            spare: Some(Cells::try_new(alloc)?),
            value: 0,
        })
    }

    /// Returns what is delivered.
    pub fn delivered(&self) -> &Delivered
        ensures { result.now ≡ self.now.delivered }
    {
        &self.delivered
    }

    /// Returns the pointer value of the interpreter through which the chunk came, 0 to 782, and 0 with AIS.
    pub fn value(&self) -> u16
        ensures value { result ≡ self.now.value }
        ensures small { result ≤ 782 }
    {
        self.value
    }

    /// Delivers AIS.
    pub fn silence(&mut self)
        ensures { self.new ≡ silent }
    {
        if let Delivered::Chunk(cells) = std::mem::replace(&mut self.delivered, Delivered::Ais) {
            self.spare = Some(cells);
        }
        self.value = 0;
    }

    /// Delivers the chunk that AU-4 number `au`, 1 to N, of a frame carries, in this form and with this pointer value,
    /// 0 to 782. `payloads` has what was already taken out of the frame.
    pub fn deliver_au(
        &mut self,
        frame: &FrameBuf,
        payloads: &mut Taken,
        au: u16,
        form: ChunkForm,
        value: u16,
    )
        requires first { 1 ≤ au }
        requires last { au ≤ n_of frame.now.rate }
        requires value { value ≤ 782 }
        requires payloads { IsOf frame.now payloads.old }
        ensures payloads { IsOf frame.now payloads.new }
        ensures outlet { let came = au_of (n_of frame.now.rate) au frame.now.bytes in
            self.new ≡ delivering value (taken form came.payload (h3_of came.pointers)) }
    {
        let mut cells = take_cells(&mut self.delivered, &mut self.spare);
        take_au(frame, payloads, au, form, &mut cells);
        self.delivered = Delivered::Chunk(cells);
        self.value = value;
    }
}

/// What each port at a node delivers, in the order of the ports.
#[derive(Debug, Drop)]
pub struct Outlets {
    pub(crate) items: Vec<Outlet>,
}

impl Model for Outlets {
    ghost use Rattle.std.specs.Prelude.{List};
    ghost use Rattle.sdh_payload.specs.Outlet.{Outlet};

    ghost Value = { List Outlet };

    ghost view = { λ o. o.items.items };
}

impl Outlets {
    /// Returns room for what `count` ports deliver. All its memory is taken here.
    pub fn try_new(alloc: Global, count: usize) -> Result<Outlets, AllocError>
        ensures { IfOk result (λ outlets. length outlets ≡ count) }
    {
        let mut items = Vec::with_capacity(alloc, count)?;
        for _ in 0..count {
            items.push(Outlet::try_new(alloc)?)?;
        }
        Ok(Outlets { items })
    }

    /// Returns what the port at a place delivers.
    pub fn at(&self, place: usize) -> &Outlet
        requires { place < length self.now }
        ensures { result.now ≡ slice_index_or self.now place silent }
    {
        &self.items[place]
    }
}

// Returns the memory for a chunk: that of the delivered chunk, or the spare memory. Afterwards AIS is delivered.
fn take_cells(delivered: &mut Delivered, spare: &mut Option<Cells>) -> Cells
    requires { HasRoom delivered.old spare.old }
    ensures { delivered.new ≡ Delivered.Ais }
{
    match std::mem::replace(delivered, Delivered::Ais) {
        Delivered::Chunk(cells) => cells,
        Delivered::Ais => {
            let Some(cells) = spare.take() else {
                unreachable!()
            };
            cells
        }
    }
}

// Takes the bytes of a port from an AU-4 of a frame.
fn take_au(frame: &FrameBuf, payloads: &mut Taken, au: u16, form: ChunkForm, cells: &mut Cells)
    requires first { 1 ≤ au }
    requires last { au ≤ n_of frame.now.rate }
    requires payloads { IsOf frame.now payloads.old }
    ensures payloads { IsOf frame.now payloads.new }
    ensures cells { let came = au_of (n_of frame.now.rate) au frame.now.bytes in cells.new ≡ taken form came.payload (h3_of came.pointers) }
{
    payloads.give(frame, au, cells);
    let h3 = h3_at(frame, au);
    take_chunk_in_place(&h3, form, cells);
}

// Returns the form of the chunk that comes with an action: three bytes fewer at a positive justification, and three
// more at a negative one.
fn chunk_form(action: Action) -> ChunkForm
    ensures { result ≡ chunk_form action }
{
    match action {
        Action::Up => ChunkForm::Short,
        Action::Down => ChunkForm::Long,
        Action::Normal | Action::New | Action::Ais => ChunkForm::Plain,
    }
}

// Returns the AU-4 that is dropped from a feeder, by its side and its number, or `None` where that is AIS.
#[tactic(auto, unfolding(crate::specs::Outlets::delivered_from))]
fn dropped_au<X: Matrix>(cross: &X, feeder: Feeder) -> Option<(Side, u16)>
    requires inside { IsFeeder (n_of (X.lines cross.now).rate) feeder }
    ensures inside { IfSome result (λ of. (1 ≤ of.1) × (of.1 ≤ n_of (X.lines cross.now).rate)) }
    ensures chunk { IfSome result (λ of. delivered_from (dropped_by (X.lines cross.now) feeder)
        ≡ chunk_from (received (X.lines cross.now) of.0 of.1)) }
    ensures ais { IfNone result (delivered_from (dropped_by (X.lines cross.now) feeder) ≡ silent) }
{
    match feeder {
        Feeder::Received(side, au) => match cross.intake(side).action(au) {
            Action::Ais => None,
            _ => Some((side, au)),
        },
        Feeder::Port(_) | Feeder::Ais => None,
    }
}

// Delivers an AU-4 that a side received and that isn't AIS.
fn deliver_chunk<X: Matrix>(
    cross: &X,
    side: Side,
    au: u16,
    payloads: &mut Taken,
    outlet: &mut Outlet,
)
    requires first { 1 ≤ au }
    requires last { au ≤ n_of (X.lines cross.now).rate }
    requires payloads { IsOf (line_on (X.lines cross.now) side).intake.frame payloads.old }
    ensures payloads { IsOf (line_on (X.lines cross.now) side).intake.frame payloads.new }
    ensures outlet { outlet.new ≡ chunk_from (received (X.lines cross.now) side au) }
{
    let intake = cross.intake(side);
    let form = chunk_form(intake.action(au));
    outlet.deliver_au(intake.frame(), payloads, au, form, cross.value(side, au));
}

/// Delivers what is dropped from this feeder: the AU-4 that a side received, or AIS. `taken` has the payloads that were
/// already taken out of the frames of both sides.
pub fn deliver_dropped<X: Matrix>(
    cross: &X,
    feeder: Feeder,
    taken: &mut TakenPair,
    outlet: &mut Outlet,
)
    requires inside { IsFeeder (n_of (X.lines cross.now).rate) feeder }
    requires taken { AreOf (X.lines cross.now) taken.old.west taken.old.east }
    ensures taken { AreOf (X.lines cross.now) taken.new.west taken.new.east }
    ensures outlet { outlet.new ≡ delivered_from (dropped_by (X.lines cross.now) feeder) }
{
    let TakenPair { west, east } = taken;
    match dropped_au(cross, feeder) {
        Some((Side::West, au)) => deliver_chunk(cross, Side::West, au, west, outlet),
        Some((Side::East, au)) => deliver_chunk(cross, Side::East, au, east, outlet),
        None => outlet.silence(),
    }
}

// Returns the first 16 payload bytes of AU-4 number `au`, 1 to N, of a frame.
fn first_bytes(frame: &FrameBuf, au: u16) -> [u8; 16]
    requires first { 1 ≤ au }
    requires last { au ≤ n_of frame.now.rate }
    ensures { result ≡ take 16 (payload_of (n_of frame.now.rate) au frame.now.bytes) }
{
    let view = frame.au(au);
    let mut bytes = [0u8; 16];
    for k in 0..16 {
        bytes[k] = view.payload(k as u16);
    }
    bytes
}

/// Returns the front of what is dropped from this feeder. It takes no payload out of a frame.
pub fn front_dropped<X: Matrix>(cross: &X, feeder: Feeder) -> Front
    requires { IsFeeder (n_of (X.lines cross.now).rate) feeder }
    ensures { result ≡ front_of (delivered_from (dropped_by (X.lines cross.now) feeder)) }
{
    match dropped_au(cross, feeder) {
        Some((side, au)) => {
            let bytes = first_bytes(cross.intake(side).frame(), au);
            Front::Bytes(bytes, cross.value(side, au))
        }
        None => Front::Ais,
    }
}
