//! Checks of a circuit that is asked for, as far as they need no other circuit, and the ends and ports that are made
//! for it.
ghost use Rattle.std.specs.Prelude.{◌≡◌, ◌↔◌, true, false, IsSome, IfSome, IfNone};
ghost use Rattle.sdh_circuits.specs.Checks.{wish_of, is_within, node_of, has_slot, has_ends, has_two_ends, has_offsets, has_texts};
ghost use Rattle.sdh_circuits.specs.Checks.{has_traces};
ghost use Rattle.sdh_ringmap.specs.Numbering.{is_id, magnitude};
ghost use Rattle.sdh_payload.specs.Customer.{is_text};

use crate::Asked;
use sdh_payload::Port;
use sdh_payload::port::is_text;
use sdh_ringmap::{Pos, RingMap};

// Returns whether the number is from `least` to `most`.
fn is_within(least: u16, most: u16, number: i64) -> bool
    ensures { result ≡ is_within least most number }
{
    i64::from(least) <= number && number <= i64::from(most)
}

// Returns whether the slot is a working slot, where there are `slots` of them.
pub(crate) fn has_slot(slots: u8, asked: &Asked<'_>) -> bool
    ensures { result ≡ has_slot slots (wish_of asked.now) }
{
    is_within(1, u16::from(slots), asked.slot)
}

// Returns whether both offsets are 0 to 782.
pub(crate) fn has_offsets(asked: &Asked<'_>) -> bool
    ensures { result ≡ has_offsets (wish_of asked.now) }
{
    is_within(0, 782, asked.offset_a) && is_within(0, 782, asked.offset_b)
}

// Returns whether both texts have 1 to 64 bytes, each from 0x20 to 0x7E.
pub(crate) fn has_texts(asked: &Asked<'_>) -> bool
    ensures { result ≡ has_texts (wish_of asked.now) }
{
    is_text(asked.text_a.as_bytes()) && is_text(asked.text_b.as_bytes())
}

// Returns whether both traces have 1 to 64 bytes, each from 0x20 to 0x7E.
pub(crate) fn has_traces(asked: &Asked<'_>) -> bool
    ensures { result ≡ has_traces (wish_of asked.now) }
{
    is_text(asked.trace_a.as_bytes()) && is_text(asked.trace_b.as_bytes())
}

// Returns the number as an identifier, where it is 0 to 15.
fn identifier(number: i64) -> Option<u8>
    ensures form { IsSome result ↔ (is_id number ≡ true) }
    ensures number { IfSome result (λ id. id ≡ magnitude number) }
{
    if 0 <= number && number <= 15 {
        Some(number as u8)
    } else {
        None
    }
}

// Returns the position of the node whose identifier is this number, if there is one.
fn node_of(map: &RingMap, number: i64) -> Option<Pos>
    ensures { result ≡ node_of map.now number }
{
    map.find(identifier(number)?)
}

// Returns the positions of both ends, where both are nodes of the ring.
pub(crate) fn ends(map: &RingMap, asked: &Asked<'_>) -> Option<(Pos, Pos)>
    ensures missing { IfNone result (has_ends map.now (wish_of asked.now) ≡ false) }
    ensures from { IfSome result (λ ends. node_of map.now asked.now.from ≡ Some ends.0) }
    ensures to { IfSome result (λ ends. node_of map.now asked.now.to ≡ Some ends.1) }
{
    let from = node_of(map, asked.from)?;
    let to = node_of(map, asked.to)?;
    Some((from, to))
}

// Returns whether the ends are two nodes.
pub(crate) fn has_two_ends(asked: &Asked<'_>) -> bool
    ensures { result ≡ has_two_ends (wish_of asked.now) }
{
    asked.from != asked.to
}

// Returns the port that is asked for. Text, trace and offset have passed their checks.
pub(crate) fn port(text: &str, trace: &str, offset: i64) -> Port
    requires text { is_text text.now ≡ true }
    requires trace { is_text trace.now ≡ true }
    requires offset { is_within 0 782 offset ≡ true }
    ensures { result ≡ record { text = text.now; trace = trace.now; offset = magnitude offset } }
{
    match Port::new(text.as_bytes(), trace.as_bytes(), offset as u16) {
        Ok(port) => port,
        Err(_) => unreachable!(),
    }
}
