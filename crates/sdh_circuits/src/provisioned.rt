//! A circuit and its name.
ghost use Rattle.std.specs.Prelude.{◌≡◌, ◌≤◌, IfSome, true, length};
ghost use Rattle.std.specs.List.{list_all};
ghost use Rattle.std.specs.Option.{is_some};
ghost use Rattle.sdh_circuits.specs.Naming.{is_name, is_name_byte};
ghost use Rattle.sdh_circuits.specs.Provisioned.{customer_at};

use crate::{End, Slot};
use arrayvec::ArrayVec;
use sdh_payload::Port;
use sdh_ringmap::Pos;
use std::fmt;
use std::marker::Model;

/// The name of a circuit, 1 to 16 bytes of `a` to `z`, `0` to `9`, `-` and `_`.
#[derive(Drop)]
pub struct Name {
    bytes: ArrayVec<u8, 16>,
}

impl Model for Name {
    ghost use Rattle.std.specs.Prelude.{◌≡◌, ℕ, List, true};
    ghost use Rattle.sdh_circuits.specs.Naming.{is_name};

    ghost Value = { List ℕ };

    ghost view = { λ n. n.bytes.items };

    ghost invariant = { λ n. is_name n.bytes.items ≡ true };
}

impl fmt::Debug for Name {
    fn fmt<W: fmt::Write>(&self, f: &mut fmt::Formatter<W>) -> fmt::Result {
        write!(f, "\"{}\"", self.as_slice().escape_ascii())
    }
}

// Returns whether a byte may stand in a name.
fn is_name_byte(byte: u8) -> bool
    ensures { result ≡ is_name_byte byte }
{
    byte.is_ascii_lowercase() || byte.is_ascii_digit() || byte == b'-' || byte == b'_'
}

// Returns whether each byte may stand in a name.
fn are_name_bytes(bytes: &[u8]) -> bool
    ensures { result ≡ list_all is_name_byte bytes.now }
{
    bytes.iter().all(|byte| is_name_byte(*byte))
}

// Returns whether the bytes are a name.
#[tactic(auto, unfolding(crate::specs::Naming::is_name))]
fn is_name(bytes: &[u8]) -> bool
    ensures form { result ≡ is_name bytes.now }
    ensures few { result ≡ true → length bytes.now ≤ 16 }
{
    1 <= bytes.len() && bytes.len() <= 16 && are_name_bytes(bytes)
}

impl Name {
    // Returns the name of these bytes, or `None` where they are no name.
    pub(crate) fn new(bytes: &[u8]) -> Option<Name>
        ensures form { is_some result ≡ is_name bytes.now }
        ensures bytes { IfSome result (λ name. name ≡ bytes.now) }
    {
        if !is_name(bytes) {
            return None;
        }
        let mut kept = ArrayVec::new();
        for byte in bytes {
            kept.push(*byte);
        }
        Some(Name { bytes: kept })
    }

    /// Returns the bytes of the name.
    pub fn as_slice(&self) -> &[u8]
        ensures bytes { result.now ≡ self.now }
        ensures form { is_name self.now ≡ true }
    {
        self.bytes.as_slice()
    }
}

/// A circuit of a ring.
#[derive(Debug, Drop)]
pub struct Circuit {
    pub(crate) name: Name,
    pub(crate) from: Pos,
    pub(crate) to: Pos,
    pub(crate) slot: Slot,
    pub(crate) a: Port,
    pub(crate) b: Port,
}

impl Model for Circuit {
    ghost use Rattle.sdh_circuits.specs.Provisioned.{Provisioned};

    ghost Value = { Provisioned };

    ghost view = { λ c. record { name = c.name; from = c.from; to = c.to; slot = c.slot; a = c.a; b = c.b } };
}

impl Circuit {
    /// Returns the circuit's name, of 1 to 16 bytes.
    #[tactic(auto, unfolding(crate::specs::Naming::is_name))]
    pub fn name(&self) -> &Name
        ensures name { result.now ≡ self.now.name }
        ensures short { length result.now ≤ 16 }
    {
        let name = &self.name;
        prove!(name.as_slice().len() <= 16);
        name
    }

    /// Returns the position at which the circuit's arc starts, where its port A is.
    pub fn from(&self) -> Pos
        ensures { result ≡ self.now.from }
    {
        self.from
    }

    /// Returns the position at which the circuit's arc ends, where its port B is.
    pub fn to(&self) -> Pos
        ensures { result ≡ self.now.to }
    {
        self.to
    }

    /// Returns the working slot that the circuit has on each span of its arc.
    pub fn slot(&self) -> Slot
        ensures { result ≡ self.now.slot }
    {
        self.slot
    }

    /// Returns the port at an end of the circuit.
    pub fn port(&self, end: End) -> &Port
        ensures { result.now ≡ customer_at self.now end }
    {
        match end {
            End::A => &self.a,
            End::B => &self.b,
        }
    }
}
