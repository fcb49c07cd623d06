//! A port of a circuit.
ghost use Rattle.std.specs.Prelude.{◌≡◌, ◌↔◌, ◌<◌, ◌≤◌, true, false, length};
ghost use Rattle.std.specs.List.{list_all};
ghost use Rattle.sdh_payload.specs.Customer.{is_printable, is_text};
ghost use Rattle.sdh_payload.specs.Port.{checked_port};

use crate::short_text::ShortText;
use std::marker::Model;
use thiserror::Error;

/// The largest offset: an AU-4 pointer counts 0 to 782 steps of three bytes (ITU-T G.707 clause 8.1).
const MOST_OFFSET: u16 = 782;

/// Why a port cannot be made, in the order of the checks.
#[derive(Clone, Copy, Debug, PartialEq, Eq, Error)]
pub enum PortError {
    /// The offset is above 782.
    #[error("the offset is above 782")]
    Offset,
    /// The text does not have 1 to 64 bytes from 0x20 to 0x7E.
    #[error("the text isn't 1 to 64 bytes, each from 0x20 to 0x7E")]
    Text,
    /// The trace does not have 1 to 64 bytes from 0x20 to 0x7E.
    #[error("the trace isn't 1 to 64 bytes, each from 0x20 to 0x7E")]
    Trace,
}

/// What a customer sends at one end of a circuit: a text over and over, a path trace, and the
/// offset at which its VC-4s begin in the AU-4.
#[derive(Debug, Drop)]
pub struct Port {
    text: ShortText,
    trace: ShortText,
    offset: u16,
}

impl Model for Port {
    ghost use Rattle.sdh_payload.specs.Customer.{Customer, IsCustomer};

    ghost Value = { Customer };

    ghost view = { λ p. record { text = p.text; trace = p.trace; offset = p.offset } };

    ghost invariant = { λ p. IsCustomer (record { text = p.text; trace = p.trace; offset = p.offset }) };
}

// Returns whether each byte is printable ASCII or a space.
fn are_printable(bytes: &[u8]) -> bool
    ensures { result ≡ list_all is_printable bytes.now }
{
    bytes.iter().all(|byte| *byte >= 0x20 && *byte <= 0x7E)
}

/// Returns whether these are 1 to 64 bytes from 0x20 to 0x7E.
#[tactic(auto, unfolding(crate::specs::Customer::is_text))]
pub fn is_text(bytes: &[u8]) -> bool
    ensures { result ≡ is_text bytes.now }
{
    1 <= bytes.len() && bytes.len() <= 64 && are_printable(bytes)
}

impl Port {
    /// Returns a port with this text, trace and offset. It takes no memory.
    #[tactic(auto, using(crate::proofs::Texts::text_few))]
    pub fn new(text: &[u8], trace: &[u8], offset: u16) -> Result<Port, PortError>
        ensures answer { result ≡ checked_port text.now trace.now offset }
        ensures offset { result ≡ Err PortError.Offset ↔ 782 < offset }
        ensures text { result ≡ Err PortError.Text ↔ (offset ≤ 782) × (is_text text.now ≡ false) }
        ensures trace { result ≡ Err PortError.Trace ↔ (offset ≤ 782) × (is_text text.now ≡ true) × (is_text trace.now ≡ false) }
    {
        if offset > MOST_OFFSET {
            return Err(PortError::Offset);
        }
        if !is_text(text) {
            return Err(PortError::Text);
        }
        if !is_text(trace) {
            return Err(PortError::Trace);
        }
        Ok(Port {
            text: ShortText::new(text),
            trace: ShortText::new(trace),
            offset,
        })
    }

    /// Returns an equal port. It takes no memory.
    pub fn copy(&self) -> Port
        ensures { result ≡ self.now }
    {
        Port {
            text: self.text.copy(),
            trace: self.trace.copy(),
            offset: self.offset,
        }
    }

    /// Returns the text, 1 to 64 bytes.
    #[tactic(auto, using(crate::proofs::Texts::text_few, crate::proofs::Texts::text_some))]
    pub fn text(&self) -> &[u8]
        ensures text { result.now ≡ self.now.text }
        ensures form { is_text self.now.text ≡ true }
        ensures some { 0 < length self.now.text }
        ensures few { length self.now.text ≤ 64 }
    {
        self.text.as_slice()
    }

    /// Returns the trace without its padding, 1 to 64 bytes.
    #[tactic(auto, using(crate::proofs::Texts::text_few, crate::proofs::Texts::text_some))]
    pub fn trace(&self) -> &[u8]
        ensures trace { result.now ≡ self.now.trace }
        ensures form { is_text self.now.trace ≡ true }
        ensures some { 0 < length self.now.trace }
        ensures few { length self.now.trace ≤ 64 }
    {
        self.trace.as_slice()
    }

    /// Returns the offset, 0 to 782.
    pub fn offset(&self) -> u16
        ensures offset { result ≡ self.now.offset }
        ensures small { result ≤ 782 }
    {
        self.offset
    }
}
