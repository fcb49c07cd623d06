//! Where AU-4s come from.
ghost use Rattle.std.specs.Prelude.{◌≡◌, ℕ, ◌*◌, ◌≤◌};
ghost use Rattle.sdh_ringmap.specs.Rates.{n_of};
ghost use Rattle.sdh_ringmap.specs.declared.Side.{Side};
ghost use Rattle.sdh_terminal.specs.declared.matrix.Feeder.{Feeder};
ghost use Rattle.sdh_terminal.specs.Lines.{Lines, line_on, received, IsFeeder};

use crate::intake::Intake;
use sdh_circuits::{PortId, Slot};
use sdh_ringmap::{Rate, Side};

/// What an AU-4 is fed with: a port, an AU-4 that a side received, or AIS.
#[derive(Clone, Copy, Debug, PartialEq, Eq)]
pub enum Feeder {
    Port(PortId),
    Received(Side, u16),
    Ais,
}

/// Both sides of a node in a round, and where the AU-4s that they received go. (A connection matrix, in the terms of
/// ITU-T G.783.)
pub trait Matrix {
    /// What both sides took in, and what their interpreters keep.
    ghost lines: { Self → Lines };

    /// What feeds the AU-4 of this number, 1 to N, that leaves on a side.
    ghost leads: { Self → Side → ℕ → Feeder };

    /// What is dropped to a port: its circuit leaves on this side, in the working slot of this number, 1 to N / 2.
    ghost drops: { Self → Side → ℕ → Feeder };

    /// Returns the rate of both sides.
    fn rate(&self) -> Rate
        ensures { result ≡ (lines self.now).rate };

    /// Returns what a side took in.
    fn intake(&self, side: Side) -> &Intake
        ensures intake { result.now ≡ (line_on (lines self.now) side).intake }
        ensures rate { result.now.frame.rate ≡ (lines self.now).rate };

    /// Returns the pointer value, 0 to 782, that the interpreter of AU-4 number `au`, 1 to N, keeps on a side.
    fn value(&self, side: Side, au: u16) -> u16
        requires first { 1 ≤ au }
        requires last { au ≤ n_of (lines self.now).rate }
        ensures value { result ≡ (received (lines self.now) side au).value }
        ensures small { result ≤ 782 };

    /// Returns what feeds AU-4 number `au`, 1 to N, that leaves on a side.
    fn leaving(&self, side: Side, au: u16) -> Feeder
        requires first { 1 ≤ au }
        requires last { au ≤ n_of (lines self.now).rate }
        ensures feeder { result ≡ leads self.now side au }
        ensures inside { IsFeeder (n_of (lines self.now).rate) result };

    /// Returns what is dropped to the port whose circuit leaves on a side in a working slot, 1 to N / 2.
    fn dropped(&self, side: Side, slot: Slot) -> Feeder
        requires first { 1 ≤ slot.0 }
        requires last { 2 * slot.0 ≤ n_of (lines self.now).rate }
        ensures feeder { result ≡ drops self.now side slot.0 }
        ensures inside { IsFeeder (n_of (lines self.now).rate) result };
}
