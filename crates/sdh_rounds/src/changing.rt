//! Rings in which something is changed between rounds.
ghost use Rattle.std.specs.Prelude.{◌≡◌, ◌+◌, ◌<◌, ◌≤◌, length};
ghost use Rattle.sdh_rounds.specs.Held.{HeldRing};
ghost use Rattle.sdh_rounds.specs.Changing.{Changing, at_moment};

use sdh_circuits::PortId;
use sdh_payload::Turn;
use sdh_request::{Command, Moment};
use sdh_ringmap::{Pos, Side};

/// A ring that takes changes between its rounds.
pub trait TakesChanges {
    /// What its nodes are.
    ghost Node: { Type 0 };

    /// The ring.
    ghost ring: { Self → HeldRing Node };

    /// What each change does to the ring.
    ghost changes: { Changing Node };

    /// Gives one side of a node a command.
    fn command(&mut self, at: Pos, side: Side, command: Command)
        requires { at.0 < length (ring self.old).ids }
        ensures { ring self.new ≡ changes.commanded at.0 side command (ring self.old) };

    /// Holds the controller of a node for the next `turns` rounds.
    fn hold(&mut self, at: Pos, turns: u32)
        requires at { at.0 < length (ring self.old).ids }
        requires some { 1 ≤ turns }
        requires few { turns ≤ 100 }
        ensures { ring self.new ≡ changes.held_for at.0 turns (ring self.old) };

    /// Adds `count` pending slips to the clock of the customer who sends at a port.
    fn slip(&mut self, port: PortId, turn: Turn, count: u8)
        requires port { port.circuit < length (ring self.old).circuits.circuits }
        requires few { changes.waiting_at (ring self.old) port + count ≤ 16 }
        ensures { ring self.new ≡ changes.slipped port turn count (ring self.old) };

    /// Sets the present moment, at which the next rounds run.
    fn moment(&mut self, now: Moment)
        requires later { (ring self.old).moment ≤ now.0 }
        requires within { now.0 ≤ 1000000000 }
        ensures { ring self.new ≡ at_moment now.0 (ring self.old) };
}
