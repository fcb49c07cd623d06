//! The ring takes changes between its rounds, as any kind of ring does.
ghost use Rattle.sdh_node.specs.Node.{Node as AddDrop};
ghost use Rattle.sdh_node.specs.Rings.Changes.{adm_changes};

use crate::ring::Ring;
use sdh_circuits::PortId;
use sdh_node::Turn;
use sdh_request::{Command, Moment};
use sdh_ringmap::{Pos, Side};
use sdh_rounds::TakesChanges;

impl TakesChanges for Ring {
    ghost Node = { AddDrop };

    ghost ring = { λ r. r };

    ghost changes = { adm_changes };

    fn command(&mut self, at: Pos, side: Side, command: Command) {
        Ring::command(self, at, side, command);
    }

    fn hold(&mut self, at: Pos, turns: u32) {
        Ring::hold(self, at, turns);
    }

    fn slip(&mut self, port: PortId, turn: Turn, count: u8) {
        Ring::slip(self, port, turn, count);
    }

    fn moment(&mut self, now: Moment) {
        Ring::moment(self, now);
    }
}
