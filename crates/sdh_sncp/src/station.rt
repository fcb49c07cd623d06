//! A node of a path ring as a node that runs in rounds, and whose ports deliver.

use crate::node::PathNode;
use sdh_circuits::CircuitMap;
use sdh_frame::FrameBuf;
use sdh_overhead::Landed;
use sdh_plant::Arrived;
use sdh_request::{Moment, Settings};
use sdh_ringmap::{Pos, RingMap, Side};
use sdh_rounds::Station;
use sdh_terminal::{Delivers, Outlets, TakenPair};
use std::alloc::{AllocError, Global};

impl Station for PathNode {
    ghost use Rattle.sdh_sncp.specs.Stations.{path_node, MayRun as MayRunAt, path_told_rate as rate_stays, path_told_may as may_still};

    ghost kind = { path_node };

    ghost rate = { λ n. n.west.section.rate };

    ghost MayRun = { MayRunAt };

    fn try_new(
        alloc: Global,
        settings: Settings,
        map: &RingMap,
        circuits: &CircuitMap,
        at: Pos,
    ) -> Result<PathNode, AllocError> {
        PathNode::try_new(alloc, settings, map, circuits, at)
    }

    fn receive_landed(&mut self, side: Side, arrived: Arrived, inbox: &mut Landed) {
        PathNode::receive_landed(self, side, arrived, inbox);
    }

    fn send(&mut self, _now: Moment, west: &mut FrameBuf, east: &mut FrameBuf) {
        PathNode::send(self, west, east);
    }

    fn calm(&self) -> bool {
        PathNode::calm(self)
    }

    // What arrives at a node changes neither its rate nor whether it may run.
    ghost told_rate = { rate_stays };

    ghost told_may = { may_still };
}

impl Delivers for PathNode {
    ghost use Rattle.sdh_terminal.specs.Tributaries.{outlets_of};

    ghost delivered = { λ n. outlets_of n.ports };

    #[tactic(auto, using(sdh_terminal::proofs::Waiting::count_outlets))]
    fn outlets(&self, alloc: Global) -> Result<Outlets, AllocError> {
        PathNode::outlets(self, alloc)
    }

    #[tactic(auto, using(sdh_terminal::proofs::Waiting::count_outlets))]
    fn deliver(&self, taken: &mut TakenPair, outlets: &mut Outlets) {
        PathNode::deliver(self, taken, outlets);
    }
}
