//! Add-drop multiplexers as nodes that run in rounds, and whose ports deliver.

use crate::adm::Adm;
use crate::taking::Taking;
use sdh_circuits::CircuitMap;
use sdh_frame::FrameBuf;
use sdh_overhead::Landed;
use sdh_plant::Arrived;
use sdh_request::{Moment, Settings};
use sdh_ringmap::{Pos, RingMap, Side};
use sdh_rounds::{IntoForm, Station};
use std::alloc::{AllocError, Global};

impl<S: Taking> Station for Adm<S> {
    ghost use Rattle.sdh_node.specs.Stations.{adm, MayRun as MayRunAt, told_rate as rate_stays, told_may as may_still};

    ghost kind = { adm };

    ghost rate = { λ n. n.settings.rate };

    ghost MayRun = { MayRunAt };

    fn try_new(
        alloc: Global,
        settings: Settings,
        map: &RingMap,
        circuits: &CircuitMap,
        at: Pos,
    ) -> Result<Adm<S>, AllocError> {
        Adm::try_new(alloc, settings, map, circuits, at)
    }

    fn receive_landed(&mut self, side: Side, arrived: Arrived, inbox: &mut Landed) {
        Adm::receive_landed(self, side, arrived, inbox);
    }

    fn send(&mut self, now: Moment, west: &mut FrameBuf, east: &mut FrameBuf) {
        Adm::send(self, now, west, east);
    }

    fn calm(&self) -> bool {
        Adm::calm(self)
    }

    // What arrives at a node changes neither its rate nor whether it may run.
    ghost told_rate = { rate_stays };

    ghost told_may = { may_still };
}

impl<S: Taking, T: Taking> IntoForm<Adm<T>> for Adm<S> {
    ghost form = { λ n. n };

    fn into_form(self) -> Adm<T> {
        self.taking()
    }
}
