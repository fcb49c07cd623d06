//! A ring over which a script is run, with lines or frames written.
ghost use Rattle.std.specs.Prelude.{◌≡◌};
ghost use Rattle.sdh_node.specs.Node.{Node as AddDrop};
ghost use Rattle.sdh_aps_cli.specs.Signalled.{Signalled};
ghost use Rattle.sdh_aps_cli.specs.Scripts.{signalling_walk};
ghost use Rattle.sdh_aps_cli.specs.Listing.{begun_of, ended_of};
ghost use Rattle.sdh_aps_cli.specs.Running.{running_ring, listing_in, MaySignal, few_settles};

use crate::framing::FrameRun;
use crate::script::SignalRun;
use sdh_outside::Sink;
use sdh_plan::Step;
use sdh_plant::LendingPlant;
use sdh_ring::{PlantFault, Ring};
use sdh_scripts::{StepError, Teller};

/// A ring, and what writes of its rounds.
#[derive(Drop)]
pub enum PlanRun {
    /// The lines of nodes are written.
    Lines(SignalRun),
    /// The frames that a node sends are written.
    Frames(FrameRun),
}

impl PlanRun {
    /// Returns the ring.
    pub fn ring(&self) -> &Ring
        ensures { result.now ≡ running_ring self.now }
    {
        match self {
            PlanRun::Lines(run) => &run.ring,
            PlanRun::Frames(run) => &run.ring,
        }
    }
}

impl<W: Sink, P: LendingPlant> Teller<W, P> for PlanRun {
    ghost Node = { AddDrop };

    ghost Told = { Signalled };

    ghost walk = { signalling_walk };

    ghost ring = { running_ring };

    ghost text_of = { λ r told. ended_of (listing_in r) told };

    ghost begun_of = { λ r told. begun_of (listing_in r) told };

    ghost room = { λ r. 0 };

    ghost MayRun = { MaySignal };

    fn change(&mut self, plant: &mut P, step: Step) -> Result<(), PlantFault> {
        match self {
            PlanRun::Lines(run) => <SignalRun as Teller<W, P>>::change(run, plant, step),
            PlanRun::Frames(run) => <FrameRun as Teller<W, P>>::change(run, plant, step),
        }
    }

    fn settle(
        &mut self,
        plant: &mut P,
        limit: u32,
        number: u32,
        output: &mut W,
    ) -> Result<(), StepError> {
        match self {
            PlanRun::Lines(run) => run.settle(plant, limit, number, output),
            PlanRun::Frames(run) => run.settle(plant, limit, number, output),
        }
    }

    ghost few = { few_settles };
}
