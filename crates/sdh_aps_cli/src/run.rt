//! The run of a plan, before its fibres are there: its ring is made, and what records its rounds.
ghost use Rattle.std.specs.Prelude.{◌≡◌, ◌<◌, length, IfOk};
ghost use Rattle.sdh_scripts.specs.NewRuns.{MayStartRun, IsRunOfPlan};
ghost use Rattle.sdh_aps_cli.specs.Plans.{signalling_account, IsPlaced};
ghost use Rattle.sdh_aps_cli.specs.Running.{running_ring, listing_in, MaySignal};
ghost use Rattle.sdh_aps_cli.specs.declared.listing.PlanListing.TheVariants as listed;

use crate::frames::FrameRecorder;
use crate::framing::FrameRun;
use crate::listing::{PlanListing, SignalListing};
use crate::parts::{PlanParts, parts_of};
use crate::recorder::SignalRecorder;
use crate::running::PlanRun;
use crate::script::SignalRun;
use crate::window::FrameWindow;
use sdh_plan::Plan;
use sdh_scripts::NewRun;
use std::alloc::{AllocError, Global};

// Returns a run of a plan that writes the lines of nodes.
fn lines_run(alloc: Global, plan: Plan, lines: SignalListing) -> Result<NewRun<PlanRun>, AllocError>
    ensures is_of { IfOk result (IsRunOfPlan running_ring signalling_account plan) }
    ensures ready { IfOk result (λ new. MayStartRun running_ring MaySignal new.runner new.script) }
    ensures listing { IfOk result (λ new. listing_in new.runner ≡ listed.Lines lines) }
{
    let parts = parts_of(alloc, plan)?;
    let PlanParts { ring, script } = parts;
    let recorder = SignalRecorder::try_new(alloc, script.nodes, lines)?;
    Ok(NewRun {
        runner: PlanRun::Lines(SignalRun { ring, recorder }),
        script,
    })
}

// Returns a run of a plan that writes the frames that are asked for, each whole and as it was sent.
fn frames_run(alloc: Global, plan: Plan, ask: FrameWindow) -> Result<NewRun<PlanRun>, AllocError>
    requires at { ask.at.0 < length plan.nodes }
    ensures is_of { IfOk result (IsRunOfPlan running_ring signalling_account plan) }
    ensures ready { IfOk result (λ new. MayStartRun running_ring MaySignal new.runner new.script) }
    ensures listing { IfOk result (λ new. listing_in new.runner ≡ listed.Frames ask) }
{
    let parts = parts_of(alloc, plan)?;
    let PlanParts { ring, script } = parts;
    let recorder = FrameRecorder { ask };
    Ok(NewRun {
        runner: PlanRun::Frames(FrameRun { ring, recorder }),
        script,
    })
}

/// Returns the run of a plan of which this is written. All memory is taken here.
pub fn new_run(
    alloc: Global,
    plan: Plan,
    listing: PlanListing,
) -> Result<NewRun<PlanRun>, AllocError>
    requires placed { IsPlaced (length plan.nodes) listing }
    ensures is_of { IfOk result (IsRunOfPlan running_ring signalling_account plan) }
    ensures ready { IfOk result (λ new. MayStartRun running_ring MaySignal new.runner new.script) }
    ensures listing { IfOk result (λ new. listing_in new.runner ≡ listing) }
{
    match listing {
        PlanListing::Lines(lines) => lines_run(alloc, plan, lines),
        PlanListing::Frames(ask) => frames_run(alloc, plan, ask),
    }
}
