//! What a plan is run with.
ghost use Rattle.std.specs.Prelude.{◌≡◌, IfOk};
ghost use Rattle.sdh_plan.specs.Planned.{IsPlanned};
ghost use Rattle.sdh_owed.specs.Plans.{new_ring_of};
ghost use Rattle.sdh_scripts.specs.NewRuns.{IsScriptOf};

use sdh_plan::Plan;
use sdh_ring::Ring;
use sdh_scripts::NewScript;
use std::alloc::{AllocError, Global};

/// The ring of a plan, in which no round has run, and the plan's script.
#[derive(Drop)]
pub struct PlanParts {
    pub ring: Ring,
    pub script: NewScript,
}

/// Returns the ring and the script of a plan.
pub fn parts_of(alloc: Global, plan: Plan) -> Result<PlanParts, AllocError>
    ensures form { IfOk result (λ parts. IsPlanned plan) }
    ensures ring { IfOk result (λ parts. parts.ring ≡ new_ring_of plan) }
    ensures script { IfOk result (λ parts. IsScriptOf plan parts.script) }
{
    let settings = plan.settings();
    let limit = plan.limit();
    let nodes = plan.map().len();
    let (map, circuits, steps) = plan.into_parts();
    let ring = Ring::try_new(alloc, settings, map, circuits)?;
    let script = NewScript {
        rate: settings.rate,
        nodes,
        steps,
        limit,
    };
    Ok(PlanParts { ring, script })
}
