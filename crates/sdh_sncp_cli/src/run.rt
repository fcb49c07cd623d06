//! The run of a plan, before its fibres are there: its path ring is made, and room for the reports.
ghost use Rattle.std.specs.Prelude.{◌≡◌, ◌≤◌, ℕ, Err, IfOk, length};
ghost use Rattle.sdh_scripts.specs.NewRuns.{MayStartRun, IsRunOfPlan};
ghost use Rattle.sdh_scripts.specs.Ports.{lines_room};
ghost use Rattle.sdh_scripts.specs.Texts.{room_for};
ghost use Rattle.sdh_sncp.specs.Fixed.{AreAlone};
ghost use Rattle.sdh_sncp.specs.Sharing.{AreFirstToShare};
ghost use Rattle.sdh_sncp_cli.specs.Steps.{AreKnown};
ghost use Rattle.sdh_sncp_cli.specs.Running.{running_ring, MayRunPath};
ghost use Rattle.sdh_sncp_cli.specs.Plans.{path_account};

use crate::script::PathRun;
use sdh_plan::Plan;
use sdh_report::Text;
use sdh_scripts::{NewRun, NewScript, lines_room, script_room};
use sdh_sncp::{PathError, PathRing};
use std::alloc::Global;

/// Returns the run of a plan, or the first two of its circuits that share a slot. All memory is taken here, that for
/// the text of all reports too.
pub fn new_run(alloc: Global, plan: Plan, text: &mut Text) -> Result<NewRun<PathRun>, PathError>
    requires known { AreKnown plan.steps }
    ensures is_of { IfOk result (IsRunOfPlan running_ring path_account plan) }
    ensures ready { IfOk result (λ new. MayStartRun running_ring MayRunPath new.runner new.script) }
    ensures alone { IfOk result (λ new. AreAlone plan.circuits) }
    ensures same_slot { (first second : ℕ) → result ≡ Err (PathError.SameSlot first second) → AreFirstToShare plan.circuits first second }
    ensures room { IfOk result
        (λ new. room_for (lines_room (length new.runner.ring.circuits.circuits)) 0 ≤ text.new.room) }
    ensures line { (first second : ℕ) → result ≡ Err (PathError.SameSlot first second) → 96 ≤ text.new.room }
    ensures bytes { text.new.bytes ≡ text.old.bytes }
{
    let settings = plan.settings();
    let limit = plan.limit();
    let nodes = plan.map().len();
    text.make_room(script_room(lines_room(plan.circuits())))?;
    let (map, circuits, steps) = plan.into_parts();
    let ring = match PathRing::try_new(alloc, settings, map, circuits) {
        Ok(ring) => ring,
        Err(refusal) => return Err(refusal),
    };
    let script = NewScript {
        rate: settings.rate,
        nodes,
        steps,
        limit,
    };
    Ok(NewRun {
        runner: PathRun { ring },
        script,
    })
}
