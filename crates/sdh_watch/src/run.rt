//! The run of a plan, before its fibres are there: its watches and its ring are made, and room for their lines.
ghost use Rattle.std.specs.Prelude.{◌≡◌, ◌≤◌, length, IfOk};
ghost use Rattle.sdh_scripts.specs.NewRuns.{MayStartRun, IsRunOfPlan};
ghost use Rattle.sdh_scripts.specs.Ports.{lines_room};
ghost use Rattle.sdh_scripts.specs.Texts.{room_for};
ghost use Rattle.sdh_watch.specs.Running.{running_ring, MayWatch};
ghost use Rattle.sdh_watch.specs.Plans.{watch_account};

use crate::ports::new_watches;
use crate::script::WatchRun;
use sdh_plan::Plan;
use sdh_report::Text;
use sdh_ring::Ring;
use sdh_scripts::{NewRun, NewScript, lines_room, script_room};
use std::alloc::{AllocError, Global};

/// Returns the run of a plan. All memory is taken here, that for the text of all watches too.
pub fn new_run(alloc: Global, plan: Plan, text: &mut Text) -> Result<NewRun<WatchRun>, AllocError>
    ensures is_of { IfOk result (IsRunOfPlan running_ring watch_account plan) }
    ensures ready { IfOk result (λ new. MayStartRun running_ring MayWatch new.runner new.script) }
    ensures room { IfOk result
        (λ new. room_for (lines_room (length new.runner.ring.circuits.circuits)) 0 ≤ text.new.room) }
    ensures bytes { text.new.bytes ≡ text.old.bytes }
{
    let settings = plan.settings();
    let limit = plan.limit();
    text.make_room(script_room(lines_room(plan.circuits())))?;
    let watches = new_watches(alloc, plan.circuits())?;
    let nodes = plan.map().len();
    let (map, circuits, steps) = plan.into_parts();
    let ring = Ring::try_new(alloc, settings, map, circuits)?;
    let script = NewScript {
        rate: settings.rate,
        nodes,
        steps,
        limit,
    };
    Ok(NewRun {
        runner: WatchRun { ring, watches },
        script,
    })
}
