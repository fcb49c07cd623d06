//! The run of a plan, before its fibres are there: its ring is made, and room for what is listed.
ghost use Rattle.std.specs.Prelude.{◌≡◌, ◌≤◌, length, IfOk};
ghost use Rattle.sdh_scripts.specs.NewRuns.{MayStartRun, IsRunOfPlan};
ghost use Rattle.sdh_scripts.specs.Texts.{room_for};
ghost use Rattle.sdh_cli.specs.Room.{report_room, MayList};
ghost use Rattle.sdh_cli.specs.Running.{running_ring, MayRun};
ghost use Rattle.sdh_cli.specs.Plans.{adm_account};

use crate::script::RingRun;
use sdh_circuits::CircuitMap;
use sdh_plan::Plan;
use sdh_report::{CHUNK_MAX, LINE_MAX, Listing, Text};
use sdh_ring::Ring;
use sdh_ringmap::RingMap;
use sdh_scripts::{NewRun, NewScript, lines_room, script_room};
use std::alloc::{AllocError, Global};

// Returns the number of bytes that is room enough for what is listed of a report.
fn report_room(listing: Listing, map: &RingMap, circuits: &CircuitMap) -> usize
    ensures room { result ≡ report_room listing (length map.now) (length circuits.now.circuits) }
    ensures few { result ≤ 131072 }
{
    match listing {
        Listing::Reports => lines_room(circuits) + LINE_MAX * map.len(),
        Listing::Port(_) => CHUNK_MAX,
        Listing::Counts => LINE_MAX,
    }
}

/// Returns the run of a plan. All memory is taken here, that for the text of all that is listed too.
pub fn new_run(
    alloc: Global,
    plan: Plan,
    listing: Listing,
    text: &mut Text,
) -> Result<NewRun<RingRun>, AllocError>
    requires listing { MayList (length plan.circuits) listing }
    ensures is_of { IfOk result (IsRunOfPlan running_ring adm_account plan) }
    ensures ready { IfOk result (λ new. MayStartRun running_ring MayRun new.runner new.script) }
    ensures listing { IfOk result (λ new. new.runner.listing ≡ listing) }
    ensures room { IfOk result
        (λ new. room_for (report_room listing (length new.runner.ring.ids) (length new.runner.ring.circuits.circuits)) 0 ≤ text.new.room) }
    ensures bytes { text.new.bytes ≡ text.old.bytes }
{
    let settings = plan.settings();
    let limit = plan.limit();
    let nodes = plan.map().len();
    text.make_room(script_room(report_room(listing, plan.map(), plan.circuits())))?;
    let (map, circuits, steps) = plan.into_parts();
    let ring = Ring::try_new(alloc, settings, map, circuits)?;
    let script = NewScript {
        rate: settings.rate,
        nodes,
        steps,
        limit,
    };
    Ok(NewRun {
        runner: RingRun { ring, listing },
        script,
    })
}
