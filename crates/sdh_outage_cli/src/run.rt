//! The run of a plan, before its fibres are there: its listeners and its ring are made, and room for what is listed.
ghost use Rattle.std.specs.Prelude.{◌≡◌, ◌≤◌, length, IfOk};
ghost use Rattle.sdh_scripts.specs.NewRuns.{MayStartRun, IsRunOfPlan};
ghost use Rattle.sdh_scripts.specs.Texts.{room_for};
ghost use Rattle.sdh_outage_cli.specs.Running.{MayListOutages, outage_lines_room, running_ring, MayListen};
ghost use Rattle.sdh_outage_cli.specs.Plans.{outage_account};

use crate::listeners::Listeners;
use crate::listing::OutageListing;
use crate::ports::new_listeners;
use crate::rooms::DeliveryRooms;
use crate::script::OutageRun;
use crate::streams::new_streams;
use sdh_circuits::CircuitMap;
use sdh_outage::LINE_MAX as PORT_LINE_MAX;
use sdh_plan::Plan;
use sdh_report::{LINE_MAX, Text};
use sdh_ring::Ring;
use sdh_scripts::{NewRun, NewScript, script_room};
use std::alloc::{AllocError, Global};

// Returns the number of bytes that is room enough for what is listed of a settle step. Of one port that is 64 changes,
// how many more there were, and the line of its outage.
fn lines_room(listing: OutageListing, circuits: &CircuitMap) -> usize
    ensures room { result ≡ outage_lines_room listing (length circuits.now.circuits) }
    ensures few { result ≤ 65536 }
{
    match listing {
        OutageListing::Ports => LINE_MAX + PORT_LINE_MAX + 2 * PORT_LINE_MAX * circuits.len(),
        OutageListing::Trace(_) => LINE_MAX + 66 * PORT_LINE_MAX,
    }
}

/// Returns the run of a plan. All memory is taken here, that for the text of all that is listed too.
pub fn new_run(
    alloc: Global,
    plan: Plan,
    listing: OutageListing,
    text: &mut Text,
) -> Result<NewRun<OutageRun>, AllocError>
    requires listing { MayListOutages (length plan.circuits) listing }
    ensures is_of { IfOk result (IsRunOfPlan running_ring outage_account plan) }
    ensures ready { IfOk result (λ new. MayStartRun running_ring MayListen new.runner new.script) }
    ensures listing { IfOk result (λ new. new.runner.listing ≡ listing) }
    ensures room { IfOk result
        (λ new. room_for (outage_lines_room listing (length new.runner.ring.circuits.circuits)) 0 ≤ text.new.room) }
    ensures bytes { text.new.bytes ≡ text.old.bytes }
{
    let settings = plan.settings();
    let limit = plan.limit();
    text.make_room(script_room(lines_room(listing, plan.circuits())))?;
    let items = new_listeners(alloc, plan.circuits())?;
    let streams = new_streams(alloc, plan.circuits())?;
    let nodes = plan.map().len();
    let rooms = DeliveryRooms::try_new(alloc, plan.circuits(), nodes)?;
    let (map, circuits, steps) = plan.into_parts();
    let ring = Ring::try_new(alloc, settings, map, circuits)?;
    let listeners = Listeners {
        items,
        streams,
        rooms,
    };
    let script = NewScript {
        rate: settings.rate,
        nodes,
        steps,
        limit,
    };
    Ok(NewRun {
        runner: OutageRun {
            ring,
            listeners,
            listing,
        },
        script,
    })
}
