//! All sends of a round.
ghost use Rattle.std.specs.Prelude.{◌≡◌, ◌⊎◌, ◌<◌, OnOk, OnErr, All, map, length};
ghost use Rattle.sdh_basics.specs.Causes.{HasCause};
ghost use Rattle.sdh_plant.specs.Fibres.{IsPrepared};
ghost use Rattle.sdh_rounds.specs.Rounds.{frames_of, sent_all};
ghost use Rattle.sdh_rounds.specs.Calls.{sent_west, sent_now, SendsSome};

use crate::faults::PlantFault;
use crate::station::Station;
use sdh_frame::FrameBuf;
use sdh_plant::Plant;
use sdh_request::Moment;
use sdh_ringmap::{Pos, Side};

// Runs the round of a node and sends its frames, west before east.
fn send_both<S: Station, P: Plant>(
    node: &mut S,
    at: Pos,
    now: Moment,
    west: &mut FrameBuf,
    east: &mut FrameBuf,
    plant: &mut P,
) -> Result<(), PlantFault>
    requires at { at.0 < (P.fibres plant.old).nodes }
    requires west { west.old.rate ≡ (P.fibres plant.old).rate }
    requires east { east.old.rate ≡ (P.fibres plant.old).rate }
    requires rate { S.rate node.old ≡ (P.fibres plant.old).rate }
    requires may { S.MayRun now.0 node.old }
    ensures fibres { OnOk result (P.fibres plant.new ≡ sent_now S.kind now.0 at.0 node.old (P.fibres plant.old)) }
    ensures kept { OnErr result
        ((P.fibres plant.new ≡ P.fibres plant.old) ⊎ (P.fibres plant.new ≡ sent_west S.kind now.0 at.0 node.old (P.fibres plant.old))) }
    ensures node { node.new ≡ S.kind.after now.0 node.old }
    ensures west { west.new.rate ≡ west.old.rate }
    ensures east { east.new.rate ≡ east.old.rate }
    ensures cause { HasCause P.exact (P.faults plant.old) (P.faults plant.new) result }
{
    node.send(now, west, east);
    plant.exchange(at, Side::West, west)?;
    plant.exchange(at, Side::East, east)?;
    Ok(())
}

/// Runs the round of each node at a moment and sends its frames, by position, west before east.
pub fn send_all<S: Station, P: Plant>(
    nodes: &mut Vec<S>,
    now: Moment,
    west: &mut FrameBuf,
    east: &mut FrameBuf,
    plant: &mut P,
) -> Result<(), PlantFault>
    requires prepared { IsPrepared west.old.rate (length nodes.old.items) (P.fibres plant.old) }
    requires east { east.old.rate ≡ west.old.rate }
    requires rate { All (λ n. S.rate n ≡ west.old.rate) nodes.old.items }
    requires may { All (S.MayRun now.0) nodes.old.items }
    ensures fibres { OnOk result (P.fibres plant.new ≡ sent_all (frames_of S.kind now.0 nodes.old.items) (P.fibres plant.old)) }
    ensures nodes { OnOk result (nodes.new.items ≡ map (S.kind.after now.0) nodes.old.items) }
    ensures err { OnErr result (SendsSome S.kind now.0 nodes.old.items nodes.new.items (P.fibres plant.old) (P.fibres plant.new)) }
    ensures west { west.new.rate ≡ west.old.rate }
    ensures east { east.new.rate ≡ east.old.rate }
    ensures cause { HasCause P.exact (P.faults plant.old) (P.faults plant.new) result }
{
    'sends: for i in 0..nodes.len() {
        let node = &mut nodes[i];
        send_both(node, Pos(i as u8), now, west, east, plant)?;
    }
    Ok(())
}
