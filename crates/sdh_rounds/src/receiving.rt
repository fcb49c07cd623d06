//! All receives of a round.
ghost use Rattle.std.specs.Prelude.{◌≡◌, ◌⊎◌, ◌<◌, IfOk, OnOk, OnErr, All, length};
ghost use Rattle.sdh_basics.specs.Causes.{HasCause};
ghost use Rattle.sdh_ringmap.specs.declared.Side.TheVariants.{West};
ghost use Rattle.sdh_plant.specs.Fibres.{IsPrepared};
ghost use Rattle.sdh_plant.specs.Calls.{after_receive};
ghost use Rattle.sdh_rounds.specs.Rounds.{receivers_in};
ghost use Rattle.sdh_rounds.specs.Calls.{ReceivesOne, ReceivesBoth, FirstReceive, SomeReceive};

use crate::faults::PlantFault;
use crate::station::Station;
use sdh_frame::FrameBuf;
use sdh_overhead::Landed;
use sdh_plant::Plant;
use sdh_ringmap::{Pos, Rate, Side};
use std::alloc::{AllocError, Global};
use std::marker::Model;

/// Room for a frame that a node receives: where it lands, and a frame into which plants may write meanwhile. In
/// contracts it stands for where the frame lands.
#[derive(Debug, Drop)]
pub struct Inbox {
    landed: Landed,
    spare: FrameBuf,
}

impl Model for Inbox {
    ghost use Rattle.std.specs.Prelude.{◌≡◌};
    ghost use Rattle.sdh_overhead.specs.Landing.{LandedFrame};

    ghost Value = { LandedFrame };

    ghost view = { λ a. a.landed };

    ghost invariant = { λ a. a.spare.rate ≡ a.landed.rate };
}

impl Inbox {
    /// Returns room for a frame of this rate. All memory is taken here: frames that are received take none.
    pub fn try_new(alloc: Global, rate: Rate) -> Result<Inbox, AllocError>
        ensures { IfOk result (λ inbox. inbox.rate ≡ rate) }
    {
        let landed = Landed::try_new(alloc, rate)?;
        let spare = FrameBuf::try_new(alloc, rate)?;
        Ok(Inbox { landed, spare })
    }
}

// Receives what arrived on a side of a node, and keeps it for the node's next round.
fn receive_one<S: Station, P: Plant>(
    node: &mut S,
    at: Pos,
    side: Side,
    inbox: &mut Inbox,
    plant: &mut P,
) -> Result<(), PlantFault>
    requires at { at.0 < (P.fibres plant.old).nodes }
    requires rate { inbox.old.rate ≡ (P.fibres plant.old).rate }
    requires node { S.rate node.old ≡ inbox.old.rate }
    ensures fibres { OnOk result (P.fibres plant.new ≡ after_receive (P.fibres plant.old)) }
    ensures kept { OnErr result (P.fibres plant.new ≡ P.fibres plant.old) }
    ensures node { OnOk result (ReceivesOne S.kind (P.fibres plant.old) at.0 side node.old node.new) }
    ensures same { OnErr result (node.new ≡ node.old) }
    ensures same_rate { S.rate node.new ≡ S.rate node.old }
    ensures rate { inbox.new.rate ≡ inbox.old.rate }
    ensures cause { HasCause P.exact (P.faults plant.old) (P.faults plant.new) result }
{
    let arrived = plant.receive_into(at, side, &mut inbox.landed, &mut inbox.spare)?;
    node.receive_landed(side, arrived, &mut inbox.landed);
    Ok(())
}

// Receives on both sides of a node, west before east.
fn receive_both<S: Station, P: Plant>(
    node: &mut S,
    at: Pos,
    inbox: &mut Inbox,
    plant: &mut P,
) -> Result<(), PlantFault>
    requires at { at.0 < (P.fibres plant.old).nodes }
    requires rate { inbox.old.rate ≡ (P.fibres plant.old).rate }
    requires node { S.rate node.old ≡ inbox.old.rate }
    ensures fibres { OnOk result (P.fibres plant.new ≡ after_receive (after_receive (P.fibres plant.old))) }
    ensures node { OnOk result (ReceivesBoth S.kind (P.fibres plant.old) at.0 node.old node.new) }
    ensures kept { OnErr result
        (((P.fibres plant.new ≡ P.fibres plant.old) × (node.new ≡ node.old)) ⊎ ((P.fibres plant.new ≡ after_receive (P.fibres plant.old))
        × ReceivesOne S.kind (P.fibres plant.old) at.0 West node.old node.new)) }
    ensures rate { inbox.new.rate ≡ inbox.old.rate }
    ensures cause { HasCause P.exact (P.faults plant.old) (P.faults plant.new) result }
{
    receive_one(node, at, Side::West, inbox, plant)?;
    receive_one(node, at, Side::East, inbox, plant)
}

// Receives on both sides of all nodes, by position, west before east.
fn receive_all<S: Station, P: Plant>(
    nodes: &mut Vec<S>,
    inbox: &mut Inbox,
    plant: &mut P,
) -> Result<(), PlantFault>
    requires prepared { IsPrepared inbox.old.rate (length nodes.old.items) (P.fibres plant.old) }
    requires nodes { All (λ n. S.rate n ≡ inbox.old.rate) nodes.old.items }
    ensures ok { OnOk result
        (FirstReceive S.kind (length nodes.old.items) (P.fibres plant.old) (P.fibres plant.new) nodes.old.items nodes.new.items) }
    ensures err { OnErr result
        (SomeReceive S.kind (length nodes.old.items) (P.fibres plant.old) (P.fibres plant.new) nodes.old.items nodes.new.items) }
    ensures rate { inbox.new.rate ≡ inbox.old.rate }
    ensures cause { HasCause P.exact (P.faults plant.old) (P.faults plant.new) result }
{
    'receives: for i in 0..nodes.len() {
        let node = &mut nodes[i];
        receive_both(node, Pos(i as u8), inbox, plant)?;
    }
    Ok(())
}

/// Receives what arrived for a round on both sides of all nodes, by position, west before east. In round 0 nothing is
/// received.
#[tactic(auto, unfolding(crate::specs::Rounds::receivers_in))]
pub fn hear<S: Station, P: Plant>(
    rounds: u64,
    nodes: &mut Vec<S>,
    inbox: &mut Inbox,
    plant: &mut P,
) -> Result<(), PlantFault>
    requires prepared { IsPrepared inbox.old.rate (length nodes.old.items) (P.fibres plant.old) }
    requires nodes { All (λ n. S.rate n ≡ inbox.old.rate) nodes.old.items }
    ensures ok { OnOk result (FirstReceive S.kind (receivers_in rounds (length nodes.old.items)) (P.fibres plant.old)
        (P.fibres plant.new) nodes.old.items nodes.new.items) }
    ensures err { OnErr result (SomeReceive S.kind (receivers_in rounds (length nodes.old.items)) (P.fibres plant.old)
        (P.fibres plant.new) nodes.old.items nodes.new.items) }
    ensures rate { inbox.new.rate ≡ inbox.old.rate }
    ensures cause { HasCause P.exact (P.faults plant.old) (P.faults plant.new) result }
{
    if rounds == 0 {
        return Ok(());
    }
    receive_all(nodes, inbox, plant)
}
