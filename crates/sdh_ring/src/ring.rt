//! The ring.
ghost use Rattle.std.specs.Prelude.{◌≡◌, ◌+◌, ◌/◌, ◌^◌, ◌<◌, ◌≤◌, ℕ, true, false, Some, Err, IfOk, OnOk, OnErr};
ghost use Rattle.std.specs.Prelude.{IsErr, length, slice_get};
ghost use Rattle.sdh_basics.specs.Causes.{Rose, IsCounted};
ghost use Rattle.sdh_ringmap.specs.Rates.{n_of};
ghost use Rattle.sdh_circuits.specs.Kept.{KeepsRing};
ghost use Rattle.sdh_payload.specs.Clock.{Clock};
ghost use Rattle.sdh_plant.specs.Fibres.{Fibres, IsPrepared, IsHonest};
ghost use Rattle.sdh_plant.specs.Calls.{prepared};
ghost use Rattle.sdh_node.specs.Receiving.{commanded_by};
ghost use Rattle.sdh_node.specs.Stations.{adm};
ghost use Rattle.sdh_node.specs.Node.{at_receiving, held_for, slips_at};
ghost use Rattle.sdh_circuits.specs.declared.PortId.{PortId};
ghost use Rattle.sdh_node.specs.Rings.Held.{new_ring, at_place, node_at, place_of_port, outlet_at};
ghost use Rattle.sdh_node.specs.Rings.Clocks.{waiting_at};
ghost use Rattle.sdh_node.specs.Rings.Rounds.{World, world};
ghost use Rattle.sdh_node.specs.Rings.Runs.{IsRound, IsBrokenOff};
ghost use Rattle.sdh_rounds.specs.Faults.{BreaksRound as BreaksOne};
ghost use Rattle.sdh_rounds.specs.Outcome.{IsStep};
ghost use Rattle.sdh_laws.specs.Hearing.Laws.{IsWhole, GoesAsSignals};
ghost use Rattle.sdh_laws.specs.Strangers.Vouched.{IsVouched, IsAside};
ghost use Rattle.sdh_laws.specs.Strangers.Laws.{KeepsStrangersOut};
ghost use Rattle.sdh_laws.specs.Resting.Rest.{IsAtRest, StaysAtRest};
ghost use Rattle.sdh_ring.specs.Faults.{BreaksRound};
ghost use Rattle.sdh_ring.specs.Observed.{Hears, RanSome, HearsSome, IsStopped};
ghost use Rattle.sdh_ring.specs.Promises.{KeepsPromises};

use crate::adm_ring::{AdmRing, Running};
use sdh_circuits::{CircuitMap, PortId};
use sdh_node::{Adm, Delivered, EachRound, Settings, Turn, WhenAsked};
use sdh_plant::Plant;
use sdh_request::{Command, Moment};
use sdh_ringmap::{Pos, RingMap, Side};
use sdh_rounds::{
    Nobody, Nowhere, PlantFault, Recorder, RunsRounds, SettleError, StationRing, Stopped,
};
use std::alloc::{AllocError, Global};
use std::marker::Model;

/// The nodes of a ring, which run in rounds, and what their ports delivered in the last one.
#[derive(Debug, Drop)]
pub struct Ring {
    // `Some`, except while `settle_recording` runs: for that time the nodes are taken out.
    nodes: Option<AdmRing<EachRound, WhenAsked>>,
}

impl Model for Ring {
    ghost use Rattle.std.specs.Prelude.{[], None, IsSome, unwrap_or};
    ghost use Rattle.sdh_ringmap.specs.declared.terms.Rate.TheVariants.{Four};
    ghost use Rattle.sdh_rounds.specs.Held.{ring_of};
    ghost use Rattle.sdh_node.specs.Rings.Held.{HeldRing};

    ghost Value = { HeldRing };

    // By the invariant no caller sees the ring without nodes, which stands here as the default.
    ghost view = { λ a. unwrap_or a.nodes (ring_of (record { rate = Four; threshold = 0; wait = 0 }) [] (record { slots = 0; ring = None; circuits = [] }) []) };

    ghost invariant = { λ a. IsSome a.nodes };
}

impl Ring {
    /// Returns a ring of new nodes, in which no round has run, at moment 0. All its memory is taken here.
    #[tactic(auto, unfolding(sdh_node::specs::Rings::Held::new_nodes))]
    pub fn try_new(
        alloc: Global,
        settings: Settings,
        map: RingMap,
        circuits: CircuitMap,
    ) -> Result<Ring, AllocError>
        requires slots { circuits.slots ≡ n_of settings.rate / 2 }
        requires kept { KeepsRing circuits map }
        ensures ring { IfOk result (λ ring. ring ≡ new_ring settings map circuits) }

        // Over honest fibres that were just prepared for it, a new ring is whole (`IsWhole`). Among other things, in a
        // whole ring each node still has the position, the settings, the circuits and the ports with which it was made.
        // Each fibre carries a frame with the K word that its node sent last there, or nothing before the first round.
        ensures whole { IfOk result (λ ring. (f : Fibres) → IsHonest f → IsWhole (world ring (prepared settings.rate (length map) f))) }

        // A new ring over such fibres is vouched for (`IsVouched` in `sdh_laws/specs/Strangers/Vouched`): each AU-4
        // under way holds ones, or what one particular port put into its AU-4 in some earlier round. In a working slot
        // that port follows from the span, the slot and the direction. In a protection slot it follows from the slot,
        // the direction and the K word in the same frame. Where no port follows, the AU-4 holds ones. `clocks` gives
        // each port's clock before each round, and so what the port sends in it.
        ensures vouched { IfOk result (λ ring. (f : Fibres) (clocks : PortId → ℕ → Clock) → IsHonest f
            → IsVouched clocks (world ring (prepared settings.rate (length map) f))) }
    {
        sdh_laws::hearing::new_worlds_are_whole();
        sdh_laws::strangers::vouched_rings_stay();

        prove!(map.len() <= 16);
        prove!(circuits.len() <= 128);
        let nodes = AdmRing::try_new(alloc, settings, map, circuits)?;
        Ok(Ring { nodes: Some(nodes) })
    }

    /// Gives one side of a node a command.
    pub fn command(&mut self, at: Pos, side: Side, command: Command)
        requires { at.0 < length self.old.ids }
        ensures ring { self.new ≡ record self.old { nodes = at_place at.0 (at_receiving side (commanded_by command)) self.old.nodes } }
        ensures whole { (f : Fibres) → IsWhole (world self.old f) → IsWhole (world self.new f) }
        ensures vouched { (f : Fibres) (clocks : PortId → ℕ → Clock) → IsVouched clocks (world self.old f)
            → IsVouched clocks (world self.new f) }
    {
        sdh_laws::hearing::stay_whole();
        sdh_laws::strangers::vouched_rings_stay();
        let Some(nodes) = &mut self.nodes else {
            unreachable!()
        };
        nodes.command(at, side, command);
    }

    /// Holds the controller of a node for the next `turns` rounds. Rounds that remain from an earlier call no longer
    /// count. A ring that is vouched for (`IsVouched`) stays so if this node is idle or isolated.
    pub fn hold(&mut self, at: Pos, turns: u32)
        requires at { at.0 < length self.old.ids }
        requires some { 1 ≤ turns }
        requires few { turns ≤ 100 }
        ensures ring { self.new ≡ record self.old { nodes = at_place at.0 (held_for turns) self.old.nodes } }
        ensures whole { (f : Fibres) → IsWhole (world self.old f) → IsWhole (world self.new f) }
        ensures vouched { IsAside (node_at self.old.nodes at.0).state → (f : Fibres) (clocks : PortId → ℕ → Clock)
            → IsVouched clocks (world self.old f) → IsVouched clocks (world self.new f) }
    {
        sdh_laws::hearing::stay_whole();
        sdh_laws::strangers::vouched_rings_stay();
        let Some(nodes) = &mut self.nodes else {
            unreachable!()
        };
        nodes.hold(at, turns);
    }

    /// Adds `count` pending slips to the clock of the customer who sends at a port: ups or downs, as `turn` says. For
    /// each up the port sends three bytes fewer in one round, and for each down three more.
    pub fn slip(&mut self, port: PortId, turn: Turn, count: u8)
        requires port { port.circuit < length self.old.circuits.circuits }
        requires few { waiting_at self.old port + count ≤ 16 }
        ensures ring { self.new ≡ record self.old {
          nodes = at_place (place_of_port self.old port) (slips_at port turn count) self.old.nodes;
        } }
        ensures whole { (f : Fibres) → IsWhole (world self.old f) → IsWhole (world self.new f) }
        ensures vouched { (f : Fibres) (clocks : PortId → ℕ → Clock) → IsVouched clocks (world self.old f)
            → IsVouched clocks (world self.new f) }
    {
        sdh_laws::hearing::stay_whole();
        sdh_laws::strangers::vouched_rings_stay();
        let Some(nodes) = &mut self.nodes else {
            unreachable!()
        };
        nodes.slip(port, turn, count);
    }

    /// Returns the number of slips that wait at a port of a circuit, 0 to 16.
    pub fn waiting(&self, port: PortId) -> u8
        requires { port.circuit < length self.now.circuits.circuits }
        ensures waiting { result ≡ waiting_at self.now port }
        ensures few { result ≤ 16 }
    {
        self.nodes().node_of(port).waiting(port)
    }

    /// Sets the present moment, at which the next rounds run.
    pub fn moment(&mut self, now: Moment)
        requires later { self.old.moment ≤ now.0 }
        requires within { now.0 ≤ 1000000000 }
        ensures ring { self.new ≡ record self.old { moment = now.0 } }
        ensures whole { (f : Fibres) → IsWhole (world self.old f) → IsWhole (world self.new f) }
        ensures vouched { (f : Fibres) (clocks : PortId → ℕ → Clock) → IsVouched clocks (world self.old f)
            → IsVouched clocks (world self.new f) }
    {
        sdh_laws::hearing::stay_whole();
        sdh_laws::strangers::vouched_rings_stay();
        let Some(nodes) = &mut self.nodes else {
            unreachable!()
        };
        nodes.moment(now);
    }

    /// Runs one round: all nodes receive, except in round 0, and then all send. It takes no memory. After a fault of
    /// the plant the ring is broken.
    pub fn round<P: Plant>(&mut self, plant: &mut P) -> Result<(), PlantFault>
        requires prepared { IsPrepared self.old.settings.rate (length self.old.ids) (P.fibres plant.old) }
        requires whole { self.old.broken ≡ false }
        requires room { self.old.rounds < 2 ^ 32 }
        ensures ok { OnOk result (IsRound (world self.old (P.fibres plant.old)) (world self.new (P.fibres plant.new))) }
        ensures prepared { OnOk result (IsPrepared self.old.settings.rate (length self.old.ids) (P.fibres plant.new)) }

        // If the ring is whole (`IsWhole`), the round agrees with a round of the ring of signals (`sdh_signal`), whose
        // nodes have states and K words but no frames. The nodes' states, the words that they send, and what the last
        // three rounds brought them are those of that ring after a round with the same local requests, failing sides
        // and held nodes.
        ensures signals { OnOk result (IsWhole (world self.old (P.fibres plant.old))
            → GoesAsSignals (world self.old (P.fibres plant.old)) (world self.new (P.fibres plant.new))) }

        // If the ring is at rest, the round is calm, each port delivers what it is owed, and the ring stays at rest.
        ensures rest { OnOk result ((clocks : PortId → ℕ → Clock) → IsAtRest clocks (world self.old (P.fibres plant.old))
            → StaysAtRest clocks (world self.new (P.fibres plant.new))) }

        // If the ring is vouched for, it stays so, and no port meets a stranger in the round: each port delivers AIS,
        // or ones, or bytes that its circuit's other port sent in some earlier round, of which three may be zeros.
        ensures strangers { OnOk result (KeepsStrangersOut (world self.old (P.fibres plant.old)) (world self.new (P.fibres plant.new))) }

        // A fault breaks the ring. Some frames of the round may have been sent before the fault. At the nodes that ran
        // this round before the fault, the clocks of ports have gone on by one round, and at no others.
        ensures err { OnErr result (IsBrokenOff (world self.old (P.fibres plant.old)) (P.fibres plant.new)) }
        ensures broken { OnErr result (self.new.broken ≡ true) }
        ensures breaks { OnErr result (BreaksOne adm (world self.old (P.fibres plant.old)) (world self.new (P.fibres plant.new))) }
        ensures clocks { OnErr result (BreaksRound (world self.old (P.fibres plant.old)) (world self.new (P.fibres plant.new))) }
        ensures later { P.faults plant.old ≤ P.faults plant.new }
        ensures failed { OnErr result (Rose (P.faults plant.old) (P.faults plant.new)) }

        // The plant's count of faults is exact (`P.exact`) if it rises by one with each failed call, up to the largest
        // `u64`, and with no other call. An exact count rises by one if the round ends with a fault, and stays as it
        // was if it ends with Ok.
        ensures counted { IsCounted P.exact (IsErr result) (P.faults plant.old) (P.faults plant.new) }
    {
        sdh_laws::hearing::whole_rounds_go_as_signals();
        sdh_laws::resting::rest_goes_on();
        sdh_laws::strangers::rounds_keep_strangers_out();
        let Some(nodes) = &mut self.nodes else {
            unreachable!()
        };
        nodes.circuits_fit();
        nodes.round(plant)
    }
}

// Settle steps.
impl Ring {
    /// Runs rounds, at most `limit`, until one ends a quiet window: `3 * n` calm rounds of this step, one after the
    /// other. The number of the last one is a multiple of 128. The function takes no memory.
    pub fn settle<P: Plant>(&mut self, plant: &mut P, limit: u32) -> Result<(), SettleError>
        requires prepared { IsPrepared self.old.settings.rate (length self.old.ids) (P.fibres plant.old) }
        requires whole { self.old.broken ≡ false }
        requires some { 1 ≤ limit }
        requires few { limit ≤ 65536 }
        requires room { self.old.rounds + limit ≤ 2 ^ 32 }
        ensures step { IsStep adm P.exact (world self.old (P.fibres plant.old)) limit result (world self.new (P.fibres plant.new))
            (P.faults plant.old) (P.faults plant.new) }

        // `KeepsPromises` says when a step restores traffic, when the step keeps strangers out, from which round on each
        // port gets bytes of exactly one transit before, and when it has to end with a window.
        ensures laws { KeepsPromises (world self.old (P.fibres plant.old)) limit result (world self.new (P.fibres plant.new)) }
    {
        match self.settle_recording(plant, limit, &mut Nobody, &mut Nowhere) {
            Ok(ended) => ended,
            Err(Stopped) => Err(SettleError::Unsettled),
        }
    }

    /// Runs rounds as `settle` does, with a recorder that looks at the nodes after each round and may stop the step
    /// then. What the ports deliver stays in the frames that the nodes received, and is taken out of them when the step
    /// has ended. Returns `Err` if the recorder stopped the step, and otherwise `Ok` with how the step ended, as
    /// `settle` returns it.
    pub fn settle_recording<P: Plant, L, O: Recorder<Running, P, L>>(
        &mut self,
        plant: &mut P,
        limit: u32,
        recorder: &mut O,
        log: &mut L,
    ) -> Result<Result<(), SettleError>, Stopped>
        requires prepared { IsPrepared self.old.settings.rate (length self.old.ids) (P.fibres plant.old) }
        requires whole { self.old.broken ≡ false }
        requires some { 1 ≤ limit }
        requires few { limit ≤ 65536 }
        requires room { self.old.rounds + limit ≤ 2 ^ 32 }
        requires ready { (at : ℕ → World) → at 0 ≡ world self.old (P.fibres plant.old)
            → O.Records recorder.old log.old at 0 recorder.old log.old }
        ensures step { IfOk result (λ ended. IsStep adm P.exact (world self.old (P.fibres plant.old)) limit ended
            (world self.new (P.fibres plant.new)) (P.faults plant.old) (P.faults plant.new)) }
        ensures laws { IfOk result (λ ended. KeepsPromises (world self.old (P.fibres plant.old)) limit ended (world self.new (P.fibres plant.new))) }

        // `Records` holds of recorder and log for exactly these rounds: all rounds of the step, if it ended with a
        // quiet window or was unsettled; all rounds before the one that was broken off, if a fault ended it. If the
        // recorder stopped the step, `Stops` holds of them for all rounds up to the stop.
        ensures heard { IfOk result (λ ended. OnOk ended (Hears (λ at k. O.Records recorder.old log.old at k recorder.new log.new)
            (world self.old (P.fibres plant.old)) limit (world self.new (P.fibres plant.new)))) }
        ensures begun { IfOk result (λ ended. OnErr ended (HearsSome (λ at k. O.Records recorder.old log.old at k recorder.new log.new)
            (world self.old (P.fibres plant.old)) limit (world self.new (P.fibres plant.new)))) }
        ensures unsettled { IfOk result (λ ended. ended ≡ Err SettleError.Unsettled
            → RanSome (λ at k. O.Records recorder.old log.old at k recorder.new log.new) (world self.old (P.fibres plant.old)) limit
            (world self.new (P.fibres plant.new))) }
        ensures stopped { OnErr result (IsStopped P.exact (λ at k. O.Stops recorder.old log.old at k recorder.new log.new)
            (world self.old (P.fibres plant.old)) limit (world self.new (P.fibres plant.new)) (P.faults plant.old) (P.faults plant.new)) }
    {
        self.nodes().circuits_fit();
        self.nodes().few_slips_wait();
        sdh_laws::hearing::steps_stay_whole();
        sdh_laws::carrying::settled_rings_are_restored();
        sdh_laws::resting::steps_leave_at_rest();
        sdh_laws::restoring::unsettled_rings_are_restored();
        sdh_laws::restoring::unsettled_followed_rings_are_restored();
        sdh_laws::restoring::steps_leave_followed();
        sdh_laws::converging::steps_answer();
        sdh_laws::strangers::steps_keep_strangers_out();
        sdh_laws::strangers::steps_deliver_after_transit();
        sdh_laws::strangers::steps_deliver_recent_bytes();
        let Some(nodes) = self.nodes.take() else {
            unreachable!()
        };
        let mut running = nodes.into_form();
        let ended = sdh_rounds::settle_recording(&mut running, plant, limit, recorder, log);
        self.nodes = Some(running.into_form());
        ended
    }
}

impl RunsRounds for Ring {
    type Node = Adm;

    ghost held = { λ ring. ring };

    fn stations(&self) -> &StationRing<Adm> {
        self.nodes().stations()
    }

    fn round<P: Plant>(&mut self, plant: &mut P) -> Result<(), PlantFault> {
        Ring::round(self, plant)
    }
}

// What can be read of the ring's ports and nodes.
impl Ring {
    // Returns the nodes.
    fn nodes(&self) -> &AdmRing<EachRound, WhenAsked>
        ensures { result.now ≡ self.now }
    {
        let Some(nodes) = &self.nodes else {
            unreachable!()
        };
        nodes
    }

    /// Returns what a port of a circuit delivered in the last round, and AIS before the first.
    pub fn port(&self, port: PortId) -> &Delivered
        requires { port.circuit < length self.now.circuits.circuits }
        ensures { result.now ≡ (outlet_at self.now port).delivered }
    {
        self.nodes().node_of(port).delivered(port)
    }

    /// Returns the pointer value of the interpreter through which a port's bytes came, and 0 where the port delivers
    /// AIS.
    pub fn value(&self, port: PortId) -> u16
        requires { port.circuit < length self.now.circuits.circuits }
        ensures value { result ≡ (outlet_at self.now port).value }
        ensures small { result ≤ 782 }
    {
        self.nodes().node_of(port).value(port)
    }

    /// Returns how many rounds have run. They are numbered from 0, so the number of the last one is less by one.
    pub fn rounds(&self) -> u64
        ensures { result ≡ self.now.rounds }
    {
        self.nodes().stations().rounds()
    }

    /// Returns the nodes' identifiers.
    pub fn map(&self) -> &RingMap
        ensures { result.now ≡ self.now.ids }
    {
        self.nodes().stations().map()
    }

    /// Returns the circuits.
    pub fn circuits(&self) -> &CircuitMap
        ensures { result.now ≡ self.now.circuits }
    {
        self.nodes().stations().circuits()
    }

    /// Returns the node at a position.
    pub fn node(&self, at: Pos) -> &Adm
        requires { at.0 < length self.now.ids }
        ensures { slice_get self.now.nodes at.0 ≡ Some result.now }
    {
        self.nodes().stations().node(at)
    }

    /// Returns whether a fault of the plant broke a round off.
    pub fn is_broken(&self) -> bool
        ensures { result ≡ self.now.broken }
    {
        self.nodes().stations().is_broken()
    }
}
