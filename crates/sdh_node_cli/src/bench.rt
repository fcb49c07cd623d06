//! A node on the bench.
ghost use Rattle.std.specs.Prelude.{◌≡◌, ◌^◌, ◌<◌, [], IfOk, OnOk, OnErr, length};
ghost use Rattle.sdh_frame.specs.Sizes.{size_of};
ghost use Rattle.sdh_plan.specs.Check.{unless};
ghost use Rattle.sdh_node_cli.specs.Records.{record_of, IsTold, IsRecord};
ghost use Rattle.sdh_node_cli.specs.declared.record.Came.TheVariants as came;
ghost use Rattle.sdh_node_cli.specs.Bench.{new_bench, refusal_of, after_told, after_coming, after_round, answer_to};
ghost use Rattle.sdh_node_cli.specs.Pairs.{written};

use crate::answer::{Answer, put_ports, put_shown};
use crate::record::{Record, Told, record_of};
use crate::words::{Ask, Mode};
use sdh_circuits::CircuitMap;
use sdh_frame::FrameBuf;
use sdh_node::{Adm, WhenAsked};
use sdh_overhead::Landed;
use sdh_plan::{Plan, Reason};
use sdh_plant::Arrived;
use sdh_request::Moment;
use sdh_ringmap::{Pos, Rate, Side};
use std::alloc::{AllocError, Global};
use std::marker::Model;

/// One node of a plan's ring, with the present moment, the circuits, the number of rounds it has run, and room for a
/// frame of each side.
#[derive(Drop)]
pub struct Bench {
    mode: Mode,
    id: u8,
    at: Pos,
    circuits: CircuitMap,
    moment: Moment,
    rounds: u64,
    node: Adm<WhenAsked>,
    west: FrameBuf,
    east: FrameBuf,
}

impl Model for Bench {
    ghost use Rattle.std.specs.Prelude.{◌≡◌, length};
    ghost use Rattle.sdh_node_cli.specs.Bench.{Bench as OnBench, IsBench};

    ghost Value = { OnBench };

    ghost view = { λ b. record { mode = b.mode; id = b.id; at = b.at; circuits = b.circuits.circuits; moment = b.moment.0; node = b.node } };

    ghost invariant = { λ b. IsBench (record { mode = b.mode; id = b.id; at = b.at; circuits = b.circuits.circuits; moment = b.moment.0; node = b.node })
        × (b.rounds ≡ b.node.rounds) × (b.west.rate ≡ b.node.settings.rate) × (b.east.rate ≡ b.node.settings.rate) };
}

impl Bench {
    /// Returns the node at a position of a plan's ring, before any record. All its memory is taken here.
    #[tactic(auto, unfolding(crate::specs::Bench::new_bench))]
    pub fn try_new(alloc: Global, plan: Plan, ask: Ask, at: Pos) -> Result<Bench, AllocError>
        requires { at.0 < length plan.nodes }
        ensures { IfOk result (λ bench. bench ≡ new_bench ask.mode ask.id at plan) }
    {
        let settings = plan.settings();
        let (map, circuits, _) = plan.into_parts();
        prove!(circuits.len() <= 128);
        let (west, east) = room_for(alloc, settings.rate)?;
        let node = Adm::try_new(alloc, settings, &map, &circuits, at)?;
        Ok(Bench {
            mode: ask.mode,
            id: ask.id,
            at,
            circuits,
            moment: Moment(0),
            rounds: 0,
            node,
            west,
            east,
        })
    }

    /// Returns the rate of the frames.
    pub fn rate(&self) -> Rate
        ensures { result ≡ self.now.node.settings.rate }
    {
        self.west.rate()
    }

    /// Returns what is written for a round.
    pub fn mode(&self) -> Mode
        ensures { result ≡ self.now.mode }
    {
        self.mode
    }

    /// Returns the record that a line is for this node, or the reason for which the first check of its words fails.
    pub fn record_of(&self, line: &[u8]) -> Result<Record, Reason>
        ensures is { result ≡ record_of self.now.circuits self.now.at line.now }
        ensures form { IfOk result (IsRecord self.now.circuits self.now.at) }
    {
        record_of(&self.circuits, self.at, line)
    }

    /// Gives the node what a record gives it: a command, a moment, held rounds or slips. Returns the reason where that
    /// can't be done, and changes nothing then.
    #[tactic(auto, unfolding(crate::specs::Bench::refusal_of, crate::specs::Bench::after_told))]
    pub fn tell(&mut self, told: Told) -> Result<(), Reason>
        requires { IsTold self.old.circuits self.old.at told }
        ensures refused { result ≡ unless (refusal_of self.old told) tt }
        ensures ok { OnOk result (self.new ≡ after_told told self.old) }
        ensures err { OnErr result (self.new ≡ self.old) }
    {
        match told {
            Told::Command(side, command) => self.node.command(side, command),
            Told::Moment(moment) => {
                if moment.0 < self.moment.0 {
                    return Err(Reason::MomentBack);
                }
                self.moment = moment;
            }
            Told::Hold(turns) => self.node.hold(turns),
            Told::Slip(port, turn, count) => {
                if u16::from(self.node.waiting(port)) + u16::from(count) > 16 {
                    return Err(Reason::Slips);
                }
                self.node.slip(port, turn, count);
            }
        }
        Ok(())
    }

    /// Keeps for the next round that there is no light on a side.
    #[tactic(auto, unfolding(crate::specs::Bench::after_coming))]
    pub fn darken(&mut self, side: Side)
        ensures { self.new ≡ record self.old { node = after_coming side came.Dark [] self.old.node } }
    {
        self.node.receive(side, Arrived::Dark, &self.west);
    }

    /// Keeps for the next round a frame that came on a side. It lands in the inbox, whose buffer is then exchanged for
    /// another one.
    #[tactic(auto, unfolding(crate::specs::Bench::after_coming))]
    pub fn take_frame(&mut self, inbox: &mut Landed, side: Side, bytes: &[u8])
        requires whole { length bytes.now ≡ size_of self.old.node.settings.rate }
        requires rate { inbox.old.rate ≡ self.old.node.settings.rate }
        ensures bench { self.new ≡ record self.old { node = after_coming side came.Frame bytes.now self.old.node } }
        ensures rate { inbox.new.rate ≡ inbox.old.rate }
    {
        inbox.land_bytes(bytes);
        self.node.receive_landed(side, Arrived::Frame, inbox);
    }

    /// Runs a round, and makes its answer, whose lines are empty before. The frames are put together in the bench, and
    /// scrambled to the answer. It takes no memory.
    pub fn run(&mut self, answer: &mut Answer)
        requires few { self.old.node.rounds < 2 ^ 32 }
        requires empty { answer.old.lines.bytes ≡ [] }
        requires frames { answer.old.frames.rate ≡ self.old.node.settings.rate }
        ensures bench { self.new ≡ after_round self.old }
        ensures bytes { written self.old.mode answer.new.lines.bytes answer.new.frames ≡ answer_to self.old }
        ensures frames { answer.new.frames.rate ≡ answer.old.frames.rate }
    {
        let frames = &mut answer.frames;
        self.node
            .send_through(self.moment, &mut self.west, &mut self.east, frames);
        put_shown(&mut answer.lines, &self.node, self.rounds, self.id);
        self.rounds += 1;
        put_ports(&mut answer.lines, &self.node, self.at, &self.circuits);
        answer.close(self.mode);
    }
}

// Returns room for a frame of each side.
fn room_for(alloc: Global, rate: Rate) -> Result<(FrameBuf, FrameBuf), AllocError>
    ensures { IfOk result (λ room. (room.0.rate ≡ rate) × (room.1.rate ≡ rate)) }
{
    let west = FrameBuf::try_new(alloc, rate)?;
    let east = FrameBuf::try_new(alloc, rate)?;
    Ok((west, east))
}
