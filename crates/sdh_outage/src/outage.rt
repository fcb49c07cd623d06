//! The outage of a port, counted.
ghost use Rattle.std.specs.Prelude.{◌≡◌, ◌+◌, ◌^◌, ◌<◌, ◌≤◌, Option};
ghost use Rattle.sdh_outage.specs.Outages.{no_runs, with_run, is_out, no_outage, up_to, first_port, with_kind, stretch_with, with_round};
ghost use Rattle.sdh_outage.specs.Outages.{out, is_back, is_over};
ghost use Rattle.sdh_outage.specs.Kept.{are_few, AreRunsFew};

use crate::kind::Kind;
use sdh_circuits::PortId;

/// The number of rounds that a switch may take, 50 ms of frames (ITU-T G.841).
const SWITCH_MAX: u32 = 400;

/// The rounds from one to another.
#[derive(Clone, Copy, Debug)]
pub struct Stretch {
    /// The first round that wasn't in order.
    pub from: u32,
    /// The last round that wasn't in order.
    pub to: u32,
}

/// The runs of rounds, one after the other, that brought none of the far customer's bytes.
#[derive(Clone, Copy, Debug)]
pub struct Runs {
    /// The number of runs.
    pub count: u32,
    /// The number of rounds of the longest run.
    pub longest: u32,
    /// The number of rounds of the run that still goes on; 0 where the last round brought the customer's bytes.
    pub going: u32,
}

/// What was counted of the rounds of a settle step that weren't in order.
#[derive(Clone, Copy)]
pub struct Outage {
    /// The number of rounds that brought AIS.
    pub ais: u32,
    /// The number of rounds that brought a chunk all of ones.
    pub ones: u32,
    /// The number of rounds that brought a chunk of the far customer's that doesn't follow the one before.
    pub jump: u32,
    /// The number of rounds that brought the far customer's bytes with others between them or with some left out.
    pub torn: u32,
    /// The number of rounds that brought bytes that a port of another circuit sends.
    pub foreign: u32,
    /// The first port of another circuit whose bytes came, where there is one.
    pub whose: Option<PortId>,
    /// The number of rounds that brought any other chunk.
    pub strange: u32,
    /// The runs of rounds without the far customer's bytes.
    pub runs: Runs,
    /// From the first round that wasn't in order to the last one, where there is one.
    pub stretch: Option<Stretch>,
}

// Returns the stretch with this round as its last one.
fn up_to(round: u32, stretch: Option<Stretch>) -> Option<Stretch>
    ensures { result ≡ up_to round stretch }
{
    match stretch {
        None => Some(Stretch {
            from: round,
            to: round,
        }),
        Some(s) => Some(Stretch { to: round, ..s }),
    }
}

// Returns the stretch after a round of this number and kind.
fn stretch_with(round: u32, kind: Kind, stretch: Option<Stretch>) -> Option<Stretch>
    ensures { result ≡ stretch_with round kind stretch }
{
    match kind {
        Kind::InOrder => stretch,
        Kind::Ais | Kind::Ones | Kind::Jump | Kind::Torn | Kind::Foreign(_) | Kind::Strange =>
            up_to(round, stretch),
    }
}

// Returns the first port whose bytes came.
fn first_port(first: Option<PortId>, port: PortId) -> Option<PortId>
    ensures { result ≡ first_port first port }
{
    match first {
        None => Some(port),
        Some(before) => Some(before),
    }
}

// Returns whether a round of this kind brought none of the far customer's bytes.
fn is_out(kind: Kind) -> bool
    ensures { result ≡ is_out kind }
{
    match kind {
        Kind::InOrder | Kind::Jump | Kind::Torn => false,
        Kind::Ais | Kind::Ones | Kind::Foreign(_) | Kind::Strange => true,
    }
}

impl Runs {
    /// Returns the runs before any round.
    pub(crate) fn none() -> Runs
        ensures { result ≡ no_runs }
    {
        Runs {
            count: 0,
            longest: 0,
            going: 0,
        }
    }

    /// Returns the runs after one round more, which brought none of the far customer's bytes where `lacks` holds.
    pub(crate) fn with_run(self, lacks: bool, round: u32) -> Runs
        requires few { AreRunsFew self round }
        requires room { round + 1 < 2 ^ 32 }
        ensures runs { result ≡ with_run lacks self }
        ensures few { AreRunsFew result (round + 1) }
    {
        if !lacks {
            return Runs { going: 0, ..self };
        }
        let going = self.going + 1;
        Runs {
            count: if self.going == 0 {
                self.count + 1
            } else {
                self.count
            },
            longest: self.longest.max(going),
            going,
        }
    }
}

impl Outage {
    /// Returns the outage before any round.
    pub(crate) fn none() -> Outage
        ensures { result ≡ no_outage }
    {
        Outage {
            ais: 0,
            ones: 0,
            jump: 0,
            torn: 0,
            foreign: 0,
            whose: None,
            strange: 0,
            runs: Runs::none(),
            stretch: None,
        }
    }

    // Returns the outage with one round more of this kind counted.
    fn with_kind(self, kind: Kind) -> Outage
        requires few { are_few self + 1 < 2 ^ 32 }
        ensures counts { result ≡ with_kind kind self }
        ensures few { are_few result ≤ are_few self + 1 }
    {
        let mut now = self;
        match kind {
            Kind::InOrder => {}
            Kind::Ais => now.ais += 1,
            Kind::Ones => now.ones += 1,
            Kind::Jump => now.jump += 1,
            Kind::Torn => now.torn += 1,
            Kind::Foreign(port) => {
                now.foreign += 1;
                now.whose = first_port(self.whose, port);
            }
            Kind::Strange => now.strange += 1,
        }
        now
    }

    /// Returns the outage after one round more, of this number and kind.
    pub(crate) fn with_round(self, round: u32, kind: Kind) -> Outage
        requires few { are_few self + 1 < 2 ^ 32 }
        requires runs { AreRunsFew self.runs round }
        requires room { round + 1 < 2 ^ 32 }
        ensures counts { result ≡ with_round round kind self }
        ensures few { are_few result ≤ are_few self + 1 }
        ensures runs { AreRunsFew result.runs (round + 1) }
    {
        let counted = self.with_kind(kind);
        Outage {
            runs: self.runs.with_run(is_out(kind), round),
            stretch: stretch_with(round, kind, self.stretch),
            ..counted
        }
    }

    /// Returns the number of rounds that brought none of the port's own customer's bytes.
    pub fn out(&self) -> u64
        ensures { result ≡ out self.now }
    {
        u64::from(self.ais)
            + u64::from(self.ones)
            + u64::from(self.strange)
            + u64::from(self.foreign)
    }

    /// Returns whether the last round brought the bytes of the port's own customer, or there was no round.
    pub fn is_back(&self) -> bool
        ensures { result ≡ is_back self.now }
    {
        self.runs.going == 0
    }

    /// Returns whether the port was out for more than 400 rounds at a time.
    pub fn is_over(&self) -> bool
        ensures { result ≡ is_over self.now }
    {
        self.runs.longest > SWITCH_MAX
    }
}
