//! Settle steps of any ring.
ghost use Rattle.std.specs.Prelude.{◌≡◌, ◌+◌, ◌^◌, ◌<◌, ◌≤◌, ℕ, suc, false, Err, IfOk, OnOk, OnErr, length, if◌then◌else◌};
ghost use Rattle.sdh_plant.specs.Fibres.{IsPrepared};
ghost use Rattle.sdh_rounds.specs.Held.{HeldRing, World, world};
ghost use Rattle.sdh_rounds.specs.Observed.{RanOne, Hears, RanSome, HearsSome, IsStopped};
ghost use Rattle.sdh_rounds.specs.Outcome.{IsOneRound, IsStep};

use crate::faults::{PlantFault, SettleError, Stopped};
use crate::ring::StationRing;
use crate::station::Station;
use sdh_plant::Plant;

/// A ring that runs in rounds. Each implementation may guarantee more of its rings than holds of every `StationRing`.
pub trait RunsRounds {
    /// The kind of the ring's nodes.
    type Node: Station;

    /// What the ring holds, as contracts see it.
    ghost held: { Self → HeldRing Self.Node };

    /// Returns the nodes, and what a round of them needs.
    fn stations(&self) -> &StationRing<Self::Node>
        ensures { result.now ≡ held self.now };

    /// Runs a round. After a fault of the plant the ring is broken.
    fn round<P: Plant>(&mut self, plant: &mut P) -> Result<(), PlantFault>
        requires prepared { IsPrepared (held self.old).settings.rate (length (held self.old).ids) (P.fibres plant.old) }
        requires whole { (held self.old).broken ≡ false }
        requires room { (held self.old).rounds < 2 ^ 32 }
        ensures { IsOneRound Self.Node.kind P.exact (world (held self.old) (P.fibres plant.old)) result
            (world (held self.new) (P.fibres plant.new)) (P.faults plant.old) (P.faults plant.new) };
}

/// An observer: it looks at a ring after each round of a settle step, and keeps something of what it saw.
pub trait Observer<R: RunsRounds> {
    /// Says what an observer keeps once a number of rounds of a course have run. A course gives the world, which is a
    /// ring and its fibres, after each number of rounds.
    ghost Heard: { (ℕ → World R.Node) → ℕ → Self → Type 0 };

    /// Looks at the ring after one more round. Whatever course led there, the observer then keeps what `Heard` says of
    /// it.
    fn look(&mut self, ring: &R)
        requires { (at : ℕ → World R.Node) × (k : ℕ) × RanOne R.Node.kind at k (R.held ring.now) × Heard at k self.old }
        ensures { (at : ℕ → World R.Node) (k : ℕ) → RanOne R.Node.kind at k (R.held ring.now) → Heard at k self.old
            → Heard at (suc k) self.new };

    /// What an observer is to keep depends only on the rounds that have run.
    ghost same: { (at bt : ℕ → World R.Node) (k : ℕ) (o : Self) → ((j : ℕ) → j ≤ k → at j ≡ bt j) → Heard at k o → Heard bt k o };
}

/// An observer that keeps nothing.
#[derive(Drop)]
pub struct Nobody;

impl<R: RunsRounds> Observer<R> for Nobody {
    ghost Heard = { λ at k o. Unit {0} };

    fn look(&mut self, _ring: &R) {}

    ghost same = { λ at bt k o same heard. tt };
}

/// A recorder: it looks at a ring and its plant after each round of a settle step, writes what it saw to a log that is
/// passed along, and may stop the step.
pub trait Recorder<R: RunsRounds, P: Plant, L> {
    /// Says what recorder and log are once a number of rounds of a course have run, by what they were before the step.
    /// A course gives the world, which is a ring and its fibres, after each number of rounds.
    ghost Records: { Self → L → (ℕ → World R.Node) → ℕ → Self → L → Type 0 };

    /// Says what recorder and log are where the recorder stopped the step after a number of rounds.
    ghost Stops: { Self → L → (ℕ → World R.Node) → ℕ → Self → L → Type 0 };

    /// Looks at the ring and the plant after one more round, and writes to the log. Whatever course led there, recorder
    /// and log are then what `Records` says of that round; or what `Stops` says, where an error stops the step.
    fn note(&mut self, ring: &R, plant: &P, log: &mut L) -> Result<(), Stopped>
        requires { (first : Self) × (begun : L) × (at : ℕ → World R.Node) × (k : ℕ) × RanOne R.Node.kind at k (R.held ring.now)
            × (P.fibres plant.now ≡ (at (suc k)).fibres) × Records first begun at k self.old log.old }
        ensures goes { OnOk result ((first : Self) (begun : L) (at : ℕ → World R.Node) (k : ℕ) → RanOne R.Node.kind at k (R.held ring.now)
            → P.fibres plant.now ≡ (at (suc k)).fibres → Records first begun at k self.old log.old
            → Records first begun at (suc k) self.new log.new) }
        ensures stops { OnErr result ((first : Self) (begun : L) (at : ℕ → World R.Node) (k : ℕ) → RanOne R.Node.kind at k (R.held ring.now)
            → P.fibres plant.now ≡ (at (suc k)).fibres → Records first begun at k self.old log.old
            → Stops first begun at (suc k) self.new log.new) };

    /// What is recorded depends only on the rounds that have run.
    ghost same: { (first : Self) (begun : L) (at bt : ℕ → World R.Node) (k : ℕ) (o : Self) (l : L) → ((j : ℕ) → j ≤ k → at j ≡ bt j)
        → Records first begun at k o l → Records first begun bt k o l };
}

/// The log of an observer that writes nothing.
#[derive(Drop)]
pub struct Nowhere;

// Each observer is a recorder that writes nowhere, and never stops a step.
impl<R: RunsRounds, P: Plant, O: Observer<R>> Recorder<R, P, Nowhere> for O {
    ghost Records = { λ first begun at k o l. O.Heard at k o };

    ghost Stops = { λ first begun at k o l. ⊥ };

    fn note(&mut self, ring: &R, _plant: &P, _log: &mut Nowhere) -> Result<(), Stopped> {
        <O as Observer<R>>::look(self, ring);
        Ok(())
    }

    ghost same = { λ first begun at bt k o l same heard. O.same at bt k o same heard };
}

// Returns the number of calm rounds in a row up to the last round, where there were `calm` up to the round before.
fn calm_rounds(was_calm: bool, calm: u32) -> u32
    requires { calm + 1 < 2 ^ 32 }
    ensures { result ≡ (if was_calm then calm + 1 else 0) }
{
    if was_calm { calm + 1 } else { 0 }
}

/// Runs at most `limit` rounds, until one ends a quiet window: `3 * n` calm rounds of this step, where the number of
/// the last is a multiple of 128. The recorder looks at the ring after each round, and may stop the step then. Takes no
/// memory. The outer result is an error only where the recorder stopped the step. The inner one says how the step
/// ended.
pub fn settle_recording<R: RunsRounds, P: Plant, L, O: Recorder<R, P, L>>(
    ring: &mut R,
    plant: &mut P,
    limit: u32,
    recorder: &mut O,
    log: &mut L,
) -> Result<Result<(), SettleError>, Stopped>
    requires prepared { IsPrepared (R.held ring.old).settings.rate (length (R.held ring.old).ids) (P.fibres plant.old) }
    requires whole { (R.held ring.old).broken ≡ false }
    requires some { 1 ≤ limit }
    requires few { limit ≤ 65536 }
    requires room { (R.held ring.old).rounds + limit ≤ 2 ^ 32 }
    requires ready { (at : ℕ → World R.Node) → at 0 ≡ world (R.held ring.old) (P.fibres plant.old)
        → O.Records recorder.old log.old at 0 recorder.old log.old }
    ensures step { IfOk result (λ ended. IsStep R.Node.kind P.exact (world (R.held ring.old) (P.fibres plant.old)) limit ended
        (world (R.held ring.new) (P.fibres plant.new)) (P.faults plant.old) (P.faults plant.new)) }

    // After a step that ended with a quiet window, recorder and log are what `Records` says of all its rounds, and of
    // no other round.
    ensures heard { IfOk result (λ ended. OnOk ended
        (Hears R.Node.kind (λ at k. O.Records recorder.old log.old at k recorder.new log.new)
        (world (R.held ring.old) (P.fibres plant.old)) limit (world (R.held ring.new) (P.fibres plant.new)))) }

    // After a step that ended with an error, recorder and log are what `Records` says of its whole rounds. Where the
    // step was unsettled these are all its rounds.
    ensures begun { IfOk result (λ ended. OnErr ended
        (HearsSome R.Node.kind (λ at k. O.Records recorder.old log.old at k recorder.new log.new)
        (world (R.held ring.old) (P.fibres plant.old)) limit (world (R.held ring.new) (P.fibres plant.new)))) }
    ensures unsettled { IfOk result (λ ended. ended ≡ Err SettleError.Unsettled
        → RanSome R.Node.kind (λ at k. O.Records recorder.old log.old at k recorder.new log.new)
        (world (R.held ring.old) (P.fibres plant.old)) limit (world (R.held ring.new) (P.fibres plant.new))) }
    ensures stopped { OnErr result (IsStopped R.Node.kind P.exact
        (λ at k. O.Stops recorder.old log.old at k recorder.new log.new) (world (R.held ring.old) (P.fibres plant.old)) limit
        (world (R.held ring.new) (P.fibres plant.new)) (P.faults plant.old) (P.faults plant.new)) }
{
    let mut calm = 0u32;
    'rounds: for _turn in 0..limit {
        let Ok(()) = ring.round(plant) else {
            return Ok(Err(SettleError::PlantFault));
        };
        recorder.note(ring, plant, log)?;
        calm = calm_rounds(ring.stations().is_calm(), calm);
        if ring.stations().is_over(calm) {
            return Ok(Ok(()));
        }
    }
    Ok(Err(SettleError::Unsettled))
}

/// Runs at most `limit` rounds, until one ends a quiet window: `3 * n` calm rounds of this step, where the number of
/// the last is a multiple of 128. The observer looks at the ring after each round. Takes no memory. Returns `Unsettled`
/// where no round ended a window, and `PlantFault` where a call of the plant failed.
pub fn settle<R: RunsRounds, P: Plant, O: Observer<R>>(
    ring: &mut R,
    plant: &mut P,
    limit: u32,
    observer: &mut O,
) -> Result<(), SettleError>
    requires prepared { IsPrepared (R.held ring.old).settings.rate (length (R.held ring.old).ids) (P.fibres plant.old) }
    requires whole { (R.held ring.old).broken ≡ false }
    requires some { 1 ≤ limit }
    requires few { limit ≤ 65536 }
    requires room { (R.held ring.old).rounds + limit ≤ 2 ^ 32 }
    requires ready { (at : ℕ → World R.Node) → at 0 ≡ world (R.held ring.old) (P.fibres plant.old) → O.Heard at 0 observer.old }
    ensures step { IsStep R.Node.kind P.exact (world (R.held ring.old) (P.fibres plant.old)) limit result
        (world (R.held ring.new) (P.fibres plant.new)) (P.faults plant.old) (P.faults plant.new) }

    // After a step that ended with a quiet window, the observer keeps what `Heard` says of all its rounds, and of no
    // other round.
    ensures heard { OnOk result (Hears R.Node.kind (λ at k. O.Heard at k observer.new)
        (world (R.held ring.old) (P.fibres plant.old)) limit (world (R.held ring.new) (P.fibres plant.new))) }
{
    match settle_recording(ring, plant, limit, observer, &mut Nowhere) {
        Ok(ended) => ended,
        Err(Stopped) => Err(SettleError::Unsettled),
    }
}
