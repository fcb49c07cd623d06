//! The state of a side, step by step of a script.
ghost use Rattle.std.specs.Prelude.{◌≡◌, ◌<◌, length, option_map};
ghost use Rattle.sdh_request.specs.Requests as request;
ghost use Rattle.sdh_ringmap.specs.Fibres.{fibre, fibre_to, is_cut};
ghost use Rattle.sdh_verdicts.specs.Resting as model;
ghost use Rattle.sdh_verdicts.specs.Sides.{resting_of};
ghost use Rattle.sdh_verdicts.specs.Sides as walk;
ghost use Rattle.sdh_verdicts.specs.Verdicts.{is_forced};

use sdh_plan::Step;
use sdh_request::{Command, Defect, Moment};
use sdh_ringmap::{Code, Condition, Pos, RingMap, Side};

/// The state of a side: the condition of the fibre that comes in, the command and the moment, the defect that the side
/// had at the last settle step, and the moment of the settle step at which its last defect was no longer there.
#[derive(Clone, Copy, Debug, PartialEq, Eq)]
pub struct Resting {
    pub condition: Condition,
    pub command: Command,
    pub moment: Moment,
    pub defect: Defect,
    pub ended: Option<Moment>,
}

/// A side of a new ring over new fibres.
pub const FRESH: Resting = Resting {
    condition: Condition::Clear,
    command: Command::Clear,
    moment: Moment(0),
    defect: Defect::None,
    ended: None,
};

/// A side of a node.
#[derive(Clone, Copy, Debug, PartialEq, Eq)]
pub struct Place {
    pub at: Pos,
    pub side: Side,
}

/// Returns the number of the fibre that leaves a position on a side.
pub fn fibre(at: Pos, side: Side) -> u16
    ensures { result ≡ fibre at.0 side }
{
    match side {
        Side::West => 2 * u16::from(at.0),
        Side::East => 2 * u16::from(at.0) + 1,
    }
}

// Returns the number of the fibre that ends at a side.
fn fibre_to(map: &RingMap, place: Place) -> u16
    requires { place.at.0 < length map.now }
    ensures { result ≡ fibre_to (length map.now) place.at.0 place.side }
{
    fibre(map.step(place.at, place.side), place.side.opposite())
}

// Returns the defect of a side whose fibre has been in this condition for some rounds.
fn defect_of(threshold: u16, condition: Condition) -> Defect
    ensures { result ≡ model.defect_of threshold condition }
{
    match condition {
        Condition::Clear => Defect::None,
        Condition::Cut => Defect::Sf,
        Condition::Degraded(count) => {
            if threshold <= count {
                Defect::Sd
            } else {
                Defect::None
            }
        }
    }
}

/// Returns whether a fibre in this condition is cut.
pub fn is_cut(condition: Condition) -> bool
    ensures { result ≡ is_cut condition }
{
    match condition {
        Condition::Cut => true,
        Condition::Clear | Condition::Degraded(_) => false,
    }
}

/// Returns whether a command is a forced switch.
pub fn is_forced(command: Command) -> bool
    ensures { result ≡ is_forced command }
{
    match command {
        Command::Forced => true,
        Command::Clear | Command::Manual => false,
    }
}

// Returns whether a defect is none.
fn is_clear(defect: Defect) -> bool
    ensures { result ≡ request.is_defect_free defect }
{
    match defect {
        Defect::None => true,
        Defect::Sd | Defect::Sf => false,
    }
}

/// Returns the state of a side after a settle step, in which the side comes to rest.
pub fn at_rest(threshold: u16, rest: Resting) -> Resting
    ensures { resting_of result ≡ walk.at_rest_now threshold (resting_of rest) }
{
    let now = defect_of(threshold, rest.condition);
    let ended = if !is_clear(rest.defect) && is_clear(now) {
        Some(rest.moment)
    } else {
        rest.ended
    };
    Resting {
        defect: now,
        ended,
        ..rest
    }
}

/// Returns the state of the side at `place` after one more step of a script.
pub fn rest_after(
    threshold: u16,
    map: &RingMap,
    place: Place,
    step: &Step,
    rest: Resting,
) -> Resting
    requires { place.at.0 < length map.now }
    ensures { resting_of result ≡ walk.rest_after threshold (length map.now) place.at.0 place.side step.now (resting_of rest) }
{
    match *step {
        Step::Fibre(event) => {
            if fibre(event.at, event.side) == fibre_to(map, place) {
                Resting {
                    condition: event.condition,
                    ..rest
                }
            } else {
                rest
            }
        }
        Step::Order(at, side, command) => {
            if fibre(at, side) == fibre(place.at, place.side) {
                Resting { command, ..rest }
            } else {
                rest
            }
        }
        Step::Moment(moment) => Resting { moment, ..rest },
        Step::Hold(_, _) | Step::Slip(_, _, _) => rest,
        Step::Settle => at_rest(threshold, rest),
    }
}

/// Returns the state of the side at `place` after some steps of a script, where its state before them was `from`.
pub fn rests(threshold: u16, map: &RingMap, place: Place, steps: &[Step], from: Resting) -> Resting
    requires { place.at.0 < length map.now }
    ensures { resting_of result ≡ walk.rests threshold (length map.now) place.at.0 place.side steps.now (resting_of from) }
{
    let mut rest = from;
    for step in steps {
        rest = rest_after(threshold, map, place, step, rest);
    }
    rest
}

// Returns whether the side waits to restore.
fn waits(wait: u32, rest: &Resting) -> bool
    ensures { result ≡ request.waits wait rest.now.defect rest.now.moment.0 (option_map (λ m. m.0) rest.now.ended) }
{
    match rest.ended {
        Some(ended) => {
            is_clear(rest.defect)
                && (rest.moment.0 < ended.0 || rest.moment.0 - ended.0 < u64::from(wait))
        }
        None => false,
    }
}

/// Returns the local request of a side at a settle step, by the state of the side after that step.
pub fn asks(wait: u32, rest: &Resting) -> Code
    ensures { result ≡ model.asks wait (resting_of rest.now) }
{
    match (rest.command, rest.defect) {
        (Command::Forced, _) => Code::Fs,
        (_, Defect::Sf) => Code::Sf,
        (_, Defect::Sd) => Code::Sd,
        (Command::Manual, _) => Code::Ms,
        _ if waits(wait, rest) => Code::Wtr,
        _ => Code::Nr,
    }
}
