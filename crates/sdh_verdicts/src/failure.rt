//! The failures of which a case is made, by number, and the steps that make each.
ghost use Rattle.std.specs.Prelude.{◌≡◌, ◌*◌, ◌/◌, ◌<◌, ◌≤◌, length, slice_get};
ghost use Rattle.sdh_verdicts.specs.Failures.{IsFailureIn, condition_step, steps_of, side_of, failure_at};

use sdh_plan::Step;
use sdh_request::Command;
use sdh_ringmap::{Condition, FibreEvent, Pos, RingMap, Side};

/// The largest number of steps that one failure has.
pub const STEPS_MAX: usize = 4;

/// One failure, or one command that is set.
#[derive(Clone, Copy, Debug, PartialEq, Eq)]
pub enum Failure {
    /// The fibre that leaves a node on a side is degraded, by as many bits as the threshold.
    Degraded(Pos, Side),
    /// The fibre that leaves a node on a side is cut.
    Cut(Pos, Side),
    /// Both fibres of the span east of a position are cut.
    Span(Pos),
    /// Both spans of a node are cut both ways.
    Node(Pos),
    /// A side of a node has a manual switch.
    Manual(Pos, Side),
    /// A side of a node has a forced switch.
    Forced(Pos, Side),
}

/// Returns the number of failures that a ring of `nodes` nodes has, which is 10 for each node.
pub fn count_of(nodes: usize) -> usize
    requires { nodes ≤ 16 }
    ensures { result ≡ 10 * nodes }
{
    10 * nodes
}

// Returns the position and the side that have this number. They are counted by position, west before east.
fn place(number: usize) -> (Pos, Side)
    requires { number < 32 }
    ensures half { result.0.0 ≡ number / 2 }
    ensures side { result.1 ≡ side_of number }
{
    let side = if number % 2 == 0 {
        Side::West
    } else {
        Side::East
    };
    (Pos((number / 2) as u8), side)
}

/// Returns the failure that has this number, counted from 0. First come the degraded fibres, then cut fibres, spans,
/// nodes, manual switches and forced switches.
#[tactic(auto, unfolding(crate::specs::Failures::failure_at))]
pub fn failure_at(nodes: usize, number: usize) -> Failure
    requires few { nodes ≤ 16 }
    requires number { number < 10 * nodes }
    ensures is { result ≡ failure_at nodes number }
    ensures within { IsFailureIn nodes result }
{
    if number < 2 * nodes {
        let (at, side) = place(number);
        Failure::Degraded(at, side)
    } else if number < 4 * nodes {
        let (at, side) = place(number - 2 * nodes);
        Failure::Cut(at, side)
    } else if number < 5 * nodes {
        Failure::Span(Pos((number - 4 * nodes) as u8))
    } else if number < 6 * nodes {
        Failure::Node(Pos((number - 5 * nodes) as u8))
    } else if number < 8 * nodes {
        let (at, side) = place(number - 6 * nodes);
        Failure::Manual(at, side)
    } else {
        let (at, side) = place(number - 8 * nodes);
        Failure::Forced(at, side)
    }
}

// Returns the step that cuts a fibre.
fn cut(at: Pos, side: Side) -> Step
    ensures { result ≡ condition_step Condition.Cut at side }
{
    Step::Fibre(FibreEvent {
        at,
        side,
        condition: Condition::Cut,
    })
}

// Returns the step at a place of these steps, if there is one.
fn pick(steps: &[Step], i: usize) -> Option<Step>
    ensures { result ≡ slice_get steps.now i }
{
    if i < steps.len() {
        Some(steps[i])
    } else {
        None
    }
}

/// Returns the step at a place of a failure's steps, counted from 0, or `None` after the last one.
pub fn step_of(map: &RingMap, threshold: u16, failure: Failure, i: usize) -> Option<Step>
    requires { IsFailureIn (length map.now) failure }
    ensures { result ≡ slice_get (steps_of (length map.now) threshold failure) i }
{
    match failure {
        Failure::Degraded(at, side) => pick(
            &[Step::Fibre(FibreEvent {
                at,
                side,
                condition: Condition::Degraded(threshold),
            })],
            i,
        ),
        Failure::Cut(at, side) => pick(&[cut(at, side)], i),
        Failure::Span(at) => {
            let east = map.step(at, Side::East);
            pick(&[cut(at, Side::East), cut(east, Side::West)], i)
        }
        Failure::Node(at) => {
            let east = map.step(at, Side::East);
            let west = map.step(at, Side::West);
            pick(
                &[
                    cut(at, Side::East),
                    cut(east, Side::West),
                    cut(west, Side::East),
                    cut(at, Side::West),
                ],
                i,
            )
        }
        Failure::Manual(at, side) => pick(&[Step::Order(at, side, Command::Manual)], i),
        Failure::Forced(at, side) => pick(&[Step::Order(at, side, Command::Forced)], i),
    }
}
