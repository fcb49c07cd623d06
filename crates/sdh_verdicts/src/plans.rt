//! What becomes of a circuit of a plan in a case.
ghost use Rattle.std.specs.Prelude.{◌≡◌, ◌<◌, List, length, slice_get, Some};
ghost use Rattle.sdh_restoration.specs.Applied.{is_applied};
ghost use Rattle.sdh_circuits.specs.Provisioned.{Provisioned};
ghost use Rattle.sdh_verdicts.specs.declared.failure.Failure.{Failure};
ghost use Rattle.sdh_verdicts.specs.Verdicts.{AreSpans, requests_with, is_troubled, is_impaired, verdict_of, hops_of};

use crate::judging::{SpanSet, Verdict, judge, meets, way};
use sdh_plan::Plan;

/// Returns what becomes of circuit `number` of the plan, counted from 0, in the case in which these spans are applied.
pub fn told(plan: &Plan, applied: &SpanSet, number: u8) -> Verdict
    requires number { number < length plan.now.circuits }
    requires case { (case : List Failure) × AreSpans (length plan.now.nodes) (is_applied (requests_with plan.now case)) applied.now }
    ensures { (case : List Failure) (c : Provisioned)
        → AreSpans (length plan.now.nodes) (is_applied (requests_with plan.now case)) applied.now
        → slice_get plan.now.circuits number ≡ Some c → result ≡ verdict_of plan.now case c }
{
    let circuits = plan.circuits();
    prove!(circuits.len() <= 128);
    judge(plan.map(), applied, circuits.get(number))
}

/// Returns the number of spans over which the bytes of circuit `number` of the plan go, in the case in which these
/// spans are applied. It is 0 where the circuit is lost.
pub fn told_hops(plan: &Plan, applied: &SpanSet, number: u8) -> u8
    requires number { number < length plan.now.circuits }
    requires case { (case : List Failure) × AreSpans (length plan.now.nodes) (is_applied (requests_with plan.now case)) applied.now }
    ensures { (case : List Failure) (c : Provisioned)
        → AreSpans (length plan.now.nodes) (is_applied (requests_with plan.now case)) applied.now
        → slice_get plan.now.circuits number ≡ Some c → result ≡ hops_of plan.now case c }
{
    let circuits = plan.circuits();
    prove!(circuits.len() <= 128);
    way(plan.map(), applied, circuits.get(number))
}

/// Returns whether the arc of circuit `number` of the plan holds a span in trouble. `troubled` has the spans in trouble
/// in the case.
pub fn told_impaired(plan: &Plan, troubled: &SpanSet, number: u8) -> bool
    requires number { number < length plan.now.circuits }
    requires case { (case : List Failure) × AreSpans (length plan.now.nodes) (is_troubled (requests_with plan.now case)) troubled.now }
    ensures { (case : List Failure) (c : Provisioned)
        → AreSpans (length plan.now.nodes) (is_troubled (requests_with plan.now case)) troubled.now
        → slice_get plan.now.circuits number ≡ Some c → result ≡ is_impaired plan.now case c }
{
    let circuits = plan.circuits();
    prove!(circuits.len() <= 128);
    meets(plan.map(), troubled, circuits.get(number))
}
