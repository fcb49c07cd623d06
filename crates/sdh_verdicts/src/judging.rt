//! What becomes of each circuit in a case: a list of failures that come one after the other, after a plan's script.
ghost use Rattle.std.specs.Prelude.{◌≡◌, ◌*◌, ◌/◌, ℕ, Bool, false, not, ◌<◌, ◌≤◌, length, get_or, map, take, All, IfOk};
ghost use Rattle.sdh_plan.specs.Planned.{Planned};
ghost use Rattle.sdh_verdicts.specs.Sides.{resting_of, rests};
ghost use Rattle.sdh_verdicts.specs.Failures.{IsFailureIn, steps_of, case_steps, side_of};
ghost use Rattle.sdh_ringmap.specs.Arcs.{is_among, is_clear};
ghost use Rattle.sdh_ringmap.specs.Places.{eastwards};
ghost use Rattle.sdh_circuits.specs.Provisioned.{arc_of};
ghost use Rattle.sdh_ringmap.specs.Requests.{code_number};
ghost use Rattle.sdh_restoration.specs.Applied.{is_applied};
ghost use Rattle.sdh_verdicts.specs.Verdicts.{AreSpans, AreSidesOf, left_by, mends, asks_with, requests_with, is_troubled, verdict_under, hops_under};
ghost use Rattle.sdh_verdicts.specs.Verdicts.{numbers_of, places_below};

use crate::failure::{Failure, STEPS_MAX, step_of};
use crate::resting::{
    FRESH, Place, Resting, asks, at_rest, fibre, is_cut, is_forced, rest_after, rests,
};
use sdh_circuits::Circuit;
use sdh_plan::Plan;
use sdh_restoration::applied::{LocalRequests, is_applied, span_request};
use sdh_restoration::routes::{Ends, hops};
use sdh_ringmap::{Code, Pos, RingMap, Side, Span};
use std::alloc::{AllocError, Global};

/// The sides of a ring, as a plan's script left them.
#[derive(Drop)]
pub struct Sides<'a> {
    map: &'a RingMap,
    threshold: u16,
    wait: u32,
    // The state of each side after the plan's script, by position, west before east.
    rests: Vec<Resting>,
}

/// A set of spans of a ring.
#[derive(Clone, Copy)]
pub struct SpanSet {
    // `before[i]` is the number of spans of the set among the first i, counted from span 0 on and round the ring twice.
    before: [u8; 33],
    // The spans of the set are the first `many` of these, in their order.
    spans: [Span; 16],
    many: usize,
}

/// The applied spans of a ring in a case, and the spans in trouble. A span is in trouble where its request is at least
/// that of a manual switch.
#[derive(Clone, Copy)]
pub struct CaseSpans {
    pub applied: SpanSet,
    pub troubled: SpanSet,
}

/// What becomes of a circuit.
#[derive(Clone, Copy, Debug, PartialEq, Eq)]
pub enum Verdict {
    /// Its ends are joined by its own arc.
    Kept,
    /// Its own arc holds applied spans, and its ends are joined round them.
    Over,
    /// Its ends aren't joined.
    Lost,
}

// Returns the side that has this number. Sides are counted by position, west before east.
fn place_at(number: usize) -> Place
    requires { number < 32 }
    ensures at { result.at.0 ≡ number / 2 }
    ensures side { result.side ≡ side_of number }
{
    Place {
        at: Pos((number / 2) as u8),
        side: if number % 2 == 0 {
            Side::West
        } else {
            Side::East
        },
    }
}

// Returns the state of a side after the steps of a failure, where its state before them was `from`.
fn with_failure(
    map: &RingMap,
    threshold: u16,
    place: Place,
    failure: Failure,
    from: Resting,
) -> Resting
    requires at { place.at.0 < length map.now }
    requires failure { IsFailureIn (length map.now) failure }
    ensures { resting_of result ≡ rests threshold (length map.now) place.at.0 place.side
        (steps_of (length map.now) threshold failure) (resting_of from) }
{
    let mut rest = from;
    for i in 0..STEPS_MAX {
        if let Some(step) = step_of(map, threshold, failure, i) {
            rest = rest_after(threshold, map, place, &step, rest);
        }
    }
    rest
}

// Returns the state of a side after the steps of a case, where its state before them was `from`.
fn with_case(
    map: &RingMap,
    threshold: u16,
    place: Place,
    case: &[Failure],
    from: Resting,
) -> Resting
    requires at { place.at.0 < length map.now }
    requires case { All (IsFailureIn (length map.now)) case.now }
    ensures { resting_of result ≡ rests threshold (length map.now) place.at.0 place.side
        (case_steps (length map.now) threshold case.now) (resting_of from) }
{
    let mut rest = from;
    for failure in case {
        rest = with_failure(map, threshold, place, *failure, rest);
    }
    rest
}

const NO_REQUESTS: LocalRequests = LocalRequests {
    west: Code::Nr,
    east: Code::Nr,
};

impl<'a> Sides<'a> {
    /// Returns the sides of a plan's ring as its script leaves them, or an error where memory runs out.
    pub fn try_new(alloc: Global, plan: &'a Plan) -> Result<Sides<'a>, AllocError>
        ensures { IfOk result (λ sides. AreSidesOf plan.now sides) }
    {
        let map = plan.map();
        let settings = plan.settings();
        let threshold = settings.threshold;
        let mut kept = Vec::with_capacity(alloc, 2 * map.len())?;
        for number in 0..2 * map.len() {
            kept.push(rests(threshold, map, place_at(number), plan.steps(), FRESH))?;
        }
        Ok(Sides {
            map,
            threshold,
            wait: settings.wait,
            rests: kept,
        })
    }

    // Returns the state of a side after the plan's script.
    fn kept(&self, place: Place) -> Resting
        requires sides { length self.now.rests.items ≡ 2 * length self.now.map.now }
        requires at { place.at.0 < length self.now.map.now }
        ensures { (plan : Planned) → AreSidesOf plan self.now → resting_of result ≡ left_by plan place.at.0 place.side }
    {
        self.rests[usize::from(fibre(place.at, place.side))]
    }

    /// Returns whether the failure would take the place of something worse that the plan's script has set. Such a
    /// failure is a degradation of a fibre that is cut, or a manual switch of a side that has a forced one.
    pub fn mends(&self, failure: Failure) -> bool
        requires sides { length self.now.rests.items ≡ 2 * length self.now.map.now }
        requires failure { IsFailureIn (length self.now.map.now) failure }
        ensures { (plan : Planned) → AreSidesOf plan self.now → result ≡ mends plan failure }
    {
        match failure {
            Failure::Degraded(at, side) => {
                let place = Place {
                    at: self.map.step(at, side),
                    side: side.opposite(),
                };
                is_cut(self.kept(place).condition)
            }
            Failure::Manual(at, side) => is_forced(self.kept(Place { at, side }).command),
            _ => false,
        }
    }

    // Returns the local request of a side in a case.
    fn request(&self, case: &[Failure], at: Pos, side: Side) -> Code
        requires sides { length self.now.rests.items ≡ 2 * length self.now.map.now }
        requires at { at.0 < length self.now.map.now }
        requires case { All (IsFailureIn (length self.now.map.now)) case.now }
        ensures { (plan : Planned) → AreSidesOf plan self.now → result ≡ asks_with plan case.now at.0 side }
    {
        let place = Place { at, side };
        let failed = with_case(self.map, self.threshold, place, case, self.kept(place));
        asks(self.wait, &at_rest(self.threshold, failed))
    }

    // Returns the requests of all spans in a case, by span. After the ring's last span they are NR.
    fn requests(&self, case: &[Failure]) -> [Code; 16]
        requires sides { length self.now.rests.items ≡ 2 * length self.now.map.now }
        requires case { All (IsFailureIn (length self.now.map.now)) case.now }
        ensures long { length result ≡ 16 }
        ensures are { (plan : Planned) → AreSidesOf plan self.now
            → map code_number (take (length plan.nodes) result) ≡ requests_with plan case.now }
    {
        let n = self.map.len();
        let mut local = [NO_REQUESTS; 16];
        for p in 0..n {
            let at = Pos(p as u8);
            local[p] = LocalRequests {
                west: self.request(case, at, Side::West),
                east: self.request(case, at, Side::East),
            };
        }
        let mut requests = [Code::Nr; 16];
        for s in 0..n {
            requests[s] = span_request(&local[..n], Span(s as u8));
        }
        requests
    }

    /// Returns the applied spans and the spans in trouble in a case.
    pub fn spans(&self, case: &[Failure]) -> CaseSpans
        requires sides { length self.now.rests.items ≡ 2 * length self.now.map.now }
        requires case { All (IsFailureIn (length self.now.map.now)) case.now }
        ensures applied { (plan : Planned) → AreSidesOf plan self.now
            → AreSpans (length plan.nodes) (is_applied (requests_with plan case.now)) result.applied }
        ensures troubled { (plan : Planned) → AreSidesOf plan self.now
            → AreSpans (length plan.nodes) (is_troubled (requests_with plan case.now)) result.troubled }
    {
        let n = self.map.len();
        let requests = self.requests(case);
        CaseSpans {
            applied: applied_in(&requests[..n]),
            troubled: troubled_in(&requests[..n]),
        }
    }
}

// Returns whether a span is in trouble, by the requests of all spans.
fn is_troubled(requests: &[Code], span: Span) -> bool
    requires { span.0 < length requests.now }
    ensures { result ≡ is_troubled (map code_number requests.now) span.0 }
{
    requests[span.0 as usize].number() >= Code::Ms.number()
}

// Returns the spans whose mark is set, in their order, and their number.
fn list(marks: &[bool]) -> ([Span; 16], usize)
    requires few { length marks.now ≤ 16 }
    ensures few { result.1 ≤ 16 }
    ensures are { (s : ℕ) → s < length marks.now → is_among (take result.1 result.0) s ≡ get_or marks.now s false }
    ensures listed { numbers_of (take result.1 result.0) ≡ places_below (λ s. get_or marks.now s false) (length marks.now) }
{
    let mut spans = [Span(0); 16];
    let mut many = 0;
    for i in 0..marks.len() {
        if marks[i] {
            spans[many] = Span(i as u8);
            many += 1;
        }
    }
    (spans, many)
}

// Returns the set of the spans whose mark is set.
fn set_of(marks: &[bool]) -> SpanSet
    requires some { 1 ≤ length marks.now }
    requires few { length marks.now ≤ 16 }
    ensures { AreSpans (length marks.now) (λ s. get_or marks.now s false) result }
{
    let n = marks.len();
    let mut before = [0; 33];
    for i in 0..2 * n {
        before[i + 1] = before[i] + u8::from(marks[i % n]);
    }
    let (spans, many) = list(marks);
    SpanSet {
        before,
        spans,
        many,
    }
}

// Returns the set of the applied spans, by the requests of all spans.
fn applied_in(requests: &[Code]) -> SpanSet
    requires some { 1 ≤ length requests.now }
    requires few { length requests.now ≤ 16 }
    ensures { AreSpans (length requests.now) (is_applied (map code_number requests.now)) result }
{
    let mut marks = [false; 16];
    for i in 0..requests.len() {
        marks[i] = is_applied(requests, Span(i as u8));
    }
    set_of(&marks[..requests.len()])
}

// Returns the set of the spans in trouble, by the requests of all spans.
fn troubled_in(requests: &[Code]) -> SpanSet
    requires some { 1 ≤ length requests.now }
    requires few { length requests.now ≤ 16 }
    ensures { AreSpans (length requests.now) (is_troubled (map code_number requests.now)) result }
{
    let mut marks = [false; 16];
    for i in 0..requests.len() {
        marks[i] = is_troubled(requests, Span(i as u8));
    }
    set_of(&marks[..requests.len()])
}

impl SpanSet {
    /// Returns the spans of the set, in their order.
    pub fn spans(&self) -> &[Span]
        requires { self.now.many ≤ 16 }
        ensures { result.now ≡ take self.now.many self.now.spans }
    {
        &self.spans[..self.many]
    }
}

// Returns the first span of a circuit's own arc, and the number of its spans.
fn own_arc(map: &RingMap, circuit: &Circuit) -> (usize, usize)
    requires from { circuit.now.from.0 < length map.now }
    requires to { circuit.now.to.0 < length map.now }
    ensures first { result.0 ≡ circuit.now.from.0 }
    ensures spans { result.1 ≡ eastwards (length map.now) circuit.now.from.0 circuit.now.to.0 }
    ensures within { (result.0 < length map.now) × (result.1 < length map.now) }
{
    let first = circuit.from();
    let spans = map.distance(first, circuit.to());
    (usize::from(first.0), usize::from(spans))
}

/// Returns what becomes of a circuit where these spans are applied.
#[tactic(auto)]
pub fn judge(map: &RingMap, applied: &SpanSet, circuit: &Circuit) -> Verdict
    requires of { (p : ℕ → Bool) × AreSpans (length map.now) p applied.now }
    requires from { circuit.now.from.0 < length map.now }
    requires to { circuit.now.to.0 < length map.now }
    ensures { (p : ℕ → Bool) → AreSpans (length map.now) p applied.now → result ≡ verdict_under (length map.now) p circuit.now }
{
    let (first, spans) = own_arc(map, circuit);
    let inside = applied.before[first + spans] - applied.before[first];
    if inside == 0 {
        Verdict::Kept
    } else if inside == applied.before[map.len()] {
        Verdict::Over
    } else {
        Verdict::Lost
    }
}

/// Returns whether a circuit's own arc has any of these spans.
pub fn meets(map: &RingMap, spans: &SpanSet, circuit: &Circuit) -> bool
    requires of { (p : ℕ → Bool) × AreSpans (length map.now) p spans.now }
    requires from { circuit.now.from.0 < length map.now }
    requires to { circuit.now.to.0 < length map.now }
    ensures { (p : ℕ → Bool) → AreSpans (length map.now) p spans.now
        → result ≡ not (is_clear (length map.now) p (arc_of (length map.now) circuit.now)) }
{
    let (first, over) = own_arc(map, circuit);
    spans.before[first + over] != spans.before[first]
}

/// Returns the number of spans over which the bytes of a circuit go from port to port where these spans are applied; 0
/// where its ends aren't joined.
pub fn way(map: &RingMap, applied: &SpanSet, circuit: &Circuit) -> u8
    requires of { (p : ℕ → Bool) × AreSpans (length map.now) p applied.now }
    requires from { circuit.now.from.0 < length map.now }
    requires to { circuit.now.to.0 < length map.now }
    ensures { (p : ℕ → Bool) → AreSpans (length map.now) p applied.now → result ≡ hops_under (length map.now) p circuit.now }
{
    let ends = Ends {
        from: circuit.from(),
        to: circuit.to(),
    };
    match judge(map, applied, circuit) {
        Verdict::Lost => 0,
        Verdict::Kept | Verdict::Over => hops(map, ends, &applied.spans[..applied.many]),
    }
}
