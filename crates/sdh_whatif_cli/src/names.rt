//! Names of failures and spans, and steps.
ghost use Rattle.std.specs.Prelude.{◌≡◌, ℕ, ◌+◌, ◌<◌, ◌≤◌, ◌++◌, List, All, [], codes, length, slice_get};
ghost use Rattle.std.specs.List.{flat_map};
ghost use Rattle.std.specs.Option.{option_map_or};
ghost use Rattle.sdh_report.specs.Lines.{side_text};
ghost use Rattle.sdh_verdicts.specs.declared.failure.Failure.{Failure};
ghost use Rattle.sdh_verdicts.specs.Failures.{IsFailureIn, steps_of, case_steps};
ghost use Rattle.sdh_whatif_cli.specs.Cases.{IsSmall, AreSmall};
ghost use Rattle.sdh_whatif_cli.specs.Lines.{id_text, toward_text, span_text, failure_text, place_in_plan_text, fibre_text, order_text, IsAt};
ghost use Rattle.sdh_whatif_cli.specs.Lines.{step_text, step_quote, either, joined, digit_text, name_text, digit_names, names_text, step_part};
ghost use Rattle.sdh_whatif_cli.specs.Lines.{span_part};

use crate::ask::Form;
use crate::forms::{Digits, put_between, put_either};
use crate::line::Line;
use sdh_plan::Step;
use sdh_request::Command;
use sdh_ringmap::{Condition, Pos, RingMap, Side};
use sdh_verdicts::{Failure, failure_at, step_of};

// Appends the identifier of a node.
fn put_id(line: &mut Line, map: &RingMap, at: Pos)
    requires at { at.0 < length map.now }
    requires room { length line.old + 2 ≤ 20480 }
    ensures text { line.new ≡ line.old ++ id_text map.now at.0 }
    ensures short { length line.new ≤ length line.old + 2 }
{
    line.put_number(u64::from(map.id(at)));
}

// Appends a side.
fn put_side(line: &mut Line, side: Side)
    requires room { length line.old + 4 ≤ 20480 }
    ensures text { line.new ≡ line.old ++ side_text side }
    ensures short { length line.new ≤ length line.old + 4 }
{
    match side {
        Side::West => line.put(b"west"),
        Side::East => line.put(b"east"),
    }
}

// ---- names

// Appends a kind, and the fibre that leaves a node on a side, or that side.
fn put_toward(line: &mut Line, map: &RingMap, kind: &[u8], at: Pos, side: Side)
    requires at { at.0 < length map.now }
    requires kind { length kind.now ≤ 9 }
    requires room { length line.old + 14 ≤ 20480 }
    ensures text { line.new ≡ line.old ++ kind.now ++ toward_text map.now at side }
    ensures short { length line.new ≤ length line.old + 14 }
{
    line.put(kind);
    put_id(line, map, at);
    line.put(b">");
    put_id(line, map, map.step(at, side));
}

// Appends a span.
fn put_span(line: &mut Line, map: &RingMap, at: Pos)
    requires at { at.0 < length map.now }
    requires room { length line.old + 5 ≤ 20480 }
    ensures text { line.new ≡ line.old ++ span_text map.now at.0 }
    ensures short { length line.new ≤ length line.old + 5 }
{
    put_id(line, map, at);
    line.put(b"-");
    put_id(line, map, map.step(at, Side::East));
}

/// Appends the name of a failure of the ring.
pub fn put_failure_name(line: &mut Line, map: &RingMap, failure: Failure)
    requires failure { IsFailureIn (length map.now) failure }
    requires room { length line.old + 14 ≤ 20480 }
    ensures text { line.new ≡ line.old ++ failure_text map.now failure }
    ensures short { length line.new ≤ length line.old + 14 }
{
    match failure {
        Failure::Degraded(at, side) => put_toward(line, map, b"degraded ", at, side),
        Failure::Cut(at, side) => put_toward(line, map, b"fibre ", at, side),
        Failure::Span(at) => {
            line.put(b"span ");
            put_span(line, map, at);
        }
        Failure::Node(at) => {
            line.put(b"node ");
            put_id(line, map, at);
        }
        Failure::Manual(at, side) => put_toward(line, map, b"manual ", at, side),
        Failure::Forced(at, side) => put_toward(line, map, b"forced ", at, side),
    }
}

// Appends the name of a digit that isn't nothing: that of a failure of the ring, or of one of the user's own.
fn put_digit(line: &mut Line, map: &RingMap, digit: usize)
    requires from_1 { 1 ≤ digit }
    requires small { IsSmall (length map.now) digit }
    requires room { length line.old + 14 ≤ 20480 }
    ensures text { line.new ≡ line.old ++ digit_text map.now digit }
    ensures short { length line.new ≤ length line.old + 14 }
{
    let nodes = map.len();
    if digit <= 10 * nodes {
        put_failure_name(line, map, failure_at(nodes, digit - 1));
    } else {
        line.put(b"own ");
        line.put_small((digit - 10 * nodes) as u16);
    }
}

// Appends the name of a digit, with what stands around it.
fn put_name(line: &mut Line, form: Form, map: &RingMap, digit: usize)
    requires from_1 { 1 ≤ digit }
    requires small { IsSmall (length map.now) digit }
    requires room { length line.old + 40 ≤ 20480 }
    ensures text { line.new ≡ line.old ++ name_text form map.now digit }
    ensures short { length line.new ≤ length line.old + 40 }
{
    put_either(line, form, b"\"", b"");
    put_digit(line, map, digit);
    put_either(line, form, b"\"", b"");
}

/// Appends the names of a case's failures.
pub fn put_names(line: &mut Line, form: Form, map: &RingMap, digits: Digits)
    requires small { AreSmall (length map.now) digits }
    requires room { length line.old + 159 ≤ 20480 }
    ensures text { line.new ≡ line.old ++ names_text form map.now digits }
    ensures short { length line.new ≤ length line.old + 159 }
{
    let named = put_named(line, form, map, digits.first, 0);
    let named = put_named(line, form, map, digits.second, named);
    put_named(line, form, map, digits.third, named);
}

// Appends the name of a digit after `named` others, or nothing where the digit is nothing, and returns how many names
// there are then.
fn put_named(line: &mut Line, form: Form, map: &RingMap, digit: usize, named: usize) -> usize
    requires small { IsSmall (length map.now) digit }
    requires few { named ≤ 2 }
    requires room { length line.old + 53 ≤ 20480 }
    ensures count { result ≡ named + length (digit_names form map.now digit) }
    ensures few { result ≤ named + 1 }
    ensures text { (start : List ℕ) (texts : List (List ℕ)) → length texts ≡ named
        → line.old ≡ start ++ joined (either form (codes ",") (codes " + ")) texts
        → line.new ≡ start ++ joined (either form (codes ",") (codes " + ")) (texts ++ digit_names form map.now digit) }
    ensures short { length line.new ≤ length line.old + 53 }
{
    if digit == 0 {
        return named;
    }
    put_between(line, form, b",", b" + ", named);
    put_name(line, form, map, digit);
    named + 1
}

/// Appends a span, with what stands around it.
pub fn put_span_name(line: &mut Line, form: Form, map: &RingMap, at: Pos)
    requires at { at.0 < length map.now }
    requires room { length line.old + 31 ≤ 20480 }
    ensures text { line.new ≡ line.old ++ span_part form map.now at.0 }
    ensures short { length line.new ≤ length line.old + 31 }
{
    put_either(line, form, b"\"", b"");
    put_span(line, map, at);
    put_either(line, form, b"\"", b"");
}

// ---- steps

// Appends a verb, and the node and the side that it is about.
fn put_place(line: &mut Line, map: &RingMap, verb: &[u8], at: Pos, side: Side)
    requires at { at.0 < length map.now }
    requires verb { length verb.now ≤ 8 }
    requires room { length line.old + 15 ≤ 20480 }
    ensures text { line.new ≡ line.old ++ place_in_plan_text map.now verb.now at side }
    ensures short { length line.new ≤ length line.old + 15 }
{
    line.put(verb);
    put_id(line, map, at);
    line.put(b" ");
    put_side(line, side);
}

// Appends a condition of a fibre.
fn put_fibre(line: &mut Line, map: &RingMap, at: Pos, side: Side, condition: Condition)
    requires at { at.0 < length map.now }
    requires room { length line.old + 21 ≤ 20480 }
    ensures text { line.new ≡ line.old ++ fibre_text map.now at side condition }
    ensures short { length line.new ≤ length line.old + 21 }
{
    match condition {
        Condition::Clear => put_place(line, map, b"mend ", at, side),
        Condition::Cut => put_place(line, map, b"cut ", at, side),
        Condition::Degraded(count) => {
            put_place(line, map, b"degrade ", at, side);
            line.put(b" ");
            line.put_small(count);
        }
    }
}

// Appends a command.
fn put_order(line: &mut Line, map: &RingMap, at: Pos, side: Side, command: Command)
    requires at { at.0 < length map.now }
    requires room { length line.old + 15 ≤ 20480 }
    ensures text { line.new ≡ line.old ++ order_text map.now at side command }
    ensures short { length line.new ≤ length line.old + 15 }
{
    match command {
        Command::Clear => put_place(line, map, b"clear ", at, side),
        Command::Forced => put_place(line, map, b"forced ", at, side),
        Command::Manual => put_place(line, map, b"manual ", at, side),
    }
}

// Appends the words of a step.
fn put_words(line: &mut Line, map: &RingMap, step: Step)
    requires at { IsAt (length map.now) step }
    requires room { length line.old + 21 ≤ 20480 }
    ensures text { line.new ≡ line.old ++ step_text map.now step }
    ensures short { length line.new ≤ length line.old + 21 }
{
    match step {
        Step::Fibre(event) => put_fibre(line, map, event.at, event.side, event.condition),
        Step::Order(at, side, command) => put_order(line, map, at, side, command),
        Step::Moment(_) | Step::Hold(_, _) | Step::Slip(_, _, _) | Step::Settle => {}
    }
}

// Appends a step, and what parts it from the next.
fn put_step(line: &mut Line, form: Form, map: &RingMap, step: Step)
    requires at { IsAt (length map.now) step }
    requires room { length line.old + 60 ≤ 20480 }
    ensures text { line.new ≡ line.old ++ step_part form map.now step }
    ensures short { length line.new ≤ length line.old + 60 }
{
    put_either(line, form, b"\"", b"\"\"");
    put_words(line, map, step);
    put_either(line, form, b"\"", b"\"\"");
    put_either(line, form, b",", b", ");
}

// Appends the step of a failure at a place, where there is one.
fn put_step_at(
    line: &mut Line,
    form: Form,
    map: &RingMap,
    threshold: u16,
    failure: Failure,
    i: usize,
)
    requires failure { IsFailureIn (length map.now) failure }
    requires room { length line.old + 60 ≤ 20480 }
    ensures text { line.new ≡ line.old
        ++ option_map_or (step_part form map.now) (slice_get (steps_of (length map.now) threshold failure) i) [] }
    ensures short { length line.new ≤ length line.old + 60 }
{
    if let Some(step) = step_of(map, threshold, failure, i) {
        put_step(line, form, map, step);
    }
}

// Appends the steps of a failure, each with what parts it from the next.
fn put_failure(line: &mut Line, form: Form, map: &RingMap, threshold: u16, failure: Failure)
    requires failure { IsFailureIn (length map.now) failure }
    requires room { length line.old + 240 ≤ 20480 }
    ensures text { line.new ≡ line.old ++ flat_map (step_part form map.now) (steps_of (length map.now) threshold failure) }
    ensures short { length line.new ≤ length line.old + 240 }
{
    put_step_at(line, form, map, threshold, failure, 0);
    put_step_at(line, form, map, threshold, failure, 1);
    put_step_at(line, form, map, threshold, failure, 2);
    put_step_at(line, form, map, threshold, failure, 3);
}

// Appends the steps of a case.
fn put_steps(line: &mut Line, form: Form, map: &RingMap, threshold: u16, case: &[Failure])
    requires case { All (IsFailureIn (length map.now)) case.now }
    requires few { length case.now ≤ 48 }
    requires room { length line.old + 11520 ≤ 20480 }
    ensures text { line.new ≡ line.old ++ flat_map (step_part form map.now) (case_steps (length map.now) threshold case.now) }
    ensures short { length line.new ≤ length line.old + 11520 }
{
    for failure in case {
        put_failure(line, form, map, threshold, *failure);
    }
}

/// Appends the steps of a case, and the settle step after them.
pub fn put_script(line: &mut Line, form: Form, map: &RingMap, threshold: u16, case: &[Failure])
    requires case { All (IsFailureIn (length map.now)) case.now }
    requires few { length case.now ≤ 48 }
    requires room { length line.old + 11552 ≤ 20480 }
    ensures text { line.new ≡ line.old ++ (flat_map (step_part form map.now) (case_steps (length map.now) threshold case.now)
        ++ step_quote form ++ codes "settle" ++ step_quote form) }
    ensures short { length line.new ≤ length line.old + 11552 }
{
    put_steps(line, form, map, threshold, case);
    put_either(line, form, b"\"", b"\"\"");
    line.put(b"settle");
    put_either(line, form, b"\"", b"\"\"");
}
