//! The table, a line for each case.
ghost use Rattle.std.specs.Prelude.{◌≡◌, ◌+◌, ◌*◌, ◌<◌, ◌≤◌, ◌++◌, All, [], length};
ghost use Rattle.std.specs.Option.{option_map_or};
ghost use Rattle.sdh_plan.specs.Planned.{Planned};
ghost use Rattle.sdh_verdicts.specs.Failures.{IsFailureIn};
ghost use Rattle.sdh_verdicts.specs.Verdicts.{AreSidesOf};
ghost use Rattle.sdh_whatif_cli.specs.Words.{IsPart};
ghost use Rattle.sdh_whatif_cli.specs.Cases.{base, case_numbers, digits_of, goes_before, failures_at, failures_of, failure_kind, is_ring_taken};
ghost use Rattle.sdh_whatif_cli.specs.Cases.{is_taken, are_told, entry_of, AreSmall, AreOwn};
ghost use Rattle.sdh_whatif_cli.specs.Lines.{line_text, cases_text, head_record, table_text};
ghost use Rattle.sdh_whatif_cli.specs.Singles.{singles_text};
ghost use Rattle.sdh_whatif_cli.specs.Scenes.{IsScene};
ghost use Rattle.sdh_outside.specs.Writing.{Wrote};

use crate::ask::{Ask, Depth, Form, Kind};
use crate::forms::{Digits, Entry};
use crate::gathered::{Gathered, worst_last};
use crate::line::Line;
use crate::lines::{Case, put_head, put_line};
use crate::own::OwnFailures;
use crate::scene::Scene;
use crate::singles::put_singles;
use sdh_outside::{Output, Sink, WriteFault};
use sdh_plan::Plan;
use sdh_verdicts::{Failure, Sides, failure_at};

// Returns the base of the numbers of cases, with `own` failures of the user's own.
fn base(nodes: usize, own: usize) -> usize
    requires nodes { nodes ≤ 16 }
    requires own { own ≤ 16 }
    ensures is { result ≡ base nodes own }
    ensures from_1 { 1 ≤ result }
    ensures small { result ≤ 177 }
{
    10 * nodes + 1 + own
}

// Returns the count of numbers that may stand for cases of at most this depth.
fn numbers_of(base: usize, depth: Depth) -> usize
    requires small { base ≤ 177 }
    ensures { result ≡ case_numbers base depth }
{
    match depth {
        Depth::Single => base,
        Depth::Double => base * base,
        Depth::Triple => base * base * base,
    }
}

// Returns whether a digit may stand before another one.
fn goes_before(digit: usize, next: usize) -> bool
    ensures { result ≡ goes_before digit next }
{
    digit == 0 || digit < next
}

// Returns the kind of a failure.
fn kind_of(failure: Failure) -> Kind
    ensures { result ≡ failure_kind failure }
{
    match failure {
        Failure::Degraded(_, _) => Kind::Degraded,
        Failure::Cut(_, _) => Kind::Fibres,
        Failure::Span(_) => Kind::Spans,
        Failure::Node(_) => Kind::Nodes,
        Failure::Manual(_, _) => Kind::Manual,
        Failure::Forced(_, _) => Kind::Forced,
    }
}

// Returns whether a failure of the ring is of a kind that is taken, and doesn't take the place of something worse that
// the script has set.
fn is_ring_taken(sides: &Sides<'_>, ask: Ask, failure: Failure) -> bool
    requires sides { length sides.now.rests.items ≡ 2 * length sides.now.map.now }
    requires failure { IsFailureIn (length sides.now.map.now) failure }
    ensures { (plan : Planned) → AreSidesOf plan sides.now → result ≡ is_ring_taken plan ask failure }
{
    ask.kinds.takes(kind_of(failure)) && !sides.mends(failure)
}

// Returns whether a digit is nothing, or its failure, one of the ring's or of the user's own, is taken.
fn is_taken(sides: &Sides<'_>, nodes: usize, ask: Ask, digit: usize) -> bool
    requires sides { length sides.now.rests.items ≡ 2 * length sides.now.map.now }
    requires nodes { nodes ≡ length sides.now.map.now }
    requires few { nodes ≤ 16 }
    ensures { (plan : Planned) → AreSidesOf plan sides.now → result ≡ is_taken plan ask digit }
{
    if digit == 0 {
        return true;
    }
    if digit <= 10 * nodes {
        return is_ring_taken(sides, ask, failure_at(nodes, digit - 1));
    }
    ask.kinds.takes(Kind::Own)
}

// Returns the three digits of a number.
fn digits_of(base: usize, number: usize) -> Digits
    requires from_1 { 1 ≤ base }
    ensures is { result ≡ digits_of base number }
    ensures low { (result.first < base) × (result.second < base) × (result.third < base) }
{
    Digits {
        first: number / base / base % base,
        second: number / base % base,
        third: number % base,
    }
}

// Returns whether a number of these digits stands for a case that is listed.
fn are_told(sides: &Sides<'_>, nodes: usize, ask: Ask, digits: Digits) -> bool
    requires sides { length sides.now.rests.items ≡ 2 * length sides.now.map.now }
    requires nodes { nodes ≡ length sides.now.map.now }
    requires few { nodes ≤ 16 }
    ensures { (plan : Planned) → AreSidesOf plan sides.now → result ≡ are_told plan ask digits }
{
    goes_before(digits.first, digits.second)
        && goes_before(digits.second, digits.third)
        && is_taken(sides, nodes, ask, digits.first)
        && is_taken(sides, nodes, ask, digits.second)
        && is_taken(sides, nodes, ask, digits.third)
}

// Returns how a case is written, or `None` where it isn't listed or is in another part. `number` is the number of cases
// that are listed before it.
fn entry_of(ask: Ask, told: bool, number: usize) -> Option<Entry>
    requires part { IsPart ask }
    ensures { result ≡ entry_of ask told number }
{
    if told && number % ask.parts as usize == ask.part as usize - 1 {
        Some(Entry {
            form: ask.form,
            number,
        })
    } else {
        None
    }
}

// Appends the failures of a digit to those of a case.
fn push_digit(case: &mut Gathered, nodes: usize, own: &OwnFailures, digit: usize)
    requires nodes { nodes ≤ 16 }
    requires own { AreOwn nodes own.now }
    requires room { length case.old ≤ 32 }
    requires within { All (IsFailureIn nodes) case.old }
    ensures failures { case.new ≡ case.old ++ failures_at nodes own.now digit }
    ensures short { length case.new ≤ length case.old + 16 }
    ensures within { All (IsFailureIn nodes) case.new }
{
    if digit == 0 {
        return;
    }
    if digit <= 10 * nodes {
        case.push(failure_at(nodes, digit - 1));
        return;
    }
    for failure in own.list(digit - (10 * nodes + 1)) {
        case.push(*failure);
    }
}

// Returns the failures of three digits, the worse ones last.
fn failures_of(nodes: usize, own: &OwnFailures, digits: Digits) -> Gathered
    requires nodes { nodes ≤ 16 }
    requires own { AreOwn nodes own.now }
    ensures failures { result ≡ failures_of nodes own.now digits }
    ensures short { length result ≤ 48 }
    ensures within { All (IsFailureIn nodes) result }
{
    let mut case = Gathered::new();
    push_digit(&mut case, nodes, own, digits.first);
    push_digit(&mut case, nodes, own, digits.second);
    push_digit(&mut case, nodes, own, digits.third);
    worst_last(case.as_slice())
}

// Writes the line of the case of these digits, where it is to be written.
fn write_entry<W: Sink>(
    sink: &mut W,
    line: &mut Line,
    scene: &Scene<'_>,
    entry: Option<Entry>,
    digits: Digits,
) -> Result<(), WriteFault>
    requires scene { IsScene scene.now }
    requires digits { AreSmall (length scene.now.plan.now.nodes) digits }
    ensures { Wrote W.exact (W.written sink.old) (W.written sink.new) (W.faults sink.old) (W.faults sink.new)
        (option_map_or (line_text scene.now.plan.now digits
        (failures_of (length scene.now.plan.now.nodes) scene.now.own.now digits)) entry []) result }
{
    let Some(entry) = entry else {
        return Ok(());
    };
    let failures = failures_of(scene.plan.map().len(), scene.own, digits);
    let case = Case {
        digits,
        failures: failures.as_slice(),
    };
    line.clear();
    put_line(line, scene.plan, scene.sides, entry, case);
    sink.put(line.bytes())
}

// Writes the lines of all cases that are listed in the part that is asked for.
fn write_cases<W: Sink>(
    sink: &mut W,
    line: &mut Line,
    scene: &Scene<'_>,
    ask: Ask,
) -> Result<(), WriteFault>
    requires scene { IsScene scene.now }
    requires part { IsPart ask }
    ensures { Wrote W.exact (W.written sink.old) (W.written sink.new) (W.faults sink.old) (W.faults sink.new)
        (cases_text scene.now.plan.now scene.now.own.now ask) result }
{
    let nodes = scene.plan.map().len();
    let base = base(nodes, scene.own.len());
    let mut before = 0;
    for number in 0..numbers_of(base, ask.depth) {
        let digits = digits_of(base, number);
        let told = are_told(scene.sides, nodes, ask, digits);
        let entry = entry_of(ask, told, before);
        if let Err(fault) = write_entry(sink, line, scene, entry, digits) {
            return Err(fault);
        }
        before += usize::from(told);
    }
    Ok(())
}

// Writes the record of the fields' names.
fn write_head<W: Sink>(sink: &mut W, line: &mut Line, plan: &Plan) -> Result<(), WriteFault>
    ensures { Wrote W.exact (W.written sink.old) (W.written sink.new) (W.faults sink.old) (W.faults sink.new)
        (head_record plan.now) result }
{
    line.clear();
    put_head(line, plan);
    sink.put(line.bytes())
}

// Writes how many circuits are lost in each failure alone.
fn write_singles<W: Sink>(
    sink: &mut W,
    line: &mut Line,
    scene: &Scene<'_>,
    ask: Ask,
) -> Result<(), WriteFault>
    requires scene { IsScene scene.now }
    ensures { Wrote W.exact (W.written sink.old) (W.written sink.new) (W.faults sink.old) (W.faults sink.new)
        (singles_text scene.now.plan.now scene.now.own.now ask.kinds) result }
{
    line.clear();
    put_singles(line, scene, ask.kinds);
    sink.put(line.bytes())
}

/// Writes the table, line by line.
pub fn write_table<W: Sink>(
    sink: &mut W,
    line: &mut Line,
    scene: &Scene<'_>,
    ask: Ask,
) -> Result<(), WriteFault>
    requires scene { IsScene scene.now }
    requires part { IsPart ask }
    ensures { Wrote W.exact (W.written sink.old) (W.written sink.new) (W.faults sink.old) (W.faults sink.new)
        (table_text scene.now.plan.now scene.now.own.now ask) result }
{
    match ask.form {
        Form::Table => write_cases(sink, line, scene, ask),
        Form::Json => write_cases(sink, line, scene, ask),
        Form::Headed => {
            if let Err(fault) = write_head(sink, line, scene.plan) {
                return Err(fault);
            }
            write_cases(sink, line, scene, ask)
        }
        Form::Summary => write_singles(sink, line, scene, ask),
    }
}
