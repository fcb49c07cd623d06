//! The lines of cases.
ghost use Rattle.std.specs.Prelude.{◌≡◌, ◌+◌, ◌<◌, ◌≤◌, ◌++◌, List, All, [], codes, length, slice_get, Some};
ghost use Rattle.sdh_circuits.specs.Provisioned.{Provisioned};
ghost use Rattle.sdh_verdicts.specs.declared.failure.Failure.{Failure};
ghost use Rattle.sdh_verdicts.specs.Failures.{IsFailureIn};
ghost use Rattle.sdh_verdicts.specs.Verdicts.{AreSidesOf};
ghost use Rattle.sdh_whatif_cli.specs.Counting.{AreSpansOf};
ghost use Rattle.sdh_whatif_cli.specs.Cases.{AreSmall};
ghost use Rattle.sdh_whatif_cli.specs.Lines.{spans_text, case_text, fate_counts_text, fate_cell, before_fate, fate_text, fates_text, line_text, head_record};

use crate::ask::Form;
use crate::counting::{Counts, Fate, counts_of, fate_of};
use crate::forms::{Digits, Entry, is_json, put_between, put_either};
use crate::line::Line;
use crate::names::{put_names, put_script, put_span_name};
use sdh_plan::Plan;
use sdh_ringmap::Pos;
use sdh_verdicts::{CaseSpans, Failure, Sides, told_hops};

// ---- a case

// Appends the applied spans.
fn put_spans(line: &mut Line, form: Form, plan: &Plan, spans: &CaseSpans)
    requires case { (case : List Failure) × AreSpansOf plan.now case spans.now }
    requires room { length line.old + 704 ≤ 20480 }
    ensures text { (case : List Failure) → AreSpansOf plan.now case spans.now → line.new ≡ line.old ++ spans_text form plan.now case }
    ensures short { length line.new ≤ length line.old + 704 }
{
    let applied = spans.applied.spans();
    for i in 0..applied.len() {
        put_between(line, form, b",", b" ", i);
        put_span_name(line, form, plan.map(), Pos(applied[i].0));
    }
}

/// A case: the digits that name it, and its failures.
#[derive(Clone, Copy)]
pub struct Case<'a> {
    pub digits: Digits,
    pub failures: &'a [Failure],
}

// Appends the number of a case, its failures, its steps and its applied spans.
fn put_case(line: &mut Line, plan: &Plan, spans: &CaseSpans, entry: Entry, case: Case<'_>)
    requires case { All (IsFailureIn (length plan.now.nodes)) case.failures.now }
    requires few { length case.failures.now ≤ 48 }
    requires digits { AreSmall (length plan.now.nodes) case.digits }
    requires spans { AreSpansOf plan.now case.failures.now spans.now }
    requires room { length line.old + 12500 ≤ 20480 }
    ensures text { line.new ≡ line.old ++ case_text entry.form plan.now entry.number case.entry.digits case.entry.failures.now }
    ensures short { length line.new ≤ length line.old + 12500 }
{
    put_either(line, entry.form, b"{\"number\":", b"");
    line.put_long(entry.number as u64);
    put_either(line, entry.form, b",\"failures\":[", b",");
    put_names(line, entry.form, plan.map(), case.digits);
    put_either(line, entry.form, b"],\"steps\":[", b",\"");
    put_script(
        line,
        entry.form,
        plan.map(),
        plan.settings().threshold,
        case.failures,
    );
    put_either(line, entry.form, b"],\"applied\":[", b"\",");
    put_spans(line, entry.form, plan, spans);
    put_either(line, entry.form, b"]", b"");
}

// ---- counts

// Appends the counts of circuits, and the number of spans of the longest way.
fn put_counts(line: &mut Line, form: Form, counts: Counts)
    requires room { length line.old + 90 ≤ 20480 }
    ensures text { line.new ≡ line.old ++ fate_counts_text form counts }
    ensures short { length line.new ≤ length line.old + 90 }
{
    put_either(line, form, b",\"kept\":", b",");
    line.put_small(u16::from(counts.kept));
    put_either(line, form, b",\"impaired\":", b",");
    line.put_small(u16::from(counts.impaired));
    put_either(line, form, b",\"over\":", b",");
    line.put_small(u16::from(counts.over));
    put_either(line, form, b",\"lost\":", b",");
    line.put_small(u16::from(counts.lost));
    put_either(line, form, b",\"hops\":", b",");
    line.put_small(u16::from(counts.hops));
}

// ---- circuits

// Appends what becomes of a circuit whose bytes go over `hops` spans.
fn put_cell(line: &mut Line, form: Form, fate: Fate, hops: u8)
    requires room { length line.old + 13 ≤ 20480 }
    ensures text { line.new ≡ line.old ++ fate_cell form fate hops }
    ensures short { length line.new ≤ length line.old + 13 }
{
    match fate {
        Fate::Kept => put_either(line, form, b"\"kept\"", b""),
        Fate::Impaired => put_either(line, form, b"\"impaired\"", b"i"),
        Fate::Over => line.put_small(u16::from(hops)),
        Fate::Lost => put_either(line, form, b"\"lost\"", b"x"),
    }
}

// Appends what stands before the fate of a circuit, where the circuit has this name.
fn put_before(line: &mut Line, form: Form, name: &[u8])
    requires name { length name.now ≤ 16 }
    requires room { length line.old + 19 ≤ 20480 }
    ensures text { line.new ≡ line.old ++ before_fate form name.now }
    ensures short { length line.new ≤ length line.old + 19 }
{
    if is_json(form) {
        line.put(b"\"");
        line.put(name);
        line.put(b"\":");
    } else {
        line.put(b",");
    }
}

// Appends the field of a circuit, by its number.
fn put_fate(line: &mut Line, form: Form, plan: &Plan, spans: &CaseSpans, number: u8)
    requires number { number < length plan.now.circuits }
    requires case { (case : List Failure) × AreSpansOf plan.now case spans.now }
    requires room { length line.old + 32 ≤ 20480 }
    ensures text { (case : List Failure) (c : Provisioned) → AreSpansOf plan.now case spans.now
        → slice_get plan.now.circuits number ≡ Some c → line.new ≡ line.old ++ fate_text form plan.now case c }
    ensures short { length line.new ≤ length line.old + 32 }
{
    let fate = fate_of(plan, spans, number);
    let hops = told_hops(plan, &spans.applied, number);
    put_before(line, form, plan.circuits().get(number).name().as_slice());
    put_cell(line, form, fate, hops);
}

// Appends the fields of all circuits.
fn put_fates(line: &mut Line, form: Form, plan: &Plan, spans: &CaseSpans)
    requires case { (case : List Failure) × AreSpansOf plan.now case spans.now }
    requires room { length line.old + 5760 ≤ 20480 }
    ensures text { (case : List Failure) → AreSpansOf plan.now case spans.now → line.new ≡ line.old ++ fates_text form plan.now case }
    ensures short { length line.new ≤ length line.old + 5760 }
{
    for i in 0..plan.circuits().len() {
        put_between(line, form, b",", b"", i);
        put_fate(line, form, plan, spans, i as u8);
    }
}

// ---- lines

/// Appends the line of a case, in a form and with the number that it has among those that are listed.
pub fn put_line(line: &mut Line, plan: &Plan, sides: &Sides<'_>, entry: Entry, case: Case<'_>)
    requires sides { AreSidesOf plan.now sides.now }
    requires case { All (IsFailureIn (length plan.now.nodes)) case.failures.now }
    requires few { length case.failures.now ≤ 48 }
    requires digits { AreSmall (length plan.now.nodes) case.digits }
    requires empty { line.old ≡ [] }
    ensures { line.new ≡ line_text plan.now case.entry.digits case.entry.failures.now entry }
{
    let spans = sides.spans(case.failures);
    put_case(line, plan, &spans, entry, case);
    put_counts(line, entry.form, counts_of(plan, &spans));
    put_either(line, entry.form, b",\"circuits\":{", b"");
    put_fates(line, entry.form, plan, &spans);
    put_either(line, entry.form, b"}}\n", b"\r\n");
}

// Appends the name of a circuit, by its number, after a comma.
fn put_circuit(line: &mut Line, plan: &Plan, number: u8)
    requires number { number < length plan.now.circuits }
    requires room { length line.old + 17 ≤ 20480 }
    ensures text { (c : Provisioned) → slice_get plan.now.circuits number ≡ Some c → line.new ≡ line.old ++ (codes "," ++ c.name) }
    ensures short { length line.new ≤ length line.old + 17 }
{
    line.put(b",");
    line.put(plan.circuits().get(number).name().as_slice());
}

/// Appends the record of the fields' names.
pub fn put_head(line: &mut Line, plan: &Plan)
    requires empty { line.old ≡ [] }
    ensures { line.new ≡ head_record plan.now }
{
    line.put(b"number,failures,steps,applied,kept,impaired,over,lost,hops");
    for i in 0..plan.circuits().len() {
        put_circuit(line, plan, i as u8);
    }
    line.put(b"\r\n");
}
