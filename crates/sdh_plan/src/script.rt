//! Reading a script.
ghost use Rattle.std.specs.Prelude.{◌≡◌, ◌≤◌, map, length, true, None, IfOk, OnOk, IfErr, codes};
ghost use Rattle.std.specs.List.{list_all};
ghost use Rattle.toml.specs.View.{view, table_view};
ghost use Rattle.sdh_ringmap.specs.Rates.{n_of};
ghost use Rattle.sdh_plan.specs.Check.{first_fault, unless, answer};
ghost use Rattle.sdh_plan.specs.Counted.{past_in};
ghost use Rattle.sdh_plan.specs.Steps.{step_faults, step_of, steps_checks, new_past, after, ends_settled};
ghost use Rattle.sdh_plan.specs.Document.{is_string, string_of, elements_in};
ghost use Rattle.sdh_plan.specs.Refusals.{IsRefused};
ghost use Rattle.sdh_plan.specs.Plans.{texts_checks, script_checks};

use crate::check_error::{CheckError, of_document};
use crate::document::{array_under, text_of};
use crate::form::step_of;
use crate::past::Past;
use crate::reason::Reason;
use crate::step::Step;
use sdh_circuits::CircuitMap;
use sdh_ringmap::{Rate, RingMap};
use std::alloc::Global;
use toml::{Table, Value};

// Returns the step that a text gives, or the reason of the first check that fails. Adds the step to what the script has
// led to, `past`.
fn next_step(
    ring: &RingMap,
    circuits: &CircuitMap,
    rate: Rate,
    past: &mut Past,
    text: &[u8],
) -> Result<Step, Reason>
    ensures step { result ≡ unless (first_fault (step_faults (n_of rate) ring.now circuits.now.circuits (past_in past.old) text.now))
        (step_of (n_of rate) ring.now circuits.now.circuits text.now) }
    ensures past { OnOk result (past_in past.new ≡ after (past_in past.old) (step_of (n_of rate) ring.now circuits.now.circuits text.now)) }
{
    let step = step_of(ring, circuits, rate, text)?;
    past.follow(step)?;
    Ok(step)
}

/// Returns the steps that texts give, or the first check that fails.
pub fn steps_of(
    alloc: Global,
    ring: &RingMap,
    circuits: &CircuitMap,
    rate: Rate,
    values: &[Value],
) -> Result<Vec<Step>, CheckError>
    requires { length values.now ≤ 1000 }
    ensures steps { IfOk result
        (λ steps. steps.items ≡ map (λ d. step_of (n_of rate) ring.now circuits.now.circuits (string_of d)) (map view values.now)) }
    ensures passed { OnOk result
        (answer (steps_checks (n_of rate) ring.now circuits.now.circuits new_past 1 (map view values.now)) ≡ None) }
    ensures refused { IfErr result
        (IsRefused (answer (steps_checks (n_of rate) ring.now circuits.now.circuits new_past 1 (map view values.now)))) }
{
    let mut steps = Vec::new(alloc);
    let mut past = Past::start();
    for (i, value) in values.iter().enumerate() {
        let text = text_of(value);
        let place = i as u32 + 1;
        let told = next_step(ring, circuits, rate, &mut past, text.as_bytes());
        let step = told.map_err(|reason| CheckError::BadPlan { reason, place })?;
        steps.push(step)?;
    }
    Ok(steps)
}

// Returns whether each value is a text.
fn each_text(values: &[Value]) -> bool
    ensures { result ≡ list_all (λ value. is_string (view value)) values.now }
{
    values.iter().all(|value| value.as_str().is_some())
}

// Returns whether all elements of an array are texts.
#[tactic(auto, using(crate::proofs::Elements::all_texts_view))]
fn all_texts(values: &[Value]) -> bool
    ensures { result ≡ list_all is_string (map view values.now) }
{
    each_text(values)
}

// Returns whether the last step runs rounds.
fn ends_settled(steps: &[Step]) -> bool
    ensures { result ≡ ends_settled steps.now }
{
    match steps.last() {
        Some(Step::Settle) => true,
        _ => false,
    }
}

// Returns the steps that texts give, or the first check that fails. The last step runs rounds.
#[tactic(auto, using(crate::proofs::Checking::refused_before, crate::proofs::Checking::refused_behind, crate::proofs::Scripts::counted, crate::proofs::Scripts::last_fails, crate::proofs::Scripts::last_passes))]
fn settled_steps(
    alloc: Global,
    ring: &RingMap,
    circuits: &CircuitMap,
    rate: Rate,
    values: &[Value],
) -> Result<Vec<Step>, CheckError>
    requires { length values.now ≤ 1000 }
    ensures steps { IfOk result
        (λ steps. steps.items ≡ map (λ d. step_of (n_of rate) ring.now circuits.now.circuits (string_of d)) (map view values.now)) }
    ensures count { IfOk result (λ steps. length steps.items ≡ length values.now) }
    ensures passed { OnOk result (answer (texts_checks (n_of rate) ring.now circuits.now.circuits (map view values.now)) ≡ None) }
    ensures refused { IfErr result (IsRefused (answer (texts_checks (n_of rate) ring.now circuits.now.circuits (map view values.now)))) }
{
    let steps = steps_of(alloc, ring, circuits, rate, values)?;
    if !ends_settled(&steps) {
        return Err(CheckError::BadPlan {
            reason: Reason::LastStep,
            place: values.len() as u32,
        });
    }
    Ok(steps)
}

/// Returns the steps of a document's script, or the first check that fails.
#[tactic(auto, unfolding(crate::specs::Plans::script_checks))]
pub fn script_under(
    alloc: Global,
    table: &Table,
    ring: &RingMap,
    circuits: &CircuitMap,
    rate: Rate,
) -> Result<Vec<Step>, CheckError>
    ensures steps { IfOk result (λ steps. steps.items ≡ map (λ d. step_of (n_of rate) ring.now circuits.now.circuits (string_of d))
        (elements_in (codes "script") (table_view table.now))) }
    ensures count { IfOk result (λ steps. (1 ≤ length steps.items) × (length steps.items ≤ 1000)) }
    ensures passed { OnOk result (answer (script_checks (n_of rate) ring.now circuits.now.circuits (table_view table.now)) ≡ None) }
    ensures refused { IfErr result (IsRefused (answer (script_checks (n_of rate) ring.now circuits.now.circuits (table_view table.now)))) }
{
    let Some(values) = array_under(table, "script") else {
        return Err(of_document(Reason::Script));
    };
    if !all_texts(values) {
        return Err(of_document(Reason::Script));
    }
    if values.len() < 1 {
        return Err(of_document(Reason::ScriptLength));
    }
    if values.len() > 1000 {
        return Err(of_document(Reason::ScriptLength));
    }
    settled_steps(alloc, ring, circuits, rate, values)
}
