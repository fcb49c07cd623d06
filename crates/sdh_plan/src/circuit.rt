//! The circuits that a document asks for.
ghost use Rattle.std.specs.Prelude.{◌≡◌, ◌/◌, ◌+◌, [], None, option_map, map, string_bytes, IfSome, IfOk, IfErr, OnOk};
ghost use Rattle.std.specs.BTreeMap.{keys};
ghost use Rattle.std.specs.List.{list_all};
ghost use Rattle.toml.specs.View.{view, table_view};
ghost use Rattle.toml.specs.Data.{as_array};
ghost use Rattle.sdh_ringmap.specs.Rates.{n_of};
ghost use Rattle.sdh_plan.specs.Plans.{circuits_in, provision_checks};
ghost use Rattle.sdh_circuits.specs.Checks.{wish_of, with_circuit};
ghost use Rattle.sdh_plan.specs.Check.{answer, first_fault};
ghost use Rattle.sdh_plan.specs.Document.{is_one_of_keys, has_only, is_table, elements};
ghost use Rattle.sdh_plan.specs.Circuits.{circuit_keys, wish_in, text_or, integer_or_0, circuit_of_table, circuit_faults, circuits_checks};
ghost use Rattle.sdh_plan.specs.Circuits.{members_of, provisioned};
ghost use Rattle.sdh_plan.specs.Wishes.{way_in, both_texts, traces_in, offsets_in};
ghost use Rattle.sdh_plan.specs.Refusals.{IsRefused, refusal_at, reason_of};

use crate::check_error::{CheckError, of_document};
use crate::document::{integer_under, is_text, text_under, value_under};
use crate::reason::Reason;
use sdh_circuits::{AddError, Asked, CircuitMap};
use sdh_ringmap::{Rate, RingMap};
use std::alloc::Global;
use toml::value::Array;
use toml::{Table, Value};

// Returns whether a circuit may have the key.
#[tactic(auto, unfolding(crate::specs::Document::is_one_of_keys))]
fn is_circuit_key(key: &str) -> bool
    ensures { result ≡ is_one_of_keys circuit_keys key.now }
{
    let known = is_text(key, "name") || is_text(key, "from") || is_text(key, "to");
    let known = known || is_text(key, "slot") || is_text(key, "text_a") || is_text(key, "text_b");
    let known = known || is_text(key, "trace_a") || is_text(key, "trace_b");
    known || is_text(key, "offset_a") || is_text(key, "offset_b")
}

// Returns whether a circuit may have all the keys.
fn has_circuit_keys(table: &Table) -> bool
    ensures { result ≡ list_all (λ key. is_one_of_keys circuit_keys (string_bytes key)) (keys table.now) }
{
    table.keys().all(|key| is_circuit_key(key.as_str()))
}

// Returns the text at a key, or `other` where the key is missing.
fn text_or<'a>(table: &'a Table, key: &str, other: &'a str) -> Option<&'a str>
    ensures { option_map (λ text. text.now) result ≡ text_or other.now key.now (table_view table.now) }
{
    match value_under(table, key) {
        Some(value) => value.as_str(),
        None => Some(other),
    }
}

// Returns the integer at a key, and 0 where the key is missing.
fn integer_or_0(table: &Table, key: &str) -> Option<i64>
    ensures { result ≡ integer_or_0 key.now (table_view table.now) }
{
    match value_under(table, key) {
        Some(value) => value.as_integer(),
        None => Some(0),
    }
}

// Returns the ends and the slot, where each is there and an integer.
#[tactic(auto, unfolding(crate::specs::Wishes::way_in))]
fn way_under(table: &Table) -> Option<((i64, i64), i64)>
    ensures { result ≡ way_in (table_view table.now) }
{
    let ends = integer_under(table, "from").zip(integer_under(table, "to"));
    ends.zip(integer_under(table, "slot"))
}

// Returns both texts, where each is there and a string.
#[tactic(auto, unfolding(crate::specs::Wishes::both_texts))]
fn texts_under<'a>(table: &'a Table) -> Option<(&'a str, &'a str)>
    ensures { option_map (λ both. (both.0.now, both.1.now)) result ≡ both_texts (table_view table.now) }
{
    text_under(table, "text_a").zip(text_under(table, "text_b"))
}

// Returns both traces, where each that is there is a string. A missing one is `name`.
#[tactic(auto, unfolding(crate::specs::Wishes::traces_in))]
fn traces_under<'a>(table: &'a Table, name: &'a str) -> Option<(&'a str, &'a str)>
    ensures { option_map (λ both. (both.0.now, both.1.now)) result ≡ traces_in name.now (table_view table.now) }
{
    text_or(table, "trace_a", name).zip(text_or(table, "trace_b", name))
}

// Returns both offsets, where each that is there is an integer. A missing one is 0.
#[tactic(auto, unfolding(crate::specs::Wishes::offsets_in))]
fn offsets_under(table: &Table) -> Option<(i64, i64)>
    ensures { result ≡ offsets_in (table_view table.now) }
{
    integer_or_0(table, "offset_a").zip(integer_or_0(table, "offset_b"))
}

// Returns what the table asks for, where the needed keys are there and each value has its kind.
fn asked_under<'a>(table: &'a Table) -> Option<Asked<'a>>
    ensures { option_map wish_of result ≡ wish_in (table_view table.now) }
{
    let name = text_under(table, "name")?;
    let ((from, to), slot) = way_under(table)?;
    let (text_a, text_b) = texts_under(table)?;
    let (trace_a, trace_b) = traces_under(table, name)?;
    let (offset_a, offset_b) = offsets_under(table)?;
    Some(Asked {
        name,
        from,
        to,
        slot,
        offset_a,
        offset_b,
        text_a,
        text_b,
        trace_a,
        trace_b,
    })
}

// Returns why the circuit at a place is refused.
fn refused_at(place: u32, why: AddError) -> CheckError
    ensures { IsRefused (refusal_at place (reason_of why)) result }
{
    let reason = match why {
        AddError::Memory => return CheckError::Memory,
        AddError::Slot => Reason::Slot,
        AddError::End => Reason::End,
        AddError::SameEnds => Reason::SameEnds,
        AddError::Offset => Reason::Offset,
        AddError::Text => Reason::Text,
        AddError::Trace => Reason::Trace,
        AddError::Name => Reason::Name,
        AddError::Overlap => Reason::Overlap,
    };
    CheckError::BadPlan { reason, place }
}

// Adds the circuit that a table asks for.
#[tactic(auto, unfolding(crate::specs::Circuits::circuit_faults, crate::specs::Document::has_only), using(crate::proofs::Elements::all_keys_view, crate::proofs::Refusing::all_passed))]
fn add_table(
    circuits: &mut CircuitMap,
    ring: &RingMap,
    table: &Table,
    place: u32,
) -> Result<(), CheckError>
    requires { IfSome circuits.old.ring (λ kept. kept ≡ ring.now) }
    ensures added { OnOk result (circuits.new ≡ with_circuit circuits.old ring.now (circuit_of_table ring.now (table_view table.now))) }
    ensures passed { OnOk result
        (first_fault (circuit_faults circuits.old.slots ring.now circuits.old.circuits (table_view table.now)) ≡ None) }
    ensures refused { IfErr result (IsRefused
        (refusal_at place (first_fault (circuit_faults circuits.old.slots ring.now circuits.old.circuits (table_view table.now))))) }
{
    if !has_circuit_keys(table) {
        return Err(CheckError::BadPlan {
            reason: Reason::UnknownKey,
            place,
        });
    }
    let Some(asked) = asked_under(table) else {
        return Err(CheckError::BadPlan {
            reason: Reason::CircuitField,
            place,
        });
    };
    match circuits.add(ring, &asked) {
        Ok(()) => Ok(()),
        Err(why) => Err(refused_at(place, why)),
    }
}

// Adds the circuit that a value asks for. A value that is no table is refused as a table without keys.
#[tactic(auto, unfolding(crate::specs::Circuits::circuit_faults, crate::specs::Circuits::wish_in, crate::specs::Document::has_only))]
fn add_circuit(
    circuits: &mut CircuitMap,
    ring: &RingMap,
    value: &Value,
    place: u32,
) -> Result<(), CheckError>
    requires { IfSome circuits.old.ring (λ kept. kept ≡ ring.now) }
    ensures added { OnOk result
        (circuits.new ≡ with_circuit circuits.old ring.now (circuit_of_table ring.now (members_of (view value.now)))) }
    ensures passed { OnOk result
        (first_fault (circuit_faults circuits.old.slots ring.now circuits.old.circuits (members_of (view value.now))) ≡ None) }
    ensures refused { IfErr result (IsRefused
        (refusal_at place (first_fault (circuit_faults circuits.old.slots ring.now circuits.old.circuits (members_of (view value.now)))))) }
{
    match value.as_table() {
        Some(table) => add_table(circuits, ring, table, place),
        None => Err(CheckError::BadPlan {
            reason: Reason::CircuitField,
            place,
        }),
    }
}

// Returns an empty map of circuits for a rate. Half of N are working slots.
fn no_circuits(alloc: Global, rate: Rate) -> CircuitMap
    ensures { result ≡ record { slots = n_of rate / 2; ring = None; circuits = [] } }
{
    CircuitMap::new(alloc, (rate.n() / 2) as u8)
}

/// Returns the circuits that the values ask for, in a ring at a rate, or the first check that fails.
pub fn circuits_of(
    alloc: Global,
    ring: &RingMap,
    rate: Rate,
    values: &[Value],
) -> Result<CircuitMap, CheckError>
    ensures circuits { IfOk result (λ circuits. circuits ≡ provisioned (n_of rate / 2) ring.now
        (map (λ d. circuit_of_table ring.now (members_of d)) (map view values.now))) }
    ensures passed { OnOk result (answer (circuits_checks (n_of rate / 2) ring.now [] 1 (map view values.now)) ≡ None) }
    ensures refused { IfErr result (IsRefused (answer (circuits_checks (n_of rate / 2) ring.now [] 1 (map view values.now)))) }
{
    let mut circuits = no_circuits(alloc, rate);
    for value in values {
        let place = circuits.len() as u32 + 1;
        add_circuit(&mut circuits, ring, value, place)?;
    }
    Ok(circuits)
}

// Returns whether all values are tables.
fn all_tables(values: &[Value]) -> bool
    ensures { result ≡ list_all (λ value. is_table (view value)) values.now }
{
    values.iter().all(|value| value.as_table().is_some())
}

// Returns the array that the value is.
#[tactic(auto, using(crate::proofs::Elements::elements_view))]
fn array_of(value: &Value) -> Option<&Array>
    ensures { option_map (λ array. map view array.now.items) result ≡ option_map elements (as_array (view value.now)) }
{
    value.as_array()
}

/// Returns the circuits of a document, or the first check that fails.
#[tactic(auto, using(crate::proofs::Elements::all_tables_view), unfolding(crate::specs::Plans::provision_checks))]
pub fn circuits_under(
    alloc: Global,
    table: &Table,
    ring: &RingMap,
    rate: Rate,
) -> Result<CircuitMap, CheckError>
    ensures circuits { IfOk result
        (λ circuits. circuits ≡ provisioned (n_of rate / 2) ring.now (circuits_in ring.now (table_view table.now))) }
    ensures passed { OnOk result (answer (provision_checks (n_of rate) ring.now (table_view table.now)) ≡ None) }
    ensures refused { IfErr result (IsRefused (answer (provision_checks (n_of rate) ring.now (table_view table.now)))) }
{
    let Some(value) = value_under(table, "circuit") else {
        return Ok(no_circuits(alloc, rate));
    };
    let Some(values) = array_of(value) else {
        return Err(of_document(Reason::Circuits));
    };
    if !all_tables(values) {
        return Err(of_document(Reason::Circuits));
    }
    circuits_of(alloc, ring, rate, values)
}
