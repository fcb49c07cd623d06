//! The keys of a document, its rate, nodes and settings.
ghost use Rattle.std.specs.Prelude.{◌≡◌, ◌≤◌, ◌*◌, None, Some, map, length, string_bytes, IfOk, IfErr, OnOk};
ghost use Rattle.std.specs.BTreeMap.{keys};
ghost use Rattle.std.specs.List.{list_all};
ghost use Rattle.toml.specs.View.{view, table_view};
ghost use Rattle.sdh_ringmap.specs.Numbering.{magnitude};
ghost use Rattle.sdh_ringmap.specs.Rates.{n_of};
ghost use Rattle.sdh_plan.specs.Check.{answer};
ghost use Rattle.sdh_plan.specs.Document.{is_one_of_keys, has_only, is_integer, integer_of};
ghost use Rattle.sdh_plan.specs.Plans.{document_keys, rate_at, rate_in, nodes_in, threshold_at, wait_at, limit_at, number_checks};
ghost use Rattle.sdh_plan.specs.Plans.{ring_checks, settings_checks};
ghost use Rattle.sdh_plan.specs.Refusals.{IsRefused};

use crate::check_error::{CheckError, of_document};
use crate::document::{array_under, is_text, number_under};
use crate::reason::Reason;
use arrayvec::ArrayVec;
use sdh_request::Settings;
use sdh_ringmap::{MapError, Rate, RingMap};
use toml::{Table, Value};

// Returns whether a document may have the key.
#[tactic(auto, unfolding(crate::specs::Document::is_one_of_keys))]
fn is_document_key(key: &str) -> bool
    ensures { result ≡ is_one_of_keys document_keys key.now }
{
    let known = is_text(key, "rate") || is_text(key, "nodes") || is_text(key, "threshold");
    let known = known || is_text(key, "wait") || is_text(key, "limit");
    known || is_text(key, "script") || is_text(key, "circuit")
}

// Returns whether a document may have all the keys.
fn has_document_keys(table: &Table) -> bool
    ensures { result ≡ list_all (λ key. is_one_of_keys document_keys (string_bytes key)) (keys table.now) }
{
    table.keys().all(|key| is_document_key(key.as_str()))
}

// Returns the rate: STM-4 or STM-16.
#[tactic(auto, unfolding(crate::specs::Plans::rate_at))]
fn rate_under(table: &Table) -> Option<Rate>
    ensures { result ≡ rate_at (table_view table.now) }
{
    match number_under(table, "rate", 4, 16) {
        Some(n) if n == 4 => Some(Rate::Four),
        Some(n) if n == 16 => Some(Rate::Sixteen),
        _ => None,
    }
}

// Returns whether all values are integers.
fn all_integers(values: &[Value]) -> bool
    ensures { result ≡ list_all (λ value. is_integer (view value)) values.now }
{
    values.iter().all(|value| value.as_integer().is_some())
}

// Returns the integer that the value is; 0 where it is none.
fn integer_of(value: &Value) -> i64
    ensures { result ≡ integer_of (view value.now) }
{
    match value.as_integer() {
        Some(number) => number,
        None => 0,
    }
}

// Returns the integers that the values are.
fn integers_of(values: &[Value]) -> ArrayVec<i64, 16>
    requires { length values.now ≤ 16 }
    ensures { result.items ≡ map integer_of (map view values.now) }
{
    let mut numbers = ArrayVec::new();
    for value in values {
        numbers.push(integer_of(value));
    }
    numbers
}

// Returns the ring whose nodes have these identifiers, or the first check that fails.
#[tactic(auto, using(crate::proofs::Nodes::count_fails, crate::proofs::Nodes::node_fails, crate::proofs::Nodes::repeat_fails, crate::proofs::Nodes::nodes_pass, crate::proofs::Nodes::nodes_made, crate::proofs::Nodes::too_many))]
fn ring_of(values: &[Value]) -> Result<RingMap, CheckError>
    ensures ring { IfOk result (λ ring. ring ≡ map magnitude (map integer_of (map view values.now))) }
    ensures passed { OnOk result (answer (number_checks (map integer_of (map view values.now))) ≡ None) }
    ensures refused { IfErr result (IsRefused (answer (number_checks (map integer_of (map view values.now))))) }
{
    if values.len() > 16 {
        return Err(CheckError::BadPlan {
            reason: Reason::NodeCount,
            place: 0,
        });
    }
    match RingMap::new(&integers_of(values)) {
        Ok(ring) => Ok(ring),
        Err(MapError::NodeCount) => Err(CheckError::BadPlan {
            reason: Reason::NodeCount,
            place: 0,
        }),
        Err(MapError::NodeId(place)) => Err(CheckError::BadPlan {
            reason: Reason::NodeId,
            place,
        }),
        Err(MapError::Repeat(place)) => Err(CheckError::BadPlan {
            reason: Reason::Repeat,
            place,
        }),
    }
}

/// Returns the rate and the ring of a document, or the first check that fails.
#[tactic(auto, using(crate::proofs::Elements::all_keys_view, crate::proofs::Elements::all_integers_view), unfolding(crate::specs::Plans::ring_checks, crate::specs::Document::has_only))]
pub fn ring_under(table: &Table) -> Result<(Rate, RingMap), CheckError>
    ensures rate { IfOk result (λ both. both.0 ≡ rate_in (table_view table.now)) }
    ensures ring { IfOk result (λ both. both.1 ≡ nodes_in (table_view table.now)) }
    ensures passed { OnOk result (answer (ring_checks (table_view table.now)) ≡ None) }
    ensures refused { IfErr result (IsRefused (answer (ring_checks (table_view table.now)))) }
{
    if !has_document_keys(table) {
        return Err(of_document(Reason::UnknownKey));
    }
    let Some(rate) = rate_under(table) else {
        return Err(of_document(Reason::Rate));
    };
    let Some(values) = array_under(table, "nodes") else {
        return Err(of_document(Reason::Nodes));
    };
    if !all_integers(values) {
        return Err(of_document(Reason::Nodes));
    }
    let ring = ring_of(values)?;
    Ok((rate, ring))
}

/// Returns the settings and the limit of a document, or the first check that fails.
#[tactic(auto, unfolding(crate::specs::Plans::settings_checks))]
pub fn settings_under(table: &Table, rate: Rate) -> Result<(Settings, u32), CheckError>
    ensures threshold { IfOk result (λ both. threshold_at (n_of rate) (table_view table.now) ≡ Some both.0.threshold) }
    ensures wait { IfOk result (λ both. wait_at (table_view table.now) ≡ Some both.0.wait) }
    ensures limit { IfOk result (λ both. limit_at (table_view table.now) ≡ Some both.1) }
    ensures rate { IfOk result (λ both. both.0.rate ≡ rate) }
    ensures threshold_from_1 { IfOk result (λ both. 1 ≤ both.0.threshold) }
    ensures threshold_small { IfOk result (λ both. both.0.threshold ≤ 3 * n_of rate) }
    ensures wait_small { IfOk result (λ both. both.0.wait ≤ 1000000) }
    ensures limit_from_1 { IfOk result (λ both. 1 ≤ both.1) }
    ensures limit_small { IfOk result (λ both. both.1 ≤ 65536) }
    ensures passed { OnOk result (answer (settings_checks (n_of rate) (table_view table.now)) ≡ None) }
    ensures refused { IfErr result (IsRefused (answer (settings_checks (n_of rate) (table_view table.now)))) }
{
    let Some(threshold) = number_under(table, "threshold", 1, 3 * rate.n() as u32) else {
        return Err(of_document(Reason::Threshold));
    };
    let Some(wait) = number_under(table, "wait", 0, 1_000_000) else {
        return Err(of_document(Reason::Wait));
    };
    let Some(limit) = number_under(table, "limit", 1, 65_536) else {
        return Err(of_document(Reason::Limit));
    };
    let settings = Settings {
        rate,
        threshold: threshold as u16,
        wait,
    };
    Ok((settings, limit))
}
