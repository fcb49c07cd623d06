//! The TOML document in some bytes, and the values at its keys.
ghost use Rattle.std.specs.Prelude.{◌≡◌, ◌≤◌, IfSome, Some, None, option_map, option_copied, IfOk, IsErrOf, map};
ghost use Rattle.std.specs.Str.{bytes_eq};
ghost use Rattle.toml.specs.Data.{get_member};
ghost use Rattle.toml.specs.View.{view, table_view};
ghost use Rattle.sdh_plan.specs.Document.{IsDocument, IsNoDocument, string_of, number_in, integer_at, number_at, text_at, elements_at};

use std::alloc::Global;
use toml::value::Array;
use toml::{Table, Value};

/// Why there is no document.
#[derive(Clone, Copy)]
pub enum DocumentError {
    Memory,
    NotToml,
}

/// Returns the TOML document that the bytes hold.
pub fn document_of(alloc: Global, bytes: &[u8]) -> Result<Table, DocumentError>
    ensures ok { IfOk result (λ table. IsDocument bytes.now (table_view table)) }
    ensures not_toml { IsErrOf result DocumentError.NotToml → IsNoDocument bytes.now }
{
    match toml::table_from_slice(alloc, bytes) {
        Ok(table) => Ok(table),
        Err(error) if error.is_memory() => Err(DocumentError::Memory),
        Err(_) => Err(DocumentError::NotToml),
    }
}

/// Returns whether the key is this text.
pub fn is_text(key: &str, text: &str) -> bool
    ensures { result ≡ bytes_eq key.now text.now }
{
    key == text
}

/// Returns the value at a key.
pub fn value_under<'a>(table: &'a Table, key: &str) -> Option<&'a Value>
    ensures { option_map (λ value. view value.now) result ≡ get_member key.now (table_view table.now) }
{
    table.get(key)
}

/// Returns the integer at a key.
pub fn integer_under(table: &Table, key: &str) -> Option<i64>
    ensures { result ≡ integer_at key.now (table_view table.now) }
{
    match value_under(table, key) {
        Some(value) => value.as_integer(),
        None => None,
    }
}

// Returns the number, where it is from `low` to `high`.
fn number_of(value: i64, low: u32, high: u32) -> Option<u32>
    ensures number { result ≡ number_in low high value }
    ensures range { IfSome result (λ number. (low ≤ number) × (number ≤ high)) }
{
    match u32::try_from(value) {
        Ok(number) if low <= number && number <= high => Some(number),
        _ => None,
    }
}

/// Returns the integer at a key, where it is from `low` to `high`.
pub fn number_under(table: &Table, key: &str, low: u32, high: u32) -> Option<u32>
    ensures number { result ≡ number_at key.now low high (table_view table.now) }
    ensures range { IfSome result (λ number. (low ≤ number) × (number ≤ high)) }
{
    match integer_under(table, key) {
        Some(number) => number_of(number, low, high),
        None => None,
    }
}

/// Returns the text at a key.
pub fn text_under<'a>(table: &'a Table, key: &str) -> Option<&'a str>
    ensures { option_copied result ≡ text_at key.now (table_view table.now) }
{
    match value_under(table, key) {
        Some(value) => value.as_str(),
        None => None,
    }
}

/// Returns the array at a key.
#[tactic(auto, using(crate::proofs::Elements::elements_view))]
pub fn array_under<'a>(table: &'a Table, key: &str) -> Option<&'a Array>
    ensures { option_map (λ array. map view array.now.items) result ≡ elements_at key.now (table_view table.now) }
{
    match value_under(table, key) {
        Some(value) => value.as_array(),
        None => None,
    }
}

/// Returns the text that the value is; an empty one where it is none.
pub fn text_of(value: &Value) -> &str
    ensures { result.now ≡ string_of (view value.now) }
{
    match value.as_str() {
        Some(text) => text,
        None => "",
    }
}
