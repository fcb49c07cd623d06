//! Reading a plan.
ghost use Rattle.std.specs.Prelude.{◌≡◌, None, IfOk, IfErr, OnOk};
ghost use Rattle.toml.specs.View.{table_view};
ghost use Rattle.sdh_plan.specs.Check.{answer};
ghost use Rattle.sdh_plan.specs.Plans.{checks, plan_of};
ghost use Rattle.sdh_plan.specs.Refusals.{IsRefused};
ghost use Rattle.sdh_plan.specs.Answers.{IsPlanOf, IsWhy};

use crate::check_error::CheckError;
use crate::circuit::circuits_under;
use crate::document::{DocumentError, document_of};
use crate::error::{PlanError, plan_error};
use crate::plan::Plan;
use crate::ring::{ring_under, settings_under};
use crate::script::script_under;
use std::alloc::Global;
use toml::Table;

// Returns the plan of a document, or the first check that fails.
fn plan_under(alloc: Global, table: &Table) -> Result<Plan, CheckError>
    ensures plan { IfOk result (λ plan. plan ≡ plan_of (table_view table.now)) }
    ensures passed { OnOk result (answer (checks (table_view table.now)) ≡ None) }
    ensures refused { IfErr result (IsRefused (answer (checks (table_view table.now)))) }
{
    let (rate, ring) = ring_under(table)?;
    let (settings, limit) = settings_under(table, rate)?;
    let circuits = circuits_under(alloc, table, &ring, rate)?;
    let steps = script_under(alloc, table, &ring, &circuits, rate)?;
    Ok(Plan {
        settings,
        limit,
        ring,
        circuits,
        steps,
    })
}

/// Returns the plan of a TOML document in UTF-8, or the reason for its refusal: its bytes are no document, or the first
/// check that fails.
pub fn read_plan(alloc: Global, bytes: &[u8]) -> Result<Plan, PlanError>
    ensures ok { IfOk result (IsPlanOf bytes.now) }
    ensures refused { IfErr result (IsWhy bytes.now) }
{
    match document_of(alloc, bytes) {
        Ok(table) => match plan_under(alloc, &table) {
            Ok(plan) => Ok(plan),
            Err(why) => Err(plan_error(why)),
        },
        Err(DocumentError::Memory) => Err(PlanError::Memory),
        Err(DocumentError::NotToml) => Err(PlanError::NotToml),
    }
}
