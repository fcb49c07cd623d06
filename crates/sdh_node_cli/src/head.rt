//! The plan of a stream, up to the line that ends it.
ghost use Rattle.std.specs.Prelude.{◌≡◌, ◌<◌, ◌≤◌, ◌+◌, ◌++◌, ◌↔◌, List, ℕ, [], IsTrue, Ok, Err, IfOk, IfErr, OnErr, length};
ghost use Rattle.sdh_basics.specs.Causes.{Rose, IsCounted, HasCause};
ghost use Rattle.sdh_status.specs.declared.Status.{Status};
ghost use Rattle.sdh_shell.specs.Reading.{TellsPlan};
ghost use Rattle.sdh_node_cli.specs.Streams.{end_of_plan, EndsPlan};
ghost use Rattle.sdh_node_cli.specs.Outcome.{HasHead, HasNoHead, TakesHead, TellsNone, IsNoPlan};

use sdh_outside::{Failed, Source, next_byte};
use sdh_plan::{Plan, PlanError, read_plan};
use sdh_report::{Status, Text};
use std::alloc::{AllocError, Global};

/// The line that ends the plan.
const END_OF_PLAN: &[u8] = b"end of plan\n";

/// The most bytes that are read of a document and the line that ends it.
const HEAD_MAX: usize = 1_048_588;

/// Why there is no plan.
#[derive(Clone, Copy)]
pub enum NoHead {
    /// Memory ran out.
    Memory,
    /// The stream ended before the line that ends a plan.
    Cut,
    /// The plan was refused with this status: `ReadFault`, `TooLong`, `NotToml` or `BadPlan`.
    Refused(Status),
}

/// Why no more of the plan was read.
#[derive(Clone, Copy)]
enum HeadEnd {
    /// The line that ends it was read.
    Whole,
    /// The source has ended.
    Ended,
    /// The most bytes that may be read were read.
    Full,
}

// Returns whether these bytes are a document and then the line that ends it.
fn ends_plan(bytes: &[u8]) -> bool
    ensures { IsTrue result ↔ EndsPlan bytes.now }
{
    let Some(at) = bytes.len().checked_sub(END_OF_PLAN.len()) else {
        return false;
    };
    &bytes[at..] == END_OF_PLAN && (at == 0 || bytes[at - 1] == b'\n')
}

// Reads a document and the line that ends it into an empty text, and no byte after that line.
fn read_head<R: Source>(source: &mut R, text: &mut Text) -> Result<HeadEnd, Failed>
    requires { text.old.bytes ≡ [] }
    ensures head { IfOk result (TakesHead (R.left source.old) (R.left source.new) text.new.bytes) }
    ensures part { OnErr result (HasNoHead (R.left source.old) (R.left source.new) text.new.bytes) }
    ensures kept { text.new.room + length text.new.bytes ≡ text.old.room }
    ensures full { result ≡ Ok HeadEnd.Full → text.new.room ≡ 0 }
    ensures ended { result ≡ Ok HeadEnd.Ended → 0 < text.new.room }
    ensures failed { OnErr result (0 < text.new.room) }
    ensures cause { HasCause R.exact (R.faults source.old) (R.faults source.new) result }
{
    while text.room() > 0 {
        let Some(byte) = next_byte(source)? else {
            return Ok(HeadEnd::Ended);
        };
        text.put(&[byte]);
        if ends_plan(text.bytes()) {
            return Ok(HeadEnd::Whole);
        }
    }
    Ok(HeadEnd::Full)
}

// Returns the document, of a document and the line that ends it.
fn document_of(bytes: &[u8]) -> &[u8]
    requires { EndsPlan bytes.now }
    ensures { (document : List ℕ) → bytes.now ≡ document ++ end_of_plan → result.now ≡ document }
{
    &bytes[..bytes.len() - END_OF_PLAN.len()]
}

// Returns the plan that a document is.
fn plan_of(alloc: Global, document: &[u8]) -> Result<Plan, NoHead>
    requires { length document.now ≤ 1048576 }
    ensures plan { IfOk result (TellsPlan document.now) }
    ensures refused { IfErr result (IsNoPlan document.now) }
{
    match read_plan(alloc, document) {
        Ok(plan) => Ok(plan),
        Err(PlanError::Memory) => Err(NoHead::Memory),
        Err(PlanError::NotToml) => Err(NoHead::Refused(Status::NotToml)),
        Err(PlanError::BadPlan { reason, place }) => {
            Err(NoHead::Refused(Status::BadPlan { reason, place }))
        }
    }
}

/// Returns the plan with which a stream begins, or why there is none. No byte after the line that ends the plan is
/// read.
pub fn plan_in<R: Source>(alloc: Global, source: &mut R) -> Result<Plan, NoHead>
    ensures plan { IfOk result (λ plan. HasHead (R.left source.old) (R.left source.new) plan) }
    ensures refused { IfErr result (TellsNone (R.left source.old) (R.left source.new)) }
    ensures fault { result ≡ Err (NoHead.Refused Status.ReadFault) → Rose (R.faults source.old) (R.faults source.new) }
    ensures counted { IsCounted R.exact (result ≡ Err (NoHead.Refused Status.ReadFault)) (R.faults source.old) (R.faults source.new) }
    ensures later { R.faults source.old ≤ R.faults source.new }
{
    let Ok(mut text) = Text::try_new(alloc, HEAD_MAX) else {
        return Err(NoHead::Memory);
    };
    match read_head(source, &mut text) {
        Ok(HeadEnd::Whole) => match plan_of(alloc, document_of(text.bytes())) {
            Ok(plan) => Ok(plan),
            Err(why) => Err(why),
        },
        Ok(HeadEnd::Ended) => Err(NoHead::Cut),
        Ok(HeadEnd::Full) => Err(NoHead::Refused(Status::TooLong)),
        Err(_) => Err(NoHead::Refused(Status::ReadFault)),
    }
}
