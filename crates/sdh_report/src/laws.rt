//! Laws of the lines. The functions change nothing: their contracts are the laws.
ghost use Rattle.std.specs.Prelude.{ℕ, ◌<◌, ◌≤◌, ◌^◌, List, length};
ghost use Rattle.sdh_circuits.specs.declared.End.{End};
ghost use Rattle.sdh_circuits.specs.declared.Slot.{Slot};
ghost use Rattle.sdh_payload.specs.declared.delivered.Delivered.{Delivered};
ghost use Rattle.sdh_report.specs.declared.node_line.NodeLine.{NodeLine};
ghost use Rattle.sdh_report.specs.Lines.{settle_line, node_line, port_line, front_line, drop_lines};
ghost use Rattle.sdh_report.specs.Lines.{table_line, count_line};
ghost use Rattle.sdh_report.specs.Statuses.{last_line};
ghost use Rattle.sdh_ringmap.specs.declared.Side.{Side};

use crate::text::{CHUNK_MAX, LINE_MAX};
use sdh_circuits::{End, Name};
use sdh_payload::Front;
use sdh_status::Status;

/// Each line, except those of a chunk and a line of the caller's own, has at most `LINE_MAX` bytes, whatever numbers
/// its call takes and whatever name of at most 16 bytes. The lines of a chunk have at most `CHUNK_MAX` bytes together.
/// `last_line_is_short` says so of the last line, and `front_line_is_short` of that of a front.
pub fn lines_are_short()
    ensures settle { (number round : ℕ) → number < 2 ^ 32 → round < 2 ^ 64 → length (settle_line number round) ≤ LINE_MAX }
    ensures node { (line : NodeLine) → line.id < 2 ^ 8 → length (node_line line) ≤ LINE_MAX }
    ensures port { (name : List ℕ) (end : End) (delivered : Delivered) (value : ℕ) → length name ≤ 16 → value < 2 ^ 16
        → length (port_line name end delivered value) ≤ LINE_MAX }
    ensures chunk { (delivered : Delivered) → length (drop_lines delivered) ≤ CHUNK_MAX }
    ensures table { (id : ℕ) (side : Side) (slot : Slot) (name : List ℕ) (from to : ℕ) → id < 2 ^ 8 → slot.0 < 2 ^ 8 → length name ≤ 16
        → from < 2 ^ 8 → to < 2 ^ 8 → length (table_line id side slot name from to) ≤ LINE_MAX }
    ensures count { (number round norm ais : ℕ) → number < 2 ^ 32 → round < 2 ^ 64 → norm < 2 ^ 32 → ais < 2 ^ 32
        → length (count_line number round norm ais) ≤ LINE_MAX }
{}

/// The line of a front has at most `LINE_MAX` bytes, whatever pointer value the front has.
pub fn front_line_is_short(name: &Name, end: End, front: &Front)
    requires { length name.now ≤ 16 }
    ensures { length (front_line name.now end front.now) ≤ LINE_MAX }
{
    match *front {
        Front::Ais => short_value(0),
        Front::Bytes(_, value) => short_value(value),
    }
}

// The line of a port is short, since a pointer value of 16 bits has few digits.
fn short_value(value: u16)
    ensures { (name : List ℕ) (end : End) (delivered : Delivered) → length name ≤ 16
        → length (port_line name end delivered value) ≤ LINE_MAX }
{
    let _ = value;
}

/// The last line of a status has at most `LINE_MAX` bytes, whatever numbers the status has.
pub fn last_line_is_short(status: &Status)
    ensures { length (last_line status.now) ≤ LINE_MAX }
{
    match *status {
        Status::BadPlan { reason, place } => short_plan(reason, place),
        Status::Unsettled(number) => short_step(number),
        _ => (),
    }
}

// The last line of a text about a plan that fails a check is short, since numbers of these sizes have few digits.
fn short_plan(reason: u8, place: u32)
    ensures { length (last_line (Status.BadPlan reason place)) ≤ LINE_MAX }
{
    let _ = (reason, place);
}

fn short_step(number: u32)
    ensures { length (last_line (Status.Unsettled number)) ≤ LINE_MAX }
{
    let _ = number;
}
