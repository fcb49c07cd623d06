//! The text of a plan's squelch tables: what each node knows beforehand of the circuits on its two spans.
ghost use Rattle.std.specs.Prelude.{◌≡◌, ◌+◌, ◌*◌, ◌/◌, ◌≤◌, ◌<◌, ◌++◌, length, slice_index, IfOk, OnOk};
ghost use Rattle.sdh_report.specs.Lines.{table_line};
ghost use Rattle.sdh_ringmap.specs.Rates.{n_of};
ghost use Rattle.sdh_squelch.specs.Table.{table_of};
ghost use Rattle.sdh_cli.specs.Tables.{slot_line, side_lines, node_lines, tables_of};

use sdh_circuits::{Circuit, Name, Slot};
use sdh_plan::Plan;
use sdh_report::{LINE_MAX, Text};
use sdh_ringmap::{Pos, RingMap, Side};
use sdh_squelch::Table;
use std::alloc::{AllocError, Global};

// Appends the line of a circuit of this name between the nodes at two positions.
fn put_circuit(
    text: &mut Text,
    map: &RingMap,
    at: Pos,
    side: Side,
    slot: Slot,
    name: &Name,
    ends: (Pos, Pos),
)
    requires at { at.0 < length map.now }
    requires name { length name.now ≤ 16 }
    requires from { ends.0.0 < length map.now }
    requires to { ends.1.0 < length map.now }
    requires room { 96 ≤ text.old.room }
    ensures bytes { text.new.bytes ≡ text.old.bytes
        ++ table_line (slice_index map.now at.0) side slot name.now (slice_index map.now ends.0.0) (slice_index map.now ends.1.0) }
    ensures room { text.old.room ≤ text.new.room + 96 }
{
    text.table_line(map.id(at), side, slot, name, map.id(ends.0), map.id(ends.1));
}

// Appends the line of the circuit in a slot, and nothing where no circuit is there.
fn put_slot(text: &mut Text, plan: &Plan, table: &Table, at: Pos, side: Side, slot: Slot)
    requires at { at.0 < length plan.now.nodes }
    requires table { table.now ≡ table_of plan.now.nodes plan.now.circuits at }
    requires slot { (1 ≤ slot.0) × (slot.0 ≤ 8) }
    requires room { 96 ≤ text.old.room }
    ensures bytes { text.new.bytes ≡ text.old.bytes ++ slot_line plan.now.nodes plan.now.circuits at.0 side slot.0 }
    ensures room { text.old.room ≤ text.new.room + 96 }
{
    let Some(number) = table.circuit(side, slot) else {
        return;
    };
    let Some(ends) = table.ends(side, slot) else {
        return;
    };
    let circuits = plan.circuits();
    prove!(circuits.len() <= 128);
    let name = circuits.get(number).name();
    put_circuit(text, plan.map(), at, side, slot, name, ends);
}

// Appends the lines of a side.
fn put_side(text: &mut Text, plan: &Plan, table: &Table, at: Pos, side: Side)
    requires at { at.0 < length plan.now.nodes }
    requires table { table.now ≡ table_of plan.now.nodes plan.now.circuits at }
    requires room { 768 ≤ text.old.room }
    ensures bytes { text.new.bytes ≡ text.old.bytes
        ++ side_lines (n_of plan.now.settings.rate / 2) plan.now.nodes plan.now.circuits at.0 side }
    ensures room { text.old.room ≤ text.new.room + 768 }
{
    for i in 0..plan.settings().rate.half() {
        put_slot(text, plan, table, at, side, Slot(i + 1));
    }
}

// Appends the lines of the node at a position.
fn put_node(text: &mut Text, alloc: Global, plan: &Plan, at: Pos) -> Result<(), AllocError>
    requires at { at.0 < length plan.now.nodes }
    requires room { 1536 ≤ text.old.room }
    ensures bytes { OnOk result
        (text.new.bytes ≡ text.old.bytes ++ node_lines (n_of plan.now.settings.rate / 2) plan.now.nodes plan.now.circuits at.0) }
    ensures room { text.old.room ≤ text.new.room + 1536 }
{
    let table = Table::try_new(alloc, plan.map(), plan.circuits(), at)?;
    put_side(text, plan, &table, at, Side::West);
    put_side(text, plan, &table, at, Side::East);
    Ok(())
}

// Appends the lines of all nodes.
fn put_nodes(text: &mut Text, alloc: Global, plan: &Plan) -> Result<(), AllocError>
    requires room { 1536 * length plan.now.nodes ≤ text.old.room }
    ensures bytes { OnOk result (text.new.bytes ≡ text.old.bytes ++ tables_of plan.now) }
    ensures room { text.old.room ≤ text.new.room + 1536 * length plan.now.nodes }
{
    for i in 0..plan.map().len() {
        put_node(text, alloc, plan, Pos(i as u8))?;
    }
    Ok(())
}

/// Returns the text of a plan's squelch tables: for each node by position, its west side before its east side, and each
/// working slot in which a circuit is there, the line of that circuit. Room for a line more is left.
pub fn table_text(alloc: Global, plan: &Plan) -> Result<Text, AllocError>
    ensures text { IfOk result (λ text. text.bytes ≡ tables_of plan.now) }
    ensures room { IfOk result (λ text. 96 ≤ text.room) }
{
    let mut text = Text::try_new(alloc, LINE_MAX * (1 + 16 * plan.map().len()))?;
    put_nodes(&mut text, alloc, plan)?;
    Ok(text)
}
