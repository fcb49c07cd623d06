//! The squelch table: what a node knows beforehand of the circuits on its two spans. For each side and slot it has the
//! circuit there and the positions of its ends. A node that switches decides by it which slots it may carry round the
//! ring, and squelches the others.
#![tactic(auto)]

ghost use Rattle.std.specs.Prelude.{◌≡◌, ◌≤◌, ◌<◌, ◌+◌, ◌-◌, ◌++◌, ℕ, List, Some, option_map, length, IfOk, OnOk};
ghost use Rattle.std.specs.List.{All};
ghost use Rattle.sdh_basics.specs.Cells.{cells};
ghost use Rattle.sdh_circuits.specs.Provisioning.{IsProvisioning};
ghost use Rattle.sdh_squelch.specs.Table.{circuit_on, circuits_at, table_of, rows_of, HasEnds, is_carried};
ghost use Rattle.sdh_circuits.specs.Kept.{KeepsRing};

use sdh_circuits::{CircuitMap, Slot};
use sdh_ringmap::{Chain, Pos, RingMap, Side, Span};
use std::alloc::{AllocError, Global};
use std::marker::Model;
use std::snapshot::Snapshot;

/// A circuit on a span, by its number, with the positions of its two ends.
#[derive(Clone, Copy, Debug, PartialEq, Eq)]
pub struct Row {
    pub circuit: u8,
    pub from: Pos,
    pub to: Pos,
}

/// The circuits on the two spans of a node, slot by slot. The field `circuits` is for clauses alone and takes no
/// memory: the code reads the rows.
#[derive(Drop)]
#[derive_where(Debug)]
pub struct Table {
    at: Pos,
    map: RingMap,
    #[derive_where(skip(Debug))]
    circuits: Snapshot<CircuitMap>,
    rows: Vec<Option<Row>>,
}

impl Model for Table {
    ghost use Rattle.sdh_squelch.specs.Table.{SquelchTable, IsTable};

    ghost Value = { SquelchTable };

    ghost view = { λ t. record { ring = t.map; at = t.at; circuits = t.circuits.value.circuits } };

    ghost invariant = { λ t. IsTable (record { ring = t.map; at = t.at; circuits = t.circuits.value.circuits }) t.rows.items };
}

// Returns the circuit on a span in a slot, or `None` where no circuit is.
fn row_on(circuits: &CircuitMap, span: Span, slot: Slot) -> Option<Row>
    requires { IsProvisioning circuits.now }
    ensures row { (ids : List ℕ) → KeepsRing circuits.now ids → result ≡ circuit_on (length ids) circuits.now.circuits span.0 slot.0 }
    ensures ends { (ids : List ℕ) → KeepsRing circuits.now ids → HasEnds (length ids) result }
{
    match circuits.on_span(span, slot) {
        Some(circuit) => {
            let found = circuits.get(circuit);
            Some(Row {
                circuit,
                from: found.from(),
                to: found.to(),
            })
        }
        None => None,
    }
}

// Appends the circuits in slots 1 to 8 of a span to the rows.
fn add_rows(
    rows: &mut Vec<Option<Row>>,
    circuits: &CircuitMap,
    span: Span,
) -> Result<(), AllocError>
    requires { IsProvisioning circuits.now }
    ensures rows { OnOk result ((ids : List ℕ) → KeepsRing circuits.now ids
        → rows.new.items ≡ rows.old.items ++ cells (λ i. circuit_on (length ids) circuits.now.circuits span.0 (i + 1)) 8) }
    ensures ends { OnOk result ((ids : List ℕ) → KeepsRing circuits.now ids → All (HasEnds (length ids)) rows.old.items
        → All (HasEnds (length ids)) rows.new.items) }
{
    for i in 0..8u8 {
        rows.push(row_on(circuits, span, Slot(i + 1)))?;
    }
    Ok(())
}

impl Table {
    /// Returns the table of the node at a position, or an error where memory runs out. No other call takes memory.
    pub fn try_new(
        alloc: Global,
        map: &RingMap,
        circuits: &CircuitMap,
        at: Pos,
    ) -> Result<Table, AllocError>
        requires at { at.0 < length map.now }
        requires kept { KeepsRing circuits.now map.now }
        ensures { IfOk result (λ table. table ≡ table_of map.now circuits.now.circuits at) }
    {
        prove!(circuits.len() <= 128);
        let mut rows = Vec::with_capacity(alloc, 16)?;
        add_rows(&mut rows, circuits, map.span(at, Side::West))?;
        add_rows(&mut rows, circuits, map.span(at, Side::East))?;
        Ok(Table {
            at,
            map: map.copy(),
            circuits: Snapshot::of(circuits),
            rows,
        })
    }

    /// Returns the sixteen rows, for slots 1 to 8 of the west side, then for slots 1 to 8 of the east side. A slot that
    /// the ring doesn't have has no circuit.
    pub fn rows(&self) -> &[Option<Row>]
        ensures rows { result.now ≡ rows_of self.now }
        ensures sixteen { length result.now ≡ 16 }
    {
        self.rows.as_slice()
    }

    // Returns the row of a side and a slot.
    fn row(&self, side: Side, slot: Slot) -> Option<Row>
        requires slot { (1 ≤ slot.0) × (slot.0 ≤ 8) }
        ensures row { result ≡ circuits_at (length self.now.ring) self.now.circuits self.now.at.0 slot.0 side }
        ensures ends { HasEnds (length self.now.ring) result }
    {
        let m = slot.0 as usize;
        match side {
            Side::West => self.rows[m - 1],
            Side::East => self.rows[m + 7],
        }
    }

    /// Returns the number of the circuit on a side in a slot of 1 to 8, or `None` where no circuit is.
    pub fn circuit(&self, side: Side, slot: Slot) -> Option<u8>
        requires { (1 ≤ slot.0) × (slot.0 ≤ 8) }
        ensures { result ≡ option_map (λ r. r.circuit) (circuits_at (length self.now.ring) self.now.circuits self.now.at.0 slot.0 side) }
    {
        let row = self.row(side, slot)?;
        Some(row.circuit)
    }

    /// Returns the positions of the two ends, port A's before port B's, of the circuit on a side in a slot of 1 to 8,
    /// or `None` where no circuit is.
    pub fn ends(&self, side: Side, slot: Slot) -> Option<(Pos, Pos)>
        requires { (1 ≤ slot.0) × (slot.0 ≤ 8) }
        ensures { result ≡ option_map (λ r. (r.from, r.to))
            (circuits_at (length self.now.ring) self.now.circuits self.now.at.0 slot.0 side) }
    {
        let row = self.row(side, slot)?;
        Some((row.from, row.to))
    }

    /// Returns whether a circuit is on a side in a slot of 1 to 8, and both its ends are in the chain. The chain of a
    /// node that switches one side has the positions from the node to its far end, both included, counted away from the
    /// switched side: eastwards in `SwitchWest`, westwards in `SwitchEast`.
    pub fn may_carry(&self, map: &RingMap, side: Side, slot: Slot, chain: Chain) -> bool
        requires map { self.now.ring ≡ map.now }
        requires slot { (1 ≤ slot.0) × (slot.0 ≤ 8) }
        requires chain { chain.first.0 < length map.now }
        ensures { result ≡ is_carried (length map.now) (circuits_at (length map.now) self.now.circuits self.now.at.0 slot.0 side) chain }
    {
        match self.row(side, slot) {
            Some(row) => map.has(chain, row.from) && map.has(chain, row.to),
            None => false,
        }
    }
}
