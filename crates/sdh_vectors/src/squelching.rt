//! The tables of nodes of a ring of four.
ghost use Rattle.std.specs.Prelude.{◌≡◌, ◌≤◌, ◌<◌, IfSome, length};

use sdh_circuits::{Asked, CircuitMap, Slot};
use sdh_ringmap::{Pos, RingMap, Side};
use sdh_squelch::{Row, Table};
use std::alloc::Global;

// A circuit in slot 1.
fn asked(name: &str, from: i64, to: i64) -> Asked<'_> {
    Asked {
        name,
        from,
        to,
        slot: 1,
        offset_a: 0,
        offset_b: 0,
        text_a: "ABCDEFG",
        text_b: "abcdefg",
        trace_a: "a",
        trace_b: "b",
    }
}

// The table of the second node, with one circuit from node 1 to node 3.
fn table_of_second(alloc: Global, map: &RingMap) -> Option<Table>
    ensures ring { IfSome result (λ table. table.ring ≡ map.now) }
    ensures four { IfSome result (λ table. length table.ring ≡ 4) }
{
    let mut circuits = CircuitMap::new(alloc, 2);
    circuits.add(map, &asked("c1", 1, 3)).ok()?;
    if map.len() != 4 {
        return None;
    }
    Table::try_new(alloc, map, &circuits, Pos(1)).ok()
}

// Whether the rows of slot 1, west and east, have the circuit, and no others have one.
fn has_rows(table: &Table) -> bool {
    let row = Some(Row {
        circuit: 0,
        from: Pos(0),
        to: Pos(2),
    });
    for (i, kept) in table.rows().iter().enumerate() {
        let wanted = if i == 0 || i == 8 { row } else { None };
        if *kept != wanted {
            return false;
        }
    }
    true
}

#[test]
fn the_rows_of_the_second_node(rt: HostRuntime) {
    let map = RingMap::new(&[1, 2, 3, 4]).expect(&rt, "a ring");
    let table = table_of_second(rt.alloc(), &map).expect(&rt, "a table");
    assert!(rt; has_rows(&table));
    assert!(rt; table.circuit(Side::West, Slot(1)) == Some(0));
    assert!(rt; table.circuit(Side::East, Slot(2)).is_none());
    assert!(rt; table.ends(Side::East, Slot(1)) == Some((Pos(0), Pos(2))));
}

// Whether a circuit may be carried over the chain from a position eastwards to the second.
fn carries(map: &RingMap, table: &Table, slot: u8, from: u8) -> bool
    requires map { table.now.ring ≡ map.now }
    requires four { length table.now.ring ≡ 4 }
    requires slot { (1 ≤ slot) × (slot ≤ 8) }
    requires from { from < 4 }
{
    table.may_carry(map, Side::East, Slot(slot), map.chain(Pos(from), Pos(1)))
}

#[test]
fn what_may_be_carried_to_the_second_node(rt: HostRuntime) {
    let map = RingMap::new(&[1, 2, 3, 4]).expect(&rt, "a ring");
    let table = table_of_second(rt.alloc(), &map).expect(&rt, "a table");
    // the whole ring, from the third node eastwards, and the way from it to the first
    assert!(rt; carries(&map, &table, 1, 2));
    assert!(rt; !carries(&map, &table, 1, 3));
    assert!(rt; !carries(&map, &table, 2, 2));
}
