//! The lines of a settle step: its own, and those of the ring's ports.
ghost use Rattle.std.specs.Prelude.{◌≡◌, ◌+◌, ◌-◌, ◌*◌, ◌≤◌, ◌<◌, ◌++◌, length};
ghost use Rattle.std.specs.List.{flat_map};
ghost use Rattle.sdh_circuits.specs.declared.End.TheVariants.{A, B};
ghost use Rattle.sdh_report.specs.Lines.{settle_line};
ghost use Rattle.sdh_report.specs.Reports.{told_line};
ghost use Rattle.sdh_scripts.specs.Ports.{end_outlet, port_line_at, port_lines, lines_room};

use sdh_circuits::{Circuit, CircuitMap, End, PortId};
use sdh_report::{LINE_MAX, Text};
use sdh_rounds::ShowsPorts;

/// Returns the number of bytes that is room enough for the line of a settle step and one of each port.
pub fn lines_room(circuits: &CircuitMap) -> usize
    ensures room { result ≡ lines_room (length circuits.now.circuits) }
    ensures few { result ≤ 65536 }
{
    LINE_MAX + 2 * LINE_MAX * circuits.len()
}

/// Appends the line that ends settle step `number`, after which `rounds` rounds have run in all.
pub fn put_settle(text: &mut Text, number: u32, rounds: u64)
    requires ran { 1 ≤ rounds }
    requires room { 96 ≤ text.old.room }
    ensures bytes { text.new.bytes ≡ text.old.bytes ++ settle_line number (rounds - 1) }
    ensures room { text.old.room ≤ text.new.room + 96 }
{
    text.settle_line(number, rounds - 1);
}

// Appends the line of the port at an end of a circuit.
fn put_port<R: ShowsPorts>(text: &mut Text, ring: &R, circuit: u8, named: &Circuit, end: End)
    requires inside { circuit < length (R.provisioning ring.now).circuits }
    requires room { 96 ≤ text.old.room }
    ensures bytes { text.new.bytes ≡ text.old.bytes
        ++ told_line (port_line_at (end_outlet (R.outlet ring.now)) circuit named.now end) }
    ensures room { text.old.room ≤ text.new.room + 96 }
{
    let port = PortId { circuit, end };
    text.port_line(named.name(), end, ring.port(port), ring.value(port));
}

// Appends the lines of both ports of a circuit.
fn put_circuit<R: ShowsPorts>(text: &mut Text, ring: &R, circuit: u8, named: &Circuit)
    requires inside { circuit < length (R.provisioning ring.now).circuits }
    requires room { 192 ≤ text.old.room }
    ensures bytes { text.new.bytes ≡ text.old.bytes
        ++ (told_line (port_line_at (end_outlet (R.outlet ring.now)) circuit named.now A)
        ++ told_line (port_line_at (end_outlet (R.outlet ring.now)) circuit named.now B)) }
    ensures room { text.old.room ≤ text.new.room + 192 }
{
    put_port(text, ring, circuit, named, End::A);
    put_port(text, ring, circuit, named, End::B);
}

/// Appends a line for each port of a ring, which says what the port delivered in the last round. The lines come in the
/// order of the circuits, a before b, and each is at most 96 bytes long.
pub fn put_ports<R: ShowsPorts>(text: &mut Text, ring: &R)
    requires room { 192 * length (R.provisioning ring.now).circuits ≤ text.old.room }
    ensures bytes { text.new.bytes ≡ text.old.bytes
        ++ flat_map told_line (port_lines (R.outlet ring.now) (R.provisioning ring.now).circuits) }
    ensures room { text.old.room ≤ text.new.room + 192 * length (R.provisioning ring.now).circuits }
{
    let circuits = ring.circuits();
    for i in 0..circuits.len() {
        put_circuit(text, ring, i as u8, circuits.get(i as u8));
    }
}
