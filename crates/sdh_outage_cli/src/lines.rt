//! The lines of a settle step.
ghost use Rattle.std.specs.Prelude.{◌≡◌, ◌+◌, ◌-◌, ◌*◌, ◌≤◌, ◌<◌, ◌^◌, ◌==◌, if◌then◌else◌, [], ◌++◌, length, slice_get};
ghost use Rattle.std.specs.List.{flat_map};
ghost use Rattle.sdh_outage.specs.Outages.{with_outage};
ghost use Rattle.sdh_outage.specs.Kept.{ports_in};
ghost use Rattle.sdh_outage.specs.Lines.{change_line, more_line, summary_line};
ghost use Rattle.sdh_outage_cli.specs.Lines.{whose_text, told_line, ports_text, outage_changes_text};
ghost use Rattle.sdh_outage_cli.specs.Ports.{both_shown, outages_shown, heard_lines, outage_port_lines, shown_text};
ghost use Rattle.sdh_outage_cli.specs.Running.{MayListOutages, outage_lines_room};

use crate::listing::OutageListing;
use crate::ports::ListenerPair;
use sdh_circuits::{Circuit, CircuitMap, End, PortId};
use sdh_outage::{
    Change, Listener, Outage, Summary, Trace, change_line, more_line, of_nobody, of_port,
    outage_front, summary_line,
};
use sdh_report::Text;
use sdh_ring::Ring;
use sdh_scripts::put_settle;

// Appends the end of a port's line: whose foreign bytes came.
fn put_whose(text: &mut Text, circuits: &CircuitMap, whose: Option<PortId>)
    requires room { 23 ≤ text.old.room }
    ensures bytes { text.new.bytes ≡ text.old.bytes ++ whose_text circuits.now.circuits whose }
    ensures room { text.old.room ≤ text.new.room + 23 }
{
    sdh_outage::laws::line_end_is_short();
    let Some(port) = whose else {
        of_nobody(text);
        return;
    };
    if (port.circuit as usize) < circuits.len() {
        of_port(text, circuits.get(port.circuit).name(), port.end);
    } else {
        of_nobody(text);
    }
}

// Appends the line of a port that had this outage.
fn put_outage(text: &mut Text, circuits: &CircuitMap, named: &Circuit, end: End, outage: &Outage)
    requires room { 250 ≤ text.old.room }
    ensures bytes { text.new.bytes ≡ text.old.bytes
        ++ told_line circuits.now.circuits (record { name = named.now.name; end = end; outage = outage.now }) }
    ensures room { text.old.room ≤ text.new.room + 250 }
{
    sdh_outage::laws::outage_front_is_short(outage);
    outage_front(text, named.name(), end, outage);
    put_whose(text, circuits, outage.whose);
}

// Appends the lines of both ports of a circuit.
fn put_both(text: &mut Text, circuits: &CircuitMap, named: &Circuit, both: &ListenerPair)
    requires room { 500 ≤ text.old.room }
    ensures bytes { text.new.bytes ≡ text.old.bytes ++ flat_map (told_line circuits.now.circuits) (both_shown named.now both.now) }
    ensures room { text.old.room ≤ text.new.room + 500 }
{
    put_outage(text, circuits, named, End::A, &both.a.outage());
    put_outage(text, circuits, named, End::B, &both.b.outage());
}

// Counts both ports of a circuit in the summary.
fn add_both(summary: &mut Summary, both: &ListenerPair)
    requires { ports_in summary.old + 8 < 2 ^ 32 }
    ensures summary { summary.new ≡ with_outage (with_outage summary.old both.now.a.outage) both.now.b.outage }
    ensures few { ports_in summary.new ≤ ports_in summary.old + 8 }
{
    summary.add(&both.a.outage());
    summary.add(&both.b.outage());
}

// Appends what is said of all ports.
fn put_summary(text: &mut Text, summary: &Summary)
    requires { 250 ≤ text.old.room }
    ensures bytes { text.new.bytes ≡ text.old.bytes ++ summary_line summary.now }
    ensures room { text.old.room ≤ text.new.room + 250 }
{
    sdh_outage::laws::summary_line_is_short(summary);
    summary_line(text, summary);
}

// Appends the lines of all ports, and what is said of all of them.
fn put_ports(text: &mut Text, circuits: &CircuitMap, items: &Vec<ListenerPair>)
    requires many { length items.now.items ≡ length circuits.now.circuits }
    requires room { 250 + 500 * length circuits.now.circuits ≤ text.old.room }
    ensures bytes { text.new.bytes ≡ text.old.bytes ++ ports_text circuits.now.circuits (outages_shown circuits.now.circuits items.now.items) }
    ensures room { text.old.room ≤ text.new.room + (250 + 500 * length circuits.now.circuits) }
{
    let mut summary = Summary::new();
    for i in 0..circuits.len() {
        let both = &items[i];
        put_both(text, circuits, circuits.get(i as u8), both);
        add_both(&mut summary, both);
    }
    put_summary(text, &summary);
}

// Appends the line of a change.
fn put_change(text: &mut Text, change: &Change)
    requires room { 250 ≤ text.old.room }
    ensures bytes { text.new.bytes ≡ text.old.bytes ++ change_line change.now }
    ensures room { text.old.room ≤ text.new.room + 250 }
{
    sdh_outage::laws::change_line_is_short(change);
    change_line(text, change);
}

// Appends the line that says how many changes came after those that were listed, where there are any.
fn put_more(text: &mut Text, more: u32)
    requires room { 250 ≤ text.old.room }
    ensures bytes { text.new.bytes ≡ text.old.bytes ++ (if more == 0 then [] else more_line more) }
    ensures room { text.old.room ≤ text.new.room + 250 }
{
    if more > 0 {
        sdh_outage::laws::more_line_is_short(more);
        more_line(text, more);
    }
}

// Appends the lines of changes.
fn put_changes(text: &mut Text, changes: &[Change])
    requires few { length changes.now ≤ 64 }
    requires room { 16000 ≤ text.old.room }
    ensures bytes { text.new.bytes ≡ text.old.bytes ++ flat_map change_line changes.now }
    ensures room { text.old.room ≤ text.new.room + 16000 }
{
    for change in changes {
        put_change(text, change);
    }
}

// Appends the lines of the changes of a port.
fn put_trace(text: &mut Text, trace: &Trace)
    requires room { 16250 ≤ text.old.room }
    ensures bytes { text.new.bytes ≡ text.old.bytes ++ outage_changes_text trace.now.changes (trace.now.count - 64) }
    ensures room { text.old.room ≤ text.new.room + 16250 }
{
    put_changes(text, trace.changes());
    put_more(text, trace.more());
}

// Appends the lines of one port.
fn put_heard(text: &mut Text, circuits: &CircuitMap, named: &Circuit, end: End, listener: &Listener)
    requires room { 16500 ≤ text.old.room }
    ensures bytes { text.new.bytes ≡ text.old.bytes ++ heard_lines circuits.now.circuits named.now.name end listener.now }
    ensures room { text.old.room ≤ text.new.room + 16500 }
{
    put_trace(text, listener.trace());
    put_outage(text, circuits, named, end, &listener.outage());
}

// Appends the lines of the port that is listed.
fn put_listed(text: &mut Text, circuits: &CircuitMap, items: &Vec<ListenerPair>, port: PortId)
    requires many { length items.now.items ≡ length circuits.now.circuits }
    requires port { port.circuit < length circuits.now.circuits }
    requires room { 16500 ≤ text.old.room }
    ensures bytes { text.new.bytes ≡ text.old.bytes
        ++ outage_port_lines circuits.now.circuits (slice_get circuits.now.circuits port.circuit) (slice_get items.now.items port.circuit) port.end }
    ensures room { text.old.room ≤ text.new.room + 16500 }
{
    let named = circuits.get(port.circuit);
    let both = &items[port.circuit as usize];
    put_heard(text, circuits, named, port.end, both.at(port.end));
}

/// Appends what is listed of settle step `number`, by the ring that the step left.
pub fn put_step(
    text: &mut Text,
    ring: &Ring,
    number: u32,
    items: &Vec<ListenerPair>,
    listing: OutageListing,
)
    requires ran { 1 ≤ ring.now.rounds }
    requires many { length items.now.items ≡ length ring.now.circuits.circuits }
    requires listing { MayListOutages (length ring.now.circuits.circuits) listing }
    requires room { outage_lines_room listing (length ring.now.circuits.circuits) ≤ text.old.room }
    ensures bytes { text.new.bytes ≡ text.old.bytes
        ++ shown_text listing number (ring.now.rounds - 1) ring.now.circuits.circuits items.now.items }
    ensures room { text.old.room ≤ text.new.room + outage_lines_room listing (length ring.now.circuits.circuits) }
{
    put_settle(text, number, ring.rounds());
    match listing {
        OutageListing::Ports => put_ports(text, ring.circuits(), items),
        OutageListing::Trace(port) => put_listed(text, ring.circuits(), items, port),
    }
}
