//! What is listed of a report.
ghost use Rattle.std.specs.Prelude.{◌≡◌, ◌+◌, ◌-◌, ◌*◌, ◌≤◌, ◌<◌, ◌++◌, false, length};
ghost use Rattle.std.specs.List.{flat_map};
ghost use Rattle.sdh_circuits.specs.declared.End.TheVariants.{A, B};
ghost use Rattle.sdh_kbytes.specs.KBytes.{IsSpellable};
ghost use Rattle.sdh_report.specs.Lines.{node_line, drop_lines, count_line};
ghost use Rattle.sdh_report.specs.Reports.{report_text, delivered_in, chunks_of, chunks_in, silences_in, listed};
ghost use Rattle.sdh_owed.specs.Reports.{nodes_told, told_at, ports_told, report_of};
ghost use Rattle.sdh_node.specs.Rings.Held.{outlet_at};
ghost use Rattle.sdh_cli.specs.Room.{report_room, MayList};

use sdh_circuits::{End, PortId};
use sdh_node::Delivered;
use sdh_report::{Listing, NodeLine, StateWord, Text};
use sdh_ring::Ring;
use sdh_ringmap::{Pos, Side};
use sdh_scripts::{put_ports, put_settle};

// Returns the line of the node at a position.
fn node_told(ring: &Ring, at: u8) -> NodeLine
    requires at { at < length ring.now.ids }
    requires whole { ring.now.broken ≡ false }
    ensures line { result ≡ told_at ring.now at }
    ensures west { IsSpellable result.west }
    ensures east { IsSpellable result.east }
{
    let node = ring.node(Pos(at));
    NodeLine {
        id: ring.map().id(Pos(at)),
        state: StateWord::of(node.state()),
        west: node.sent_k(Side::West),
        east: node.sent_k(Side::East),
    }
}

// Appends the line of the node at a position.
fn put_node(text: &mut Text, ring: &Ring, at: u8)
    requires at { at < length ring.now.ids }
    requires whole { ring.now.broken ≡ false }
    requires room { 96 ≤ text.old.room }
    ensures bytes { text.new.bytes ≡ text.old.bytes ++ node_line (told_at ring.now at) }
    ensures room { text.old.room ≤ text.new.room + 96 }
{
    let line = node_told(ring, at);
    text.node_line(&line);
}

// Appends the lines of all nodes.
fn put_nodes(text: &mut Text, ring: &Ring)
    requires whole { ring.now.broken ≡ false }
    requires room { 96 * length ring.now.ids ≤ text.old.room }
    ensures bytes { text.new.bytes ≡ text.old.bytes ++ flat_map node_line (nodes_told ring.now) }
    ensures room { text.old.room ≤ text.new.room + 96 * length ring.now.ids }
{
    for i in 0..ring.map().len() {
        put_node(text, ring, i as u8);
    }
}

// Appends the whole report.
#[tactic(auto, unfolding(sdh_owed::specs::Reports::report_of))]
fn put_whole(text: &mut Text, ring: &Ring, number: u32)
    requires whole { ring.now.broken ≡ false }
    requires ran { 1 ≤ ring.now.rounds }
    requires room { 96 + 96 * length ring.now.ids + 192 * length ring.now.circuits.circuits ≤ text.old.room }
    ensures bytes { text.new.bytes ≡ text.old.bytes ++ report_text (report_of number ring.now) }
    ensures room { text.old.room ≤ text.new.room + (96 + 96 * length ring.now.ids + 192 * length ring.now.circuits.circuits) }
{
    put_settle(text, number, ring.rounds());
    put_nodes(text, ring);
    put_ports(text, ring);
}

// Appends all that one port delivered.
fn put_delivered(text: &mut Text, ring: &Ring, port: PortId)
    requires inside { port.circuit < length ring.now.circuits.circuits }
    requires room { 4707 ≤ text.old.room }
    ensures bytes { text.new.bytes ≡ text.old.bytes ++ drop_lines (delivered_in (ports_told ring.now) port) }
    ensures room { text.old.room ≤ text.new.room + 4707 }
{
    text.drop_lines(ring.port(port));
}

// Returns 1 for a port that delivered a chunk, which is a round's bytes of a customer, and 0 for one that delivered
// AIS.
fn chunks_of(ring: &Ring, circuit: u8, end: End) -> u32
    requires inside { circuit < length ring.now.circuits.circuits }
    ensures chunks { result ≡ chunks_of (outlet_at ring.now (record { circuit = circuit; end = end })).delivered }
    ensures few { result ≤ 1 }
{
    match ring.port(PortId { circuit, end }) {
        Delivered::Ais => 0,
        Delivered::Chunk(_) => 1,
    }
}

// Returns how many ports of a circuit delivered a chunk.
fn chunks_at(ring: &Ring, circuit: u8) -> u32
    requires inside { circuit < length ring.now.circuits.circuits }
    ensures chunks { result ≡ chunks_of (outlet_at ring.now (record { circuit = circuit; end = A })).delivered + chunks_of
        (outlet_at ring.now (record { circuit = circuit; end = B })).delivered }
    ensures few { result ≤ 2 }
{
    chunks_of(ring, circuit, End::A) + chunks_of(ring, circuit, End::B)
}

// Returns how many ports delivered a chunk.
fn chunks_in(ring: &Ring) -> u32
    requires whole { ring.now.broken ≡ false }
    ensures { result ≡ chunks_in (ports_told ring.now) }
{
    let mut count = 0;
    let circuits = ring.circuits();
    for i in 0..circuits.len() {
        count += chunks_at(ring, i as u8);
    }
    count
}

// Returns how many ports there are.
fn ports_of(ring: &Ring) -> u32
    requires whole { ring.now.broken ≡ false }
    ensures count { result ≡ 2 * length ring.now.circuits.circuits }
    ensures few { result ≤ 256 }
{
    2 * ring.circuits().len() as u32
}

// Appends how many ports delivered a chunk, and how many AIS.
fn put_counts(text: &mut Text, ring: &Ring, number: u32)
    requires whole { ring.now.broken ≡ false }
    requires ran { 1 ≤ ring.now.rounds }
    requires room { 96 ≤ text.old.room }
    ensures bytes { text.new.bytes ≡ text.old.bytes
        ++ count_line number (ring.now.rounds - 1) (chunks_in (ports_told ring.now)) (silences_in (ports_told ring.now)) }
    ensures room { text.old.room ≤ text.new.room + 96 }
{
    let chunks = chunks_in(ring);
    text.count_line(number, ring.rounds() - 1, chunks, ports_of(ring) - chunks);
}

/// Appends what is listed of the report of settle step `number`, counted from 1.
#[tactic(auto, unfolding(sdh_owed::specs::Reports::report_of))]
pub fn put_report(text: &mut Text, ring: &Ring, number: u32, listing: Listing)
    requires whole { ring.now.broken ≡ false }
    requires ran { 1 ≤ ring.now.rounds }
    requires listing { MayList (length ring.now.circuits.circuits) listing }
    requires room { report_room listing (length ring.now.ids) (length ring.now.circuits.circuits) ≤ text.old.room }
    ensures bytes { text.new.bytes ≡ text.old.bytes ++ listed listing (report_of number ring.now) }
    ensures room { text.old.room ≤ text.new.room + report_room listing (length ring.now.ids) (length ring.now.circuits.circuits) }
{
    match listing {
        Listing::Reports => put_whole(text, ring, number),
        Listing::Port(port) => put_delivered(text, ring, port),
        Listing::Counts => put_counts(text, ring, number),
    }
}
