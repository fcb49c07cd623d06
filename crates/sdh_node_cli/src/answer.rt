//! What is written for a round.
ghost use Rattle.std.specs.Prelude.{◌≡◌, ◌+◌, ◌*◌, ◌≤◌, ◌++◌, IfOk, IfSome, length};
ghost use Rattle.sdh_circuits.specs.declared.PortId.{PortId};
ghost use Rattle.sdh_terminal.specs.Tributaries.{HasPort};
ghost use Rattle.sdh_report.specs.Written.{with_part};
ghost use Rattle.sdh_report.specs.Written.{room_in};
ghost use Rattle.sdh_aps.specs.Lines.{signal_line};
ghost use Rattle.sdh_aps.specs.Showing.{shown_of};
ghost use Rattle.sdh_node_cli.specs.Records.{IsOwn};
ghost use Rattle.sdh_node_cli.specs.Bench.{text_of, ports_from, bytes_line, frames_if};
ghost use Rattle.sdh_node_cli.specs.Pairs.{frames_of, written};

use crate::pair::{LINES_MAX, Pair};
use crate::record::port_here;
use crate::words::Mode;
use sdh_aps::{shown_of, signal_line};
use sdh_circuits::{Circuit, CircuitMap, PortId};
use sdh_node::{Adm, WhenAsked};
use sdh_report::Text;
use sdh_report::laws::front_line_is_short;
use sdh_ringmap::{Pos, Rate};
use std::alloc::{AllocError, Global};

// Appends the line of the port of a circuit, if it has one at the node.
fn put_port(text: &mut Text, node: &Adm<WhenAsked>, circuit: &Circuit, port: Option<PortId>)
    requires there { IfSome port (HasPort node.now.ports) }
    requires room { 96 ≤ text.old.room }
    ensures bytes { text.new.bytes ≡ text.old.bytes ++ text_of node.now circuit.now.name port }
    ensures room { text.old.room ≤ text.new.room + 96 }
    ensures kept { room_in text.new ≡ room_in text.old }
{
    let Some(port) = port else {
        return;
    };
    let name = circuit.name();
    let front = node.front(port);
    front_line_is_short(name, port.end, &front);
    text.front_line(name, port.end, &front);
}

/// Appends the lines of the ports that are at the node, in the order of the circuits, each at most 96 bytes.
pub fn put_ports(text: &mut Text, node: &Adm<WhenAsked>, at: Pos, circuits: &CircuitMap)
    requires there { (port : PortId) → IsOwn circuits.now.circuits at port → HasPort node.now.ports port }
    requires room { 96 * length circuits.now.circuits ≤ text.old.room }
    ensures bytes { text.new.bytes ≡ text.old.bytes ++ ports_from node.now at 0 circuits.now.circuits }
    ensures room { text.old.room ≤ text.new.room + 96 * length circuits.now.circuits }
    ensures kept { room_in text.new ≡ room_in text.old }
{
    for number in 0..circuits.len() {
        let circuit = circuits.get(number as u8);
        let port = port_here(at, number as u8, circuit);
        put_port(text, node, circuit, port);
    }
}

/// Appends the line of what the node shows after a round.
pub fn put_shown(text: &mut Text, node: &Adm<WhenAsked>, round: u64, id: u8)
    requires room { 128 ≤ text.old.room }
    ensures bytes { text.new.bytes ≡ text.old.bytes ++ signal_line round id (shown_of node.now) }
    ensures room { text.old.room ≤ text.new.room + 128 }
    ensures kept { room_in text.new ≡ room_in text.old }
{
    signal_line(text, round, id, &shown_of(node));
}

// Appends the line that gives the number of bytes that follow.
fn put_count(text: &mut Text, count: usize)
    requires { length (bytes_line count) ≤ text.old.room }
    ensures { text.new ≡ with_part text.old (bytes_line count) }
{
    text.put(b"bytes ");
    text.put_number(count as u64);
    text.put(b"\n");
}

/// Room for the answer to a round: for its lines, and for the frames that leave the node, with the lines in front of
/// them.
#[derive(Drop)]
pub struct Answer {
    pub lines: Text,
    pub frames: Pair,
    pub ghost lines_room: { room_in lines ≡ 12448 },
}

impl Answer {
    /// Returns room for the answers of a node whose frames are of this rate. It takes all its memory here.
    pub fn try_new(alloc: Global, rate: Rate) -> Result<Answer, AllocError>
        ensures { IfOk result (λ answer. answer.frames.rate ≡ rate) }
    {
        let lines = Text::try_new(alloc, LINES_MAX)?;
        let frames = Pair::try_new(alloc, rate)?;
        Ok(Answer { lines, frames })
    }

    /// Ends an answer. Where frames are written, it appends the number of bytes of both to the lines, and puts the lines
    /// in front of the frames.
    #[tactic(auto, unfolding(crate::specs::Bench::frames_text))]
    pub fn close(&mut self, mode: Mode)
        requires { 32 ≤ self.old.lines.room }
        ensures bytes { written mode self.new.lines.bytes self.new.frames ≡ self.old.lines.bytes ++ frames_if mode (frames_of self.old.frames) }
        ensures rate { self.new.frames.rate ≡ self.old.frames.rate }
    {
        match mode {
            Mode::Lines => {}
            Mode::Frames => {
                put_count(&mut self.lines, self.frames.count());
                self.frames.put_lines(self.lines.bytes());
            }
        }
    }

    /// Returns what is written of an answer that was ended.
    pub fn bytes(&self, mode: Mode) -> &[u8]
        ensures { result.now ≡ written mode self.now.lines.bytes self.now.frames }
    {
        match mode {
            Mode::Lines => self.lines.bytes(),
            Mode::Frames => self.frames.bytes(),
        }
    }
}
