//! The lines of the program's texts. Each method appends one, or a part of one.
ghost use Rattle.std.specs.Prelude.{◌≡◌, ◌+◌, ◌*◌, ◌≤◌, ◌<◌, length, take, drop};
ghost use Rattle.sdh_kbytes.specs.KBytes.{IsSpellable};
ghost use Rattle.sdh_report.specs.Written.{with_part};
ghost use Rattle.sdh_report.specs.Lines.{own_line, step_ended, settle_line, end_letter, side_text, word_text, node_line, port_named};
ghost use Rattle.sdh_report.specs.Lines.{chunk_line, ais_line, port_line, front_line, row, row_line, drop_lines, table_place};
ghost use Rattle.sdh_report.specs.Lines.{table_ends, table_line, count_line};
ghost use Rattle.sdh_report.specs.Statuses.{last_line};

use crate::node_line::NodeLine;
use crate::text::Text;
use crate::usage_line::usage;
use sdh_circuits::{End, Name, Slot};
use sdh_kbytes::{K, encode};
use sdh_payload::{Delivered, Front};
use sdh_ringmap::Side;
use sdh_status::Status;

// Returns the first 16 bytes, or all where there are fewer.
fn first_bytes(chunk: &[u8]) -> &[u8]
    ensures { result.now ≡ take 16 chunk.now }
{
    &chunk[..chunk.len().min(16)]
}

// Returns the bytes from a place on, which are none where the place is past the end.
fn bytes_from(chunk: &[u8], at: usize) -> &[u8]
    ensures { result.now ≡ drop at chunk.now }
{
    &chunk[chunk.len().min(at)..]
}

// Returns the first 261 bytes, or all where there are fewer.
fn one_row(bytes: &[u8]) -> &[u8]
    ensures { result.now ≡ take 261 bytes.now }
{
    &bytes[..bytes.len().min(261)]
}

// Returns the bytes of a chunk in one of its nine rows.
fn row_of(chunk: &[u8], at: usize) -> &[u8]
    requires { at < 9 }
    ensures { result.now ≡ row chunk.now at }
{
    one_row(bytes_from(chunk, 261 * at))
}

// Lines of a run.
impl Text {
    /// Appends a line of the caller's own, and a newline byte.
    pub fn own_line(&mut self, line: &[u8])
        requires { length line.now + 1 ≤ self.old.room }
        ensures { self.new ≡ with_part self.old (own_line line.now) }
    {
        self.put(line);
        self.put(b"\n");
    }

    // Appends the beginning of the lines of a settle step: its number and its last round, with no newline byte.
    fn put_step(&mut self, number: u32, round: u64)
        requires { length (step_ended number round) ≤ self.old.room }
        ensures { self.new ≡ with_part self.old (step_ended number round) }
    {
        self.put(b"settle ");
        self.put_number(u64::from(number));
        self.put(b" round ");
        self.put_number(round);
    }

    /// Appends the line of the end of a settle step: its number, counted from 1, and its last round.
    pub fn settle_line(&mut self, number: u32, round: u64)
        requires { length (settle_line number round) ≤ self.old.room }
        ensures { self.new ≡ with_part self.old (settle_line number round) }
    {
        self.put_step(number, round);
        self.put(b"\n");
    }

    /// Appends the bytes K1 and K2 of a K word, two hexadecimal digits each.
    pub fn put_word(&mut self, word: K)
        requires room { 5 ≤ self.old.room }
        requires to { word.to ≤ 15 }
        requires from { word.from ≤ 15 }
        ensures { self.new ≡ with_part self.old (word_text word) }
    {
        let (first, second) = encode(word);
        self.put_hex(&[first]);
        self.put(b" ");
        self.put_hex(&[second]);
    }

    /// Appends the line of a node.
    pub fn node_line(&mut self, line: &NodeLine)
        requires room { length (node_line line.now) ≤ self.old.room }
        requires west { IsSpellable line.now.west }
        requires east { IsSpellable line.now.east }
        ensures { self.new ≡ with_part self.old (node_line line.now) }
    {
        self.put(b"node ");
        self.put_number(u64::from(line.id));
        self.put(b" ");
        self.put(line.state.letters());
        self.put(b" west ");
        self.put_word(line.west);
        self.put(b" east ");
        self.put_word(line.east);
        self.put(b"\n");
    }

    /// Appends the letter of a port: `a` where its circuit's arc starts, `b` where it ends.
    pub fn put_end(&mut self, end: End)
        requires { 1 ≤ self.old.room }
        ensures { self.new ≡ with_part self.old (end_letter end) }
    {
        match end {
            End::A => self.put(b"a"),
            End::B => self.put(b"b"),
        }
    }

    /// Appends the beginning of each line of a port: the word `port`, the circuit's name and the port's letter, with no
    /// space after them.
    pub fn put_port(&mut self, name: &Name, end: End)
        requires { length (port_named name.now end) ≤ self.old.room }
        ensures { self.new ≡ with_part self.old (port_named name.now end) }
    {
        self.put(b"port ");
        self.put(name.as_slice());
        self.put(b" ");
        self.put_end(end);
    }

    // Appends the line of a port that delivers AIS.
    fn ais_line(&mut self, name: &Name, end: End)
        requires { length (ais_line name.now end) ≤ self.old.room }
        ensures { self.new ≡ with_part self.old (ais_line name.now end) }
    {
        self.put_port(name, end);
        self.put(b" ais\n");
    }

    // Appends the line of a port that delivers a chunk.
    fn chunk_line(&mut self, name: &Name, end: End, value: u16, chunk: &[u8])
        requires { length (chunk_line name.now end value chunk.now) ≤ self.old.room }
        ensures { self.new ≡ with_part self.old (chunk_line name.now end value chunk.now) }
    {
        self.put_port(name, end);
        self.put(b" norm ");
        self.put_number(u64::from(value));
        self.put(b" ");
        self.put_hex(first_bytes(chunk));
        self.put(b"\n");
    }

    /// Appends the line of a port. For a chunk the line has the pointer value that the chunk came with, `offset`, and
    /// the first 16 bytes of the chunk, or all where there are fewer. For AIS `offset` isn't used.
    pub fn port_line(&mut self, name: &Name, end: End, delivered: &Delivered, offset: u16)
        requires { length (port_line name.now end delivered.now offset) ≤ self.old.room }
        ensures { self.new ≡ with_part self.old (port_line name.now end delivered.now offset) }
    {
        match delivered {
            Delivered::Ais => self.ais_line(name, end),
            Delivered::Chunk(chunk) => self.chunk_line(name, end, offset, chunk.as_slice()),
        }
    }

    /// Appends the line of a port, by the front of what it delivers. It is the line that `port_line` appends for all
    /// that the port delivers.
    pub fn front_line(&mut self, name: &Name, end: End, front: &Front)
        requires { length (front_line name.now end front.now) ≤ self.old.room }
        ensures { self.new ≡ with_part self.old (front_line name.now end front.now) }
    {
        match front {
            Front::Ais => self.ais_line(name, end),
            Front::Bytes(bytes, value) => self.chunk_line(name, end, *value, bytes),
        }
    }
}

// Lines of one port, of a squelch table, of counts, and the last one.
impl Text {
    // Appends the line of a row of bytes, or nothing where the row is empty.
    fn put_row(&mut self, bytes: &[u8])
        requires { length (row_line bytes.now) ≤ self.old.room }
        ensures { self.new ≡ with_part self.old (row_line bytes.now) }
    {
        if bytes.is_empty() {
            return;
        }
        self.put_hex(bytes);
        self.put(b"\n");
    }

    // Appends the rows of a chunk, one line each.
    fn put_rows(&mut self, chunk: &[u8])
        requires { length (drop_lines (Delivered.Chunk chunk.now)) ≤ self.old.room }
        ensures { self.new ≡ with_part self.old (drop_lines (Delivered.Chunk chunk.now)) }
    {
        for at in 0..9 {
            self.put_row(row_of(chunk, at));
        }
    }

    /// Appends all that a port delivers: the nine rows of a chunk of 2349 bytes, one line each, or the line of AIS. Of
    /// a chunk of another length it appends the first 2349 bytes, or all where there are fewer. The last line may then
    /// be shorter.
    pub fn drop_lines(&mut self, delivered: &Delivered)
        requires { length (drop_lines delivered.now) ≤ self.old.room }
        ensures { self.new ≡ with_part self.old (drop_lines delivered.now) }
    {
        match delivered {
            Delivered::Ais => self.put(b"ais\n"),
            Delivered::Chunk(chunk) => self.put_rows(chunk.as_slice()),
        }
    }

    // Appends the name of a side, `west` or `east`.
    fn put_side(&mut self, side: Side)
        requires { 4 ≤ self.old.room }
        ensures { self.new ≡ with_part self.old (side_text side) }
    {
        match side {
            Side::West => self.put(b"west"),
            Side::East => self.put(b"east"),
        }
    }

    // Appends the beginning of a line of a squelch table: the node, the side and the slot.
    fn put_place(&mut self, id: u8, side: Side, slot: Slot)
        requires { length (table_place id side slot) ≤ self.old.room }
        ensures { self.new ≡ with_part self.old (table_place id side slot) }
    {
        self.put(b"node ");
        self.put_number(u64::from(id));
        self.put(b" ");
        self.put_side(side);
        self.put(b" slot ");
        self.put_number(u64::from(slot.0));
    }

    // Appends the end of a line of a squelch table: the identifiers of the nodes at the circuit's ends.
    fn put_ends(&mut self, from: u8, to: u8)
        requires { length (table_ends from to) ≤ self.old.room }
        ensures { self.new ≡ with_part self.old (table_ends from to) }
    {
        self.put(b" ");
        self.put_number(u64::from(from));
        self.put(b" ");
        self.put_number(u64::from(to));
        self.put(b"\n");
    }

    /// Appends the line of a circuit in a squelch table: the node, its side and slot, the circuit's name, and the
    /// identifiers of the nodes at the circuit's ends.
    pub fn table_line(&mut self, id: u8, side: Side, slot: Slot, name: &Name, from: u8, to: u8)
        requires { length (table_line id side slot name.now from to) ≤ self.old.room }
        ensures { self.new ≡ with_part self.old (table_line id side slot name.now from to) }
    {
        self.put_place(id, side, slot);
        self.put(b" ");
        self.put(name.as_slice());
        self.put_ends(from, to);
    }

    /// Appends the line of the end of a settle step with counts: its number, its last round, the number of ports that
    /// delivered a chunk, and the number of those that delivered AIS.
    pub fn count_line(&mut self, number: u32, round: u64, norm: u32, ais: u32)
        requires { length (count_line number round norm ais) ≤ self.old.room }
        ensures { self.new ≡ with_part self.old (count_line number round norm ais) }
    {
        self.put_step(number, round);
        self.put(b" norm ");
        self.put_number(u64::from(norm));
        self.put(b" ais ");
        self.put_number(u64::from(ais));
        self.put(b"\n");
    }

    // Appends the last line of a text about a plan that fails a check.
    fn bad_plan_line(&mut self, reason: u8, place: u32)
        requires { length (last_line (Status.BadPlan reason place)) ≤ self.old.room }
        ensures { self.new ≡ with_part self.old (last_line (Status.BadPlan reason place)) }
    {
        self.put(b"bad plan ");
        self.put_number(u64::from(reason));
        self.put(b" at ");
        self.put_number(u64::from(place));
        self.put(b"\n");
    }

    // Appends the last line of a text after a settle step without a quiet window.
    fn unsettled_line(&mut self, number: u32)
        requires { length (last_line (Status.Unsettled number)) ≤ self.old.room }
        ensures { self.new ≡ with_part self.old (last_line (Status.Unsettled number)) }
    {
        self.put(b"unsettled ");
        self.put_number(u64::from(number));
        self.put(b"\n");
    }

    /// Appends the last line of a text, by how the program ends. Nothing is appended after a write fault and where
    /// memory ran out. After wrong words it is the line of `sdhring`; other programs have lines of their own for those.
    pub fn last_line(&mut self, status: &Status)
        requires { length (last_line status.now) ≤ self.old.room }
        ensures { self.new ≡ with_part self.old (last_line status.now) }
    {
        match *status {
            Status::Ok => self.own_line(b"done"),
            Status::Usage => self.own_line(usage()),
            Status::ReadFault => self.own_line(b"read fault"),
            Status::NotToml => self.own_line(b"not toml"),
            Status::BadPlan { reason, place } => self.bad_plan_line(reason, place),
            Status::Unsettled(number) => self.unsettled_line(number),
            Status::PlantFault => self.own_line(b"plant fault"),
            Status::TooLong => self.own_line(b"too long"),
            Status::NoSuchPort => self.own_line(b"no such port"),
            Status::WriteFault | Status::Memory => (),
        }
    }
}
