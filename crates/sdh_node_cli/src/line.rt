//! Reading the line of a record in few calls of the source.
ghost use Rattle.std.specs.Prelude.{◌≡◌, ◌+◌, ◌<◌, ◌≤◌, ◌⊎◌, ◌++◌, ℕ, List, [], Option, None, Ok, Err, IsTrue, IfOk, IfErr, IfSome, OnErr, length, slice_get, take, drop, position, ◌==◌};
ghost use Rattle.std.specs.Io.KnownBytes.{Consumes, Keeps};
ghost use Rattle.sdh_basics.specs.Causes.{HasCause};
ghost use Rattle.sdh_ringmap.specs.declared.Pos.{Pos};
ghost use Rattle.sdh_circuits.specs.Provisioned.{Provisioned};
ghost use Rattle.sdh_report.specs.Written.{with_part};
ghost use Rattle.sdh_node_cli.specs.Lines.{IsOneLine, whole_line};
ghost use Rattle.sdh_report.specs.Written.{room_in};
ghost use Rattle.sdh_node_cli.specs.Faults.{CountsFault};
ghost use Rattle.sdh_node_cli.specs.Bench.{Bench};
ghost use Rattle.sdh_node_cli.specs.Streams.{MayRead};
ghost use Rattle.sdh_node_cli.specs.Turns.{TakesMore, TakesRecord, ReadsLine, Halts};

use crate::ending::Flaw;
use crate::stop::Stop;
use sdh_outside::{Failed, Source};
use sdh_report::Text;

/// The most bytes that are asked for at once.
const ASKED_MAX: usize = 18;

/// Why no more of a line was read.
#[derive(Clone, Copy)]
enum LineEnd {
    /// It is whole, and its newline byte was taken, with this byte after it or none.
    Whole(Option<u8>),
    /// The source has ended.
    Ended,
    /// There is no room for more.
    Full,
}

/// What one read of a line took.
#[derive(Clone, Copy)]
enum Got {
    /// A part of it, without its newline byte.
    Part,
    /// The rest of it, with its newline byte. This is the first byte after that, if there is one.
    Rest(Option<u8>),
    /// Nothing: the source has ended.
    End,
}

// Returns whether bytes begin with these.
fn begins_with(bytes: &[u8], word: &[u8]) -> bool
    ensures { IsTrue result → bytes.now ≡ word.now ++ drop (length word.now) bytes.now }
{
    bytes.len() >= word.len() && &bytes[..word.len()] == word
}

// Returns how many bytes may be read once these bytes of a line have come: no more than each record has that begins so,
// of the line with its newline byte, and of a frame from the west, where one follows, the first byte.
fn fewest(front: &[u8]) -> usize
    ensures may { (circuits : List Provisioned) (at : Pos) → MayRead circuits at front.now result }
    ensures few { result ≤ 18 }
{
    if begins_with(front, b"round f") {
        18
    } else if begins_with(front, b"r") {
        16
    } else {
        7
    }
}

// Returns the number of bytes to ask for once these bytes of a line have come: the number that every record whose line
// begins with them still lacks, and at least 1.
fn asked_for(front: &[u8]) -> usize
    ensures some { 1 ≤ result }
    ensures few { result + length front.now ≤ 18 ⊎ (result ≡ 1) }
    ensures lacking { ((circuits : List Provisioned) (at : Pos) → MayRead circuits at front.now (result + length front.now)) ⊎ (result ≡ 1) }
{
    let fewest = fewest(front);
    if front.len() < fewest {
        fewest - front.len()
    } else {
        1
    }
}

// Returns the place of the first newline byte.
fn newline_in(bytes: &[u8]) -> Option<usize>
    ensures place { result ≡ position (λ byte. byte == 10) bytes.now }
    ensures within { IfSome result (λ at. at < length bytes.now) }
{
    bytes.iter().position(|byte| *byte == b'\n')
}

// Returns the first of these bytes, if there is one.
fn first_of(bytes: &[u8]) -> Option<u8>
    ensures { result ≡ slice_get bytes.now 0 }
{
    bytes.first().copied()
}

// Appends bytes to a line, up to the first newline byte among them or all of them. Returns the place of the newline
// byte, if there is one.
fn put_front(line: &mut Text, bytes: &[u8]) -> Option<usize>
    requires { length bytes.now ≤ line.old.room }
    ensures rest { IfSome result (λ at. (bytes.now ≡ whole_line (take at bytes.now) ++ drop (at + 1) bytes.now) × IsOneLine (take at bytes.now)
        × (line.new ≡ with_part line.old (take at bytes.now))) }
    ensures within { IfSome result (λ at. at < length bytes.now) }
    ensures part { result ≡ None → IsOneLine bytes.now × (line.new ≡ with_part line.old bytes.now) }
{
    match newline_in(bytes) {
        Some(at) => {
            line.put(&bytes[..at]);
            Some(at)
        }
        None => {
            line.put(bytes);
            None
        }
    }
}

// Reads more of a line in one call of the source: the number of bytes that `asked_for` gives, or fewer.
fn read_more<R: Source>(source: &mut R, line: &mut Text) -> Result<Got, Failed>
    requires some { 1 ≤ line.old.room }
    requires room { room_in line.old ≡ 65 }
    ensures took { IfOk result (TakesMore (R.left source.old) (R.left source.new) line.old.bytes line.new.bytes) }
    ensures failed { OnErr result (Keeps (R.left source.old) (R.left source.new) × (line.new ≡ line.old)) }
    ensures room { room_in line.new ≡ 65 }
    ensures rest { IfOk result (λ got. (first : Option ℕ) → got ≡ Got.Rest first → 1 ≤ line.new.room) }
    ensures cause { HasCause R.exact (R.faults source.old) (R.faults source.new) result }
{
    let mut bytes = [0u8; ASKED_MAX];
    let count = source.read(&mut bytes[..asked_for(line.bytes())])?;
    if count == 0 {
        return Ok(Got::End);
    }
    let taken = &bytes[..count];
    match put_front(line, taken) {
        Some(at) => Ok(Got::Rest(first_of(&taken[at + 1..]))),
        None => Ok(Got::Part),
    }
}

// Reads the line of a record into an empty text, without its newline byte.
fn read_line<R: Source>(source: &mut R, line: &mut Text) -> Result<LineEnd, Failed>
    requires empty { line.old.bytes ≡ [] }
    requires room { room_in line.old ≡ 65 }
    ensures line { IfOk result (TakesRecord (R.left source.old) (R.left source.new) line.new.bytes) }
    ensures part { OnErr result (IsOneLine line.new.bytes × Consumes (R.left source.old) (R.left source.new) line.new.bytes) }
    ensures room { room_in line.new ≡ 65 }
    ensures full { result ≡ Ok LineEnd.Full → line.new.room ≡ 0 }
    ensures whole { IfOk result (λ end. (first : Option ℕ) → end ≡ LineEnd.Whole first → 1 ≤ line.new.room) }
    ensures ended { result ≡ Ok LineEnd.Ended → 1 ≤ line.new.room }
    ensures failed { OnErr result (1 ≤ line.new.room) }
    ensures cause { HasCause R.exact (R.faults source.old) (R.faults source.new) result }
{
    while line.room() > 0 {
        match read_more(source, line)? {
            Got::Part => {}
            Got::Rest(first) => return Ok(LineEnd::Whole(first)),
            Got::End => return Ok(LineEnd::Ended),
        }
    }
    Ok(LineEnd::Full)
}

/// Reads the line of the next record into an empty text, without its newline byte. Returns the first byte that was read
/// after its newline byte, if one was. Where the line is that of a record, no other byte was read after it, and this
/// one only where a frame from the west follows.
pub fn next_line<R: Source>(source: &mut R, line: &mut Text) -> Result<Option<u8>, Stop>
    requires empty { line.old.bytes ≡ [] }
    requires room { room_in line.old ≡ 65 }
    ensures line { IfOk result (λ first. ReadsLine line.new.bytes first (R.left source.old) (R.left source.new)) }
    ensures stop { IfErr result (λ why. (b : Bench) → Halts b why (R.left source.old) (R.left source.new)) }
    ensures room { room_in line.new ≡ 65 }
    ensures reads { CountsFault R.exact (R.faults source.old) (R.faults source.new) (result ≡ Err Stop.ReadFault) }
{
    match read_line(source, line) {
        Ok(LineEnd::Whole(first)) => Ok(first),
        Ok(LineEnd::Full) => Err(Stop::Bad(Flaw::Long)),
        Ok(LineEnd::Ended) if line.bytes().is_empty() => Err(Stop::Done),
        Ok(LineEnd::Ended) => Err(Stop::Bad(Flaw::Cut)),
        Err(_) => Err(Stop::ReadFault),
    }
}
