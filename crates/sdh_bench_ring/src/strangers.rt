//! An episode, for `bench/strangers`: a ring to which things happen between any rounds, and what each port delivers in
//! each round.
ghost use Rattle.std.specs.Prelude.{◌≡◌, ◌≤◌, ◌<◌, ◌/◌, ℕ, IfOk, false, length};
ghost use Rattle.sdh_ringmap.specs.Rates.{n_of};
ghost use Rattle.sdh_circuits.specs.Kept.{KeepsRing};
ghost use Rattle.sdh_plant.specs.Fibres.{HasNoFibres, IsPrepared};

use crate::{made, run};
use sdh_circuits::{Asked, CircuitMap, End, PortId};
use sdh_node::{Delivered, Settings, Turn};
use sdh_plant::{FibrePlant, Plant};
use sdh_request::{Command, Moment};
use sdh_ring::Ring;
use sdh_ringmap::{Condition, FibreEvent, Pos, Rate, RingMap, Side};
use std::alloc::{AllocError, Global};

/// The size of what is written of a port in a round: in two bytes, how many bytes the port delivered, and then those
/// bytes, at most 2352. Nothing is written where it delivers AIS.
const PORT_SIZE: usize = 2354;

/// The most ports of which it is written what they deliver.
const PORTS: usize = 32;

// Returns the byte at a place, and 0 after the last byte.
fn byte_at(bytes: &[u8], at: usize) -> u8 {
    match bytes.get(at) {
        Some(byte) => *byte,
        None => 0,
    }
}

// Returns the letter of a port, and no letter after the last one.
fn letter_at(letters: &str, port: usize) -> &str
    requires { port ≤ 1000 }
{
    match letters.get(port..port + 1) {
        Some(letter) => letter,
        None => "",
    }
}

// Returns the circuits that are asked for, in three bytes each: the node from which the circuit leads eastwards, the
// node to which it leads, and its slot. Each end has one letter as its text, and end A's letter is the circuit's name.
fn asked_for(
    alloc: Global,
    map: &RingMap,
    wishes: &[u8],
    letters: &str,
) -> Result<CircuitMap, AllocError>
    ensures slots { IfOk result (λ circuits. circuits.slots ≡ n_of Rate.Four / 2) }
    ensures kept { IfOk result (λ circuits. KeepsRing circuits map.now) }
{
    let mut circuits = CircuitMap::new(alloc, 2);
    let count = (wishes.len() / 3).min(PORTS / 2);
    'wishes: for number in 0..count {
        let asked = Asked {
            name: letter_at(letters, 2 * number),
            from: i64::from(byte_at(wishes, 3 * number)),
            to: i64::from(byte_at(wishes, 3 * number + 1)),
            slot: i64::from(byte_at(wishes, 3 * number + 2)),
            offset_a: 0,
            offset_b: 0,
            text_a: letter_at(letters, 2 * number),
            text_b: letter_at(letters, 2 * number + 1),
            trace_a: "A",
            trace_b: "B",
        };
        circuits.add(map, &asked).map_err(|_| AllocError)?;
    }
    Ok(circuits)
}

// Returns the ring, with the plant prepared for it. A refusal is returned as `AllocError`, too.
fn laid<P: Plant>(
    alloc: Global,
    plant: &mut P,
    wait: u32,
    ids: &[i64],
    wishes: &[u8],
    letters: &str,
) -> Result<Ring, AllocError>
    requires plant { HasNoFibres (P.fibres plant.old) }
    ensures prepared { IfOk result (λ ring. IsPrepared ring.settings.rate (length ring.ids) (P.fibres plant.new)) }
    ensures whole { IfOk result (λ ring. ring.broken ≡ false) }
    ensures moment { IfOk result (λ ring. ring.moment ≡ 0) }
{
    let map = RingMap::new(ids).map_err(|_| AllocError)?;
    let circuits = asked_for(alloc, &map, wishes, letters)?;
    let settings = Settings {
        rate: Rate::Four,
        threshold: 3,
        wait,
    };
    made(alloc, plant, settings, map, circuits)
}

// What happens: a round (`kind` 0), or a change between rounds. A change has the kind 1 for a fibre, 2 for a command, 3
// for slips, 4 for a hold and 5 for the moment, the place where it happens, and a number `count`.
#[derive(Clone, Copy)]
struct Event {
    kind: u8,
    at: u8,
    side: Side,
    count: u8,
}

// Returns event number `number`; each event has four bytes.
fn event_at(events: &[u8], number: usize) -> Event
    requires { number ≤ 100000 }
{
    let side = if byte_at(events, 4 * number + 2).is_multiple_of(2) {
        Side::West
    } else {
        Side::East
    };
    Event {
        kind: byte_at(events, 4 * number),
        at: byte_at(events, 4 * number + 1),
        side,
        count: byte_at(events, 4 * number + 3),
    }
}

// Gives a condition to the fibre that leaves a node on a side: clear for 0, degraded by 1 to 12 bytes, or cut for a
// larger number.
fn bring<P: Plant>(ring: &Ring, plant: &mut P, event: Event)
    requires prepared { IsPrepared ring.now.settings.rate (length ring.now.ids) (P.fibres plant.old) }
    ensures prepared { IsPrepared ring.now.settings.rate (length ring.now.ids) (P.fibres plant.new) }
{
    let condition = match event.count {
        0 => Condition::Clear,
        count if count <= 12 => Condition::Degraded(u16::from(count)),
        _ => Condition::Cut,
    };
    if (event.at as usize) < ring.map().len() {
        let _ = plant.apply(FibreEvent {
            at: Pos(event.at),
            side: event.side,
            condition,
        });
    }
}

// Gives a command to a side of a node.
fn order(ring: &mut Ring, event: Event)
    ensures prepared { (n : ℕ) (f : _) → IsPrepared ring.old.settings.rate n f → IsPrepared ring.new.settings.rate n f }
    ensures ids { ring.new.ids ≡ ring.old.ids }
    ensures whole { ring.new.broken ≡ ring.old.broken }
    ensures moment { ring.new.moment ≡ ring.old.moment }
{
    let command = match event.count % 3 {
        0 => Command::Clear,
        1 => Command::Forced,
        _ => Command::Manual,
    };
    if (event.at as usize) < ring.map().len() {
        ring.command(Pos(event.at), event.side, command);
    }
}

// Adds four pending slips at a port of a circuit, where at most 12 wait.
fn slip(ring: &mut Ring, event: Event)
    ensures prepared { (n : ℕ) (f : _) → IsPrepared ring.old.settings.rate n f → IsPrepared ring.new.settings.rate n f }
    ensures ids { ring.new.ids ≡ ring.old.ids }
    ensures whole { ring.new.broken ≡ ring.old.broken }
    ensures moment { ring.new.moment ≡ ring.old.moment }
{
    let end = match event.side {
        Side::West => End::A,
        Side::East => End::B,
    };
    let turn = if event.count.is_multiple_of(2) {
        Turn::Up
    } else {
        Turn::Down
    };
    let port = PortId {
        circuit: event.at,
        end,
    };
    if (event.at as usize) < ring.circuits().len() && ring.waiting(port) <= 12 {
        ring.slip(port, turn, 4);
    }
}

// Holds the controller of a node for 1 to 100 rounds. Another number does nothing.
fn hold(ring: &mut Ring, event: Event)
    ensures prepared { (n : ℕ) (f : _) → IsPrepared ring.old.settings.rate n f → IsPrepared ring.new.settings.rate n f }
    ensures ids { ring.new.ids ≡ ring.old.ids }
    ensures whole { ring.new.broken ≡ ring.old.broken }
    ensures moment { ring.new.moment ≡ ring.old.moment }
{
    if (event.at as usize) < ring.map().len() && event.count >= 1 && event.count <= 100 {
        ring.hold(Pos(event.at), u32::from(event.count));
    }
}

// Moves the present moment on by a number, unless it is above 1,000,000. Returns the moment.
fn tell(ring: &mut Ring, moment: u64, event: Event) -> u64
    requires moment { ring.old.moment ≡ moment }
    ensures moment { ring.new.moment ≡ result }
    ensures prepared { (n : ℕ) (f : _) → IsPrepared ring.old.settings.rate n f → IsPrepared ring.new.settings.rate n f }
    ensures ids { ring.new.ids ≡ ring.old.ids }
    ensures whole { ring.new.broken ≡ ring.old.broken }
{
    if moment > 1_000_000 {
        return moment;
    }
    let now = moment + u64::from(event.count);
    ring.moment(Moment(now));
    now
}

// Makes a change between rounds, and returns the moment after it.
fn happens<P: Plant>(ring: &mut Ring, plant: &mut P, moment: u64, event: Event) -> u64
    requires prepared { IsPrepared ring.old.settings.rate (length ring.old.ids) (P.fibres plant.old) }
    requires whole { ring.old.broken ≡ false }
    requires moment { ring.old.moment ≡ moment }
    ensures prepared { IsPrepared ring.new.settings.rate (length ring.new.ids) (P.fibres plant.new) }
    ensures whole { ring.new.broken ≡ false }
    ensures moment { ring.new.moment ≡ result }
{
    match event.kind {
        1 => bring(ring, plant, event),
        2 => order(ring, event),
        3 => slip(ring, event),
        4 => hold(ring, event),
        5 => return tell(ring, moment, event),
        _ => {}
    }
    moment
}

// Writes how many bytes a port delivered in the last round, and those bytes. Writes nothing where it delivered AIS.
fn write_port(ring: &Ring, port: PortId, place: &mut [u8])
    requires { port.circuit < length ring.now.circuits.circuits }
{
    if let Delivered::Chunk(cells) = ring.port(port) {
        let bytes = cells.as_slice();
        let size = (bytes.len() as u16).to_be_bytes();
        if let Some(front) = place.get_mut(0..2) {
            front.copy_from_slice(&size);
        }
        if let Some(rest) = place.get_mut(2..2 + bytes.len()) {
            rest.copy_from_slice(bytes);
        }
    }
}

// Writes what every port delivered in the last round.
fn write_ports(ring: &Ring, place: &mut [u8]) {
    let circuits = ring.circuits().len().min(PORTS / 2);
    'circuits: for circuit in 0..circuits {
        for (number, end) in [End::A, End::B].into_iter().enumerate() {
            let at = (2 * circuit + number) * PORT_SIZE;
            if let Some(place) = place.get_mut(at..at + PORT_SIZE) {
                write_port(
                    ring,
                    PortId {
                        circuit: circuit as u8,
                        end,
                    },
                    place,
                );
            }
        }
    }
}

// Runs all events, and writes what the ports deliver in each round. Returns the number of rounds that ran.
fn episode<P: Plant>(
    ring: &mut Ring,
    plant: &mut P,
    events: &[u8],
    out: &mut [u8],
) -> Result<u32, AllocError>
    requires prepared { IsPrepared ring.old.settings.rate (length ring.old.ids) (P.fibres plant.old) }
    requires whole { ring.old.broken ≡ false }
    requires moment { ring.old.moment ≡ 0 }
{
    let count = (events.len() / 4).min(10_000);
    let mut rounds = 0usize;
    let mut moment = 0u64;
    'events: for number in 0..count {
        let event = event_at(events, number);
        if event.kind == 0 {
            if ring.rounds() > 100_000 || rounds >= 10_000 {
                return Err(AllocError);
            }
            run(ring, plant, 1).map_err(|_| AllocError)?;
            let at = rounds * PORTS * PORT_SIZE;
            if let Some(place) = out.get_mut(at..at + PORTS * PORT_SIZE) {
                write_ports(ring, place);
            }
            rounds += 1;
        } else {
            moment = happens(ring, plant, moment, event);
        }
    }
    Ok(rounds as u32)
}

/// Makes a ring of these nodes and circuits at STM-4, runs all events over it, and writes what each port delivers in
/// each round. Returns the number of rounds that ran, or 1,000,000 where there is no such ring, memory runs out, a call
/// of the plant fails, or the events have more than 10,000 rounds.
#[unsafe(no_mangle)]
pub extern "C" fn sdh_bench_strangers(
    alloc: Global,
    wait: u32,
    ids: &[i64],
    wishes: &[u8],
    letters: &[u8],
    events: &[u8],
    out: &mut [u8],
) -> u32 {
    let Ok(letters) = std::str::from_utf8(letters) else {
        return 1_000_000;
    };
    let mut plant = FibrePlant::new();
    let Ok(mut ring) = laid(alloc, &mut plant, wait, ids, wishes, letters) else {
        return 1_000_000;
    };
    match episode(&mut ring, &mut plant, events, out) {
        Ok(rounds) => rounds,
        Err(_) => 1_000_000,
    }
}
