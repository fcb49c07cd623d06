//! Prints the first twenty rounds of a ring of four nodes at STM-4, whose span between nodes 2 and 3 is cut. Of each
//! round it prints the bytes K1 and K2 that each node sends on each side. Then it prints the first bytes of a frame on
//! a fibre.
#![tactic(auto)]

ghost use Rattle.std.specs.Prelude.{◌≡◌, ◌<◌, IfOk, OnOk, false, length};
ghost use Rattle.sdh_plant.specs.Fibres.{HasNoFibres, IsPrepared};

use sdh_circuits::CircuitMap;
use sdh_kbytes::encode;
use sdh_node::Settings;
use sdh_plant::{Failed, Plant, PrepareError, RecordingPlant};
use sdh_ring::{Observer, Ring, Running, SettleError};
use sdh_ringmap::{Condition, FibreEvent, MapError, Pos, Rate, RingMap, Side};
use sdh_rounds::{Nowhere, Stopped};
use std::alloc::{AllocError, Global};
use std::io;
use thiserror::Error;

/// The most rounds of the settle step. In each of them eight frames are sent.
const ROUNDS: u32 = 129;

/// Why the program stops.
#[derive(Debug, Drop, Error)]
enum Stop {
    #[error("no ring: {0}")]
    Map(#[from] MapError),
    #[error("no fibres: {0}")]
    Prepare(#[from] PrepareError),
    #[error("no memory")]
    Memory(#[from] AllocError),
    #[error("a call of the plant failed")]
    Plant(#[from] Failed),
    #[error("{0}")]
    Settle(#[from] SettleError),
    #[error("{0}")]
    Stopped(#[from] Stopped),
    #[error("no output")]
    Output(#[from] io::Error),
}

// Returns a ring without circuits, with the plant prepared for it.
fn laid<P: Plant>(alloc: Global, plant: &mut P) -> Result<Ring, Stop>
    requires plant { HasNoFibres (P.fibres plant.old) }
    ensures prepared { IfOk result (λ ring. IsPrepared ring.settings.rate (length ring.ids) (P.fibres plant.new)) }
    ensures whole { IfOk result (λ ring. ring.broken ≡ false) }
    ensures new { IfOk result (λ ring. ring.rounds ≡ 0) }
    ensures nodes { IfOk result (λ ring. length ring.ids ≡ 4) }
{
    let settings = Settings {
        rate: Rate::Four,
        threshold: 3,
        wait: 10,
    };
    let map = RingMap::new(&[1, 2, 3, 4])?;
    let circuits = CircuitMap::new(alloc, settings.rate.half());
    plant.prepare(alloc, settings.rate, map.len())?;
    Ok(Ring::try_new(alloc, settings, map, circuits)?)
}

// Cuts the span between nodes 2 and 3 in both directions.
fn cut<P: Plant>(ring: &Ring, plant: &mut P) -> Result<(), Stop>
    requires prepared { IsPrepared ring.now.settings.rate (length ring.now.ids) (P.fibres plant.old) }
    requires nodes { length ring.now.ids ≡ 4 }
    ensures { OnOk result (IsPrepared ring.now.settings.rate (length ring.now.ids) (P.fibres plant.new)) }
{
    let condition = Condition::Cut;
    plant.apply(FibreEvent {
        at: Pos(1),
        side: Side::East,
        condition,
    })?;
    plant.apply(FibreEvent {
        at: Pos(2),
        side: Side::West,
        condition,
    })?;
    Ok(())
}

// Prints what each node sent in the last round.
fn print_words(rt: &HostRuntime, ring: &Running) -> io::Result<()> {
    println!(rt; "after {} rounds", ring.rounds())?;
    for at in 0..ring.map().len() {
        let at = Pos(at as u8);
        let id = ring.map().id(at);
        let node = ring.node(at);
        let (west1, west2) = encode(node.sent_k(Side::West));
        let (east1, east2) = encode(node.sent_k(Side::East));
        println!(rt; "node {id} west {west1:02x} {west2:02x} east {east1:02x} {east2:02x}")?;
    }
    Ok(())
}

/// Prints the words of the first `left` rounds that it sees.
#[derive(Drop)]
struct Printer<'a> {
    rt: &'a HostRuntime,
    left: u32,
}

impl Observer<Running> for Printer<'_> {
    ghost Heard = { λ at k o. Unit {0} };

    fn look(&mut self, ring: &Running) {
        if let Some(left) = self.left.checked_sub(1) {
            self.left = left;
            let _ = print_words(self.rt, ring);
        }
    }

    ghost same = { λ at bt k o same heard. tt };
}

fn main(rt: HostRuntime) -> Result<(), Stop> {
    let mut plant = RecordingPlant::new(8 * ROUNDS as usize);
    let mut ring = laid(rt.alloc(), &mut plant)?;
    cut(&ring, &mut plant)?;
    let mut printer = Printer { rt: &rt, left: 20 };
    ring.settle_recording(&mut plant, ROUNDS, &mut printer, &mut Nowhere)??;
    if let Some(frame) = plant.sent().get(0) {
        println!(rt;
            "bytes 24 to 39 of the first frame: {:?}",
            &frame.bytes()[24..40]
        )?;
    }
    Ok(())
}
