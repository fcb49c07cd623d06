//! Fibres with told arrivals that also keep the bytes of all frames sent.
ghost use Rattle.std.specs.Prelude.{◌≡◌, ◌≢◌, ◌<◌, true, false, All, map};
ghost use Rattle.std.proofs.lemmas.Bool.{false≢true};
ghost use Rattle.sdh_plant.specs.InMemory.{clear_fibres, told_of};
ghost use Rattle.sdh_plant.specs.Kept.{arrival_of, IsToldAt};

use sdh_frame::FrameBuf;
use sdh_plant::{Arrived, Failed, Plant, PrepareError, Told, ToldPlant};
use sdh_ringmap::{FibreEvent, Pos, Rate, Side};
use std::alloc::{AllocError, Global};
use std::marker::Model;

/// A `ToldPlant` that also keeps the bytes of all frames sent, as far as there is memory.
#[derive(Drop)]
pub struct Watched {
    plant: ToldPlant,
    sent: Vec<u8>,
}

impl Model for Watched {
    ghost use Rattle.sdh_plant.specs.InMemory.{HeldTold};

    ghost Value = { HeldTold };

    ghost view = { λ a. a.plant };
}

impl Watched {
    /// Returns a plant without fibres, which will give these arrivals.
    pub fn new(alloc: Global, rate: Rate, arrivals: Vec<Told>) -> Watched
        requires { All (IsToldAt rate) arrivals.items }
        ensures { result ≡ record { fibres = clear_fibres rate 0; told = map arrival_of arrivals.items } }
    {
        Watched {
            plant: ToldPlant::new(rate, arrivals),
            sent: Vec::new(alloc),
        }
    }

    /// Returns the bytes of the frames that were sent, one after the other.
    pub fn sent(&self) -> &[u8] {
        &self.sent
    }
}

// Appends bytes, or as many as there is memory for.
fn keep(kept: &mut Vec<u8>, bytes: &[u8]) {
    let more: Result<(), AllocError> = kept.extend_from_slice(bytes);
    let _ = more;
}

impl Plant for Watched {
    ghost fibres = { λ p. told_of p };

    ghost faults = { λ _. 0 };

    ghost exact = { true };

    fn prepare(&mut self, alloc: Global, rate: Rate, nodes: usize) -> Result<(), PrepareError> {
        self.plant.prepare(alloc, rate, nodes)
    }

    fn apply(&mut self, event: FibreEvent) -> Result<(), Failed> {
        self.plant.apply(event)
    }

    fn send(&mut self, at: Pos, side: Side, frame: &FrameBuf) -> Result<(), Failed> {
        keep(&mut self.sent, frame.bytes());
        self.plant.send(at, side, frame)
    }

    fn receive(&mut self, at: Pos, side: Side, frame: &mut FrameBuf) -> Result<Arrived, Failed> {
        self.plant.receive(at, side, frame)
    }

    ghost honest_tells_none = { λ p honest. absurd (false≢true honest) };
}
