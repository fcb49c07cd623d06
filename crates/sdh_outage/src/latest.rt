//! What came to a port in the round before.
ghost use Rattle.std.specs.Prelude.{◌≡◌, ◌+◌, ◌*◌, ◌^◌, ◌<◌, ◌≤◌, None, Some, true, IfOk, length};
ghost use Rattle.sdh_payload.specs.declared.delivered.Delivered.{Delivered};
ghost use Rattle.sdh_payload.specs.Stream.{stream_from, chunk_of};
ghost use Rattle.sdh_outage.specs.Latest.{came};

use crate::last::Last;
use crate::reach::CHUNK;
use crate::scratch::{CHUNKS, Scratch};
use sdh_payload::{Delivered, Port};
use std::alloc::{AllocError, Global};

/// What came to a port in the round before. Where that is known to be a chunk of a port's stream, the port and the
/// number of the chunk are kept in place of its bytes, so that these aren't copied in each round.
#[derive(Drop)]
pub(crate) struct Latest {
    pub(crate) plain: Last,
    pub(crate) port: Option<Port>,
    pub(crate) number: u32,
}

// Returns whether two ports send the same bytes.
fn are_same(one: &Port, other: &Port) -> bool
    ensures { result ≡ true → one.now ≡ other.now }
{
    one.offset() == other.offset() && one.text() == other.text() && one.trace() == other.trace()
}

impl Latest {
    /// Returns AIS as what came in the round before, with room for the bytes of two chunks.
    pub(crate) fn try_new(alloc: Global) -> Result<Latest, AllocError>
        ensures { IfOk result (λ last. came last ≡ Delivered.Ais) }
    {
        Ok(Latest {
            plain: Last::try_new(alloc)?,
            port: None,
            number: 0,
        })
    }

    /// Keeps what was delivered, with its bytes.
    pub(crate) fn put(&mut self, now: &Delivered)
        ensures { came self.new ≡ now.now }
    {
        self.plain.put(now);
        self.port = None;
    }

    /// Keeps the bytes of a chunk.
    pub(crate) fn put_chunk(&mut self, chunk: &[u8])
        requires { length chunk.now ≤ 2352 }
        ensures { came self.new ≡ Delivered.Chunk chunk.now }
    {
        self.plain.put_chunk(chunk);
        self.port = None;
    }

    /// Keeps a chunk of a port's stream by its number.
    pub(crate) fn know(&mut self, port: &Port, number: u32)
        ensures { came self.new ≡ Delivered.Chunk (chunk_of port.now number) }
    {
        self.port = Some(port.copy());
        self.number = number;
    }

    /// Returns whether what came is known to be chunk `number` - 1 of a port's stream.
    pub(crate) fn is_before(&self, port: &Port, number: u32) -> bool
        requires { 0 < number }
        ensures { result ≡ true → (self.now.port ≡ Some port.now) × (self.now.number + 1 ≡ number) }
    {
        match &self.port {
            Some(own) => self.number == number - 1 && are_same(own, port),
            None => false,
        }
    }

    /// Keeps the next chunk of the same stream.
    pub(crate) fn step(&mut self)
        requires { self.old.number + 1 < 2 ^ 32 }
        ensures { self.new ≡ record self.old { number = self.old.number + 1 } }
    {
        self.number += 1;
    }

    /// Returns whether AIS came.
    pub(crate) fn is_ais(&self) -> bool
        ensures { result ≡ true → came self.now ≡ Delivered.Ais }
    {
        match &self.port {
            Some(_) => false,
            None => self.plain.is_ais(),
        }
    }

    /// Returns whether the bytes of what came are kept.
    pub(crate) fn is_plain(&self) -> bool
        ensures { result ≡ true → self.now.port ≡ None }
    {
        match &self.port {
            Some(_) => false,
            None => true,
        }
    }

    /// Keeps the bytes of what came, where only its port and number were kept. The scratch has the chunks of a port's
    /// stream from chunk `first` on, and mostly what came is one of them.
    pub(crate) fn spell(&mut self, scratch: &mut Scratch, port: &Port, first: u32)
        requires { scratch.old ≡ stream_from port.now (2349 * first) (2349 * 78) }
        ensures plain { self.new.plain ≡ came self.old }
        ensures scratch { scratch.new ≡ scratch.old }
    {
        let Some(own) = &self.port else {
            return;
        };
        let number = self.number;
        if first <= number && number - first < CHUNKS && are_same(own, port) {
            self.plain
                .put_chunk(scratch.part(CHUNK * (number - first) as usize));
        } else {
            scratch.put_chunk(own, number, &mut self.plain);
        }
    }
}
