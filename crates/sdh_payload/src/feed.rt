//! What a customer sends, round by round.
ghost use Rattle.std.specs.Prelude.{◌≡◌, ◌+◌, ◌^◌, ◌<◌, ◌≤◌, bytes_eq, length};
ghost use Rattle.sdh_payload.specs.Chunk.{taken_len};
ghost use Rattle.sdh_payload.specs.Clock.{waiting, with_waiting, next_form};
ghost use Rattle.sdh_payload.specs.Feed.{new_feed, next_feed};
ghost use Rattle.sdh_payload.specs.Stream.{stream_from};

use crate::cells::Cells;
use crate::chunk::ChunkForm;
use crate::clock::{Clock, Turn};
use crate::port::Port;
use crate::walk::Walk;
use std::marker::Model;

/// The stream of a port. Each round sends 2349 bytes of it, or three fewer or more where the port justifies. It keeps a
/// copy of the port and takes no memory.
#[derive(Debug, Drop)]
pub struct Feed {
    walk: Walk,
    clock: Clock,
}

impl Model for Feed {
    ghost use Rattle.sdh_payload.specs.Feed.{Fed, IsFeed};

    ghost Value = { Fed };

    ghost view = { λ f. record { port = f.walk.port; clock = f.clock } };

    ghost invariant = { λ f. IsFeed (record { port = f.walk.port; clock = f.clock }) f.walk.at };
}

impl Feed {
    /// Returns the start of the port's stream, before round 0.
    pub fn new(port: &Port) -> Feed
        ensures { result ≡ new_feed port.now }
    {
        Feed {
            walk: Walk::new(port),
            clock: Clock::new(port.offset()),
        }
    }

    /// Puts the bytes that the port sends in the next round into `out`, in place of what it held, and returns their
    /// form: 2346 bytes where the port justifies upwards, 2352 where downwards, and otherwise 2349. A justification
    /// uses up one pending slip, ups before downs. The port justifies in none of the first four rounds, and in none of
    /// the three after a justification.
    pub fn next_form(&mut self, out: &mut Cells) -> ChunkForm
        requires { self.old.clock.rounds < 2 ^ 32 }
        ensures form { result ≡ next_form self.old.clock }
        ensures chunk { out.new ≡ stream_from self.old.port self.old.clock.sent (taken_len result) }
        ensures count { length out.new ≡ taken_len result }
        ensures next { self.new ≡ next_feed self.old }
    {
        let form = self.clock.tick();
        self.walk.fill(taken_len(form), out);
        form
    }

    /// Puts the 2349 bytes that the port sends in the next round into `out`, where no slip waits. What `out` held
    /// before is dropped.
    pub fn next(&mut self, out: &mut Cells)
        requires few { self.old.clock.rounds < 2 ^ 32 }
        requires plain { waiting self.old.clock ≡ 0 }
        ensures chunk { out.new ≡ stream_from self.old.port self.old.clock.sent 2349 }
        ensures full { length out.new ≡ 2349 }
        ensures next { self.new ≡ next_feed self.old }
    {
        self.next_form(out);
    }

    /// Goes on by a round, as `next_form` does, without its bytes. That takes a fraction of the time.
    pub fn pass(&mut self)
        requires { self.old.clock.rounds < 2 ^ 32 }
        ensures { self.new ≡ next_feed self.old }
    {
        let form = self.clock.tick();
        self.walk.pass(taken_len(form));
    }

    /// Returns whether these are the 2349 bytes that the port sends in the next round, where no slip waits, and goes on
    /// by that round.
    pub fn is_next(&mut self, chunk: &[u8]) -> bool
        requires few { self.old.clock.rounds < 2 ^ 32 }
        requires plain { waiting self.old.clock ≡ 0 }
        ensures answer { result ≡ bytes_eq chunk.now (stream_from self.old.port self.old.clock.sent 2349) }
        ensures next { self.new ≡ next_feed self.old }
    {
        if chunk.len() != 2349 {
            self.pass();
            return false;
        }
        self.clock.tick();
        self.walk.is_next(chunk)
    }

    /// Adds `count` pending slips. At most 16 may wait in all.
    pub fn wait(&mut self, turn: Turn, count: u8)
        requires { waiting self.old.clock + count ≤ 16 }
        ensures { self.new ≡ record self.old { clock = with_waiting turn count self.old.clock } }
    {
        self.clock.wait(turn, count);
    }

    /// Returns the pointer value before the next round.
    pub fn value(&self) -> u16
        ensures value { result ≡ self.now.clock.value }
        ensures small { result ≤ 782 }
    {
        self.clock.value()
    }

    /// Returns the form of the chunk that was sent in the last round, and `Plain` before the first.
    pub fn form(&self) -> ChunkForm
        ensures { result ≡ self.now.clock.form }
    {
        self.clock.form()
    }

    /// Returns the number of pending slips, at most 16.
    pub fn waiting(&self) -> u8
        ensures waiting { result ≡ waiting self.now.clock }
        ensures few { result ≤ 16 }
    {
        self.clock.waiting()
    }
}

// Returns the number of bytes sent in this form.
fn taken_len(form: ChunkForm) -> usize
    ensures len { result ≡ taken_len form }
    ensures small { result ≤ 2352 }
{
    match form {
        ChunkForm::Plain => 2349,
        ChunkForm::Short => 2346,
        ChunkForm::Long => 2352,
    }
}
