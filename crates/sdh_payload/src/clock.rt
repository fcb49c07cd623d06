//! Clocks of customers.
ghost use Rattle.std.specs.Prelude.{◌≡◌, ◌+◌, ◌*◌, ◌^◌, ◌<◌, ◌≤◌};
ghost use Rattle.sdh_payload.specs.Clock.{new_clock, waiting, with_waiting, next_form, ticked};

use crate::chunk::ChunkForm;
use std::marker::Model;

/// The number of values of an AU-4 pointer.
const VALUES: u16 = 783;

/// A slip of a customer's clock against the ring's, which its port makes good by a justification of the AU-4 pointer
/// (ITU-T G.707 clause 8.1).
#[derive(Clone, Copy, Debug, PartialEq, Eq)]
pub enum Turn {
    /// The clock is slow: in a round of a positive justification three bytes fewer are sent, and the pointer value
    /// grows by one.
    Up,
    /// The clock is fast: in a round of a negative justification three bytes more are sent, and the pointer value falls
    /// by one.
    Down,
}

/// A port's clock: how many rounds it has run, how many bytes it has sent, its pointer value, and the slips that wait.
#[derive(Debug, Drop)]
pub struct Clock {
    rounds: u64,
    ups: u8,
    downs: u8,
    // The number of rounds still to come before one that may justify.
    rest: u8,
    sent: u64,
    value: u16,
    form: ChunkForm,
}

impl Model for Clock {
    ghost use Rattle.sdh_payload.specs.Clock.{Clock, IsKept};

    ghost Value = { Clock };

    ghost view = { λ c. record { rounds = c.rounds; ups = c.ups; downs = c.downs; rest = c.rest; sent = c.sent; value = c.value; form = c.form } };

    ghost invariant = { λ c. IsKept
        (record { rounds = c.rounds; ups = c.ups; downs = c.downs; rest = c.rest; sent = c.sent; value = c.value; form = c.form }) };
}

impl Clock {
    /// Returns the clock of a port with this offset before round 0.
    pub fn new(offset: u16) -> Clock
        requires { offset ≤ 782 }
        ensures { result ≡ new_clock offset }
    {
        Clock {
            rounds: 0,
            ups: 0,
            downs: 0,
            rest: 4,
            sent: 0,
            value: offset,
            form: ChunkForm::Plain,
        }
    }

    // Returns the form of the chunk that is sent in the next round.
    fn next_form(&self) -> ChunkForm
        ensures { result ≡ next_form self.now }
    {
        if self.rest >= 1 {
            ChunkForm::Plain
        } else if self.ups >= 1 {
            ChunkForm::Short
        } else if self.downs >= 1 {
            ChunkForm::Long
        } else {
            ChunkForm::Plain
        }
    }

    /// Runs the clock for one round, and returns the form of the chunk that is sent in it.
    #[tactic(auto, unfolding(crate::specs::Clock::ticked))]
    pub fn tick(&mut self) -> ChunkForm
        requires { self.old.rounds < 2 ^ 32 }
        ensures form { result ≡ next_form self.old }
        ensures clock { self.new ≡ ticked self.old }
        ensures few { self.old.sent ≤ 2352 * self.old.rounds }
    {
        let form = self.next_form();
        self.rounds += 1;
        self.form = form;
        match form {
            ChunkForm::Plain => {
                self.rest = self.rest.saturating_sub(1);
                self.sent += 2349;
            }
            ChunkForm::Short => {
                self.ups -= 1;
                self.rest = 3;
                self.sent += 2346;
                self.value = (self.value + 1) % VALUES;
            }
            ChunkForm::Long => {
                self.downs -= 1;
                self.rest = 3;
                self.sent += 2352;
                self.value = (self.value + VALUES - 1) % VALUES;
            }
        }
        form
    }

    /// Adds `count` pending slips. At most 16 may wait in all.
    pub fn wait(&mut self, turn: Turn, count: u8)
        requires { waiting self.old + count ≤ 16 }
        ensures { self.new ≡ with_waiting turn count self.old }
    {
        match turn {
            Turn::Up => self.ups += count,
            Turn::Down => self.downs += count,
        }
    }

    /// Returns the pointer value before the next round.
    pub fn value(&self) -> u16
        ensures value { result ≡ self.now.value }
        ensures small { result ≤ 782 }
    {
        self.value
    }

    /// Returns the form of the chunk that was sent in the last round, and `Plain` before the first.
    pub fn form(&self) -> ChunkForm
        ensures { result ≡ self.now.form }
    {
        self.form
    }

    /// Returns the number of pending slips, at most 16.
    pub fn waiting(&self) -> u8
        ensures waiting { result ≡ waiting self.now }
        ensures few { result ≤ 16 }
    {
        self.ups + self.downs
    }
}
