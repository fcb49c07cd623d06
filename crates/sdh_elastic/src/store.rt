//! The store and its turns.
ghost use Rattle.std.specs.Prelude.{◌≡◌, ℕ, ◌+◌, ◌-◌, ◌<◌, ◌≤◌, ◌⊎◌, ◌↔◌, ◌&&◌, true, false, List, [], ◌∷◌, ◌++◌, length, IfOk};
ghost use Rattle.std.specs.Prelude.{OnOk, OnErr, IsOk, IsErr};
ghost use Rattle.sdh_pointer.specs.Reading.{action_on, after_word};
ghost use Rattle.sdh_elastic.specs.Turns.{value_after, word_for, IsChunk};
ghost use Rattle.sdh_elastic.specs.Lengths.{is_steady, with_length, keeps_steady};
ghost use Rattle.sdh_elastic.specs.History.{actions, fill, lasts, lengths, last_word};
ghost use Rattle.sdh_elastic.specs.Store.{empty, room_of, action_at, fill_after, given_at, after_turn, stage_after, reading_of, AreChunks, StoreCameBy};
ghost use Rattle.sdh_elastic.specs.Store.{GoesOn};

use crate::held::Held;
use crate::lengths::Lengths;
use crate::stage::{Stage, given, value_after, word_for};
use sdh_payload::Cells;
use sdh_pointer::{Action, Word};
use std::alloc::{AllocError, Global};
use std::marker::Model;
use thiserror::Error;

/// The fewest bytes that are held after a turn.
const LEAST: usize = 2340;

/// The most bytes that are held after a turn.
const MOST: usize = 2358;

/// After the turn fewer than 2340 or more than 2358 bytes would be held. The turn was refused.
#[derive(Clone, Copy, Debug, PartialEq, Eq, Error)]
#[error("the elastic store would hold fewer than 2340 or more than 2358 bytes")]
pub struct Drift;

// What a store keeps of its turns besides the bytes.
#[derive(Clone, Copy, Debug)]
struct Course {
    stage: Stage,
    value: u16,
    word: Word,
    lengths: Lengths,
    steady: bool,
}

impl Course {
    // Returns the course after a turn that takes in `length` bytes with this action.
    fn after(self, action: Action, length: u16) -> Course
        requires value { self.value ≤ 782 }
        requires chunks { AreChunks self.lengths }
        requires short { length ≤ 2352 }
        ensures stage { result.stage ≡ stage_after self.stage action }
        ensures value { result.value ≡ value_after action self.value }
        ensures word { result.word.0 ≡ word_for action self.value }
        ensures lengths { result.lengths ≡ with_length length self.lengths }
        ensures steady { result.steady ≡ (self.steady && keeps_steady length self.lengths) }
    {
        Course {
            stage: self.stage.after(action),
            value: value_after(action, self.value),
            word: word_for(action, self.value),
            lengths: self.lengths.with(length),
            steady: self.steady && self.lengths.keeps_steady(length),
        }
    }
}

/// An elastic store. In each turn it takes in one chunk, and from the second turn on it gives the bytes of a frame. In
/// contracts it stands for what it keeps of its history (`Store` in `specs/Store.antt`).
#[derive(Debug, Drop)]
pub struct Elastic {
    held: Held,
    course: Course,
}

impl Model for Elastic {
    ghost use Rattle.sdh_elastic.specs.Store.{Store, StoreIsBounded};

    ghost Value = { Store };

    ghost view = { λ e. record { held = e.held; stage = e.course.stage; value = e.course.value; word = e.course.word.0; lengths = e.course.lengths; steady = e.course.steady } };

    ghost invariant = { λ e. StoreIsBounded (record { held = e.held; stage = e.course.stage; value = e.course.value; word = e.course.word.0; lengths = e.course.lengths; steady = e.course.steady }) };
}

impl Elastic {
    /// Returns an empty store with this pointer value. It takes all its memory here. There is room for 4,710 bytes: the
    /// most that are held after a turn, 2358, and a chunk of 2352.
    pub fn try_new(alloc: Global, value: u16) -> Result<Elastic, AllocError>
        requires { value ≤ 782 }
        ensures empty { IfOk result (λ store. store ≡ empty value) }
        ensures room { IfOk result (λ store. 4710 ≤ room_of store) }
        ensures history { IfOk result (λ store. StoreCameBy value [] store) }
    {
        let course = Course {
            stage: Stage::First,
            value,
            word: Word(0xFFFF),
            lengths: Lengths::Empty,
            steady: true,
        };
        let held = Held::try_new(alloc)?;
        Ok(Elastic { held, course })
    }

    /// Takes in a chunk of 2346 to 2352 bytes, and puts the bytes of a frame into `out`, in place of what that held:
    /// none in turn 1, and then 2346, 2349 or 2352. Returns what the turn does to the pointer. With `Drift` the store
    /// and `out` stay as they were.
    pub fn turn(&mut self, input: &[u8], out: &mut Cells) -> Result<Action, Drift>
        requires { IsChunk (length input.now) }
        // What a turn does, by what is kept and by the whole history.
        ensures ok { IfOk result
            (λ a. (a ≡ action_at self.old) × (out.new ≡ given_at self.old input.now) × (self.new ≡ after_turn self.old input.now)) }
        ensures history { IfOk result
            (λ a. (first : ℕ) (past : List (List ℕ)) → StoreCameBy first past self.old → GoesOn first past input.now out.new a self.new) }
        ensures bytes { OnOk result (self.old.held ++ input.now ≡ out.new ++ self.new.held) }
        ensures heard { IfOk result (λ a. (action_on (reading_of self.old) self.new.word ≡ a)
            × (after_word (reading_of self.old) self.new.word ≡ reading_of self.new)) }

        // When a turn is a drift.
        ensures drift { IsErr result ↔ ((fill_after self.old (length input.now) < 2340) ⊎ (2358 < fill_after self.old (length input.now))) }
        ensures err { OnErr result ((self.new ≡ self.old) × (out.new ≡ out.old)) }
        ensures history_err { OnErr result
            ((first : ℕ) (past : List (List ℕ)) → StoreCameBy first past self.old → lasts (lengths (input.now ∷ past)) ≡ false) }
        ensures steady { self.old.steady ≡ true → keeps_steady (length input.now) self.old.lengths ≡ true → IsOk result }
        ensures steady_run { (first : ℕ) (past : List (List ℕ)) → StoreCameBy first past self.old
            → is_steady (lengths (input.now ∷ past)) ≡ true → IsOk result }
    {
        let action = self.course.stage.action(self.held.len());
        let fill = (self.held.len() + input.len()).saturating_sub(given(action));
        if fill < LEAST || MOST < fill {
            return Err(Drift);
        }
        self.held.take_and_give(input, given(action), out);
        self.course = self.course.after(action, input.len() as u16);
        Ok(action)
    }

    /// Returns how many bytes the store has room for, those of the chunk of a turn among them.
    pub fn room(&self) -> usize
        ensures { result ≡ room_of self.now }
    {
        self.held.room()
    }

    /// Returns the pointer word of the last turn, and all ones before the first.
    pub fn word(&self) -> Word
        ensures kept { result.0 ≡ self.now.word }
        ensures history { (first : ℕ) (past : List (List ℕ)) → StoreCameBy first past self.now
            → result.0 ≡ last_word first (actions (lengths past)) }
    {
        self.course.word
    }

    /// Returns how many bytes are held.
    pub fn fill(&self) -> usize
        ensures kept { result ≡ length self.now.held }
        ensures history { (first : ℕ) (past : List (List ℕ)) → StoreCameBy first past self.now → result ≡ fill (lengths past) }
    {
        self.held.len()
    }

    /// Returns whether the run was steady so far: each four turns in a row took in 9393 to 9399 bytes together.
    pub fn is_steady(&self) -> bool
        ensures kept { result ≡ self.now.steady }
        ensures history { (first : ℕ) (past : List (List ℕ)) → StoreCameBy first past self.now → result ≡ is_steady (lengths past) }
    {
        self.course.steady
    }
}
