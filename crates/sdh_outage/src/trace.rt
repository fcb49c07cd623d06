//! The changes of a port, in order.
ghost use Rattle.std.specs.Prelude.{◌≡◌, ℕ, ◌+◌, ◌-◌, ◌^◌, ◌<◌, ◌≤◌, List, [], ◌∷◌, ◌++◌, IfOk, take, length};
ghost use Rattle.sdh_outage.specs.declared.kind.Kind.{Kind};
ghost use Rattle.sdh_outage.specs.Changes.{traced};

use crate::change::{Change, is_change};
use crate::kind::Kind;
use std::alloc::{AllocError, Global};
use std::marker::Model;

/// The number of changes of a settle step that are kept.
const KEPT: u32 = 64;

/// The changes of a port in the rounds of a settle step: the first of them, and how many there were.
#[derive(Drop)]
pub struct Trace {
    changes: Vec<Change>,
    count: u32,
    last: Option<Kind>,
}

impl Model for Trace {
    ghost use Rattle.std.specs.Prelude.{◌≤◌, vec_len, vec_capacity};
    ghost use Rattle.sdh_outage.specs.Changes.{Traced};

    ghost Value = { Traced };

    ghost view = { λ t. record { changes = t.changes.items; count = t.count; last = t.last } };

    ghost invariant = { λ t. (vec_len t.changes ≤ 64) × (64 ≤ vec_capacity t.changes) };
}

impl Trace {
    /// Returns the trace before any round.
    pub(crate) fn try_new(alloc: Global) -> Result<Trace, AllocError>
        ensures { IfOk result (λ trace. trace ≡ traced 0 []) }
    {
        Ok(Trace {
            changes: Vec::with_capacity(alloc, KEPT as usize)?,
            count: 0,
            last: None,
        })
    }

    /// Begins a settle step: there was no round.
    pub(crate) fn begin(&mut self)
        ensures { self.new ≡ traced 0 [] }
    {
        self.changes.clear();
        self.count = 0;
        self.last = None;
    }

    // Counts one change more, and keeps it where fewer than 64 are kept.
    fn put(&mut self, change: Change)
        requires { self.old.count + 1 < 2 ^ 32 }
        ensures { self.new ≡ record self.old { changes = take 64 (self.old.changes ++ change ∷ []); count = self.old.count + 1 } }
    {
        if self.changes.len() < KEPT as usize {
            self.changes.push(change).unwrap();
        }
        self.count += 1;
    }

    /// Adds one round more, of this number and kind.
    pub(crate) fn add(&mut self, round: u32, kind: Kind)
        requires { self.old.count + 1 < 2 ^ 32 }
        ensures history { (first : ℕ) (past : List Kind) → round ≡ first + length past → self.old ≡ traced first past
            → self.new ≡ traced first (kind ∷ past) }
        ensures few { self.new.count ≤ self.old.count + 1 }
    {
        if is_change(self.last, kind) {
            self.put(Change { round, kind });
        }
        self.last = Some(kind);
    }

    /// Returns the first changes since the settle step began, at most 64.
    pub fn changes(&self) -> &[Change]
        ensures changes { result.now ≡ self.now.changes }
        ensures few { length result.now ≤ 64 }
    {
        &self.changes
    }

    /// Returns how many changes there were after the first 64.
    pub fn more(&self) -> u32
        ensures { result ≡ self.now.count - 64 }
    {
        self.count.saturating_sub(KEPT)
    }
}
