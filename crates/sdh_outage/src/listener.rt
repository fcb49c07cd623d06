//! A listener at a port.
ghost use Rattle.std.specs.Prelude.{◌≡◌, ℕ, ◌+◌, ◌^◌, ◌≤◌, List, [], ◌∷◌, IfOk};
ghost use Rattle.sdh_payload.specs.declared.delivered.Delivered.{Delivered};
ghost use Rattle.sdh_payload.specs.Customer.{Customer};
ghost use Rattle.sdh_outage.specs.Near.{near};
ghost use Rattle.sdh_outage.specs.Kinds.{own_kind, kind_of, last_heard, Whose};
ghost use Rattle.sdh_outage.specs.Kept.{heard};

use crate::kind::Kind;
use crate::latest::Latest;
use crate::outage::Outage;
use crate::scratch::Scratch;
use crate::trace::Trace;
use crate::window::Window;
use sdh_payload::Delivered;
use std::alloc::{AllocError, Global};
use std::marker::Model;

/// A listener at a port, which counts what the port delivers in the rounds of a settle step, and keeps its changes. It
/// takes all its memory when it is made.
#[derive(Drop)]
pub struct Listener {
    round: u32,
    last: Latest,
    outage: Outage,
    trace: Trace,
}

impl Model for Listener {
    ghost use Rattle.std.specs.Prelude.{◌≤◌};
    ghost use Rattle.sdh_outage.specs.Kept.{Heard, AreFew};
    ghost use Rattle.sdh_outage.specs.Latest.{came};

    ghost Value = { Heard };

    ghost view = { λ l. record { round = l.round; last = came l.last; outage = l.outage; trace = l.trace } };

    ghost invariant = { λ l. AreFew l.outage l.round × (l.trace.count ≤ l.round) };
}

impl Listener {
    /// Returns a listener that has heard of no round.
    pub fn try_new(alloc: Global) -> Result<Listener, AllocError>
        ensures { IfOk result (λ listener. (port : Customer) (whose : Whose) → listener ≡ heard port whose 0 Delivered.Ais []) }
    {
        Ok(Listener {
            round: 0,
            last: Latest::try_new(alloc)?,
            outage: Outage::none(),
            trace: Trace::try_new(alloc)?,
        })
    }

    /// Begins a settle step before the next round: nothing is counted, no run of rounds goes on, and `before` is what
    /// was delivered last.
    pub fn begin(&mut self, before: &Delivered)
        ensures { (port : Customer) (whose : Whose) → self.new ≡ heard port whose self.old.round before.now [] }
    {
        self.last.put(before);
        self.outage = Outage::none();
        self.trace.begin();
    }

    /// Returns the kind of a round that delivers `now`, by the near bytes of the far customer; `None` where `now` is
    /// neither AIS, nor ones, nor any of these bytes. Keeps `now` as what was delivered last. `hear` counts the round.
    pub fn own_kind(
        &mut self,
        far: &mut Window,
        scratch: &mut Scratch,
        now: &Delivered,
    ) -> Option<Kind>
        requires { far.old.round + 88 ≤ 2 ^ 32 }
        ensures kind { result ≡ own_kind (near far.old.port far.old.round) self.old.last now.now }
        ensures last { self.new ≡ record self.old { last = now.now } }
        ensures far { far.new ≡ far.old }
    {
        match now {
            Delivered::Ais => {
                self.last.put(now);
                Some(Kind::Ais)
            }
            Delivered::Chunk(chunk) => far.own_chunk(scratch, &mut self.last, chunk.as_slice()),
        }
    }

    /// Counts one round more, of this kind. What the round delivered is kept already, as what was delivered last.
    pub fn hear(&mut self, kind: Kind)
        requires { self.old.round + 8 ≤ 2 ^ 32 }
        ensures history { (port : Customer) (whose : Whose) (first : ℕ) (before : Delivered) (past : List Delivered)
            → self.old ≡ record (heard port whose first before past) { last = self.old.last }
            → kind ≡ kind_of port whose self.old.round (last_heard before past) self.old.last
            → self.new ≡ heard port whose first before (self.old.last ∷ past) }
        ensures round { self.new.round ≡ self.old.round + 1 }
    {
        self.outage = self.outage.with_round(self.round, kind);
        self.trace.add(self.round, kind);
        self.round += 1;
    }

    /// Returns what was counted since the settle step began.
    pub fn outage(&self) -> Outage
        ensures { result ≡ self.now.outage }
    {
        self.outage
    }

    /// Returns the changes since the settle step began.
    pub fn trace(&self) -> &Trace
        ensures { result.now ≡ self.now.trace }
    {
        &self.trace
    }
}
