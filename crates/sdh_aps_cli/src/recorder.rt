//! The recorder, which looks at the ring after each round and makes a line for each node that shows something new.
ghost use Rattle.std.specs.Prelude.{◌≡◌, ℕ, ◌-◌, ◌+◌, ◌*◌, ◌≤◌, ◌<◌, [], ◌++◌, if◌then◌else◌, IfOk, length};
ghost use Rattle.sdh_report.specs.Lines.{settle_line};
ghost use Rattle.sdh_report.specs.Written.{room_in};
ghost use Rattle.sdh_aps.specs.declared.shown.Shown.{Shown};
ghost use Rattle.sdh_aps.specs.Shown.{HasWords};
ghost use Rattle.sdh_aps_cli.specs.Signalled.{shown_at, is_changed, change_of, changes_to};
ghost use Rattle.sdh_aps_cli.specs.Listing.{lists, change_text, changes_text};
ghost use Rattle.sdh_aps_cli.specs.Recording.{AreShown};

use crate::listing::SignalListing;
use crate::showing::shown_at;
use sdh_aps::{LINE_MAX, Shown, WordPair, same_shown, signal_line};
use sdh_kbytes::{K, Mark, Path};
use sdh_report::{StateWord, Text};
use sdh_ring::{Ring, Running, ShowsNodes};
use sdh_ringmap::{Code, Pos};
use std::alloc::{AllocError, Global};

/// What the nodes of a ring showed in the last round, and room for the lines of one round.
#[derive(Drop)]
pub struct SignalRecorder {
    pub before: Vec<Shown>,
    pub text: Text,
    pub listing: SignalListing,
}

// Returns whether the lines of the node of an identifier are listed.
fn lists(listing: SignalListing, id: u8) -> bool
    ensures { result ≡ lists listing id }
{
    match listing {
        SignalListing::All => true,
        SignalListing::Node(one) => one == id,
    }
}

// Appends the line of a node that showed this in the last round, where it is listed.
fn put_change(text: &mut Text, ring: &Running, at: Pos, now: &Shown, listing: SignalListing)
    requires at { at.0 < length ring.now.ids }
    requires ran { 1 ≤ ring.now.rounds }
    requires now { now.now ≡ shown_at ring.now at.0 }
    requires words { HasWords now.now }
    requires room { 128 ≤ text.old.room }
    ensures bytes { text.new.bytes ≡ text.old.bytes ++ change_text listing (change_of ring.now at.0) }
    ensures room { text.old.room ≤ text.new.room + 128 }
    ensures kept { room_in text.new ≡ room_in text.old }
{
    let id = ring.map().id(at);
    if lists(listing, id) {
        signal_line(text, ring.rounds() - 1, id, now);
    }
}

// Appends the line of the node at a position, where the last round was the ring's first, or the node shows something
// else after it than `was`.
#[tactic(auto, unfolding(crate::specs::Signalled::is_changed))]
fn put_new(text: &mut Text, ring: &Running, at: Pos, was: &Shown, listing: SignalListing)
    requires at { at.0 < length ring.now.ids }
    requires ran { 1 ≤ ring.now.rounds }
    requires room { 128 ≤ text.old.room }
    ensures bytes { text.new.bytes ≡ text.old.bytes
        ++ (if is_changed was.now ring.now at.0 then change_text listing (change_of ring.now at.0) else []) }
    ensures room { text.old.room ≤ text.new.room + 128 }
    ensures kept { room_in text.new ≡ room_in text.old }
{
    let now = shown_at(ring, at);
    if ring.rounds() == 1 || !same_shown(was, &now) {
        put_change(text, ring, at, &now, listing);
    }
}

// Appends the lines of the last round. `before` is what the nodes showed before it.
fn put_round(text: &mut Text, ring: &Running, before: &Vec<Shown>, listing: SignalListing)
    requires many { length before.now.items ≡ length ring.now.ids }
    requires ran { 1 ≤ ring.now.rounds }
    requires room { 128 * length ring.now.ids ≤ text.old.room }
    ensures bytes { (was : ℕ → Shown) → AreShown was before.now.items
        → text.new.bytes ≡ text.old.bytes ++ changes_text listing (changes_to was ring.now (length ring.now.ids)) }
    ensures kept { room_in text.new ≡ room_in text.old }
{
    for i in 0..ring.map().len() {
        put_new(text, ring, Pos(i as u8), &before[i], listing);
    }
}

// Keeps what all nodes show after the last round.
fn keep_all<R: ShowsNodes>(before: &mut Vec<Shown>, ring: &R)
    requires { length before.old.items ≡ length (R.held ring.now).ids }
    ensures many { length before.new.items ≡ length before.old.items }
    ensures shown { AreShown (shown_at (R.held ring.now)) before.new.items }
{
    for i in 0..ring.size() {
        before[i] = shown_at(ring, Pos(i as u8));
    }
}

// Returns a filler that no node ever shows, for the time before the first settle step begins.
fn nothing_shown() -> Shown {
    let none = K {
        code: Code::Nr,
        to: 0,
        from: 0,
        path: Path::Short,
        mark: Mark::Idle,
    };
    Shown {
        state: StateWord::Idle,
        far: None,
        sent: WordPair {
            west: none,
            east: none,
        },
        heard_west: None,
        heard_east: None,
        asks_west: Code::Nr,
        asks_east: Code::Nr,
    }
}

impl SignalRecorder {
    /// Returns a recorder for a ring of `nodes` nodes, which nothing has been shown to. All memory is taken here.
    pub fn try_new(
        alloc: Global,
        nodes: usize,
        listing: SignalListing,
    ) -> Result<SignalRecorder, AllocError>
        requires { nodes ≤ 16 }
        ensures many { IfOk result (λ recorder. length recorder.before.items ≡ nodes) }
        ensures room { IfOk result (λ recorder. 128 * nodes ≤ room_in recorder.text) }
        ensures listing { IfOk result (λ recorder. recorder.listing ≡ listing) }
    {
        let before = vec![in alloc; nothing_shown(); nodes]?;
        let text = Text::try_new(alloc, LINE_MAX * nodes)?;
        Ok(SignalRecorder {
            before,
            text,
            listing,
        })
    }

    /// Begins a settle step: keeps what the nodes of a ring show before it.
    pub fn begin(&mut self, ring: &Ring)
        requires { length self.old.before.items ≡ length ring.now.ids }
        ensures many { length self.new.before.items ≡ length self.old.before.items }
        ensures shown { AreShown (shown_at ring.now) self.new.before.items }
        ensures text { self.new.text ≡ self.old.text }
        ensures listing { self.new.listing ≡ self.old.listing }
    {
        keep_all(&mut self.before, ring);
    }

    /// Makes the lines of the last round, and keeps what the nodes show after it.
    pub fn look(&mut self, ring: &Running)
        requires many { length self.old.before.items ≡ length ring.now.ids }
        requires ran { 1 ≤ ring.now.rounds }
        requires room { 128 * length ring.now.ids ≤ room_in self.old.text }
        ensures bytes { (was : ℕ → Shown) → AreShown was self.old.before.items
            → self.new.text.bytes ≡ changes_text self.old.listing (changes_to was ring.now (length ring.now.ids)) }
        ensures many { length self.new.before.items ≡ length self.old.before.items }
        ensures shown { AreShown (shown_at ring.now) self.new.before.items }
        ensures room { room_in self.new.text ≡ room_in self.old.text }
        ensures listing { self.new.listing ≡ self.old.listing }
    {
        self.text.clear();
        put_round(&mut self.text, ring, &self.before, self.listing);
        keep_all(&mut self.before, ring);
    }

    /// Makes the line that ends settle step `number`, by the ring that the step left.
    pub fn end(&mut self, ring: &Ring, number: u32)
        requires ran { 1 ≤ ring.now.rounds }
        requires room { 96 ≤ room_in self.old.text }
        ensures bytes { self.new.text.bytes ≡ settle_line number (ring.now.rounds - 1) }
        ensures room { room_in self.new.text ≡ room_in self.old.text }
        ensures before { self.new.before ≡ self.old.before }
        ensures listing { self.new.listing ≡ self.old.listing }
    {
        sdh_report::laws::lines_are_short();
        self.text.clear();
        self.text.settle_line(number, ring.rounds() - 1);
    }
}
