//! What comes from both sides before a round. The frames are read in one go, and not one after the other.
ghost use Rattle.std.specs.Prelude.{◌≡◌, ℕ, List, Option, Err, IfErr, OnOk, length};
ghost use Rattle.std.specs.Io.KnownBytes.{Consumes};
ghost use Rattle.sdh_node_cli.specs.Faults.{CountsFault};
ghost use Rattle.sdh_node_cli.specs.Bench.{size_after, after_coming};
ghost use Rattle.sdh_node_cli.specs.Turns.{with_ahead, IsAhead, TakesPart, TakesBoth, both_sizes};

use crate::bench::Bench;
use crate::pair::{Pair, size_of};
use crate::record::Came;
use crate::stop::Stop;
use sdh_outside::Source;
use sdh_overhead::Landed;
use sdh_ringmap::{Rate, Side};

/// What comes from both sides before a round.
#[derive(Clone, Copy)]
pub struct Coming {
    pub west: Came,
    pub east: Came,
    /// The first byte of the frame from the west, where it was read before.
    pub first: Option<u8>,
}

// Returns the number of bytes that follow a record for what came on a side.
fn size_after(rate: Rate, came: Came) -> usize
    ensures { result ≡ size_after rate came }
{
    match came {
        Came::Nothing | Came::Dark => 0,
        Came::Frame => size_of(rate),
    }
}

// Keeps for the next round of a bench what came on a side. `bytes` are those of the frame, where one came, which lands
// in the inbox.
#[tactic(auto, unfolding(crate::specs::Bench::after_coming))]
fn take_in(bench: &mut Bench, inbox: &mut Landed, side: Side, came: Came, bytes: &[u8])
    requires whole { length bytes.now ≡ size_after bench.old.node.settings.rate came }
    requires rate { inbox.old.rate ≡ bench.old.node.settings.rate }
    ensures bench { bench.new ≡ record bench.old { node = after_coming side came bytes.now bench.old.node } }
    ensures rate { inbox.new.rate ≡ inbox.old.rate }
{
    match came {
        Came::Nothing => {}
        Came::Dark => bench.darken(side),
        Came::Frame => bench.take_frame(inbox, side, bytes),
    }
}

// Keeps for the next round of a bench what came on both sides. `bytes` are those of the frames, the one from the west
// first.
fn take_pair(bench: &mut Bench, inbox: &mut Landed, came: Coming, bytes: &[u8])
    requires whole { length bytes.now ≡ both_sizes bench.old came.west came.east }
    requires rate { inbox.old.rate ≡ bench.old.node.settings.rate }
    ensures both { (left now : Option (List ℕ)) → Consumes left now bytes.now → TakesBoth bench.old bench.new came.west came.east left now }
    ensures rate { inbox.new.rate ≡ inbox.old.rate }
{
    let (west, east) = bytes.split_at(size_after(bench.rate(), came.west));
    take_in(bench, inbox, Side::West, came.west, west);
    take_in(bench, inbox, Side::East, came.east, east);
}

/// Reads what came on both sides, the frame from the west first, and keeps it for the next round of a bench. Frames are
/// read into `pair`, and land in `inbox`. Returns `Cut` where the source ends within the frames, and `ReadFault` where a
/// read fails: then the bench keeps nothing.
pub fn take_both<R: Source>(
    bench: &mut Bench,
    inbox: &mut Landed,
    pair: &mut Pair,
    source: &mut R,
    came: Coming,
) -> Result<(), Stop>
    requires ahead { IsAhead came.west came.first }
    requires pair { pair.old.rate ≡ bench.old.node.settings.rate }
    requires inbox { inbox.old.rate ≡ bench.old.node.settings.rate }
    ensures ok { OnOk result (TakesBoth bench.old bench.new came.west came.east (with_ahead came.first (R.left source.old)) (R.left source.new)) }
    ensures part { IfErr result
        (TakesPart (both_sizes bench.old came.west came.east) (with_ahead came.first (R.left source.old)) (R.left source.new)) }
    ensures reads { CountsFault R.exact (R.faults source.old) (R.faults source.new) (result ≡ Err Stop.ReadFault) }
    ensures pair { pair.new.rate ≡ pair.old.rate }
    ensures inbox { inbox.new.rate ≡ inbox.old.rate }
{
    let rate = bench.rate();
    let size = size_after(rate, came.west) + size_after(rate, came.east);
    pair.read(source, size, came.first)?;
    take_pair(bench, inbox, came, pair.front(size));
    Ok(())
}
