//! What the nodes of a ring show.
ghost use Rattle.std.specs.Prelude.{◌≡◌, ◌<◌, length};
ghost use Rattle.sdh_aps.specs.Shown.{HasWords};
ghost use Rattle.sdh_aps_cli.specs.Signalled.{shown_at};

use sdh_aps::{Shown, shown_of};
use sdh_ring::ShowsNodes;
use sdh_ringmap::Pos;

/// Returns what the node at a position shows after the last round.
pub fn shown_at<R: ShowsNodes>(ring: &R, at: Pos) -> Shown
    requires { at.0 < length (R.held ring.now).ids }
    ensures shown { result ≡ shown_at (R.held ring.now) at.0 }
    ensures words { HasWords result }
{
    shown_of(ring.adm(at))
}
