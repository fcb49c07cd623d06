//! The rounds in which the kind of what a port delivers changes.
ghost use Rattle.std.specs.Prelude.{◌≡◌};
ghost use Rattle.sdh_outage.specs.Changes.{same_kind, is_change};

use crate::kind::Kind;

/// A round of another kind than the one before, or the first of a settle step.
#[derive(Clone, Copy, Debug)]
pub struct Change {
    /// The number of the round.
    pub round: u32,
    /// The kind of the round at the port.
    pub kind: Kind,
}

// Returns whether two rounds are of one kind, whatever port the foreign bytes came from.
fn same_kind(one: Kind, other: Kind) -> bool
    ensures { result ≡ same_kind one other }
{
    match (one, other) {
        (Kind::Ais, Kind::Ais) => true,
        (Kind::Ones, Kind::Ones) => true,
        (Kind::InOrder, Kind::InOrder) => true,
        (Kind::Jump, Kind::Jump) => true,
        (Kind::Torn, Kind::Torn) => true,
        (Kind::Foreign(_), Kind::Foreign(_)) => true,
        (Kind::Strange, Kind::Strange) => true,
        _ => false,
    }
}

/// Returns whether a round of this kind is a change after one of kind `last`. The first round is one.
pub(crate) fn is_change(last: Option<Kind>, kind: Kind) -> bool
    ensures { result ≡ is_change last kind }
{
    match last {
        None => true,
        Some(before) => !same_kind(before, kind),
    }
}
