//! The kind of a round at a port.
ghost use Rattle.std.specs.Prelude.{◌≡◌};
ghost use Rattle.sdh_outage.specs.Kinds.{kind_of_others};

use sdh_circuits::PortId;

/// The kind of a round at a port, by what the port delivered in it.
#[derive(Clone, Copy, Debug, PartialEq, Eq)]
pub enum Kind {
    /// AIS: nothing came.
    Ais,
    /// A chunk all of ones: nobody's bytes.
    Ones,
    /// A chunk of the far customer's bytes that follows the one of the round before, or comes after a round without
    /// one.
    InOrder,
    /// A chunk of the far customer's bytes that doesn't follow the one of the round before.
    Jump,
    /// A chunk of the far customer's bytes in two pieces, with other bytes between them or with some bytes left out.
    Torn,
    /// A chunk that isn't the far customer's and has bytes that a port of another circuit sends: the first such port.
    Foreign(PortId),
    /// Any other chunk.
    Strange,
}

/// Returns the kind of a round that brought a chunk which isn't the far customer's, by the port of another circuit that
/// sends its bytes, if there is one.
pub fn kind_of_others(whose: Option<PortId>) -> Kind
    ensures { result ≡ kind_of_others whose }
{
    match whose {
        Some(port) => Kind::Foreign(port),
        None => Kind::Strange,
    }
}
