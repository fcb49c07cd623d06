//! What can be read of the nodes of a ring, whether a settle step runs or not, and of the ports of a `Ring`.
ghost use Rattle.std.specs.Prelude.{◌≡◌, ◌<◌, ◌≤◌, Some, length, slice_get};
ghost use Rattle.sdh_node.specs.Rings.Held.{HeldRing, outlet_at};

use crate::adm_ring::AdmRing;
use crate::ring::Ring;
use sdh_circuits::{CircuitMap, PortId};
use sdh_node::{Adm, Delivered, EachRound, Taking};
use sdh_ringmap::Pos;
use sdh_rounds::ShowsPorts;

/// A ring whose nodes can be looked at.
pub trait ShowsNodes {
    /// When the nodes take out of the received frames what their ports delivered.
    type When: Taking;

    /// What the ring holds, as contracts see it.
    ghost held: { Self → HeldRing };

    /// Returns how many nodes the ring has, 2 to 16.
    fn size(&self) -> usize
        ensures size { result ≡ length (held self.now).ids }
        ensures few { result ≤ 16 };

    /// Returns the node at a position.
    fn adm(&self, at: Pos) -> &Adm<Self::When>
        requires { at.0 < length (held self.now).ids }
        ensures { slice_get (held self.now).nodes at.0 ≡ Some result.now };
}

impl ShowsNodes for Ring {
    type When = EachRound;

    ghost held = { λ ring. ring };

    fn size(&self) -> usize {
        self.map().len()
    }

    fn adm(&self, at: Pos) -> &Adm {
        self.node(at)
    }
}

impl<S: Taking, T: Taking> ShowsNodes for AdmRing<S, T> {
    type When = S;

    ghost held = { λ ring. ring };

    fn size(&self) -> usize {
        self.map().len()
    }

    fn adm(&self, at: Pos) -> &Adm<S> {
        self.node(at)
    }
}

impl ShowsPorts for Ring {
    ghost provisioning = { λ ring. ring.circuits };

    ghost outlet = { outlet_at };

    fn circuits(&self) -> &CircuitMap {
        Ring::circuits(self)
    }

    fn port(&self, port: PortId) -> &Delivered {
        Ring::port(self, port)
    }

    fn value(&self, port: PortId) -> u16 {
        Ring::value(self, port)
    }
}
