//! What can be read of the ports of a ring.
ghost use Rattle.std.specs.Prelude.{◌≡◌, ◌<◌, ◌≤◌, length};
ghost use Rattle.sdh_circuits.specs.declared.PortId.{PortId};
ghost use Rattle.sdh_circuits.specs.Provisioning.{Provisioning};
ghost use Rattle.sdh_payload.specs.Outlet.{Outlet};

use sdh_circuits::{CircuitMap, PortId};
use sdh_payload::Delivered;

/// A ring whose ports can be looked at.
pub trait ShowsPorts {
    /// The ring's circuits, as contracts see them.
    ghost provisioning: { Self → Provisioning };

    /// What a port of a circuit delivered in the last round, with its pointer value.
    ghost outlet: { Self → PortId → Outlet };

    /// Returns the circuits.
    fn circuits(&self) -> &CircuitMap
        ensures { result.now ≡ provisioning self.now };

    /// Returns what a port of a circuit delivered in the last round, and AIS before the first.
    fn port(&self, port: PortId) -> &Delivered
        requires { port.circuit < length (provisioning self.now).circuits }
        ensures { result.now ≡ (outlet self.now port).delivered };

    /// Returns the pointer value of the interpreter through which a port's bytes came, and 0 where the port delivers
    /// AIS.
    fn value(&self, port: PortId) -> u16
        requires { port.circuit < length (provisioning self.now).circuits }
        ensures value { result ≡ (outlet self.now port).value }
        ensures small { result ≤ 782 };
}
