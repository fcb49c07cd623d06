//! What is listed of a settle step.

use sdh_circuits::PortId;

/// What is listed of each settle step.
#[derive(Clone, Copy, Debug, PartialEq, Eq)]
pub enum OutageListing {
    /// The outages of all ports.
    Ports,
    /// The changes of one port, and its outage.
    Trace(PortId),
}
