//! What a run lists of each report.

use sdh_circuits::PortId;

/// What a run lists of each report.
#[derive(Clone, Copy, Debug, PartialEq, Eq)]
pub enum Listing {
    /// The whole report: the line of its settle step, of each node and of each port.
    Reports,
    /// All bytes that one port delivered.
    Port(PortId),
    /// The number of ports that delivered a chunk, and of those that delivered AIS.
    Counts,
}
