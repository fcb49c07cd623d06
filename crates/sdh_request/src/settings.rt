//! What an operator sets for all nodes of a ring.
use sdh_ringmap::Rate;

/// What an operator sets for all nodes of a ring.
#[derive(Clone, Copy, Debug, PartialEq, Eq)]
pub struct Settings {
    /// The rate of all frames.
    pub rate: Rate,
    /// The least number of B2 violations in a frame at which a side is degraded, 1 to 3N in a plan.
    pub threshold: u16,
    /// The number of moments that a side waits to restore once its last defect ended. With 0 it doesn't wait.
    pub wait: u32,
}
