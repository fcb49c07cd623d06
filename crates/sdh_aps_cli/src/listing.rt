//! What is asked for, and what is written of the run of a plan.

use crate::window::{FrameAsk, FrameWindow};

/// The nodes whose lines are written.
#[derive(Clone, Copy, Debug, PartialEq, Eq)]
pub enum SignalListing {
    /// The lines of all nodes.
    All,
    /// The lines of the node of this identifier.
    Node(u8),
}

/// What is asked for of a plan that is run.
#[derive(Clone, Copy, Debug, PartialEq, Eq)]
pub enum SignalAsk {
    /// The lines of nodes.
    Lines(SignalListing),
    /// Frames that a node sends.
    Frames(FrameAsk),
}

/// What is written of the run of a plan.
#[derive(Clone, Copy, Debug, PartialEq, Eq)]
pub enum PlanListing {
    /// The lines of nodes.
    Lines(SignalListing),
    /// Frames that a node of the plan's ring sends.
    Frames(FrameWindow),
}
