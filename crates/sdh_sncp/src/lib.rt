//! Path protection over a ring of fibres: what a port sends goes both ways round, and each port takes the way on which
//! its circuit comes with a pointer. (After SNC/I of ITU-T G.841; the rules are this project's own.)
//!
//! A node's round is `path_node_round` in `specs/Node.antt`. The ring's rounds are those of `sdh_rounds`. What a port is
//! owed is `due_path` in `specs/Due.antt`.
#![tactic(auto)]

mod cross;
mod laws;
mod node;
mod ring;
mod shared;
mod slots;
mod station;

pub use laws::{
    comes_is_norm, new_rings_are_silent, new_worlds_are_whole, quiet_rings_deliver,
    rounds_get_calm, stay_placed, stay_whole, steps_answer, steps_deliver,
};
pub use ring::{PathError, PathRing};
