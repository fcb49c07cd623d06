//! The fibres between the nodes of a ring: what a ring asks of them, and fibres in memory.
#![tactic(auto)]

mod failing_plant;
mod fibre_plant;
mod frames;
mod keeping_plant;
mod laws;
mod plant;
mod recording_plant;
mod told_plant;

pub use failing_plant::{FailingPlant, PlantCall};
pub use fibre_plant::FibrePlant;
pub use keeping_plant::KeepingPlant;
pub use laws::{
    a_new_plant_is_dark, an_honest_plant_tells_none, calls_keep_a_plant_honest,
    calls_keep_a_plant_prepared, what_is_sent_comes_to_the_neighbour,
};
pub use plant::{Arrived, Failed, LendingPlant, Plant, PrepareError};
pub use recording_plant::RecordingPlant;
pub use sdh_ringmap::{Condition, FibreEvent};
pub use told_plant::{Told, ToldPlant};
