//! Laws of the calls. Each function does nothing: its contract is the law.
ghost use Rattle.std.specs.Prelude.{◌≡◌, true};
ghost use Rattle.sdh_plant.specs.Fibres.{IsHonest};
ghost use Rattle.sdh_plant.specs.Laws.{NewIsDark, SentComes, StayPrepared, StayHonest};

use crate::plant::Plant;

/// Where no arrivals are given in advance, a frame that is sent on a side comes to the neighbour there, on its other
/// side, as the condition of the fibre lets it through.
pub fn what_is_sent_comes_to_the_neighbour()
    ensures { SentComes }
{}

/// Where no arrivals are given in advance, nothing comes out of any fibre right after `prepare`.
pub fn a_new_plant_is_dark()
    ensures { NewIsDark }
{}

/// `prepare` makes fibres for its rate and number of positions, and the other calls keep them so.
pub fn calls_keep_a_plant_prepared()
    ensures { StayPrepared }
{}

/// Honest fibres stay honest, and what comes out of them is what was sent, as their conditions let it through.
#[tactic(auto, using(crate::proofs::Calling::stay_honest))]
pub fn calls_keep_a_plant_honest()
    ensures { StayHonest }
{}

/// An honest plant has no told arrivals: none that are given in advance.
pub fn an_honest_plant_tells_none<P: Plant>(plant: &P)
    ensures { (P.fibres plant.now).honest ≡ true → IsHonest (P.fibres plant.now) }
{}
