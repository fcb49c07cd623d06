//! A ring of add-drop multiplexers and its fibres: definitions and their laws, and no code that runs. Its rounds and
//! settle steps are those of `sdh_rounds`, and what happens between rounds is in `specs/Rings/Changes.antt`. Each
//! function here has a law as its contract and no work to do.
ghost use Rattle.sdh_node.specs.Rings.Laws.{ChangesKeepHonest, CallsChange, ChangesKeepPrepared, NewHolds, HistoriesHold, ClocksGoOn};
ghost use Rattle.sdh_node.specs.Rings.Laws.{ClocksTellWhatHappened};

/// Changes leave honest fibres honest.
pub fn changes_keep_honest()
    ensures { ChangesKeepHonest }
{}

/// Each call between rounds does to a ring or its fibres what a `Change` does.
#[tactic(auto, using(crate::proofs::RingLaws::Histories::calls_change))]
pub fn calls_change()
    ensures { CallsChange }
{}

/// Changes that may happen leave prepared fibres prepared.
pub fn changes_keep_prepared()
    ensures { ChangesKeepPrepared }
{}

/// In a new ring over new fibres every side has a clear fibre and no command, at moment 0.
#[tactic(auto, using(crate::proofs::RingLaws::Histories::new_holds))]
pub fn new_holds()
    ensures { NewHolds }
{}

/// What holds on a side when a round of some stretches begins follows from the history of these stretches.
#[tactic(auto, using(crate::proofs::RingLaws::Histories::histories_hold))]
pub fn histories_hold()
    ensures { HistoriesHold }
{}

/// A port's clock goes on by each round, whatever arrives, and between rounds only slips at its own port change it.
/// Where no slips are added, 68 rounds use up all that wait.
#[tactic(auto, using(crate::proofs::RingLaws::Clocks::clocks_go_on))]
pub fn clocks_go_on()
    ensures { ClocksGoOn }
{}

/// A port's clock by the history of the ring is its clock by what happened at the port: the slips ordered there, and
/// the rounds.
#[tactic(auto, using(crate::proofs::RingLaws::Happened::clocks_tell))]
pub fn clocks_tell_what_happened()
    ensures { ClocksTellWhatHappened }
{}
