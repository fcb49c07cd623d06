//! The laws of signalling, over definitions alone. `specs/Signals.antt` has one round of a ring whose nodes send each
//! other K words without frames. `specs/Runs.antt` has runs of such a ring, with the same needs in each round, however
//! its nodes come to hear what was sent. `specs/Laws.antt` has the laws. Each function here has a law as its contract
//! and no work to do.
ghost use Rattle.sdh_signal.specs.Laws.{RunsSettle, WordsStay, StillRingsAreSettled, FreeRounds, RingsSettle, RelayedWordsLeadBack};
ghost use Rattle.sdh_signal.specs.Laws.{NotAllPassThrough};

/// A run is in the settled states from round 4n + 7 on.
#[tactic(auto, using(crate::proofs::Fixpoint::runs_settle))]
pub fn runs_settle()
    ensures { RunsSettle }
{}

/// In a run the words stay the same from round 5n + 7 on.
#[tactic(auto, using(crate::proofs::Fixpoint::words_stay))]
pub fn words_stay()
    ensures { WordsStay }
{}

/// A ring of signals in which three rounds, one after the other and none of them the first, hold no node and change no
/// word is in the settled states.
#[tactic(auto, using(crate::proofs::Fixpoint::still_rings_are_settled))]
pub fn still_rings_are_settled()
    ensures { StillRingsAreSettled }
{}

/// A round with a list of held nodes that holds none is the round without such a list.
#[tactic(auto, using(crate::proofs::Fixpoint::free_rounds))]
pub fn free_rounds()
    ensures { FreeRounds }
{}

/// A ring of signals whose needs stay the same, and in which no node is held, is in the settled states after 4n + 8
/// rounds. It changes no word after 5n + 8 rounds.
#[tactic(auto, using(crate::proofs::Fixpoint::rings_settle))]
pub fn rings_settle()
    ensures { RingsSettle }
{}

/// Where the words of a run stay the same from one round to the next, each word that is passed on in the second leads
/// back to a node that sends it as its own in that round.
#[tactic(auto, using(crate::proofs::Tracing::relayed_words_lead_back))]
pub fn relayed_words_lead_back()
    ensures { RelayedWordsLeadBack }
{}

/// Where the words of a run stay the same from one round to the next, some node doesn't pass through in the second.
#[tactic(auto, using(crate::proofs::Tracing::not_all_pass_through))]
pub fn not_all_pass_through()
    ensures { NotAllPassThrough }
{}
