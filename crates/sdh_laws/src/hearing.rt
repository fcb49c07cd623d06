//! What the nodes of a ring hear of each other, over definitions alone. `specs/Hearing/Placed.antt` says what each node
//! of a ring is, and `specs/Hearing/Paired.antt` what its fibres carry. `specs/Hearing/Signalling.antt` says what a
//! side brings in a round, and how a ring with frames is a ring of signals. `specs/Hearing/Laws.antt` has the laws.
//! Each function here has a law as its contract and no work to do.

ghost use Rattle.sdh_laws.specs.Hearing.Laws.{StayPlaced, NewWorldsAreWhole, StayWhole, SidesBring, SidesRead};
ghost use Rattle.sdh_laws.specs.Hearing.Laws.{ViolationsAreOfTheRoundBefore, NoneSaysAis, RoundsAreSignalRounds, WholeRoundsGoAsSignals};
ghost use Rattle.sdh_laws.specs.Hearing.Laws.{StepsStayWhole, CalmRoundsAreStill, ThreeCalmRoundsAreSettled, WindowsAreSettled};
ghost use Rattle.sdh_laws.specs.Hearing.Laws.{StepsSettle, RequestsAreTheHistorys, StretchesSettle, RunsGetStill, FreeRunsGetStill};

/// Each node stays in its place, whatever arrives.
#[tactic(auto, using(crate::proofs::hearing::Changes::stay_placed))]
pub fn stay_placed()
    ensures { StayPlaced }
{}

/// A new ring over new honest fibres is whole: its nodes are in their places, and its fibres carry what they sent.
pub fn new_worlds_are_whole()
    ensures { NewWorldsAreWhole }
{}

/// A whole ring stays whole over every round, and over every change that may happen between rounds.
#[tactic(auto, using(crate::proofs::hearing::Changes::stay_whole))]
pub fn stay_whole()
    ensures { StayWhole }
{}

/// From round 1 on a side fails exactly where its fibre is cut; otherwise the word comes that was sent to it.
#[tactic(auto, using(crate::proofs::hearing::Rounds::sides_bring))]
pub fn sides_bring()
    ensures { SidesBring }
{}

/// A side reads each AU-4 as it was sent where its fibre isn't cut, and ones where it is.
#[tactic(auto, using(crate::proofs::hearing::Rounds::sides_read))]
pub fn sides_read()
    ensures { SidesRead }
{}

/// The violations that B2 shows in a round are those that the fibre's condition made in the round before.
#[tactic(auto, using(crate::proofs::hearing::Shown::violations_are_of_the_round_before))]
pub fn violations_are_of_the_round_before()
    ensures { ViolationsAreOfTheRoundBefore }
{}

/// No node sends a word that is AIS of the multiplex section.
#[tactic(auto, using(crate::proofs::hearing::Rounds::none_says_ais))]
pub fn none_says_ais()
    ensures { NoneSaysAis }
{}

/// A round of a whole ring is a round of its ring of signals.
pub fn rounds_are_signal_rounds()
    ensures { RoundsAreSignalRounds }
{}

/// A round of a whole ring goes as a round of its ring of signals, whichever plant ran it.
pub fn whole_rounds_go_as_signals()
    ensures { WholeRoundsGoAsSignals }
{}

/// Settle steps leave a whole ring whole.
#[tactic(auto, using(crate::proofs::hearing::Going::steps_stay_whole))]
pub fn steps_stay_whole()
    ensures { StepsStayWhole }
{}

/// A calm round holds no node, and leaves all that is compared as it was.
pub fn calm_rounds_are_still()
    ensures { CalmRoundsAreStill }
{}

/// After three calm rounds the nodes are in the settled states.
#[tactic(auto, using(crate::proofs::hearing::Signalling::three_calm_rounds_are_settled))]
pub fn three_calm_rounds_are_settled()
    ensures { ThreeCalmRoundsAreSettled }
{
    sdh_signal::still_rings_are_settled();
}

/// In a quiet window the nodes are in the settled states.
#[tactic(auto, using(crate::proofs::hearing::Signalling::windows_are_settled))]
pub fn windows_are_settled()
    ensures { WindowsAreSettled }
{
    sdh_signal::still_rings_are_settled();
}

/// A settle step that ends with a quiet window leaves the ring whole, and its nodes in the settled states.
pub fn steps_settle()
    ensures { StepsSettle }
{
    sdh_signal::still_rings_are_settled();
}

/// Through any stretches the requests of all sides are those that their histories give.
#[tactic(auto, using(crate::proofs::hearing::Stretches::requests_are_the_historys))]
pub fn requests_are_the_historys()
    ensures { RequestsAreTheHistorys }
{}

/// In a quiet window that ends a stretch the nodes are in the settled states of the requests that the histories give.
#[tactic(auto, using(crate::proofs::hearing::Requests::stretches_settle))]
pub fn stretches_settle()
    ensures { StretchesSettle }
{
    sdh_signal::still_rings_are_settled();
}

/// Where no controller is held from round f on, the nodes' needs stay from round f + 3 on. Their states are settled
/// from round 4n + f + 10 on, and their words stay from round 5n + f + 10 on.
#[tactic(auto, using(crate::proofs::hearing::Steady::free_runs_get_still))]
pub fn free_runs_get_still()
    ensures { FreeRunsGetStill }
{
    sdh_signal::rings_settle();
}

/// A ring to which nothing happens but rounds comes into the settled states, and its words stay.
#[tactic(auto, using(crate::proofs::hearing::Steady::runs_get_still))]
pub fn runs_get_still()
    ensures { RunsGetStill }
{
    sdh_signal::rings_settle();
}
