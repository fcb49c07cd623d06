//! Laws of every path ring, over definitions alone. Each function has a law as its contract and no work to do.
ghost use Rattle.sdh_sncp.specs.Laws.{PathNodesStayPlaced, NewPathRingsAreWhole, NewRingsAreSilent, PathRingsStayWhole, QuietRingsDeliver, StepsDeliver};
ghost use Rattle.sdh_sncp.specs.Laws.{PathRoundsGetCalm, PathStepsAnswer, ComesIsNorm};

/// Each node stays in its place, whatever arrives.
pub fn stay_placed()
    ensures { PathNodesStayPlaced }
{}

/// A new ring over new honest fibres is whole: its nodes are in their places, and the fibres carry what they sent.
pub fn new_worlds_are_whole()
    ensures { NewPathRingsAreWhole }
{}

/// Before the first round every port delivers AIS.
pub fn new_rings_are_silent()
    ensures { NewRingsAreSilent }
{}

/// A whole ring stays whole over every round, and over every change of a fibre's condition.
pub fn stay_whole()
    ensures { PathRingsStayWhole }
{}

/// At the end of a quiet window all ports deliver what they are owed.
pub fn quiet_rings_deliver()
    ensures { QuietRingsDeliver }
{}

/// After every settle step that ended with a window, all ports deliver what they are owed.
pub fn steps_deliver()
    ensures { StepsDeliver }
{}

/// From the (9n + 20)-th round of a step on, all rounds are calm.
pub fn rounds_get_calm()
    ensures { PathRoundsGetCalm }
{}

/// No settle step with a large limit is unsettled.
pub fn steps_answer()
    ensures { PathStepsAnswer }
{}

/// An AU-4 comes with a pointer exactly where its interpreter's mode is Norm.
pub fn comes_is_norm()
    ensures { ComesIsNorm }
{}
