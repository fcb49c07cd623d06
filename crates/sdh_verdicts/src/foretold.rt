//! The requests that decide what a plan's reports show follow from the plan's changes alone: no round is counted and
//! none is run. Each function here has a law as its contract and no work to do.
ghost use Rattle.sdh_verdicts.specs.Foretold.{RequestsRest, ReportsAreForetold, LastReportsAreForetold};

/// Where each stretch of a run has at least three rounds, the requests in the last round follow from the changes alone.
pub fn requests_rest()
    ensures { RequestsRest }
{}

/// Where the reports of a script show what they owe, the requests that decide it follow from the script's changes
/// alone.
pub fn reports_are_foretold()
    ensures { ReportsAreForetold }
{}

/// Where a script runs to its end and its reports show what they owe, the requests that decide what the last one owes
/// follow from all the script's changes.
pub fn last_reports_are_foretold()
    ensures { LastReportsAreForetold }
{}
