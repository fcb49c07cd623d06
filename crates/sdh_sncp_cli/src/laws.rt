//! Laws of scripts over path rings, over definitions alone. Each function has a law as its contract and no work to do.
ghost use Rattle.sdh_sncp_cli.specs.Laws.{ReportsAreDue, PathScriptsSettle};

/// Over honest fibres each report shows for every port what it is owed.
pub fn reports_are_due()
    ensures { ReportsAreDue }
{}

/// Over honest fibres no settle step with a large limit is unsettled.
pub fn path_scripts_settle()
    ensures { PathScriptsSettle }
{}
