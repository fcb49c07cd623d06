//! Laws of what becomes of circuits in a case. Each function here has a law as its contract and no work to do.
ghost use Rattle.sdh_verdicts.specs.Laws.{LongerPlansArePlans, CasesAreShown};
ghost use Rattle.sdh_verdicts.specs.Occurring.{CaseOccurs};

/// A plan with a case after its script is a plan exactly where there is room for the case.
pub fn longer_plans_are_plans()
    ensures { LongerPlansArePlans }
{}

/// Where a case comes after a plan's script, the last report shows each port as the verdict on its circuit says. That
/// is AIS where the circuit is lost, and else what the customer at the other end sent `hops_of` rounds before.
pub fn cases_are_shown()
    ensures { CasesAreShown }
{
    crate::foretold::last_reports_are_foretold();
}

/// A plan of three nodes has a case to which both laws apply: a span is cut, and a circuit goes round it.
pub fn a_case_occurs()
    ensures { CaseOccurs }
{
    longer_plans_are_plans();
    cases_are_shown();
}
