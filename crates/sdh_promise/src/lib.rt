//! What a plan's reports have to show to its customers, in short what they owe. This crate has definitions of it, and
//! no code that runs. What a script changes in a ring, and what happened at its sides and ports by then, is defined in
//! `sdh_restoration`. `specs/Owed.antt` says what each report owes, and `specs/Plans.antt` says it of a plan. Each
//! function here has a law as its contract and no work to do.
#![tactic(auto)]

ghost use Rattle.sdh_promise.specs.Laws.{ReportsGoOn, ReportsRemember, SidesAreTold, PortsAreTold, OwedByTheOther};

/// In a list of reports that show what they owe, the round of each comes after the round of the report before it,
/// within the limit of a settle step, and the number of this round is a multiple of 128.
pub fn reports_go_on()
    ensures { ReportsGoOn }
{}

/// Take a script whose reports show what they owe. What its first report owes follows from the changes and rounds up to
/// that report. What its second report owes follows from those together with the changes and rounds since.
pub fn reports_remember()
    ensures { ReportsRemember }
{}

/// A side sees the condition of the fibre that ends at it. A port gets its own slips alone. Where no span is applied,
/// what a port is owed follows from what happened at the other end of its circuit.
pub fn all_are_told()
    ensures sides { SidesAreTold }
    ensures ports { PortsAreTold }
    ensures other { OwedByTheOther }
{}
