//! How soon a ring comes to rest, over definitions alone: `specs/Converging/Steady.antt` says what stays the same from
//! some round on, `specs/Converging/Laws.antt` has the laws of every ring, and `specs/Converging/Healthy.antt` those of
//! a healthy one. Each function here has a law as its contract and no work to do.

ghost use Rattle.sdh_laws.specs.Converging.Laws.{WindowsComeSoon, ASpanIsSteady, PointersRest, CalmEndsWindows, RoundsGetCalm};
ghost use Rattle.sdh_laws.specs.Converging.Laws.{RingsConverge, StepsAnswer, StretchesConverge};
ghost use Rattle.sdh_laws.specs.Converging.Healthy.{HealthyRoundsAreCalm, HealthyStepsSettle, HealthyRingsApplyNothing};
ghost use Rattle.sdh_laws.specs.Converging.Healthy.{HealthyStepsDeliver};
ghost use Rattle.sdh_laws.specs.Converging.Rings.{ARingOccurs};

/// An AU-4 that is steady where it is sent over a span is steady nine rounds later where it is received.
pub fn a_span_is_steady()
    ensures { ASpanIsSteady }
{}

/// In settled states all pointers come to rest.
pub fn pointers_rest()
    ensures { PointersRest }
{}

/// Where all rounds are calm from some round on, a window ends at most 3n + 128 rounds later.
pub fn calm_ends_windows()
    ensures { CalmEndsWindows }
{}

/// Where nothing happens but rounds, all rounds are calm from the (31n + 128)-th on.
pub fn rounds_get_calm()
    ensures { RoundsGetCalm }
{
    sdh_signal::rings_settle();
}

/// From every whole ring on, a quiet window ends within 34n + 256 rounds.
pub fn windows_come_soon()
    ensures { WindowsComeSoon }
{
    sdh_signal::rings_settle();
}

/// In every whole ring in which nothing but rounds happens, a quiet window ends.
pub fn rings_converge()
    ensures { RingsConverge }
{
    sdh_signal::rings_settle();
}

/// No settle step with a large limit is unsettled.
pub fn steps_answer()
    ensures { StepsAnswer }
{
    sdh_signal::rings_settle();
}

/// A window ends after any stretches of changes and rounds.
pub fn stretches_converge()
    ensures { StretchesConverge }
{
    sdh_signal::rings_settle();
}

/// The rounds of a healthy ring are calm from round number n + 4 on.
pub fn healthy_rounds_are_calm()
    ensures { HealthyRoundsAreCalm }
{}

/// The settle steps of a healthy ring end with rounds 128, 256 and so on.
pub fn healthy_steps_settle()
    ensures { HealthyStepsSettle }
{}

/// In a healthy ring no span is applied.
pub fn healthy_rings_apply_nothing()
    ensures { HealthyRingsApplyNothing }
{}

/// After each settle step of a healthy ring each port has delivered what it is owed where nothing is applied.
pub fn healthy_steps_deliver()
    ensures { HealthyStepsDeliver }
{
    sdh_signal::still_rings_are_settled();
}

/// There is a ring of three nodes, with cut and degraded fibres, for which the laws hold.
pub fn a_ring_occurs()
    ensures { ARingOccurs }
{
    sdh_signal::rings_settle();
}
