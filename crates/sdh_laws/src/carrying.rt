//! What ports deliver in a quiet window: over honest fibres, in calm rounds and settled states, each port delivers what
//! it is owed.
//!
//! Each function here is a law: it does nothing, and its contract is the law, whose words are in `specs/`.

ghost use Rattle.sdh_laws.specs.Carrying.Laws.{ASpanCarries, FailuresAreApplied, QuietRingsDeliverWhatIsDue, SettledRingsAreRestored};
ghost use Rattle.sdh_laws.specs.Carrying.Laws.{SettledRingsRestore, RingsHaveCircuits};

/// Over a span that didn't fail, an AU-4 brings in a calm round what the neighbour sent in it in the calm round before.
pub fn a_span_carries()
    ensures { ASpanCarries }
{}

/// A side that failed is on an applied span.
pub fn failures_are_applied()
    ensures { FailuresAreApplied }
{}

/// After 2n quiet rounds each port delivers what it is owed.
pub fn quiet_rings_deliver_what_is_due()
    ensures { QuietRingsDeliverWhatIsDue }
{}

/// After a settle step that ended with a quiet window, the nodes are in the settled states and each port has delivered
/// what it is owed.
pub fn settled_rings_are_restored()
    ensures { SettledRingsAreRestored }
{
    sdh_signal::still_rings_are_settled();
}

/// Where a stretch ends with a quiet window, the ring is restored under the requests that the histories give for its
/// last round.
pub fn settled_rings_restore()
    ensures { SettledRingsRestore }
{
    sdh_signal::still_rings_are_settled();
}

/// The circuits of every ring are circuits of its size.
pub fn rings_have_circuits()
    ensures { RingsHaveCircuits }
{}
