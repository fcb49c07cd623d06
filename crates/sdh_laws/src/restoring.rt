//! How soon every port delivers what it is owed again, over definitions alone: `specs/Restoring/Laws.antt` and
//! `specs/Restoring/Followed.antt` have the laws. Each function here has a law as its contract and no work to do.

ghost use Rattle.sdh_laws.specs.Restoring.Laws.{RingsAreRestoredSoon, FreeRingsAreRestoredSoon, UnslippedRingsAreRestoredSoon};
ghost use Rattle.sdh_laws.specs.Restoring.Laws.{PortsAreOwedSoon, UnslippedPortsAreOwedSoon, UnsettledRingsAreRestored};
ghost use Rattle.sdh_laws.specs.Restoring.Laws.{StretchesAreRestoredSoon};
ghost use Rattle.sdh_laws.specs.Restoring.Followed.{RoundsStayFollowed, NewRingsAreFollowed, ChangesKeepFollowed};
ghost use Rattle.sdh_laws.specs.Restoring.Followed.{WindowsLeaveFollowed, StepsLeaveFollowed};
ghost use Rattle.sdh_laws.specs.Restoring.Followed.{FollowedPortsAreOwedSoon, FollowedRingsAreRestoredSoon};
ghost use Rattle.sdh_laws.specs.Restoring.Followed.{HeldFollowedRingsAreRestoredSoon, PlainStretchesAreRestoredSoon};
ghost use Rattle.sdh_laws.specs.Restoring.Followed.{UnsettledFollowedRingsAreRestored};

/// From every whole ring on, each port delivers what it is owed in each round from number 12n + 102 on.
pub fn rings_are_restored_soon()
    ensures { RingsAreRestoredSoon }
{
    sdh_signal::rings_settle();
}

/// Where no controller is held, traffic is restored from the larger of round numbers 12n + 2 and 8n + 61 on.
pub fn free_rings_are_restored_soon()
    ensures { FreeRingsAreRestoredSoon }
{
    sdh_signal::rings_settle();
}

/// Where no controller is held and no slip waits, traffic is restored from round number 12n + 2 on.
pub fn unslipped_rings_are_restored_soon()
    ensures { UnslippedRingsAreRestoredSoon }
{
    sdh_signal::rings_settle();
}

/// From every whole ring on, each port has what comes over h hops from number 4n + 4h + 114 on, and AIS, where that is
/// owed, from number 5n + 100 on.
pub fn ports_are_owed_soon()
    ensures { PortsAreOwedSoon }
{
    sdh_signal::rings_settle();
}

/// Where no controller is held and no slip waits, each port has what comes over h hops from number 4n + 4h + 14 on, and
/// AIS, where that is owed, from number 5n on.
pub fn unslipped_ports_are_owed_soon()
    ensures { UnslippedPortsAreOwedSoon }
{
    sdh_signal::rings_settle();
}

/// A settle step of at least 12n + 102 rounds leaves the ring restored, even where no window ended.
pub fn unsettled_rings_are_restored()
    ensures { UnsettledRingsAreRestored }
{
    sdh_signal::rings_settle();
}

/// Traffic is restored after any stretches of changes and rounds, where the last one has at least 12n + 102 rounds.
pub fn stretches_are_restored_soon()
    ensures { StretchesAreRestoredSoon }
{
    sdh_signal::rings_settle();
}

/// Where no slip waits, a ring whose interpreters follow is followed again after four rounds or more.
pub fn rounds_stay_followed()
    ensures { RoundsStayFollowed }
{}

/// The interpreters of a new ring follow.
pub fn new_rings_are_followed()
    ensures { NewRingsAreFollowed }
{}

/// Each change leaves interpreters that follow.
pub fn changes_keep_followed()
    ensures { ChangesKeepFollowed }
{}

/// A quiet window leaves a ring whose interpreters follow, whatever happened before it.
pub fn windows_leave_followed()
    ensures { WindowsLeaveFollowed }
{
    sdh_signal::still_rings_are_settled();
}

/// A settle step that ended with a quiet window leaves a ring whose interpreters follow.
pub fn steps_leave_followed()
    ensures { StepsLeaveFollowed }
{
    sdh_signal::still_rings_are_settled();
}

/// Where interpreters follow, no slip waits, and no controller is held for more than some turns, each port has what
/// comes over h hops from number 4n + h + 11 and these turns on, and AIS, where that is owed, from 5n and these on.
pub fn followed_ports_are_owed_soon()
    ensures { FollowedPortsAreOwedSoon }
{
    sdh_signal::rings_settle();
}

/// Where interpreters follow, no controller is held and no slip waits, the ring is restored from round number 6n + 8
/// on.
pub fn followed_rings_are_restored_soon()
    ensures { FollowedRingsAreRestoredSoon }
{
    sdh_signal::rings_settle();
}

/// Where interpreters follow, no slip waits, and no controller is held for more than some turns, the ring is restored
/// from round number 6n + 8 and these turns on.
pub fn held_followed_rings_are_restored_soon()
    ensures { HeldFollowedRingsAreRestoredSoon }
{
    sdh_signal::rings_settle();
}

/// Where interpreters follow, no controller is held and no slip waits, a settle step of at least 6n + 8 rounds leaves
/// the ring restored, even where no window ended.
pub fn unsettled_followed_rings_are_restored()
    ensures { UnsettledFollowedRingsAreRestored }
{
    sdh_signal::rings_settle();
}

/// From a new ring on, without slips and holds, and where changes of fibres come at one moment or four rounds apart, each
/// stretch of at least 6n + 8 rounds leaves the ring restored. Orders may come in any round.
pub fn plain_stretches_are_restored_soon()
    ensures { PlainStretchesAreRestoredSoon }
{
    sdh_signal::rings_settle();
}
