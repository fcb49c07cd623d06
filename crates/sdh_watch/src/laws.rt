//! Watches on the ports of a ring that runs a script, over definitions alone. `specs/Watching.antt` says what rounds
//! show to them, and `specs/Scripts.antt` what a script comes to. `specs/Owed.antt` says what its watches should show.
//! `specs/Laws.antt` has the laws. Each function here has a law as its contract and no work to do.
ghost use Rattle.sdh_watch.specs.Laws.{WatchesAreClean, WatchedScriptsSettle};

/// Over honest fibres each watch shows what its port is owed: AIS, or no fault in all VC-4s of 128 chunks.
pub fn watches_are_clean()
    ensures { WatchesAreClean }
{
    sdh_laws::carrying::settled_rings_restore();
    sdh_laws::resting::steps_leave_at_rest();
}

/// Over honest fibres no settle step with a large limit is unsettled.
pub fn scripts_settle()
    ensures { WatchedScriptsSettle }
{
    sdh_laws::converging::stretches_converge();
    sdh_laws::carrying::settled_rings_restore();
    sdh_laws::resting::steps_leave_at_rest();
}
