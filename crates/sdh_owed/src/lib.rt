//! A script over a ring and its fibres: definitions and their laws, and no code that runs. `specs/Reports.antt` says
//! what a report shows of a ring. `specs/Scripts.antt` says what a script comes to, and `specs/Healthy.antt` what a
//! script comes to that has no steps but settle steps. `specs/Course.antt` says through which stretches of rounds a
//! script went and what holds in them. `specs/Counting.antt` says what that means for the frames sent.
//! `specs/Occurring.antt` works the promise of every round out for one ring, and `specs/Laws.antt` has the laws of
//! reports. Each function here has a law as its contract and no work to do.
#![tactic(auto)]

ghost use Rattle.sdh_owed.specs.Laws.{ReportsAreOwed, ScriptsSettle, HealthyScripts};
ghost use Rattle.sdh_owed.specs.Course.{CoursesAreTold};
ghost use Rattle.sdh_owed.specs.Counting.{CoursesCountFrames};
ghost use Rattle.sdh_owed.specs.Occurring.{ThreeAreOwedSoon, ThreeMeetNoStrangers};

/// Over honest fibres each report shows for every port what it is owed.
pub fn reports_are_owed()
    ensures { ReportsAreOwed }
{
    sdh_laws::carrying::settled_rings_restore();
}

/// Over honest fibres no settle step with a large limit is unsettled.
pub fn scripts_settle()
    ensures { ScriptsSettle }
{
    sdh_laws::converging::stretches_converge();
}

/// Over honest fibres a script of settle steps alone shows a healthy ring.
pub fn healthy_scripts()
    ensures { HealthyScripts }
{
    sdh_laws::converging::healthy_steps_settle();
    sdh_laws::converging::healthy_steps_deliver();
}

/// Over honest fibres each script from a new ring on has a course, however it ends. No port meets a stranger, nor bytes
/// of long ago, in a settle step right before which no controller of a node that passes traffic through is held.
/// In any other settle step none does from 2n - 3 rounds after the step's longest hold on. Soon after the last
/// changes all ports have what they are owed.
pub fn courses_are_told()
    ensures { CoursesAreTold }
{
    sdh_signal::still_rings_are_settled();
    sdh_laws::strangers::a_hold_spoils_its_own_step_alone();
    sdh_laws::restoring::stretches_are_restored_soon();
    sdh_laws::restoring::free_rings_are_restored_soon();
    sdh_laws::restoring::held_followed_rings_are_restored_soon();
    sdh_laws::restoring::followed_ports_are_owed_soon();
    sdh_laws::restoring::new_rings_are_followed();
    sdh_laws::restoring::changes_keep_followed();
    sdh_laws::restoring::windows_leave_followed();
}

/// Over a plant that reports its frames, the reports of a script that came to its end say how many were sent.
pub fn courses_count_frames()
    ensures { CoursesCountFrames }
{}

/// In a ring of three over honest fibres each port shows what it is owed after slips, after a cut span, and after a
/// hold.
pub fn three_are_owed_soon()
    ensures { ThreeAreOwedSoon }
{
    sdh_laws::converging::a_ring_occurs();
    sdh_laws::restoring::stretches_are_restored_soon();
    sdh_laws::restoring::free_rings_are_restored_soon();
    sdh_laws::restoring::held_followed_rings_are_restored_soon();
    sdh_laws::restoring::followed_ports_are_owed_soon();
    sdh_laws::restoring::new_rings_are_followed();
    sdh_laws::restoring::changes_keep_followed();
    sdh_laws::restoring::windows_leave_followed();
}

/// In a ring of three over honest fibres no port meets a stranger, nor bytes of long ago, while a span is cut or mended
/// and the controller of a node is held.
pub fn three_meet_no_strangers()
    ensures { ThreeMeetNoStrangers }
{
    sdh_laws::converging::a_ring_occurs();
    sdh_signal::still_rings_are_settled();
    sdh_laws::strangers::a_hold_spoils_its_own_step_alone();
    sdh_laws::converging::windows_come_soon();
}
