//! Rest after a quiet window. Over honest fibres, and where nothing but rounds happens, all rounds are calm once six in
//! a row were, and each port delivers in each of them what it is owed. `specs/Resting/Rest.antt` says what a ring at
//! rest is.
//!
//! Each function here is a law: it does nothing, and its contract is the law, whose words are in `specs/`.

ghost use Rattle.sdh_laws.specs.Resting.Laws.{CalmGoesOn, StepsLeaveAtRest, RestGoesOn};

/// Where six rounds in a row are calm, all later ones are.
pub fn calm_goes_on()
    ensures { CalmGoesOn }
{
    sdh_signal::still_rings_are_settled();
}

/// After a settle step that ended with a quiet window, ring and fibres are at rest.
pub fn steps_leave_at_rest()
    ensures { StepsLeaveAtRest }
{
    sdh_signal::still_rings_are_settled();
}

/// A round of a ring at rest is calm, delivers what is owed, and leaves the ring at rest.
pub fn rest_goes_on()
    ensures { RestGoesOn }
{}
