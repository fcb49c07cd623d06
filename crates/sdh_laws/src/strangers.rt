//! What holds of a ring over honest fibres in every round, quiet or not, as long as no controller of a node that passes
//! traffic through is held. Fibres may be cut, mended and degraded, sides commanded, and clocks slip at any time.
//!
//! Each function here is a law: it does nothing, and its contract is the law, whose words are in `specs/`.

ghost use Rattle.sdh_laws.specs.Strangers.Laws.{VouchedRingsStay, RoundsKeepStrangersOut, StepsKeepStrangersOut, NoPortEverMeetsAStranger};
ghost use Rattle.sdh_laws.specs.Strangers.Laws.{NodesAsideMayBeHeld, NodesThatDoNotPassMayBeHeld, SettledRingsAreVouchedFor};
ghost use Rattle.sdh_laws.specs.Strangers.Laws.{AHoldSpoilsItsOwnStepAlone, RingsComeToBeVouchedFor, StrangersAreGoneSoon};
ghost use Rattle.sdh_laws.specs.Strangers.Laws.{BytesComeAfterTransit, RoutesAreTransits, TransitsAreShort, StepsDeliverAfterTransit};
ghost use Rattle.sdh_laws.specs.Strangers.Laws.{BytesAlwaysComeAfterTransit, StepsDeliverRecentBytes, NothingComesLate};
ghost use Rattle.sdh_laws.specs.Strangers.Undisturbed.{UndisturbedPortsDeliver};
ghost use Rattle.sdh_laws.specs.Strangers.Spared.{ThreeSpareACustomer};
ghost use Rattle.sdh_laws.specs.Strangers.Untouched.{UnswitchedPortsDeliver, UnaskedPortsDeliver};

/// A new ring is vouched for. It stays so over every change, except one that holds the controller of a node that is
/// neither idle nor isolated.
pub fn vouched_rings_stay()
    ensures { VouchedRingsStay }
{}

/// A ring that is vouched for stays so over every round, and no port meets a stranger in it.
pub fn rounds_keep_strangers_out()
    ensures { RoundsKeepStrangersOut }
{}

/// A ring that is vouched for stays so over every settle step, and no port meets a stranger in any round of the step.
pub fn steps_keep_strangers_out()
    ensures { StepsKeepStrangersOut }
{}

/// From a new ring on, where no controller is ever held, each port delivers in each round AIS, ones, or bytes of what
/// its circuit's other port sent in some earlier round.
pub fn no_port_ever_meets_a_stranger()
    ensures { NoPortEverMeetsAStranger }
{}

/// From a new ring on no port meets a stranger, where each controller that is held is that of a node that stands aside
/// then: it is idle or isolated.
pub fn nodes_aside_may_be_held()
    ensures { NodesAsideMayBeHeld }
{}

/// From a new ring on no port meets a stranger where controllers of switched nodes are held too, but only right after a
/// stretch that ended with a quiet window. Controllers of nodes that pass traffic through are never held.
pub fn nodes_that_do_not_pass_may_be_held()
    ensures { NodesThatDoNotPassMayBeHeld }
{
    sdh_signal::still_rings_are_settled();
}

/// What a settle step leaves that ended with a window is vouched for, whatever the ring carried before, and whichever
/// controllers were held.
pub fn settled_rings_are_vouched_for()
    ensures { SettledRingsAreVouchedFor }
{
    sdh_signal::still_rings_are_settled();
}

/// No port meets a stranger in any round of a step whose own changes hold no controller of a node that passes traffic
/// through, whatever was held in the steps before.
pub fn a_hold_spoils_its_own_step_alone()
    ensures { AHoldSpoilsItsOwnStepAlone }
{
    sdh_signal::still_rings_are_settled();
}

/// Every whole ring becomes vouched for, whatever it carries. That takes 2n - 2 rounds after the last one that a
/// controller missed.
pub fn rings_come_to_be_vouched_for()
    ensures { RingsComeToBeVouchedFor }
{}

/// In a whole ring, whatever it carries, once 2n - 3 rounds are over after the last one that a controller missed, each
/// port delivers AIS, ones, or bytes that its circuit's other port sent exactly one transit before: as many rounds as
/// there are spans on the arc, or on the way once round the ring past some of these.
pub fn bytes_come_after_transit()
    ensures { BytesComeAfterTransit }
{}

/// The route between a circuit's ends has as many spans as a transit has rounds, whichever spans are applied.
pub fn routes_are_transits()
    ensures { RoutesAreTransits }
{}

/// Bytes that were sent one transit before are at most 2n - 3 rounds old.
pub fn transits_are_short()
    ensures { TransitsAreShort }
{}

/// In a whole ring, whatever it carries, no port meets a stranger once 2n - 3 rounds are over after the last one that a
/// controller missed. From then on none delivers bytes that are older than 2n - 3 rounds.
pub fn strangers_are_gone_soon()
    ensures { StrangersAreGoneSoon }
{}

/// In every settle step of a whole ring each port delivers AIS, ones, or its own customer's bytes of exactly one transit
/// before, once 2n - 3 rounds of the step are over after the last one that a controller missed.
pub fn steps_deliver_after_transit()
    ensures { StepsDeliverAfterTransit }
{}

/// In every settle step of a whole ring no port delivers bytes that are older than 2n - 3 rounds, once 2n - 3 rounds of
/// the step are over after the last one that a controller missed.
pub fn steps_deliver_recent_bytes()
    ensures { StepsDeliverRecentBytes }
{}

/// From a new ring on, where no controller is ever held, each port delivers in each round AIS, ones, or bytes that its
/// circuit's other port sent exactly one transit before.
pub fn bytes_always_come_after_transit()
    ensures { BytesAlwaysComeAfterTransit }
{}

/// From a new ring on, where no controller is ever held, no port delivers bytes that are older than 2n - 3 rounds.
pub fn nothing_comes_late()
    ensures { NothingComesLate }
{}

/// Where nothing is ever asked on a circuit's arc, its ports deliver straight over it from the first round on.
pub fn undisturbed_ports_deliver()
    ensures { UndisturbedPortsDeliver }
{}

/// In a ring at rest a circuit on whose arc no span is applied isn't touched by what happens, as long as no node switches
/// a side towards a span of its arc and no fibre there is cut: its ports go on delivering straight over the arc.
pub fn unswitched_ports_deliver()
    ensures { UnswitchedPortsDeliver }
{
    sdh_signal::still_rings_are_settled();
}

/// In a ring at rest a circuit on whose arc nothing is asked isn't touched by what happens, as long as nothing is asked
/// there: its ports go on delivering straight over the arc, whichever controllers are held.
pub fn unasked_ports_deliver()
    ensures { UnaskedPortsDeliver }
{
    sdh_signal::still_rings_are_settled();
}

/// In a ring of three at rest one span is cut both ways. The customer whose circuit uses the two others isn't touched.
pub fn three_spare_a_customer()
    ensures { ThreeSpareACustomer }
{
    sdh_signal::still_rings_are_settled();
}
