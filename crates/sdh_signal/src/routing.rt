//! Routes through a ring: in settled states the connections of all nodes together lead each port of a joined circuit to
//! the circuit's other port, and every other port to AIS. A walk follows an AU-4 backwards through the connections,
//! span by span, to where it was sent.
//!
//! Each function here is a law: it does nothing, and its contract is the law, which `specs/RouteLaws.antt` states. The
//! protection switching is that of ITU-T G.841, MS shared protection rings.
ghost use Rattle.sdh_signal.specs.Rings.{OneSpanFailed, TwoSpansFailed, ANodeIsCutOff, ATie, TheLongestRoute};
ghost use Rattle.sdh_signal.specs.RouteLaws.{EachPortIsRouted, EachWalkFollowsTheRoute, NoPortMeetsAStranger, EachWalkHasOneEnd, EachWalkEnds};
ghost use Rattle.sdh_signal.specs.RouteLaws.{TheProtectionRingIsOpen, ALoopedSlotMeetsItsOwnCircuit, RoutesAreShort, NoWayCrossesAnAppliedSpan};
ghost use Rattle.sdh_signal.specs.RouteLaws.{SteadinessSpreads, IdleWalksAreShort};

/// Each port of a joined circuit is led to the circuit's other port over exactly the hops of its route, and every other
/// port is led to AIS.
pub fn each_port_is_routed()
    ensures { EachPortIsRouted }
{}

/// A port of a joined circuit is led over the spans of its route, in order.
pub fn each_walk_follows_the_route()
    ensures { EachWalkFollowsTheRoute }
{}

/// No port is led to another circuit's port.
pub fn no_port_meets_a_stranger()
    ensures { NoPortMeetsAStranger }
{}

/// A walk has one end and one length, whatever the states of the nodes.
pub fn each_walk_has_one_end()
    ensures { EachWalkHasOneEnd }
{}

/// A walk from any node ends in AIS or at a port, within 3n + 1 spans.
pub fn each_walk_ends()
    ensures { EachWalkEnds }
{}

/// In a ring of idle nodes a walk from a working slot ends within n - 1 spans.
pub fn idle_walks_are_short()
    ensures { IdleWalksAreShort }
{}

/// The protection slots never make a closed ring: some node doesn't pass them through.
pub fn the_protection_ring_is_open()
    ensures { TheProtectionRingIsOpen }
{}

/// Where a node may carry the circuit in a slot over its chain, the same circuit is in that slot on the span at the
/// far end that leads away from the chain.
pub fn a_looped_slot_meets_its_own_circuit()
    ensures { ALoopedSlotMeetsItsOwnCircuit }
{}

/// A route has at least one span, at most n - 1 where its circuit's arc is clear, and at most 2n - 3 where it isn't.
pub fn routes_are_short()
    ensures { RoutesAreShort }
{}

/// No node in its settled state connects what comes over an applied span.
pub fn no_way_crosses_an_applied_span()
    ensures { NoWayCrossesAnAppliedSpan }
{}

/// Where steadiness takes w rounds for each span, the whole ring is steady w (3n + 1) rounds after what its ports send.
pub fn steadiness_spreads()
    ensures { SteadinessSpreads }
{}

/// Five worked rings have the states, deliveries and routes that `specs/Rings.antt` gives.
pub fn worked_rings()
    ensures one { OneSpanFailed }
    ensures two { TwoSpansFailed }
    ensures cut_off { ANodeIsCutOff }
    ensures tie { ATie }
    ensures longest { TheLongestRoute }
{}
