//! A plan.
ghost use Rattle.std.specs.Prelude.{◌≡◌, ◌*◌, ◌≤◌};
ghost use Rattle.sdh_ringmap.specs.Rates.{n_of};
ghost use Rattle.sdh_plan.specs.Planned.{IsPlanned, planned, provisioning_of};

use crate::step::Step;
use sdh_circuits::CircuitMap;
use sdh_request::Settings;
use sdh_ringmap::RingMap;
use std::marker::Model;

/// What a run is to do: the ring with its circuits, the settings of its nodes, and the steps of its script.
#[derive(Drop)]
pub struct Plan {
    pub(crate) settings: Settings,
    pub(crate) limit: u32,
    pub(crate) ring: RingMap,
    pub(crate) circuits: CircuitMap,
    pub(crate) steps: Vec<Step>,
}

impl Model for Plan {
    ghost use Rattle.std.specs.Prelude.{◌≡◌};
    ghost use Rattle.sdh_plan.specs.Planned.{Planned, IsPlanned, provisioning_of, planned};

    ghost Value = { Planned };

    ghost view = { λ p. planned p.settings p.limit p.ring p.circuits p.steps.items };

    ghost invariant = { λ p. IsPlanned (planned p.settings p.limit p.ring p.circuits p.steps.items)
        × (p.circuits ≡ provisioning_of (planned p.settings p.limit p.ring p.circuits p.steps.items)) };
}

impl Plan {
    /// Returns the plan of these parts: the settings of its nodes, the most rounds that a settle step may run, the ring
    /// with its circuits, and the steps of its script. The parts have to pass the checks of a plan, which `read_plan`
    /// makes.
    pub fn from_parts(
        settings: Settings,
        limit: u32,
        ring: RingMap,
        circuits: CircuitMap,
        steps: Vec<Step>,
    ) -> Plan
        requires planned { IsPlanned (planned settings limit ring circuits steps.items) }
        requires circuits { circuits ≡ provisioning_of (planned settings limit ring circuits steps.items) }
        ensures { result ≡ planned settings limit ring circuits steps.items }
    {
        Plan {
            settings,
            limit,
            ring,
            circuits,
            steps,
        }
    }

    /// Returns the rate, the threshold and the waiting time.
    pub fn settings(&self) -> Settings
        ensures settings { result ≡ self.now.settings }
        ensures from_1 { 1 ≤ result.threshold }
        ensures small { result.threshold ≤ 3 * n_of result.rate }
        ensures short { result.wait ≤ 1000000 }
    {
        self.settings
    }

    /// Returns the most rounds that a settle step may run, 1 to 65,536.
    pub fn limit(&self) -> u32
        ensures limit { result ≡ self.now.limit }
        ensures from_1 { 1 ≤ result }
        ensures small { result ≤ 65536 }
    {
        self.limit
    }

    /// Returns the nodes of the ring, 2 to 16.
    pub fn map(&self) -> &RingMap
        ensures { result.now ≡ self.now.nodes }
    {
        &self.ring
    }

    /// Returns the map of the circuits, with half of N working slots on each span of the plan's ring.
    pub fn circuits(&self) -> &CircuitMap
        ensures { result.now ≡ provisioning_of self.now }
    {
        &self.circuits
    }

    /// Returns the steps of the script, 1 to 1,000.
    pub fn steps(&self) -> &[Step]
        ensures steps { result.now ≡ self.now.steps }
        ensures form { IsPlanned self.now }
    {
        &self.steps
    }

    /// Returns the ring, the circuits and the steps.
    pub fn into_parts(self) -> (RingMap, CircuitMap, Vec<Step>)
        ensures ring { result.0 ≡ self.nodes }
        ensures circuits { result.1 ≡ provisioning_of self }
        ensures steps { result.2.items ≡ self.steps }
        ensures form { IsPlanned self }
    {
        (self.ring, self.circuits, self.steps)
    }
}
