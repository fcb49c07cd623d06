//! The circuits of a ring.
ghost use Rattle.std.specs.Prelude.{◌≡◌, ◌<◌, ◌≤◌, [], IfOk, length, slice_get, OnOk, OnErr, IfErr, IfSome, IfNone};
ghost use Rattle.std.specs.Option.{is_some};
ghost use Rattle.sdh_circuits.specs.Provisioning.{IsProvisioning, IsRateHalf, on_span, at_port};
ghost use Rattle.sdh_circuits.specs.Checks.{wish_of, is_free_name, refusal, circuit_of, with_circuit};

use crate::form::{ends, has_offsets, has_slot, has_texts, has_traces, has_two_ends, port};
use crate::search::{index_named, index_on, is_named, is_taken};
use crate::{AddError, Asked, Circuit, Name, Slot};
use sdh_ringmap::{RingMap, Span};
use std::alloc::Global;
use std::marker::Model;

/// The circuits of a ring, in the order in which they were added. No two share a span and a slot, and no two
/// have one name.
#[derive(Debug, Drop)]
pub struct CircuitMap {
    rate_half: u8,
    ring: Option<RingMap>,
    circuits: Vec<Circuit>,
}

impl Model for CircuitMap {
    ghost use Rattle.sdh_circuits.specs.Provisioning.{Provisioning, IsProvisioning};

    ghost Value = { Provisioning };

    ghost view = { λ m. record { slots = m.rate_half; ring = m.ring; circuits = m.circuits.items } };

    ghost invariant = { λ m. IsProvisioning (record { slots = m.rate_half; ring = m.ring; circuits = m.circuits.items }) };
}

impl CircuitMap {
    /// Returns an empty map for a rate with `rate_half` working slots on each span, which is half of its N: 2 for STM-4
    /// and 8 for STM-16. The map belongs to no ring before the first circuit is added, which brings its ring along.
    pub fn new(alloc: Global, rate_half: u8) -> CircuitMap
        requires { IsRateHalf rate_half }
        ensures { result ≡ record { slots = rate_half; ring = None; circuits = [] } }
    {
        CircuitMap {
            rate_half,
            ring: None,
            circuits: Vec::new(alloc),
        }
    }

    // Returns the name, where it has the form of a name and no circuit has it, else `None`.
    fn free_name(&self, name: &str) -> Option<Name>
        ensures free { is_some result ≡ is_free_name self.now.circuits name.now }
        ensures name { IfSome result (λ free. free ≡ name.now) }
    {
        if is_named(&self.circuits, name) {
            return None;
        }
        Name::new(name.as_bytes())
    }

    // Returns the circuit that is asked for, or the error of the first check that fails.
    #[tactic(auto, using(crate::proofs::Kept::inside_kept, crate::proofs::Kept::in_ring, crate::proofs::Refusing::last_check), unfolding(crate::specs::Checks::refusal, crate::specs::Checks::wish_checks))]
    fn check(&self, map: &RingMap, asked: &Asked<'_>) -> Result<Circuit, AddError>
        requires { IfSome self.now.ring (λ ids. ids ≡ map.now) }
        ensures ok { IfOk result (λ c. c ≡ circuit_of map.now (wish_of asked.now)) }
        ensures passed { OnOk result (refusal self.now map.now (wish_of asked.now) ≡ None) }
        ensures fits { IfOk result (λ c. IsProvisioning (with_circuit self.now map.now c)) }
        ensures refused { IfErr result (λ why. refusal self.now map.now (wish_of asked.now) ≡ Some why) }
    {
        if !has_slot(self.rate_half, asked) {
            return Err(AddError::Slot);
        }
        let Some((from, to)) = ends(map, asked) else {
            return Err(AddError::End);
        };
        if !has_two_ends(asked) {
            return Err(AddError::SameEnds);
        }
        if !has_offsets(asked) {
            return Err(AddError::Offset);
        }
        if !has_texts(asked) {
            return Err(AddError::Text);
        }
        if !has_traces(asked) {
            return Err(AddError::Trace);
        }
        let Some(name) = self.free_name(asked.name) else {
            return Err(AddError::Name);
        };
        let circuit = Circuit {
            name,
            from,
            to,
            slot: Slot(asked.slot as u8),
            a: port(asked.text_a, asked.trace_a, asked.offset_a),
            b: port(asked.text_b, asked.trace_b, asked.offset_b),
        };
        if is_taken(map, &self.circuits, &circuit) {
            return Err(AddError::Overlap);
        }
        let nodes = map.len();
        prove!(nodes <= 16);
        Ok(circuit)
    }

    /// Adds the circuit that is asked for after the others, or returns the error of the first check that fails. The
    /// checks are of the slot, the ends, that they are two nodes, both offsets, both texts, both traces, the name, and
    /// that no other circuit is on one of its spans in its slot. An error, `Memory` too, changes nothing.
    pub fn add(&mut self, map: &RingMap, asked: &Asked<'_>) -> Result<(), AddError>
        requires { IfSome self.old.ring (λ kept. kept ≡ map.now) }
        ensures added { OnOk result (self.new ≡ with_circuit self.old map.now (circuit_of map.now (wish_of asked.now))) }

        // The error is that of the first check that fails. It is `Memory` only where no check fails.
        ensures refused { IfSome (refusal self.old map.now (wish_of asked.now)) (λ why. result ≡ Err why) }
        ensures memory { IfNone (refusal self.old map.now (wish_of asked.now)) (IfErr result (λ why. why ≡ AddError.Memory)) }
        ensures unchanged { OnErr result (self.new ≡ self.old) }
    {
        let circuit = self.check(map, asked)?;
        self.keep(map, circuit)
    }

    // Keeps the circuit and the ring map, or returns `Memory` where memory runs out.
    fn keep(&mut self, map: &RingMap, circuit: Circuit) -> Result<(), AddError>
        requires { IsProvisioning (with_circuit self.old map.now circuit) }
        ensures kept { OnOk result (self.new ≡ with_circuit self.old map.now circuit) }
        ensures memory { IfErr result (λ why. why ≡ AddError.Memory) }
        ensures unchanged { OnErr result (self.new ≡ self.old) }
    {
        if self.circuits.push(circuit).is_err() {
            return Err(AddError::Memory);
        }
        self.ring = Some(map.copy());
        Ok(())
    }

    /// Returns the number of circuits, at most 128.
    #[tactic(auto, using(crate::proofs::Few::few_circuits))]
    pub fn len(&self) -> usize
        ensures len { result ≡ length self.now.circuits }
        ensures few { length self.now.circuits ≤ 128 }
        ensures form { IsProvisioning self.now }
    {
        self.circuits.len()
    }

    /// Returns a circuit by its number, counted from 0.
    pub fn get(&self, circuit: u8) -> &Circuit
        requires { circuit < length self.now.circuits }
        ensures { slice_get self.now.circuits circuit ≡ Some result.now }
    {
        &self.circuits[circuit as usize]
    }

    /// Returns the number of the circuit that is on a span in a slot, or `None` where no circuit is.
    pub fn on_span(&self, span: Span, slot: Slot) -> Option<u8>
        ensures { result ≡ on_span self.now span.0 slot.0 }
    {
        let map = self.ring.as_ref()?;
        let at = index_on(map, &self.circuits, span, slot)?;
        Some(at as u8)
    }

    /// Returns the number of the circuit that has a name, or `None` where no circuit has it.
    pub fn at_port(&self, name: &str) -> Option<u8>
        ensures { result ≡ at_port self.now name.now }
    {
        let at = index_named(&self.circuits, name)?;
        Some(at as u8)
    }
}
