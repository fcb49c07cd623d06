//! What the ports of several nodes delivered. It waits in the received frames, and is taken out of them only when it is
//! asked for.
ghost use Rattle.std.specs.Prelude.{◌≡◌, ◌<◌, List, [], IfOk, length, map, slice_index_or};
ghost use Rattle.sdh_payload.specs.Outlet.{Outlet as Delivering};

use crate::outlet::{Outlets, TakenPair};
use std::alloc::{AllocError, Global};
use std::marker::Model;

/// A node whose ports deliver.
pub trait Delivers {
    /// What each of its ports delivered in the last round, in the order of the ports.
    ghost delivered: { Self → List Delivering };

    /// Returns room for what each of its ports delivers. All memory is taken here.
    fn outlets(&self, alloc: Global) -> Result<Outlets, AllocError>
        ensures { IfOk result (λ outlets. length outlets ≡ length (delivered self.now)) };

    /// Takes what each of its ports delivered in the last round out of the frames in which it waits. It takes no
    /// memory.
    fn deliver(&self, taken: &mut TakenPair, outlets: &mut Outlets)
        requires { length outlets.old ≡ length (delivered self.now) }
        ensures { outlets.new ≡ delivered self.now };
}

/// What the ports of several nodes delivered, node by node.
#[derive(Debug, Drop)]
pub struct Deliveries {
    nodes: Vec<Outlets>,
    taken: TakenPair,
}

impl Model for Deliveries {
    ghost use Rattle.std.specs.Prelude.{List};
    ghost use Rattle.sdh_payload.specs.Outlet.{Outlet};

    ghost Value = { List (List Outlet) };

    ghost view = { λ d. d.nodes.items };
}

// Returns room for what the ports of each node deliver.
fn rooms_for<N: Delivers>(alloc: Global, nodes: &[N]) -> Result<Vec<Outlets>, AllocError>
    ensures { IfOk result (λ v. map length v.items ≡ map (λ n. length (N.delivered n)) nodes.now) }
{
    let count = nodes.len();
    let mut rooms = Vec::with_capacity(alloc, count)?;
    for i in 0..count {
        rooms.push(nodes[i].outlets(alloc)?)?;
    }
    Ok(rooms)
}

// Takes what the ports of each node delivered.
fn deliver_nodes<N: Delivers>(nodes: &[N], taken: &mut TakenPair, rooms: &mut Vec<Outlets>)
    requires { map length rooms.old.items ≡ map (λ n. length (N.delivered n)) nodes.now }
    ensures { rooms.new.items ≡ map N.delivered nodes.now }
{
    for i in 0..nodes.len() {
        let outlets = &mut rooms[i];
        nodes[i].deliver(taken, outlets);
    }
}

impl Deliveries {
    /// Returns what the ports of these nodes delivered in the last round. All memory is taken here.
    pub fn try_new<N: Delivers>(alloc: Global, nodes: &[N]) -> Result<Deliveries, AllocError>
        ensures { IfOk result (λ d. d ≡ map N.delivered nodes.now) }
    {
        let mut rooms = rooms_for(alloc, nodes)?;
        let mut taken = TakenPair::try_new(alloc)?;
        deliver_nodes(nodes, &mut taken, &mut rooms);
        Ok(Deliveries {
            nodes: rooms,
            taken,
        })
    }

    /// Replaces what these nodes' ports delivered before by what they delivered in the last round. It takes no memory.
    pub fn take<N: Delivers>(&mut self, nodes: &[N])
        requires { map length self.old ≡ map (λ n. length (N.delivered n)) nodes.now }
        ensures { self.new ≡ map N.delivered nodes.now }
    {
        deliver_nodes(nodes, &mut self.taken, &mut self.nodes);
    }

    /// Returns what the ports of a node delivered, by its place among the nodes, counted from 0.
    pub fn of(&self, node: usize) -> &Outlets
        requires { node < length self.now }
        ensures { result.now ≡ slice_index_or self.now node [] }
    {
        &self.nodes[node]
    }
}
