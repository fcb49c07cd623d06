//! The listeners, who look at the ring after each round.
ghost use Rattle.std.specs.Prelude.{◌≡◌};
ghost use Rattle.sdh_outage_cli.specs.Ports.{AreListening, ports_by_node};
ghost use Rattle.sdh_outage_cli.specs.Keeping.{listening_same, rooms_same};

use crate::ports::{ListenerPair, look_all};
use crate::rooms::DeliveryRooms;
use crate::streams::{Streams, step_all};
use sdh_ring::{Observer, Running};

/// The listeners on all ports of a ring, in the order of its circuits, the bytes that can be on their way, and room for
/// what ports deliver.
#[derive(Drop)]
pub struct Listeners {
    pub items: Vec<ListenerPair>,
    pub streams: Streams,
    pub rooms: DeliveryRooms,
}

// The listeners look at the nodes, and what these deliver is taken out of one node's frames after the other's. Each
// port's bytes are compared while they are in the processor's cache.
impl Observer<Running> for Listeners {
    ghost Heard = { λ at k l. AreListening at k l.items.items l.streams.pairs.items
        × (l.rooms.counts ≡ ports_by_node (at k).ring) };

    fn look(&mut self, ring: &Running) {
        look_all(ring, &mut self.items, &mut self.streams, &mut self.rooms);
        step_all(&mut self.streams);
    }

    ghost same = { λ at bt k l same heard. (
      listening_same at bt k l.items.items l.streams.pairs.items same heard.0,
      rooms_same at bt k l.rooms.counts same heard.1,
    ) };
}
