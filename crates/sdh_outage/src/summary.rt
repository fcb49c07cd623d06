//! The summary of the outages of all ports.
ghost use Rattle.std.specs.Prelude.{◌≡◌, ◌+◌, ◌^◌, ◌<◌, ◌≤◌, if◌then◌else◌, List, [], ◌∷◌, ◌++◌};
ghost use Rattle.sdh_outage.specs.declared.outage.Outage.{Outage};
ghost use Rattle.sdh_outage.specs.Outages.{with_outage, summary_of};
ghost use Rattle.sdh_outage.specs.Kept.{ports_in};

use crate::outage::Outage;

/// The summary of the outages of all ports in a settle step.
#[derive(Clone, Copy)]
pub struct Summary {
    /// The number of rounds of the longest run of the ports that came back.
    pub longest: u32,
    /// The number of these ports that were out for more than 400 rounds at a time.
    pub over: u32,
    /// The number of ports that were never out.
    pub none: u32,
    /// The number of ports that are out still.
    pub still: u32,
    /// The number of ports that got what a port of another circuit sends.
    pub foreign: u32,
}

// Returns the count, and one more where this holds.
fn counted(count: u32, holds: bool) -> u32
    requires { count + 1 < 2 ^ 32 }
    ensures { result ≡ count + (if holds then 1 else 0) }
{
    if holds { count + 1 } else { count }
}

impl Summary {
    /// Returns a summary that counts no port.
    pub fn new() -> Summary
        ensures { result ≡ summary_of [] }
    {
        Summary {
            longest: 0,
            over: 0,
            none: 0,
            still: 0,
            foreign: 0,
        }
    }

    /// Adds a port that had this outage.
    pub fn add(&mut self, outage: &Outage)
        requires room { ports_in self.old + 4 < 2 ^ 32 }
        ensures ports { (others : List Outage) → self.old ≡ summary_of others → self.new ≡ summary_of (others ++ outage.now ∷ []) }
        ensures summary { self.new ≡ with_outage self.old outage.now }
        ensures few { ports_in self.new ≤ ports_in self.old + 4 }
    {
        let is_back = outage.is_back();
        let is_over = is_back && outage.is_over();
        *self = Summary {
            longest: if is_back {
                self.longest.max(outage.runs.longest)
            } else {
                self.longest
            },
            over: counted(self.over, is_over),
            none: counted(self.none, outage.out() == 0),
            still: counted(self.still, !is_back),
            foreign: counted(self.foreign, outage.foreign != 0),
        };
    }
}
