//! Counts of slips.
ghost use Rattle.std.specs.Prelude.{◌≡◌, ◌+◌, ◌≤◌};
ghost use Rattle.sdh_plan.specs.Steps.{more_slips};
ghost use Rattle.sdh_plan.specs.Counted.{slips_in};

use sdh_circuits::{End, PortId};

/// The number of slips that each port was given.
#[derive(Drop)]
pub struct Slips {
    at_a: [u8; 256],
    at_b: [u8; 256],
}

impl Slips {
    /// Returns counts of 0 for all ports.
    pub fn new() -> Slips
        ensures { slips_in result ≡ (λ port. 0) }
    {
        Slips {
            at_a: [0; 256],
            at_b: [0; 256],
        }
    }

    /// Returns the number of slips that the port was given.
    #[tactic(auto, unfolding(crate::specs::Counted::slips_in))]
    pub fn count(&self, port: PortId) -> u8
        ensures { result ≡ slips_in self.now port }
    {
        match port.end {
            End::A => self.at_a[port.circuit as usize],
            End::B => self.at_b[port.circuit as usize],
        }
    }

    /// Adds `more` slips to the port's count.
    pub fn add(&mut self, port: PortId, more: u8)
        requires { slips_in self.old port + more ≤ 255 }
        ensures { slips_in self.new ≡ more_slips port more (slips_in self.old) }
    {
        let sum = self.count(port) + more;
        match port.end {
            End::A => self.at_a[port.circuit as usize] = sum,
            End::B => self.at_b[port.circuit as usize] = sum,
        }
    }
}
