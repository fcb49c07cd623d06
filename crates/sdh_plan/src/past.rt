//! What a script has led to.
ghost use Rattle.std.specs.Prelude.{◌≡◌, OnOk};
ghost use Rattle.sdh_plan.specs.Check.{first_fault, unless};
ghost use Rattle.sdh_plan.specs.Steps.{past_faults, new_past, after};
ghost use Rattle.sdh_plan.specs.Counted.{past_in};

use crate::reason::Reason;
use crate::slips::Slips;
use crate::step::Step;

/// The present moment, the number of settle steps, and the slips that ports were given since the last of them.
#[derive(Drop)]
pub struct Past {
    moment: u64,
    settles: u32,
    slips: Slips,
}

impl Past {
    /// Returns the past before the first step.
    pub fn start() -> Past
        ensures { past_in result ≡ new_past }
    {
        Past {
            moment: 0,
            settles: 0,
            slips: Slips::new(),
        }
    }

    /// Adds a step to what the script has led to, or returns the reason why the step can't stand there.
    #[tactic(auto, unfolding(crate::specs::Steps::past_faults))]
    pub fn follow(&mut self, step: Step) -> Result<(), Reason>
        ensures reason { result ≡ unless (first_fault (past_faults (past_in self.old) step)) tt }
        ensures past { OnOk result (past_in self.new ≡ after (past_in self.old) step) }
    {
        match step {
            Step::Moment(now) => {
                if now.0 < self.moment {
                    return Err(Reason::MomentBack);
                }
                self.moment = now.0;
            }
            Step::Slip(port, _, count) => {
                if u16::from(self.slips.count(port)) + u16::from(count) > 16 {
                    return Err(Reason::Slips);
                }
                self.slips.add(port, count);
            }
            Step::Settle => {
                if self.settles >= 64 {
                    return Err(Reason::Settles);
                }
                self.settles += 1;
                self.slips = Slips::new();
            }
            Step::Fibre(_) | Step::Order(_, _, _) | Step::Hold(_, _) => {}
        }
        Ok(())
    }
}
