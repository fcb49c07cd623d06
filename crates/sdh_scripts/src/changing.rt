//! The steps of a script that run no round.
ghost use Rattle.std.specs.Prelude.{◌≡◌, [], ◌∷◌, length, OnOk, OnErr};
ghost use Rattle.sdh_basics.specs.Causes.{HasCause};
ghost use Rattle.sdh_plant.specs.Fibres.{IsPrepared};
ghost use Rattle.sdh_rounds.specs.Held.{world};
ghost use Rattle.sdh_plan.specs.Scripts.{AreSteps};
ghost use Rattle.sdh_scripts.specs.Runners.{Refused};
ghost use Rattle.sdh_scripts.specs.Steps.{script_past, stepped};

use sdh_plan::Step;
use sdh_plant::Plant;
use sdh_rounds::{PlantFault, TakesChanges};

/// Makes the change of a script's step in a ring or in its fibres. No round is run: a settle step changes nothing here.
/// A fault leaves all as it was.
pub fn change<R: TakesChanges, P: Plant>(
    ring: &mut R,
    plant: &mut P,
    step: Step,
) -> Result<(), PlantFault>
    requires prepared { IsPrepared (R.ring ring.old).settings.rate (length (R.ring ring.old).ids) (P.fibres plant.old) }
    requires steps { AreSteps (R.ring ring.old).settings.rate (length (R.ring ring.old).ids)
        (length (R.ring ring.old).circuits.circuits) (script_past R.changes 0 (R.ring ring.old)) (step ∷ []) }
    ensures ok { OnOk result (world (R.ring ring.new) (P.fibres plant.new)
        ≡ stepped R.changes step (world (R.ring ring.old) (P.fibres plant.old))) }
    ensures err { OnErr result (Refused step (P.fibres plant.old) (P.fibres plant.new)) }
    ensures cause { HasCause P.exact (P.faults plant.old) (P.faults plant.new) result }
{
    match step {
        Step::Fibre(event) => Ok(plant.apply(event)?),
        Step::Order(at, side, command) => {
            ring.command(at, side, command);
            Ok(())
        }
        Step::Hold(at, turns) => {
            ring.hold(at, turns);
            Ok(())
        }
        Step::Slip(port, turn, count) => {
            ring.slip(port, turn, count);
            Ok(())
        }
        Step::Moment(now) => {
            ring.moment(now);
            Ok(())
        }
        Step::Settle => Ok(()),
    }
}
