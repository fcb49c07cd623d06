//! Which steps are those of a path ring.
ghost use Rattle.std.specs.Prelude.{◌≡◌, ◌+◌, ◌<◌, ◌≤◌, Some, IfSome, length, position};
ghost use Rattle.sdh_sncp_cli.specs.Steps.{is_strange, first_strange};

use sdh_plan::Step;

// Returns whether a step is one that a path ring doesn't have.
fn is_strange(step: &Step) -> bool
    ensures { result ≡ is_strange step.now }
{
    !matches!(step, Step::Fibre(_) | Step::Settle)
}

// Returns the place of the first step that a path ring doesn't have, counted from 0, or `None` where it has all.
fn strange_place(steps: &[Step]) -> Option<usize>
    ensures place { result ≡ position is_strange steps.now }
    ensures within { IfSome result (λ i. i < length steps.now) }
{
    steps.iter().position(|step| is_strange(step))
}

/// Returns the number of the first step that a path ring doesn't have, counted from 1, or `None` where it has all. The
/// steps of a path ring give a fibre a condition, or settle.
#[tactic(auto, unfolding(crate::specs::Steps::first_strange))]
pub fn first_strange(steps: &[Step]) -> Option<u32>
    requires few { length steps.now ≤ 1000 }
    ensures { result ≡ first_strange steps.now }
{
    let place = strange_place(steps)?;
    Some(place as u32 + 1)
}
