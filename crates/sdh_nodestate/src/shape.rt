//! Shapes of states, by which states are compared.
ghost use Rattle.std.specs.Prelude.{◌≡◌, ◌↔◌, IsTrue};
ghost use Rattle.sdh_nodestate.specs.Shapes.{state_of, same_far, same_state};

use crate::NodeState;
use sdh_ringmap::Pos;

/// What a state is, as a value that can be copied and compared. The state itself can't be copied, since a step consumes
/// it.
#[derive(Clone, Copy, Debug, PartialEq, Eq)]
pub enum Shape {
    Idle,
    PassThrough,
    /// The west side is switched. The position is that of the far end, if there is one.
    SwitchWest(Option<Pos>),
    /// The east side is switched. The position is that of the far end, if there is one.
    SwitchEast(Option<Pos>),
    Isolated,
}

/// Returns the shape of a state.
pub fn shape_of(state: &NodeState) -> Shape
    ensures { state_of result ≡ state.now }
{
    match state {
        NodeState::Idle(_) => Shape::Idle,
        NodeState::PassThrough(_) => Shape::PassThrough,
        NodeState::SwitchWest(switch) => Shape::SwitchWest(switch.far()),
        NodeState::SwitchEast(switch) => Shape::SwitchEast(switch.far()),
        NodeState::Isolated(_) => Shape::Isolated,
    }
}

fn same_far(left: Option<Pos>, right: Option<Pos>) -> bool
    ensures { result ≡ same_far left right }
{
    match (left, right) {
        (Some(left), Some(right)) => left.0 == right.0,
        (None, None) => true,
        (Some(_), None) | (None, Some(_)) => false,
    }
}

/// Returns whether two shapes are those of the same state, with the same far end.
#[tactic(auto, using(crate::proofs::SameStates::state_tells), unfolding(crate::specs::Shapes::same_state))]
pub fn same_shape(left: Shape, right: Shape) -> bool
    ensures same { result ≡ same_state (state_of left) (state_of right) }
    ensures tells { IsTrue result ↔ (state_of left ≡ state_of right) }
{
    match (left, right) {
        (Shape::Idle, Shape::Idle)
        | (Shape::PassThrough, Shape::PassThrough)
        | (Shape::Isolated, Shape::Isolated) => true,
        (Shape::SwitchWest(left), Shape::SwitchWest(right)) => same_far(left, right),
        (Shape::SwitchEast(left), Shape::SwitchEast(right)) => same_far(left, right),
        _ => false,
    }
}
