//! The line of a node.
ghost use Rattle.std.specs.Prelude.{◌≡◌};
ghost use Rattle.sdh_report.specs.Lines.{state_text, state_word};

use sdh_kbytes::K;
use sdh_nodestate::NodeState;

/// The name that a report gives to the state of a node.
#[derive(Clone, Copy, Debug, PartialEq, Eq)]
pub enum StateWord {
    Idle,
    Pass,
    SwitchWest,
    SwitchEast,
    Isolated,
}

/// The line of a node: its identifier, the name of its state, and the K words that it sent last on each side.
#[derive(Clone, Copy, Debug, PartialEq, Eq)]
pub struct NodeLine {
    pub id: u8,
    pub state: StateWord,
    pub west: K,
    pub east: K,
}

impl StateWord {
    /// Returns the name of a node's state.
    pub fn of(state: &NodeState) -> StateWord
        ensures { result ≡ state_word state.now }
    {
        match state {
            NodeState::Idle(_) => StateWord::Idle,
            NodeState::PassThrough(_) => StateWord::Pass,
            NodeState::SwitchWest(_) => StateWord::SwitchWest,
            NodeState::SwitchEast(_) => StateWord::SwitchEast,
            NodeState::Isolated(_) => StateWord::Isolated,
        }
    }

    /// Returns the name as bytes.
    pub fn letters(self) -> &'static [u8]
        ensures { result.now ≡ state_text self }
    {
        match self {
            StateWord::Idle => b"idle",
            StateWord::Pass => b"pass",
            StateWord::SwitchWest => b"switch-west",
            StateWord::SwitchEast => b"switch-east",
            StateWord::Isolated => b"isolated",
        }
    }
}
