//! The rules of one round, each a method of the scene that a node finds itself in.
ghost use Rattle.std.specs.Prelude.{◌≡◌, ◌<◌, ◌≤◌, length, IfSome};
ghost use Rattle.sdh_nodestate.specs.Rules.{own_id, id_on, local, fails, word_on, short, long, is_about, stronger, relayed, is_below};
ghost use Rattle.sdh_nodestate.specs.Rules.{switches, choose, chosen, far, switched, mark_on, own_word, word, state_after};
ghost use Rattle.sdh_nodestate.specs.Views.{view, choice_of};
ghost use Rattle.sdh_nodestate.specs.Words.{IsMember, HearsSourced, HearsSpellable};
ghost use Rattle.sdh_kbytes.specs.KBytes.{IsSpellable};
ghost use Rattle.sdh_nodestate.specs.FarEnds.{far_of, IsElsewhere};

use crate::{Heard, Idle, Isolated, Needs, NodeState, PassThrough, SwitchEast, SwitchWest};
use sdh_kbytes::{K, Mark, Path};
use sdh_ringmap::{Code, Pos, RingMap, Side};

// A node in one round: its ring and position, what it needs and what it hears.
#[derive(Drop)]
pub(crate) struct Scene<'a> {
    pub(crate) map: &'a RingMap,
    pub(crate) at: Pos,
    pub(crate) needs: Needs,
    pub(crate) heard: Heard,
}

// Which word is sent on a side: the node's own short word, which is about the span there; its own long word, which is
// about the span on the opposite side; a relayed word; or the word that asks for nothing.
#[derive(Clone, Copy, Debug, PartialEq, Eq)]
pub(crate) enum Choice {
    OwnShort,
    OwnLong,
    Relay,
    Rest,
}

// Returns which word to send. `short`, `long` and `relayed` are the code numbers of the node's own short word, of its
// own long word and of the relayed word, or 0 where there is no such word.
fn choose(short: u8, long: u8, relayed: u8) -> Choice
    ensures { choice_of result ≡ choose short long relayed }
{
    if short >= 11 {
        Choice::OwnShort
    } else if long >= 11 {
        Choice::OwnLong
    } else if short == 0 && long == 0 && relayed == 0 {
        Choice::Rest
    } else if short >= long && short >= relayed {
        Choice::OwnShort
    } else if long >= relayed {
        Choice::OwnLong
    } else {
        Choice::Relay
    }
}

impl Scene<'_> {
    fn own_id(&self) -> u8
        requires { self.now.at.0 < length self.now.map.now }
        ensures id { result ≡ own_id (view self.now) }
        ensures small { result ≤ 15 }
    {
        self.map.id(self.at)
    }

    // Returns the identifier of the neighbour on a side.
    fn id_on(&self, side: Side) -> u8
        requires { self.now.at.0 < length self.now.map.now }
        ensures id { result ≡ id_on (view self.now) side }
        ensures small { result ≤ 15 }
    {
        self.map.id(self.map.step(self.at, side))
    }

    fn local(&self, side: Side) -> Code
        ensures { result ≡ local (view self.now) side }
    {
        match side {
            Side::West => self.needs.west,
            Side::East => self.needs.east,
        }
    }

    fn fails(&self, side: Side) -> bool
        ensures { result ≡ fails (view self.now) side }
    {
        match side {
            Side::West => self.needs.west_fails,
            Side::East => self.needs.east_fails,
        }
    }

    fn word_on(&self, side: Side) -> Option<K>
        ensures word { result ≡ word_on (view self.now) side }
        ensures spellable { HearsSpellable self.now.heard → IfSome result IsSpellable }
        ensures sourced { HearsSourced self.now.map.now self.now.heard → IfSome result (λ k. IsMember self.now.map.now k.from) }
    {
        match side {
            Side::West => self.heard.west,
            Side::East => self.heard.east,
        }
    }

    // Returns the request heard from the neighbour on this side, or NR where none is heard.
    #[tactic(auto, unfolding(crate::specs::Rules::short))]
    fn short(&self, side: Side) -> Code
        requires { self.now.at.0 < length self.now.map.now }
        ensures { result ≡ short (view self.now) side }
    {
        match self.word_on(side) {
            Some(k)
                if k.path == Path::Short
                    && k.to == self.own_id()
                    && k.from == self.id_on(side)
                    && k.code.number() >= 5 => { k.code }
            _ => Code::Nr,
        }
    }

    // Returns the long word heard on this side, if it asks for at least WTR.
    #[tactic(auto, unfolding(crate::specs::Rules::long))]
    fn long(&self, side: Side) -> Option<K>
        ensures word { result ≡ long (view self.now) side }
        ensures spellable { HearsSpellable self.now.heard → IfSome result IsSpellable }
        ensures sourced { HearsSourced self.now.map.now self.now.heard → IfSome result (λ k. IsMember self.now.map.now k.from) }
    {
        match self.word_on(side) {
            Some(k) if k.path == Path::Long && k.code.number() >= 5 => Some(k),
            _ => None,
        }
    }

    // Returns whether a long word heard on `on` is about the span on `side`.
    #[tactic(auto, unfolding(crate::specs::Rules::is_about))]
    fn is_about(&self, side: Side, on: Side, k: &K) -> bool
        requires { self.now.at.0 < length self.now.map.now }
        ensures { result ≡ is_about (view self.now) side on k.now }
    {
        on == side.opposite() && k.to == self.own_id() && k.from == self.id_on(side)
    }

    // Returns the request of the span on this side: the larger of the local one and the neighbour's.
    #[tactic(auto, unfolding(crate::specs::Rules::stronger))]
    fn stronger(&self, side: Side) -> Code
        requires { self.now.at.0 < length self.now.map.now }
        ensures { result ≡ stronger (view self.now) side }
    {
        let local = self.local(side);
        let short = self.short(side);
        if short.number() > local.number() {
            short
        } else {
            local
        }
    }

    // Returns the long word, heard on the opposite side, that the node passes on to this side, if there is one.
    #[tactic(auto, unfolding(crate::specs::Rules::relayed))]
    fn relayed(&self, side: Side) -> Option<K>
        requires { self.now.at.0 < length self.now.map.now }
        ensures word { result ≡ relayed (view self.now) side }
        ensures spellable { HearsSpellable self.now.heard → IfSome result IsSpellable }
        ensures sourced { HearsSourced self.now.map.now self.now.heard → IfSome result (λ k. IsMember self.now.map.now k.from) }
    {
        match self.long(side.opposite()) {
            Some(k) if k.to != self.own_id() && k.from != self.own_id() => Some(k),
            _ => None,
        }
    }

    // Returns which word is sent on this side.
    #[tactic(auto, unfolding(crate::specs::Rules::chosen))]
    fn chosen(&self, side: Side) -> Choice
        requires { self.now.at.0 < length self.now.map.now }
        ensures { choice_of result ≡ chosen (view self.now) side }
    {
        let short = self.stronger(side).number();
        let long = self.stronger(side.opposite()).number();
        let relayed = match self.relayed(side) {
            Some(k) => k.code.number(),
            None => 0,
        };
        choose(short, long, relayed)
    }
}

impl Scene<'_> {
    // Returns whether no long word heard on `on` prevents a switch of `side`: none is heard, or it is about the span on
    // `side`, or its request is smaller than that span's.
    fn is_below(&self, side: Side, on: Side) -> bool
        requires { self.now.at.0 < length self.now.map.now }
        ensures { result ≡ is_below (view self.now) side on }
    {
        match self.long(on) {
            None => true,
            Some(k) => {
                self.is_about(side, on, &k) || k.code.number() < self.stronger(side).number()
            }
        }
    }

    // Returns whether the node switches this side.
    #[tactic(auto, unfolding(crate::specs::Rules::switches))]
    fn switches(&self, side: Side) -> bool
        requires { self.now.at.0 < length self.now.map.now }
        ensures { result ≡ switches (view self.now) side }
    {
        let here = self.stronger(side).number();
        let there = self.stronger(side.opposite()).number();
        here >= 11
            || here >= 5
                && here <= 8
                && there < here
                && self.is_below(side, Side::West)
                && self.is_below(side, Side::East)
    }

    // Returns the only switched side, where exactly one side is switched.
    fn switched(&self) -> Option<Side>
        requires { self.now.at.0 < length self.now.map.now }
        ensures { result ≡ switched (view self.now) }
    {
        match (self.switches(Side::West), self.switches(Side::East)) {
            (true, false) => Some(Side::West),
            (false, true) => Some(Side::East),
            _ => None,
        }
    }

    // Returns the position of the far end of a node that switches this side, if there is one.
    #[tactic(auto, unfolding(crate::specs::Rules::far), using(crate::proofs::FarEnds::found_elsewhere))]
    fn far(&self, side: Side) -> Option<Pos>
        requires { self.now.at.0 < length self.now.map.now }
        ensures far { result ≡ far (view self.now) side }
        ensures elsewhere { IsElsewhere (length self.now.map.now) self.now.at.0 result }
    {
        match self.long(side.opposite()) {
            Some(k) if k.from != self.own_id() => self.map.find(k.from),
            _ => None,
        }
    }

    // Returns the mark of an own word on this side.
    #[tactic(auto, unfolding(crate::specs::Rules::mark_on))]
    fn mark_on(&self, side: Side) -> Mark
        requires { self.now.at.0 < length self.now.map.now }
        ensures { result ≡ mark_on (view self.now) side }
    {
        if self.fails(side) {
            return Mark::Rdi;
        }
        match self.switched() {
            None => Mark::Idle,
            Some(switched) => match self.far(switched) {
                None => Mark::Bridged,
                Some(_) => Mark::BridgedSwitched,
            },
        }
    }

    // Returns a word of this node's own that is sent on `side`, to the neighbour on `to`.
    #[tactic(auto, using(crate::proofs::FarEnds::own_member))]
    fn own_word(&self, side: Side, code: Code, to: Side, path: Path) -> K
        requires { self.now.at.0 < length self.now.map.now }
        ensures word { result ≡ own_word (view self.now) side code to path }
        ensures spellable { IsSpellable result }
        ensures sourced { IsMember self.now.map.now result.from }
    {
        K {
            code,
            to: self.id_on(to),
            from: self.own_id(),
            path,
            mark: self.mark_on(side),
        }
    }

    // Returns the word sent on this side.
    #[tactic(auto, unfolding(crate::specs::Rules::word))]
    pub(crate) fn word(&self, side: Side) -> K
        requires { self.now.at.0 < length self.now.map.now }
        ensures word { result ≡ word (view self.now) side }
        ensures spellable { HearsSpellable self.now.heard → IsSpellable result }
        ensures sourced { HearsSourced self.now.map.now self.now.heard → IsMember self.now.map.now result.from }
    {
        match self.chosen(side) {
            Choice::OwnShort => {
                let local = self.local(side);
                let code = if self.short(side).number() <= local.number() {
                    local
                } else {
                    Code::Rr
                };
                self.own_word(side, code, side, Path::Short)
            }
            Choice::OwnLong => {
                let away = side.opposite();
                self.own_word(side, self.stronger(away), away, Path::Long)
            }
            Choice::Relay => match self.relayed(side) {
                Some(k) => k,
                None => self.own_word(side, Code::Nr, side, Path::Short),
            },
            Choice::Rest => self.own_word(side, Code::Nr, side, Path::Short),
        }
    }

    // Returns the state that the node goes to.
    #[tactic(auto, unfolding(crate::specs::Rules::state_after))]
    pub(crate) fn state(&self) -> NodeState
        requires { self.now.at.0 < length self.now.map.now }
        ensures state { result ≡ state_after (view self.now) }
        ensures elsewhere { IsElsewhere (length self.now.map.now) self.now.at.0 (far_of result) }
    {
        match (self.switches(Side::West), self.switches(Side::East)) {
            (true, true) => NodeState::Isolated(Isolated { made: () }),
            (true, false) => NodeState::SwitchWest(SwitchWest {
                far: self.far(Side::West),
            }),
            (false, true) => NodeState::SwitchEast(SwitchEast {
                far: self.far(Side::East),
            }),
            (false, false) => {
                if self.chosen(Side::West) == Choice::Relay
                    && self.chosen(Side::East) == Choice::Relay
                {
                    NodeState::PassThrough(PassThrough { made: () })
                } else {
                    NodeState::Idle(Idle { made: () })
                }
            }
        }
    }
}
