// Components: first individuals that lead to each other in the start state reach the same nodes, so one walk tells the answers of all of them.

ghost use Rattle.walk.specs.Telling.{AreMembers};
ghost use Rattle.walk.specs.Walks.{WalkedBy, LeadToAmong};

use crate::Sets;
use crate::asking::Asking;
use crate::directed::Directed;
use crate::known::Known;
use crate::strides::Strides;
use crate::walk::{backward_among, forward, forward_by_known};
use kinds::{Individual, State};

/// Of each individual whether it is a member.
pub type Members = [bool; Individual::NUMBERS];

/// A first individual and others that reach the same nodes in the start state, and what they reach.
#[derive(Clone, Copy)]
pub struct Component {
    pub first: Individual,
    pub others: Members,
    pub reached: Sets,
}

// The individuals that x reaches in the start state, and that reach x in it.
fn members(strides: &Strides, x: Individual, start: State, ahead: &Sets, behind: &Sets) -> Members
    requires ahead { WalkedBy strides.now x start ahead.now }
    requires behind { LeadToAmong strides.now ahead.now x start behind.now }
    ensures { AreMembers strides.now start ahead.now result }
{
    let mut members = [false; Individual::NUMBERS];
    for f in 0..Individual::NUMBERS {
        members[f] = ahead[f].intersection(behind[f]).contains(start);
    }
    members
}

impl Component {
    ghost use Rattle.std.specs.Prelude.{◌≡◌, ◌↔◌, IsTrue};
    ghost use Rattle.walk.specs.Guides.{IsBackward};
    ghost use Rattle.walk.specs.Known.{AreKnown};
    ghost use Rattle.walk.specs.Telling.{IsMember, IsComponent};

    /// The first individual alone.
    pub(crate) fn alone(asking: &Asking, first: Individual) -> Component
        ensures first { result.first ≡ first }
        ensures component { IsComponent asking.now.strides asking.now.question.start result }
    {
        Component {
            first,
            others: [false; Individual::NUMBERS],
            reached: forward(
                &asking.strides,
                asking.forward,
                first,
                asking.question.start,
            ),
        }
    }

    /// The first individual, and all others that lead to it and to which it leads.
    pub(crate) fn of(
        asking: &Asking,
        against: &Directed,
        known: &Known,
        first: Individual,
    ) -> Component
        requires against { IsBackward asking.now.strides.transitions.now against.now }
        requires known { AreKnown asking.now.strides asking.now.question.start known.now }
        ensures first { result.first ≡ first }
        ensures component { IsComponent asking.now.strides asking.now.question.start result }
    {
        let strides = &asking.strides;
        let start = asking.question.start;
        let reached = forward_by_known(strides, asking.forward, known, first, start);
        let behind = backward_among(strides, against, &reached, first, start);
        let others = members(strides, first, start, &reached, &behind);
        Component {
            first,
            others,
            reached,
        }
    }

    /// Whether the individual is a member.
    pub(crate) fn has(&self, f: Individual) -> bool
        ensures { IsTrue result ↔ IsMember self.now f.0 }
    {
        if f == self.first {
            return true;
        }
        f.0 < Individual::MOST && self.others[f.0 as usize]
    }
}
