// The accepting states of each individual: a path may end in them there, or leads on to an end below it.

ghost use Rattle.std.specs.Prelude.{◌<◌, ◌↔◌, IsTrue};
ghost use Rattle.kinds.specs.Kinds.{most_states};
ghost use Rattle.sets.specs.Bits.{Has, IsSetOf, Meets};
ghost use Rattle.sets.specs.Relations.{concepts_at};
ghost use Rattle.walk.specs.Accepting.{AcceptsBy, AcceptsNumber, IsOpen, IsAcceptingOf, AreAccepting};

use crate::Sets;
use crate::coreachable::{CoReachable, PathsBelow, co_reachable};
use crate::loops::shared_concepts;
use kinds::{Individual, State};
use sets::{ConceptSet, StateSet};

/// For each individual its accepting states.
#[derive(Clone, Copy)]
pub struct Accepting {
    pub rows: Sets,
}

// Whether a path may end in a state, or leads on from it by one of the concepts.
fn accepts(paths: &PathsBelow, onward: &CoReachable, concepts: ConceptSet, s: usize) -> bool
    requires { s < most_states }
    ensures { IsTrue result ↔ AcceptsBy paths.now.finals.0 onward.now concepts.0 s }
{
    paths.finals.contains(State(s as u16)) || onward[s].intersects(concepts)
}

// The accepting states of an individual that has the concepts.
fn accepting_of(paths: &PathsBelow, onward: &CoReachable, concepts: ConceptSet) -> StateSet
    ensures { IsSetOf (AcceptsNumber paths.now.finals.0 onward.now concepts.0) result.0 }
{
    let mut out = StateSet::EMPTY;
    for s in 0..State::NUMBERS {
        out.insert_if(State(s as u16), accepts(paths, onward, concepts, s));
    }
    out
}

// The states that are not in a set.
fn others(set: StateSet) -> StateSet
    ensures { IsSetOf (IsOpen set.0) result.0 }
{
    let mut out = StateSet::EMPTY;
    for s in 0..State::NUMBERS {
        let state = State(s as u16);
        out.insert_if(state, !set.contains(state));
    }
    out
}

// Whether a path leads on from a state by one of the concepts.
fn leads_on(onward: &CoReachable, s: State, concepts: ConceptSet) -> bool
    requires { s.0 < most_states }
    ensures { IsTrue result ↔ Meets (concepts_at onward.now s.0) concepts.0 }
{
    onward[s.0 as usize].intersects(concepts)
}

// The states in which a path may end at an individual or below it, by what all accept that have a concept, and by tests in the states that are
// left. One with no concept accepts the least.
fn accepting_beside(
    least: StateSet,
    shared: StateSet,
    left: StateSet,
    onward: &CoReachable,
    concepts: ConceptSet,
) -> StateSet
    requires { IsSetOf (IsOpen shared.0) left.0 }
    ensures { IsAcceptingOf least.0 shared.0 onward.now concepts.0 result.0 }
{
    if concepts.is_empty() {
        return least;
    }
    let mut out = shared;
    for s in left.iter() {
        out.insert_if(s, leads_on(onward, s, concepts));
    }
    out
}

impl Accepting {
    pub const NONE: Accepting = Accepting {
        rows: [StateSet::EMPTY; Individual::NUMBERS],
    };

    /// From the concepts of each individual and what paths below it go by, whatever stood there before.
    pub fn fill(&mut self, individuals: &[ConceptSet; Individual::NUMBERS], paths: &PathsBelow)
        ensures { AreAccepting individuals.now paths.now self.new.rows }
    {
        let onward = co_reachable(paths);
        let least = accepting_of(paths, &onward, ConceptSet::EMPTY);
        let shared = accepting_of(paths, &onward, shared_concepts(individuals));
        let left = others(shared);
        for a in 0..Individual::NUMBERS {
            self.rows[a] = accepting_beside(least, shared, left, &onward, individuals[a]);
        }
    }
}
