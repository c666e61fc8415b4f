// What a round reads of rules and question. Another rule language would only fill these tables differently.

ghost use Rattle.std.specs.Prelude.{◌<◌};
ghost use Rattle.kinds.specs.Kinds.{most_states};
ghost use Rattle.rules.specs.Rows.{IsMarkable};

use kinds::{SignedRole, State};
use sets::{ConceptSet, Relation, RoleSet, Sheet, StateSet};

/// The transitions from an element to a child of it, and back to the element.
#[derive(Clone, Copy)]
pub struct Edge {
    /// The concepts that have a child by the edge.
    pub parents: ConceptSet,

    /// Where a role step leads down the edge.
    pub down: Relation,

    /// Where a role step leads back up it.
    pub up: Relation,
}

/// All that a round knows.
#[derive(Clone, Copy)]
pub struct Rows {
    /// The declared states.
    pub states: StateSet,

    /// The valid concepts.
    pub concepts: ConceptSet,

    /// For each pair of states, the concepts at which a test step leads from the one to the other.
    pub tests: Sheet,

    /// For each signed role R, the edges to a child that is known by "has a neighbour by R".
    pub edges_to: [RoleSet; SignedRole::NUMBERS],

    /// The edges: one for each signed role.
    pub edges: [Edge; SignedRole::NUMBERS],
}

impl Edge {
    pub const NONE: Edge = Edge {
        parents: ConceptSet::EMPTY,
        down: [StateSet::EMPTY; State::NUMBERS],
        up: [StateSet::EMPTY; State::NUMBERS],
    };
}

impl Rows {
    /// The concepts that may be marked at a pair of states: where both are declared, the valid ones.
    pub fn markable(&self, from: State, to: State) -> ConceptSet
        ensures { IsMarkable self.now from.0 to.0 result.0 }
    {
        if from.0 < State::MOST
            && to.0 < State::MOST
            && self.states.contains(from)
            && self.states.contains(to)
        {
            self.concepts
        } else {
            ConceptSet::EMPTY
        }
    }
}
