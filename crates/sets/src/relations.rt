// Relations between states, and what several rooms keep by states: a set for each state, or for each pair of states.

ghost use Rattle.std.specs.Prelude.{ℕ, ◌≡◌, replicate};
ghost use Rattle.kinds.specs.Kinds.{most_states};
ghost use Rattle.sets.specs.Bits.{Has};
ghost use Rattle.sets.specs.Relations.{states_at, Relates, Transposed, IsImage};
ghost use Rattle.sets.specs.Rows.{no_states};

use crate::concepts::ConceptSet;
use crate::states::StateSet;
use kinds::{SignedRole, State};

/// For each state the set of states to which it leads.
pub type Relation = [StateSet; State::NUMBERS];

/// For each signed role the relation along which its role steps lead.
pub type Transitions = [Relation; SignedRole::NUMBERS];

/// For each pair of states the concepts at which it is marked.
pub type Sheet = [ConceptSet; State::PAIRS];

/// A relation that leads nowhere. Tables of relations are made of copies of it, which takes less time than clearing them: so this is a call of
/// its own.
#[inline(never)]
pub fn nowhere() -> Relation
    ensures { result ≡ replicate most_states no_states }
{
    [StateSet::EMPTY; State::NUMBERS]
}

/// The states to which one state leads. A state whose number is past the last has no row, and leads nowhere.
#[tactic(auto, using(crate::proofs::Gathering::no_row))]
pub fn successors(relation: &Relation, from: State) -> StateSet
    ensures { result.0 ≡ states_at relation.now from.0 }
{
    if from.0 >= State::MOST {
        return StateSet::EMPTY;
    }
    relation[from.0 as usize]
}

/// The states to which those of a set lead. A set has few states, most often one.
pub fn image(relation: &Relation, from: StateSet) -> StateSet
    ensures { IsImage (Relates relation.now) from.0 result.0 }
{
    let mut out = StateSet::EMPTY;
    for s in from.iter() {
        out = out.union(successors(relation, s));
    }
    out
}

/// All states from which a relation leads. Each row is tested, with no branch on the test.
pub fn starts_of(relation: &Relation) -> StateSet
    ensures { (s t : ℕ) → Relates relation.now s t → Has result.0 s }
{
    let mut out = StateSet::EMPTY;
    for (s, row) in relation.iter().enumerate() {
        out.insert_if(State(s as u16), !row.is_empty());
    }
    out
}

/// The states that lead to some state of a set. Each row is tested, with no branch on the test.
pub fn preimage(relation: &Relation, to: StateSet) -> StateSet
    ensures { IsImage (Transposed (Relates relation.now)) to.0 result.0 }
{
    let mut out = StateSet::EMPTY;
    for (s, row) in relation.iter().enumerate() {
        out.insert_if(State(s as u16), row.intersects(to));
    }
    out
}
