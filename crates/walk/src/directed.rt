// This file makes the transitions by which a walk changes its state, in the direction in which the walk goes. For a walk that
// goes backward each signed role has the transposed transitions of its inverse; so the code that follows the edges of an
// individual is the same for both directions.

ghost use Rattle.std.specs.Prelude.{◌≡◌, ◌<◌, ℕ, true};
ghost use Rattle.kinds.specs.Kinds.{flip};
ghost use Rattle.sets.specs.Bits.{Has, role_width};
ghost use Rattle.sets.specs.Relations.{Relates};
ghost use Rattle.walk.specs.Transposed.{EndsWithin, AreEnds, IsTransposed, AreTransposed};

use crate::direction::Direction;
use kinds::SignedRole;
use sets::{Relation, StateSet, Transitions, nowhere, preimage};

/// For each signed role its transitions in one direction, and the set of all states to which they lead.
#[derive(Clone, Copy)]
pub struct Directed<'d> {
    pub direction: Direction,
    pub transitions: &'d Transitions,
    pub ends: [StateSet; SignedRole::NUMBERS],
    ghost covers: { AreEnds transitions.now ends },
}

/// All states to which a relation leads.
pub(crate) fn ends_of(relation: &Relation) -> StateSet
    ensures { (s t : ℕ) → Relates relation.now s t → Has result.0 t }
{
    let mut out = StateSet::EMPTY;
    for set in relation.iter() {
        out = out.union(*set);
    }
    out
}

// For each role all states to which its transitions lead.
fn ends_of_each(transitions: &Transitions) -> [StateSet; SignedRole::NUMBERS]
    ensures { AreEnds transitions.now result }
{
    let mut out = [StateSet::EMPTY; SignedRole::NUMBERS];
    for r in 0..SignedRole::NUMBERS {
        out[r] = ends_of(&transitions[r]);
    }
    out
}

// The relation from t to s for each pair that the given one relates from s to t.
fn transpose(relation: &Relation) -> Relation
    ensures { IsTransposed relation.now result }
{
    let mut out = nowhere();
    let ends = ends_of(relation);
    for t in ends.iter() {
        out[t.0 as usize] = preimage(relation, StateSet::only(t));
    }
    out
}

// The number of the inverse of a role.
#[tactic(auto, unfolding(kinds::specs::Kinds::inverse))]
fn inverse(role: usize) -> usize
    requires { role < role_width }
    ensures is { result ≡ flip role }
    ensures low { result < role_width }
{
    SignedRole(role as u16).inverse().0 as usize
}

// For each role the transitions of its inverse, transposed.
fn transpose_all(out: &mut Transitions, transitions: &Transitions)
    ensures { AreTransposed transitions.now out.new }
{
    for r in 0..SignedRole::NUMBERS {
        out[r] = transpose(&transitions[inverse(r)]);
    }
}

impl<'d> Directed<'d> {
    ghost use Rattle.walk.specs.Guides.{IsForward, IsBackward};

    /// Forward, by the transitions as they are.
    pub(crate) fn forward(transitions: &'d Transitions) -> Directed<'d>
        ensures { IsForward transitions.now result }
    {
        let ends = ends_of_each(transitions);
        Directed {
            direction: Direction::Forward,
            transitions,
            ends,
        }
    }

    /// Backward, by the transposed ones, which stand where they are lent a place.
    pub(crate) fn backward(
        transitions: &Transitions,
        transposed: &'d mut Transitions,
    ) -> Directed<'d>
        ensures { IsBackward transitions.now result }
    {
        transpose_all(transposed, transitions);
        let ends = ends_of_each(transposed);
        Directed {
            direction: Direction::Backward,
            transitions: transposed,
            ends,
        }
    }

    /// Whether the states are all to which a role leads, so that a walk adds none to them by it.
    pub(crate) fn ends_within(&self, role: SignedRole, states: StateSet) -> bool
        requires { role.0 < role_width }
        ensures { result ≡ true → EndsWithin self.now.transitions.now role.0 states.0 }
    {
        self.ends[role.0 as usize].minus(states).is_empty()
    }
}
