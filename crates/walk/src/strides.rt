// What walks follow.

ghost use Rattle.std.specs.Prelude.{ℕ};
ghost use Rattle.sets.specs.Bits.{Has};
ghost use Rattle.walk.specs.Covers.{Covers};

use crate::directed::ends_of;
use crate::hints::lead_in_circle;
use crate::loops::Loops;
use edges::FactEdges;
use kinds::SignedRole;
use sets::{RoleSet, Transitions};

/// What walks follow: the loops of each individual, the transitions of each signed role, and the edges that role facts make. Edges by roles that
/// have no transition lead nowhere, so they need not be listed.
#[derive(Clone, Copy)]
pub struct Strides<'s, 'a> {
    pub loops: &'s Loops,
    pub transitions: &'s Transitions,
    pub edges: &'s FactEdges<'a>,
    ghost covers: { Covers transitions.now edges.now.roles.0 },
}

/// The roles by which transitions lead from any state.
pub(crate) fn leading_roles(transitions: &Transitions) -> RoleSet
    ensures { Covers transitions.now result.0 }
{
    let mut out = RoleSet::EMPTY;
    for r in 0..SignedRole::NUMBERS {
        let ends = ends_of(&transitions[r]);
        out.insert_if(SignedRole(r as u16), !ends.is_empty());
    }
    out
}

// The roles, and their inverses.
fn with_inverses(roles: RoleSet) -> RoleSet
    ensures { (R : ℕ) → Has roles.0 R → Has result.0 R }
{
    let mut all = roles;
    for role in roles.iter() {
        all.insert(role.inverse());
    }
    all
}

/// The roles whose edges walks need: those that have transitions. Where transitions lead in a circle walks go backward too, along edges by the
/// inverses, so these are among them: a hint.
pub fn roles_of(transitions: &Transitions) -> RoleSet
    ensures { Covers transitions.now result.0 }
{
    let leading = leading_roles(transitions);
    if !lead_in_circle(transitions, leading) {
        return leading;
    }
    with_inverses(leading)
}
