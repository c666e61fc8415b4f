// The generating roles: the signed roles by which some unnamed element of the canonical model ends.

ghost use Rattle.std.specs.Prelude.{◌<◌};
ghost use Rattle.kinds.specs.Kinds.{most_individuals};
ghost use Rattle.sets.specs.Bits.{role_width};
ghost use Rattle.sets.specs.Rows.{concept_marks};
ghost use Rattle.elements.specs.Concepts.{Gathers};
ghost use Rattle.elements.specs.Steps.{AreSeeds, IsReached, ChildRoles};

use kinds::{Individual, SignedRole};
use orders::ConceptOrder;
use sets::{ConceptSet, RoleSet};

// The concepts that some individual has.
#[tactic(auto, using(crate::proofs::ReachLaws::gathers_none, crate::proofs::ReachLaws::gathers_more))]
pub fn gathered(rows: &[ConceptSet; Individual::NUMBERS]) -> ConceptSet
    ensures { Gathers most_individuals (concept_marks rows.now) result.0 }
{
    let mut all = ConceptSet::EMPTY;
    for row in rows.iter() {
        all = all.union(*row);
    }
    all
}

// The seeds: the roles R where some individual has ∃R.
#[tactic(auto, using(crate::proofs::ReachLaws::seeds_end))]
pub fn seeds(rows: &[ConceptSet; Individual::NUMBERS]) -> RoleSet
    ensures { AreSeeds (concept_marks rows.now) result.0 }
{
    gathered(rows).roles()
}

// The roles S with ∃(inverse R) ≤ ∃S: by them an element that ends by R has its children.
fn children(role: SignedRole, order: &ConceptOrder) -> RoleSet
    requires { role.0 < role_width }
    ensures { ChildRoles (concept_marks order.now.above) role.0 result.0 }
{
    let back = role.inverse();
    order.above(back.exists()).roles()
}

// The roles that are reached from the seeds. Each turn takes one role off the worklist and puts on it the roles that it reaches for the first time.
#[tactic(auto, using(crate::proofs::ReachLaws::reaching_start, crate::proofs::ReachLaws::reaching_end))]
pub fn reached(seeds: RoleSet, order: &ConceptOrder) -> RoleSet
    ensures { IsReached seeds.0 (concept_marks order.now.above) result.0 }
{
    let mut generating = seeds;
    let mut waiting = seeds;
    while let Some(role) = waiting.pop_first() {
        let reached = children(role, order);
        let grown = generating.union(reached);
        if grown != generating {
            waiting = waiting.union(reached.minus(generating));
            generating = grown;
        }
    }
    generating
}
