// The contradiction test: whether an individual or an unnamed element has both sides of an exclusion of concepts, and whether an ordered pair
// of elements has both sides of an exclusion of roles.
#![tactic(auto)]

ghost use Rattle.std.specs.Prelude.{◌≡◌, ◌⊎◌, ◌↔◌, IsTrue};
ghost use Rattle.sets.specs.Rows.{concept_marks, role_marks};
ghost use Rattle.clash.specs.Clashes.{ConceptsClash, RolesClash};
ghost use Rattle.clash.specs.Conflicts.{AreConcerned};

mod concepts;
mod past;
mod roles;
pub mod theorems;

use concepts::{ConceptConflicts, element_concepts};
use edges::FactEdges;
use elements::Elements;
use orders::{ConceptOrder, RoleOrder};
use roles::RoleConflicts;
pub use roles::{RoleRelation, excluded_from};
use sets::RoleSet;
use tables::{ConceptPair, RolePair, Table};

/// The two tables of exclusions; a pair with a number out of range excludes nothing.
#[derive(Clone, Copy)]
pub struct Exclusions<'a> {
    pub concepts: Table<'a, ConceptPair>,
    pub roles: Table<'a, RolePair>,
}

impl<'a> Exclusions<'a> {
    pub fn new(concepts: Table<'a, ConceptPair>, roles: Table<'a, RolePair>) -> Exclusions<'a>
        ensures concepts { result.concepts ≡ concepts.entry }
        ensures roles { result.roles ≡ roles.entry }
    {
        Exclusions { concepts, roles }
    }

    /// Whether some individual, or some unnamed element, has both sides of an exclusion of concepts.
    pub fn contradicts_concepts(&self, order: &ConceptOrder, elements: &Elements) -> bool
        ensures { IsTrue result ↔ ConceptsClash self.now.concepts.numbers.now
            (concept_marks elements.now.individuals) (concept_marks order.now.above)
            elements.now.generating.0 }
    {
        let among = element_concepts(order, elements);
        ConceptConflicts::new(self.concepts, among).contradict(order, elements)
    }

    /// The roles that an exclusion concerns: to tell of pairs of individuals whether they have both sides of one, edges by these are enough.
    pub fn concerned(&self, roles: &RoleOrder) -> RoleSet
        ensures { AreConcerned self.now.roles.numbers.now (role_marks roles.now.above) result.0 }
    {
        roles::concerned(self.roles, roles)
    }

    /// Whether some element and its child, or two individuals, have both sides of an exclusion of roles. With no exclusion nothing is worked out.
    /// Every fact of the table counts, also past those whose edges the list has.
    pub fn contradicts_roles(
        &self,
        roles: &RoleOrder,
        generating: RoleSet,
        edges: &FactEdges,
    ) -> bool
        ensures { IsTrue result ↔ RolesClash self.now.roles.numbers.now
            (role_marks roles.now.above) generating.0
            edges.now.facts.numbers.now edges.now.roles.0 }
    {
        if self.roles.is_empty() {
            return false;
        }
        RoleConflicts::new(self.roles, roles).contradict(generating, edges)
    }
}
