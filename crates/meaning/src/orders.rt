// Laws of R ≤ S and C ≤ D. What holds for a type that names any relation holds of every relation.
ghost use Rattle.kinds.specs.declared.SignedRole.{SignedRole};
ghost use Rattle.kinds.specs.declared.Concept.{Concept};
ghost use Rattle.meaning.specs.LawsOfOrders.{RolesOrdered, RolesLeast, InversesOrdered};
ghost use Rattle.meaning.specs.LawsOfOrders.{ConceptsOrdered, ConceptsLeast, OnlyRulesDerive};
ghost use Rattle.meaning.specs.LawsOfOrders.{RolesComputed, ConceptsComputed};

// A type that names a relation between signed roles, or between basic concepts: any.
pub trait AnyRoles {
    ghost holds: { SignedRole → SignedRole → Type 0 };
}

pub trait AnyConcepts {
    ghost holds: { Concept → Concept → Type 0 };
}

// Exclusions derive nothing.
pub fn rules_alone()
    ensures only { OnlyRulesDerive }
{}

// R ≤ S.
pub fn roles()
    ensures roles_ordered { RolesOrdered }
    ensures inverses { InversesOrdered }
    ensures roles_computed { RolesComputed }
{}

pub fn least_roles<F: AnyRoles>()
    ensures roles_least { RolesLeast F.holds }
{}

// C ≤ D.
pub fn concepts()
    ensures concepts_ordered { ConceptsOrdered }
    ensures concepts_computed { ConceptsComputed }
{}

pub fn least_concepts<F: AnyConcepts>()
    ensures concepts_least { ConceptsLeast F.holds }
{}
