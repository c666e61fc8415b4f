// The facts of a collection one after another, each from the table that an order names.

ghost use Rattle.sift.specs.Entries.{GivesEntry};

use salvage::Typed;
use tables::{ConceptFact, Records, RoleFact};

// A fact of either kind.
#[derive(Clone, Copy)]
pub(crate) enum TypedFact {
    Concept(ConceptFact),
    Role(RoleFact),
}

// The facts of each kind that are still to come.
#[derive(Clone, Copy)]
pub(crate) struct FactsLeft<'a> {
    pub concepts: Records<'a, ConceptFact>,
    pub roles: Records<'a, RoleFact>,
}

impl<'a> FactsLeft<'a> {
    fn next_concept(&mut self) -> Option<TypedFact>
        ensures { GivesEntry Typed.ConceptFact self.old result self.new }
    {
        match self.concepts.next() {
            Some(fact) => Some(TypedFact::Concept(fact)),
            None => None,
        }
    }

    fn next_role(&mut self) -> Option<TypedFact>
        ensures { GivesEntry Typed.RoleFact self.old result self.new }
    {
        match self.roles.next() {
            Some(fact) => Some(TypedFact::Role(fact)),
            None => None,
        }
    }

    // The next fact of the table that is named; none where it has no more, or where none is named.
    pub(crate) fn next(&mut self, typed: Typed) -> Option<TypedFact>
        ensures { GivesEntry typed self.old result self.new }
    {
        match typed {
            Typed::ConceptFact => self.next_concept(),
            Typed::RoleFact => self.next_role(),
            Typed::Other => None,
        }
    }
}
