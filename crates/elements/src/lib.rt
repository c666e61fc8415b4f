// Who has what: the concepts of each individual, and the roles by which unnamed elements end.
#![tactic(auto, using(sets::proofs::RowLaws::adds))]

ghost use Rattle.kinds.specs.Kinds.{most_individuals};
ghost use Rattle.sets.specs.Bits.{has};
ghost use Rattle.sets.specs.Rows.{concept_marks};
ghost use Rattle.elements.specs.Concepts.{Concepts, Gathers};
ghost use Rattle.elements.specs.Generating.{AreGenerating};

mod generating;
mod individuals;
pub mod theorems;

use kinds::Individual;
use orders::ConceptOrder;
use sets::{ConceptSet, RoleSet};
use tables::{ConceptFact, RoleFact, Table};

/// The concepts of each individual, and the generating roles: those by which some unnamed element ends.
#[derive(Clone, Copy)]
pub struct Elements {
    pub individuals: [ConceptSet; Individual::NUMBERS],
    pub generating: RoleSet,
}

impl Elements {
    pub const EMPTY: Elements = Elements {
        individuals: [ConceptSet::EMPTY; Individual::NUMBERS],
        generating: RoleSet::EMPTY,
    };

    /// Both fields are written from the facts and the order of the concepts; a fact with a number out of range is passed over.
    #[tactic(auto, using(crate::proofs::ReachLaws::all_generating))]
    pub fn fill(
        &mut self,
        concept_facts: Table<ConceptFact>,
        role_facts: Table<RoleFact>,
        order: &ConceptOrder,
    )
        ensures individuals { Concepts concept_facts.entry.numbers.now role_facts.entry.numbers.now
            (concept_marks order.now.above) (concept_marks self.new.individuals) }
        ensures generating { AreGenerating (concept_marks self.new.individuals)
            (concept_marks order.now.above) (has self.new.generating.0) }
    {
        individuals::fill(&mut self.individuals, concept_facts, role_facts, order);
        self.generating = generating::reached(generating::seeds(&self.individuals), order);
    }

    /// The concepts that some individual has.
    pub fn individual_concepts(&self) -> ConceptSet
        ensures { Gathers most_individuals (concept_marks self.now.individuals) result.0 }
    {
        generating::gathered(&self.individuals)
    }
}
