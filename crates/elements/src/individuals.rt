// The concepts of each individual.

ghost use Rattle.std.specs.Prelude.{◌<◌};
ghost use Rattle.kinds.specs.Kinds.{most_individuals};
ghost use Rattle.sets.specs.Bits.{concept_width};
ghost use Rattle.sets.specs.Rows.{Adds, concept_marks};
ghost use Rattle.elements.specs.Concepts.{Concepts};
ghost use Rattle.elements.specs.Steps.{InRow, ByConcept, ByRole, ConceptListed, RoleListed};

use kinds::{Concept, ConceptName, Individual, RoleName};
use orders::ConceptOrder;
use sets::ConceptSet;
use tables::{ConceptFact, RoleFact, Table};

// A set for each individual.
type Rows = [ConceptSet; Individual::NUMBERS];

// A set put into the row of the individual a.
#[tactic(auto, using(crate::proofs::FactLaws::joined))]
fn join(rows: &mut Rows, a: usize, row: ConceptSet)
    requires { a < most_individuals }
    ensures { Adds most_individuals concept_width (concept_marks rows.old)
        (InRow a row.0) (concept_marks rows.new) }
{
    rows[a] = rows[a].union(row);
}

// One concept fact: all that follows from its name.
fn join_concept_fact(rows: &mut Rows, order: &ConceptOrder, fact: ConceptFact)
    ensures { Adds most_individuals concept_width (concept_marks rows.old)
        (ByConcept (concept_marks order.now.above) fact) (concept_marks rows.new) }
{
    let a = fact.individual.0;
    if fact.name.0 >= ConceptName::MOST || a >= Individual::MOST {
        return;
    }
    join(rows, a as usize, order.above(Concept::Name(fact.name)));
}

// One role fact: its first individual has a neighbour by the role forward, its second one by the role backward.
fn join_role_fact(rows: &mut Rows, order: &ConceptOrder, fact: RoleFact)
    ensures { Adds most_individuals concept_width (concept_marks rows.old)
        (ByRole (concept_marks order.now.above) fact) (concept_marks rows.new) }
{
    let a = fact.first.0;
    let b = fact.second.0;
    if fact.role.0 >= RoleName::MOST || a >= Individual::MOST || b >= Individual::MOST {
        return;
    }
    join(rows, a as usize, order.above(fact.role.forward().exists()));
    join(rows, b as usize, order.above(fact.role.backward().exists()));
}

// Every concept fact.
fn join_concept_facts(rows: &mut Rows, order: &ConceptOrder, facts: Table<ConceptFact>)
    ensures { Adds most_individuals concept_width (concept_marks rows.old)
        (ConceptListed facts.entry.numbers.now (concept_marks order.now.above))
        (concept_marks rows.new) }
{
    for fact in facts.iter() {
        join_concept_fact(rows, order, fact);
    }
}

// Every role fact.
fn join_role_facts(rows: &mut Rows, order: &ConceptOrder, facts: Table<RoleFact>)
    ensures { Adds most_individuals concept_width (concept_marks rows.old)
        (RoleListed facts.entry.numbers.now (concept_marks order.now.above))
        (concept_marks rows.new) }
{
    for fact in facts.iter() {
        join_role_fact(rows, order, fact);
    }
}

// From the facts and the order of the concepts, whatever stood there before.
#[tactic(auto, using(crate::proofs::FactLaws::all_facts))]
pub fn fill(
    rows: &mut [ConceptSet; Individual::NUMBERS],
    concept_facts: Table<ConceptFact>,
    role_facts: Table<RoleFact>,
    order: &ConceptOrder,
)
    ensures { Concepts concept_facts.entry.numbers.now role_facts.entry.numbers.now
        (concept_marks order.now.above) (concept_marks rows.new) }
{
    *rows = [ConceptSet::EMPTY; Individual::NUMBERS];
    join_concept_facts(rows, order, concept_facts);
    join_role_facts(rows, order, role_facts);
}
