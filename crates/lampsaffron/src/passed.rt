// What a call for another language is passed of a collection, and the collection as it is lent.
ghost use Rattle.std.specs.Prelude.{◌≡◌};
ghost use Rattle.tables.specs.Lists.{lists};
ghost use Rattle.lampsaffron.specs.Boundary.{counted, lent};

use index::Lent;
use kinds::{Counts, Rounds, State};
use tables::{Collection, Table};

// Five counts, and eight tables of numbers.
#[derive(Clone, Copy)]
pub(crate) struct Passed<'a> {
    pub(crate) names: u16,
    pub(crate) roles: u16,
    pub(crate) individuals: u16,
    pub(crate) states: u16,
    pub(crate) start: u16,
    pub(crate) concept_rules: &'a [u16],
    pub(crate) concept_exclusions: &'a [u16],
    pub(crate) role_rules: &'a [u16],
    pub(crate) role_exclusions: &'a [u16],
    pub(crate) concept_facts: &'a [u16],
    pub(crate) role_facts: &'a [u16],
    pub(crate) steps: &'a [u16],
    pub(crate) finals: &'a [u16],
}

impl<'a> Passed<'a> {
    // The collection, each number as its kind.
    pub(crate) fn collection(&self) -> Collection<'a>
        ensures counts { let p = self.now in
            result.counts ≡ counted p.names p.roles p.individuals p.states p.start }
        ensures tables { let p = self.now in
            lists result ≡ lent p.concept_rules.now p.concept_exclusions.now
            p.role_rules.now p.role_exclusions.now p.concept_facts.now p.role_facts.now
            p.steps.now p.finals.now }
    {
        let counts = Counts {
            names: self.names,
            roles: self.roles,
            individuals: self.individuals,
            states: self.states,
            start: State(self.start),
        };
        Collection {
            counts,
            concept_rules: Table::new(self.concept_rules),
            concept_exclusions: Table::new(self.concept_exclusions),
            role_rules: Table::new(self.role_rules),
            role_exclusions: Table::new(self.role_exclusions),
            concept_facts: Table::new(self.concept_facts),
            role_facts: Table::new(self.role_facts),
            steps: Table::new(self.steps),
            finals: Table::new(self.finals),
        }
    }

    // And how many rounds are allowed.
    pub(crate) fn lent(&self, allowance: Rounds) -> Lent<'a>
        ensures counts { let p = self.now in
            result.collection.counts ≡ counted p.names p.roles p.individuals p.states p.start }
        ensures tables { let p = self.now in
            lists result.collection ≡ lent p.concept_rules.now p.concept_exclusions.now
            p.role_rules.now p.role_exclusions.now p.concept_facts.now p.role_facts.now
            p.steps.now p.finals.now }
        ensures allowance { result.allowance ≡ allowance }
    {
        Lent {
            collection: self.collection(),
            allowance,
        }
    }
}
