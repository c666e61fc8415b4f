// A collection as it is lent, and its tests 4, 5 and 6.
ghost use Rattle.std.specs.Prelude.{◌≡◌, ◌↔◌, IsTrue, IsOk};

use crate::records::{ConceptFact, ConceptPair, RoleFact, RolePair, Step, StepKind};
use crate::table::Table;
use kinds::{AREA, Answer, Counts, State};

// What is declared, and the eight tables, as a call lends them: nothing is known of a number before `check`.
#[derive(Clone, Copy)]
pub struct Collection<'a> {
    pub counts: Counts,
    pub concept_rules: Table<'a, ConceptPair>,
    pub concept_exclusions: Table<'a, ConceptPair>,
    pub role_rules: Table<'a, RolePair>,
    pub role_exclusions: Table<'a, RolePair>,
    pub concept_facts: Table<'a, ConceptFact>,
    pub role_facts: Table<'a, RoleFact>,
    pub steps: Table<'a, Step>,
    pub finals: Table<'a, State>,
}

// Why a collection is refused: the answers 4, 5 and 6 of docs/RULES.md (section 7).
#[derive(Clone, Copy, PartialEq, Eq)]
pub enum Refusal {
    // A count is out of its range, or the start state is not declared.
    BadCount,
    // A table has a broken last record or too many, or an area is not of `AREA` bytes.
    BadTable,
    // A number in a record is not declared, or a step's kind is above 1.
    BadNumber,
}

impl Refusal {
    ghost use Rattle.tables.specs.Refusals.{answer_of};

    // The refusal as the answer of a call.
    pub fn answer(self) -> Answer
        ensures { result ≡ answer_of self }
    {
        match self {
            Refusal::BadCount => Answer::BadCount,
            Refusal::BadTable => Answer::BadTable,
            Refusal::BadNumber => Answer::BadNumber,
        }
    }
}

// The most records of each table; a table may hold fewer, and none.
pub const CONCEPT_RULES: usize = 512;

pub const CONCEPT_EXCLUSIONS: usize = 512;

pub const ROLE_RULES: usize = 128;

pub const ROLE_EXCLUSIONS: usize = 128;

pub const CONCEPT_FACTS: usize = 1024;

pub const ROLE_FACTS: usize = 4096;

pub const STEPS: usize = 1024;

pub const FINALS: usize = 32;

impl<'a> Collection<'a> {
    ghost use Rattle.kinds.specs.Kinds.{CountsFit};
    ghost use Rattle.meaning.specs.Lent.{ShapesOk, TablesFit};
    ghost use Rattle.tables.specs.Lists.{lists, RecordsFit};
    ghost use Rattle.tables.specs.Tests.{PassesTests, StopsAtTables, StopsAtNumbers};

    // Whole records in each table, and not too many.
    fn shapes_fit(&self) -> bool
        ensures { IsTrue result ↔ ShapesOk (lists self.now) }
    {
        self.concept_rules.is_whole(CONCEPT_RULES)
            && self.concept_exclusions.is_whole(CONCEPT_EXCLUSIONS)
            && self.role_rules.is_whole(ROLE_RULES)
            && self.role_exclusions.is_whole(ROLE_EXCLUSIONS)
            && self.concept_facts.is_whole(CONCEPT_FACTS)
            && self.role_facts.is_whole(ROLE_FACTS)
            && self.steps.is_whole(STEPS)
            && self.finals.is_whole(FINALS)
    }

    // And two areas of the right length.
    fn tables_fit(&self, area: usize, spare: usize) -> bool
        ensures { IsTrue result ↔ TablesFit (lists self.now) area spare }
    {
        self.shapes_fit() && area == AREA && spare == AREA
    }

    // Every number is declared, and no step kind is above 1.
    fn records_fit(&self) -> bool
        ensures { IsTrue result ↔ RecordsFit self.now }
    {
        let counts = self.counts;
        let kinds: Table<StepKind> = Table::new(self.steps.numbers);
        self.concept_rules.all_declared(counts)
            && self.concept_exclusions.all_declared(counts)
            && self.role_rules.all_declared(counts)
            && self.role_exclusions.all_declared(counts)
            && self.concept_facts.all_declared(counts)
            && self.role_facts.all_declared(counts)
            && self.steps.all_declared(counts)
            && self.finals.all_declared(counts)
            && kinds.all_declared(counts)
    }

    // The tests 4, 5 and 6, in this order: the first that fails is the refusal.
    // `area` and `spare` are the lengths in bytes of the two areas that are lent.
    pub fn check(&self, area: usize, spare: usize) -> Result<(), Refusal>
        ensures ok { IsOk result ↔ PassesTests self.now area spare }

        // Each refusal exactly where its test is the first to fail.
        ensures bad_count { (result ≡ Err Refusal.BadCount) ↔ (¬ CountsFit self.now.counts) }
        ensures bad_table { let c = self.now in
            (result ≡ Err Refusal.BadTable) ↔ StopsAtTables c area spare }
        ensures bad_number { let c = self.now in
            (result ≡ Err Refusal.BadNumber) ↔ StopsAtNumbers c area spare }
    {
        if !self.counts.fit() {
            return Err(Refusal::BadCount);
        }
        if !self.tables_fit(area, spare) {
            return Err(Refusal::BadTable);
        }
        if !self.records_fit() {
            return Err(Refusal::BadNumber);
        }
        Ok(())
    }
}
