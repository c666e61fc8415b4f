// Exclusions of concepts: for each concept those that are excluded from it.

ghost use Rattle.std.specs.Prelude.{ℕ, ◌≡◌, ◌+◌, ◌<◌, ◌⊎◌, ◌↔◌, IsTrue, slice_index_or};
ghost use Rattle.kinds.specs.Kinds.{base, flip, most_individuals};
ghost use Rattle.sets.specs.Bits.{concept_width, role_width, has, Has};
ghost use Rattle.sets.specs.Rows.{concept_marks, no_concepts};
ghost use Rattle.clash.specs.Clashes.{HaveBothSides, SomeBelow, SomeIn, IndividualClashes, UnnamedClashes, ConceptsClash};
ghost use Rattle.clash.specs.Conflicts.{AreConflicts, AreAmong, IsPart, Covers, MeetsRow, UnnamedAmong};

use elements::Elements;
use kinds::{Concept, Individual, SignedRole};
use orders::{ConceptOrder, ConceptRelation, mark_pairs};
use sets::{ConceptSet, RoleSet};
use tables::{ConceptPair, Table};

// The exclusions of a table, for rows whose concepts are all in the set `among`: for each left side the right sides beside it, and the set of the
// left sides that have a concept of `among` beside them. A row has both sides of an exclusion only by one of these.
#[derive(Clone, Copy)]
pub struct ConceptConflicts<'a> {
    pub exclusions: Table<'a, ConceptPair>,
    pub among: ConceptSet,
    pub excluded: ConceptRelation,
    pub lefts: ConceptSet,
}

// The concept numbered i is put into the set if its row meets the other set.
#[tactic(auto, using(orders::proofs::RowLaws::read_number))]
fn list(lefts: &mut ConceptSet, i: usize, row: ConceptSet, among: ConceptSet)
    requires { i < concept_width }
    ensures keeps { (k : ℕ) → Has lefts.old.0 k → Has lefts.new.0 k }
    ensures own { (j : ℕ) → Has row.0 j → Has among.0 j → Has lefts.new.0 i }
{
    if !row.intersects(among) {
        return;
    }
    lefts.insert(Concept::read(i as u16));
}

// The concepts whose row meets the set.
#[tactic(auto, using(crate::proofs::ConceptLaws::covers_none, crate::proofs::ConceptLaws::covers_more))]
fn left_sides(rows: &ConceptRelation, among: ConceptSet) -> ConceptSet
    ensures { Covers (concept_marks rows.now) concept_width among.0 result.0 }
{
    let mut lefts = ConceptSet::EMPTY;
    for (i, row) in rows.iter().enumerate() {
        list(&mut lefts, i, *row, among);
    }
    lefts
}

// Whether the row of some member meets the set.
#[tactic(auto, using(crate::proofs::SeekLaws::seek_start, crate::proofs::SeekLaws::seek_more, crate::proofs::SeekLaws::seek_here, crate::proofs::SeekLaws::seek_end))]
fn some_meets(rows: &ConceptRelation, members: ConceptSet, set: ConceptSet) -> bool
    ensures { IsTrue result ↔ SomeIn concept_width (MeetsRow rows.now set.0) members.0 }
{
    for member in members.iter() {
        if rows[member.number()].intersects(set) {
            return true;
        }
    }
    false
}

// What an unnamed element that ends by the role has: what follows from ∃ of the inverse.
#[tactic(auto, unfolding(kinds::specs::Kinds::inverse, kinds::specs::Kinds::number_of))]
fn unnamed_row(order: &ConceptOrder, role: SignedRole) -> ConceptSet
    ensures { result ≡ slice_index_or order.now.above (base + flip role.0) no_concepts }
{
    order.above(role.inverse().exists())
}

// The concepts that some individual has, or some unnamed element.
#[tactic(auto, using(crate::proofs::ConceptLaws::taking_start))]
pub(crate) fn element_concepts(order: &ConceptOrder, elements: &Elements) -> ConceptSet
    ensures individuals { AreAmong most_individuals (concept_marks elements.now.individuals)
        result.0 }
    ensures unnamed { UnnamedAmong (concept_marks order.now.above) elements.now.generating.0
        result.0 }
{
    let mut all = elements.individual_concepts();
    for role in elements.generating.iter() {
        all = all.union(unnamed_row(order, role));
    }
    all
}

impl<'a> ConceptConflicts<'a> {
    #[tactic(auto, using(crate::proofs::ConceptLaws::are_conflicts))]
    pub(crate) fn new(exclusions: Table<'a, ConceptPair>, among: ConceptSet) -> ConceptConflicts<'a>
        ensures exclusions { result.exclusions ≡ exclusions.entry }
        ensures among { result.among ≡ among }
        ensures are { AreConflicts exclusions.entry.numbers.now among.0
            (concept_marks result.excluded) result.lefts.0 }
    {
        let mut excluded = [ConceptSet::EMPTY; Concept::NUMBERS];
        mark_pairs(&mut excluded, exclusions);
        let lefts = left_sides(&excluded, among);
        ConceptConflicts {
            exclusions,
            among,
            excluded,
            lefts,
        }
    }

    // Whether the row has both sides of an exclusion. Only members that are left sides are looked at.
    fn break_in(&self, row: ConceptSet) -> bool
        requires conflicts { AreConflicts self.now.exclusions.numbers.now self.now.among.0
            (concept_marks self.now.excluded) self.now.lefts.0 }
        requires part { IsPart row.0 self.now.among.0 }
        ensures { IsTrue result
            ↔ HaveBothSides concept_width self.now.exclusions.numbers.now (has row.0) }
    {
        some_meets(&self.excluded, row.intersection(self.lefts), row)
    }

    // Whether the row of some individual does.
    #[tactic(auto, using(crate::proofs::SeekLaws::past_none, crate::proofs::SeekLaws::past_more, crate::proofs::SeekLaws::past_here))]
    fn break_at_individuals(&self, individuals: &[ConceptSet; Individual::NUMBERS]) -> bool
        requires conflicts { AreConflicts self.now.exclusions.numbers.now self.now.among.0
            (concept_marks self.now.excluded) self.now.lefts.0 }
        requires among { AreAmong most_individuals (concept_marks individuals.now)
            self.now.among.0 }
        ensures { IsTrue result ↔ SomeBelow most_individuals
            (IndividualClashes self.now.exclusions.numbers.now (concept_marks individuals.now)) }
    {
        for row in individuals.iter() {
            if self.break_in(*row) {
                return true;
            }
        }
        false
    }

    // Whether an unnamed element that ends by some role of the set does.
    #[tactic(auto, using(crate::proofs::SeekLaws::seek_start, crate::proofs::SeekLaws::seek_end))]
    fn break_at_unnamed(&self, order: &ConceptOrder, generating: RoleSet) -> bool
        requires conflicts { AreConflicts self.now.exclusions.numbers.now self.now.among.0
            (concept_marks self.now.excluded) self.now.lefts.0 }
        requires among { UnnamedAmong (concept_marks order.now.above) generating.0
            self.now.among.0 }
        ensures { IsTrue result ↔ SomeIn role_width
            (UnnamedClashes self.now.exclusions.numbers.now (concept_marks order.now.above))
            generating.0 }
    {
        for role in generating.iter() {
            if self.break_in(unnamed_row(order, role)) {
                return true;
            }
        }
        false
    }

    // Whether some individual, or some unnamed element, does.
    pub(crate) fn contradict(&self, order: &ConceptOrder, elements: &Elements) -> bool
        requires conflicts { AreConflicts self.now.exclusions.numbers.now self.now.among.0
            (concept_marks self.now.excluded) self.now.lefts.0 }
        requires individuals { AreAmong most_individuals (concept_marks elements.now.individuals)
            self.now.among.0 }
        requires unnamed { UnnamedAmong (concept_marks order.now.above) elements.now.generating.0
            self.now.among.0 }
        ensures { IsTrue result ↔ ConceptsClash self.now.exclusions.numbers.now
            (concept_marks elements.now.individuals) (concept_marks order.now.above)
            elements.now.generating.0 }
    {
        self.break_at_individuals(&elements.individuals)
            || self.break_at_unnamed(order, elements.generating)
    }
}
