// The loops of each individual, made from its concepts and the closed sheet. Most individuals share many concepts: the loops by these are made
// once, and for each concept those that it gives besides. An individual's loops are what all share, joined with what its own concepts give.

ghost use Rattle.std.specs.Prelude.{◌*◌, ◌/◌, ◌%◌, ◌<◌};
ghost use Rattle.kinds.specs.Kinds.{most_states};
ghost use Rattle.sets.specs.Bits.{Has, IsEmpty, IsSetOf, IsUnion};
ghost use Rattle.walk.specs.Loops.{LoopTo, IsLoopRow, AreLoops};
ghost use Rattle.walk.specs.LoopParts.{Within, AreShared, IsLeft, AreRelations, Puts, GivesNone, AreByConcept, Joined, Gives, IsRowOf};

use kinds::{Concept, Individual, State};
use sets::{ConceptSet, Relation, Sheet, StateSet};

/// For each individual and each state, the states to which the individual's loops lead.
#[derive(Clone, Copy)]
pub struct Loops {
    pub rows: [Relation; Individual::NUMBERS],
}

/// For each concept the loops that it gives beside those that individuals share, and the concepts that give any.
#[derive(Clone, Copy)]
pub struct ByConcept {
    pub rows: [Relation; Concept::NUMBERS],
    pub useful: ConceptSet,
}

// The states to which loops lead from s by the concepts.
fn loops_from(sheet: &Sheet, s: usize, concepts: ConceptSet) -> StateSet
    requires { s < most_states }
    ensures { IsSetOf (LoopTo sheet.now concepts.0 s) result.0 }
{
    let mut out = StateSet::EMPTY;
    for t in 0..State::NUMBERS {
        out.insert_if(
            State(t as u16),
            sheet[State::NUMBERS * s + t].intersects(concepts),
        );
    }
    out
}

// For each state the states to which loops lead from it by the concepts.
fn loops_by(sheet: &Sheet, concepts: ConceptSet) -> Relation
    ensures { IsLoopRow sheet.now concepts.0 result }
{
    let mut out = [StateSet::EMPTY; State::NUMBERS];
    for (s, set) in out.iter_mut().enumerate() {
        *set = loops_from(sheet, s, concepts);
    }
    out
}

// What an individual with the concepts shares with those before it. One that has no concept is left out.
fn shared_with(so_far: ConceptSet, concepts: ConceptSet) -> ConceptSet
    ensures keeps { Within result.0 so_far.0 }
    ensures own { (IsEmpty concepts.0 → ⊥) → Within result.0 concepts.0 }
{
    if concepts.is_empty() {
        return so_far;
    }
    so_far.intersection(concepts)
}

/// The concepts that all individuals have that have any.
pub(crate) fn shared_concepts(individuals: &[ConceptSet; Individual::NUMBERS]) -> ConceptSet
    ensures { AreShared individuals.now result.0 }
{
    let mut out = ConceptSet(u128::MAX);
    for concepts in individuals.iter() {
        out = shared_with(out, *concepts);
    }
    out
}

// The concepts at which pair q of states is marked; none where the pair is related already.
fn left_at(sheet: &Sheet, shared: &Relation, q: usize) -> ConceptSet
    requires { q < most_states * most_states }
    ensures { IsSetOf (IsLeft sheet.now shared.now q) result.0 }
{
    let to = State((q % State::NUMBERS) as u16);
    if shared[q / State::NUMBERS].contains(to) {
        return ConceptSet::EMPTY;
    }
    sheet[q]
}

// Each of the concepts relates s to t.
fn put(rows: &mut [Relation; Concept::NUMBERS], concepts: ConceptSet, s: usize, t: State)
    requires from { s < most_states }
    requires to { t.0 < most_states }
    requires ready { AreRelations rows.old }
    ensures ready { AreRelations rows.new }
    ensures put { Puts (Has concepts.0) s t.0 rows.old rows.new }
{
    for concept in concepts.iter() {
        rows[concept.number()][s].insert(t);
    }
}

impl ByConcept {
    const NONE: ByConcept = ByConcept {
        rows: [[StateSet::EMPTY; State::NUMBERS]; Concept::NUMBERS],
        useful: ConceptSet::EMPTY,
    };
}

// Each of the concepts that are left at pair q gives a loop there. At most pairs there is none.
fn put_pair(by_concept: &mut ByConcept, left: ConceptSet, q: usize)
    requires pair { q < most_states * most_states }
    requires ready { AreRelations by_concept.old.rows }
    ensures ready { AreRelations by_concept.new.rows }
    ensures put { Puts (Has left.0) (q / most_states) (q % most_states)
        by_concept.old.rows by_concept.new.rows }
    ensures useful { IsUnion by_concept.old.useful.0 left.0 by_concept.new.useful.0 }
{
    if left.is_empty() {
        return;
    }
    let to = State((q % State::NUMBERS) as u16);
    by_concept.useful = by_concept.useful.union(left);
    put(&mut by_concept.rows, left, q / State::NUMBERS, to);
}

// The loops by each concept, of the pairs that are left, where no concept gave any.
fn put_pairs(by_concept: &mut ByConcept, sheet: &Sheet, shared: &Relation)
    requires { GivesNone by_concept.old }
    ensures { AreByConcept sheet.now shared.now by_concept.new }
{
    for q in 0..State::PAIRS {
        put_pair(by_concept, left_at(sheet, shared, q), q);
    }
}

// The pairs of another relation are added.
fn add_relation(relation: &mut Relation, more: &Relation)
    ensures { Joined relation.old more.now relation.new }
{
    for s in 0..State::NUMBERS {
        relation[s] = relation[s].union(more[s]);
    }
}

// What is shared, with what each of the concepts gives.
fn joined(shared: &Relation, by_concept: &ByConcept, concepts: ConceptSet) -> Relation
    ensures { Gives (Has concepts.0) shared.now by_concept.now result }
{
    let mut out = *shared;
    for concept in concepts.iter() {
        add_relation(&mut out, &by_concept.rows[concept.number()]);
    }
    out
}

// The loops of an individual that has the concepts. With none there is no loop.
fn loops_of(shared: &Relation, by_concept: &ByConcept, concepts: ConceptSet) -> Relation
    ensures { IsRowOf shared.now by_concept.now concepts.0 result }
{
    if concepts.is_empty() {
        return [StateSet::EMPTY; State::NUMBERS];
    }
    let useful = concepts.intersection(by_concept.useful);
    joined(shared, by_concept, useful)
}

impl Loops {
    pub const NONE: Loops = Loops {
        rows: [[StateSet::EMPTY; State::NUMBERS]; Individual::NUMBERS],
    };

    /// From the concepts of each individual and the closed sheet, whatever stood there before.
    pub fn fill(&mut self, individuals: &[ConceptSet; Individual::NUMBERS], sheet: &Sheet)
        ensures { AreLoops individuals.now sheet.now self.new.rows }
    {
        let shared = loops_by(sheet, shared_concepts(individuals));
        let mut by_concept = ByConcept::NONE;
        put_pairs(&mut by_concept, sheet, &shared);
        for a in 0..Individual::NUMBERS {
            self.rows[a] = loops_of(&shared, &by_concept, individuals[a]);
        }
    }
}
