// The converse of a relation of concepts. Where many rules lead in circles most rows have all of one row, and what they share is put at once for all of them.

ghost use Rattle.std.specs.Prelude.{◌<◌, ◌≡◌};
ghost use Rattle.sets.specs.Bits.{concept_width, Has};
ghost use Rattle.sets.specs.Rows.{Adds, concept_marks};
ghost use Rattle.orders.specs.Rows.{IsTransposed};
ghost use Rattle.orders.specs.Marks.{Block, LeavesRow};

use crate::concepts::ConceptRelation;
use kinds::Concept;
use sets::ConceptSet;

// Whether the first other concept that i is related to is related to i. Most concepts have a row of their own alone, which is told first.
fn leads_back(rows: &ConceptRelation, i: usize) -> bool
    requires { i < concept_width }
{
    let own = Concept::read(i as u16);
    let only = ConceptSet::only(own);
    if rows[i] == only {
        return false;
    }
    let mut others = rows[i].minus(only);
    match others.pop_first() {
        Some(other) => rows[other.number()].contains(own),
        None => false,
    }
}

// A row that many others may have all of: the first that leads back. It changes the time that transposing takes and nothing else, so no contract speaks of it.
fn shared_row(rows: &ConceptRelation) -> ConceptSet {
    for i in 0..Concept::NUMBERS {
        if leads_back(rows, i) {
            return rows[i];
        }
    }
    ConceptSet::EMPTY
}

// What is left of row i to be put member by member. Where it has all that is shared, its concept becomes a holder, and only the rest is left.
fn left_of(holders: &mut ConceptSet, i: usize, row: ConceptSet, shared: ConceptSet) -> ConceptSet
    requires { i < concept_width }
    ensures { LeavesRow shared.0 i row.0 holders.old.0 result.0 holders.new.0 }
{
    if shared.is_empty() || row.intersection(shared) != shared {
        return row;
    }
    holders.insert(Concept::read(i as u16));
    row.minus(shared)
}

// The concept i is put into the row of each member. Most have itself for their only member, which is told first.
#[tactic(auto, using(crate::proofs::TransposeLaws::putting_start, crate::proofs::TransposeLaws::putting_end))]
fn put_row(out: &mut ConceptRelation, i: usize, members: ConceptSet)
    requires { i < concept_width }
    ensures { Adds concept_width concept_width (concept_marks out.old)
        (Block members.0 (λ j. j ≡ i)) (concept_marks out.new) }
{
    let below = Concept::read(i as u16);
    if members == ConceptSet::only(below) {
        out[i].insert(below);
        return;
    }
    for above in members.iter() {
        out[above.number()].insert(below);
    }
}

// All holders are put into the row of each member.
#[tactic(auto, using(crate::proofs::TransposeLaws::putting_start, crate::proofs::TransposeLaws::putting_end))]
fn put_shared(out: &mut ConceptRelation, members: ConceptSet, holders: ConceptSet)
    ensures { Adds concept_width concept_width (concept_marks out.old)
        (Block members.0 (Has holders.0)) (concept_marks out.new) }
{
    for above in members.iter() {
        let k = above.number();
        out[k] = out[k].union(holders);
    }
}

// For each concept those that are related to it.
#[tactic(auto, using(crate::proofs::TransposeLaws::transposing_start, crate::proofs::TransposeLaws::transposing_end))]
pub fn transposed(rows: &ConceptRelation) -> ConceptRelation
    ensures { IsTransposed concept_width (concept_marks rows.now) (concept_marks result) }
{
    let shared = shared_row(rows);
    let mut holders = ConceptSet::EMPTY;
    let mut out = [ConceptSet::EMPTY; Concept::NUMBERS];
    for (i, row) in rows.iter().enumerate() {
        let left = left_of(&mut holders, i, *row, shared);
        put_row(&mut out, i, left);
    }
    put_shared(&mut out, shared, holders);
    out
}
