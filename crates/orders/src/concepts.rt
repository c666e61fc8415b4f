// C ≤ D: for each basic concept the set of those above it, closed in place over the closed order of the roles.

ghost use Rattle.std.specs.Prelude.{ℕ, List, ◌<◌, ◌≡◌, slice_index_or};
ghost use Rattle.kinds.specs.Kinds.{number_of};
ghost use Rattle.laws.specs.Warshall.{Stepped, Closes};
ghost use Rattle.sets.specs.Bits.{concept_width};
ghost use Rattle.sets.specs.Rows.{Adds, concept_marks, role_marks, no_concepts};
ghost use Rattle.orders.specs.Rows.{IsRoleOrder, IsConceptOrder, IsTransposed};
ghost use Rattle.orders.specs.Marks.{Shows, Pair, Diagonal, Listed, Wide, IsClosedOver};

use crate::roles::RoleOrder;
use crate::transposed::transposed;
use kinds::{Concept, SignedRole};
use sets::{ConceptSet, RoleSet};
use tables::{ConceptPair, Table};

/// For each basic concept the set of those that it is related to.
pub type ConceptRelation = [ConceptSet; Concept::NUMBERS];

// One pair is put into the relation; a pair with a number out of range is passed over.
#[tactic(auto, using(crate::proofs::RowLaws::stored))]
fn mark_pair(rows: &mut ConceptRelation, left: Concept, right: Concept)
    ensures { Adds concept_width concept_width (concept_marks rows.old)
        (Pair (number_of left) (number_of right)) (concept_marks rows.new) }
{
    let i = left.number();
    if i < Concept::NUMBERS && right.number() < Concept::NUMBERS {
        rows[i].insert(right);
    }
}

/// Every pair of a table is put into the relation; a pair with a number out of range is passed over.
#[tactic(auto)]
pub fn mark_pairs(rows: &mut ConceptRelation, pairs: Table<ConceptPair>)
    ensures { Adds concept_width concept_width (concept_marks rows.old)
        (Listed pairs.entry.numbers.now) (concept_marks rows.new) }
{
    for pair in pairs.iter() {
        mark_pair(rows, pair.left, pair.right);
    }
}

// Every concept is related to itself.
#[tactic(auto)]
fn reflexive(rows: &mut ConceptRelation)
    ensures { Adds concept_width concept_width (concept_marks rows.old)
        Diagonal (concept_marks rows.new) }
{
    for i in 0..Concept::NUMBERS {
        let own = Concept::read(i as u16);
        mark_pair(rows, own, own);
    }
}

// Warshall's step at the pivot k: the row of k is put into each row that has k. A row that has only its own concept adds nothing.
#[tactic(auto, using(crate::proofs::RowLaws::read_number))]
fn pivot(rows: &mut ConceptRelation, k: usize)
    requires { k < concept_width }
    ensures { Stepped concept_width (concept_marks rows.old) k (concept_marks rows.new) }
{
    let row = rows[k];
    let by = Concept::read(k as u16);
    if row == ConceptSet::only(by) {
        return;
    }
    for i in 0..Concept::NUMBERS {
        if rows[i].contains(by) {
            rows[i] = rows[i].union(row);
        }
    }
}

// The relation becomes the smallest reflexive and transitive one that holds it.
#[tactic(auto, using(crate::proofs::RowLaws::closing_start, crate::proofs::RowLaws::closing_more, crate::proofs::RowLaws::closing_end))]
fn close(rows: &mut ConceptRelation)
    ensures { Closes concept_width (concept_marks rows.old) (concept_marks rows.new) }
{
    reflexive(rows);
    for k in 0..Concept::NUMBERS {
        pivot(rows, k);
    }
}

// ∃R ≤ ∃S where R ≤ S.
#[tactic(auto, using(crate::proofs::RowLaws::widened_start, crate::proofs::RowLaws::widened_more, crate::proofs::RowLaws::widened_end))]
fn widen(roles: &[RoleSet; SignedRole::NUMBERS]) -> ConceptRelation
    ensures { Shows concept_width (concept_marks result) (Wide (role_marks roles.now)) }
{
    let names = Concept::BASE as usize;
    let mut out = [ConceptSet::EMPTY; Concept::NUMBERS];
    for i in names..Concept::NUMBERS {
        out[i] = roles[i - names].exists();
    }
    out
}

/// C ≤ D: for each concept those above it.
#[derive(Clone, Copy)]
pub struct ConceptOrder {
    pub above: ConceptRelation,
}

impl ConceptOrder {
    /// From the concept rules of a table and any order of the roles: what follows from both. Where the roles are in the order of some table, it is C ≤ D by both tables.
    /// A rule with a number out of range is passed over.
    pub fn new(rules: Table<ConceptPair>, roles: &RoleOrder) -> ConceptOrder
        ensures closed { IsClosedOver rules.entry.numbers.now (role_marks roles.now.above)
            (concept_marks result.above) }
        ensures order { (table : List ℕ) → IsRoleOrder table (role_marks roles.now.above)
            → IsConceptOrder rules.entry.numbers.now table (concept_marks result.above) }
    {
        let mut above = widen(&roles.above);
        mark_pairs(&mut above, rules);
        close(&mut above);
        ConceptOrder { above }
    }

    /// The concepts D with C ≤ D; the set is empty where the number of C is out of range.
    pub fn above(&self, c: Concept) -> ConceptSet
        ensures { result ≡ slice_index_or self.now.above (number_of c) no_concepts }
    {
        let k = c.number();
        if k < Concept::NUMBERS {
            return self.above[k];
        }
        ConceptSet::EMPTY
    }

    /// For each concept those below it. No contradiction needs them.
    pub fn transposed(&self) -> ConceptRelation
        ensures { IsTransposed concept_width (concept_marks self.now.above)
            (concept_marks result) }
    {
        transposed(&self.above)
    }
}
