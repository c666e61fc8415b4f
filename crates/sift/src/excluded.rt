// What the rules of a collection exclude, as tables that are made once: a fact is then held against a few rows.

ghost use Rattle.std.specs.Prelude.{◌<◌, ◌↔◌, IsTrue};
ghost use Rattle.kinds.specs.Kinds.{number_of};
ghost use Rattle.laws.specs.Gains.{Either};
ghost use Rattle.meaning.specs.Collection.{WellFormed};
ghost use Rattle.sets.specs.Bits.{concept_width, role_width, has, Has, IsSetOf, InsertsIf};
ghost use Rattle.sets.specs.Rows.{Adds, concept_marks, role_marks};
ghost use Rattle.orders.specs.Marks.{Block, Shows};
ghost use Rattle.clash.specs.Conflicts.{AreMet};
ghost use Rattle.sift.specs.Exclusions.{Below, Joins, BesideRow, BesideRows, AreApart, ConflictBy, AreConflicts, Breaks, Promises, LeadsTo, AreDoomed, IsBarred};
ghost use Rattle.sift.specs.Excludes.{Excludes, meant};

use clash::{RoleRelation, excluded_from};
use kinds::{Concept, SignedRole};
use orders::{ConceptOrder, ConceptRelation, RoleOrder, mark_pairs};
use sets::{ConceptSet, RoleSet};
use tables::{Collection, ConceptPair, RolePair, Table};

/// For each concept those that are apart from it: no element has both. The concepts that are barred: nobody has one. And for
/// each signed role those in conflict with it: no ordered pair has both.
#[derive(Clone, Copy)]
pub struct Excluded {
    pub apart: ConceptRelation,
    pub barred: ConceptSet,
    pub conflicts: RoleRelation,
}

// ---- concepts

// A set is put into the row of each member of another.
#[tactic(auto, using(orders::proofs::TransposeLaws::putting_start, orders::proofs::TransposeLaws::putting_end))]
fn put_all(rows: &mut ConceptRelation, members: ConceptSet, all: ConceptSet)
    ensures { Adds concept_width concept_width (concept_marks rows.old)
        (Block members.0 (Has all.0)) (concept_marks rows.new) }
{
    for member in members.iter() {
        let k = member.number();
        rows[k] = rows[k].union(all);
    }
}

// Each of two sets is put into the rows of the other.
fn put_both(rows: &mut ConceptRelation, left: ConceptSet, right: ConceptSet)
    ensures { Adds concept_width concept_width (concept_marks rows.old)
        (Either (Block left.0 (Has right.0)) (Block right.0 (Has left.0)))
        (concept_marks rows.new) }
{
    put_all(rows, left, right);
    put_all(rows, right, left);
}

// The union of the rows of the members.
#[tactic(auto, using(crate::proofs::ApartLaws::joining_start, crate::proofs::ApartLaws::joining_end))]
fn joined(rows: &ConceptRelation, members: ConceptSet) -> ConceptSet
    ensures { Joins (concept_marks rows.now) members.0 result.0 }
{
    let mut out = ConceptSet::EMPTY;
    for member in members.iter() {
        out = out.union(rows[member.number()]);
    }
    out
}

// The exclusions whose left side is the concept numbered i: what is below it is apart from what is below their right sides.
fn put_row(apart: &mut ConceptRelation, below: &ConceptRelation, i: usize, rights: ConceptSet)
    requires { i < concept_width }
    ensures { Adds concept_width concept_width (concept_marks apart.old)
        (BesideRow below.now i rights.0) (concept_marks apart.new) }
{
    if rights.is_empty() {
        return;
    }
    put_both(apart, below[i], joined(below, rights));
}

// The exclusions of all left sides.
#[tactic(auto, using(sets::proofs::RowLaws::adds, crate::proofs::ApartLaws::rows_end))]
fn put_rows(below: &ConceptRelation, excluded: &ConceptRelation) -> ConceptRelation
    ensures { Shows concept_width (concept_marks result)
        (BesideRows below.now excluded.now concept_width) }
{
    let mut apart = [ConceptSet::EMPTY; Concept::NUMBERS];
    for (i, rights) in excluded.iter().enumerate() {
        put_row(&mut apart, below, i, *rights);
    }
    apart
}

// For each concept those that are apart from it: an exclusion stands above both. With no exclusion nothing is worked out.
#[tactic(auto, using(crate::proofs::ApartLaws::apart_none, crate::proofs::ApartLaws::apart_end))]
fn apart_by(order: &ConceptOrder, exclusions: Table<ConceptPair>) -> ConceptRelation
    ensures { AreApart exclusions.entry.numbers.now (concept_marks order.now.above)
        (concept_marks result) }
{
    if exclusions.is_empty() {
        return [ConceptSet::EMPTY; Concept::NUMBERS];
    }
    let mut excluded = [ConceptSet::EMPTY; Concept::NUMBERS];
    mark_pairs(&mut excluded, exclusions);
    put_rows(&order.transposed(), &excluded)
}

// ---- roles

// Whether some role is in both sets.
fn meet(x: RoleSet, y: RoleSet) -> bool
    ensures { IsTrue result ↔ AreMet (has x.0) (has y.0) }
{
    x.intersects(y)
}

// Whether two roles are in conflict: what follows from the first excludes something that follows from the second, or the same
// holds of their inverses.
#[tactic(auto, unfolding(kinds::specs::Kinds::inverse))]
fn in_conflict(
    excluded: &RoleRelation,
    order: &RoleOrder,
    first: SignedRole,
    second: SignedRole,
) -> bool
    requires first { first.0 < role_width }
    requires second { second.0 < role_width }
    ensures { IsTrue result ↔ ConflictBy (role_marks excluded.now)
        (role_marks order.now.above) first.0 second.0 }
{
    let back = first.inverse().0 as usize;
    let down = second.inverse().0 as usize;
    meet(excluded[first.0 as usize], order.above[second.0 as usize])
        || meet(excluded[back], order.above[down])
}

// The roles that are in conflict with one.
#[tactic(auto, using(crate::proofs::GatherLaws::none, crate::proofs::GatherLaws::more, crate::proofs::GatherLaws::end))]
fn conflicts_of(excluded: &RoleRelation, order: &RoleOrder, role: SignedRole) -> RoleSet
    requires { role.0 < role_width }
    ensures { IsSetOf (Below role_width (ConflictBy (role_marks excluded.now)
        (role_marks order.now.above) role.0)) result.0 }
{
    let mut conflicts = RoleSet::EMPTY;
    for s in 0..SignedRole::NUMBERS {
        let other = SignedRole(s as u16);
        conflicts.insert_if(other, in_conflict(excluded, order, role, other));
    }
    conflicts
}

// The same, told first where there is none: from neither the role nor its inverse is anything excluded.
#[tactic(auto, using(crate::proofs::ConflictLaws::row_none), unfolding(kinds::specs::Kinds::inverse))]
fn conflict_row(excluded: &RoleRelation, order: &RoleOrder, role: SignedRole) -> RoleSet
    requires { role.0 < role_width }
    ensures { IsSetOf (Below role_width (ConflictBy (role_marks excluded.now)
        (role_marks order.now.above) role.0)) result.0 }
{
    let own = excluded[role.0 as usize];
    let turned = excluded[role.inverse().0 as usize];
    if own.union(turned).is_empty() {
        return RoleSet::EMPTY;
    }
    conflicts_of(excluded, order, role)
}

// For each role those in conflict with it: an exclusion stands above both, or above their inverses. With no exclusion nothing
// is worked out.
#[tactic(auto, using(crate::proofs::ConflictLaws::conflicts_none, crate::proofs::ConflictLaws::conflicts_end))]
fn conflicts_by(order: &RoleOrder, exclusions: Table<RolePair>) -> RoleRelation
    ensures { AreConflicts exclusions.entry.numbers.now (role_marks order.now.above)
        (role_marks result) }
{
    if exclusions.is_empty() {
        return [RoleSet::EMPTY; SignedRole::NUMBERS];
    }
    let mut conflicts = [RoleSet::EMPTY; SignedRole::NUMBERS];
    let excluded = excluded_from(exclusions, order);
    for r in 0..SignedRole::NUMBERS {
        conflicts[r] = conflict_row(&excluded, order, SignedRole(r as u16));
    }
    conflicts
}

// ---- children

// Whether an unnamed element that ends by the role breaks an exclusion by its own concepts, or by the edge to its parent.
#[tactic(auto, unfolding(kinds::specs::Kinds::inverse, kinds::specs::Kinds::number_of))]
fn breaks(apart: &ConceptRelation, conflicts: &RoleRelation, role: SignedRole) -> bool
    requires { role.0 < role_width }
    ensures { IsTrue result
        ↔ Breaks (concept_marks apart.now) (role_marks conflicts.now) role.0 }
{
    let own = role.inverse().exists();
    apart[own.number()].contains(own) || conflicts[role.0 as usize].contains(role)
}

// The roles by which every child breaks one.
#[tactic(auto, using(crate::proofs::GatherLaws::none, crate::proofs::GatherLaws::more, crate::proofs::GatherLaws::end))]
fn breaking(apart: &ConceptRelation, conflicts: &RoleRelation) -> RoleSet
    ensures { IsSetOf (Below role_width
        (Breaks (concept_marks apart.now) (role_marks conflicts.now))) result.0 }
{
    let mut breaking = RoleSet::EMPTY;
    for r in 0..SignedRole::NUMBERS {
        let role = SignedRole(r as u16);
        breaking.insert_if(role, breaks(apart, conflicts, role));
    }
    breaking
}

// Whether a row has ∃ of a role of the set.
fn promises(row: ConceptSet, set: RoleSet) -> bool
    ensures { IsTrue result ↔ Promises (has row.0) set.0 }
{
    row.intersects(set.exists())
}

// Whether an unnamed element that ends by the role has a child by a role of the set.
#[tactic(auto, unfolding(kinds::specs::Kinds::inverse, kinds::specs::Kinds::number_of))]
fn leads_to(order: &ConceptOrder, set: RoleSet, role: SignedRole) -> bool
    requires { role.0 < role_width }
    ensures { IsTrue result ↔ LeadsTo (concept_marks order.now.above) set.0 role.0 }
{
    promises(order.above(role.inverse().exists()), set)
}

// The roles by which every child has such a child.
#[tactic(auto, using(crate::proofs::GatherLaws::none, crate::proofs::GatherLaws::more, crate::proofs::GatherLaws::end))]
fn leading(order: &ConceptOrder, set: RoleSet) -> RoleSet
    ensures { IsSetOf (Below role_width (LeadsTo (concept_marks order.now.above) set.0))
        result.0 }
{
    let mut leading = RoleSet::EMPTY;
    for r in 0..SignedRole::NUMBERS {
        let role = SignedRole(r as u16);
        leading.insert_if(role, leads_to(order, set, role));
    }
    leading
}

// The doomed roles: an unnamed element that ends by one breaks an exclusion, or has one that does somewhere below it. The set
// grows until it stands.
#[tactic(auto, using(crate::proofs::DoomedLaws::growing_start, crate::proofs::DoomedLaws::growing_end))]
fn doomed_from(order: &ConceptOrder, breaking: RoleSet) -> RoleSet
    ensures { AreDoomed (concept_marks order.now.above) breaking.0 result.0 }
{
    let mut doomed = breaking;
    loop {
        let more = doomed.union(leading(order, doomed));
        if more == doomed {
            return doomed;
        }
        doomed = more;
    }
}

// ---- what nobody may have

// Whether nobody may have the concept numbered i: it is apart from itself, or promises a child by a doomed role.
fn is_barred(order: &ConceptOrder, apart: &ConceptRelation, doomed: RoleSet, i: usize) -> bool
    requires { i < concept_width }
    ensures { IsTrue result
        ↔ IsBarred (concept_marks order.now.above) (concept_marks apart.now) doomed.0 i }
{
    apart[i].contains_number(i as u16) || promises(order.above[i], doomed)
}

// The concept is put into the set where the test says so.
fn insert_if(set: &mut ConceptSet, member: Concept, on: bool)
    ensures { InsertsIf concept_width set.old.0 (number_of member) on set.new.0 }
{
    if on {
        set.insert(member);
    }
}

// The concepts that nobody may have.
#[tactic(auto, using(crate::proofs::GatherLaws::none, crate::proofs::GatherLaws::more, crate::proofs::GatherLaws::end))]
fn barred_by(order: &ConceptOrder, apart: &ConceptRelation, doomed: RoleSet) -> ConceptSet
    ensures { IsSetOf (Below concept_width (IsBarred (concept_marks order.now.above)
        (concept_marks apart.now) doomed.0)) result.0 }
{
    let mut barred = ConceptSet::EMPTY;
    for i in 0..Concept::NUMBERS {
        let on = is_barred(order, apart, doomed, i);
        insert_if(&mut barred, Concept::read(i as u16), on);
    }
    barred
}

impl Excluded {
    // Worked out of both orders and the exclusions. Never put into its caller, which would pay for the orders where there is
    // no exclusion.
    #[inline(never)]
    fn worked_out(collection: &Collection) -> Excluded
        requires { WellFormed (meant collection.now) }
        ensures { Excludes (meant collection.now) result }
    {
        let roles = RoleOrder::new(collection.role_rules);
        let order = ConceptOrder::new(collection.concept_rules, &roles);
        let apart = apart_by(&order, collection.concept_exclusions);
        let conflicts = conflicts_by(&roles, collection.role_exclusions);
        let doomed = doomed_from(&order, breaking(&apart, &conflicts));
        let barred = barred_by(&order, &apart, doomed);
        Excluded {
            apart,
            barred,
            conflicts,
        }
    }

    /// The tables of a collection that passed its tests. With no exclusion nothing is worked out.
    pub(crate) fn new(collection: &Collection) -> Excluded
        requires { WellFormed (meant collection.now) }
        ensures { Excludes (meant collection.now) result }
    {
        if collection.concept_exclusions.is_empty() && collection.role_exclusions.is_empty() {
            return Excluded {
                apart: [ConceptSet::EMPTY; Concept::NUMBERS],
                barred: ConceptSet::EMPTY,
                conflicts: [RoleSet::EMPTY; SignedRole::NUMBERS],
            };
        }
        Excluded::worked_out(collection)
    }
}
