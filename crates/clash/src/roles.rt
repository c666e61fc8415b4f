// Exclusions of roles: for each role those that are excluded from a role that follows from it.

ghost use Rattle.std.specs.Prelude.{◌≡◌, ◌<◌, ◌⊎◌, ◌↔◌, IsTrue};
ghost use Rattle.kinds.specs.Kinds.{most_individuals};
ghost use Rattle.sets.specs.Bits.{role_width, has};
ghost use Rattle.sets.specs.Rows.{Adds, role_marks};
ghost use Rattle.edges.specs.Edges.{HasEdge};
ghost use Rattle.edges.specs.Meant.{AreFew};
ghost use Rattle.clash.specs.Clashes.{HaveBothSides, SomeBelow, SomeIn, ChildClashes, HasAny, PairClashes, RolesClash};
ghost use Rattle.clash.specs.Conflicts.{BothWays, SidesListed, Joins, Raises, IsUnionBelow, Excludes, AreConcerned, AreMet, ByEdge};

use edges::{FactEdge, FactEdges, ROLE_FACTS};
use kinds::{Individual, SignedRole};
use orders::RoleOrder;
use sets::RoleSet;
use tables::{RolePair, Table};

/// For each signed role the set of those that it is related to.
pub type RoleRelation = [RoleSet; SignedRole::NUMBERS];

// The exclusions of a table, over the order of the roles: for each role those that are excluded from a role that follows from it.
#[derive(Clone, Copy)]
pub struct RoleConflicts<'a> {
    pub exclusions: Table<'a, RolePair>,
    pub roles: &'a RoleOrder,
    pub excluded: RoleRelation,
}

// One exclusion, both ways; one with a number out of range is passed over.
#[tactic(auto, using(crate::proofs::RoleLaws::stored_both, crate::proofs::RoleLaws::stored_none))]
fn mark_exclusion(rows: &mut RoleRelation, pair: RolePair)
    ensures { Adds role_width role_width (role_marks rows.old) (BothWays pair)
        (role_marks rows.new) }
{
    let i = pair.left.0 as usize;
    let j = pair.right.0 as usize;
    if i >= SignedRole::NUMBERS || j >= SignedRole::NUMBERS {
        return;
    }
    rows[i].insert(pair.right);
    rows[j].insert(pair.left);
}

// Every exclusion.
#[tactic(auto, using(orders::proofs::Listing::listing_start, orders::proofs::Listing::listing_end))]
fn mark_exclusions(rows: &mut RoleRelation, exclusions: Table<RolePair>)
    ensures { Adds role_width role_width (role_marks rows.old)
        (SidesListed exclusions.entry.numbers.now) (role_marks rows.new) }
{
    for pair in exclusions.iter() {
        mark_exclusion(rows, pair);
    }
}

// The union of the rows of the members.
#[tactic(auto, using(crate::proofs::RoleLaws::joining_start, crate::proofs::RoleLaws::joining_more, crate::proofs::RoleLaws::joining_end))]
fn joined(rows: &RoleRelation, members: RoleSet) -> RoleSet
    ensures { Joins (role_marks rows.now) members.0 result.0 }
{
    let mut out = RoleSet::EMPTY;
    for role in members.iter() {
        out = out.union(rows[role.0 as usize]);
    }
    out
}

// For each role the union of the rows of those that follow from it.
#[tactic(auto, using(crate::proofs::RoleLaws::raised_start, crate::proofs::RoleLaws::raised_end))]
fn raised(rows: &RoleRelation, roles: &RoleOrder) -> RoleRelation
    ensures { Raises (role_marks rows.now) (role_marks roles.now.above) (role_marks result) }
{
    let mut out = [RoleSet::EMPTY; SignedRole::NUMBERS];
    for r in 0..SignedRole::NUMBERS {
        out[r] = joined(rows, roles.above[r]);
    }
    out
}

// The union of all rows.
#[tactic(auto, using(crate::proofs::RoleLaws::union_none, crate::proofs::RoleLaws::union_more))]
fn union_of(rows: &RoleRelation) -> RoleSet
    ensures { IsUnionBelow (role_marks rows.now) role_width result.0 }
{
    let mut out = RoleSet::EMPTY;
    for row in rows.iter() {
        out = out.union(*row);
    }
    out
}

// The roles from which something follows that is a side of an exclusion.
#[tactic(auto, using(crate::proofs::RoleLaws::concerned_none, crate::proofs::RoleLaws::concerned_more))]
pub(crate) fn concerned(exclusions: Table<RolePair>, roles: &RoleOrder) -> RoleSet
    ensures { AreConcerned exclusions.entry.numbers.now (role_marks roles.now.above) result.0 }
{
    let mut rows = [RoleSet::EMPTY; SignedRole::NUMBERS];
    mark_exclusions(&mut rows, exclusions);
    let sides = union_of(&rows);
    let mut concerned = RoleSet::EMPTY;
    for r in 0..SignedRole::NUMBERS {
        concerned.insert_if(SignedRole(r as u16), meet(roles.above[r], sides));
    }
    concerned
}

/// For each role those that are excluded from a role that follows from it.
#[tactic(auto, using(crate::proofs::RoleLaws::excludes))]
pub fn excluded_from(exclusions: Table<RolePair>, roles: &RoleOrder) -> RoleRelation
    ensures { Excludes exclusions.entry.numbers.now (role_marks roles.now.above)
        (role_marks result) }
{
    let mut sides = [RoleSet::EMPTY; SignedRole::NUMBERS];
    mark_exclusions(&mut sides, exclusions);
    raised(&sides, roles)
}

// Whether the list has edges of every fact of the table: it has room for those of the first facts alone, as many as a table may have.
fn has_all(edges: &FactEdges) -> bool
    ensures { IsTrue result ↔ AreFew edges.now.facts.numbers.now }
{
    edges.facts.len() <= ROLE_FACTS
}

// Whether some role is in both sets.
fn meet(x: RoleSet, y: RoleSet) -> bool
    ensures { IsTrue result ↔ AreMet (has x.0) (has y.0) }
{
    x.intersects(y)
}

impl<'a> RoleConflicts<'a> {
    pub(crate) fn new(exclusions: Table<'a, RolePair>, roles: &'a RoleOrder) -> RoleConflicts<'a>
        ensures exclusions { result.exclusions ≡ exclusions.entry }
        ensures roles { result.roles ≡ roles.entry }
        ensures excluded { Excludes exclusions.entry.numbers.now (role_marks roles.now.above)
            (role_marks result.excluded) }
    {
        let excluded = excluded_from(exclusions, roles);
        RoleConflicts {
            exclusions,
            roles,
            excluded,
        }
    }

    // Whether what follows from the role has both sides of an exclusion.
    fn break_in(&self, role: SignedRole) -> bool
        requires row { role.0 < role_width }
        requires conflicts { Excludes self.now.exclusions.numbers.now
            (role_marks self.now.roles.now.above) (role_marks self.now.excluded) }
        ensures { IsTrue result ↔ HaveBothSides role_width self.now.exclusions.numbers.now
            (role_marks self.now.roles.now.above role.0) }
    {
        let r = role.0 as usize;
        meet(self.excluded[r], self.roles.above[r])
    }

    // Whether an element and its child by the role have, on the way down or on the way up.
    #[tactic(auto, unfolding(kinds::specs::Kinds::inverse))]
    fn break_at_child(&self, role: SignedRole) -> bool
        requires row { role.0 < role_width }
        requires conflicts { Excludes self.now.exclusions.numbers.now
            (role_marks self.now.roles.now.above) (role_marks self.now.excluded) }
        ensures { IsTrue result ↔ ChildClashes self.now.exclusions.numbers.now
            (role_marks self.now.roles.now.above) role.0 }
    {
        self.break_in(role) || self.break_in(role.inverse())
    }

    // Whether some element and its child by a role of the set have.
    #[tactic(auto, using(crate::proofs::SeekLaws::seek_start, crate::proofs::SeekLaws::seek_more, crate::proofs::SeekLaws::seek_here, crate::proofs::SeekLaws::seek_end))]
    fn break_at_children(&self, generating: RoleSet) -> bool
        requires { Excludes self.now.exclusions.numbers.now
            (role_marks self.now.roles.now.above) (role_marks self.now.excluded) }
        ensures { IsTrue result ↔ SomeIn role_width
            (ChildClashes self.now.exclusions.numbers.now (role_marks self.now.roles.now.above))
            generating.0 }
    {
        for role in generating.iter() {
            if self.break_at_child(role) {
                return true;
            }
        }
        false
    }

    // Whether a role that follows from some edge of the individual is excluded from what follows from some edge of it. Where none is, no pair
    // that starts with it has both sides of an exclusion, and pairs need not be told apart.
    fn may_break(&self, edges: &FactEdges, a: Individual) -> bool
        requires { Excludes self.now.exclusions.numbers.now
            (role_marks self.now.roles.now.above) (role_marks self.now.excluded) }
        ensures { PairClashes self.now.exclusions.numbers.now
            (HasEdge edges.now.facts.numbers.now edges.now.roles.0)
            (role_marks self.now.roles.now.above) a.0 → IsTrue result }
    {
        let mut follow = RoleSet::EMPTY;
        let mut excluded = RoleSet::EMPTY;
        for edge in edges.of(a) {
            let r = edge.role.0 as usize;
            follow = follow.union(self.roles.above[r]);
            excluded = excluded.union(self.excluded[r]);
        }
        meet(excluded, follow)
    }

    // What follows from the role of one edge more is put into the set of its pair. Whether some role of that set is excluded from it.
    pub(crate) fn join_edge(&self, met: &mut [RoleSet; Individual::NUMBERS], edge: FactEdge) -> bool
        requires role { edge.role.0 < role_width }
        requires to { edge.to.0 < most_individuals }
        ensures adds { Adds most_individuals role_width (role_marks met.old)
            (ByEdge (role_marks self.now.roles.now.above) edge) (role_marks met.new) }
        ensures meets { IsTrue result ↔ AreMet (role_marks self.now.excluded edge.role.0)
            (role_marks met.new edge.to.0) }
    {
        let r = edge.role.0 as usize;
        let b = edge.to.0 as usize;
        met[b] = met[b].union(self.roles.above[r]);
        meet(self.excluded[r], met[b])
    }

    // Whether the edges from the individual to some other give the pair both sides of an exclusion.
    fn break_from(&self, edges: &FactEdges, a: Individual) -> bool
        requires { Excludes self.now.exclusions.numbers.now
            (role_marks self.now.roles.now.above) (role_marks self.now.excluded) }
        ensures { IsTrue result ↔ PairClashes self.now.exclusions.numbers.now
            (HasEdge edges.now.facts.numbers.now edges.now.roles.0)
            (role_marks self.now.roles.now.above) a.0 }
    {
        if !self.may_break(edges, a) {
            return false;
        }
        let mut met = [RoleSet::EMPTY; Individual::NUMBERS];
        for edge in edges.of(a) {
            if self.join_edge(&mut met, edge) {
                return true;
            }
        }
        false
    }

    // Whether some ordered pair of individuals has, by the edges of the list.
    #[tactic(auto, using(crate::proofs::SeekLaws::past_none, crate::proofs::SeekLaws::past_more, crate::proofs::SeekLaws::past_here))]
    fn break_at_pairs(&self, edges: &FactEdges) -> bool
        requires { Excludes self.now.exclusions.numbers.now
            (role_marks self.now.roles.now.above) (role_marks self.now.excluded) }
        ensures { IsTrue result ↔ SomeBelow most_individuals
            (PairClashes self.now.exclusions.numbers.now
            (HasEdge edges.now.facts.numbers.now edges.now.roles.0)
            (role_marks self.now.roles.now.above)) }
    {
        for a in 0..Individual::NUMBERS {
            if self.break_from(edges, Individual(a as u16)) {
                return true;
            }
        }
        false
    }

    // Whether some ordered pair of individuals has, by the edges of all facts. Where the list has not all of them, the table is gone through itself.
    fn break_at_any_pair(&self, edges: &FactEdges) -> bool
        requires { Excludes self.now.exclusions.numbers.now
            (role_marks self.now.roles.now.above) (role_marks self.now.excluded) }
        ensures { IsTrue result ↔ SomeBelow most_individuals
            (PairClashes self.now.exclusions.numbers.now
            (HasAny edges.now.facts.numbers.now edges.now.roles.0)
            (role_marks self.now.roles.now.above)) }
    {
        if has_all(edges) {
            self.break_at_pairs(edges)
        } else {
            self.break_past_list(edges.facts, edges.roles)
        }
    }

    // Whether some element and its child, or two individuals, have both sides of an exclusion.
    pub(crate) fn contradict(&self, generating: RoleSet, edges: &FactEdges) -> bool
        requires { Excludes self.now.exclusions.numbers.now
            (role_marks self.now.roles.now.above) (role_marks self.now.excluded) }
        ensures { IsTrue result ↔ RolesClash self.now.exclusions.numbers.now
            (role_marks self.now.roles.now.above) generating.0
            edges.now.facts.numbers.now edges.now.roles.0 }
    {
        self.break_at_children(generating) || self.break_at_any_pair(edges)
    }
}
