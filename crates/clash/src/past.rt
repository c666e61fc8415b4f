// The pairs of individuals of a table that has more role facts than a list of edges has room for. No call comes here, since a collection with such
// a table is refused before. So the way is plain: for each individual all facts are gone through once.

ghost use Rattle.std.specs.Prelude.{◌≡◌, ◌+◌, ◌<◌, ◌/◌, ◌↔◌, IsTrue, length};
ghost use Rattle.std.specs.Bool.{OnFalse};
ghost use Rattle.kinds.specs.Kinds.{most_individuals};
ghost use Rattle.sets.specs.Bits.{role_width};
ghost use Rattle.sets.specs.Rows.{Adds, role_marks};
ghost use Rattle.meaning.specs.Lent.{role_fact_width};
ghost use Rattle.edges.specs.Edges.{is_in_range};
ghost use Rattle.clash.specs.Clashes.{SomeBelow, HasMade, HasAny, PairClashes};
ghost use Rattle.clash.specs.Conflicts.{Excludes};
ghost use Rattle.clash.specs.Tried.{Tried, IsOwn, ByEdgeWhere, MetWhere};

use crate::roles::RoleConflicts;
use edges::FactEdge;
use kinds::{Individual, RoleName};
use sets::RoleSet;
use tables::{RoleFact, Table};

// Whether each number of a fact is in range. A fact with one out of range makes no edge.
fn is_in_range(fact: RoleFact) -> bool
    ensures { result ≡ is_in_range fact }
{
    fact.role.0 < RoleName::MOST
        && fact.first.0 < Individual::MOST
        && fact.second.0 < Individual::MOST
}

impl<'a> RoleConflicts<'a> {
    // One edge of a fact is joined if it leads away from the individual, and by a role of the set. Whether it does, and some role of its pair is
    // excluded from its own.
    fn join_own(
        &self,
        met: &mut [RoleSet; Individual::NUMBERS],
        edge: FactEdge,
        from: Individual,
        a: Individual,
        among: RoleSet,
    ) -> bool
        requires role { edge.role.0 < role_width }
        requires to { edge.to.0 < most_individuals }
        ensures adds { Adds most_individuals role_width (role_marks met.old)
            (ByEdgeWhere (IsOwn among.0 a.0 from.0 edge) (role_marks self.now.roles.now.above) edge)
            (role_marks met.new) }
        ensures meets { IsTrue result ↔ MetWhere (IsOwn among.0 a.0 from.0 edge)
            (role_marks self.now.excluded) (role_marks met.new) edge }
    {
        a.0 == from.0 && among.contains(edge.role) && self.join_edge(met, edge)
    }

    // The edges of fact k that lead away from the individual by roles of the set are joined. Whether one of them gives its pair both sides of an
    // exclusion; where none does, one fact more is tried.
    fn join_fact(
        &self,
        met: &mut [RoleSet; Individual::NUMBERS],
        facts: Table<RoleFact>,
        k: usize,
        a: Individual,
        among: RoleSet,
    ) -> bool
        requires fact { k < length facts.numbers.now / role_fact_width }
        requires conflicts { Excludes self.now.exclusions.numbers.now
            (role_marks self.now.roles.now.above) (role_marks self.now.excluded) }
        requires tried { Tried self.now.exclusions.numbers.now (role_marks self.now.roles.now.above)
            (HasMade facts.numbers.now k among.0 a.0) met.old }
        ensures clash { IsTrue result → PairClashes self.now.exclusions.numbers.now
            (HasAny facts.entry.numbers.now among.0) (role_marks self.now.roles.now.above) a.0 }
        ensures tried { OnFalse result (Tried self.now.exclusions.numbers.now
            (role_marks self.now.roles.now.above)
            (HasMade facts.entry.numbers.now (k + 1) among.0 a.0) met.new) }
    {
        let Some(fact) = facts.get(k) else {
            return false;
        };
        if !is_in_range(fact) {
            return false;
        }
        let along = FactEdge {
            role: fact.role.forward(),
            to: fact.second,
        };
        if self.join_own(met, along, fact.first, a, among) {
            return true;
        }
        let back = FactEdge {
            role: fact.role.backward(),
            to: fact.first,
        };
        self.join_own(met, back, fact.second, a, among)
    }

    // Whether the edges from the individual to some other give the pair both sides of an exclusion. Every fact is looked at, until one does.
    fn break_by_facts(&self, facts: Table<RoleFact>, among: RoleSet, a: Individual) -> bool
        requires { Excludes self.now.exclusions.numbers.now
            (role_marks self.now.roles.now.above) (role_marks self.now.excluded) }
        ensures { IsTrue result ↔ PairClashes self.now.exclusions.numbers.now
            (HasAny facts.entry.numbers.now among.0) (role_marks self.now.roles.now.above) a.0 }
    {
        let mut met = [RoleSet::EMPTY; Individual::NUMBERS];
        for k in 0..facts.len() {
            if self.join_fact(&mut met, facts, k, a, among) {
                return true;
            }
        }
        false
    }

    // Whether some ordered pair of individuals has. This is never put into its caller, so that the way by the list costs what it did.
    #[inline(never)]
    #[tactic(auto, using(crate::proofs::SeekLaws::past_none, crate::proofs::SeekLaws::past_more, crate::proofs::SeekLaws::past_here))]
    pub(crate) fn break_past_list(&self, facts: Table<RoleFact>, among: RoleSet) -> bool
        requires { Excludes self.now.exclusions.numbers.now
            (role_marks self.now.roles.now.above) (role_marks self.now.excluded) }
        ensures { IsTrue result ↔ SomeBelow most_individuals
            (PairClashes self.now.exclusions.numbers.now (HasAny facts.entry.numbers.now among.0)
            (role_marks self.now.roles.now.above)) }
    {
        for a in 0..Individual::NUMBERS {
            if self.break_by_facts(facts, among, Individual(a as u16)) {
                return true;
            }
        }
        false
    }
}
