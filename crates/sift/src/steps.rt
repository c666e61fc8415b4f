// One fact after another, against what those that are kept type of its individuals and of their pair.

ghost use Rattle.std.specs.Prelude.{◌≡◌, ◌≤◌, ◌<◌, ◌↔◌, IsTrue, length, replicate};
ghost use Rattle.std.specs.List.{Contains};
ghost use Rattle.std.specs.List.Sorted.{IsStrictlyIncreasing};
ghost use Rattle.kinds.specs.Kinds.{most_roles, most_individuals, number_of};
ghost use Rattle.meaning.specs.Lent.{most_role_facts};
ghost use Rattle.sets.specs.Bits.{concept_width, role_width};
ghost use Rattle.sets.specs.Relations.{concepts_at};
ghost use Rattle.sets.specs.Rows.{no_concepts, no_roles};
ghost use Rattle.orders.specs.Marks.{Pair};
ghost use Rattle.sift.specs.Pairs.{HasRows, pair_number};
ghost use Rattle.sift.specs.Steps.{roles_at, Puts, ConceptClashes, EndsClash, RingClashes, LoopClashes, PairClashes, RoleClashes, toward, Ends, Joins, HasConceptRows, ConceptStepped, RoleStepped, JoinedStepped, EntryHasRows, EntryStepped};

use crate::entries::TypedFact;
use crate::excluded::Excluded;
use crate::pairs::{pair_number, place_of};
use kinds::{Concept, Individual, RoleName, SignedRole};
use sets::{ConceptSet, RoleSet};
use tables::collection::ROLE_FACTS;
use tables::{ConceptFact, RoleFact};

// What the facts that are kept type: of each individual its concepts, and of each pair the signed roles that lead from the
// lesser individual to the greater. The row of a pair is at the pair's place.
#[derive(Clone, Copy)]
pub(crate) struct HeldRows {
    pub concepts: [ConceptSet; Individual::NUMBERS],
    pub roles: [RoleSet; ROLE_FACTS],
}

// The role by which a fact leads from the lesser of its ends to the greater. Where they are equal the other way is one too.
fn toward(fact: RoleFact) -> SignedRole
    requires { HasRows fact }
    ensures { result ≡ toward fact }
{
    if fact.first.0 <= fact.second.0 {
        fact.role.forward()
    } else {
        fact.role.backward()
    }
}

// Whether no individual may have both ends of the role, or be joined to itself by it.
#[tactic(auto, unfolding(kinds::specs::Kinds::number_of))]
fn ring_clashes(excluded: &Excluded, role: RoleName) -> bool
    requires { role.0 < most_roles }
    ensures { IsTrue result ↔ RingClashes excluded.now role }
{
    let ahead = role.forward();
    let back = role.backward();
    excluded.apart[ahead.exists().number()].contains(back.exists())
        || excluded.conflicts[ahead.0 as usize].contains(back)
}

// Whether the ends of a fact are equal, and no individual may be joined to itself by its role.
fn loop_clashes(excluded: &Excluded, fact: RoleFact) -> bool
    requires { HasRows fact }
    ensures { IsTrue result ↔ LoopClashes excluded.now fact }
{
    fact.first == fact.second && ring_clashes(excluded, fact.role)
}

impl HeldRows {
    // Before any fact is kept.
    pub(crate) fn none() -> HeldRows
        ensures concepts { result.concepts ≡ replicate most_individuals no_concepts }
        ensures roles { result.roles ≡ replicate most_role_facts no_roles }
    {
        HeldRows {
            concepts: [ConceptSet::EMPTY; Individual::NUMBERS],
            roles: [RoleSet::EMPTY; ROLE_FACTS],
        }
    }

    // Whether nobody may have the concept, or the individual has one apart from it.
    fn concept_clashes(&self, excluded: &Excluded, one: Individual, concept: Concept) -> bool
        requires row { one.0 < most_individuals }
        requires concept { number_of concept < concept_width }
        ensures { IsTrue result ↔ ConceptClashes excluded.now self.now.concepts one concept }
    {
        let apart = excluded.apart[concept.number()];
        excluded.barred.contains(concept) || apart.intersects(self.concepts[one.0 as usize])
    }

    // Whether a role fact clashes at one of its ends.
    #[tactic(auto, unfolding(kinds::specs::Kinds::number_of))]
    fn ends_clash(&self, excluded: &Excluded, fact: RoleFact) -> bool
        requires { HasRows fact }
        ensures { IsTrue result ↔ EndsClash excluded.now self.now fact }
    {
        self.concept_clashes(excluded, fact.first, fact.role.forward().exists())
            || self.concept_clashes(excluded, fact.second, fact.role.backward().exists())
    }

    // Whether it clashes with what is typed of its pair, whose place is given, or with itself.
    fn pair_clashes(&self, excluded: &Excluded, fact: RoleFact, place: usize) -> bool
        requires rows { HasRows fact }
        requires place { place < most_role_facts }
        ensures { IsTrue result ↔ PairClashes excluded.now self.now fact place }
    {
        let conflicts = excluded.conflicts[toward(fact).0 as usize];
        conflicts.intersects(self.roles[place]) || loop_clashes(excluded, fact)
    }

    fn role_clashes(&self, excluded: &Excluded, fact: RoleFact, place: usize) -> bool
        requires rows { HasRows fact }
        requires place { place < most_role_facts }
        ensures { IsTrue result ↔ RoleClashes excluded.now self.now fact place }
    {
        self.ends_clash(excluded, fact) || self.pair_clashes(excluded, fact, place)
    }

    // The concept put into the row of the individual.
    #[tactic(auto, using(crate::proofs::StepLaws::put_concept))]
    fn put_concept(&mut self, one: Individual, concept: Concept)
        requires row { one.0 < most_individuals }
        requires concept { number_of concept < concept_width }
        ensures concepts { Puts (concepts_at self.old.concepts) (Pair one.0 (number_of concept))
            (concepts_at self.new.concepts) }
        ensures roles { self.new.roles ≡ self.old.roles }
    {
        self.concepts[one.0 as usize].insert(concept);
    }

    // The role put into the row of the pair at this place.
    #[tactic(auto, using(crate::proofs::StepLaws::put_role))]
    fn put_role(&mut self, place: usize, role: SignedRole)
        requires place { place < most_role_facts }
        requires role { role.0 < role_width }
        ensures roles { Puts (roles_at self.old.roles) (Pair place role.0)
            (roles_at self.new.roles) }
        ensures concepts { self.new.concepts ≡ self.old.concepts }
    {
        self.roles[place].insert(role);
    }

    // Both ends of a role fact.
    #[tactic(auto, using(crate::proofs::StepLaws::puts_then), unfolding(kinds::specs::Kinds::number_of))]
    fn put_ends(&mut self, fact: RoleFact)
        requires { HasRows fact }
        ensures concepts { Puts (concepts_at self.old.concepts) (Ends fact)
            (concepts_at self.new.concepts) }
        ensures roles { self.new.roles ≡ self.old.roles }
    {
        self.put_concept(fact.first, fact.role.forward().exists());
        self.put_concept(fact.second, fact.role.backward().exists());
    }

    // What a role fact types of its pair: both ways where its ends are equal.
    #[tactic(auto, using(crate::proofs::StepLaws::puts_then, crate::proofs::StepLaws::puts_where))]
    fn join(&mut self, fact: RoleFact, place: usize)
        requires rows { HasRows fact }
        requires place { place < most_role_facts }
        ensures roles { Puts (roles_at self.old.roles) (Joins fact place)
            (roles_at self.new.roles) }
        ensures concepts { self.new.concepts ≡ self.old.concepts }
    {
        self.put_role(place, toward(fact));
        if fact.first == fact.second {
            self.put_role(place, fact.role.backward());
        }
    }

    // A concept fact: whether it is kept. One that is dropped changes nothing.
    #[tactic(auto, unfolding(kinds::specs::Kinds::number_of))]
    pub(crate) fn take_concept(&mut self, excluded: &Excluded, fact: ConceptFact) -> bool
        requires { HasConceptRows fact }
        ensures { ConceptStepped excluded.now self.old fact result self.new }
    {
        let name = Concept::Name(fact.name);
        if self.concept_clashes(excluded, fact.individual, name) {
            return false;
        }
        self.put_concept(fact.individual, name);
        true
    }

    // A role fact, whose pair has this place: likewise.
    pub(crate) fn take_role(&mut self, excluded: &Excluded, fact: RoleFact, place: usize) -> bool
        requires rows { HasRows fact }
        requires place { place < most_role_facts }
        ensures { RoleStepped excluded.now self.old fact place result self.new }
    {
        if self.role_clashes(excluded, fact, place) {
            return false;
        }
        self.put_ends(fact);
        self.join(fact, place);
        true
    }

    // A role fact whose pair is among those that are lent.
    fn take_joined(&mut self, excluded: &Excluded, pairs: &[u16], fact: RoleFact) -> bool
        requires rows { HasRows fact }
        requires few { length pairs.now ≤ most_role_facts }
        requires rises { IsStrictlyIncreasing pairs.now }
        requires has { Contains pairs.now (pair_number fact.first.0 fact.second.0) }
        ensures { JoinedStepped excluded.now pairs.now self.old fact result self.new }
    {
        let place = place_of(pairs, pair_number(fact.first, fact.second));
        self.take_role(excluded, fact, place)
    }

    // An entry: whether it is kept. One that is no fact is.
    pub(crate) fn take(
        &mut self,
        excluded: &Excluded,
        pairs: &[u16],
        entry: Option<TypedFact>,
    ) -> bool
        requires few { length pairs.now ≤ most_role_facts }
        requires rises { IsStrictlyIncreasing pairs.now }
        requires rows { EntryHasRows pairs.now entry }
        ensures { EntryStepped excluded.now pairs.now self.old entry result self.new }
    {
        match entry {
            Some(TypedFact::Concept(fact)) => self.take_concept(excluded, fact),
            Some(TypedFact::Role(fact)) => self.take_joined(excluded, pairs, fact),
            None => true,
        }
    }
}
