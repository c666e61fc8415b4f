// A set of basic concepts, the concept numbered k as bit k: names in the lower half, "has a neighbour" in the upper.

ghost use Rattle.std.specs.Prelude.{◌≤◌, ◌≡◌, ◌↔◌, ◌/◌, IsTrue, length};
ghost use Rattle.std.specs.Iterator.{at_most};
ghost use Rattle.kinds.specs.Kinds.{base, number_of};
ghost use Rattle.sets.specs.Bits.{concept_width, Has, IsOnly, Inserts, IsUnion, IsIntersection, IsMinus, Meets, IsEmpty, Takes, members, IsBytesOf, IsLowered, IsLower};
ghost use Rattle.sets.specs.Rows.{no_concepts};

use crate::roles::RoleSet;
use kinds::{Concept, ConceptName};

#[derive(Clone, Copy, PartialEq, Eq)]
pub struct ConceptSet(pub u128);

impl ConceptSet {
    pub const EMPTY: ConceptSet = ConceptSet(0);

    // The bytes of a set.
    pub const BYTES: usize = Concept::NUMBERS / u8::BITS as usize;

    /// The set of no concept. A table that is filled with it is not cleared by the C library, which takes a little less time for one of this size: so this is a call of its own.
    #[inline(never)]
    pub fn none() -> ConceptSet
        ensures { result ≡ no_concepts }
    {
        ConceptSet::EMPTY
    }

    /// The set of one concept. A concept whose number is past the last has no place in a set: it is never a member, and putting it in changes nothing.
    pub fn only(member: Concept) -> ConceptSet
        ensures { IsOnly concept_width (number_of member) result.0 }
    {
        let k = member.number();
        if k < Concept::NUMBERS {
            return ConceptSet(1 << k);
        }
        ConceptSet::EMPTY
    }

    /// Looked up in the half of the number's bit.
    pub fn contains(self, member: Concept) -> bool
        ensures { IsTrue result ↔ Has self.0 (number_of member) }
    {
        let k = member.number();
        let middle = Concept::BASE as usize;
        if k < middle {
            return (self.names() >> k) & 1 == 1;
        }
        k < Concept::NUMBERS && (self.roles().0 >> (k - middle)) & 1 == 1
    }

    /// Whether the concept of a table's number is a member.
    pub fn contains_number(self, number: u16) -> bool
        ensures { IsTrue result ↔ Has self.0 number }
    {
        self.contains(Concept::read(number))
    }

    pub fn insert(&mut self, member: Concept)
        ensures { Inserts concept_width self.old.0 (number_of member) self.new.0 }
    {
        self.0 |= ConceptSet::only(member).0;
    }

    pub fn union(self, other: ConceptSet) -> ConceptSet
        ensures { IsUnion self.0 other.0 result.0 }
    {
        ConceptSet(self.0 | other.0)
    }

    pub fn intersection(self, other: ConceptSet) -> ConceptSet
        ensures { IsIntersection self.0 other.0 result.0 }
    {
        ConceptSet(self.0 & other.0)
    }

    /// The concepts that are not in the other set.
    pub fn minus(self, other: ConceptSet) -> ConceptSet
        ensures { IsMinus self.0 other.0 result.0 }
    {
        ConceptSet(self.0 & !other.0)
    }

    pub fn intersects(self, other: ConceptSet) -> bool
        ensures { IsTrue result ↔ Meets self.0 other.0 }
    {
        self.0 & other.0 != 0
    }

    pub fn is_empty(self) -> bool
        ensures { IsTrue result ↔ IsEmpty self.0 }
    {
        self.0 == 0
    }

    pub fn len(self) -> u32
        ensures count { result ≡ length (members concept_width self.0) }
        ensures few { result ≤ concept_width }
    {
        self.0.count_ones()
    }

    // The names of the set: its lower half.
    fn names(self) -> u64
        ensures { IsLower base self.0 result }
    {
        (self.0 % (1 << Concept::BASE)) as u64
    }

    /// The roles R with ∃R in the set: its upper half.
    pub fn roles(self) -> RoleSet
        ensures { IsLowered base self.0 result.0 }
    {
        RoleSet((self.0 >> Concept::BASE) as u64)
    }

    /// The first member, which leaves the set: a name, or where there is none a role's neighbours.
    pub fn pop_first(&mut self) -> Option<Concept>
        ensures { Takes concept_width number_of self.old.0 result self.new.0 }
    {
        let names = self.names();
        let mut roles = self.roles();
        if names != 0 {
            let first = names.trailing_zeros();
            self.0 = roles.exists().0 | (names & (names - 1)) as u128;
            return Some(Concept::Name(ConceptName(first as u16)));
        }
        match roles.pop_first() {
            Some(first) => {
                self.0 = roles.exists().0;
                Some(Concept::Exists(first))
            }
            None => None,
        }
    }

    /// The members, rising.
    pub fn iter(self) -> Concepts
        ensures { result.rest ≡ self }
    {
        Concepts { rest: self }
    }

    /// The set as bytes: the concept numbered k is bit k % 8 of byte k / 8.
    pub fn to_le_bytes(self) -> [u8; ConceptSet::BYTES]
        ensures { IsBytesOf concept_width self.0 result }
    {
        self.0.to_le_bytes()
    }
}

/// The members of a set that are still to come.
#[derive(Clone, Copy)]
pub struct Concepts {
    pub rest: ConceptSet,
}

impl Iterator for Concepts {
    type Item = Concept;

    ghost next_gives = { λ s r t. Takes concept_width number_of s.rest.0 r t.rest.0 };

    ghost remaining = { λ s. at_most s.rest.0 };

    fn next(&mut self) -> Option<Concept> {
        self.rest.pop_first()
    }
}
