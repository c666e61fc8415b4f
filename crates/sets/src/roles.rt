// A set of signed roles, the role numbered k as bit k.

ghost use Rattle.std.specs.Prelude.{◌≤◌, ◌≡◌, ◌↔◌, IsTrue, length};
ghost use Rattle.std.specs.Iterator.{at_most};
ghost use Rattle.kinds.specs.Kinds.{base};
ghost use Rattle.sets.specs.Bits.{role_width, Has, IsOnly, Inserts, InsertsIf, IsUnion, IsIntersection, IsMinus, Meets, IsEmpty, Takes, members, IsRaised};

use crate::concepts::ConceptSet;
use kinds::{Concept, SignedRole};

#[derive(Clone, Copy, PartialEq, Eq)]
pub struct RoleSet(pub u64);

impl RoleSet {
    pub const EMPTY: RoleSet = RoleSet(0);

    /// The set of one role. A role whose number is past the last has no place in a set: it is never a member, and putting it in changes nothing.
    pub fn only(member: SignedRole) -> RoleSet
        ensures { IsOnly role_width member.0 result.0 }
    {
        let k = member.0 as usize;
        if k < SignedRole::NUMBERS {
            return RoleSet(1 << k);
        }
        RoleSet::EMPTY
    }

    pub fn contains(self, member: SignedRole) -> bool
        ensures { IsTrue result ↔ Has self.0 member.0 }
    {
        let k = member.0 as usize;
        k < SignedRole::NUMBERS && (self.0 >> k) & 1 == 1
    }

    pub fn insert(&mut self, member: SignedRole)
        ensures { Inserts role_width self.old.0 member.0 self.new.0 }
    {
        self.0 |= RoleSet::only(member).0;
    }

    /// Without a branch on the test: for packing a row of marks.
    pub fn insert_if(&mut self, member: SignedRole, on: bool)
        ensures { InsertsIf role_width self.old.0 member.0 on self.new.0 }
    {
        let k = member.0 as usize;
        if k < SignedRole::NUMBERS {
            self.0 |= (on as u64) << k;
        }
    }

    pub fn union(self, other: RoleSet) -> RoleSet
        ensures { IsUnion self.0 other.0 result.0 }
    {
        RoleSet(self.0 | other.0)
    }

    pub fn intersection(self, other: RoleSet) -> RoleSet
        ensures { IsIntersection self.0 other.0 result.0 }
    {
        RoleSet(self.0 & other.0)
    }

    /// The roles that are not in the other set.
    pub fn minus(self, other: RoleSet) -> RoleSet
        ensures { IsMinus self.0 other.0 result.0 }
    {
        RoleSet(self.0 & !other.0)
    }

    pub fn intersects(self, other: RoleSet) -> bool
        ensures { IsTrue result ↔ Meets self.0 other.0 }
    {
        self.0 & other.0 != 0
    }

    pub fn is_empty(self) -> bool
        ensures { IsTrue result ↔ IsEmpty self.0 }
    {
        self.0 == 0
    }

    pub fn len(self) -> u32
        ensures count { result ≡ length (members role_width self.0) }
        ensures few { result ≤ role_width }
    {
        self.0.count_ones()
    }

    /// The first member, which leaves the set.
    pub fn pop_first(&mut self) -> Option<SignedRole>
        ensures { Takes role_width (λ member. member.0) self.old.0 result self.new.0 }
    {
        if self.0 == 0 {
            return None;
        }
        let first = self.0.trailing_zeros();
        self.0 &= self.0 - 1;
        Some(SignedRole(first as u16))
    }

    /// The members, rising.
    pub fn iter(self) -> SignedRoles
        ensures { result.rest ≡ self }
    {
        SignedRoles { rest: self }
    }

    /// ∃R for each role R of the set.
    pub fn exists(self) -> ConceptSet
        ensures { IsRaised base self.0 result.0 }
    {
        ConceptSet((self.0 as u128) << Concept::BASE)
    }
}

/// The members of a set that are still to come.
#[derive(Clone, Copy)]
pub struct SignedRoles {
    pub rest: RoleSet,
}

impl Iterator for SignedRoles {
    type Item = SignedRole;

    ghost next_gives = { λ s r t. Takes role_width (λ member. member.0) s.rest.0 r t.rest.0 };

    ghost remaining = { λ s. at_most s.rest.0 };

    fn next(&mut self) -> Option<SignedRole> {
        self.rest.pop_first()
    }
}
