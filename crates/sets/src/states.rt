// A set of states, the state numbered k as bit k.

ghost use Rattle.std.specs.Prelude.{◌≤◌, ◌≡◌, ◌↔◌, IsTrue, length};
ghost use Rattle.std.specs.Iterator.{at_most};
ghost use Rattle.sets.specs.Bits.{state_width, Has, IsOnly, Inserts, InsertsIf, IsUnion, IsIntersection, IsMinus, Meets, IsEmpty, Takes, members};

use kinds::State;

#[derive(Clone, Copy, PartialEq, Eq)]
pub struct StateSet(pub u32);

impl StateSet {
    pub const EMPTY: StateSet = StateSet(0);

    /// The set of one state. A state whose number is past the last has no place in a set: it is never a member, and putting it in changes nothing.
    pub fn only(member: State) -> StateSet
        ensures { IsOnly state_width member.0 result.0 }
    {
        let k = member.0 as usize;
        if k < State::NUMBERS {
            return StateSet(1 << k);
        }
        StateSet::EMPTY
    }

    pub fn contains(self, member: State) -> bool
        ensures { IsTrue result ↔ Has self.0 member.0 }
    {
        let k = member.0 as usize;
        k < State::NUMBERS && (self.0 >> k) & 1 == 1
    }

    pub fn insert(&mut self, member: State)
        ensures { Inserts state_width self.old.0 member.0 self.new.0 }
    {
        self.0 |= StateSet::only(member).0;
    }

    /// Without a branch on the test: for gathering the states that pass it.
    pub fn insert_if(&mut self, member: State, on: bool)
        ensures { InsertsIf state_width self.old.0 member.0 on self.new.0 }
    {
        let k = member.0 as usize;
        if k < State::NUMBERS {
            self.0 |= (on as u32) << k;
        }
    }

    pub fn union(self, other: StateSet) -> StateSet
        ensures { IsUnion self.0 other.0 result.0 }
    {
        StateSet(self.0 | other.0)
    }

    pub fn intersection(self, other: StateSet) -> StateSet
        ensures { IsIntersection self.0 other.0 result.0 }
    {
        StateSet(self.0 & other.0)
    }

    /// The states that are not in the other set.
    pub fn minus(self, other: StateSet) -> StateSet
        ensures { IsMinus self.0 other.0 result.0 }
    {
        StateSet(self.0 & !other.0)
    }

    pub fn intersects(self, other: StateSet) -> bool
        ensures { IsTrue result ↔ Meets self.0 other.0 }
    {
        self.0 & other.0 != 0
    }

    pub fn is_empty(self) -> bool
        ensures { IsTrue result ↔ IsEmpty self.0 }
    {
        self.0 == 0
    }

    pub fn len(self) -> u32
        ensures count { result ≡ length (members state_width self.0) }
        ensures few { result ≤ state_width }
    {
        self.0.count_ones()
    }

    /// The first member, which leaves the set.
    pub fn pop_first(&mut self) -> Option<State>
        ensures { Takes state_width (λ member. member.0) self.old.0 result self.new.0 }
    {
        if self.0 == 0 {
            return None;
        }
        let first = self.0.trailing_zeros();
        self.0 &= self.0 - 1;
        Some(State(first as u16))
    }

    /// The members, rising.
    pub fn iter(self) -> States
        ensures { result.rest ≡ self }
    {
        States { rest: self }
    }
}

/// The members of a set that are still to come.
#[derive(Clone, Copy)]
pub struct States {
    pub rest: StateSet,
}

impl Iterator for States {
    type Item = State;

    ghost next_gives = { λ s r t. Takes state_width (λ member. member.0) s.rest.0 r t.rest.0 };

    ghost remaining = { λ s. at_most s.rest.0 };

    fn next(&mut self) -> Option<State> {
        self.rest.pop_first()
    }
}
