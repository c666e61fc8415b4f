// The pairs of individuals that role facts join, each once and in order: so each has a place.

ghost use Rattle.std.specs.Prelude.{◌≡◌, ◌≤◌, ◌<◌, ◌/◌, length, slice_get, Some};
ghost use Rattle.std.specs.List.{Contains};
ghost use Rattle.std.specs.List.Sorted.{IsStrictlyIncreasing};
ghost use Rattle.kinds.specs.Kinds.{most_individuals};
ghost use Rattle.meaning.specs.Lent.{role_fact_width, most_role_facts};
ghost use Rattle.sift.specs.Pairs.{pair_number, ArePairs, HaveRows};

use kinds::Individual;
use sorted::tidy;
use tables::collection::ROLE_FACTS;
use tables::{RoleFact, Table};

// A place for the pair of each role fact.
pub(crate) type PairPlaces = [u16; ROLE_FACTS];

// The numbers of the pairs with one lesser individual are one after another, and so many are kept for them.
const BASE: u16 = Individual::MOST + 1;

// The number of a pair, whichever of the two comes first.
pub(crate) fn pair_number(one: Individual, other: Individual) -> u16
    requires one_small { one.0 < most_individuals }
    requires other_small { other.0 < most_individuals }
    ensures { result ≡ pair_number one.0 other.0 }
{
    BASE * one.0.min(other.0) + one.0.max(other.0)
}

// The pairs of all role facts of a table, in the room that is lent.
pub(crate) fn pairs_of<'a>(facts: Table<RoleFact>, room: &'a mut PairPlaces) -> &'a [u16]
    requires few { length facts.numbers.now / role_fact_width ≤ most_role_facts }
    requires small { HaveRows facts.numbers.now }
    ensures { ArePairs facts.entry.numbers.now result.now }
{
    let mut used = 0;
    for fact in facts.iter() {
        room[used] = pair_number(fact.first, fact.second);
        used += 1;
    }
    let kept = tidy(&mut room[..used]);
    &room[..kept]
}

// The place of a pair.
pub(crate) fn place_of(pairs: &[u16], pair: u16) -> usize
    requires rises { IsStrictlyIncreasing pairs.now }
    requires has { Contains pairs.now pair }
    ensures { slice_get pairs.now result ≡ Some pair }
{
    match pairs.binary_search(&pair) {
        Ok(place) => place,
        Err(place) => place,
    }
}
