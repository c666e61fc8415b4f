// Whether two collections are the same as sets.
ghost use Rattle.std.specs.Prelude.{◌≡◌, ◌↔◌, ◌^◌, ◌<◌, ◌≤◌, ◌/◌, Ok, Err, true, false, IsTrue, IsOk, length};
ghost use Rattle.meaning.specs.Lent.{ShapesOk};
ghost use Rattle.tables.specs.Lists.{lists};
ghost use Rattle.tables.specs.declared.collection.Refusal.{Refusal};
ghost use Rattle.sorted.specs.Rows.{rows, SameRecords, AreTidied, HasPlace};
ghost use Rattle.sorted.specs.Same.{SameTables, Passes, IsRefusedFor, RefusedFor, PassAsSame, PassAsOthers};

use crate::tidied::tidy;
use kinds::AREA;
use tables::collection::{
    CONCEPT_EXCLUSIONS, CONCEPT_FACTS, CONCEPT_RULES, FINALS, ROLE_EXCLUSIONS, ROLE_FACTS,
    ROLE_RULES, STEPS,
};
use tables::{Collection, ConceptFact, ConceptPair, Refusal, RoleFact, RolePair, Step};

/// A final state is one number.
pub const FINAL_WIDTH: usize = 1;

// The whole records of a table in order, each once, in the room that is lent.
fn tidied<'a, const W: usize>(table: &[u16], room: &'a mut [[u16; W]]) -> &'a [[u16; W]]
    requires wide { 0 < W }
    requires narrow { W < 2 ^ 16 }
    requires few { length table.now / W ≤ length room.old }
    ensures { AreTidied (rows W table.now) result.now }
{
    let (records, _) = table.as_chunks::<W>();
    let front = &mut room[..records.len()];
    front.copy_from_slice(records);
    let kept = tidy(front);
    &front[..kept]
}

// Whether two tables have the same records, both put in order in places for the most of them. It is a call of its own, so that
// no more than two such places are alive at once.
#[inline(never)]
fn same_in_order<const W: usize, const N: usize>(one: &[u16], other: &[u16]) -> bool
    requires place { HasPlace W N }
    requires one_few { length one.now / W ≤ N }
    requires other_few { length other.now / W ≤ N }
    ensures { IsTrue result ↔ SameRecords W one.now other.now }
{
    let mut left = [[0; W]; N];
    let mut right = [[0; W]; N];
    tidied(one, &mut left) == tidied(other, &mut right)
}

// Whether two tables, of W numbers to a record and at most N records, have the same records. Those that are equal as they
// stand need not be put in order.
fn same_records<const W: usize, const N: usize>(one: &[u16], other: &[u16]) -> bool
    requires place { HasPlace W N }
    requires one_few { length one.now / W ≤ N }
    requires other_few { length other.now / W ≤ N }
    ensures { IsTrue result ↔ SameRecords W one.now other.now }
{
    one == other || same_in_order::<W, N>(one, other)
}

// Whether each table has the same records.
fn same_tables(one: &Collection, other: &Collection) -> bool
    requires one_fits { ShapesOk (lists one.now) }
    requires other_fits { ShapesOk (lists other.now) }
    ensures { IsTrue result ↔ SameTables (lists one.now) (lists other.now) }
{
    same_records::<{ ConceptPair::WIDTH }, CONCEPT_RULES>(
        one.concept_rules.numbers,
        other.concept_rules.numbers,
    ) && same_records::<{ ConceptPair::WIDTH }, CONCEPT_EXCLUSIONS>(
        one.concept_exclusions.numbers,
        other.concept_exclusions.numbers,
    ) && same_records::<{ RolePair::WIDTH }, ROLE_RULES>(
        one.role_rules.numbers,
        other.role_rules.numbers,
    ) && same_records::<{ RolePair::WIDTH }, ROLE_EXCLUSIONS>(
        one.role_exclusions.numbers,
        other.role_exclusions.numbers,
    ) && same_records::<{ ConceptFact::WIDTH }, CONCEPT_FACTS>(
        one.concept_facts.numbers,
        other.concept_facts.numbers,
    ) && same_records::<{ RoleFact::WIDTH }, ROLE_FACTS>(
        one.role_facts.numbers,
        other.role_facts.numbers,
    ) && same_records::<{ Step::WIDTH }, STEPS>(one.steps.numbers, other.steps.numbers)
        && same_records::<FINAL_WIDTH, FINALS>(one.finals.numbers, other.finals.numbers)
}

// The tests 4, 5 and 6 of a collection that no area is lent with.
fn check(collection: &Collection) -> Result<(), Refusal>
    ensures ok { let c = collection.now in IsOk result ↔ Passes c.counts (lists c) }
    ensures refused { let c = collection.now in
        (why : Refusal) → (result ≡ Err why) ↔ IsRefusedFor c.counts (lists c) why }
{
    collection.check(AREA, AREA)
}

/// Whether both declare the same and each table of both has the same records, in any order and repeated as they may be; of
/// facts the deed numbers count. Gives the refusal of the first collection, or else of the second, where a test fails.
pub fn have_same_records(one: &Collection, other: &Collection) -> Result<bool, Refusal>
    ensures refused { let c = one.now in let d = other.now in
        (why : Refusal) → (result ≡ Err why)
        ↔ RefusedFor c.counts (lists c) d.counts (lists d) why }
    ensures same { let c = one.now in let d = other.now in
        (result ≡ Ok true) ↔ PassAsSame c.counts (lists c) d.counts (lists d) }
    ensures others { let c = one.now in let d = other.now in
        (result ≡ Ok false) ↔ PassAsOthers c.counts (lists c) d.counts (lists d) }
{
    check(one)?;
    check(other)?;
    Ok(one.counts == other.counts && same_tables(one, other))
}
