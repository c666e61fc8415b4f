// Which facts of a collection salvage keeps, for programs in other languages.
ghost use Rattle.std.specs.Prelude.{◌≡◌, ◌≢◌, ◌↔◌, ◌≤◌, ℕ, true, false, IsTrue, Some, All, length, map, take, drop, slice_get};
ghost use Rattle.meaning.specs.Deeds.{SameButDeeds};
ghost use Rattle.meaning.specs.Lent.{Tables, collection};
ghost use Rattle.meaning.specs.Model.{Contradiction};
ghost use Rattle.laws.specs.Member.{◌∈◌};
ghost use Rattle.salvage.specs.Salvages.{◌◂◌, marked};
ghost use Rattle.salvage.specs.Facts.{Fact, facts_among, with_facts, salvaged};
ghost use Rattle.tables.specs.Lists.{lists};
ghost use Rattle.lampsaffron.specs.Boundary.{counted, lent};
ghost use Rattle.lampsaffron.specs.Salvage.{typed_of, order_in, mark_byte, IsReadable, entries, marks_of};
ghost use Rattle.lampsaffron.specs.Salvage.{SalvageNumber, MarksKept, TellsSalvage};

use crate::passed::Passed;
use salvage::Typed;
use tables::Collection;
use tables::collection::{CONCEPT_FACTS, ROLE_FACTS};

// The most facts of a collection.
const FACTS: usize = CONCEPT_FACTS + ROLE_FACTS;

// What a number of an order types.
fn typed_of(number: u16) -> Typed
    ensures { result ≡ typed_of number }
{
    match number {
        0 => Typed::ConceptFact,
        1 => Typed::RoleFact,
        _ => Typed::Other,
    }
}

// An order of 0s and 1s, no more of them than a collection may have facts, and a row with a place for each.
fn is_readable(order: &[u16], places: usize) -> bool
    ensures { IsTrue result ↔ IsReadable order.now places }
{
    order.len() <= FACTS && order.len() <= places && order.iter().all(|&number| number <= 1)
}

// The numbers of an order, each as what it types.
fn read_order(order: &[u16], typed: &mut [Typed])
    requires { length typed.old ≡ length order.now }
    ensures { typed.new ≡ order_in order.now }
{
    for k in 0..order.len() {
        typed[k] = typed_of(order[k]);
    }
}

// The marks go to the front of a row, each as a byte, and the rest of the row stays.
fn tell_marks(marks: &[bool], row: &mut [u8])
    requires { length marks.now ≤ length row.old }
    ensures front { take (length marks.now) row.new ≡ map mark_byte marks.now }
    ensures rest { drop (length marks.now) row.new ≡ drop (length marks.now) row.old }
{
    for k in 0..marks.len() {
        row[k] = marks[k] as u8;
    }
}

// Of a collection that is lent: the number, and the marks put into a row.
fn tell_salvage(collection: &Collection, order: &[u16], kept: &mut [u8]) -> u8
    ensures number { let c = collection.now in
        SalvageNumber c.counts (lists c) order.now (length kept.old) result }
    ensures marks { let c = collection.now in
        result ≡ 0 → MarksKept c.counts (lists c) order.now kept.new }
    ensures rest { let n = length order.now in drop n kept.new ≡ drop n kept.old }
    ensures kept_kept { result ≢ 0 → kept.new ≡ kept.old }
{
    if !collection.counts.fit() {
        return 4;
    }
    if !is_readable(order, kept.len()) {
        return 5;
    }
    let n = order.len();
    let mut types = [Typed::Other; FACTS];
    let typed = &mut types[..n];
    read_order(order, typed);
    let mut all = [false; FACTS];
    let marks = &mut all[..n];
    match sift::salvage(collection, typed, marks) {
        Ok(()) => {
            tell_marks(marks, kept);
            0
        }
        Err(refusal) => refusal.answer().number(),
    }
}

// Which facts salvage keeps of a collection: a row gets a mark for each, in the order typed, 1 where it is kept and 0 where it
// is dropped. The order has a number for each fact, 0 for a concept fact and 1 for a role fact, and the facts of each kind
// come in the order of their table. Gives 4, 5 or 6 as the tests do; 5 as well where the order types another number of facts
// of a kind than there are, or has a number above 1, or where the row has no place for each of them; else 0. After all but 0
// nothing is written.
#[unsafe(no_mangle)]
pub extern "C" fn lampsaffron_salvage(
    names: u16,
    roles: u16,
    individuals: u16,
    states: u16,
    start: u16,
    concept_rules: &[u16],
    concept_exclusions: &[u16],
    role_rules: &[u16],
    role_exclusions: &[u16],
    concept_facts: &[u16],
    role_facts: &[u16],
    steps: &[u16],
    finals: &[u16],
    order: &[u16],
    kept: &mut [u8],
) -> u8
    ensures number { let c = counted names roles individuals states start in
        let t = lent concept_rules.now concept_exclusions.now role_rules.now role_exclusions.now
        concept_facts.now role_facts.now steps.now finals.now in
        SalvageNumber c t order.now (length kept.old) result }
    ensures two_never { result ≢ 2 }
    ensures seven_never { result ≢ 7 }

    // After 0 the marks of the salvage stand at the front of the row, and the rest of it stays.
    ensures marks { let c = counted names roles individuals states start in
        let t = lent concept_rules.now concept_exclusions.now role_rules.now role_exclusions.now
        concept_facts.now role_facts.now steps.now finals.now in
        result ≡ 0 → MarksKept c t order.now kept.new }
    ensures rest { let n = length order.now in drop n kept.new ≡ drop n kept.old }

    // After all else nothing is written.
    ensures kept_kept { result ≢ 0 → kept.new ≡ kept.old }

    // The kept facts make no contradiction; any dropped fact, put back among all of them, brings one; and where the facts as
    // they are typed make none, each is kept.
    ensures sane { let c = counted names roles individuals states start in
        let t = lent concept_rules.now concept_exclusions.now role_rules.now role_exclusions.now
        concept_facts.now role_facts.now steps.now finals.now in
        let l = entries c t order.now in
        let m = marks_of c t order.now kept.new in
        result ≡ 0 → ¬ Contradiction (salvaged (collection c t) l m) }
    ensures back { let c = counted names roles individuals states start in
        let t = lent concept_rules.now concept_exclusions.now role_rules.now role_exclusions.now
        concept_facts.now role_facts.now steps.now finals.now in
        let l = entries c t order.now in
        let m = marks_of c t order.now kept.new in
        result ≡ 0 → (x : Fact) → Some x ∈ marked false l m
        → Contradiction (with_facts (collection c t) (facts_among (marked true l m) ◂ x)) }
    ensures whole { let c = counted names roles individuals states start in
        let t = lent concept_rules.now concept_exclusions.now role_rules.now role_exclusions.now
        concept_facts.now role_facts.now steps.now finals.now in
        let m = marks_of c t order.now kept.new in
        result ≡ 0 → ¬ Contradiction (collection c t) → All (λ mark. mark ≡ true) m }

    // A fact that is typed again has the mark that it had.
    ensures repeats { let c = counted names roles individuals states start in
        let t = lent concept_rules.now concept_exclusions.now role_rules.now role_exclusions.now
        concept_facts.now role_facts.now steps.now finals.now in
        let l = entries c t order.now in
        let m = marks_of c t order.now kept.new in
        result ≡ 0 → (i j : ℕ) → slice_get l i ≡ slice_get l j → slice_get m i ≡ slice_get m j }

    // Of tables that differ only in deed numbers all of it is the same.
    ensures deeds { let c = counted names roles individuals states start in
        let t = lent concept_rules.now concept_exclusions.now role_rules.now role_exclusions.now
        concept_facts.now role_facts.now steps.now finals.now in
        (u : Tables) → SameButDeeds t u
        → TellsSalvage c u order.now kept.old result kept.new }
{
    let passed = Passed {
        names,
        roles,
        individuals,
        states,
        start,
        concept_rules,
        concept_exclusions,
        role_rules,
        role_exclusions,
        concept_facts,
        role_facts,
        steps,
        finals,
    };
    tell_salvage(&passed.collection(), order, kept)
}
