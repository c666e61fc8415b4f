// The list of a closed sheet, for programs in other languages.
ghost use Rattle.std.specs.Prelude.{◌≡◌, ◌≢◌, ◌+◌, ◌*◌, ◌≤◌, ◌<◌, length, OnOk, OnErr};
ghost use Rattle.kinds.specs.Kinds.{number_of, CountsFit};
ghost use Rattle.meaning.specs.Lent.{Tables};
ghost use Rattle.meaning.specs.Deeds.{SameButDeeds};
ghost use Rattle.tables.specs.Lists.{lists};
ghost use Rattle.lampsaffron.specs.Boundary.{counted, lent};
ghost use Rattle.lampsaffron.specs.Front.{Puts};
ghost use Rattle.lampsaffron.specs.Listing.{entries_in, entry_width, entry_numbers, list_numbers, most_entries};
ghost use Rattle.lampsaffron.specs.Listing.{ListingNumber, PutsList, TellsList, left, TellsListing};

use crate::passed::Passed;
use index::Lent;
use kinds::{AREA, Concept, Rounds, State};
use sheet::{RoundListener, RoundMarks};

// The numbers of an entry: its round, two states and a concept.
pub(crate) const ENTRY: usize = 4;

// The most entries of a list: one for each mark that an area has a place for.
pub(crate) const ENTRIES: usize = AREA * u8::BITS as usize;

// The number of a concept, which 32 bits hold whatever is declared.
#[tactic(auto, unfolding(kinds::specs::Kinds::number_of))]
fn number(concept: Concept) -> u32
    ensures { result ≡ number_of concept }
{
    match concept {
        Concept::Name(name) => name.0 as u32,
        Concept::Exists(role) => Concept::BASE as u32 + role.0 as u32,
    }
}

// An entry as numbers.
pub(crate) fn entry_of(round: Rounds, first: State, second: State, concept: Concept) -> [u32; ENTRY]
    ensures { result ≡ entry_numbers (round, first, second, concept) }
{
    [round, first.0 as u32, second.0 as u32, number(concept)]
}

// A row that entries are put into, the first at its front, and how many numbers it has been told.
#[derive(Drop)]
struct EntryRow<'a> {
    numbers: &'a mut [u32],
    told: usize,
}

// It has no place for another entry.
#[derive(Clone, Copy)]
struct Full;

// An entry put into a row, after those that are told.
fn put(row: &mut [u32], told: &mut usize, entry: &[u32; ENTRY]) -> Result<(), Full>
    ensures put { OnOk result (Puts entry.now row.old told.old row.new told.new) }
    ensures full { OnErr result (length row.old < told.old + entry_width) }
{
    let at = *told;
    if row.len().saturating_sub(at) < ENTRY {
        return Err(Full);
    }
    row[at..at + ENTRY].copy_from_slice(entry);
    *told = at + ENTRY;
    Ok(())
}

// The entries of a round put into a row, after those that are told.
fn put_round(
    row: &mut [u32],
    told: &mut usize,
    round: Rounds,
    marks: &RoundMarks,
) -> Result<(), Full>
    ensures put { OnOk result (Puts (list_numbers (entries_in round marks.now))
        row.old told.old row.new told.new) }
    ensures full { OnErr result
        (length row.old < told.old + length (list_numbers (entries_in round marks.now))) }
{
    for (first, second, concept) in marks.iter() {
        put(row, told, &entry_of(round, first, second, concept))?;
    }
    Ok(())
}

impl RoundListener for EntryRow<'_> {
    type Error = Full;

    ghost hears = { λ old round marks new. (new.numbers.ghost_name ≡ old.numbers.ghost_name)
        × Puts (list_numbers (entries_in round marks))
        old.numbers.now old.told new.numbers.now new.told };

    ghost fails = { λ old round marks _ _.
        length old.numbers.now < old.told + length (list_numbers (entries_in round marks)) };

    fn round_made(&mut self, round: Rounds, marks: &RoundMarks) -> Result<(), Full> {
        let row = &mut *self.numbers;
        put_round(row, &mut self.told, round, marks)
    }
}

// The list of the closed sheet is put into a row that has a place for the longest one: the number that this comes to.
fn put_list<'a, 'b>(lent: &Lent, row: &'b mut EntryRow<'a>) -> u8
    requires fits { CountsFit lent.now.collection.counts }
    requires room { entry_width * most_entries ≤ length row.old.numbers.now }
    requires none { row.old.told ≡ 0 }
    ensures same { row.new.numbers.ghost_name ≡ row.old.numbers.ghost_name }
    ensures number { let c = lent.now.collection in
        ListingNumber c.counts (lists c) (length row.old.numbers.now) result }
    ensures listed { let c = lent.now.collection in
        result ≡ 0 → PutsList c.counts (lists c) row.new.told row.old.numbers.now
        row.new.numbers.now }
    ensures kept { result ≢ 0 → row.new.numbers.now ≡ row.old.numbers.now }
{
    let checked = match lent.checked() {
        Ok(checked) => checked,
        Err(refusal) => return refusal.answer().number(),
    };
    match checked.tell_sheet(row) {
        Ok(true) => 0,
        Ok(false) => 2,
        // There is a place for each entry.
        Err(_) => unreachable!(),
    }
}

// The list of the closed sheet of a collection: its entries go to the front of a row, four numbers each. Gives 4; 5, a table
// is broken or too long, or the row has no place for 131,072 entries; 6; 2, a contradiction; else 0. No list is longer than
// that, and how long this one is shows only when its last round is worked, when most of it is written: so a row that could be
// too short is refused.
#[unsafe(no_mangle)]
pub extern "C" fn lampsaffron_listing(
    names: u16,
    roles: u16,
    individuals: u16,
    states: u16,
    start: u16,
    concept_rules: &[u16],
    concept_exclusions: &[u16],
    role_rules: &[u16],
    role_exclusions: &[u16],
    concept_facts: &[u16],
    role_facts: &[u16],
    steps: &[u16],
    finals: &[u16],
    list: &mut [u32],
    entries: &mut u32,
) -> u8
    ensures number { let c = counted names roles individuals states start in
        let t = lent concept_rules.now concept_exclusions.now role_rules.now role_exclusions.now
        concept_facts.now role_facts.now steps.now finals.now in
        ListingNumber c t (length list.old) result }
    ensures seven_never { result ≢ 7 }

    // After 0 the list stands at the front of the row, and how many entries it has is told.
    ensures listed { let c = counted names roles individuals states start in
        let t = lent concept_rules.now concept_exclusions.now role_rules.now role_exclusions.now
        concept_facts.now role_facts.now steps.now finals.now in
        result ≡ 0 → TellsList c t entries.new list.old list.new }

    // After all else nothing is written.
    ensures list_kept { result ≢ 0 → list.new ≡ list.old }
    ensures entries_kept { result ≢ 0 → entries.new ≡ entries.old }

    // Of tables that differ only in deed numbers all of it is the same.
    ensures deeds { let c = counted names roles individuals states start in
        let t = lent concept_rules.now concept_exclusions.now role_rules.now role_exclusions.now
        concept_facts.now role_facts.now steps.now finals.now in
        let old = left list.old entries.old in
        let new = left list.new entries.new in
        (u : Tables) → SameButDeeds t u → TellsListing c u old result new }
{
    let passed = Passed {
        names,
        roles,
        individuals,
        states,
        start,
        concept_rules,
        concept_exclusions,
        role_rules,
        role_exclusions,
        concept_facts,
        role_facts,
        steps,
        finals,
    };
    // The allowance is not read: the list is that of the closed sheet.
    let lent = passed.lent(0);
    if !lent.collection.counts.fit() {
        return 4;
    }
    if list.len() < ENTRY * ENTRIES {
        return 5;
    }
    let mut row = EntryRow {
        numbers: list,
        told: 0,
    };
    let number = put_list(&lent, &mut row);
    if number == 0 {
        *entries = (row.told / ENTRY) as u32;
    }
    number
}
