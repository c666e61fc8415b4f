// Where a list departs from the sheet's, for programs in other languages.
ghost use Rattle.std.specs.Prelude.{◌≡◌, ◌≢◌, ◌≤◌, ◌↔◌, IsTrue, OnOk, OnErr};
ghost use Rattle.kinds.specs.Kinds.{CountsFit, concept_of, ConceptDeclared};
ghost use Rattle.meaning.specs.Deeds.{SameButDeeds};
ghost use Rattle.meaning.specs.Lent.{Tables, Whole};
ghost use Rattle.tables.specs.Lists.{lists};
ghost use Rattle.lampsaffron.specs.Boundary.{counted, lent};
ghost use Rattle.lampsaffron.specs.Listing.{entries_in, entry_width, most_entries};
ghost use Rattle.lampsaffron.specs.Departs.{EntriesDeclared, HeldNumber, DepartsNumber, DepartsFromSheet, TellsDeparture};
ghost use Rattle.lampsaffron.specs.Departs.{HasEntry, Meets, Departs as DepartsIn};

use crate::listing::{ENTRIES, ENTRY, entry_of};
use crate::passed::Passed;
use index::Checked;
use kinds::{Concept, Counts, Rounds, State};
use sheet::{RoundListener, RoundMarks};

// Whole entries, not too many.
fn is_whole(list: &[u32]) -> bool
    ensures { IsTrue result ↔ Whole entry_width most_entries list.now }
{
    list.len() % ENTRY == 0 && list.len() / ENTRY <= ENTRIES
}

// Whether a number is that of a declared concept. None has a number of more than 16 bits.
fn concept_declared(number: u32, counts: Counts) -> bool
    requires { CountsFit counts }
    ensures { IsTrue result ↔ ConceptDeclared counts (concept_of number) }
{
    match u16::try_from(number) {
        Ok(number) => Concept::read(number).declared(counts),
        Err(_) => false,
    }
}

// The states and the concept of each entry are declared.
fn entries_declared(list: &[u32], counts: Counts) -> bool
    requires { CountsFit counts }
    ensures { IsTrue result ↔ EntriesDeclared counts list.now }
{
    let states = counts.states as u32;
    for k in 0..list.len() / ENTRY {
        let at = ENTRY * k;
        if list[at + 1] >= states
            || list[at + 2] >= states
            || !concept_declared(list[at + 3], counts)
        {
            return false;
        }
    }
    true
}

// A list that is held against the sheet's, and how many of its entries were met.
#[derive(Drop)]
struct HeldList<'a> {
    list: &'a [u32],
    met: usize,
}

// The entry that comes next is another.
#[derive(Clone, Copy)]
struct Departs;

// Whether entry k of a list is this.
fn has_entry(list: &[u32], k: usize, round: Rounds, mark: (State, State, Concept)) -> bool
    ensures { IsTrue result ↔ HasEntry list.now k (round, mark.0, mark.1, mark.2) }
{
    if k < list.len() / ENTRY {
        let entry = entry_of(round, mark.0, mark.1, mark.2);
        let at = ENTRY * k;
        return list[at] == entry[0]
            && list[at + 1] == entry[1]
            && list[at + 2] == entry[2]
            && list[at + 3] == entry[3];
    }
    false
}

// The entries of a round met one after the other, up to the first that the list has not.
fn meet_round(
    list: &[u32],
    met: &mut usize,
    round: Rounds,
    marks: &RoundMarks,
) -> Result<(), Departs>
    ensures ok { OnOk result (Meets list.now met.old (entries_in round marks.now) met.new) }
    ensures departs { OnErr result
        (DepartsIn list.now met.old (entries_in round marks.now) met.new) }
{
    for mark in marks.iter() {
        if !has_entry(list, *met, round, mark) {
            return Err(Departs);
        }
        *met += 1;
    }
    Ok(())
}

impl RoundListener for HeldList<'_> {
    type Error = Departs;

    ghost hears = { λ old round marks new. (new.list.now ≡ old.list.now)
        × Meets old.list.now old.met (entries_in round marks) new.met };

    ghost fails = { λ old round marks _ new. (new.list.now ≡ old.list.now)
        × DepartsIn old.list.now old.met (entries_in round marks) new.met };

    fn round_made(&mut self, round: Rounds, marks: &RoundMarks) -> Result<(), Departs> {
        meet_round(self.list, &mut self.met, round, marks)
    }
}

// The number of a list that departs, and the entry where it does.
fn departs_at(met: usize, entry: &mut u32) -> u8
    requires { met ≤ most_entries }
    ensures number { result ≡ 15 }
    ensures place { entry.new ≡ met }
{
    *entry = met as u32;
    15
}

// A list that passed its tests is held against the sheet of a collection that passed its own: the number that this comes to,
// and after 15 the entry where the list departs.
fn hold(checked: &Checked, list: &[u32], entry: &mut u32) -> u8
    requires { Whole entry_width most_entries list.now }
    ensures number { let c = checked.now.lent.collection in
        HeldNumber c.counts (lists c) list.now result }
    ensures departs { let c = checked.now.lent.collection in
        result ≡ 15 → DepartsFromSheet c.counts (lists c) list.now entry.new }
    ensures kept { result ≢ 15 → entry.new ≡ entry.old }
{
    let mut held = HeldList { list, met: 0 };
    match checked.tell_sheet(&mut held) {
        Ok(false) => 2,
        Ok(true) => {
            if held.met == list.len() / ENTRY {
                return 0;
            }
            departs_at(held.met, entry)
        }
        Err(_) => departs_at(held.met, entry),
    }
}

// Where a list departs from that of the closed sheet of a collection. An entry is four numbers: a round, two states and a
// concept. Gives 4, 5 or 6 as the tests do; 5 as well where the last entry is broken or there are more than 131,072; 6 as well
// where a state or the concept of an entry is not declared; 2, a contradiction, whatever the list; 15, the list is not that of
// the sheet, and then the number of the first entry that departs, counted from 0, which is the number of entries where the
// list only ends too soon; else 0. Nothing but that entry is written, and only after 15.
#[unsafe(no_mangle)]
pub extern "C" fn lampsaffron_departs(
    names: u16,
    roles: u16,
    individuals: u16,
    states: u16,
    start: u16,
    concept_rules: &[u16],
    concept_exclusions: &[u16],
    role_rules: &[u16],
    role_exclusions: &[u16],
    concept_facts: &[u16],
    role_facts: &[u16],
    steps: &[u16],
    finals: &[u16],
    list: &[u32],
    entry: &mut u32,
) -> u8
    ensures number { let c = counted names roles individuals states start in
        let t = lent concept_rules.now concept_exclusions.now role_rules.now role_exclusions.now
        concept_facts.now role_facts.now steps.now finals.now in
        DepartsNumber c t list.now result }
    ensures seven_never { result ≢ 7 }

    // After 15 it is told where, and after all else nothing is written.
    ensures departs { let c = counted names roles individuals states start in
        let t = lent concept_rules.now concept_exclusions.now role_rules.now role_exclusions.now
        concept_facts.now role_facts.now steps.now finals.now in
        result ≡ 15 → DepartsFromSheet c t list.now entry.new }
    ensures kept { result ≢ 15 → entry.new ≡ entry.old }

    // Of tables that differ only in deed numbers all of it is the same.
    ensures deeds { let c = counted names roles individuals states start in
        let t = lent concept_rules.now concept_exclusions.now role_rules.now role_exclusions.now
        concept_facts.now role_facts.now steps.now finals.now in
        (u : Tables) → SameButDeeds t u
        → TellsDeparture c u list.now entry.old result entry.new }
{
    let passed = Passed {
        names,
        roles,
        individuals,
        states,
        start,
        concept_rules,
        concept_exclusions,
        role_rules,
        role_exclusions,
        concept_facts,
        role_facts,
        steps,
        finals,
    };
    // The allowance is not read: the list is held against the closed sheet.
    let lent = passed.lent(0);
    if !lent.collection.counts.fit() {
        return 4;
    }
    if !is_whole(list) {
        return 5;
    }
    let checked = match lent.checked() {
        Ok(checked) => checked,
        Err(refusal) => return refusal.answer().number(),
    };
    if !entries_declared(list, lent.collection.counts) {
        return 6;
    }
    hold(&checked, list, entry)
}
