// How many marks each round makes, for programs in other languages.
ghost use Rattle.std.specs.Prelude.{◌≡◌, ◌≢◌, ◌↔◌, ◌≤◌, ◌+◌, IsTrue, ℕ, List, length, min, sum, take};
ghost use Rattle.kinds.specs.Kinds.{CountsFit};
ghost use Rattle.meaning.specs.Lent.{Tables};
ghost use Rattle.meaning.specs.Layout.{zeros, Standing};
ghost use Rattle.meaning.specs.LawsOfMarks.{first_marks};
ghost use Rattle.meaning.specs.Deeds.{SameButDeeds};
ghost use Rattle.index.specs.Preparation.{preparation, HasSheet, RoundsNeeded, HoldsSheet};
ghost use Rattle.lampsaffron.specs.Boundary.{counted, passed, passed_with};
ghost use Rattle.lampsaffron.specs.Marks.{MarksNumber, WorksRounds, TellsFront, count_put, left, TellsMarks};
ghost use Rattle.lampsaffron.specs.Front.{Puts};

use crate::passed::Passed;
use index::{Lent, Routes};
use kinds::{MarkCount, Rounds};
use sheet::{RoundListener, RoundMarks};

// A row that counts are put into, the first at its front, and how many it has been told.
#[derive(Drop)]
struct CountRow<'a> {
    counts: &'a mut [MarkCount],
    told: usize,
}

// It has no place for another count.
#[derive(Clone, Copy)]
struct Full;

impl RoundListener for CountRow<'_> {
    type Error = Full;

    ghost hears = { λ old round marks new. (new.counts.ghost_name ≡ old.counts.ghost_name)
        × Puts (count_put round (length marks)) old.counts.now old.told new.counts.now new.told };

    ghost fails = { λ old round _ _ _. (round ≢ 0) × (length old.counts.now ≤ old.told) };

    fn round_made(&mut self, round: Rounds, marks: &RoundMarks) -> Result<(), Full> {
        // What stands in round 0 was added by no round.
        if round == 0 {
            return Ok(());
        }
        let counts = &mut *self.counts;
        let at = self.told;
        if counts.len() <= at {
            return Err(Full);
        }
        counts[at] = marks.count();
        self.told = at + 1;
        Ok(())
    }
}

// The rounds worked, with a place for each that is allowed, and the number that it comes to.
fn work_out<'a, 'b>(lent: &Lent, area: &mut [u8], spare: &mut [u8], row: &'b mut CountRow<'a>) -> u8
    requires fits { CountsFit lent.now.collection.counts }
    requires room { lent.now.allowance ≤ length row.old.counts.now }
    requires none { row.old.told ≡ 0 }
    ensures same { row.new.counts.ghost_name ≡ row.old.counts.ghost_name }
    ensures number { let p = preparation lent.now (length area.old) (length spare.old) in
        MarksNumber p (length row.old.counts.now) result }
    ensures sheet { let p = preparation lent.now (length area.old) (length spare.old) in
        HasSheet p → (n : ℕ) → RoundsNeeded p n
        → HoldsSheet p (min n p.allowance) area.new }
    ensures cleared { let p = preparation lent.now (length area.old) (length spare.old) in
        HasSheet p → spare.new ≡ zeros }
    ensures untouched { let p = preparation lent.now (length area.old) (length spare.old) in
        (¬ HasSheet p) → area.new ≡ area.old }
    ensures spared { let p = preparation lent.now (length area.old) (length spare.old) in
        (¬ HasSheet p) → spare.new ≡ spare.old }
    ensures told { let p = preparation lent.now (length area.old) (length spare.old) in
        TellsFront p row.new.told row.old.counts.now row.new.counts.now }
{
    let lent = *lent;
    let mut routes = Routes::new();
    match lent.prepare_telling(area, spare, &mut routes, row) {
        Ok(prepared) => match prepared.rounds() {
            Ok(_) => 0,
            Err(answer) => answer.number(),
        },
        // There is a place for each round.
        Err(_) => unreachable!(),
    }
}

fn has_rounds(number: u8) -> bool
    ensures { IsTrue result ↔ WorksRounds number }
{
    number == 0 || number == 3
}

// How many marks each round up to the allowance made: the counts go to the front of a row, of round 1
// first. Gives 4, 5 or 6 as the tests do, and 5 where the row has no place for each round that is
// allowed; 2, a contradiction; 3, more rounds are needed than allowed; else 0.
#[unsafe(no_mangle)]
pub extern "C" fn lampsaffron_marks(
    names: u16,
    roles: u16,
    individuals: u16,
    states: u16,
    start: u16,
    concept_rules: &[u16],
    concept_exclusions: &[u16],
    role_rules: &[u16],
    role_exclusions: &[u16],
    concept_facts: &[u16],
    role_facts: &[u16],
    steps: &[u16],
    finals: &[u16],
    allowance: u32,
    area: &mut [u8],
    spare: &mut [u8],
    marks: &mut [u32],
    rounds: &mut u32,
) -> u8
    ensures number { let p = passed names roles individuals states start concept_rules.now
        concept_exclusions.now role_rules.now role_exclusions.now concept_facts.now role_facts.now
        steps.now finals.now allowance (length area.old) (length spare.old) in
        MarksNumber p (length marks.old) result }
    ensures seven_never { result ≢ 7 }

    // After 0 and 3 the first area holds the sheet, the second zeros, and the counts are told.
    ensures sheet { let p = passed names roles individuals states start concept_rules.now
        concept_exclusions.now role_rules.now role_exclusions.now concept_facts.now role_facts.now
        steps.now finals.now allowance (length area.old) (length spare.old) in
        WorksRounds result → (n : ℕ) → RoundsNeeded p n
        → HoldsSheet p (min n p.allowance) area.new }
    ensures cleared { WorksRounds result → spare.new ≡ zeros }
    ensures told { let p = passed names roles individuals states start concept_rules.now
        concept_exclusions.now role_rules.now role_exclusions.now concept_facts.now role_facts.now
        steps.now finals.now allowance (length area.old) (length spare.old) in
        WorksRounds result → TellsFront p rounds.new marks.old marks.new }

    // These and states × concepts make the number of marks that stand in the first area.
    ensures makes_sheet { let counts = counted names roles individuals states start in
        let told = sum (take rounds.new marks.new) in
        WorksRounds result → Standing area.new (told + first_marks counts) }

    // After all else nothing is written.
    ensures area_kept { (¬ WorksRounds result) → area.new ≡ area.old }
    ensures spare_kept { (¬ WorksRounds result) → spare.new ≡ spare.old }
    ensures marks_kept { (¬ WorksRounds result) → marks.new ≡ marks.old }
    ensures rounds_kept { (¬ WorksRounds result) → rounds.new ≡ rounds.old }

    // Of tables that differ only in deed numbers all of it is the same.
    ensures deeds { let p = passed names roles individuals states start concept_rules.now
        concept_exclusions.now role_rules.now role_exclusions.now concept_facts.now role_facts.now
        steps.now finals.now allowance (length area.old) (length spare.old) in
        let old = left area.old spare.old marks.old rounds.old in
        let new = left area.new spare.new marks.new rounds.new in
        (t : Tables) → SameButDeeds p.tables t → TellsMarks (passed_with p t) old result new }
{
    let passed = Passed {
        names,
        roles,
        individuals,
        states,
        start,
        concept_rules,
        concept_exclusions,
        role_rules,
        role_exclusions,
        concept_facts,
        role_facts,
        steps,
        finals,
    };
    let lent = passed.lent(allowance);
    if !lent.collection.counts.fit() {
        return 4;
    }
    if marks.len() < allowance as usize {
        return 5;
    }
    let mut row = CountRow {
        counts: marks,
        told: 0,
    };
    let number = work_out(&lent, area, spare, &mut row);
    if has_rounds(number) {
        *rounds = row.told as Rounds;
    }
    number
}
