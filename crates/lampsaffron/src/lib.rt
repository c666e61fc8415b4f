// The calls for programs in other languages: numbers and slices in, and out the number and the
// count of each answer.
#![tactic(auto)]

ghost use Rattle.std.specs.Prelude.{◌≡◌, ◌≢◌, ◌↔◌, ◌≤◌, ◌*◌, ◌++◌, ℕ, IsTrue, Some, min};
ghost use Rattle.std.specs.Prelude.{length, slice_get, take, drop};
ghost use Rattle.std.specs.Bool.{OnTrue, OnFalse};
ghost use Rattle.kinds.specs.Kinds.{individual};
ghost use Rattle.meaning.specs.Lent.{Tables, step_width, most_steps};
ghost use Rattle.meaning.specs.Deeds.{SameButDeeds, lent_with};
ghost use Rattle.index.specs.Asked.{asked};
ghost use Rattle.index.specs.Row.{InTurn};
ghost use Rattle.lampsaffron.specs.Boundary.{passed, passed_with, Gives};
ghost use Rattle.lampsaffron.specs.Boundary.{most_asks, pair_count, pair_at, RowFits, Tells, TellsEach};
ghost use Rattle.lampsaffron.specs.Row.{HasPairs};
ghost use Rattle.expression.specs.Answer.{IsAutomatonOf, ReadsItsWords, AsksForIt};
ghost use Rattle.lampsaffron.specs.Expression.{number_of, Makes, told_tables};

pub mod areas;
pub mod asks;
pub mod departs;
pub mod kept;
pub mod listing;
pub mod marks;
mod passed;
pub mod same;
pub mod theorems;

use crate::passed::Passed;
use expression::{Refusal, automaton_of};
use kinds::{Answer, Ask, Individual};
use tables::collection::{FINALS, STEPS};
use tables::{Step, Table};

// The most asks of one call.
const ASKS: usize = 256;

// The numbers of a pair, and those of as many asks.
const PAIR: usize = 2;

const ROW: usize = Ask::WIDTH * ASKS;

// One pair asked of a collection, as `Lent::ask` does it.
#[unsafe(no_mangle)]
pub extern "C" fn lampsaffron_ask(
    names: u16,
    roles: u16,
    individuals: u16,
    states: u16,
    start: u16,
    concept_rules: &[u16],
    concept_exclusions: &[u16],
    role_rules: &[u16],
    role_exclusions: &[u16],
    concept_facts: &[u16],
    role_facts: &[u16],
    steps: &[u16],
    finals: &[u16],
    first: u16,
    second: u16,
    allowance: u32,
    area: &mut [u8],
    spare: &mut [u8],
    count: &mut u32,
) -> u8
    ensures gives { let p = passed names roles individuals states start concept_rules.now
        concept_exclusions.now role_rules.now role_exclusions.now concept_facts.now role_facts.now
        steps.now finals.now allowance (length area.old) (length spare.old) in
        let ask = Ask.Pair (individual first) (individual second) in
        let c = asked p ask area.old spare.old in
        Gives c result count.new area.new spare.new }

    // Of tables that differ only in deed numbers all of it is the same.
    ensures deeds { let p = passed names roles individuals states start concept_rules.now
        concept_exclusions.now role_rules.now role_exclusions.now concept_facts.now role_facts.now
        steps.now finals.now allowance (length area.old) (length spare.old) in
        let ask = Ask.Pair (individual first) (individual second) in
        let c = asked p ask area.old spare.old in
        (t : Tables) → SameButDeeds p.tables t
        → Gives (lent_with c t) result count.new area.new spare.new }
    ensures seven_never { result ≢ 7 }
{
    let passed = Passed {
        names,
        roles,
        individuals,
        states,
        start,
        concept_rules,
        concept_exclusions,
        role_rules,
        role_exclusions,
        concept_facts,
        role_facts,
        steps,
        finals,
    };
    let lent = passed.lent(allowance);
    let answer = lent.ask(
        Ask::Pair(Individual(first), Individual(second)),
        area,
        spare,
    );
    *count = answer.count();
    answer.number()
}

// One named end asked of a collection: does a path leave the individual at all?
#[unsafe(no_mangle)]
pub extern "C" fn lampsaffron_ask_from(
    names: u16,
    roles: u16,
    individuals: u16,
    states: u16,
    start: u16,
    concept_rules: &[u16],
    concept_exclusions: &[u16],
    role_rules: &[u16],
    role_exclusions: &[u16],
    concept_facts: &[u16],
    role_facts: &[u16],
    steps: &[u16],
    finals: &[u16],
    first: u16,
    allowance: u32,
    area: &mut [u8],
    spare: &mut [u8],
    count: &mut u32,
) -> u8
    ensures gives { let p = passed names roles individuals states start concept_rules.now
        concept_exclusions.now role_rules.now role_exclusions.now concept_facts.now role_facts.now
        steps.now finals.now allowance (length area.old) (length spare.old) in
        let ask = Ask.From (individual first) in
        let c = asked p ask area.old spare.old in
        Gives c result count.new area.new spare.new }

    // Of tables that differ only in deed numbers all of it is the same.
    ensures deeds { let p = passed names roles individuals states start concept_rules.now
        concept_exclusions.now role_rules.now role_exclusions.now concept_facts.now role_facts.now
        steps.now finals.now allowance (length area.old) (length spare.old) in
        let ask = Ask.From (individual first) in
        let c = asked p ask area.old spare.old in
        (t : Tables) → SameButDeeds p.tables t
        → Gives (lent_with c t) result count.new area.new spare.new }
    ensures seven_never { result ≢ 7 }
{
    let passed = Passed {
        names,
        roles,
        individuals,
        states,
        start,
        concept_rules,
        concept_exclusions,
        role_rules,
        role_exclusions,
        concept_facts,
        role_facts,
        steps,
        finals,
    };
    let lent = passed.lent(allowance);
    let told = lent.ask(Ask::From(Individual(first)), area, spare);
    *count = told.count();
    told.number()
}

// Whole pairs, not too many, and an entry for each in both.
fn row_fits(pairs: &[u16], numbers: usize, counts: usize) -> bool
    ensures { IsTrue result ↔ RowFits pairs.now numbers counts }
{
    let n = pairs.len() / PAIR;
    pairs.len() % PAIR == 0 && n <= ASKS && numbers == n && counts == n
}

// The pairs as a row of asks, as many as have room.
fn put_pairs(pairs: &[u16], row: &mut [u16; ROW])
    ensures { HasPairs pairs.now row.new (min (pair_count pairs.now) most_asks) }
{
    for k in 0..(pairs.len() / PAIR).min(ASKS) {
        row[Ask::WIDTH * k] = 0;
        row[Ask::WIDTH * k + 1] = pairs[PAIR * k];
        row[Ask::WIDTH * k + 2] = pairs[PAIR * k + 1];
    }
}

// The answers to a row, each as its number and its count.
fn tell(answers: &[Answer], numbers: &mut [u8], counts: &mut [u32])
    ensures { TellsEach answers.now numbers.new counts.new }
{
    let n = numbers.len().min(counts.len());
    for k in 0..n.min(answers.len()) {
        numbers[k] = answers[k].number();
        counts[k] = answers[k].count();
    }
}

// A row of pairs asked of a collection: what `lampsaffron_ask` of each in turn does, prepared once.
#[unsafe(no_mangle)]
pub extern "C" fn lampsaffron_ask_all(
    names: u16,
    roles: u16,
    individuals: u16,
    states: u16,
    start: u16,
    concept_rules: &[u16],
    concept_exclusions: &[u16],
    role_rules: &[u16],
    role_exclusions: &[u16],
    concept_facts: &[u16],
    role_facts: &[u16],
    steps: &[u16],
    finals: &[u16],
    pairs: &[u16],
    allowance: u32,
    area: &mut [u8],
    spare: &mut [u8],
    numbers: &mut [u8],
    counts: &mut [u32],
) -> bool
    ensures fits { let n = length numbers.old in
        IsTrue result ↔ RowFits pairs.now n (length counts.old) }
    ensures in_turn { let p = passed names roles individuals states start concept_rules.now
        concept_exclusions.now role_rules.now role_exclusions.now concept_facts.now role_facts.now
        steps.now finals.now allowance (length area.old) (length spare.old) in
        let told = Tells numbers.new counts.new in
        let n = pair_count pairs.now in
        let ask = pair_at pairs.now in
        OnTrue result (InTurn p ask told area.old spare.old n area.new spare.new) }

    // Of tables that differ only in deed numbers all of it is the same.
    ensures deeds { let p = passed names roles individuals states start concept_rules.now
        concept_exclusions.now role_rules.now role_exclusions.now concept_facts.now role_facts.now
        steps.now finals.now allowance (length area.old) (length spare.old) in
        let told = Tells numbers.new counts.new in
        let n = pair_count pairs.now in
        let ask = pair_at pairs.now in
        (t : Tables) → SameButDeeds p.tables t → OnTrue result
        (InTurn (passed_with p t) ask told area.old spare.old n area.new spare.new) }
    ensures seven_never { (k : ℕ) → OnTrue result (slice_get numbers.new k ≢ Some 7) }

    // Where the lengths do not fit, nothing is asked, and nothing is written.
    ensures area_kept { OnFalse result (area.new ≡ area.old) }
    ensures spare_kept { OnFalse result (spare.new ≡ spare.old) }
    ensures numbers_kept { OnFalse result (numbers.new ≡ numbers.old) }
    ensures counts_kept { OnFalse result (counts.new ≡ counts.old) }
{
    if !row_fits(pairs, numbers.len(), counts.len()) {
        return false;
    }
    let mut row = [0; ROW];
    put_pairs(pairs, &mut row);
    let asks: Table<Ask> = Table::new(&row[..Ask::WIDTH * (pairs.len() / PAIR)]);
    let passed = Passed {
        names,
        roles,
        individuals,
        states,
        start,
        concept_rules,
        concept_exclusions,
        role_rules,
        role_exclusions,
        concept_facts,
        role_facts,
        steps,
        finals,
    };
    let lent = passed.lent(allowance);
    let mut answers = [Answer::BadAsk; ASKS];
    lent.ask_all(&asks, &mut answers, area, spare);
    tell(&answers, numbers, counts);
    true
}

// The numbers of the most steps and of the most final states, which have one number each.
const STEP_NUMBERS: usize = Step::WIDTH * STEPS;

const FINAL_NUMBERS: usize = FINALS;

// A table put at the front of a row: how many numbers it has. The rest of the row stays.
fn put(numbers: &[u16], row: &mut [u16]) -> u16
    requires within { length numbers.now ≤ length row.old }
    requires few { length numbers.now ≤ step_width * most_steps }
    ensures count { result ≡ length numbers.now }
    ensures front { take (length numbers.now) row.new ≡ numbers.now }
    ensures rest { drop (length numbers.now) row.new ≡ drop (length numbers.now) row.old }
{
    row[..numbers.len()].copy_from_slice(numbers);
    numbers.len() as u16
}

// Why a row of marks has no tables.
fn refusal_number(refusal: Refusal) -> u8
    ensures { result ≡ number_of refusal }
{
    match refusal {
        Refusal::NoExpression => 12,
        Refusal::TooDeep => 13,
        Refusal::TooManyMarks(_) => 14,
    }
}

// The tables of steps and final states of a question typed as an expression, from its marks. Gives 0 where they are made; else
// 5, the rows are too short, or 13, 12 or 14 as the desk gives them, and then nothing is written.
#[unsafe(no_mangle)]
pub extern "C" fn lampsaffron_expression(
    marks: &[u8],
    steps: &mut [u16],
    finals: &mut [u16],
    states: &mut u16,
    steps_used: &mut u16,
    finals_used: &mut u16,
) -> u8
    ensures number { Makes marks.now (length steps.old) (length finals.old) result }

    // After 0 the tables at the front of both rows are those of the row's expression, ask for its
    // words, and have the numbers of states, steps and finals that are returned.
    ensures made { let told =
        told_tables states.new steps_used.new steps.new finals_used.new finals.new in
        result ≡ 0 → IsAutomatonOf marks.now told }
    ensures words { let told =
        told_tables states.new steps_used.new steps.new finals_used.new finals.new in
        result ≡ 0 → ReadsItsWords marks.now told }
    ensures asks { let told =
        told_tables states.new steps_used.new steps.new finals_used.new finals.new in
        result ≡ 0 → AsksForIt marks.now told }
    ensures steps_count { let told =
        told_tables states.new steps_used.new steps.new finals_used.new finals.new in
        result ≡ 0 → steps_used.new ≡ length told.steps }
    ensures finals_count { let told =
        told_tables states.new steps_used.new steps.new finals_used.new finals.new in
        result ≡ 0 → finals_used.new ≡ length told.finals }

    // What stands behind them stays.
    ensures steps_rest { drop steps_used.new steps.new ≡ drop steps_used.new steps.old }
    ensures finals_rest { drop finals_used.new finals.new ≡ drop finals_used.new finals.old }

    // Where none are made, nothing is written.
    ensures steps_kept { result ≢ 0 → steps.new ≡ steps.old }
    ensures finals_kept { result ≢ 0 → finals.new ≡ finals.old }
    ensures states_kept { result ≢ 0 → states.new ≡ states.old }
    ensures steps_used_kept { result ≢ 0 → steps_used.new ≡ steps_used.old }
    ensures finals_used_kept { result ≢ 0 → finals_used.new ≡ finals_used.old }
{
    if steps.len() < STEP_NUMBERS || finals.len() < FINAL_NUMBERS {
        return 5;
    }
    let automaton = match automaton_of(marks) {
        Ok(automaton) => automaton,
        Err(refusal) => return refusal_number(refusal),
    };
    *states = automaton.states() as u16;
    *steps_used = put(automaton.steps().numbers, steps);
    *finals_used = put(automaton.finals().numbers, finals);
    0
}
