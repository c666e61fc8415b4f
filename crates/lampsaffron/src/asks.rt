// A row of asks of both kinds, for programs in other languages.
ghost use Rattle.std.specs.Prelude.{◌≡◌, ◌≢◌, ◌↔◌, ℕ, IsTrue, Some, length, slice_get};
ghost use Rattle.meaning.specs.Lent.{Tables};
ghost use Rattle.meaning.specs.Deeds.{SameButDeeds};
ghost use Rattle.tables.specs.Asks.{read_ask};
ghost use Rattle.index.specs.Row.{ask_count, InTurn};
ghost use Rattle.lampsaffron.specs.Boundary.{passed, passed_with, Tells};
ghost use Rattle.lampsaffron.specs.Asks.{AsksFit, KindsFit, AsksNumber};

use crate::passed::Passed;
use crate::{ASKS, tell};
use kinds::{Answer, Ask};
use tables::Table;

// Whole asks, not too many, and an entry for each in both.
fn asks_fit(asks: &Table<Ask>, numbers: usize, counts: usize) -> bool
    ensures { IsTrue result ↔ AsksFit asks.now.numbers.now numbers counts }
{
    let n = asks.len();
    asks.is_whole(ASKS) && numbers == n && counts == n
}

// The kind of each whole ask is 0 or 1.
fn kinds_fit(asks: &[u16]) -> bool
    ensures { IsTrue result ↔ KindsFit asks.now }
{
    for k in 0..asks.len() / Ask::WIDTH {
        if asks[Ask::WIDTH * k] > 1 {
            return false;
        }
    }
    true
}

// A row of asks, each of a pair or of one individual: what `lampsaffron_ask` or `lampsaffron_ask_from`
// of each in turn does, prepared once. An ask has three numbers: 0 for a pair or 1 for one
// individual, the first individual, and the second, which is not read after a 1. Gives 0 where they
// were asked; 5, the row is broken or too long, or has not an entry for each; 6, some ask is of
// another kind.
#[unsafe(no_mangle)]
pub extern "C" fn lampsaffron_ask_row(
    names: u16,
    roles: u16,
    individuals: u16,
    states: u16,
    start: u16,
    concept_rules: &[u16],
    concept_exclusions: &[u16],
    role_rules: &[u16],
    role_exclusions: &[u16],
    concept_facts: &[u16],
    role_facts: &[u16],
    steps: &[u16],
    finals: &[u16],
    asks: &[u16],
    allowance: u32,
    area: &mut [u8],
    spare: &mut [u8],
    numbers: &mut [u8],
    counts: &mut [u32],
) -> u8
    ensures number { AsksNumber asks.now (length numbers.old) (length counts.old) result }
    ensures in_turn { let p = passed names roles individuals states start concept_rules.now
        concept_exclusions.now role_rules.now role_exclusions.now concept_facts.now role_facts.now
        steps.now finals.now allowance (length area.old) (length spare.old) in
        let told = Tells numbers.new counts.new in
        let n = ask_count asks.now in
        let ask = read_ask asks.now in
        result ≡ 0 → InTurn p ask told area.old spare.old n area.new spare.new }

    // Of tables that differ only in deed numbers all of it is the same.
    ensures deeds { let p = passed names roles individuals states start concept_rules.now
        concept_exclusions.now role_rules.now role_exclusions.now concept_facts.now role_facts.now
        steps.now finals.now allowance (length area.old) (length spare.old) in
        let told = Tells numbers.new counts.new in
        let n = ask_count asks.now in
        let ask = read_ask asks.now in
        (t : Tables) → SameButDeeds p.tables t → result ≡ 0
        → InTurn (passed_with p t) ask told area.old spare.old n area.new spare.new }
    ensures seven_never { (k : ℕ) → result ≡ 0 → slice_get numbers.new k ≢ Some 7 }

    // After 5 and 6 nothing is asked, and nothing is written.
    ensures area_kept { result ≢ 0 → area.new ≡ area.old }
    ensures spare_kept { result ≢ 0 → spare.new ≡ spare.old }
    ensures numbers_kept { result ≢ 0 → numbers.new ≡ numbers.old }
    ensures counts_kept { result ≢ 0 → counts.new ≡ counts.old }
{
    let row: Table<Ask> = Table::new(asks);
    if !asks_fit(&row, numbers.len(), counts.len()) {
        return 5;
    }
    if !kinds_fit(asks) {
        return 6;
    }
    let passed = Passed {
        names,
        roles,
        individuals,
        states,
        start,
        concept_rules,
        concept_exclusions,
        role_rules,
        role_exclusions,
        concept_facts,
        role_facts,
        steps,
        finals,
    };
    let lent = passed.lent(allowance);
    let mut answers = [Answer::BadAsk; ASKS];
    lent.ask_all(&row, &mut answers, area, spare);
    tell(&answers, numbers, counts);
    0
}
