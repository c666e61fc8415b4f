// Two collections compared, for programs in other languages.
ghost use Rattle.std.specs.Prelude.{◌≡◌, ◌↔◌};
ghost use Rattle.sorted.specs.Same.{PassAsSame, PassAsOthers};
ghost use Rattle.lampsaffron.specs.Boundary.{counted, lent};
ghost use Rattle.lampsaffron.specs.Same.{SameNumber};

use crate::passed::Passed;
use sorted::have_same_records;

// Whether two collections declare the same and hold the same records in each table, in any order and repeated as they may be:
// 1 or 0. The deed numbers of facts count. Where a test refuses the first, or else the second, its number, 4, 5 or 6. Nothing
// is written.
#[unsafe(no_mangle)]
pub extern "C" fn lampsaffron_same_records(
    names: u16,
    roles: u16,
    individuals: u16,
    states: u16,
    start: u16,
    concept_rules: &[u16],
    concept_exclusions: &[u16],
    role_rules: &[u16],
    role_exclusions: &[u16],
    concept_facts: &[u16],
    role_facts: &[u16],
    steps: &[u16],
    finals: &[u16],
    other_names: u16,
    other_roles: u16,
    other_individuals: u16,
    other_states: u16,
    other_start: u16,
    other_concept_rules: &[u16],
    other_concept_exclusions: &[u16],
    other_role_rules: &[u16],
    other_role_exclusions: &[u16],
    other_concept_facts: &[u16],
    other_role_facts: &[u16],
    other_steps: &[u16],
    other_finals: &[u16],
) -> u8
    ensures number { let c = counted names roles individuals states start in
        let t = lent concept_rules.now concept_exclusions.now role_rules.now role_exclusions.now
        concept_facts.now role_facts.now steps.now finals.now in
        let d = counted other_names other_roles other_individuals other_states other_start in
        let u = lent other_concept_rules.now other_concept_exclusions.now other_role_rules.now
        other_role_exclusions.now other_concept_facts.now other_role_facts.now other_steps.now
        other_finals.now in
        SameNumber c t d u result }

    // 1 and 0 exactly where no test refuses either, and they are the same as sets, or are not.
    ensures same { let c = counted names roles individuals states start in
        let t = lent concept_rules.now concept_exclusions.now role_rules.now role_exclusions.now
        concept_facts.now role_facts.now steps.now finals.now in
        let d = counted other_names other_roles other_individuals other_states other_start in
        let u = lent other_concept_rules.now other_concept_exclusions.now other_role_rules.now
        other_role_exclusions.now other_concept_facts.now other_role_facts.now other_steps.now
        other_finals.now in
        (result ≡ 1) ↔ PassAsSame c t d u }
    ensures others { let c = counted names roles individuals states start in
        let t = lent concept_rules.now concept_exclusions.now role_rules.now role_exclusions.now
        concept_facts.now role_facts.now steps.now finals.now in
        let d = counted other_names other_roles other_individuals other_states other_start in
        let u = lent other_concept_rules.now other_concept_exclusions.now other_role_rules.now
        other_role_exclusions.now other_concept_facts.now other_role_facts.now other_steps.now
        other_finals.now in
        (result ≡ 0) ↔ PassAsOthers c t d u }
{
    let one = Passed {
        names,
        roles,
        individuals,
        states,
        start,
        concept_rules,
        concept_exclusions,
        role_rules,
        role_exclusions,
        concept_facts,
        role_facts,
        steps,
        finals,
    };
    let other = Passed {
        names: other_names,
        roles: other_roles,
        individuals: other_individuals,
        states: other_states,
        start: other_start,
        concept_rules: other_concept_rules,
        concept_exclusions: other_concept_exclusions,
        role_rules: other_role_rules,
        role_exclusions: other_role_exclusions,
        concept_facts: other_concept_facts,
        role_facts: other_role_facts,
        steps: other_steps,
        finals: other_finals,
    };
    match have_same_records(&one.collection(), &other.collection()) {
        Ok(true) => 1,
        Ok(false) => 0,
        Err(refusal) => refusal.answer().number(),
    }
}
