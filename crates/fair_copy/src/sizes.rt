// The characters of the longest fair copy: each table has its most records.
use tables::collection::{
    CONCEPT_EXCLUSIONS, CONCEPT_FACTS, CONCEPT_RULES, FINALS, ROLE_EXCLUSIONS, ROLE_FACTS,
    ROLE_RULES, STEPS,
};

// The characters of a line of each kind: two for each byte, and the end.
const DECLARED_LINE: usize = 13;

const RULE_LINE: usize = 7;

const CONCEPT_FACT_LINE: usize = 11;

const ROLE_FACT_LINE: usize = 13;

const STEP_LINE: usize = 9;

const FINAL_LINE: usize = 5;

const ALLOWANCE_LINE: usize = 11;

// A rule or an exclusion, of concepts or of roles, has two fields of a byte.
const RULES: usize = CONCEPT_RULES + CONCEPT_EXCLUSIONS + ROLE_RULES + ROLE_EXCLUSIONS;

pub(crate) const TEXT: usize = DECLARED_LINE
    + RULE_LINE * RULES
    + CONCEPT_FACT_LINE * CONCEPT_FACTS
    + ROLE_FACT_LINE * ROLE_FACTS
    + STEP_LINE * STEPS
    + FINAL_LINE * FINALS
    + ALLOWANCE_LINE;
