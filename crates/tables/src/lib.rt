// The lent tables, read by record, and the tests 4, 5, 6 and 8 of docs/RULES.md (section 7).
#![tactic(auto)]

mod ask;
pub mod collection;
mod fields;
pub mod records;
pub mod table;
pub mod theorems;

pub use collection::{Collection, Refusal};
pub use records::{ConceptFact, ConceptPair, Letter, Record, RoleFact, RolePair, Step, StepKind};
pub use table::{Records, Table};
