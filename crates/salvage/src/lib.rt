// Salvage of a collection whose facts clash (docs/RULES.md, section 13): what it is, the tests of single facts that make it,
// and their laws: functions that have nothing to do, each clause of which is a law.
#![tactic(auto)]

pub mod theorems;

// What a line types, in a file, or an entry, in an order of facts.
#[derive(Clone, Copy, PartialEq, Eq)]
pub enum Typed {
    ConceptFact,
    RoleFact,
    Other,
}
