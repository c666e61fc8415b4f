// What the rules of docs/RULES.md mean stands in specs/; that it has the laws which a reader expects
// is what the functions here promise. They have nothing to do: each clause is a law.
#![tactic(auto)]

pub mod calls;
pub mod excluded;
pub mod listing;
pub mod model;
pub mod orders;
pub mod sheet;
pub mod worlds;
