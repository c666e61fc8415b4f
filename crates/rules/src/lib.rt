// Tables of sets that say what a round reads of rules and question, and how a collection makes them.
#![tactic(auto)]

mod made;
mod rows;
pub mod theorems;
mod transitions;

pub use rows::{Edge, Rows};
pub use transitions::fill_transitions;
