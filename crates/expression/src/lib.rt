// A question typed as an expression: a row of byte marks is read, and becomes an automaton.
#![tactic(auto)]

mod listed;
mod marks;
mod parts;
mod reader;
pub mod theorems;

pub use listed::{Automaton, Refusal, automaton_of};
pub use marks::letter;
