// The records of tables in order, each once; and whether two collections are the same as sets.
#![tactic(auto)]

mod compared;
pub mod theorems;
mod tidied;

pub use compared::{FINAL_WIDTH, have_same_records};
pub use tidied::tidy;
