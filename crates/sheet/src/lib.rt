// The loop sheet, round by round: each mark that a round adds uses a mark that the round before added.
#![tactic(auto, using(crate::proofs::Laws::laws))]

mod allowed;
mod areas;
mod closing;
mod delta;
mod filtering;
pub mod former;
mod joining;
mod listener;
mod marks;
mod round_marks;
pub mod theorems;
mod through;

pub use allowed::Ran;
pub use areas::lay;
pub use closing::Closing;
pub use delta::Delta;
pub use listener::{NoListener, RoundListener};
pub use marks::Marks;
pub use round_marks::{MarksToCome, RoundMarks};
