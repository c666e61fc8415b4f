// The individuals' walk over the closed sheet: where it leads from one individual, and the answers to many asks.
#![tactic(auto)]

mod accepting;
mod answering;
mod asking;
mod asks;
mod batch;
mod components;
mod coreachable;
mod directed;
mod direction;
mod hints;
mod images;
mod known;
mod loops;
mod multi;
mod order;
mod question;
mod strides;
pub mod theorems;
mod walk;

pub use accepting::Accepting;
pub use batch::{Answers, BATCH};
pub use coreachable::PathsBelow;
use kinds::Individual;
pub use loops::Loops;
pub use question::Question;
use sets::StateSet;
pub use strides::{Strides, roles_of};

/// A set of states for each individual.
pub type Sets = [StateSet; Individual::NUMBERS];
