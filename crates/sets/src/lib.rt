// Sets of basic concepts, of signed roles and of states, as the bits of a number, and relations between states as rows of sets.
#![tactic(auto, using(crate::proofs::Laws::laws))]

mod concepts;
mod relations;
mod roles;
mod states;
pub mod theorems;

pub use concepts::{ConceptSet, Concepts};
pub use relations::{
    Relation, Sheet, Transitions, image, nowhere, preimage, starts_of, successors,
};
pub use roles::{RoleSet, SignedRoles};
pub use states::{StateSet, States};
