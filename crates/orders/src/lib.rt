// The two orders of a collection, R ≤ S and C ≤ D, as rows of sets, from the tables of rules.
#![tactic(auto, using(sets::proofs::RowLaws::adds))]

mod concepts;
mod roles;
pub mod theorems;
mod transposed;

pub use concepts::{ConceptOrder, ConceptRelation, mark_pairs};
pub use roles::{RoleOrder, close_roles};
