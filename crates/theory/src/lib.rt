// The theory of the loop sheet over any rules' kind: paths in the tree grown from a concept, the sheet
// round by round, how many rounds and marks there are, the list of its marks, growth, and where a path
// leaves for good.
// The functions have nothing to do: each clause is a law, and a law for a type that names any kind is
// one of every kind.
#![tactic(auto)]

pub mod growth;
pub mod leaving;
pub mod listing;
pub mod sheet;
