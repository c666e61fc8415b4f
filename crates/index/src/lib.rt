// The library's public calls: one ask of a collection, a row of asks, or a collection prepared
// once that answers any number of them.
#![tactic(auto)]

mod call;
mod checked;
mod closed;
mod ground;
mod lent;
mod prepared;
mod routes;
mod row;
pub mod theorems;
mod work;

pub use checked::Checked;
pub use lent::Lent;
pub use prepared::Prepared;
pub use routes::Routes;
