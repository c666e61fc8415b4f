// The edges that role facts make between individuals, in one list that is sorted by the individual that they lead away from.
#![tactic(auto)]

ghost use Rattle.std.specs.Prelude.{◌≡◌, ◌<◌};
ghost use Rattle.kinds.specs.Kinds.{most_roles};
ghost use Rattle.edges.specs.Edges.{along, back_along};

mod ends;
mod list;
mod packed;
pub mod theorems;
mod visits;

use kinds::{Individual, SignedRole};
pub use list::FactEdges;
pub use packed::PackedEdge;
use tables::RoleFact;
pub use visits::EdgesOf;

/// One role fact seen from one of its two ends: the signed role that leads away from that end, and the other end.
#[derive(Clone, Copy)]
pub struct FactEdge {
    pub role: SignedRole,
    pub to: Individual,
}

impl FactEdge {
    // The fact seen from its first individual.
    fn along(fact: RoleFact) -> FactEdge
        requires { fact.role.0 < most_roles }
        ensures { result ≡ along fact }
    {
        FactEdge {
            role: fact.role.forward(),
            to: fact.second,
        }
    }

    // The fact seen from its second individual.
    fn back_along(fact: RoleFact) -> FactEdge
        requires { fact.role.0 < most_roles }
        ensures { result ≡ back_along fact }
    {
        FactEdge {
            role: fact.role.backward(),
            to: fact.first,
        }
    }
}

/// The most role facts that a table may have.
pub const ROLE_FACTS: usize = tables::collection::ROLE_FACTS;

/// The most edges that they can make: one from each end of each fact.
pub const MOST_FACT_EDGES: usize = 2 * ROLE_FACTS;
