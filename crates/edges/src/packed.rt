// An edge in 16 bits.

ghost use Rattle.std.specs.Prelude.{◌≡◌, ◌<◌};
ghost use Rattle.kinds.specs.Kinds.{most_individuals};
ghost use Rattle.sets.specs.Bits.{role_width};
ghost use Rattle.edges.specs.Packed.{edge_of};

use crate::FactEdge;
use kinds::{Individual, SignedRole};

/// An edge as a lent list holds it: 256 times its role, and the individual that it leads to.
#[derive(Clone, Copy)]
pub struct PackedEdge(pub u16);

// A packed edge is its role times this number, plus its individual. An individual has a smaller number, so that both are read back.
const RADIX: u16 = 256;

impl PackedEdge {
    /// For the places of a new list.
    pub const BLANK: PackedEdge = PackedEdge(0);

    pub(crate) fn pack(edge: FactEdge) -> PackedEdge
        requires role { edge.role.0 < role_width }
        requires to { edge.to.0 < most_individuals }
        ensures { edge_of result ≡ edge }
    {
        PackedEdge(RADIX * edge.role.0 + edge.to.0)
    }

    pub(crate) fn edge(self) -> FactEdge
        ensures { result ≡ edge_of self }
    {
        FactEdge {
            role: SignedRole(self.0 / RADIX),
            to: Individual(self.0 % RADIX),
        }
    }
}
