// Memory for the tables that walks go by, and the filled tables.

ghost use Rattle.std.specs.Prelude.{◌≡◌};
ghost use Rattle.std.specs.List.{All};
ghost use Rattle.sets.specs.Rows.{no_states};
ghost use Rattle.edges.specs.declared.packed.PackedEdge.{PackedEdge as TheEdge};
ghost use Rattle.walk.specs.Covers.{Covers};

use edges::{FactEdges, MOST_FACT_EDGES, PackedEdge};
use kinds::{SignedRole, State};
use sets::{StateSet, Transitions};
use walk::{Accepting, Loops, Question, Strides};

// Memory for the tables that walks go by. It is lent to a preparation, which fills it.
#[derive(Drop)]
pub struct Routes {
    pub(crate) list: [PackedEdge; MOST_FACT_EDGES],
    pub(crate) loops: Loops,
    pub(crate) transitions: Transitions,
    pub(crate) accepting: Accepting,
}

impl Routes {
    // Nothing stands in any table yet.
    pub fn new() -> Routes
        ensures list { All (λ (edge : TheEdge). edge.0 ≡ 0) result.list }
        ensures loops { All (All (λ states. states ≡ no_states)) result.loops.rows }
        ensures transitions { All (All (λ states. states ≡ no_states)) result.transitions }
        ensures accepting { All (λ states. states ≡ no_states) result.accepting.rows }
    {
        Routes {
            list: [PackedEdge::BLANK; MOST_FACT_EDGES],
            loops: Loops::NONE,
            transitions: [[StateSet::EMPTY; State::NUMBERS]; SignedRole::NUMBERS],
            accepting: Accepting::NONE,
        }
    }
}

// The filled tables that walks go by, and where they begin and may end. Each role that has a transition has its edges listed.
#[derive(Clone, Copy)]
pub struct Paths<'r> {
    pub loops: &'r Loops,
    pub transitions: &'r Transitions,
    pub edges: FactEdges<'r>,
    pub question: Question<'r>,
    ghost covers: { Covers transitions.now edges.roles.0 },
}

impl<'r> Paths<'r> {
    pub(crate) fn strides(&self) -> Strides<'_, 'r>
        ensures loops { result.loops ≡ self.now.loops }
        ensures transitions { result.transitions ≡ self.now.transitions }
        ensures edges { result.edges.now ≡ self.now.edges }
    {
        Strides {
            loops: self.loops,
            transitions: self.transitions,
            edges: &self.edges,
        }
    }
}
