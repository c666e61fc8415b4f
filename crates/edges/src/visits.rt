// The edges of one individual.

ghost use Rattle.std.specs.Prelude.{◌≡◌, length, map};
ghost use Rattle.std.specs.Iterator.{at_most};
ghost use Rattle.edges.specs.Edges.{edges_at};
ghost use Rattle.edges.specs.Packed.{edge_of, AreInRange};
ghost use Rattle.edges.specs.Visits.{GivesNext};

use crate::list::FactEdges;
use crate::{FactEdge, PackedEdge};
use kinds::Individual;

/// The edges of an individual that are still to come.
#[derive(Clone, Copy)]
pub struct EdgesOf<'a> {
    pub rest: &'a [PackedEdge],
    ghost rows: { AreInRange rest.now },
}

impl<'a> FactEdges<'a> {
    /// The edges at an individual, each once, those of the last fact first; one that is out of range has none.
    pub fn of(&self, a: Individual) -> EdgesOf<'a>
        ensures { map edge_of result.rest.now
            ≡ edges_at self.now.facts.numbers.now self.now.roles.0 a.0 }
    {
        if a.0 >= Individual::MOST {
            return EdgesOf { rest: &[] };
        }
        let from = self.begins[a.0 as usize] as usize;
        let to = self.begins[a.0 as usize + 1] as usize;
        let lent = self.list;
        let list = &lent[..];
        EdgesOf {
            rest: &list[from..to],
        }
    }
}

impl<'a> Iterator for EdgesOf<'a> {
    type Item = FactEdge;

    ghost next_gives = { λ s r t. GivesNext (map edge_of s.rest.now) r (map edge_of t.rest.now) };

    ghost remaining = { λ s. at_most (length s.rest.now) };

    #[tactic(auto, using(crate::proofs::LeftLaws::in_range_after))]
    fn next(&mut self) -> Option<FactEdge> {
        let (first, rest) = self.rest.split_first()?;
        self.rest = rest;
        Some(first.edge())
    }
}
