// The direction of a walk.

use sets::{Relation, StateSet, image, preimage};

/// Whether a walk goes along strides, or against them.
#[derive(Clone, Copy)]
pub enum Direction {
    Forward,
    Backward,
}

impl Direction {
    ghost use Rattle.sets.specs.Relations.{IsImage};
    ghost use Rattle.walk.specs.Directions.{Led};

    /// The states next to those of a set.
    pub fn led(self, relation: &Relation, from: StateSet) -> StateSet
        ensures { IsImage (Led self relation.now) from.0 result.0 }
    {
        match self {
            Direction::Forward => image(relation, from),
            Direction::Backward => preimage(relation, from),
        }
    }
}
