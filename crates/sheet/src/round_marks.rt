// The marks of a round, as a listener is told them.

ghost use Rattle.std.specs.Prelude.{◌≡◌, length, map, IfSome};
ghost use Rattle.kinds.specs.Kinds.{most_states, number_of, concept_of};
ghost use Rattle.sets.specs.Bits.{Takes};
ghost use Rattle.rules.specs.Rows.{most_concepts};
ghost use Rattle.sheet.specs.Pairs.{total};

use crate::marks::Marks;
use kinds::{Concept, MarkCount, State};
use sets::{ConceptSet, StateSet};
use std::marker::Model;

/// The marks of a round. Contracts see them as the list of them, rising by the first state, then the second, then the concept.
#[derive(Drop)]
pub struct RoundMarks<'a> {
    marks: &'a Marks,
    many: MarkCount,
}

impl<'a> Model for RoundMarks<'a> {
    ghost use Rattle.std.specs.Prelude.{◌≡◌, List, map};
    ghost use Rattle.kinds.specs.Kinds.{most_states};
    ghost use Rattle.kinds.specs.declared.State.{State};
    ghost use Rattle.kinds.specs.declared.Concept.{Concept};
    ghost use Rattle.sheet.specs.Pairs.{total};
    ghost use Rattle.sheet.specs.Listed.{mark_of, marks_in};

    ghost Value = { List (State × State × Concept) };

    ghost view = { λ m. map mark_of (marks_in m.marks.now.rows) };

    ghost invariant = { λ m. m.many ≡ total m.marks.now.rows most_states };
}

impl<'a> RoundMarks<'a> {
    ghost use Rattle.sheet.specs.Listed.{mark_of, marks_in};

    // All of these marks, and how many they are.
    pub(crate) fn new(marks: &'a Marks, many: MarkCount) -> RoundMarks<'a>
        requires { many ≡ total marks.now.rows most_states }
        ensures { result ≡ map mark_of (marks_in marks.now.rows) }
    {
        RoundMarks { marks, many }
    }

    /// How many they are.
    pub fn count(&self) -> MarkCount
        ensures { result ≡ length self.now }
    {
        self.many
    }

    /// The marks, in the order of the list.
    pub fn iter(&self) -> MarksToCome<'a>
        ensures { result ≡ self.now }
    {
        MarksToCome {
            marks: self.marks,
            from: self.marks.sources(),
            first: State(0),
            to: StateSet::EMPTY,
            second: State(0),
            row: ConceptSet::EMPTY,
        }
    }
}

/// The marks that are still to come. Only pairs of states that may have a mark are looked at.
#[derive(Drop)]
pub struct MarksToCome<'a> {
    marks: &'a Marks,

    // The states of which all marks are to come.
    from: StateSet,

    // The state whose marks come now, and the states to which all of them are to come.
    first: State,
    to: StateSet,

    // The state to which they come now, and the concepts of those to come.
    second: State,
    row: ConceptSet,
}

impl<'a> Model for MarksToCome<'a> {
    ghost use Rattle.std.specs.Prelude.{List, map, ◌<◌};
    ghost use Rattle.kinds.specs.Kinds.{most_states};
    ghost use Rattle.kinds.specs.declared.State.{State};
    ghost use Rattle.kinds.specs.declared.Concept.{Concept};

    ghost Value = { List (State × State × Concept) };

    ghost use Rattle.sheet.specs.Listed.{mark_of};
    ghost use Rattle.sheet.specs.ToCome.{to_come};

    ghost view = { λ i. map mark_of (to_come i) };

    ghost invariant = { λ i. i.first.0 < most_states };
}

// The first concept of a row, which leaves the row. A set tells a concept by its number alone.
fn pop_first(row: &mut ConceptSet) -> Option<Concept>
    ensures first { Takes most_concepts number_of row.old.0 result row.new.0 }
    ensures read { IfSome result (λ concept. concept ≡ concept_of (number_of concept)) }
{
    let first = row.pop_first()?;
    Some(Concept::read(first.number() as u16))
}

impl Iterator for MarksToCome<'_> {
    type Item = (State, State, Concept);

    ghost use Rattle.std.specs.Iterator.{YieldsFirst, item_count};

    ghost next_gives = { YieldsFirst (λ marks. marks) };

    ghost remaining = { item_count (λ marks. marks) };

    fn next(&mut self) -> Option<(State, State, Concept)> {
        loop {
            if let Some(concept) = pop_first(&mut self.row) {
                return Some((self.first, self.second, concept));
            }
            if let Some(second) = self.to.pop_first() {
                self.second = second;
                self.row = self.marks.rows[State::NUMBERS * self.first.0 as usize
                    + second.0 as usize];
                continue;
            }
            let Some(first) = self.from.pop_first() else {
                return None;
            };
            self.first = first;
            self.to = self.marks.pairs[first.0 as usize];
        }
    }
}
