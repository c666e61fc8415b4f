// What is asked for, and whether a walk found it.

ghost use Rattle.std.specs.Prelude.{◌≡◌, ◌↔◌, IsTrue};
ghost use Rattle.walk.specs.Asks.{PairHit, FromHit};
ghost use Rattle.walk.specs.Finals.{AreFinals};

use crate::Sets;
use crate::accepting::Accepting;
use crate::coreachable::PathsBelow;
use kinds::{Ask, Individual, State};
use sets::{ConceptSet, StateSet};
use tables::Table;

/// Where paths begin; and where they may end: of a pair in the final states, of one named end in the accepting states of any individual.
#[derive(Clone, Copy)]
pub struct Question<'q> {
    pub start: State,
    pub finals: StateSet,
    pub accepting: &'q Accepting,
}

// The states of a table of finals.
pub(crate) fn final_states(finals: Table<State>) -> StateSet
    ensures { AreFinals finals.entry.numbers.now result.0 }
{
    let mut set = StateSet::EMPTY;
    for state in finals.iter() {
        set.insert(state);
    }
    set
}

// The individual was reached in a final state.
fn is_in_final(reached: &Sets, finals: StateSet, second: Individual) -> bool
    ensures { IsTrue result ↔ PairHit reached.now finals.0 second.0 }
{
    if second.0 >= Individual::MOST {
        return false;
    }
    reached[second.0 as usize].intersects(finals)
}

// Some individual was reached in one of its accepting states.
fn is_out(reached: &Sets, accepting: &Accepting) -> bool
    ensures { IsTrue result ↔ FromHit reached.now accepting.now.rows }
{
    for a in 0..Individual::NUMBERS {
        if reached[a].intersects(accepting.rows[a]) {
            return true;
        }
    }
    false
}

impl<'q> Question<'q> {
    ghost use Rattle.walk.specs.Asks.{Hit};
    ghost use Rattle.walk.specs.Accepting.{AreAccepting};

    /// Paths begin in the start state, and end as the tables of paths below individuals say. Accepting states are made of what each individual has.
    pub fn new(
        start: State,
        paths: &PathsBelow,
        individuals: &[ConceptSet; Individual::NUMBERS],
        accepting: &'q mut Accepting,
    ) -> Question<'q>
        ensures start { result.start ≡ start }
        ensures finals { result.finals ≡ paths.now.finals }
        ensures accepting { AreAccepting individuals.now paths.now result.accepting.now.rows }
    {
        accepting.fill(individuals, paths);
        Question {
            start,
            finals: paths.finals,
            accepting,
        }
    }

    /// Whether what the walk from the ask's first individual reached makes its answer yes.
    pub(crate) fn is_hit(self, reached: &Sets, ask: Ask) -> bool
        ensures { IsTrue result ↔ Hit reached.now self.entry ask }
    {
        match ask {
            Ask::Pair(_, second) => is_in_final(reached, self.finals, second),
            Ask::From(_) => is_out(reached, self.accepting),
        }
    }
}
