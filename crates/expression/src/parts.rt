// What is known of a part of an expression, and how it is made of what is known of its parts.

ghost use Rattle.expression.specs.Parts.{IsAlone, IsWhen, Leads, Notes, IsJoined, IsEither, IsMany};

use kinds::State;
use sets::StateSet;

// Which states may come just after each.
pub(crate) type Rows = [StateSet; State::NUMBERS];

// The mark of each state.
pub(crate) type Marks = [u8; State::NUMBERS];

// Whether the empty word is allowed, and the marks that can be first and last.
#[derive(Clone, Copy)]
pub(crate) struct Part {
    pub(crate) empty: bool,
    pub(crate) first: StateSet,
    pub(crate) last: StateSet,
}

// The set of one state, where there is room for it.
pub(crate) fn alone(state: usize) -> StateSet
    ensures { IsAlone state result }
{
    if state < State::NUMBERS {
        StateSet::only(State(state as u16))
    } else {
        StateSet::EMPTY
    }
}

pub(crate) fn when(on: bool, set: StateSet) -> StateSet
    ensures { IsWhen on set result }
{
    if on { set } else { StateSet::EMPTY }
}

// Every state of one set leads to every one of another.
#[tactic(auto, using(crate::proofs::RowLaws::lead_end))]
fn lead(rows: &mut Rows, from: StateSet, to: StateSet)
    ensures { Leads rows.old from to rows.new }
{
    for j in 0..State::NUMBERS {
        if from.contains(State(j as u16)) {
            rows[j] = rows[j].union(to);
        }
    }
}

// The mark of a state, where there is room for it.
pub(crate) fn note(marks: &mut Marks, state: usize, mark: u8)
    ensures { Notes marks.old state mark marks.new }
{
    if state < State::NUMBERS {
        marks[state] = mark;
    }
}

// One after the other.
#[tactic(auto, using(crate::proofs::PartLaws::is_joined))]
pub(crate) fn joined(rows: &mut Rows, a: Part, b: Part) -> Part
    ensures { IsJoined a b rows.old rows.new result }
{
    lead(rows, a.last, b.first);
    Part {
        empty: a.empty & b.empty,
        first: a.first.union(when(a.empty, b.first)),
        last: when(b.empty, a.last).union(b.last),
    }
}

// One or the other.
#[tactic(auto, using(crate::proofs::PartLaws::is_either))]
pub(crate) fn either(a: Part, b: Part) -> Part
    ensures { IsEither a b result }
{
    Part {
        empty: a.empty | b.empty,
        first: a.first.union(b.first),
        last: a.last.union(b.last),
    }
}

// Any number of times.
#[tactic(auto, using(crate::proofs::PartLaws::is_many))]
pub(crate) fn many(rows: &mut Rows, a: Part) -> Part
    ensures { IsMany a rows.old rows.new result }
{
    lead(rows, a.last, a.first);
    Part {
        empty: true,
        first: a.first,
        last: a.last,
    }
}
