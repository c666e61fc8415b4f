// An expression that is taken: its marks, and its automaton, which is worked out once, where its line is read.
ghost use Rattle.std.specs.Prelude.{◌↔◌, ◌≡◌, ◌≤◌, IsTrue, Ok, Err, IfOk, IfErr, OnOk};
ghost use Rattle.kinds.specs.Kinds.{most_states};
ghost use Rattle.expression.specs.Answer.{IsAutomatonOf};
ghost use Rattle.reading.specs.Refusal.{refusal_of_row};
ghost use Rattle.reading.specs.Turns.{IsShapedBy, RowJudged};

use crate::Refusal;
use expression::{Automaton, Refusal as Unread, automaton_of};
use frames::marks::Marks;
use kinds::Counts;
use std::marker::Model;

// Callers see the marks: a row of them has one automaton.
#[derive(Drop)]
pub struct Expression {
    marks: Marks,
    automaton: Automaton,
}

impl Model for Expression {
    ghost use Rattle.std.specs.Prelude.{ℕ, List};
    ghost use Rattle.expression.specs.Answer.{IsAutomatonOf};

    ghost Value = { List ℕ };

    ghost view = { λ e. e.marks };

    ghost invariant = { λ e. IsAutomatonOf e.marks e.automaton };
}

// An expression of more marks than states can be declared for is of another shape.
impl From<Unread> for Refusal {
    ghost from_gives = { λ u r. r ≡ refusal_of_row u };

    fn from(unread: Unread) -> Refusal {
        match unread {
            Unread::TooDeep => Refusal::TooDeep,
            Unread::NoExpression => Refusal::NoExpression,
            Unread::TooManyMarks(_) => Refusal::AnotherShape,
        }
    }
}

// 14: a state for each mark and one more are declared, and the start is 0.
fn shape_ok(automaton: &Automaton, counts: Counts) -> bool
    ensures { IsTrue result ↔ IsShapedBy counts automaton.now }
{
    counts.states as usize == automaton.states() && counts.start.0 == 0
}

impl Expression {
    // The expression of some marks; or 13, brackets too deep, 12, no expression, or 14.
    pub(crate) fn read(marks: Marks, counts: Counts) -> Result<Expression, Refusal>
        ensures taken { OnOk result (RowJudged counts marks (Ok tt)) }
        ensures refused { counts.states ≤ most_states
            → IfErr result (λ refusal. RowJudged counts marks (Err refusal)) }
        ensures marks { IfOk result (λ expression. expression ≡ marks) }
    {
        let automaton = automaton_of(marks.as_slice())?;
        if !shape_ok(&automaton, counts) {
            return Err(Refusal::AnotherShape);
        }
        Ok(Expression { marks, automaton })
    }

    pub(crate) fn automaton(&self) -> &Automaton
        ensures { IsAutomatonOf self.now result.now }
    {
        &self.automaton
    }
}
