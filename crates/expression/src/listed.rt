// The automaton of an expression: its steps and final states, listed in tables with room for the
// most that can be declared.

ghost use Rattle.std.specs.Prelude.{◌<◌, ◌≤◌, ◌+◌, ◌≡◌, ◌++◌, ◌↔◌, ℕ, IsTrue, IsOk, IfOk, take, map, flat_map, length, slice_set};
ghost use Rattle.kinds.specs.Kinds.{most_states, state};
ghost use Rattle.meaning.specs.Collection.{step};
ghost use Rattle.expression.specs.Marks.{mark_letter};
ghost use Rattle.expression.specs.Depth.{TooDeep};
ghost use Rattle.expression.specs.Listed.{Listed, step_numbers, final_number};
ghost use Rattle.expression.specs.Listing.{places_from, steps_below, finals_below};
ghost use Rattle.expression.specs.Answer.{IsNoExpression, HasTooManyMarks, IsAtMostOne, HasAutomaton, IsAutomatonOf, ReadsItsWords, AsksForIt};
ghost use Rattle.expression.specs.Fits.{FitsTables, NeedsMarks};
ghost use Rattle.expression.specs.Parts.{IsFinals};
ghost use Rattle.expression.specs.Answered.{Answered};

use crate::marks::{DEPTH, TESTS, is_too_deep};
use crate::parts::{Marks, Part, Rows, alone, when};
use crate::reader::Reader;
use kinds::State;
use sets::StateSet;
use std::marker::Model;
use tables::{Step, Table};

// The numbers of a table that has a step from each state to each.
const ROOM: usize = State::PAIRS * Step::WIDTH;

type Steps = [u16; ROOM];

type Finals = [u16; State::NUMBERS];

/// Why a row of marks has no automaton. Too many role and test marks come with their number.
#[derive(Clone, Copy, PartialEq, Eq)]
pub enum Refusal {
    TooDeep,
    NoExpression,
    TooManyMarks(usize),
}

/// The automaton of an expression, seen as how many states it has and what stands in its tables.
#[derive(Drop)]
pub struct Automaton {
    states: usize,
    steps: Steps,
    steps_used: usize,
    finals: Finals,
    finals_used: usize,
}

impl Model for Automaton {
    ghost use Rattle.std.specs.Prelude.{◌≤◌, ◌*◌, take};
    ghost use Rattle.kinds.specs.Kinds.{most_states};
    ghost use Rattle.meaning.specs.Lent.{step_width};
    ghost use Rattle.expression.specs.Listed.{Listed};
    ghost use Rattle.expression.specs.Listing.{places};

    ghost Value = { Listed };

    ghost view = { λ a. record {
      states = a.states;
      steps = take a.steps_used a.steps;
      finals = take a.finals_used a.finals;
    } };

    ghost invariant = { λ a. (a.steps_used ≤ step_width * places)
        × (a.finals_used ≤ most_states) };
}

// The numbers of a step that reads a mark.
fn numbers(from: u16, mark: u8, to: u16) -> [u16; Step::WIDTH]
    ensures { result ≡ step_numbers (step (state from) (mark_letter mark) (state to)) }
{
    let kind = if mark < TESTS { 0 } else { 1 };
    [kind, from, (mark % TESTS) as u16, to]
}

// A record more, after so many numbers.
fn put(steps: &mut Steps, used: usize, record_of: &[u16; Step::WIDTH])
    requires { used + Step.WIDTH ≤ ROOM }
    ensures { take (used + Step.WIDTH) steps.new ≡ take used steps.old ++ record_of.now }
{
    let all = &mut steps[..];
    all[used..used + Step::WIDTH].copy_from_slice(record_of);
}

// The steps from the first so many states, by the state left and then by the state entered: how many numbers there are.
fn list_steps(states: usize, rows: &Rows, letters: &Marks, steps: &mut Steps) -> usize
    requires { states ≤ most_states }
    ensures within { result ≤ ROOM }
    ensures listed { take result steps.new
        ≡ flat_map step_numbers (steps_below rows.now letters.now (places_from states)) }
{
    let mut used = 0;
    for place in 0..State::NUMBERS * states {
        let from = place / State::NUMBERS;
        let to = place % State::NUMBERS;
        if rows[from].contains(State(to as u16)) {
            let record_of = numbers(from as u16, letters[to], to as u16);
            put(steps, used, &record_of);
            used += Step::WIDTH;
        }
    }
    used
}

// The final states among the first so many, rising: how many there are.
fn list_finals(states: usize, set: StateSet, finals: &mut Finals) -> usize
    requires { states ≤ most_states }
    ensures within { result ≤ most_states }
    ensures listed { take result finals.new ≡ map final_number (finals_below set states) }
{
    let mut used = 0;
    for k in 0..states {
        if set.contains(State(k as u16)) {
            finals[used] = k as u16;
            used += 1;
        }
    }
    used
}

// The tables of what is known of so many states.
fn listed(states: usize, rows: &Rows, letters: &Marks, set: StateSet) -> Automaton
    requires { states ≤ most_states }
    ensures states { result.states ≡ states }
    ensures steps { result.steps
        ≡ flat_map step_numbers (steps_below rows.now letters.now (places_from states)) }
    ensures finals { result.finals ≡ map final_number (finals_below set states) }
{
    let mut steps = [0; ROOM];
    let mut finals = [0; State::NUMBERS];
    let steps_used = list_steps(states, rows, letters, &mut steps);
    let finals_used = list_finals(states, set, &mut finals);
    Automaton {
        states,
        steps,
        steps_used,
        finals,
        finals_used,
    }
}

// The start leads to what can be first.
fn start(rows: &mut Rows, first: StateSet)
    ensures long { length rows.old ≡ most_states }
    ensures start { rows.new ≡ slice_set rows.old 0 first }
{
    rows[0] = first;
}

// The states whose marks can be last, and the start where the empty word is allowed.
fn final_states(part: Part) -> StateSet
    ensures { IsFinals part result }
{
    part.last.union(when(part.empty, alone(0)))
}

// A state can be declared for each of so many role and test marks, and one for the start.
fn has_states(marks: usize) -> bool
    ensures { IsTrue result ↔ (marks < most_states) }
{
    marks < State::NUMBERS
}

// The one answer to a row, from which the clauses of `automaton_of` follow.
fn answered(marks: &[u8]) -> Result<Automaton, Refusal>
    ensures { Answered marks.now result }
{
    if is_too_deep(marks) {
        return Err(Refusal::TooDeep);
    }
    let mut reader = Reader {
        marks,
        at: 0,
        count: 0,
        rows: [StateSet::EMPTY; State::NUMBERS],
        letters: [0; State::NUMBERS],
    };
    let Ok(part) = reader.expression(DEPTH) else {
        return Err(Refusal::NoExpression);
    };
    if reader.at < marks.len() {
        return Err(Refusal::NoExpression);
    }
    if !has_states(reader.count) {
        return Err(Refusal::TooManyMarks(reader.count));
    }
    start(&mut reader.rows, part.first);
    Ok(listed(
        reader.count + 1,
        &reader.rows,
        &reader.letters,
        final_states(part),
    ))
}

/// The automaton of a row of marks, or why it has none: too deep comes before all else, and no
/// expression before too many marks.
pub fn automaton_of(marks: &[u8]) -> Result<Automaton, Refusal>
    ensures ok { IsOk result ↔ HasAutomaton marks.now }

    // Its tables are those of the row's expression, and ask for the words of it.
    ensures automaton { IfOk result (IsAutomatonOf marks.now) }
    ensures words { IfOk result (ReadsItsWords marks.now) }
    ensures asks { IfOk result (AsksForIt marks.now) }
    ensures one { IsAtMostOne marks.now }

    // They pass what a call asks of tables, where the row's marks are declared.
    ensures fits { IfOk result FitsTables }
    ensures declared { IfOk result (NeedsMarks marks.now) }

    // Each refusal exactly when it holds.
    ensures too_deep { (result ≡ Err Refusal.TooDeep) ↔ TooDeep marks.now }
    ensures no_expression { (result ≡ Err Refusal.NoExpression) ↔ IsNoExpression marks.now }
    ensures too_many_marks { (n : ℕ) →
        (result ≡ Err (Refusal.TooManyMarks n)) ↔ HasTooManyMarks marks.now n }
{
    answered(marks)
}

impl Automaton {
    pub fn states(&self) -> usize
        ensures { result ≡ self.now.states }
    {
        self.states
    }

    pub fn steps(&self) -> Table<'_, Step>
        ensures { result.numbers.now ≡ self.now.steps }
    {
        Table::new(&self.steps[..self.steps_used])
    }

    pub fn finals(&self) -> Table<'_, State>
        ensures { result.numbers.now ≡ self.now.finals }
    {
        Table::new(&self.finals[..self.finals_used])
    }
}
