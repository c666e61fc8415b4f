// The sheet while it is closed, one round at a time.

ghost use Rattle.std.specs.Prelude.{◌<◌};
ghost use Rattle.kinds.specs.Kinds.{most_states};
ghost use Rattle.rules.specs.Rows.{Gets};
ghost use Rattle.sheet.specs.Pairs.{HasSources, Blank, ByState, RowAt};
ghost use Rattle.sheet.specs.Finds.{RowsFrom, AllRows, EachRow, Own, IsTurn, FirstTurn};

use crate::delta::Delta;
use crate::joining::joins;
use crate::marks::Marks;
use crate::round_marks::RoundMarks;
use crate::through::{Loops, through_children};
use kinds::State;
use rules::Rows;
use sets::{Sheet, StateSet};

/// The sheet after some rounds, and what one more round adds to it.
#[derive(Clone, Copy)]
pub struct Closing {
    pub sheet: Marks,

    /// The marks that one more round adds.
    pub delta: Delta,

    // The marks that a round has found, before they are filtered: between the rounds there are none.
    candidates: Marks,

    ghost blank: { Blank candidates.rows },
}

impl Closing {
    ghost use Rattle.std.specs.Prelude.{ℕ, ◌≡◌, ◌+◌, ◌↔◌, IsTrue};
    ghost use Rattle.theory.specs.Sheet.{Unchanged};
    ghost use Rattle.rules.specs.Rows.{kind_of};
    ghost use Rattle.rules.specs.declared.rows.Rows.{Rows as TheRows};
    ghost use Rattle.sheet.specs.Sheets.{IsRound};
    ghost use Rattle.sheet.specs.Telling.{ToldIn};

    /// A sheet with no mark, before any round.
    pub fn new() -> Closing
        ensures sheet { Blank result.sheet.rows }
        ensures delta { Blank result.delta.marks.rows }
    {
        Closing {
            sheet: Marks::none(),
            delta: Delta::none(),
            candidates: Marks::none(),
        }
    }

    // The sheet of round 0, whatever stood here.
    pub(crate) fn start(&mut self, loops: &mut Loops, rows: &Rows)
        ensures { IsRound rows.now 0 self.new }
    {
        begin(
            &mut self.sheet,
            &mut self.delta,
            &mut self.candidates,
            loops,
            rows,
        );
    }

    // One round.
    pub(crate) fn advance(&mut self, loops: &mut Loops, rows: &Rows)
        ensures { (n : ℕ) → IsRound rows.now n self.old → IsRound rows.now (n + 1) self.new }
    {
        round(
            &mut self.sheet,
            &mut self.delta,
            &mut self.candidates,
            loops,
            rows,
        );
    }

    // The marks of the sheet, to be told while it is that of round 0. They are counted here, since nobody counted them.
    pub(crate) fn own(&self) -> RoundMarks<'_>
        ensures { (rows : TheRows) → IsRound rows 0 self.now → ToldIn rows 0 result }
    {
        RoundMarks::new(&self.sheet, self.sheet.count())
    }

    // The marks that one more round adds, to be told of that round.
    pub(crate) fn added(&self) -> RoundMarks<'_>
        ensures { (rows : TheRows) (n : ℕ) → IsRound rows n self.now → ToldIn rows (n + 1) result }
    {
        RoundMarks::new(&self.delta.marks, self.delta.many)
    }

    // Whether one more round adds nothing.
    pub(crate) fn is_closed(&self) -> bool
        ensures { (rows : TheRows) (n : ℕ) → IsRound rows n self.now
            → IsTrue result ↔ Unchanged (kind_of rows) n }
    {
        self.delta.many == 0
    }
}

// ---- a round

// The delta's rows from s are added to the sheet.
fn add_from(sheet: &mut Marks, delta: &Marks, s: usize)
    requires { s < most_states }
    ensures { Gets (RowsFrom delta.now s) sheet.old.rows sheet.new.rows }
{
    for t in delta.pairs[s].iter() {
        let row = delta.rows[State::NUMBERS * s + t.0 as usize];
        sheet.put(s, t, row);
    }
}

// The delta's marks are added to the sheet.
fn add(sheet: &mut Marks, delta: &Marks, from: StateSet)
    requires { HasSources from.0 delta.now.pairs }
    ensures { Gets (AllRows delta.now) sheet.old.rows sheet.new.rows }
{
    for s in from.iter() {
        add_from(sheet, delta, s.0 as usize);
    }
}

// The delta is added to the sheet, and is then what one more round adds. There is no candidate
// before and after.
fn round(
    sheet: &mut Marks,
    delta: &mut Delta,
    candidates: &mut Marks,
    loops: &mut Loops,
    rows: &Rows,
)
    requires { Blank candidates.old.rows }
    ensures round { IsTurn rows.now sheet.old.rows delta.old.marks sheet.new delta.new.marks.rows }
    ensures candidates { Blank candidates.new.rows }
{
    let from = delta.marks.sources();
    add(sheet, &delta.marks, from);
    joins(candidates, &delta.marks, sheet, from);
    through_children(candidates, loops, &delta.marks, rows, from);
    delta.refill(candidates, sheet, rows);
}

// ---- round 0

// Each declared state is marked to itself, at every valid concept.
fn put_own(sheet: &mut Marks, rows: &Rows)
    ensures { Gets (ByState (Own rows.now)) sheet.old.rows sheet.new.rows }
{
    for s in 0..State::NUMBERS {
        let own = rows.markable(State(s as u16), State(s as u16));
        sheet.put_some(s, State(s as u16), own);
    }
}

// The rows of s are put.
fn put_rows_from(candidates: &mut Marks, rows: &Sheet, s: usize)
    requires { s < most_states }
    ensures { Gets (ByState (RowAt rows.now s)) candidates.old.rows candidates.new.rows }
{
    for t in 0..State::NUMBERS {
        candidates.put_some(s, State(t as u16), rows[State::NUMBERS * s + t]);
    }
}

// All rows are put, since nothing tells which of them have marks.
fn put_rows(candidates: &mut Marks, rows: &Sheet)
    ensures { Gets (EachRow rows.now) candidates.old.rows candidates.new.rows }
{
    for s in 0..State::NUMBERS {
        put_rows_from(candidates, rows, s);
    }
}

// All marks of round 0 are new, and round 1 adds the tests and what uses these marks.
fn begin(
    sheet: &mut Marks,
    delta: &mut Delta,
    candidates: &mut Marks,
    loops: &mut Loops,
    rows: &Rows,
)
    requires { Blank candidates.old.rows }
    ensures first { FirstTurn rows.now sheet.new delta.new.marks.rows }
    ensures candidates { Blank candidates.new.rows }
{
    sheet.clear();
    put_own(sheet, rows);
    put_rows(candidates, &rows.tests);
    let from = sheet.sources();
    joins(candidates, sheet, sheet, from);
    through_children(candidates, loops, sheet, rows, from);
    delta.refill(candidates, sheet, rows);
}
