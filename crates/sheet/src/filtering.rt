// Candidates are filtered: those that may be marked and are not in the sheet become the delta.

ghost use Rattle.std.specs.Prelude.{◌<◌};
ghost use Rattle.kinds.specs.Kinds.{most_states};
ghost use Rattle.sets.specs.Bits.{IsSetOf};
ghost use Rattle.rules.specs.Rows.{Gets};
ghost use Rattle.sheet.specs.Pairs.{ByState};
ghost use Rattle.sheet.specs.Finds.{NewAt, NewFrom, AreNew};

use crate::marks::Marks;
use kinds::State;
use rules::Rows;
use sets::ConceptSet;

// What is new at one pair of states.
fn new_row(candidates: &Marks, sheet: &Marks, rows: &Rows, s: usize, t: State) -> ConceptSet
    requires from { s < most_states }
    requires to { t.0 < most_states }
    ensures { IsSetOf (NewAt rows.now sheet.now.rows candidates.now.rows s t.0) result.0 }
{
    let q = State::NUMBERS * s + t.0 as usize;
    let absent = candidates.rows[q].minus(sheet.rows[q]);
    let may = rows.markable(State(s as u16), t);
    absent.intersection(may)
}

// The new marks from s are put.
fn put_new_from(delta: &mut Marks, candidates: &Marks, sheet: &Marks, rows: &Rows, s: usize)
    requires { s < most_states }
    ensures { Gets (NewFrom rows.now sheet.now.rows candidates.now s) delta.old.rows
        delta.new.rows }
{
    for t in candidates.pairs[s].iter() {
        let new = new_row(candidates, sheet, rows, s, t);
        delta.put_some(s, t, new);
    }
}

// The new marks from all states are put.
fn put_new(delta: &mut Marks, candidates: &Marks, sheet: &Marks, rows: &Rows)
    ensures { Gets (ByState (NewFrom rows.now sheet.now.rows candidates.now)) delta.old.rows
        delta.new.rows }
{
    let from = candidates.sources();
    for s in from.iter() {
        put_new_from(delta, candidates, sheet, rows, s.0 as usize);
    }
}

// The delta has the new marks, and none that it had before.
pub(crate) fn keep_new(delta: &mut Marks, candidates: &Marks, sheet: &Marks, rows: &Rows)
    ensures { AreNew rows.now sheet.now.rows candidates.now.rows delta.new.rows }
{
    delta.clear();
    put_new(delta, candidates, sheet, rows);
}
