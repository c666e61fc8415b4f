// Where two marks meet, of which one is of the delta: they make a candidate.

ghost use Rattle.std.specs.Prelude.{◌<◌};
ghost use Rattle.kinds.specs.Kinds.{most_states};
ghost use Rattle.rules.specs.Rows.{Gets};
ghost use Rattle.sheet.specs.Pairs.{HasSources};
ghost use Rattle.sheet.specs.Finds.{Left, Lefts, Right, Rights, JoinedFrom, Joins};

use crate::marks::Marks;
use kinds::State;
use sets::{ConceptSet, StateSet, preimage};

// A row of (s, u), with each row of the sheet from u.
fn left(candidates: &mut Marks, sheet: &Marks, row: ConceptSet, s: usize, u: usize)
    requires from { s < most_states }
    requires to { u < most_states }
    ensures { Gets (Left sheet.now row.0 s u) candidates.old.rows candidates.new.rows }
{
    for t in sheet.pairs[u].iter() {
        let both = row.intersection(sheet.rows[State::NUMBERS * u + t.0 as usize]);
        candidates.put(s, t, both);
    }
}

// The delta's rows from s, each joined with the rows of the sheet that go on from it.
fn lefts(candidates: &mut Marks, delta: &Marks, sheet: &Marks, s: usize)
    requires { s < most_states }
    ensures { Gets (Lefts delta.now sheet.now s) candidates.old.rows candidates.new.rows }
{
    for u in delta.pairs[s].iter() {
        let row = delta.rows[State::NUMBERS * s + u.0 as usize];
        left(candidates, sheet, row, s, u.0 as usize);
    }
}

// The row of the sheet from r to s, with each of the delta's rows from s.
fn right(candidates: &mut Marks, delta: &Marks, sheet: &Marks, s: usize, r: usize)
    requires from { s < most_states }
    requires before { r < most_states }
    ensures { Gets (Right delta.now sheet.now s r) candidates.old.rows candidates.new.rows }
{
    let row = sheet.rows[State::NUMBERS * r + s];
    for u in delta.pairs[s].iter() {
        let both = row.intersection(delta.rows[State::NUMBERS * s + u.0 as usize]);
        candidates.put(r, u, both);
    }
}

// The delta's rows from s, each joined with the rows of the sheet that lead to s.
fn rights(candidates: &mut Marks, delta: &Marks, sheet: &Marks, s: usize)
    requires { s < most_states }
    ensures { Gets (Rights delta.now sheet.now s) candidates.old.rows candidates.new.rows }
{
    let before = preimage(&sheet.pairs, StateSet::only(State(s as u16)));
    for r in before.iter() {
        right(candidates, delta, sheet, s, r.0 as usize);
    }
}

// The delta's rows from s, joined on both sides.
fn join_from(candidates: &mut Marks, delta: &Marks, sheet: &Marks, s: usize)
    requires { s < most_states }
    ensures { Gets (JoinedFrom delta.now sheet.now s) candidates.old.rows candidates.new.rows }
{
    lefts(candidates, delta, sheet, s);
    rights(candidates, delta, sheet, s);
}

// All rows of the delta.
pub(crate) fn joins(candidates: &mut Marks, delta: &Marks, sheet: &Marks, from: StateSet)
    requires { HasSources from.0 delta.now.pairs }
    ensures { Gets (Joins delta.now sheet.now) candidates.old.rows candidates.new.rows }
{
    for s in from.iter() {
        join_from(candidates, delta, sheet, s.0 as usize);
    }
}
