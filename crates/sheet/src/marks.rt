// Marks, with the pairs of states that may have any: a round passes over all others.

ghost use Rattle.std.specs.Prelude.{◌≡◌, ◌*◌, ◌<◌, ◌≤◌};
ghost use Rattle.kinds.specs.Kinds.{most_states};
ghost use Rattle.sets.specs.Bits.{Has};
ghost use Rattle.sets.specs.Relations.{pair};
ghost use Rattle.rules.specs.Rows.{most_concepts, Gets};
ghost use Rattle.sheet.specs.Pairs.{Paired, HasSources, Blank, By, Put, PutTo, AnyOf, IsPair, AnyPair, Drops, total, total_from};

use kinds::{MarkCount, State};
use sets::{ConceptSet, Relation, Sheet, StateSet, starts_of};

/// Marks by pairs of states.
#[derive(Clone, Copy)]
pub struct Marks {
    /// For each pair of states the concepts at which it is marked.
    pub rows: Sheet,

    /// For each state the states to which it may have a mark. To any other it has none.
    pub pairs: Relation,

    ghost paired: { Paired rows pairs },
}

impl Marks {
    // There is no mark, and no pair to look at.
    pub(crate) fn none() -> Marks
        ensures { Blank result.rows }
    {
        Marks {
            rows: [ConceptSet::EMPTY; State::PAIRS],
            pairs: [StateSet::EMPTY; State::NUMBERS],
        }
    }

    // The concepts of a row are added to those of (s, t).
    pub(crate) fn put(&mut self, s: usize, t: State, row: ConceptSet)
        requires from { s < most_states }
        requires to { t.0 < most_states }
        ensures { Gets (Put (pair s t.0) row.0) self.old.rows self.new.rows }
    {
        put_row(&mut self.rows, &mut self.pairs, s, t, row);
    }

    // The concepts of a row that is often empty are added to those of (s, t). An empty row makes (s, t) no pair to look at.
    pub(crate) fn put_some(&mut self, s: usize, t: State, row: ConceptSet)
        requires from { s < most_states }
        requires to { t.0 < most_states }
        ensures { Gets (Put (pair s t.0) row.0) self.old.rows self.new.rows }
    {
        if row.is_empty() {
            return;
        }
        self.put(s, t, row);
    }

    // The concepts of a row are added to those of (s, t) for each t of a set.
    pub(crate) fn put_each(&mut self, s: usize, to: StateSet, row: ConceptSet)
        requires { s < most_states }
        ensures { Gets (By (Has to.0) (PutTo row.0 s)) self.old.rows self.new.rows }
    {
        put_all(&mut self.rows, &mut self.pairs, s, to, row);
    }

    // The states from which there may be a mark: a loop over few marks passes over all others.
    pub(crate) fn sources(&self) -> StateSet
        ensures { HasSources result.0 self.now.pairs }
    {
        starts_of(&self.pairs)
    }

    // No mark is left.
    pub(crate) fn clear(&mut self)
        ensures { Blank self.new.rows }
    {
        clear_marks(&mut self.rows, &mut self.pairs);
    }

    // The number of marks from s.
    fn count_from(&self, s: usize) -> MarkCount
        requires { s < most_states }
        ensures count { result ≡ total_from self.now.rows s most_states }
        ensures small { result ≤ most_states * most_concepts }
    {
        let mut n = 0;
        for t in self.pairs[s].iter() {
            n += self.rows[State::NUMBERS * s + t.0 as usize].len() as MarkCount;
        }
        n
    }

    // The number of all marks.
    pub(crate) fn count(&self) -> MarkCount
        ensures { result ≡ total self.now.rows most_states }
    {
        let mut n = 0;
        for s in 0..State::NUMBERS {
            n += self.count_from(s);
        }
        n
    }
}

// One call writes rows and pairs, since they fit each other only when both are written.
fn put_row(rows: &mut Sheet, pairs: &mut Relation, s: usize, t: State, row: ConceptSet)
    requires from { s < most_states }
    requires to { t.0 < most_states }
    requires paired { Paired rows.old pairs.old }
    ensures put { Gets (Put (pair s t.0) row.0) rows.old rows.new }
    ensures paired { Paired rows.new pairs.new }
{
    pairs[s].insert(t);
    let q = State::NUMBERS * s + t.0 as usize;
    rows[q] = rows[q].union(row);
}

// A row is added at (s, t) for each t of a set. The pairs are told by the caller.
fn put_to(rows: &mut Sheet, s: usize, to: StateSet, row: ConceptSet)
    requires { s < most_states }
    ensures { Gets (By (Has to.0) (PutTo row.0 s)) rows.old rows.new }
{
    for t in to.iter() {
        let q = State::NUMBERS * s + t.0 as usize;
        rows[q] = rows[q].union(row);
    }
}

// The pairs are told at once, and not with each row.
fn put_all(rows: &mut Sheet, pairs: &mut Relation, s: usize, to: StateSet, row: ConceptSet)
    requires from { s < most_states }
    requires paired { Paired rows.old pairs.old }
    ensures put { Gets (By (Has to.0) (PutTo row.0 s)) rows.old rows.new }
    ensures paired { Paired rows.new pairs.new }
{
    pairs[s] = pairs[s].union(to);
    put_to(rows, s, to, row);
}

// The rows of (s, t) lose their marks, for each t of a set.
fn clear_from(rows: &mut Sheet, s: usize, to: StateSet)
    requires { s < most_states }
    ensures { Drops (AnyOf (Has to.0) (IsPair s)) rows.old rows.new }
{
    for t in to.iter() {
        rows[State::NUMBERS * s + t.0 as usize] = ConceptSet::EMPTY;
    }
}

// The pairs tell where a mark may be.
fn clear_rows(rows: &mut Sheet, pairs: &Relation)
    ensures { Drops (AnyPair pairs.now) rows.old rows.new }
{
    let from = starts_of(pairs);
    for s in from.iter() {
        clear_from(rows, s.0 as usize, pairs[s.0 as usize]);
    }
}

fn clear_marks(rows: &mut Sheet, pairs: &mut Relation)
    requires { Paired rows.old pairs.old }
    ensures rows { Blank rows.new }
    ensures paired { Paired rows.new pairs.new }
{
    clear_rows(rows, pairs);
    *pairs = [StateSet::EMPTY; State::NUMBERS];
}
