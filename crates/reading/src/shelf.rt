// A fixed table of records, filled from its front: nothing is allocated.
ghost use Rattle.std.specs.Prelude.{◌≡◌, ◌+◌, ◌*◌, ◌/◌, ◌^◌, ◌<◌, ◌≤◌, ◌↔◌, ◌++◌, [], IsTrue, length, take};
ghost use Rattle.meaning.specs.Lent.{Whole};
ghost use Rattle.sorted.specs.Rows.{rows, HasPlace, AreTidied, IsTidied};
ghost use Rattle.reading.specs.Records.{kept_records};

use crate::retain::keep_first;
use sorted::tidy;
use std::marker::{Model, PhantomData};
use tables::{Record, Table};

// Records of one kind, of W numbers each, with room for N of them. Callers see the list of all their numbers, in the order
// in which the records came.
#[derive(Drop)]
pub struct Shelf<R, const W: usize, const N: usize> {
    records: [[u16; W]; N],
    used: usize,
    of: PhantomData<R>,
}

impl<R, const W: usize, const N: usize> Model for Shelf<R, W, N> {
    ghost use Rattle.std.specs.Prelude.{ℕ, List, take};
    ghost use Rattle.sorted.specs.Rows.{flat};
    ghost use Rattle.reading.specs.Shelves.{HoldsRecords};

    ghost Value = { List ℕ };

    ghost view = { λ s. flat (take s.used s.records) };

    ghost invariant = { λ s. HoldsRecords W N s.used s.records };
}

// The whole records of a table are copied to the front of others; how many they are.
fn copy_front<const W: usize>(records: &mut [[u16; W]], table: &[u16]) -> usize
    requires wide { 0 < W }
    requires few { length table.now / W ≤ length records.old }
    ensures within { result ≤ length records.old }
    ensures length { length records.new ≡ length records.old }
    ensures front { take result records.new ≡ rows W table.now }
{
    let (whole, _) = table.as_chunks::<W>();
    records[..whole.len()].copy_from_slice(whole);
    whole.len()
}

// The first so many records are put in order, each once, at the front; how many they are then.
fn tidy_front<const W: usize>(records: &mut [[u16; W]], used: usize) -> usize
    requires narrow { W < 2 ^ 16 }
    requires within { used ≤ length records.old }
    ensures within { result ≤ used }
    ensures length { length records.new ≡ length records.old }
    ensures tidied { AreTidied (take used records.old) (take result records.new) }
{
    tidy(&mut records[..used])
}

impl<R: Record, const W: usize, const N: usize> Shelf<R, W, N> {
    pub(crate) fn new() -> Shelf<R, W, N>
        requires { HasPlace W N }
        ensures { result ≡ [] }
    {
        Shelf {
            records: [[0; W]; N],
            used: 0,
            of: PhantomData,
        }
    }

    pub(crate) fn is_empty(&self) -> bool
        ensures { IsTrue result ↔ (self.now ≡ []) }
    {
        self.used == 0
    }

    // Whether one more record goes in.
    pub(crate) fn has_room(&self) -> bool
        ensures { IsTrue result ↔ (length self.now + W ≤ W * N) }
    {
        self.used < N
    }

    // A record more.
    #[inline(always)]
    pub(crate) fn push(&mut self, numbers: [u16; W])
        requires { length self.old + W ≤ W * N }
        ensures { self.new ≡ self.old ++ numbers.entry }
    {
        self.records[self.used] = numbers;
        self.used += 1;
    }

    // The records of a table, in place of those that were held.
    pub(crate) fn replace(&mut self, numbers: &[u16])
        requires { Whole W N numbers.now }
        ensures { self.new ≡ numbers.now }
    {
        self.used = copy_front(&mut self.records, numbers);
    }

    // The records in order, each once.
    pub(crate) fn tidy(&mut self)
        ensures { IsTidied W self.old self.new }
    {
        self.used = tidy_front(&mut self.records, self.used);
    }

    // The records that are marked stay, with those beyond the marks.
    pub(crate) fn keep_marked(&mut self, marks: &[bool])
        ensures { self.new ≡ kept_records W self.old marks.now }
    {
        self.used = keep_first(&mut self.records, self.used, marks);
    }

    pub fn table(&self) -> Table<'_, R>
        ensures { result.numbers.now ≡ self.now }
    {
        let all = &self.records[..];
        Table::new(all[..self.used].as_flattened())
    }
}
