// A lent table, read by record.
ghost use Rattle.std.specs.Prelude.{◌≡◌, ◌<◌, ◌-◌, ◌/◌, ◌↔◌, ℕ, length, IsTrue, SomeIff};
ghost use Rattle.meaning.specs.Lent.{Whole};
ghost use Rattle.std.specs.Iterator.{at_most};
ghost use Rattle.tables.specs.Every.{EachRecord, GivesNext};

use crate::records::Record;
use kinds::Counts;
use std::marker::PhantomData;

// A lent table of records of one kind: the numbers are the caller's, `R::WIDTH` to a record, and are tested before
// any use. A broken last record is never read.
#[derive(Clone, Copy)]
pub struct Table<'a, R> {
    pub numbers: &'a [u16],
    of: PhantomData<R>,
}

impl<'a, R: Record> Table<'a, R> {
    pub fn new(numbers: &'a [u16]) -> Table<'a, R>
        ensures { result.numbers ≡ numbers.entry }
    {
        Table {
            numbers,
            of: PhantomData,
        }
    }

    // How many whole records there are.
    pub fn len(&self) -> usize
        ensures { result ≡ length self.now.numbers.now / R.WIDTH }
    {
        self.numbers.len() / R::WIDTH
    }

    pub fn is_empty(&self) -> bool
        ensures { IsTrue result ↔ (length self.now.numbers.now / R.WIDTH ≡ 0) }
    {
        self.len() == 0
    }

    // Record k of those that are there.
    fn at(&self, k: usize) -> R
        requires { k < length self.now.numbers.now / R.WIDTH }
        ensures { result ≡ R.read self.now.numbers.now k }
    {
        R::read(self.numbers, k)
    }

    // Record k, each field as its kind.
    pub fn get(&self, k: usize) -> Option<R>
        ensures { let t = self.now.numbers.now in
            SomeIff result (k < length t / R.WIDTH) (R.read t k) }
    {
        if k < self.len() {
            Some(self.at(k))
        } else {
            None
        }
    }

    // The records in order.
    pub fn iter(&self) -> Records<'a, R>
        ensures numbers { result.table.numbers ≡ self.now.numbers }
        ensures first { result.next ≡ 0 }
    {
        Records {
            table: Table::new(self.numbers),
            next: 0,
        }
    }

    // There is no broken last record, and there are not too many.
    pub fn is_whole(&self, most: usize) -> bool
        ensures { IsTrue result ↔ Whole R.WIDTH most self.now.numbers.now }
    {
        self.numbers.len() % R::WIDTH == 0 && self.len() <= most
    }

    // Every number in every record is declared.
    pub fn all_declared(&self, counts: Counts) -> bool
        ensures { let t = self.now.numbers.now in
            IsTrue result ↔ EachRecord R.WIDTH R.read t (R.Declared counts) }
    {
        for record in self.iter() {
            if !record.declared(counts) {
                return false;
            }
        }
        true
    }
}

// The records of a table that are still to come.
#[derive(Clone, Copy)]
pub struct Records<'a, R> {
    pub table: Table<'a, R>,
    pub next: usize,
}

impl<'a, R: Record> Iterator for Records<'a, R> {
    type Item = R;

    ghost next_gives = { λ s r t. GivesNext R.WIDTH R.read s.table.numbers.now s.next r t.next
        × (t.table.numbers ≡ s.table.numbers) };

    ghost remaining = { λ s. at_most (length s.table.numbers.now / R.WIDTH - s.next) };

    fn next(&mut self) -> Option<R> {
        if self.next >= self.table.len() {
            return None;
        }
        let record = self.table.at(self.next);
        self.next += 1;
        Some(record)
    }
}
