// A batch: the asks of a table that one call answers, which are those from a place on, up to the most.

ghost use Rattle.std.specs.Prelude.{◌≡◌, ◌+◌, ◌<◌, ◌≤◌, SomeIff};
ghost use Rattle.walk.specs.Batches.{size_of, ask_in};

use kinds::Ask;
use tables::Table;

/// The most asks that one call answers.
pub const BATCH: usize = 256;

/// For each ask of a batch its answer, none where there is no ask.
pub type Answers = [Option<bool>; BATCH];

/// The asks of a table from a place on.
#[derive(Clone, Copy)]
pub struct Batch<'q> {
    pub asks: Table<'q, Ask>,
    pub from: usize,
}

impl<'q> Batch<'q> {
    pub fn len(&self) -> usize
        ensures { result ≡ size_of self.now }
    {
        self.asks.len().saturating_sub(self.from).min(BATCH)
    }

    /// Ask j of the batch.
    pub fn get(&self, j: usize) -> Option<Ask>
        ensures { SomeIff result (j < size_of self.now) (ask_in self.now j) }
    {
        let end = self.asks.len();
        if j >= BATCH || self.from >= end || j >= end - self.from {
            return None;
        }
        self.asks.get(self.from + j)
    }
}
