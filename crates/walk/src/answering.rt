// What walks along strides tell: where they lead from an individual, and the answers to asks.

ghost use Rattle.std.specs.Prelude.{◌≡◌, ◌<◌, ◌≤◌, ◌↔◌, ℕ, IsTrue, None, slice_index_or};
ghost use Rattle.walk.specs.Walks.{WalkedBy};
ghost use Rattle.walk.specs.Batches.{batch_size, ask_of};
ghost use Rattle.walk.specs.Asks.{YesBy, IsAnswer};

use crate::Sets;
use crate::asking::Asking;
use crate::asks::answer_all;
use crate::batch::{Answers, BATCH, Batch};
use crate::directed::Directed;
use crate::question::Question;
use crate::strides::Strides;
use crate::walk::forward;
use kinds::{Ask, Individual, State};
use tables::Table;

impl<'s, 'a> Strides<'s, 'a> {
    ghost use Rattle.walk.specs.Walks.{WalkedBy};
    ghost use Rattle.walk.specs.Batches.{batch_size, ask_of};
    ghost use Rattle.walk.specs.Asks.{YesBy, IsAnswer};

    /// The states in which each individual is reached from the first one in the start state; none where either has no row.
    pub fn walk(&self, first: Individual, start: State) -> Sets
        ensures { WalkedBy self.now first start result }
    {
        let directed = Directed::forward(self.transitions);
        forward(self, &directed, first, start)
    }

    /// The answer to one ask, by a walk of its own.
    pub fn answer(&self, question: Question, ask: Ask) -> bool
        ensures { IsTrue result ↔ YesBy self.now question.entry ask }
    {
        let reached = self.walk(ask.first(), question.start);
        question.is_hit(&reached, ask)
    }

    /// The answers to a batch: the asks of a table from a place on, up to 256 of them. A longer row is answered batch by batch.
    pub fn answers(&self, question: Question, asks: Table<Ask>, from: usize) -> Answers
        ensures each { let t = asks.entry.numbers.now in
            (k : ℕ) → k < batch_size t from
            → IsAnswer self.now question.entry (ask_of t from k) (slice_index_or result k None) }
        ensures rest { let t = asks.entry.numbers.now in
            (k : ℕ) → batch_size t from ≤ k → slice_index_or result k None ≡ None }
    {
        let batch = Batch { asks, from };
        let directed = Directed::forward(self.transitions);
        let asking = Asking {
            strides: *self,
            forward: &directed,
            question,
            batch,
        };
        let mut answers = [None; BATCH];
        answer_all(&mut answers, &asking);
        answers
    }
}
