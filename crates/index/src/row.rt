// A row of asks of a collection, answered in one call.
ghost use Rattle.std.specs.Prelude.{◌↔◌, ◌+◌, IsTrue, length, min};
ghost use Rattle.tables.specs.Asks.{read_ask};
ghost use Rattle.index.specs.Preparation.{prepared_of, WhateverDeeds};
ghost use Rattle.index.specs.Row.{ask_count, AnswersEach, AllAlike, KeepsRest};
ghost use Rattle.index.specs.Row.{SomeDeclared, StandsAt, InTurn};

use crate::call::undeclared;
use crate::lent::Lent;
use crate::prepared::Prepared;
use crate::routes::Routes;
use kinds::{Answer, Ask, Counts};
use tables::{Record, Table};
use walk::BATCH;

// Some ask of the first n is declared.
fn any_declared(asks: &Table<Ask>, counts: Counts, n: usize) -> bool
    ensures { IsTrue result ↔ SomeDeclared counts asks.now.numbers.now n }
{
    for k in 0..n {
        let Some(ask) = asks.get(k) else {
            return false;
        };
        if ask.declared(counts) {
            return true;
        }
    }
    false
}

// Each ask that has an entry is answered alike.
fn answer_alike(asks: &Table<Ask>, answers: &mut [Answer], answer: Answer)
    ensures alike { AllAlike asks.now.numbers.now answer answers.new }
    ensures rest { KeepsRest asks.now.numbers.now answers.old answers.new }
{
    let n = answers.len().min(asks.len());
    answers[..n].fill(answer);
}

impl<'a> Prepared<'a> {
    ghost use Rattle.walk.specs.Batches.{most_batch};
    ghost use Rattle.index.specs.Row.{AnswersBetween};

    // The answers to the asks from one on, as many as are walked together.
    fn reply_part(&self, asks: &Table<Ask>, from: usize, answers: &mut [Answer])
        ensures { AnswersBetween self.now asks.now.numbers.now from (from + most_batch)
            answers.old answers.new }
    {
        let told = self.told(*asks, from);
        for k in from..answers.len().min(from.saturating_add(BATCH)) {
            let Some(ask) = asks.get(k) else {
                return;
            };
            answers[k] = self.reply_told(ask, told[k - from]);
        }
    }

    // The answer to each ask that has an entry, in order: one walk for each first individual.
    pub fn reply_all(&self, asks: &Table<Ask>, answers: &mut [Answer])
        ensures answered { AnswersEach self.now asks.now.numbers.now answers.new }
        ensures rest { KeepsRest asks.now.numbers.now answers.old answers.new }
    {
        let n = answers.len().min(asks.len());
        for part in 0..n.div_ceil(BATCH) {
            self.reply_part(asks, BATCH * part, answers);
        }
    }
}

impl<'a> Lent<'a> {
    // Each ask that has an entry, asked in turn; the collection is prepared once.
    pub fn ask_all(
        &self,
        asks: &Table<Ask>,
        answers: &mut [Answer],
        area: &mut [u8],
        spare: &mut [u8],
    )
        ensures in_turn { let p = prepared_of self.now area.old spare.old in
            let t = asks.now.numbers.now in
            InTurn p (read_ask t) (StandsAt answers.new) area.old spare.old
            (min (ask_count t) (length answers.old)) area.new spare.new }
        ensures deeds { WhateverDeeds (prepared_of self.now area.old spare.old) (λ q.
            let t = asks.now.numbers.now in
            InTurn q (read_ask t) (StandsAt answers.new) area.old spare.old
            (min (ask_count t) (length answers.old)) area.new spare.new) }
        ensures rest { KeepsRest asks.now.numbers.now answers.old answers.new }
    {
        let n = answers.len().min(asks.len());
        if !any_declared(asks, self.collection.counts, n) {
            let refused = undeclared(self, area.len(), spare.len());
            answer_alike(asks, answers, refused);
            return;
        }
        let lent = *self;
        let mut routes = Routes::new();
        let prepared = lent.prepare(area, spare, &mut routes);
        prepared.reply_all(asks, answers);
    }
}
