// One ask of a collection.
ghost use Rattle.std.specs.Prelude.{◌≡◌, ◌≢◌, ◌↔◌, ◌≤◌, IfSome, IfNone, List, ℕ};
ghost use Rattle.kinds.specs.declared.Answer.{Answer};
ghost use Rattle.kinds.specs.Answer.{answer_number, sheet_rounds};
ghost use Rattle.meaning.specs.Lent.{Tables, Call, collection_of, CountsOk, Sound};
ghost use Rattle.meaning.specs.Layout.{zeros};
ghost use Rattle.meaning.specs.Outcome.{Outcome, HoldsSheet};
ghost use Rattle.meaning.specs.Demands.{Enough, AsModelSays, GrowsTo, Grown, allowed};
ghost use Rattle.meaning.specs.Demands.{most_rounds};
ghost use Rattle.meaning.specs.SameSets.{SameSets};
ghost use Rattle.meaning.specs.Deeds.{SameButDeeds, lent_with};
ghost use Rattle.meaning.specs.Worlds.{model_world};
ghost use Rattle.index.specs.Clauses.{called, Refuses, FailsTables, FailsNumbers, FailsAsk};
ghost use Rattle.index.specs.Clauses.{IsContradicted, RunsOut, Settles, IsYesAfter, IsNoAfter};
ghost use Rattle.index.specs.Clauses.{SameOutcome};
ghost use Rattle.index.specs.Worlds.{IsForced, HasNoWorld, IsWorldOf, HasPath};

use crate::lent::Lent;
use crate::routes::Routes;
use kinds::{Answer, Ask};
use tables::Record;

// Of each ask that is not declared: the refusal of the collection, or else number 8.
pub(crate) fn undeclared(lent: &Lent, area: usize, spare: usize) -> Answer
    ensures { Refuses lent.now area spare result }
{
    match lent.check(area, spare) {
        Ok(()) => Answer::BadAsk,
        Err(refusal) => refusal.answer(),
    }
}

impl<'a> Lent<'a> {
    // The answer to one ask. The clauses after `outcome` follow from it.
    pub fn ask(&self, ask: Ask, area: &mut [u8], spare: &mut [u8]) -> Answer
        ensures outcome { let c = called self.now ask area.old spare.old in
            Outcome c result area.new spare.new }

        // Each refusal exactly where its test is the first to fail: 4, 5, 6, 8.
        ensures bad_count { let c = called self.now ask area.old spare.old in
            (result ≡ Answer.BadCount) ↔ (¬ CountsOk c) }
        ensures bad_table { let c = called self.now ask area.old spare.old in
            (result ≡ Answer.BadTable) ↔ FailsTables c }
        ensures bad_number { let c = called self.now ask area.old spare.old in
            (result ≡ Answer.BadNumber) ↔ FailsNumbers c }
        ensures bad_ask { let c = called self.now ask area.old spare.old in
            (result ≡ Answer.BadAsk) ↔ FailsAsk c }

        // And of a call that no test refuses: 2, 3, then 1 or 0, with the rounds needed.
        ensures contradiction { let c = called self.now ask area.old spare.old in
            (result ≡ Answer.Contradiction) ↔ IsContradicted c }
        ensures spent { let c = called self.now ask area.old spare.old in
            (n : ℕ) → (result ≡ Answer.AllowanceSpent n) ↔ RunsOut c n }
        ensures yes { let c = called self.now ask area.old spare.old in
            (n : ℕ) → (result ≡ Answer.Yes n) ↔ IsYesAfter c n }
        ensures no { let c = called self.now ask area.old spare.old in
            (n : ℕ) → (result ≡ Answer.No n) ↔ IsNoAfter c n }

        // After 0, 1 and 3 the first area holds the sheet, the second zeros; else both are untouched.
        ensures sheet { let c = called self.now ask area.old spare.old in
            IfSome (sheet_rounds result) (λ n. HoldsSheet c n area.new) }
        ensures cleared { IfSome (sheet_rounds result) (λ _. spare.new ≡ zeros) }
        ensures untouched { IfNone (sheet_rounds result) (area.new ≡ area.old) }
        ensures spared { IfNone (sheet_rounds result) (spare.new ≡ spare.old) }

        // One of the listed answers; nothing else is an outcome of this call.
        ensures listed { answer_number result ≤ 8 }
        ensures seven_never { answer_number result ≢ 7 }
        ensures fixed { let c = called self.now ask area.old spare.old in
            (r : Answer) (x y : List ℕ) → Outcome c r x y
            → SameOutcome r x y result area.new spare.new }

        // With enough rounds, as the canonical model says; and how many are always enough.
        ensures model { let c = called self.now ask area.old spare.old in
            Sound c → Enough c → AsModelSays c result }
        ensures enough { let c = called self.now ask area.old spare.old in
            Sound c → most_rounds c.counts ≤ c.allowance → Enough c }
        ensures most { let c = called self.now ask area.old spare.old in
            (n : ℕ) → Settles c n → n ≤ most_rounds c.counts }

        // In each world that has the facts, keeps the rules and breaks no exclusion, as far as
        // its things are numbered: a yes is forced, and after a contradiction there is none.
        ensures forced { let c = called self.now ask area.old spare.old in
            (n : ℕ) → result ≡ Answer.Yes n → IsForced c }
        ensures no_world { let c = called self.now ask area.old spare.old in
            result ≡ Answer.Contradiction → HasNoWorld c }

        // After 0, 1 and 3 the canonical model is such a world; after no it has no path.
        ensures a_world { let c = called self.now ask area.old spare.old in
            IfSome (sheet_rounds result) (λ _. IsWorldOf c (model_world (collection_of c))) }
        ensures not_forced { let c = called self.now ask area.old spare.old in
            (n : ℕ) → result ≡ Answer.No n → ¬ HasPath c (model_world (collection_of c)) }

        // A repeated record means nothing more, and the order of the records means nothing.
        ensures same_sets { let c = called self.now ask area.old spare.old in
            (t : Tables) (r : Answer) (x y : List ℕ) → SameSets c t
            → Outcome (record c { tables = t }) r x y
            → SameOutcome r x y result area.new spare.new }

        // Nor does a deed number: with others of them the outcome is the same, refused or not.
        ensures deeds { let c = called self.now ask area.old spare.old in
            (t : Tables) → SameButDeeds c.tables t
            → Outcome (lent_with c t) result area.new spare.new }

        // Growth: asked of a larger collection; and at a larger allowance.
        ensures grows { let c = called self.now ask area.old spare.old in
            (d : Call) (r : Answer) (x y : List ℕ) → GrowsTo c d → Outcome d r x y
            → Sound c → Enough c → Sound d → Enough d → Grown result r }
        ensures returns { let c = called self.now ask area.old spare.old in
            (n : ℕ) → c.allowance ≤ n → answer_number result ≤ 2
            → Outcome (allowed c n) result area.new spare.new }
    {
        if !ask.declared(self.collection.counts) {
            return undeclared(self, area.len(), spare.len());
        }
        let lent = *self;
        let mut routes = Routes::new();
        let prepared = lent.prepare(area, spare, &mut routes);
        prepared.reply(ask)
    }
}
