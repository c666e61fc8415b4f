// The theorems of this room: each contract leaves one value, and walks tell what the question asks.

ghost use Rattle.std.specs.Prelude.{ℕ, List};
ghost use Rattle.kinds.specs.declared.Counts.{Counts};
ghost use Rattle.kinds.specs.declared.Individual.{Individual};
ghost use Rattle.kinds.specs.declared.State.{State};
ghost use Rattle.laws.specs.Once.{AtMostOne};
ghost use Rattle.meaning.specs.Collection.{WellFormed};
ghost use Rattle.meaning.specs.Lent.{Tables, collection};
ghost use Rattle.sets.specs.declared.concepts.ConceptSet.{ConceptSet};
ghost use Rattle.sets.specs.declared.states.StateSet.{StateSet};
ghost use Rattle.edges.specs.Meant.{AreFew};
ghost use Rattle.walk.specs.declared.coreachable.PathsBelow.{PathsBelow};
ghost use Rattle.walk.specs.declared.batch.Batch.{Batch};
ghost use Rattle.walk.specs.declared.question.Question.{Question};
ghost use Rattle.walk.specs.declared.strides.Strides.{Strides};
ghost use Rattle.walk.specs.Accepting.{AreAccepting};
ghost use Rattle.walk.specs.Finals.{AreFinals};
ghost use Rattle.walk.specs.Loops.{AreLoops};
ghost use Rattle.walk.specs.Strides.{Walked};
ghost use Rattle.walk.specs.Meant.{AreAnswers, LoopsMean, TablesMean};
ghost use Rattle.walk.specs.Meant.{AcceptingMeans, QuestionMeans, WalkMeans, YesMeans};

/// Only one value satisfies each contract.
pub fn unique()
    ensures one_loops { (concepts sheet : List ConceptSet) → AtMostOne (AreLoops concepts sheet) }
    ensures one_accepting { (individuals : List ConceptSet) (paths : PathsBelow)
        → AtMostOne (AreAccepting individuals paths) }
    ensures one_finals { (finals : List ℕ) → AtMostOne (AreFinals finals) }
    ensures one_walk { (loops transitions : List (List StateSet)) (facts : List ℕ)
        (a : Individual) (start : State) → AtMostOne (Walked loops transitions facts a start) }
    ensures one_row { (s : Strides) (question : Question) (batch : Batch) (n : ℕ)
        → AtMostOne (AreAnswers s question batch n) }
{}

/// Of a collection whose numbers are declared, and whose role facts are not too many.
pub fn meant()
    ensures loops_mean { (c : Counts) (t : Tables) → WellFormed (collection c t)
        → LoopsMean c t }
    ensures tables_mean { (c : Counts) (t : Tables) → WellFormed (collection c t)
        → TablesMean c t }
    ensures accepting_means { (c : Counts) (t : Tables) → WellFormed (collection c t)
        → AcceptingMeans c t }
    ensures question_means { (c : Counts) (t : Tables) → WellFormed (collection c t)
        → QuestionMeans c t }
    ensures walk_means { (c : Counts) (t : Tables) → WellFormed (collection c t)
        → AreFew t.role-facts → WalkMeans c t }
    ensures yes_means { (c : Counts) (t : Tables) → WellFormed (collection c t)
        → AreFew t.role-facts → YesMeans c t }
{}
