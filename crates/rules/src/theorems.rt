// The theorems of this room: each contract leaves one value, and rows say what a collection says.
ghost use Rattle.std.specs.Prelude.{◌≡◌, ℕ, List, length};
ghost use Rattle.kinds.specs.declared.Counts.{Counts};
ghost use Rattle.kinds.specs.Kinds.{most_states};
ghost use Rattle.laws.specs.Once.{AtMostOne, AtMostOneOf};
ghost use Rattle.meaning.specs.Collection.{Collection, Step, WellFormed};
ghost use Rattle.sets.specs.declared.concepts.ConceptSet.{ConceptSet};
ghost use Rattle.sets.specs.declared.roles.RoleSet.{RoleSet};
ghost use Rattle.sets.specs.declared.states.StateSet.{StateSet};
ghost use Rattle.rules.specs.declared.rows.Rows.{Rows};
ghost use Rattle.rules.specs.Rows.{most_concepts, most_edges, IsMarkable};
ghost use Rattle.rules.specs.Transitions.{AreTransitions};
ghost use Rattle.rules.specs.Made.{IsStates, IsConcepts, AreTests, AreEdgesTo, AreEdges};
ghost use Rattle.rules.specs.Meant.{TransitionsLong, TransitionsMean, RowsMean, MarksMean};

/// Only one value satisfies each contract.
pub fn unique()
    ensures one_transitions { (steps : List Step) (above : List RoleSet)
        → AtMostOneOf TransitionsLong (AreTransitions steps above) }
    ensures one_states { (c : Counts) → AtMostOne (IsStates c most_states) }
    ensures one_concepts { (c : Counts) → AtMostOne (IsConcepts c most_concepts) }
    ensures one_tests { (steps : List Step) (below : List ConceptSet) (n : ℕ)
        → AtMostOneOf (λ tests. length tests ≡ n) (AreTests steps below) }
    ensures one_edges_to { AtMostOneOf (λ edges_to. length edges_to ≡ most_edges)
        AreEdgesTo }
    ensures one_edges { (below : List ConceptSet) (transitions : List (List StateSet))
        → AtMostOneOf (λ edges. length edges ≡ most_edges) (AreEdges below transitions) }
    ensures one_markable { (rows : Rows) (s t : ℕ) → AtMostOne (IsMarkable rows s t) }
{}

/// Of a collection whose numbers are declared.
pub fn meant()
    ensures transitions_mean { (c : Collection) → WellFormed c → TransitionsMean c }
    ensures rows_mean { (c : Collection) → WellFormed c → RowsMean c }
    ensures marks_mean { (c : Collection) → MarksMean c }
{}
