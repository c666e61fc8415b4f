// The theorems of this room: each contract leaves one value, and it is what the model says.
ghost use Rattle.std.specs.Prelude.{ℕ, ◌^◌, ◌<◌, List, Bool};
ghost use Rattle.kinds.specs.declared.Counts.{Counts};
ghost use Rattle.kinds.specs.Kinds.{most_individuals};
ghost use Rattle.laws.specs.Once.{AtMostOne, AtMostOneOf};
ghost use Rattle.meaning.specs.Collection.{WellFormed};
ghost use Rattle.meaning.specs.Lent.{Tables, collection};
ghost use Rattle.sets.specs.Bits.{has, role_width};
ghost use Rattle.sets.specs.Rows.{ConceptRows, concept_marks};
ghost use Rattle.elements.specs.Concepts.{Concepts, Gathers};
ghost use Rattle.elements.specs.Generating.{AreGenerating};
ghost use Rattle.elements.specs.Meant.{ConceptsMean, IsGeneratingMean, GeneratingMean};

/// Only one value satisfies each contract.
pub fn unique()
    ensures one_concepts { (names roles : List ℕ) (order : ℕ → ℕ → Bool)
        → AtMostOneOf (ConceptRows most_individuals)
        (λ rows. Concepts names roles order (concept_marks rows)) }
    ensures one_generating { (concepts order : ℕ → ℕ → Bool)
        → AtMostOneOf (λ set. set < 2 ^ role_width)
        (λ set. AreGenerating concepts order (has set)) }
    ensures one_gathered { (h : ℕ) (m : ℕ → ℕ → Bool) → AtMostOne (Gathers h m) }
{}

/// Of a collection whose numbers are declared, it is what its canonical model has.
pub fn meant()
    ensures concepts_mean { (c : Counts) (t : Tables) → WellFormed (collection c t)
        → ConceptsMean c t }
    ensures is_generating_mean { (c : Counts) (t : Tables) → WellFormed (collection c t)
        → IsGeneratingMean c t }
    ensures generating_mean { (c : Counts) (t : Tables) → WellFormed (collection c t)
        → GeneratingMean c t }
{}
