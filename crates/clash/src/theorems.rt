// The theorems of this room: one answer each, and they say whether the canonical model has a contradiction.
ghost use Rattle.std.specs.Prelude.{◌↔◌, Bool, ℕ, List, IsTrue};
ghost use Rattle.kinds.specs.declared.Counts.{Counts};
ghost use Rattle.laws.specs.Once.{AtMostOne, AtMostOneOf};
ghost use Rattle.meaning.specs.Collection.{WellFormed};
ghost use Rattle.meaning.specs.Lent.{Tables, collection};
ghost use Rattle.sets.specs.Bits.{role_width};
ghost use Rattle.sets.specs.Rows.{RoleRows, role_marks};
ghost use Rattle.clash.specs.Meant.{Computed, Clashes, ClashMeans};
ghost use Rattle.clash.specs.Conflicts.{AreConcerned, Excludes};

/// Only one value satisfies each contract.
pub fn unique()
    ensures one_answer { (x : Computed) → AtMostOne (λ (answer : Bool).
        IsTrue answer ↔ Clashes x) }
    ensures one_set { (table : List ℕ) (roles : ℕ → ℕ → Bool) → AtMostOne
        (AreConcerned table roles) }
    ensures one_relation { (table : List ℕ) (roles : ℕ → ℕ → Bool)
        → AtMostOneOf (RoleRows role_width) (λ rows. Excludes table roles (role_marks rows)) }
{}

/// Of a collection whose numbers are declared, however many role facts it has.
pub fn meant()
    ensures clash_means { (c : Counts) (t : Tables) → WellFormed (collection c t)
        → ClashMeans c t }
{}
