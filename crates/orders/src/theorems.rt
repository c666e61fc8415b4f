// The laws of this room: each contract leaves one order, and its marks are R ≤ S and C ≤ D.

ghost use Rattle.std.specs.Prelude.{◌≡◌, ℕ, List, Bool, length};
ghost use Rattle.kinds.specs.declared.Counts.{Counts};
ghost use Rattle.laws.specs.Once.{AtMostOneOf};
ghost use Rattle.laws.specs.Marks.{mark, Sized};
ghost use Rattle.laws.specs.Warshall.{Closes};
ghost use Rattle.meaning.specs.Collection.{WellFormed};
ghost use Rattle.meaning.specs.Lent.{Tables, collection};
ghost use Rattle.sets.specs.Bits.{concept_width, role_width};
ghost use Rattle.sets.specs.Rows.{ConceptRows, RoleRows, concept_marks, role_marks, Adds};
ghost use Rattle.sets.specs.declared.concepts.ConceptSet.{ConceptSet};
ghost use Rattle.orders.specs.Rows.{IsRoleOrder, IsConceptOrder, IsTransposed};
ghost use Rattle.orders.specs.Marks.{Listed, IsClosedOver, OrRow};
ghost use Rattle.orders.specs.Meant.{RoleMarksMean, ConceptMarksMean};

/// Only one value satisfies each contract.
pub fn unique()
    ensures one_role_order { (rules : List ℕ) → AtMostOneOf (RoleRows role_width)
        (λ rows. IsRoleOrder rules (role_marks rows)) }
    ensures one_concept_order { (rules roles : List ℕ) → AtMostOneOf (ConceptRows concept_width)
        (λ rows. IsConceptOrder rules roles (concept_marks rows)) }
    ensures one_closed_order { (rules : List ℕ) (roles : ℕ → ℕ → Bool)
        → AtMostOneOf (ConceptRows concept_width)
        (λ rows. IsClosedOver rules roles (concept_marks rows)) }
    ensures one_transposed { (m : ℕ → ℕ → Bool) → AtMostOneOf (ConceptRows concept_width)
        (λ rows. IsTransposed concept_width m (concept_marks rows)) }
    ensures one_listing { (pairs : List ℕ) (m : ℕ → ℕ → Bool)
        → AtMostOneOf (ConceptRows concept_width)
        (λ rows. Adds concept_width concept_width m (Listed pairs) (concept_marks rows)) }
    ensures one_closing { (n : ℕ) (m : List (List Bool)) → AtMostOneOf (Sized n n)
        (λ rows. Closes n (mark m) (mark rows)) }
    ensures one_joined_row { (n : ℕ) (a b : List Bool) → AtMostOneOf (λ row. length row ≡ n)
        (OrRow n a b) }
{}

/// Of a collection whose numbers are declared, the marks are its two orders.
pub fn meant()
    ensures role_marks_mean { (c : Counts) (t : Tables) → WellFormed (collection c t)
        → RoleMarksMean c t }
    ensures concept_marks_mean { (c : Counts) (t : Tables) → WellFormed (collection c t)
        → ConceptMarksMean c t }
{}
