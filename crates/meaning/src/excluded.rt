// What is excluded from itself: nobody may have it, and so no answer differs for it. Each contract
// is a law over all collections; nothing is computed.
ghost use Rattle.std.specs.Prelude.{◌≡◌, ◌↔◌};
ghost use Rattle.kinds.specs.declared.Individual.{Individual};
ghost use Rattle.kinds.specs.declared.SignedRole.{SignedRole};
ghost use Rattle.kinds.specs.declared.Concept.TheVariants.{Exists};
ghost use Rattle.kinds.specs.declared.Answer.{Answer};
ghost use Rattle.kinds.specs.Answer.{answer_number};
ghost use Rattle.kinds.specs.Kinds.{IndividualDeclared};
ghost use Rattle.meaning.specs.Collection.{Collection, WellFormed};
ghost use Rattle.meaning.specs.Model.{Element, HasConcept, Belongs, ModelEdge, individuals, Contradiction};
ghost use Rattle.meaning.specs.Question.{Yes};
ghost use Rattle.meaning.specs.Leaving.{Leaves};
ghost use Rattle.meaning.specs.Lent.{Call};
ghost use Rattle.meaning.specs.Excluded.{RoleSelfExcluded, ImpliesMore};
ghost use Rattle.meaning.specs.Excluded.{AsksWhereMore, IsDecided};

// A pair that has a role which is excluded from itself, or from which such a role follows, makes a
// contradiction, and so does whoever has a neighbour by it.
pub fn forbidden()
    ensures role { (c : Collection) (x y : Element c) (R : SignedRole) → RoleSelfExcluded c R
        → ModelEdge c (individuals c) x R y → Contradiction c }
    ensures neighbour { (c : Collection) (x : Element c) (R : SignedRole) → RoleSelfExcluded c R
        → Belongs c (individuals c) x → HasConcept c (individuals c) x (Exists R)
        → Contradiction c }
{}

// A forbidden concept may imply anything: no contradiction, yes or no differs for it. Counts and
// areas may, since the sheet has marks of concepts that nobody has.
pub fn implies_nothing()
    ensures contradiction { (c d : Collection) → WellFormed c → WellFormed d → ImpliesMore c d
        → Contradiction c ↔ Contradiction d }
    ensures yes { (c d : Collection) → WellFormed c → WellFormed d → ImpliesMore c d
        → ¬ Contradiction c → (a b : Individual) → IndividualDeclared c.counts a
        → Yes c a b ↔ Yes d a b }
    ensures leaves { (c d : Collection) → WellFormed c → WellFormed d → ImpliesMore c d
        → ¬ Contradiction c → (a : Individual) → IndividualDeclared c.counts a
        → Leaves c a ↔ Leaves d a }
    ensures answer { (c d : Call) (r q : Answer) → AsksWhereMore c d → IsDecided c r
        → IsDecided d q → answer_number r ≡ answer_number q }
{}
