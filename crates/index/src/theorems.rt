// The theorems of this room: each contract leaves one outcome, every byte of both areas.
ghost use Rattle.std.specs.Prelude.{◌≡◌, ◌<◌, ℕ, List};
ghost use Rattle.kinds.specs.declared.Ask.{Ask};
ghost use Rattle.kinds.specs.declared.Answer.{Answer};
ghost use Rattle.laws.specs.Once.{AtMostOne};
ghost use Rattle.meaning.specs.Collection.{Collection, WellFormed};
ghost use Rattle.index.specs.Preparation.{Preparation, Left};
ghost use Rattle.sheet.specs.declared.round_marks.RoundMarks.{RoundMarks};
ghost use Rattle.index.specs.Marks.{MarksTold, CountsTold, CountsOfMarks, MakesSheet, ToldAtMost};
ghost use Rattle.index.specs.Marks.{SheetTold, SheetIsListed};
ghost use Rattle.index.specs.Rounds.{HasRounds, NoRounds};
ghost use Rattle.index.specs.Asked.{IsAnswer};
ghost use Rattle.index.specs.Row.{InTurn};
ghost use Rattle.index.specs.Once.{SameAt, AnswerFixesAreas};

// A type that names where answers to a row of asks stand, whether answer r to ask k does: any.
pub trait AnyPlace {
    ghost use Rattle.std.specs.Prelude.{ℕ};
    ghost use Rattle.kinds.specs.declared.Answer.{Answer};

    ghost tells: { ℕ → Answer → Type 0 };
}

// What a preparation leaves, what it answers to an ask, and what a row of asks answers and leaves.
pub fn unique<A: AnyPlace, B: AnyPlace>()
    ensures one_preparation { (p : Preparation) (area spare x y u v : List ℕ)
        → Left p area spare x y → Left p area spare u v → (x ≡ u) × (y ≡ v) }
    ensures one_answer { (p : Preparation) (ask : Ask) (r q : Answer)
        → IsAnswer p ask r → IsAnswer p ask q → r ≡ q }
    ensures one_row { (p : Preparation) (ask : ℕ → Ask)
        (area spare x y u v : List ℕ) (n : ℕ)
        → InTurn p ask A.tells area spare n x y → InTurn p ask B.tells area spare n u v
        → (x ≡ u) × (y ≡ v) × ((k : ℕ) → k < n → SameAt A.tells B.tells k) }
{}

// An ask leaves in both areas what the same answer to another ask would: to a pair, or to one end.
pub fn areas()
    ensures by_answer { AnswerFixesAreas }
{}

// A listener is told one thing of a preparation: the marks of each round. Their numbers make the marks that stand in the sheet.
pub fn told()
    ensures one_telling { (p : Preparation) → AtMostOne (MarksTold p) }
    ensures a_telling { (p : Preparation) → (rounds : List RoundMarks) × MarksTold p rounds }
    ensures counts_of_marks { (p : Preparation) → CountsOfMarks p }
    ensures one_row { (p : Preparation) → AtMostOne (CountsTold p) }
    ensures a_row { (p : Preparation) → (counts : List ℕ) × CountsTold p counts }
    ensures makes_sheet { (p : Preparation) → MakesSheet p }
    ensures at_most { (p : Preparation) → ToldAtMost p }
{}

// A listener is told one thing of a closed sheet: the marks of its list, round by round.
pub fn listed()
    ensures one_telling { (c : Collection) → WellFormed c → AtMostOne (SheetTold c) }
    ensures a_list { (c : Collection) → WellFormed c → SheetIsListed c }
{}

// Whether there are rounds needed that are allowed: one number, or one reason why not.
pub fn settled()
    ensures one_needed { (p : Preparation) → AtMostOne (HasRounds p) }
    ensures one_reason { (p : Preparation) → AtMostOne (NoRounds p) }
    ensures not_both { (p : Preparation) (n : ℕ) (r : Answer)
        → HasRounds p n → ¬ NoRounds p r }
{}
