// The theorems of this room: each contract leaves one value, and the sheet is the collection's.
ghost use Rattle.std.specs.Prelude.{◌≡◌, ℕ, List};
ghost use Rattle.kinds.specs.Kinds.{CountsFit};
ghost use Rattle.laws.specs.Once.{AtMostOne};
ghost use Rattle.meaning.specs.Collection.{Collection};
ghost use Rattle.theory.specs.Sheet.{Mark};
ghost use Rattle.rules.specs.declared.rows.Rows.{Rows};
ghost use Rattle.rules.specs.Rows.{kind_of};
ghost use Rattle.rules.specs.RowsOf.{RowsOf};
ghost use Rattle.sets.specs.declared.concepts.ConceptSet.{ConceptSet};
ghost use Rattle.sheet.specs.declared.allowed.Ran.{Ran};
ghost use Rattle.sheet.specs.declared.closing.Closing.{Closing};
ghost use Rattle.sheet.specs.Areas.{LaysRows, LaysMarks};
ghost use Rattle.sheet.specs.Ends.{Ended};
ghost use Rattle.sheet.specs.Telling.{ToldUpTo};
ghost use Rattle.sheet.specs.Meant.{HasRound, SameRound, Closes};
ghost use Rattle.sheet.specs.Meant.{IsKnown, AddsByNew, NeededMeans, AreaMeans, CountsMean, MarksMean};
ghost use Rattle.sheet.specs.Former.{OneMoved, OneMovedBack, ThereAndBack, BackAndThere};
ghost use Rattle.sheet.specs.Former.{SheetMoved, SheetMovedBack};

use theory::sheet::AnyKind;

/// Only one value satisfies each contract.
pub fn unique()
    ensures one_round { (rows : Rows) (n : ℕ) (v w : Closing)
        → HasRound rows n v → HasRound rows n w → SameRound v w }
    ensures one_telling { (rows : Rows) (n : ℕ) → AtMostOne (ToldUpTo rows n) }
    ensures one_end { (rows : Rows) (allowance : ℕ) → AtMostOne (Ended rows allowance) }
    ensures one_area { (rows : Rows) (n : ℕ) → AtMostOne (LaysMarks (Mark (kind_of rows) n)) }
    ensures one_laying { (sheet : List ConceptSet) → AtMostOne (LaysRows sheet) }
    ensures one_closing { (rows : Rows) (allowance : ℕ) (r q : Ran) (x y u v : List ℕ)
        → Closes rows allowance r x y → Closes rows allowance q u v
        → (r ≡ q) × (x ≡ u) × (y ≡ v) }
{}

/// What a round adds, over any rules' kind; and the sheet of rows that say what a collection says.
pub fn meant<K: AnyKind>()
    ensures adds_by_new { (n : ℕ) → IsKnown K.kind n → AddsByNew K.kind n }
    ensures needed_means { (c : Collection) (rows : Rows) → CountsFit c.counts → RowsOf c rows
        → NeededMeans c rows }
    ensures area_means { (c : Collection) (rows : Rows) → CountsFit c.counts → RowsOf c rows
        → AreaMeans c rows }
    ensures counts_mean { (c : Collection) (rows : Rows) → CountsFit c.counts → RowsOf c rows
        → CountsMean c rows }
    ensures marks_mean { (c : Collection) (rows : Rows) → CountsFit c.counts → RowsOf c rows
        → MarksMean c rows }
{}

/// A stored area that is moved to the places of today, and back.
pub fn moving()
    ensures one_moved { OneMoved }
    ensures one_moved_back { OneMovedBack }
    ensures there_and_back { ThereAndBack }
    ensures back_and_there { BackAndThere }
    ensures sheet_moved { SheetMoved }
    ensures sheet_moved_back { SheetMovedBack }
{}
