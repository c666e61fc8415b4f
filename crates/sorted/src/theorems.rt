// Theorems of this room: the contract of `have_same_records` leaves one answer, and collections that are the same as sets are
// the same to the library.
ghost use Rattle.laws.specs.Once.{AtMostOne};
ghost use Rattle.tables.specs.declared.collection.Collection.{Collection};
ghost use Rattle.sorted.specs.Same.{Compares};
ghost use Rattle.sorted.specs.Laws.{SameToTheLibrary, AnsweredAlike, TidiedAlike};

/// Only one value satisfies the contract.
pub fn unique()
    ensures one_comparison { (c d : Collection) → AtMostOne (Compares c d) }
{}

/// What the library answers depends on no order and no repeat.
pub fn answered()
    ensures same_sets { SameToTheLibrary }
    ensures alike { AnsweredAlike }
{}

/// What tables come to in order tells whether they have the same records.
pub fn in_order()
    ensures tidied { TidiedAlike }
{}
