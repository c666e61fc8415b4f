// Laws of a collection's loop sheet, and of the area that holds it. What holds for a type that names
// any sheet holds of every sheet.
ghost use Rattle.kinds.specs.declared.State.{State};
ghost use Rattle.kinds.specs.declared.Concept.{Concept};
ghost use Rattle.meaning.specs.LawsOfSheet.{OnlyValidMarked, RoundZero, RoundKeeps, RoundTests};
ghost use Rattle.meaning.specs.LawsOfSheet.{RoundMeets, RoundHangs, RoundAdds, MarkMeans};
ghost use Rattle.meaning.specs.LawsOfSheet.{RoundsSuffice, RoundsAtMost, MostRounds};
ghost use Rattle.meaning.specs.LawsOfSheet.{ConceptsCounted, MarkIsOne};
ghost use Rattle.meaning.specs.LawsOfSheet.{AreaThere, AreaOnce};
ghost use Rattle.meaning.specs.Bytes.{OneSheetSamePlaces, BytesToBits, BitsToBytes};
ghost use Rattle.meaning.specs.Bytes.{SameAfterRounds, BothThere, BitsOnce, BytesOnce};
ghost use Rattle.meaning.specs.Bytes.{BitsThere, BytesThere};
ghost use Rattle.meaning.specs.Former.{HeldIsMoved, HeldIsMovedBack};
ghost use Rattle.meaning.specs.Former.{MovedThere, MovedOnce, MovedSame, BackSays, BackOnce};
ghost use Rattle.meaning.specs.Former.{MovedExactly, FormerThere};
ghost use Rattle.meaning.specs.Former.{MovedAfterRounds, BackAfterRounds};
ghost use Rattle.meaning.specs.LawsOfMarks.{CollectionCountable, CollectionCounts};
ghost use Rattle.meaning.specs.LawsOfMarks.{CollectionStands, AreaStands, StandingOnce};
ghost use Rattle.meaning.specs.LawsOfMarks.{CollectionAddsSome, CollectionAddsFew};
ghost use Rattle.meaning.specs.LawsOfMarks.{CollectionCountsAtMost};

// A type that names a sheet of states and concepts: any.
pub trait AnyMarks {
    ghost marks: { State → State → Concept → Type 0 };
}

// The rounds of a collection.
pub fn rounds()
    ensures valid { OnlyValidMarked }
    ensures zero { RoundZero }
    ensures keeps { RoundKeeps }
    ensures tests { RoundTests }
    ensures meets { RoundMeets }
    ensures hangs { RoundHangs }
    ensures adds { RoundAdds }
    ensures means { MarkMeans }
{}

// How many there are.
pub fn how_many()
    ensures suffice { RoundsSuffice }
    ensures at_most { RoundsAtMost }
    ensures most { MostRounds }
    ensures concepts { ConceptsCounted }
{}

// The area that holds a sheet.
pub fn area()
    ensures one { MarkIsOne }
    ensures area_there { AreaThere }
    ensures area_once { AreaOnce }
{}

// One byte to a place and one bit to a place hold the same marks,
pub fn any_packed<F: AnyMarks>()
    ensures same_places { OneSheetSamePlaces F.marks }
    ensures to_bits { BytesToBits F.marks }
    ensures to_bytes { BitsToBytes F.marks }
{}

// after every round, and each determines the other.
pub fn packed()
    ensures after_rounds { SameAfterRounds }
    ensures both_there { BothThere }
    ensures bits_once { BitsOnce }
    ensures bytes_once { BytesOnce }
    ensures bits_there { BitsThere }
    ensures bytes_there { BytesThere }
{}

// An area that was stored while there were at most 16 states, and the area of today that it is moved
// to, hold the same sheets,
pub fn any_moved<F: AnyMarks>()
    ensures held_is_moved { HeldIsMoved F.marks }
    ensures held_is_moved_back { HeldIsMovedBack F.marks }
{}

// each determines the other, and after every round of a collection of so few states they hold its
// sheet.
pub fn moved()
    ensures there { MovedThere }
    ensures once { MovedOnce }
    ensures same { MovedSame }
    ensures back_says { BackSays }
    ensures back_once { BackOnce }
    ensures exactly { MovedExactly }
    ensures former_there { FormerThere }
    ensures after_rounds { MovedAfterRounds }
    ensures back_after_rounds { BackAfterRounds }
{}

// How many marks the rounds of a collection make, and what then stands in the area that holds its
// sheet.
pub fn counts()
    ensures countable { CollectionCountable }
    ensures there { CollectionCounts }
    ensures stands { CollectionStands }
    ensures area_stands { AreaStands }
    ensures standing_once { StandingOnce }
    ensures adds_some { CollectionAddsSome }
    ensures adds_few { CollectionAddsFew }
    ensures at_most { CollectionCountsAtMost }
{}
