// Laws of the list of a collection's closed sheet.
ghost use Rattle.meaning.specs.LawsOfListing.{CollectionToldApart, CollectionByRound};
ghost use Rattle.meaning.specs.LawsOfListing.{CollectionListing, EntriesFit, CollectionLength};
ghost use Rattle.meaning.specs.LawsOfListing.{MostEntries, SheetFromList, ClosedFromList};
ghost use Rattle.meaning.specs.LawsOfListing.{RoundsFromList, AreaFromList, StandingFromList};
ghost use Rattle.meaning.specs.LawsOfListing.{PathFromList, AnswerFromList};

// There is such a list, and it is not long.
pub fn listing()
    ensures told_apart { CollectionToldApart }
    ensures by_round { CollectionByRound }
    ensures there { CollectionListing }
    ensures entries { EntriesFit }
    ensures length { CollectionLength }
    ensures most { MostEntries }
{}

// Who has it has every sheet and every answer.
pub fn from_list()
    ensures sheet { SheetFromList }
    ensures closed { ClosedFromList }
    ensures rounds { RoundsFromList }
    ensures area { AreaFromList }
    ensures standing { StandingFromList }
    ensures path { PathFromList }
    ensures answer { AnswerFromList }
{}
