// Laws of the list of a closed sheet. What holds for a type that names any rules' kind with numbers holds
// of all such.
ghost use Rattle.theory.specs.Listing.{Numbered};
ghost use Rattle.theory.specs.LawsOfListing.{FirstInOnce, FirstInZero, FirstInNext, FirstMarksOnce};
ghost use Rattle.theory.specs.LawsOfListing.{MarksByRoundOnce, MarksByRoundThere, CountsByRound};
ghost use Rattle.theory.specs.LawsOfListing.{RoundsAreListing, ListingThere, ListingOnce, ListingInOrder};
ghost use Rattle.theory.specs.LawsOfListing.{EntryOnce, ListingLength, ListedAfter, ListedClosed};
ghost use Rattle.theory.specs.LawsOfListing.{NeededIsLast, CountsListed, StandsListed};

// A type that names a rules' kind with numbers: any.
pub trait AnyNumbered {
    ghost numbered: { Numbered };
}

// The marks that first stand in each round.
pub fn by_round<N: AnyNumbered>()
    ensures first_once { FirstInOnce N.numbered }
    ensures first_zero { FirstInZero N.numbered }
    ensures first_next { FirstInNext N.numbered }
    ensures marks_once { FirstMarksOnce N.numbered }
    ensures rounds_once { MarksByRoundOnce N.numbered }
    ensures rounds_there { MarksByRoundThere N.numbered }
    ensures counts { CountsByRound N.numbered }
{}

// The list of the closed sheet.
pub fn listing<N: AnyNumbered>()
    ensures of_rounds { RoundsAreListing N.numbered }
    ensures there { ListingThere N.numbered }
    ensures once { ListingOnce N.numbered }
    ensures in_order { ListingInOrder N.numbered }
    ensures entry_once { EntryOnce N.numbered }
    ensures length { ListingLength N.numbered }
{}

// Whoever has it has the sheet after every round, the rounds needed and every count.
pub fn listed<N: AnyNumbered>()
    ensures after { ListedAfter N.numbered }
    ensures closed { ListedClosed N.numbered }
    ensures needed { NeededIsLast N.numbered }
    ensures counts { CountsListed N.numbered }
    ensures stands { StandsListed N.numbered }
{}
