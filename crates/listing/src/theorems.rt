// Laws of what is written of an input. The functions here have nothing to do: each clause is a law.
ghost use Rattle.shell.specs.Laws.{SaysOnce};
ghost use Rattle.listing.specs.Lists.{CopiesAndLists};
ghost use Rattle.listing.specs.Laws.{ListingOnce, ListingFits, StartListed};
ghost use Rattle.listing.specs.Laws.{ListingIsRead, ListingAgain, ListingCopied, ListingKept, ListingAnswers, FaultyAlike};

// One text, within its room, so that the laws of the shell leave one outcome; a start of the input decides it.
pub fn text()
    ensures said { SaysOnce CopiesAndLists }
    ensures once { ListingOnce }
    ensures fits { ListingFits }
    ensures start { StartListed }
{}

// What the text is as an input: sound, with the file's copy, and written again as it is; and what an accepted list is.
pub fn listings()
    ensures read { ListingIsRead }
    ensures again { ListingAgain }
    ensures copied { ListingCopied }
    ensures kept { ListingKept }
    ensures answers { ListingAnswers }
{}

// Of a faulty input the lister writes what the desk writes.
pub fn faulty()
    ensures alike { FaultyAlike }
{}
