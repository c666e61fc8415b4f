// Laws of what an input is found to be. The functions here have nothing to do: each clause is a law.
ghost use Rattle.intake.specs.Laws.{VerdictOnce, VerdictFound, VerdictTaken, StartDecides, ListingOfKept};

// Some lines are found to be one thing, and to be something where each of them is.
pub fn verdict()
    ensures once { VerdictOnce }
    ensures found { VerdictFound }
    ensures taken { VerdictTaken }
{}

// Any length of input: a start of it decides.
pub fn start()
    ensures decides { StartDecides }
{}

// Salvage: facts do not change the sheet, so that a list that is right of what is read is right of what is answered over.
pub fn salvage()
    ensures listing { ListingOfKept }
{}
