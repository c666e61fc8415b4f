// Laws of salvage: functions that have nothing to do, each clause of which is a law over all collections.
ghost use Rattle.salvage.specs.Laws.{SalvageThere, SalvageOnce, MarksEach, KeptWhereSane};
ghost use Rattle.salvage.specs.Laws.{DroppedWhereClashing, LaterChangesNone, OthersKept};
ghost use Rattle.salvage.specs.Laws.{OthersAfter, SalvagedFormed, SalvagedSane, DroppedPutBack};
ghost use Rattle.salvage.specs.Laws.{KeptAreMost, SaneKept, SaneWhole, EqualMarkedAlike};
ghost use Rattle.salvage.specs.Laws.{NothingClashes, FactsChangeNoMark, FactsChangeNoList};
ghost use Rattle.salvage.specs.Laws.{EntriesDeclared, EntriesEach, AllNamed, SaneCollectionWhole};
ghost use Rattle.salvage.specs.Laws.{ContradictionLocal, TestSays, TestsSalvage};

// There is one salvage and only one, mark after mark.
pub fn salvage()
    ensures some { SalvageThere }
    ensures once { SalvageOnce }
    ensures each { MarksEach }
    ensures keeps { KeptWhereSane }
    ensures drops { DroppedWhereClashing }
    ensures later { LaterChangesNone }
    ensures other { OthersKept }
    ensures others_after { OthersAfter }
{}

// What is kept makes no contradiction, and is as much as may be.
pub fn kept()
    ensures formed { SalvagedFormed }
    ensures sane { SalvagedSane }
    ensures back { DroppedPutBack }
    ensures most { KeptAreMost }
    ensures whole { SaneKept }
    ensures same { SaneWhole }
    ensures repeats { EqualMarkedAlike }
{}

// Facts that are not there, and the sheet, which is not theirs.
pub fn without_facts()
    ensures empty { NothingClashes }
    ensures sheet { FactsChangeNoMark }
    ensures list { FactsChangeNoList }
{}

// The entries that an order makes of a collection's facts.
pub fn entries()
    ensures declared { EntriesDeclared }
    ensures each { EntriesEach }
    ensures all { AllNamed }
    ensures whole { SaneCollectionWhole }
{}

// The tests of single facts.
pub fn tests()
    ensures local { ContradictionLocal }
    ensures says { TestSays }
    ensures salvage { TestsSalvage }
{}
