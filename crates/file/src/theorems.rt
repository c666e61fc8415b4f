// Laws of what an input writes. The functions here have nothing to do: each clause is a law.
ghost use Rattle.file.specs.Laws.{WritesOnce, TextFits, StartWrites, WrittenOnce, ServedOnce};
ghost use Rattle.file.specs.Laws.{WritesWithoutDeeds};
ghost use Rattle.file.specs.Laws.{AsksAnswered, RoundsAreTold, NoRoundTold, FaultTold};
ghost use Rattle.file.specs.Demands.{LinesSayAsModel, LinesSayOfExpression, LinesGrow, LinesReturn, RoundsSuffice};
ghost use Rattle.file.specs.Former.{WritesAsItDid, WroteAsItDoes, FormerWritesOnce, FormerWritesSome};
ghost use Rattle.file.specs.LeftOut.{ListChangesNothing, ListRefused};
ghost use Rattle.file.specs.ByList.{LinesSayByList, RoundsToldByList};
ghost use Rattle.file.specs.Salvage.{AskingOnce, AskingSome, DroppedAreTold, DroppedAreFacts, DroppedToldAlone};
ghost use Rattle.file.specs.Salvage.{PlainDropsNone, PlainAnswersAll, NeverContradiction, WritesWithoutDropped};
ghost use Rattle.file.specs.Salvage.{KeptAreSane, DroppedClash, SaneLosesNothing, RepeatsAlike};
ghost use Rattle.file.specs.Default.{DefaultSuffices, NeverSpent, DefaultSaysAsModel, DefaultTellsAll};

// One text, within its room; a start of the input decides it, and no deed number does.
pub fn text()
    ensures once { WritesOnce }
    ensures fits { TextFits }
    ensures start { StartWrites }
    ensures deeds { WritesWithoutDeeds }
    ensures written_once { WrittenOnce }
    ensures served_once { ServedOnce }
{}

// What stands on its lines.
pub fn lines()
    ensures asks { AsksAnswered }
    ensures rounds { RoundsAreTold }
    ensures no_round { NoRoundTold }
    ensures fault { FaultTold }
{}

// What is demanded of the answers.
pub fn demands()
    ensures model { LinesSayAsModel }
    ensures expression { LinesSayOfExpression }
    ensures grows { LinesGrow }
    ensures returns { LinesReturn }
    ensures enough { RoundsSuffice }
{}

// Of a file that gives no allowance: as many rounds as always suffice are allowed, and none of its lines has number 3.
pub fn default()
    ensures suffices { DefaultSuffices }
    ensures never_spent { NeverSpent }
    ensures model { DefaultSaysAsModel }
    ensures rounds { DefaultTellsAll }
{}

// Of a list at the end of an input: an accepted one changes nothing that is written, and one that is not that of the sheet is
// told by number 15.
pub fn list()
    ensures changes_nothing { ListChangesNothing }
    ensures refused { ListRefused }
{}

// An accepted list determines the answers that are written, and the lines of the rounds.
pub fn by_list()
    ensures answers { LinesSayByList }
    ensures rounds { RoundsToldByList }
{}

// Of what an input wrote while there were at most 16 states: a file that was read without fault writes what it wrote.
pub fn former()
    ensures sound { WritesAsItDid }
    ensures any_other { WroteAsItDoes }
    ensures once { FormerWritesOnce }
    ensures some { FormerWritesSome }
{}

// Of the facts that salvage drops and keeps: there is one salvage of a file and no other; and what is written of it.
pub fn salvage()
    ensures once { AskingOnce }
    ensures some { AskingSome }
    ensures told { DroppedAreTold }
    ensures facts { DroppedAreFacts }
    ensures alone { DroppedToldAlone }
    ensures plain { PlainDropsNone }
    ensures plain_all { PlainAnswersAll }
    ensures never_2 { NeverContradiction }
    ensures without { WritesWithoutDropped }
{}

// No kept facts clash, and any dropped one clashes with the kept ones.
pub fn kept()
    ensures sane { KeptAreSane }
    ensures back { DroppedClash }
    ensures whole { SaneLosesNothing }
    ensures repeats { RepeatsAlike }
{}
