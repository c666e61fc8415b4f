// Laws of reading a file. The functions here have nothing to do: each clause is a law.
ghost use Rattle.reading.specs.Laws.{JudgedOnce, FindsOnce, ReadingOnce, ReadsOnce};
ghost use Rattle.reading.specs.Laws.{RefusalsListed, RefusalOnce, LinesRefused, ReadingTaken, TakenAccepted, WholeAccepted};
ghost use Rattle.reading.specs.Laws.{QuestionOnce, LentOnce};
ghost use Rattle.reading.specs.Laws.{TakenWithin, LinesBounded, StartAlike, StartDecides};
ghost use Rattle.reading.specs.Laws.{SoundExtends, ListLast, ListOnly, ListCounted, ListBegins, EntryTaken, EntriesHeld};
ghost use Rattle.reading.specs.Former.{FormerOnce, FormerFound, FormerSound, FormerElse};
ghost use Rattle.reading.specs.Deeds.{ReadsWithoutDeeds, ConceptFactsKept, RoleFactsKept};
ghost use Rattle.reading.specs.SalvageLaws.{ReadFormed, FactsRead, TypedNamesAll, EntriesRead, SalvageDecides, SalvageDropsFacts};
ghost use Rattle.reading.specs.SalvageLaws.{DecidesSome, DecidesOnce, DecidesWithoutDeeds, DecidesTaken, DecidesSays};
ghost use Rattle.reading.specs.SalvageLaws.{KeptSalvaged, DecidesSane, KeptTaken, KeptHeld};

// What is found is one thing.
pub fn once()
    ensures judged { JudgedOnce }
    ensures finds { FindsOnce }
    ensures reading { ReadingOnce }
    ensures reads { ReadsOnce }
    ensures question { QuestionOnce }
    ensures lent { LentOnce }
{}

// What is refused has one of the listed numbers; what is taken, the library does not refuse.
pub fn accepted()
    ensures listed { RefusalsListed }
    ensures one_refusal { RefusalOnce }
    ensures lines { LinesRefused }
    ensures reading { ReadingTaken }
    ensures taken { TakenAccepted }
    ensures whole { WholeAccepted }
{}

// Any length of input: a start of it decides.
pub fn start()
    ensures within { TakenWithin }
    ensures bounded { LinesBounded }
    ensures alike { StartAlike }
    ensures decides { StartDecides }
{}

// A list ends a file, and its entries are taken one after the other.
pub fn list()
    ensures extends { SoundExtends }
    ensures last { ListLast }
    ensures only { ListOnly }
    ensures counted { ListCounted }
    ensures begins { ListBegins }
    ensures taken { EntryTaken }
    ensures held { EntriesHeld }
{}

// What is read does not depend on deed numbers, but each fact is kept with its own.
pub fn deeds()
    ensures reading { ReadsWithoutDeeds }
    ensures concept_facts { ConceptFactsKept }
    ensures role_facts { RoleFactsKept }
{}

// What a file was found to be while there were at most 16 states. Those that were sound are sound, with the same frames.
pub fn former()
    ensures once { FormerOnce }
    ensures found { FormerFound }
    ensures sound { FormerSound }
    ensures any_other { FormerElse }
{}

// A file that chooses salvage: the entries of its facts, whose salvage decides which lines are dropped.
pub fn entries()
    ensures formed { ReadFormed }
    ensures facts { FactsRead }
    ensures named { TypedNamesAll }
    ensures read { EntriesRead }
    ensures decides { SalvageDecides }
    ensures drops { SalvageDropsFacts }
{}

// And the frames over which it is answered.
pub fn decided()
    ensures some { DecidesSome }
    ensures once { DecidesOnce }
    ensures deeds { DecidesWithoutDeeds }
    ensures taken { DecidesTaken }
    ensures says { DecidesSays }
    ensures salvaged { KeptSalvaged }
    ensures sane { DecidesSane }
    ensures kept_taken { KeptTaken }
    ensures kept_held { KeptHeld }
{}
