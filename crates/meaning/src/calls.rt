// Laws of a call's outcome, of growth, and of deed numbers.
ghost use Rattle.meaning.specs.LawsOfCalls.{EveryInputAnswered, OutcomeOnce, SaysAsModel};
ghost use Rattle.meaning.specs.LawsOfCalls.{MostIsEnough, AnswerReturns, AnswersGrow};
ghost use Rattle.meaning.specs.LawsOfCalls.{ContradictionGrows, YesGrows, LeavesGrows};
ghost use Rattle.meaning.specs.LawsOfDeeds.{DeedsDecideNothing, DeedsMeanNothing};
ghost use Rattle.meaning.specs.LawsOfDeeds.{ConceptFactsMeanOne, RoleFactsMeanOne, GrowthWithoutDeeds};

// One outcome for every input.
pub fn outcome()
    ensures some { EveryInputAnswered }
    ensures once { OutcomeOnce }
{}

// What it says, with enough rounds.
pub fn demands()
    ensures model { SaysAsModel }
    ensures enough { MostIsEnough }
    ensures returns { AnswerReturns }
{}

// Growth, of calls and of collections.
pub fn growth()
    ensures answers { AnswersGrow }
    ensures contradiction { ContradictionGrows }
    ensures yes { YesGrows }
    ensures leaves { LeavesGrows }
{}

// Nothing that is decided depends on deed numbers.
pub fn deeds()
    ensures outcome { DeedsDecideNothing }
    ensures meant { DeedsMeanNothing }
    ensures concept_facts { ConceptFactsMeanOne }
    ensures role_facts { RoleFactsMeanOne }
    ensures growth { GrowthWithoutDeeds }
{}
