// Laws of worlds. What holds for a type that names any world holds in every world.
ghost use Rattle.meaning.specs.Worlds.{World};
ghost use Rattle.meaning.specs.LawsOfWorlds.{YesIsForced, LeavingIsForced, ContradictionLeavesNone};
ghost use Rattle.meaning.specs.LawsOfWorlds.{YesSaysForced, ContradictionSaysNone};
ghost use Rattle.meaning.specs.LawsOfWorlds.{ModelKeeps, ModelRespects, OnlyYesIsForced, OnlyLeavingIsForced};
ghost use Rattle.meaning.specs.LawsOfWorlds.{NoLeavesOne, YesLeavesOne, SpentLeavesOne};
ghost use Rattle.meaning.specs.LawsOfWorlds.{NoSaysNotForced};

// A type that names a world: any.
pub trait AnyWorld {
    ghost world: { World };
}

// In every world.
pub fn every<W: AnyWorld>()
    ensures yes_forced { YesIsForced W.world }
    ensures leaving_forced { LeavingIsForced W.world }
    ensures contradiction_none { ContradictionLeavesNone W.world }
    ensures answer_yes { YesSaysForced W.world }
    ensures answer_contradiction { ContradictionSaysNone W.world }
{}

// Where there is one, the canonical model is one, and what it does not have is not forced.
pub fn some()
    ensures model_keeps { ModelKeeps }
    ensures model_respects { ModelRespects }
    ensures only_yes { OnlyYesIsForced }
    ensures only_leaving { OnlyLeavingIsForced }
    ensures world_after_no { NoLeavesOne }
    ensures world_after_yes { YesLeavesOne }
    ensures world_after_spent { SpentLeavesOne }
    ensures not_forced { NoSaysNotForced }
{}
