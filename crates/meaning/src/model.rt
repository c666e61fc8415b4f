// Laws of the canonical model.
ghost use Rattle.meaning.specs.LawsOfModel.{ElementsAreRows, BareBelongs, RowBelongs, UnnamedHas};
ghost use Rattle.meaning.specs.LawsOfModel.{FactsJoin, SelfFactsJoin, ChildrenJoin, NeighboursDiffer};
ghost use Rattle.meaning.specs.LawsOfModel.{LeanContradictionSame, LeanYesSame, LeanLeavesSame};
ghost use Rattle.meaning.specs.LawsOfModel.{ConceptFactsHold, RoleFactsHold, ConceptRulesKept};
ghost use Rattle.meaning.specs.LawsOfModel.{RoleRulesKept, ConceptsAbove, RolesAbove, InversesBack};
ghost use Rattle.meaning.specs.LawsOfModel.{NeighbourIsHad, NeighbourIsThere};
ghost use Rattle.meaning.specs.LawsOfModel.{ConceptForbidden, RoleForbidden, SelfForbidden, EmptyConceptForbidden};
ghost use Rattle.meaning.specs.LawsOfModel.{NoContradictionWhereNone, ContradictionFound};
ghost use Rattle.meaning.specs.LawsOfModel.{RoleStepMoves, TestStepStays};
ghost use Rattle.meaning.specs.LawsOfModel.{YesIsWord, EmptyPathCounts, PathIsWalk};
ghost use Rattle.meaning.specs.LawsOfModel.{LeavesIsWord, EmptyPathLeaves, YesLeaves, LeavesIsWalk};

// Its elements are rows that lead to them; those that go straight back may be left out.
pub fn elements()
    ensures rows { ElementsAreRows }
    ensures bare { BareBelongs }
    ensures longer { RowBelongs }
    ensures unnamed { UnnamedHas }
    ensures facts { FactsJoin }
    ensures self_edge { SelfFactsJoin }
    ensures children { ChildrenJoin }
    ensures neighbours_differ { NeighboursDiffer }
    ensures lean_contradiction { LeanContradictionSame }
    ensures lean_yes { LeanYesSame }
    ensures lean_leaves { LeanLeavesSame }
{}

// It has every fact and keeps every rule.
pub fn model()
    ensures concept_facts { ConceptFactsHold }
    ensures role_facts { RoleFactsHold }
    ensures concept_rules { ConceptRulesKept }
    ensures role_rules { RoleRulesKept }
    ensures concepts_above { ConceptsAbove }
    ensures roles_above { RolesAbove }
    ensures inverses_back { InversesBack }
    ensures neighbour_had { NeighbourIsHad }
    ensures neighbour_there { NeighbourIsThere }
{}

// Where it breaks an exclusion.
pub fn contradiction()
    ensures concept_forbidden { ConceptForbidden }
    ensures role_forbidden { RoleForbidden }
    ensures self_clash { SelfForbidden }
    ensures empty_forbidden { EmptyConceptForbidden }
    ensures none { NoContradictionWhereNone }
    ensures found { ContradictionFound }
{}

// Its paths, and the question.
pub fn question()
    ensures role_step { RoleStepMoves }
    ensures test_step { TestStepStays }
    ensures word { YesIsWord }
    ensures empty_path { EmptyPathCounts }
    ensures walk { PathIsWalk }
{}

// And the question with one named end.
pub fn leaving()
    ensures word { LeavesIsWord }
    ensures empty_path { EmptyPathLeaves }
    ensures pair { YesLeaves }
    ensures walk { LeavesIsWalk }
{}
