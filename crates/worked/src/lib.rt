// The cases worked on paper, in one table, the list of the base collection's closed sheet, and facts that clash: the checker
// computes all of them. Nothing else needs them.
#![tactic(auto)]

ghost use Rattle.theory.specs.Listing.{Listing};
ghost use Rattle.meaning.specs.Listing.{numbered_lite};
ghost use Rattle.worked.specs.BaseList.{base_collection, base_list};
ghost use Rattle.worked.specs.Laws.{CasesHold, SalvagesHold};

// The table of docs/PAPER.md, the list that a partner office would send of its base collection, and what is kept of facts
// that clash.
pub fn paper()
    ensures cases { CasesHold }
    ensures list { Listing (numbered_lite base_collection) base_list }
    ensures salvages { SalvagesHold }
{}
