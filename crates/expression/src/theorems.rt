// The theorems of this room: a row has one automaton, and what is said over an expression is what it is called.
ghost use Rattle.std.specs.Prelude.{ℕ, List};
ghost use Rattle.laws.specs.Once.{AtMostOne};
ghost use Rattle.expression.specs.Answer.{IsAutomatonOf};
ghost use Rattle.expression.specs.Meant.{EmptyMeans, FirstMeans, LastMeans, NextMeans};

/// Only one value satisfies the contract.
pub fn unique()
    ensures one_automaton { (row : List ℕ) → AtMostOne (IsAutomatonOf row) }
{}

/// Of the empty word, and of the marks that can be first, last and next.
pub fn meant()
    ensures empty_means { EmptyMeans }
    ensures first_means { FirstMeans }
    ensures last_means { LastMeans }
    ensures next_means { NextMeans }
{}
