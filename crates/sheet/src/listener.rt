// Who is told of rounds.
ghost use Rattle.std.specs.Prelude.{ℕ, List, OnOk, IfErr, ⊤};
ghost use Rattle.kinds.specs.declared.State.{State};
ghost use Rattle.kinds.specs.declared.Concept.{Concept};

use crate::round_marks::RoundMarks;
use kinds::Rounds;
use std::convert::Infallible;

/// Who is told the marks of each round, as the rounds are worked.
pub trait RoundListener {
    /// Why it could not be told.
    type Error;

    /// Told of a round, counted from 0, and of the marks that first stand in it, it goes from one to another.
    ghost hears: { Self → ℕ → List (State × State × Concept) → Self → Type 0 };

    /// The errors that it may give when it is told so, and what it then goes to.
    ghost fails: { Self → ℕ → List (State × State × Concept) → Self.Error → Self → Type 0 };

    fn round_made(&mut self, round: Rounds, marks: &RoundMarks) -> Result<(), Self::Error>
        ensures ok { OnOk result (hears self.old round marks.now self.new) }
        ensures err { IfErr result (λ e. fails self.old round marks.now e self.new) };
}

/// It listens to nothing, and cannot fail.
#[derive(Drop)]
pub struct NoListener;

impl RoundListener for NoListener {
    type Error = Infallible;

    ghost hears = { λ _ _ _ _. ⊤ };

    ghost fails = { λ _ _ _ _ _. ⊥ };

    fn round_made(&mut self, _round: Rounds, _marks: &RoundMarks) -> Result<(), Infallible> {
        Ok(())
    }
}
