// Rounds against an allowance.

ghost use Rattle.std.specs.Prelude.{IfOk, IfErr};
ghost use Rattle.sheet.specs.Sheets.{IsRound};
ghost use Rattle.sheet.specs.Ends.{Ended, rounds_made};
ghost use Rattle.sheet.specs.Telling.{ToldUpTo};
ghost use Rattle.sheet.specs.Heard.{ToldOf, FailedGoing};

use crate::closing::Closing;
use crate::listener::RoundListener;
use kinds::{Rounds, SignedRole};
use rules::Rows;
use sets::nowhere;

/// How rounds end: a sheet that no longer changes after so many, or an allowance spent before.
#[derive(Clone, Copy)]
pub enum Ran {
    Needed(Rounds),
    Spent,
}

impl Closing {
    /// Rounds from round 0 on, until one more would add nothing or the allowance is spent. The
    /// listener is told the marks of each, before the next is worked; where it fails, no other is.
    pub fn run<L: RoundListener>(
        &mut self,
        rows: &Rows,
        allowance: Rounds,
        listener: &mut L,
    ) -> Result<Ran, L::Error>
        ensures ended { IfOk result (Ended rows.now allowance) }
        ensures sheet { IfOk result (λ ran.
            IsRound rows.now (rounds_made allowance ran) self.new) }
        ensures told { IfOk result (λ ran.
            ToldOf L.hears (ToldUpTo rows.now (rounds_made allowance ran))
            listener.old listener.new) }
        ensures failed { IfErr result (λ e.
            FailedGoing L.hears L.fails rows.now allowance listener.old e listener.new) }
    {
        // Room for the rounds, made once.
        let mut loops = [nowhere(); SignedRole::NUMBERS];
        self.start(&mut loops, rows);
        listener.round_made(0, &self.own())?;
        let mut n: Rounds = 0;
        loop {
            if self.is_closed() {
                return Ok(Ran::Needed(n));
            }
            if n == allowance {
                return Ok(Ran::Spent);
            }
            n += 1;
            listener.round_made(n, &self.added())?;
            self.advance(&mut loops, rows);
        }
    }
}
