// The layout of an area, a bit to a mark: no other code knows it.

ghost use Rattle.std.specs.Prelude.{ℕ, ◌≡◌};
ghost use Rattle.theory.specs.Sheet.{Mark};
ghost use Rattle.rules.specs.Rows.{kind_of};
ghost use Rattle.rules.specs.declared.rows.Rows.{Rows as TheRows};
ghost use Rattle.sheet.specs.Sheets.{IsRound};
ghost use Rattle.meaning.specs.Layout.{zeros};
ghost use Rattle.sheet.specs.Areas.{LaysRows, LaysMarks};

use crate::closing::Closing;
use kinds::{AREA, State};
use sets::{ConceptSet, Sheet};

/// Writes 1 at the place of each mark and 0 at every other: a row is a number of 16 bytes, the least first.
pub fn lay(sheet: &Sheet, area: &mut [u8; AREA])
    ensures { LaysRows sheet.now area.new }
{
    for q in 0..State::PAIRS {
        let at = ConceptSet::BYTES * q;
        area[at..at + ConceptSet::BYTES].copy_from_slice(&sheet[q].to_le_bytes());
    }
}

impl Closing {
    /// Writes the sheet to the first area, which is that of n rounds where n rounds were made, and zeros to the second.
    pub fn leave(&self, first: &mut [u8; AREA], second: &mut [u8; AREA])
        ensures laid { LaysRows self.now.sheet.rows first.new }
        ensures first { (rows : TheRows) (n : ℕ) → IsRound rows n self.now
            → LaysMarks (Mark (kind_of rows) n) first.new }
        ensures second { second.new ≡ zeros }
    {
        lay(&self.sheet.rows, first);
        second.fill(0);
    }
}
