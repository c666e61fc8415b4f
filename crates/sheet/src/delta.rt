// The delta: the marks that one more round adds.

ghost use Rattle.std.specs.Prelude.{◌≡◌, ◌<◌};
ghost use Rattle.kinds.specs.Kinds.{most_states};
ghost use Rattle.sheet.specs.Pairs.{Blank, total};
ghost use Rattle.sheet.specs.Finds.{AreNew};

use crate::filtering::keep_new;
use crate::marks::Marks;
use kinds::MarkCount;
use rules::Rows;

/// The marks that one more round adds to a sheet.
#[derive(Clone, Copy)]
pub struct Delta {
    pub marks: Marks,

    /// How many they are.
    pub many: MarkCount,

    ghost counted: { many ≡ total marks.rows most_states },
}

impl Delta {
    pub(crate) fn none() -> Delta
        ensures { Blank result.marks.rows }
    {
        Delta {
            marks: Marks::none(),
            many: 0,
        }
    }

    // The candidates that are new; no candidate is left.
    pub(crate) fn refill(&mut self, candidates: &mut Marks, sheet: &Marks, rows: &Rows)
        ensures new { AreNew rows.now sheet.now.rows candidates.old.rows self.new.marks.rows }
        ensures candidates { Blank candidates.new.rows }
    {
        refill(&mut self.marks, &mut self.many, candidates, sheet, rows);
    }
}

// One call writes marks and number, since they fit each other only when both are written.
fn refill(
    marks: &mut Marks,
    many: &mut MarkCount,
    candidates: &mut Marks,
    sheet: &Marks,
    rows: &Rows,
)
    ensures new { AreNew rows.now sheet.now.rows candidates.old.rows marks.new.rows }
    ensures candidates { Blank candidates.new.rows }
    ensures many { many.new ≡ total marks.new.rows most_states }
{
    keep_new(marks, candidates, sheet, rows);
    candidates.clear();
    *many = marks.count();
}
