// What each line of a file types, up to the list that ends it: a fact of either kind, or something else.
ghost use Rattle.std.specs.Prelude.{◌≡◌, ◌≤◌, true, false, [], Some, length};
ghost use Rattle.reading.specs.File.{typed_with};
ghost use Rattle.salvage.specs.Salvages.{marked};

use crate::retain::keep_first;
use salvage::Typed;
use std::marker::Model;

// The most lines of a file before its list.
pub const MOST_TYPED: usize = 7_715;

// A row of what lines type. Callers see the list of it.
#[derive(Drop)]
pub struct TypedLines {
    lines: [Typed; MOST_TYPED],
    used: usize,
}

impl Model for TypedLines {
    ghost use Rattle.std.specs.Prelude.{◌≤◌, List, take};
    ghost use Rattle.reading.specs.declared.typed.TheConstants.{MOST_TYPED};
    ghost use Rattle.salvage.specs.declared.Typed.{Typed};

    ghost Value = { List Typed };

    ghost view = { λ l. take l.used l.lines };

    ghost invariant = { λ l. l.used ≤ MOST_TYPED };
}

impl TypedLines {
    pub(crate) fn new() -> TypedLines
        ensures { result ≡ [] }
    {
        TypedLines {
            lines: [Typed::Other; MOST_TYPED],
            used: 0,
        }
    }

    // A line more. One beyond the most is passed over; no file that is read has it.
    #[inline(always)]
    pub(crate) fn push(&mut self, typed: Typed)
        ensures { self.new ≡ typed_with self.old (Some typed) }
    {
        if self.used < MOST_TYPED {
            self.lines[self.used] = typed;
            self.used += 1;
        }
    }

    pub fn as_slice(&self) -> &[Typed]
        ensures lines { result.now ≡ self.now }
        ensures few { length result.now ≤ MOST_TYPED }
    {
        &self.lines[..self.used]
    }

    // The lines that are marked stay, with those beyond the marks; how many lines leave.
    pub(crate) fn keep_marked(&mut self, marks: &[bool]) -> usize
        ensures kept { self.new ≡ marked true self.old marks.now }
        ensures dropped { result ≡ length (marked false self.old marks.now) }
    {
        let used = self.used;
        self.used = keep_first(&mut self.lines, used, marks);
        used - self.used
    }
}
