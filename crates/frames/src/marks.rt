// The byte marks of an expression that is typed: as many as a line has room for, and nothing is allocated.
ghost use Rattle.std.specs.Prelude.{◌≡◌, ◌<◌, ◌≤◌, ◌++◌, ◌∷◌, [], length};
ghost use Rattle.frames.specs.Text.{text};
ghost use Rattle.frames.specs.Written.{frame_bytes};
ghost use Rattle.frames.specs.declared.Frame.{Frame};

use crate::kind::Kind;
use crate::text::{LineText, MOST_BYTES};
use std::marker::Model;
use streams::LINE;

// The most marks: two characters make a byte, and the first byte of a line is its kind.
pub const MOST_MARKS: usize = LINE / 2 - 1;

// A row of marks. Callers see the list of its bytes.
#[derive(Drop)]
pub struct Marks {
    bytes: [u8; MOST_MARKS],
    used: usize,
}

impl Model for Marks {
    ghost use Rattle.std.specs.Prelude.{◌≤◌, ℕ, List, take};
    ghost use Rattle.frames.specs.declared.marks.TheConstants.{MOST_MARKS};

    ghost Value = { List ℕ };

    ghost view = { λ m. take m.used m.bytes };

    ghost invariant = { λ m. m.used ≤ MOST_MARKS };
}

impl Marks {
    pub(crate) fn new() -> Marks
        ensures { result ≡ [] }
    {
        Marks {
            bytes: [0; MOST_MARKS],
            used: 0,
        }
    }

    // One mark more.
    pub(crate) fn push(&mut self, mark: u8)
        requires { length self.old < MOST_MARKS }
        ensures { self.new ≡ self.old ++ mark ∷ [] }
    {
        let from = self.used;
        let to = from + 1;
        let all = &mut self.bytes[..];
        all[from..to].copy_from_slice(&[mark]);
        self.used = to;
    }

    pub fn as_slice(&self) -> &[u8]
        ensures { result.now ≡ self.now }
    {
        &self.bytes[..self.used]
    }

    // The line of an expression of these marks.
    pub(crate) fn line(&self) -> LineText
        ensures { result ≡ text (frame_bytes (Frame.Expression self.now)) }
    {
        expression(&self.bytes[..self.used])
    }
}

fn expression(marks: &[u8]) -> LineText
    requires { length marks.now ≤ MOST_MARKS }
    ensures { result ≡ text (frame_bytes (Frame.Expression marks.now)) }
{
    let mut bytes = [0; MOST_BYTES];
    bytes[0] = Kind::Expression.byte();
    bytes[1..=marks.len()].copy_from_slice(marks);
    LineText::of(&bytes[..=marks.len()])
}
