// The byte marks of an expression, what they read, and how deep their brackets stand.

ghost use Rattle.std.specs.Prelude.{◌<◌, ◌↔◌, IsTrue, SomeIff};
ghost use Rattle.expression.specs.Marks.{opening};
ghost use Rattle.expression.specs.Depth.{TooDeep};
ghost use Rattle.expression.specs.Letters.{table_letter};

use kinds::Concept;
use tables::Letter;

// Below this are the marks that read something.
pub(crate) const OPENING: u8 = 0x80;

pub(crate) const CLOSING: u8 = 0x81;

pub(crate) const OR: u8 = 0x82;

pub(crate) const REPEAT: u8 = 0x83;

// Brackets stand within brackets at most so deep.
pub(crate) const DEPTH: u8 = 8;

// The first test mark: the marks below it are of signed roles.
pub(crate) const TESTS: u8 = 0x40;

/// What a role mark or a test mark reads; no other mark reads anything.
pub fn letter(mark: u8) -> Option<Letter>
    ensures { SomeIff result (mark < opening) (table_letter mark) }
{
    if mark < OPENING {
        Some(Letter::read((mark / TESTS) as u16, (mark % TESTS) as u16))
    } else {
        None
    }
}

// Whether, read from the left, opened less closed brackets pass the most that may be open.
pub(crate) fn is_too_deep(marks: &[u8]) -> bool
    ensures { IsTrue result ↔ TooDeep marks.now }
{
    let mut opened: usize = 0;
    let mut closed: usize = 0;
    for &mark in marks {
        if mark == OPENING {
            opened += 1;
        }
        if mark == CLOSING {
            closed += 1;
        }
        if opened > closed + DEPTH as usize {
            return true;
        }
    }
    false
}
