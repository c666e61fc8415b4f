// What a character is worth as a digit, and which lines are sound.
ghost use Rattle.std.specs.Prelude.{◌≡◌, ◌↔◌, IsTrue};
ghost use Rattle.frames.specs.Digits.{begins_expression, line_length, LineOk};
ghost use Rattle.frames.specs.Measured.{IsMeasured};
ghost use Rattle.frames.specs.Pairs.{worth};

use crate::BASE;
use streams::LINE;

// A digit is worked out and not looked up, so that no table of characters is needed. What is no digit is worth `BASE` or more.
#[inline(always)]
#[tactic(auto, unfolding(crate::specs::Pairs::worth))]
pub(crate) fn digit(x: u8) -> u8
    ensures { result ≡ worth x }
{
    let decimal = x.wrapping_sub(b'0');
    let letter = x.wrapping_sub(b'A').saturating_add(10);
    if decimal < 10 { decimal } else { letter }
}

// The most characters of a line that does not begin with 0D.
const SHORT: usize = 64;

// Whether a line begins with 0D, as that of an expression does.
fn begins_expression(line: &[u8]) -> bool
    ensures { result ≡ begins_expression line.now }
{
    1 < line.len() && line[0] == b'0' && line[1] == b'D'
}

// The most characters of a line: `LINE` where it begins with 0D.
#[tactic(auto, unfolding(crate::specs::Digits::line_length))]
fn most_characters(line: &[u8]) -> usize
    ensures { result ≡ line_length line.now }
{
    if begins_expression(line) { LINE } else { SHORT }
}

// Whether a line is not empty, has at most so many characters as it may have, and an even number of them.
fn is_measured(line: &[u8]) -> bool
    ensures { IsTrue result ↔ IsMeasured line.now }
{
    let n = line.len();
    0 < n && n <= most_characters(line) && n % 2 == 0
}

// Whether a line has such a length, and digits alone.
#[tactic(auto, using(crate::proofs::Worth::worth_small))]
pub(crate) fn is_sound(line: &[u8]) -> bool
    ensures { IsTrue result ↔ LineOk line.now }
{
    is_measured(line) && line.iter().all(|x| digit(*x) < BASE)
}
