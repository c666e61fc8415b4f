// The lines of dropped facts, of rounds and of answers, in characters: two for each byte, capital letters, and the end of
// the line.
ghost use Rattle.std.specs.Prelude.{◌≡◌};
ghost use Rattle.file.specs.Text.{count_width, bytes_of, dropped_line, round_line, answer_line, IsInBytes};

use frames::text::LineText;
use kinds::{Answer, Ask, Counts, MarkCount, Rounds};

// The kinds of line.
const DROPPED: u8 = 0x92;

const ROUND: u8 = 0x8A;

const ANSWER: u8 = 0x8B;

const ANSWER_ONE: u8 = 0x8E;

// The bytes of a line of a dropped fact; the most of a count; of a line of an answer; and of a line of a round, which is the
// longest.
const DROPPED_BYTES: usize = 3;

const MOST_WIDTH: usize = 4;

const ANSWER_BYTES: usize = 4 + MOST_WIDTH;

const ROUND_BYTES: usize = 1 + 2 * MOST_WIDTH;

// The most characters of each: two for each of its bytes, and the end.
pub(crate) const DROPPED_LINE: usize = 2 * DROPPED_BYTES + 1;

pub(crate) const ANSWER_LINE: usize = 2 * ANSWER_BYTES + 1;

pub(crate) const ROUND_LINE: usize = 2 * ROUND_BYTES + 1;

// The most states that a file declares whose counts have two bytes.
const FEW_STATES: u16 = 16;

// How many bytes a count has, and the number of a round.
#[derive(Clone, Copy)]
pub(crate) enum Width {
    Two,
    Four,
}

impl Width {
    // Of a file that declares so much.
    #[tactic(auto, unfolding(crate::specs::Text::count_width))]
    pub(crate) fn of(counts: Counts) -> Width
        ensures { bytes_of result ≡ count_width counts }
    {
        if counts.states <= FEW_STATES {
            Width::Two
        } else {
            Width::Four
        }
    }
}

// The line of a dropped fact, by the number of its line.
#[tactic(auto, unfolding(crate::specs::Text::dropped_line))]
pub(crate) fn dropped(line: u16) -> LineText
    ensures { result ≡ dropped_line line }
{
    let [a, b] = line.to_be_bytes();
    LineText::of(&[DROPPED, a, b])
}

// The line of a round.
#[tactic(auto, unfolding(crate::specs::Text::round_line))]
pub(crate) fn round(width: Width, round: Rounds, marks: MarkCount) -> LineText
    ensures { result ≡ round_line (bytes_of width) round marks }
{
    let [a, b, c, d] = round.to_be_bytes();
    let [e, f, g, h] = marks.to_be_bytes();
    match width {
        Width::Two => LineText::of(&[ROUND, c, d, g, h]),
        Width::Four => LineText::of(&[ROUND, a, b, c, d, e, f, g, h]),
    }
}

// The line of an answer about a pair, or about one named end.
#[tactic(auto, unfolding(crate::specs::Text::answer_line))]
pub(crate) fn answer(width: Width, ask: Ask, answer: Answer) -> LineText
    requires { IsInBytes ask }
    ensures { result ≡ answer_line (bytes_of width) ask answer }
{
    let [a, b, c, d] = answer.count().to_be_bytes();
    let number = answer.number();
    match (ask, width) {
        (Ask::Pair(i, j), Width::Two) => {
            LineText::of(&[ANSWER, i.0 as u8, j.0 as u8, number, c, d])
        }
        (Ask::Pair(i, j), Width::Four) => {
            LineText::of(&[ANSWER, i.0 as u8, j.0 as u8, number, a, b, c, d])
        }
        (Ask::From(i), Width::Two) => LineText::of(&[ANSWER_ONE, i.0 as u8, number, c, d]),
        (Ask::From(i), Width::Four) => {
            LineText::of(&[ANSWER_ONE, i.0 as u8, number, a, b, c, d])
        }
    }
}
