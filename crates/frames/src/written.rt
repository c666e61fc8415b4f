// The line of a frame: the way back from what a line says to the line.
ghost use Rattle.std.specs.Prelude.{◌≡◌};
ghost use Rattle.frames.specs.Text.{text};
ghost use Rattle.frames.specs.Written.{frame_bytes};

use crate::Frame;
use crate::field::Field;
use crate::text::LineText;

// A fact has its deed number, and an allowance four bytes. Of a number that its field does not hold the low bytes are written.
#[tactic(auto, unfolding(crate::specs::Written::frame_bytes))]
pub fn line_of(frame: &Frame) -> LineText
    ensures { result ≡ text (frame_bytes frame.now) }
{
    let kind = frame.kind().byte();
    match frame {
        Frame::Declared(counts) => LineText::of(&[
            kind,
            counts.names.byte(),
            counts.roles.byte(),
            counts.individuals.byte(),
            counts.states.byte(),
            counts.start.byte(),
        ]),
        Frame::ConceptRule(left, right) | Frame::ConceptExclusion(left, right) => {
            LineText::of(&[kind, left.byte(), right.byte()])
        }
        Frame::RoleRule(left, right) | Frame::RoleExclusion(left, right) => {
            LineText::of(&[kind, left.byte(), right.byte()])
        }
        Frame::ConceptFact(name, individual, deed) => {
            let [high, low] = deed.0.to_be_bytes();
            LineText::of(&[kind, name.byte(), individual.byte(), high, low])
        }
        Frame::RoleFact(role, first, second, deed) => {
            let [high, low] = deed.0.to_be_bytes();
            LineText::of(&[kind, role.byte(), first.byte(), second.byte(), high, low])
        }
        Frame::RoleStep(from, role, to) => {
            LineText::of(&[kind, from.byte(), role.byte(), to.byte()])
        }
        Frame::TestStep(from, name, to) => {
            LineText::of(&[kind, from.byte(), name.byte(), to.byte()])
        }
        Frame::Final(state) => LineText::of(&[kind, state.byte()]),
        Frame::Ask(first, second) => LineText::of(&[kind, first.byte(), second.byte()]),
        Frame::AskFrom(first) => LineText::of(&[kind, first.byte()]),
        Frame::Allowance(rounds) => {
            let [a, b, c, d] = rounds.to_be_bytes();
            LineText::of(&[kind, a, b, c, d])
        }
        Frame::Expression(marks) => marks.line(),
        Frame::Salvage => LineText::of(&[kind]),
        Frame::ListedMark(round, from, to, concept) => {
            let [a, b, c, d] = round.to_be_bytes();
            LineText::of(&[kind, a, b, c, d, from.byte(), to.byte(), concept.byte()])
        }
    }
}
