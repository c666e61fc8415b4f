// A line read byte by byte where it stands: one pass, and what is no digit is gathered on the way.
ghost use Rattle.std.specs.Prelude.{ℕ, ◌+◌, ◌-◌, ◌/◌, ◌<◌, ◌≤◌, ◌≡◌, ◌↔◌, ◌⊎◌, IsTrue, length, min};
ghost use Rattle.kinds.specs.Kinds.{deed_number};
ghost use Rattle.frames.specs.Digits.{bytes};
ghost use Rattle.streams.specs.declared.TheConstants.{LINE};
ghost use Rattle.frames.specs.Frames.{number_in, two_bytes, marks_of};
ghost use Rattle.frames.specs.Pairs.{HoldsPairs, byte_read};

use crate::BASE;
use crate::digits::digit;
use crate::field::Field;
use crate::marks::Marks;
use crate::pairs::{Pairs, one_by_one};
use kinds::{DeedNumber, Rounds};

// Bytes are below it.
const BYTE: u16 = 256;

// Numbers of two bytes are below it.
const TWO_BYTES: Rounds = 65536;

// The bytes of a long allowance.
const LONG: usize = 4;

// A line's slice, a place in it counted in bytes, and what the digits before that place have in common: it is below `BASE`
// exactly where each character before the place is a digit. The bytes at the line's front are worked out already.
#[derive(Drop)]
pub(crate) struct Reader<'a> {
    line: &'a [u8],
    at: usize,
    wrong: u8,
    front: Pairs,
    ghost made: { HoldsPairs (min 8 (length line.now / 2)) line.now front.bytes front.common },
}

impl<'a> Reader<'a> {
    ghost use Rattle.frames.specs.Reader.{Gathered, Advanced, IsAt, ReadsWhole};

    // A reader at a line's first byte.
    pub(crate) fn opened(line: &'a [u8]) -> Reader<'a>
        ensures line { result.line ≡ line.entry }
        ensures opened { IsAt 0 result }
    {
        Reader {
            line,
            at: 0,
            wrong: 0,
            front: one_by_one(line),
        }
    }

    // A reader at the first byte of a line whose front is worked out already.
    #[inline(always)]
    pub(crate) fn prepared(line: &'a [u8], front: Pairs) -> Reader<'a>
        requires { HoldsPairs (min 8 (length line.now / 2)) line.now front.bytes front.common }
        ensures line { result.line ≡ line.entry }
        ensures opened { IsAt 0 result }
    {
        Reader {
            line,
            at: 0,
            wrong: 0,
            front,
        }
    }

    // The byte at the reader's place, which is at the line's front, after which the reader is at the next. It is some byte where a
    // character is no digit.
    #[inline(always)]
    #[tactic(auto, using(crate::proofs::ReaderLaws::advanced))]
    pub(crate) fn byte(&mut self) -> u8
        requires gathered { Gathered self.old }
        requires inside { self.old.at < length self.old.line.now / 2 }
        requires front { self.old.at < 8 }
        ensures value { result ≡ byte_read self.old.line.now self.old.at }
        ensures next { Advanced self.old self.new }
    {
        let at = self.at;
        self.at = at + 1;
        self.wrong |= self.front.common[at];
        self.front.bytes[at]
    }

    // The byte at the reader's place, wherever it is, digit by digit.
    #[tactic(auto, using(crate::proofs::ReaderLaws::advanced))]
    fn far_byte(&mut self) -> u8
        requires gathered { Gathered self.old }
        requires inside { self.old.at < length self.old.line.now / 2 }
        ensures value { result ≡ byte_read self.old.line.now self.old.at }
        ensures next { Advanced self.old self.new }
    {
        let high = digit(self.line[2 * self.at]);
        let low = digit(self.line[2 * self.at + 1]);
        self.at += 1;
        self.wrong |= high | low;
        BASE.wrapping_mul(high).wrapping_add(low)
    }

    // Whether no byte of the line is left.
    #[inline(always)]
    fn is_at_end(&self) -> bool
        ensures { IsTrue result ↔ (self.now.at ≡ length self.now.line.now / 2) }
    {
        self.at == self.line.len() / 2
    }

    // A number of two bytes, high byte first.
    #[inline(always)]
    #[tactic(auto, using(crate::proofs::Lengths::number_two))]
    pub(crate) fn number(&mut self) -> u16
        requires gathered { Gathered self.old }
        requires inside { self.old.at + 1 < length self.old.line.now / 2 }
        requires front { self.old.at + 1 < 8 }
        ensures value { result ≡ two_bytes (byte_read self.old.line.now) self.old.at }
        ensures line { self.new.line ≡ self.old.line }
        ensures at { self.new.at ≡ self.old.at + 2 }
        ensures gathered { Gathered self.new }
    {
        BYTE * u16::from(self.byte()) + u16::from(self.byte())
    }

    // The deed number that ends a fact; where the line ends before it, 0.
    #[inline(always)]
    #[tactic(auto, using(crate::proofs::Bytes::byte_past, crate::proofs::Lengths::number_two))]
    pub(crate) fn deed(&mut self) -> DeedNumber
        requires gathered { Gathered self.old }
        requires inside { let bytes = length self.old.line.now / 2 in
            (self.old.at ≡ bytes) ⊎ (self.old.at + 2 ≡ bytes) }
        requires front { self.old.at + 1 < 8 }
        ensures value { let line = self.old.line.now in
            result ≡ deed_number (two_bytes (byte_read line) self.old.at) }
        ensures whole { ReadsWhole self.old self.new }
    {
        if self.is_at_end() {
            return DeedNumber(0);
        }
        DeedNumber(self.number())
    }

    // The allowance: the two bytes or four that are left, high byte first.
    pub(crate) fn allowance(&mut self) -> Rounds
        requires gathered { Gathered self.old }
        requires inside { let bytes = length self.old.line.now / 2 in
            (self.old.at + 2 ≡ bytes) ⊎ (self.old.at + 4 ≡ bytes) }
        requires front { self.old.at + 3 < 8 }
        ensures value { let line = self.old.line.now in
            result ≡ number_in (bytes line - self.old.at) (byte_read line) self.old.at }
        ensures whole { ReadsWhole self.old self.new }
    {
        if self.at + LONG == self.line.len() / 2 {
            return self.rounds();
        }
        Rounds::from(self.number())
    }

    // A number of four bytes, high byte first.
    #[tactic(auto, using(crate::proofs::Lengths::number_four))]
    pub(crate) fn rounds(&mut self) -> Rounds
        requires gathered { Gathered self.old }
        requires inside { self.old.at + 3 < length self.old.line.now / 2 }
        requires front { self.old.at + 3 < 8 }
        ensures value { result ≡ number_in 4 (byte_read self.old.line.now) self.old.at }
        ensures line { self.new.line ≡ self.old.line }
        ensures at { self.new.at ≡ self.old.at + 4 }
        ensures gathered { Gathered self.new }
    {
        TWO_BYTES * Rounds::from(self.number()) + Rounds::from(self.number())
    }

    // A field of one byte, as what it stands for.
    #[inline(always)]
    pub(crate) fn field<F: Field>(&mut self) -> F
        requires gathered { Gathered self.old }
        requires inside { self.old.at < length self.old.line.now / 2 }
        requires front { self.old.at < 8 }
        ensures value { result ≡ F.of (byte_read self.old.line.now self.old.at) }
        ensures next { Advanced self.old self.new }
    {
        F::of(u16::from(self.byte()))
    }

    // The marks of an expression: all bytes behind the kind.
    #[tactic(auto, using(crate::proofs::Lengths::marks_none, crate::proofs::Lengths::marks_more, crate::proofs::Lengths::marks_long))]
    pub(crate) fn marks(&mut self) -> Marks
        requires behind { IsAt 1 self.old }
        requires some { 1 ≤ bytes self.old.line.now }
        requires short { length self.old.line.now ≤ LINE }
        ensures value { let line = self.old.line.now in
            result ≡ marks_of (byte_read line) (bytes line - 1) }
        ensures whole { ReadsWhole self.old self.new }
    {
        let mut marks = Marks::new();
        'marks: while self.at < self.line.len() / 2 {
            marks.push(self.far_byte());
        }
        marks
    }

    // Whether each character before the reader's place is a digit.
    #[inline(always)]
    pub(crate) fn is_sound(&self) -> bool
        ensures { IsTrue result ↔ (self.now.wrong < 16) }
    {
        self.wrong < BASE
    }
}
