// The frame at the front of what is held, read where it stands.
ghost use Rattle.std.specs.Prelude.{◌≡◌, IfSome};
ghost use Rattle.frames.specs.Front.{BeginsFrame};
ghost use Rattle.frames.specs.Kinds.{kind_of};
ghost use Rattle.frames.specs.Pairs.{HoldsPairs, byte_by, high_worth, low_worth};

use crate::kind::Kind;
use crate::pairs::{FRONT, Pairs, side_by_side};
use crate::reader::Reader;
use crate::{Front, frame_of};

// Characters that are held, with the bytes that the pairs at their front make: all of them are worked out at once, whatever
// the line is.
#[derive(Drop)]
pub struct Held<'a> {
    pub characters: &'a [u8],
    pairs: Pairs,
    ghost made: { HoldsPairs 8 characters.now pairs.bytes pairs.common },
}

impl<'a> Held<'a> {
    // `None` where there are too few characters for that.
    #[inline(always)]
    pub fn at(characters: &'a [u8]) -> Option<Held<'a>>
        ensures { IfSome result (λ held. held.characters.now ≡ characters.now) }
    {
        if characters.len() < FRONT {
            return None;
        }
        Some(Held {
            characters,
            pairs: side_by_side(characters),
        })
    }

    // The kind that the first byte names, for a caller that has code for each kind.
    #[inline(always)]
    pub fn kind(&self) -> Option<Kind>
        ensures { let held = self.now.characters.now in
            result ≡ kind_of (byte_by (high_worth held 0) (low_worth held 0)) }
    {
        Kind::of(self.pairs.bytes[0])
    }

    // The frame of this kind at the front: its line and the end behind it are not searched for, and its digits are tested at
    // once. `None` decides nothing: there may be a frame, an expression say, or a fault.
    #[inline(always)]
    pub fn frame(&self, kind: Kind) -> Option<Front>
        ensures { IfSome result (BeginsFrame self.now.characters.now) }
    {
        if !kind.is_named(self.pairs.bytes[0]) {
            return None;
        }
        let line = kind.line_at(self.characters)?;
        let mut reader = Reader::prepared(line, self.pairs);
        reader.byte();
        let frame = frame_of(kind, &mut reader);
        if !reader.is_sound() {
            return None;
        }
        Some(Front {
            frame,
            length: line.len(),
        })
    }
}
