// The kinds of frame: the byte that names each, and how many bytes its frame has.
ghost use Rattle.std.specs.Prelude.{◌≡◌, ◌↔◌, IsTrue, IfSome, Some};
ghost use Rattle.std.specs.Bool.{OnTrue};
ghost use Rattle.frames.specs.Kinds.{kind_of, frame_length, HasLength};
ghost use Rattle.frames.specs.Front.{BeginsLine};
ghost use Rattle.frames.specs.Written.{kind_byte};

// The bytes that some frames may have more: those of a deed number, and of an allowance that has four.
const MORE: usize = 2;

// Each kind at the byte that names it.
#[derive(Clone, Copy, PartialEq, Eq)]
pub enum Kind {
    Declared = 0x01,
    ConceptRule = 0x02,
    ConceptExclusion = 0x03,
    RoleRule = 0x04,
    RoleExclusion = 0x05,
    ConceptFact = 0x06,
    RoleFact = 0x07,
    RoleStep = 0x08,
    TestStep = 0x09,
    Final = 0x0A,
    Ask = 0x0B,
    Allowance = 0x0C,
    Expression = 0x0D,
    AskFrom = 0x0E,
    Salvage = 0x0F,
    ListedMark = 0x10,
}

impl Kind {
    // The kind that a frame's first byte names.
    #[tactic(auto, unfolding(crate::specs::Kinds::kind_of))]
    #[inline(always)]
    pub(crate) fn of(byte: u8) -> Option<Kind>
        ensures { result ≡ kind_of byte }
    {
        let kind = match byte {
            0x01 => Kind::Declared,
            0x02 => Kind::ConceptRule,
            0x03 => Kind::ConceptExclusion,
            0x04 => Kind::RoleRule,
            0x05 => Kind::RoleExclusion,
            0x06 => Kind::ConceptFact,
            0x07 => Kind::RoleFact,
            0x08 => Kind::RoleStep,
            0x09 => Kind::TestStep,
            0x0A => Kind::Final,
            0x0B => Kind::Ask,
            0x0C => Kind::Allowance,
            0x0D => Kind::Expression,
            0x0E => Kind::AskFrom,
            0x0F => Kind::Salvage,
            0x10 => Kind::ListedMark,
            _ => return None,
        };
        Some(kind)
    }

    // The byte that names this kind.
    #[inline(always)]
    pub(crate) fn byte(self) -> u8
        ensures { result ≡ kind_byte self }
    {
        self as u8
    }

    // Whether a frame's first byte names this kind.
    #[inline(always)]
    pub(crate) fn is_named(self, byte: u8) -> bool
        ensures { OnTrue result (kind_of byte ≡ Some self) }
    {
        match Kind::of(byte) {
            Some(kind) => kind == self,
            None => false,
        }
    }

    // The bytes of its frame, with the byte that names it. The deed number of a fact, the two bytes more of a long allowance
    // and the marks of an expression are not counted.
    fn length(self) -> usize
        ensures { result ≡ frame_length self }
    {
        match self {
            Kind::Declared => 6,
            Kind::ConceptRule => 3,
            Kind::ConceptExclusion => 3,
            Kind::RoleRule => 3,
            Kind::RoleExclusion => 3,
            Kind::ConceptFact => 3,
            Kind::RoleFact => 4,
            Kind::RoleStep => 4,
            Kind::TestStep => 4,
            Kind::Final => 2,
            Kind::Ask => 3,
            Kind::Allowance => 3,
            Kind::Expression => 1,
            Kind::AskFrom => 2,
            Kind::Salvage => 1,
            Kind::ListedMark => 8,
        }
    }

    // Whether its frame may have so many bytes: a deed number may end a fact, an allowance has two bytes or four, and an
    // expression has any number of marks.
    pub(crate) fn has_length(self, bytes: usize) -> bool
        ensures { IsTrue result ↔ HasLength self bytes }
    {
        let own = self.length();
        match self {
            Kind::ConceptFact | Kind::RoleFact | Kind::Allowance => {
                bytes == own || bytes == own + MORE
            }
            Kind::Expression => true,
            _ => bytes == own,
        }
    }

    // The line of this kind at the front of some characters, where an end stands where a frame of the kind ends. The end
    // behind the marks of an expression, which may be anywhere, is not looked for.
    #[inline(always)]
    pub(crate) fn line_at<'a>(self, held: &'a [u8]) -> Option<&'a [u8]>
        ensures { IfSome result (λ line. BeginsLine self held.now line.now) }
    {
        let own = 2 * self.length();
        if own < held.len() && held[own] == b'\n' {
            return Some(&held[..own]);
        }
        let noted = own + 2 * MORE;
        match self {
            Kind::ConceptFact | Kind::RoleFact if noted < held.len() && held[noted] == b'\n' => {
                Some(&held[..noted])
            }
            _ => None,
        }
    }
}
