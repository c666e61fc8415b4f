// A line of the desk's input becomes a frame: one named kind with its own numbers, each of its kind from here on.
#![tactic(auto)]

ghost use Rattle.std.specs.Prelude.{◌≡◌};
ghost use Rattle.frames.specs.Digits.{bytes};
ghost use Rattle.frames.specs.Frames.{frame_by, FrameOf};
ghost use Rattle.frames.specs.Kinds.{HasLength};
ghost use Rattle.frames.specs.Measured.{IsMeasured};
ghost use Rattle.frames.specs.Pairs.{byte_read};
ghost use Rattle.frames.specs.Reader.{IsAt, ReadsWhole};
ghost use Rattle.frames.specs.Written.{kind_in};

use digits::is_sound;
use kind::Kind;
use kinds::{
    Concept, ConceptName, Counts, DeedNumber, Individual, RoleName, Rounds, SignedRole, State,
};
use marks::Marks;
use reader::Reader;

mod digits;
mod field;
pub mod held;
pub mod kind;
pub mod marks;
mod pairs;
mod reader;
pub mod text;
pub mod theorems;
mod written;

pub use written::line_of;

// What a line says.
#[derive(Drop)]
pub enum Frame {
    Declared(Counts),
    ConceptRule(Concept, Concept),
    ConceptExclusion(Concept, Concept),
    RoleRule(SignedRole, SignedRole),
    RoleExclusion(SignedRole, SignedRole),
    ConceptFact(ConceptName, Individual, DeedNumber),
    RoleFact(RoleName, Individual, Individual, DeedNumber),
    RoleStep(State, SignedRole, State),
    TestStep(State, ConceptName, State),
    Final(State),
    Ask(Individual, Individual),
    AskFrom(Individual),
    Allowance(Rounds),
    Expression(Marks),
    Salvage,
    ListedMark(Rounds, State, State, Concept),
}

impl Frame {
    pub fn kind(&self) -> Kind
        ensures { result ≡ kind_in self.now }
    {
        match self {
            Frame::Declared(_) => Kind::Declared,
            Frame::ConceptRule(_, _) => Kind::ConceptRule,
            Frame::ConceptExclusion(_, _) => Kind::ConceptExclusion,
            Frame::RoleRule(_, _) => Kind::RoleRule,
            Frame::RoleExclusion(_, _) => Kind::RoleExclusion,
            Frame::ConceptFact(_, _, _) => Kind::ConceptFact,
            Frame::RoleFact(_, _, _, _) => Kind::RoleFact,
            Frame::RoleStep(_, _, _) => Kind::RoleStep,
            Frame::TestStep(_, _, _) => Kind::TestStep,
            Frame::Final(_) => Kind::Final,
            Frame::Ask(_, _) => Kind::Ask,
            Frame::AskFrom(_) => Kind::AskFrom,
            Frame::Allowance(_) => Kind::Allowance,
            Frame::Expression(_) => Kind::Expression,
            Frame::Salvage => Kind::Salvage,
            Frame::ListedMark(_, _, _, _) => Kind::ListedMark,
        }
    }
}

// Why a line is no frame: its characters, or the frame's kind or length.
#[derive(Clone, Copy)]
pub enum Misread {
    BadLine,
    BadFrame,
}

// Digits are below it.
pub const BASE: u8 = 16;

// A frame at the front of some characters, and how many of them are its line, without the end.
#[derive(Drop)]
pub struct Front {
    pub frame: Frame,
    pub length: usize,
}

// The frame of a kind, by a reader behind the byte that names it.
#[inline(always)]
#[tactic(auto, using(crate::proofs::Lengths::no_longer))]
pub(crate) fn frame_of(kind: Kind, reader: &mut Reader) -> Frame
    requires behind { IsAt 1 reader.old }
    requires measured { IsMeasured reader.old.line.now }
    requires length { HasLength kind (bytes reader.old.line.now) }
    ensures frame { let line = reader.old.line.now in
        result ≡ frame_by (byte_read line) (bytes line) kind }
    ensures whole { ReadsWhole reader.old reader.new }
{
    match kind {
        Kind::Declared => Frame::Declared(Counts {
            names: reader.field(),
            roles: reader.field(),
            individuals: reader.field(),
            states: reader.field(),
            start: reader.field(),
        }),
        Kind::ConceptRule => Frame::ConceptRule(reader.field(), reader.field()),
        Kind::ConceptExclusion => Frame::ConceptExclusion(reader.field(), reader.field()),
        Kind::RoleRule => Frame::RoleRule(reader.field(), reader.field()),
        Kind::RoleExclusion => Frame::RoleExclusion(reader.field(), reader.field()),
        Kind::ConceptFact => Frame::ConceptFact(reader.field(), reader.field(), reader.deed()),
        Kind::RoleFact => Frame::RoleFact(
            reader.field(),
            reader.field(),
            reader.field(),
            reader.deed(),
        ),
        Kind::RoleStep => Frame::RoleStep(reader.field(), reader.field(), reader.field()),
        Kind::TestStep => Frame::TestStep(reader.field(), reader.field(), reader.field()),
        Kind::Final => Frame::Final(reader.field()),
        Kind::Ask => Frame::Ask(reader.field(), reader.field()),
        Kind::Allowance => Frame::Allowance(reader.allowance()),
        Kind::Expression => Frame::Expression(reader.marks()),
        Kind::AskFrom => Frame::AskFrom(reader.field()),
        Kind::Salvage => Frame::Salvage,
        Kind::ListedMark => Frame::ListedMark(
            reader.rounds(),
            reader.field(),
            reader.field(),
            reader.field(),
        ),
    }
}

// The frame of a line, whose characters, kind and length are tested before its fields are read.
pub fn read(line: &[u8]) -> Result<Frame, Misread>
    ensures { FrameOf line.now result }
{
    if !is_sound(line) {
        return Err(Misread::BadLine);
    }
    let mut reader = Reader::opened(line);
    let Some(kind) = Kind::of(reader.byte()) else {
        return Err(Misread::BadFrame);
    };
    if !kind.has_length(line.len() / 2) {
        return Err(Misread::BadFrame);
    }
    Ok(frame_of(kind, &mut reader))
}
