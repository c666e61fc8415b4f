// A list of entries as it comes, held against the marks of the rounds as they are made.
ghost use Rattle.std.specs.Prelude.{◌≡◌, ◌<◌, ◌↔◌, [], ◌∷◌, IfOk, IfErr, IfSome, IfNone, OnOk, IsTrue};
ghost use Rattle.std.specs.Bool.{OnTrue, OnFalse};
ghost use Rattle.std.specs.Io.KnownBytes.{Keeps};
ghost use Rattle.streams.specs.Input.{left_of};
ghost use Rattle.streams.specs.Lines.{TakesLine};
ghost use Rattle.reading.specs.Reads.{IsRead};
ghost use Rattle.tables.specs.Lists.{lists};
ghost use Rattle.intake.specs.Held.{LendsSheet};
ghost use Rattle.intake.specs.Next.{TakesLines, BeginsOther, TakesAll};
ghost use Rattle.intake.specs.Compared.{IsBroken, IsCompared};
ghost use Rattle.intake.specs.Stops.{StopsBy};
ghost use Rattle.intake.specs.Entries.{entry_line, round_lines};

use frames::{Frame, line_of};
use index::{Checked, Lent};
use kinds::{Concept, Rounds, State};
use reading::File;
use sheet::{RoundListener, RoundMarks};
use std::io;
use streams::Source;
use streams::lines::Lines;
use tables::{Collection, Table};

// Whether the line of an entry comes next. If so it is taken, with its end, which a last line may lack.
fn take_next<S: Source>(
    lines: &mut Lines<S>,
    round: Rounds,
    mark: (State, State, Concept),
) -> io::Result<bool>
    ensures taken { IfOk result (λ is. OnTrue is (TakesLine (left_of lines.old)
        (left_of lines.new) (entry_line (round, mark.0, mark.1, mark.2)))) }
    ensures kept { IfOk result (λ is. OnFalse is (Keeps (left_of lines.old) (left_of lines.new))) }
    ensures other { IfOk result (λ is. OnFalse is
        (BeginsOther (left_of lines.new) (entry_line (round, mark.0, mark.1, mark.2)))) }
    ensures fails { IfErr result S.fails }
{
    let text = line_of(&Frame::ListedMark(round, mark.0, mark.1, mark.2));
    let line = text.as_slice();
    lines.fill(line.len())?;
    let held = lines.held();
    let count = line.len().min(held.len());
    if held[..count] == line[..count] && line.len() <= count + 1 {
        lines.consume(count);
        return Ok(true);
    }
    Ok(false)
}

// Why a list is not held further against its sheet.
#[derive(Drop)]
pub(crate) enum Stop {
    // Another line stands in place of the next entry's, or none.
    Departs,
    Unread(io::Error),
}

impl From<io::Error> for Stop {
    ghost use Rattle.intake.specs.declared.comparison.Stop.TheVariants.{Unread};

    ghost from_gives = { λ e stop. stop ≡ Unread e };

    fn from(e: io::Error) -> Stop {
        Stop::Unread(e)
    }
}

// A list that is held against its sheet, and how many of its entries are right so far.
#[derive(Drop)]
pub(crate) struct Comparison<'a, S: Source> {
    lines: &'a mut Lines<S>,
    right: usize,
}

impl<'a, S: Source> Comparison<'a, S> {
    pub(crate) fn new(lines: &'a mut Lines<S>) -> Comparison<'a, S>
        ensures same_reference { result.lines.ghost_name ≡ lines.entry.ghost_name }
        ensures lines { result.lines.now ≡ lines.old }
        ensures none { result.right ≡ 0 }
    {
        Comparison { lines, right: 0 }
    }

    // The next entry, which is right where it is this one.
    fn take(&mut self, round: Rounds, mark: (State, State, Concept)) -> Result<(), Stop>
        ensures same_reference { self.new.lines.ghost_name ≡ self.old.lines.ghost_name }
        ensures ok { OnOk result (TakesAll self.old.lines.now self.new.lines.now
            self.old.right self.new.right (entry_line (round, mark.0, mark.1, mark.2) ∷ [])) }
        ensures err { IfErr result (StopsBy S.fails self.old.lines.now self.new.lines.now
            self.old.right self.new.right (entry_line (round, mark.0, mark.1, mark.2) ∷ [])) }
    {
        if !take_next(self.lines, round, mark)? {
            return Err(Stop::Departs);
        }
        self.right = self.right.saturating_add(1);
        Ok(())
    }
}

impl<S: Source> RoundListener for Comparison<'_, S> {
    type Error = Stop;

    ghost hears = { λ old round marks new. (new.lines.ghost_name ≡ old.lines.ghost_name)
        × TakesAll old.lines.now new.lines.now old.right new.right (round_lines round marks) };

    ghost fails = { λ old round marks stop new. (new.lines.ghost_name ≡ old.lines.ghost_name)
        × StopsBy S.fails old.lines.now new.lines.now old.right new.right
        (round_lines round marks) stop };

    fn round_made(&mut self, round: Rounds, marks: &RoundMarks) -> Result<(), Stop> {
        for mark in marks.iter() {
            self.take(round, mark)?;
        }
        Ok(())
    }
}

// How many entries of a list are right, up to one that is another than the listing has there, and whether these are all that the
// listing has.
#[derive(Clone, Copy)]
pub(crate) struct Compared {
    pub(crate) right: usize,
    pub(crate) is_whole: bool,
}

impl Compared {
    // Whether so many entries, the right ones among them, are the listing.
    pub(crate) fn is_all(self, count: usize) -> bool
        ensures { IsTrue result ↔ (IsTrue self.is_whole × (self.right ≡ count)) }
    {
        self.is_whole && self.right == count
    }
}

// The collection of which the sheet is worked that the list of a file is held against. In a file that chooses salvage it is that
// without its facts, which is no contradiction: facts do not change the sheet.
fn sheet_of(file: &File) -> Collection<'_>
    ensures counts { result.counts ≡ file.now.counts }
    ensures tables { LendsSheet file.now (lists result) }
{
    let collection = file.collection();
    if file.salvages {
        return Collection {
            concept_facts: Table::new(&[]),
            role_facts: Table::new(&[]),
            ..collection
        };
    }
    collection
}

// The list that is next in an input, held against the listing of a file's sheet up to where it departs. In a contradiction it is not
// looked at: `None`. The tables in which the sheet is worked are gone afterwards.
#[inline(never)]
pub(crate) fn compare<S: Source>(lines: &mut Lines<S>, file: &File) -> io::Result<Option<Compared>>
    requires read { IsRead file.now }
    requires begun { 0 < file.now.lines }
    ensures compared { IfOk result (λ c. IfSome c (IsCompared file.now lines.old lines.new)) }
    ensures broken { IfOk result (λ c. IfNone c (IsBroken file.now)) }
    ensures unlooked { IfOk result (λ c.
        IfNone c (TakesLines (left_of lines.old) (left_of lines.new) [])) }
    ensures fails { IfErr result S.fails }
{
    let checked = Checked {
        lent: Lent {
            collection: sheet_of(file),
            allowance: file.allowance(),
        },
    };
    let mut comparison = Comparison::new(lines);
    match checked.tell_sheet(&mut comparison) {
        Ok(true) => Ok(Some(Compared {
            right: comparison.right,
            is_whole: true,
        })),
        Ok(false) => Ok(None),
        Err(Stop::Departs) => Ok(Some(Compared {
            right: comparison.right,
            is_whole: false,
        })),
        Err(Stop::Unread(e)) => Err(e),
    }
}
