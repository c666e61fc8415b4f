// The reader of an expression: it goes once through a row of marks, into brackets by calling
// itself, and the depth that is left falls at each.

ghost use Rattle.std.specs.Prelude.{◌<◌, ◌≤◌, ◌≡◌, ◌⊎◌, ℕ, drop, length};
ghost use Rattle.expression.specs.Marks.{opening, closing};
ghost use Rattle.expression.specs.Ends.{next, ItemEnds, SequenceEnds, ExpressionEnds};
ghost use Rattle.expression.specs.Grammar.{Atom, Item, Sequence, Expression};
ghost use Rattle.expression.specs.Reader.{Anything, HasRead, Outcome};

use crate::marks::{CLOSING, OPENING, OR, REPEAT};
use crate::parts::{Marks, Part, Rows, alone, either, joined, many, note};

// What stands at a place is no expression, sequence, item or atom.
#[derive(Clone, Copy)]
pub(crate) struct NothingHere;

// A row of marks and a place in it; how many role and test marks stand before that place, which may
// come just after each, and what each is.
#[derive(Drop)]
pub(crate) struct Reader<'a> {
    pub(crate) marks: &'a [u8],
    pub(crate) at: usize,
    pub(crate) count: usize,
    pub(crate) rows: Rows,
    pub(crate) letters: Marks,
}

impl<'a> Reader<'a> {
    // The mark at the place; the end of the row counts as a closing bracket.
    fn next(&self) -> u8
        ensures value { result ≡ next (drop self.now.at self.now.marks.now) }
        ensures inside { (self.now.at < length self.now.marks.now) ⊎ (result ≡ closing) }
    {
        if self.at < self.marks.len() {
            self.marks[self.at]
        } else {
            CLOSING
        }
    }

    // A role mark or a test mark.
    fn letter(&mut self, mark: u8) -> Part
        requires first { mark ≡ next (drop self.old.at self.old.marks.now) }
        requires small { mark < opening }
        requires few { self.old.count ≤ self.old.at }
        ensures marks { self.new.marks ≡ self.old.marks }
        ensures read { (d : ℕ) →
            HasRead (Atom d) Anything self.old.marks.now self.old self.new result }
    {
        self.at += 1;
        self.count += 1;
        note(&mut self.letters, self.count, mark);
        let set = alone(self.count);
        Part {
            empty: false,
            first: set,
            last: set,
        }
    }

    // A role mark, a test mark, or an expression in brackets.
    #[cycle(reading)]
    fn atom(&mut self, depth: u8) -> Result<Part, NothingHere>
        requires { self.old.count ≤ self.old.at }
        ensures marks { self.new.marks ≡ self.old.marks }
        ensures outcome { let row = self.old.marks.now in
            Outcome (Atom depth) Anything row self.old self.new result }
    {
        let mark = self.next();
        if mark < OPENING {
            return Ok(self.letter(mark));
        }
        if mark != OPENING {
            return Err(NothingHere);
        }
        if depth == 0 {
            return Err(NothingHere);
        }
        self.at += 1;
        let part = self.expression(depth - 1)?;
        if self.at == self.marks.len() {
            return Err(NothingHere);
        }
        if self.next() != CLOSING {
            return Err(NothingHere);
        }
        self.at += 1;
        Ok(part)
    }

    // An atom, once or any number of times.
    #[cycle(reading)]
    fn item(&mut self, depth: u8) -> Result<Part, NothingHere>
        requires { self.old.count ≤ self.old.at }
        ensures marks { self.new.marks ≡ self.old.marks }
        ensures outcome { let row = self.old.marks.now in
            Outcome (Item depth) ItemEnds row self.old self.new result }
    {
        let part = self.atom(depth)?;
        if self.next() != REPEAT {
            return Ok(part);
        }
        self.at += 1;
        Ok(many(&mut self.rows, part))
    }

    // One or more items.
    #[cycle(reading)]
    fn sequence(&mut self, depth: u8) -> Result<Part, NothingHere>
        requires { self.old.count ≤ self.old.at }
        ensures marks { self.new.marks ≡ self.old.marks }
        ensures outcome { let row = self.old.marks.now in
            Outcome (Sequence depth) SequenceEnds row self.old self.new result }
    {
        let mut part = self.item(depth)?;
        'items: while self.next() <= OPENING {
            let more = self.item(depth)?;
            part = joined(&mut self.rows, part, more);
        }
        Ok(part)
    }

    // One or more sequences, parted by "or".
    #[cycle(reading)]
    pub(crate) fn expression(&mut self, depth: u8) -> Result<Part, NothingHere>
        requires { self.old.count ≤ self.old.at }
        ensures marks { self.new.marks ≡ self.old.marks }
        ensures outcome { let row = self.old.marks.now in
            Outcome (Expression depth) ExpressionEnds row self.old self.new result }
    {
        let mut part = self.sequence(depth)?;
        'sequences: while self.next() == OR {
            self.at += 1;
            let other = self.sequence(depth)?;
            part = either(part, other);
        }
        Ok(part)
    }
}
