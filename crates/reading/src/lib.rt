// A file read line by line: each line's frame is refused with its number, or its record is kept in the table of its kind.
#![tactic(auto)]

ghost use Rattle.std.specs.Prelude.{◌≡◌, ◌↔◌, ◌+◌, ◌-◌, ◌^◌, ◌<◌, ◌≤◌, [], Ok, Err, Some, IsTrue, IfOk, IfErr, IfSome, OnOk, OnErr, min};
ghost use Rattle.reading.specs.Front.{TakesFront, TakesLines};
ghost use Rattle.kinds.specs.Kinds.{number_of, most_states};
ghost use Rattle.meaning.specs.Demands.{most_rounds};
ghost use Rattle.tables.specs.Lists.{lists};
ghost use Rattle.streams.specs.Input.{left_of};
ghost use Rattle.streams.specs.Lines.{lines};
ghost use Rattle.reading.specs.Refusal.{refusal_number, refusal_of};
ghost use Rattle.reading.specs.Laws.{IsListed};
ghost use Rattle.reading.specs.File.{file_of, file_with, allowance_in, Asks, LendsTables, HoldsOpen, HasShelfRoom, IsSmall};
ghost use Rattle.reading.specs.Reads.{BeginsList, IsOpenFor, IsRead, ReadsOn, ReadsUpTo, fault_after, told_at_end};
ghost use Rattle.reading.specs.Room.{room_left};
ghost use Rattle.reading.specs.Retained.{retained, KeepsMarked};
ghost use Rattle.reading.specs.Tables.{most_lines, typed_in};
ghost use Rattle.reading.specs.Tidy.{SpellsOut, TidiesTables};
ghost use Rattle.reading.specs.Turns.{ExpressionJudged, RowJudged, TakesLine};
ghost use Rattle.reading.specs.Next.{Proceeds};

use expressed::Expression;
use frames::held::Held;
use frames::kind::Kind;
use frames::marks::Marks;
use frames::{Frame, Front, Misread};
use kinds::{Ask, Concept, Counts, Rounds, State};
use retain::marks_of;
use salvage::Typed;
use shelf::Shelf;
use sorted::FINAL_WIDTH;
use std::io;
use streams::Source;
use streams::lines::{Lines, Next};
use tables::collection::{
    CONCEPT_EXCLUSIONS, CONCEPT_FACTS, CONCEPT_RULES, FINALS, ROLE_EXCLUSIONS, ROLE_FACTS,
    ROLE_RULES, STEPS,
};
use tables::{Collection, ConceptFact, ConceptPair, RoleFact, RolePair, Step, Table};
use typed::{MOST_TYPED, TypedLines};

pub mod expressed;
mod judge;
mod retain;
pub mod shelf;
pub mod theorems;
pub mod typed;

// The most asks of a file.
pub const ASKS: usize = 256;

// The most entries of the list that ends a file.
pub const LISTED: usize = 131_072;

// The characters that tell whether a line is an entry of a list: those of its kind.
const LIST_BEGINS: usize = 2;

// What is declared before line 1 is read.
const NOTHING: Counts = Counts {
    names: 0,
    roles: 0,
    individuals: 0,
    states: 0,
    start: State(0),
};

// Why a file is refused: by its first faulty line, or where no line is faulty, since its list is not that of its sheet.
#[derive(Clone, Copy)]
pub enum Refusal {
    BadCount,
    BadTable,
    BadNumber,
    BadAsk,
    BadLine,
    BadFrame,
    OutOfPlace,
    NoExpression,
    TooDeep,
    AnotherShape,
    NotTheSheet,
}

// A file's first faulty line, counted from 1, and why it is refused.
#[derive(Clone, Copy)]
pub struct Fault {
    pub line: usize,
    pub refusal: Refusal,
}

// What stands behind the lines that were read of an input: nothing, or the list that ends it.
#[derive(Clone, Copy)]
pub enum Behind {
    Nothing,
    List,
}

// What came of the next line: it was taken, or refused, or there was none.
#[derive(Clone, Copy)]
enum Progress {
    Taken,
    Refused(Refusal),
    Ended,
}

// The steps and the final states of a question.
#[derive(Drop)]
struct Question<'a> {
    steps: Table<'a, Step>,
    finals: Table<'a, State>,
}

// What is read of a file: what line 1 declares, the allowance and the expression where they are given, the tables, how many
// lines were read, and of them how many entries of a list, whether salvage is chosen, and what each line before the list
// types.
#[derive(Drop)]
pub struct File {
    pub counts: Counts,
    pub allowance: Option<Rounds>,
    pub concept_rules: Shelf<ConceptPair, { ConceptPair::WIDTH }, { CONCEPT_RULES }>,
    pub concept_exclusions: Shelf<ConceptPair, { ConceptPair::WIDTH }, { CONCEPT_EXCLUSIONS }>,
    pub role_rules: Shelf<RolePair, { RolePair::WIDTH }, { ROLE_RULES }>,
    pub role_exclusions: Shelf<RolePair, { RolePair::WIDTH }, { ROLE_EXCLUSIONS }>,
    pub concept_facts: Shelf<ConceptFact, { ConceptFact::WIDTH }, { CONCEPT_FACTS }>,
    pub role_facts: Shelf<RoleFact, { RoleFact::WIDTH }, { ROLE_FACTS }>,
    pub steps: Shelf<Step, { Step::WIDTH }, { STEPS }>,
    pub finals: Shelf<State, { FINAL_WIDTH }, { FINALS }>,
    pub expression: Option<Expression>,
    pub asks: Shelf<Ask, { Ask::WIDTH }, { ASKS }>,
    pub lines: usize,
    pub listed: usize,
    pub salvages: bool,
    pub typed: TypedLines,
}

impl Refusal {
    pub fn number(self) -> u8
        ensures number { result ≡ refusal_number self }
        ensures listed { IsListed result }
    {
        match self {
            Refusal::BadCount => 4,
            Refusal::BadTable => 5,
            Refusal::BadNumber => 6,
            Refusal::BadAsk => 8,
            Refusal::BadLine => 9,
            Refusal::BadFrame => 10,
            Refusal::OutOfPlace => 11,
            Refusal::NoExpression => 12,
            Refusal::TooDeep => 13,
            Refusal::AnotherShape => 14,
            Refusal::NotTheSheet => 15,
        }
    }
}

impl From<Misread> for Refusal {
    ghost from_gives = { λ m r. r ≡ refusal_of m };

    fn from(misread: Misread) -> Refusal {
        match misread {
            Misread::BadLine => Refusal::BadLine,
            Misread::BadFrame => Refusal::BadFrame,
        }
    }
}

// Concepts × states × (states − 1) rounds, which always suffice. Of more than a file may declare, at most what 32 bits hold.
#[tactic(auto, using(crate::proofs::Allowance::stopped))]
fn most_rounds(counts: Counts) -> Rounds
    ensures { result ≡ min (most_rounds counts) (2 ^ 32 - 1) }
{
    let names = Rounds::from(counts.names);
    let roles = Rounds::from(counts.roles);
    let states = Rounds::from(counts.states);
    let others = states.saturating_sub(1);
    (names + 2 * roles)
        .saturating_mul(states)
        .saturating_mul(others)
}

// What the line of a frame types. An entry of a list stands behind all facts, and is left out.
#[inline(always)]
fn typed_in(frame: &Frame) -> Option<Typed>
    ensures { result ≡ typed_in frame.now }
{
    match frame {
        Frame::ConceptFact(_, _, _) => Some(Typed::ConceptFact),
        Frame::RoleFact(_, _, _, _) => Some(Typed::RoleFact),
        Frame::ListedMark(_, _, _, _) => None,
        _ => Some(Typed::Other),
    }
}

fn number(c: Concept) -> u16
    requires { number_of c < 2 ^ 16 }
    ensures { result ≡ number_of c }
{
    c.number() as u16
}

impl File {
    // Nothing read yet.
    #[tactic(auto, unfolding(crate::specs::Tables::table, crate::specs::Tables::entries, crate::specs::Tables::typed_lines))]
    pub fn new() -> File
        ensures { result ≡ file_of [] }
    {
        File {
            counts: NOTHING,
            allowance: None,
            concept_rules: Shelf::new(),
            concept_exclusions: Shelf::new(),
            role_rules: Shelf::new(),
            role_exclusions: Shelf::new(),
            concept_facts: Shelf::new(),
            role_facts: Shelf::new(),
            steps: Shelf::new(),
            finals: Shelf::new(),
            expression: None,
            asks: Shelf::new(),
            lines: 0,
            listed: 0,
            salvages: false,
            typed: TypedLines::new(),
        }
    }

    fn clear(&mut self)
        ensures { self.new ≡ file_of [] }
    {
        *self = File::new();
    }

    // The allowance of rounds; where none is given, as many as always suffice.
    pub fn allowance(&self) -> Rounds
        ensures held { result ≡ min (allowance_in self.now) (2 ^ 32 - 1) }
        ensures read { IsRead self.now → result ≡ allowance_in self.now }
    {
        match self.allowance {
            Some(rounds) => rounds,
            None => most_rounds(self.counts),
        }
    }

    // The question: that of the expression, where one is given, or as it was typed.
    fn question(&self) -> Question<'_>
        ensures { Asks self.now result.steps.numbers.now result.finals.numbers.now }
    {
        match &self.expression {
            Some(expression) => {
                let automaton = expression.automaton();
                Question {
                    steps: automaton.steps(),
                    finals: automaton.finals(),
                }
            }
            None => Question {
                steps: self.steps.table(),
                finals: self.finals.table(),
            },
        }
    }

    // What a call of the library is lent.
    pub fn collection(&self) -> Collection<'_>
        ensures counts { result.counts ≡ self.now.counts }
        ensures tables { LendsTables self.now (lists result) }
    {
        let Question { steps, finals } = self.question();
        Collection {
            counts: self.counts,
            concept_rules: self.concept_rules.table(),
            concept_exclusions: self.concept_exclusions.table(),
            role_rules: self.role_rules.table(),
            role_exclusions: self.role_exclusions.table(),
            concept_facts: self.concept_facts.table(),
            role_facts: self.role_facts.table(),
            steps,
            finals,
        }
    }

    // The asks, in their order.
    pub fn asks(&self) -> Table<'_, Ask>
        ensures { result.numbers.now ≡ self.now.asks }
    {
        self.asks.table()
    }

    // Where an expression is held, the steps and the final states of its automaton take its place, as if they had been typed.
    pub fn spell_out(&mut self)
        ensures { SpellsOut self.old self.new }
    {
        if let Some(expression) = &self.expression {
            let automaton = expression.automaton();
            self.steps.replace(automaton.steps().numbers);
            self.finals.replace(automaton.finals().numbers);
            self.expression = None;
        }
    }

    // Each table in order, each record once. The asks stay as they came.
    pub fn tidy(&mut self)
        ensures { TidiesTables self.old self.new }
    {
        self.concept_rules.tidy();
        self.concept_exclusions.tidy();
        self.role_rules.tidy();
        self.role_exclusions.tidy();
        self.concept_facts.tidy();
        self.role_facts.tidy();
        self.steps.tidy();
        self.finals.tidy();
    }

    // The facts whose lines are marked false leave their tables, and their lines are counted no more.
    #[inline(never)]
    #[tactic(auto, using(crate::proofs::RetainedLaws::keeps_marked))]
    pub fn keep_marked(&mut self, marks: &[bool])
        ensures held { self.new ≡ retained self.old marks.now }
        ensures frames { KeepsMarked self.old marks.now self.new }
    {
        let mut row = [true; MOST_TYPED];
        let concepts = marks_of(Typed::ConceptFact, self.typed.as_slice(), marks, &mut row);
        self.concept_facts.keep_marked(&row[..concepts]);
        let roles = marks_of(Typed::RoleFact, self.typed.as_slice(), marks, &mut row);
        self.role_facts.keep_marked(&row[..roles]);
        let dropped = self.typed.keep_marked(marks);
        self.lines = self.lines.saturating_sub(dropped);
    }

    // An expression kept with its automaton, or refused. It is a call of its own, never put into `keep`, which would else
    // make room for an automaton at each line.
    #[inline(never)]
    fn express(&mut self, marks: Marks) -> Result<(), Refusal>
        ensures taken { OnOk result (RowJudged self.old.counts marks (Ok tt)) }
        ensures refused { self.old.counts.states ≤ most_states
            → IfErr result (λ refusal. RowJudged self.old.counts marks (Err refusal)) }
        ensures ok { OnOk result (self.new ≡ record self.old { expression = Some marks }) }
        ensures err { OnErr result (self.new ≡ self.old) }
    {
        self.expression = Some(Expression::read(marks, self.counts)?);
        Ok(())
    }

    // A frame kept: its record goes to the end of its table, and an expression is kept with its automaton, or refused.
    #[inline(always)]
    fn keep(&mut self, frame: Frame) -> Result<(), Refusal>
        requires room { HasShelfRoom self.old frame }
        requires small { IsSmall frame }
        ensures judged { self.old.counts.states ≤ most_states
            → ExpressionJudged self.old.counts frame result }
        ensures ok { OnOk result (self.new ≡ file_with frame self.old) }
        ensures err { OnErr result (self.new ≡ self.old) }
    {
        let typed = typed_in(&frame);
        match frame {
            Frame::Declared(counts) => self.counts = counts,
            Frame::ConceptRule(c, d) => self.concept_rules.push([number(c), number(d)]),
            Frame::ConceptExclusion(c, d) => self.concept_exclusions.push([number(c), number(d)]),
            Frame::RoleRule(r, s) => self.role_rules.push([r.0, s.0]),
            Frame::RoleExclusion(r, s) => self.role_exclusions.push([r.0, s.0]),
            Frame::ConceptFact(a, i, deed) => self.concept_facts.push([a.0, i.0, deed.0]),
            Frame::RoleFact(r, i, j, deed) => self.role_facts.push([r.0, i.0, j.0, deed.0]),
            Frame::RoleStep(s, r, t) => self.steps.push([0, s.0, r.0, t.0]),
            Frame::TestStep(s, a, t) => self.steps.push([1, s.0, a.0, t.0]),
            Frame::Final(s) => self.finals.push([s.0]),
            Frame::Ask(i, j) => self.asks.push([0, i.0, j.0]),
            Frame::AskFrom(i) => self.asks.push([1, i.0, 0]),
            Frame::Allowance(rounds) => self.allowance = Some(rounds),
            Frame::Expression(marks) => self.express(marks)?,
            Frame::Salvage => self.salvages = true,
            Frame::ListedMark(_, _, _, _) => self.listed += 1,
        }
        if let Some(typed) = typed {
            self.typed.push(typed);
        }
        self.lines = self.lines.saturating_add(1);
        Ok(())
    }

    // A line read: its frame is kept, or the line is refused and nothing changes.
    fn take_line(&mut self, line: &[u8]) -> Result<(), Refusal>
        ensures turn { TakesLine self.old line.now result self.new }
        ensures room { OnOk result (room_left self.new < room_left self.old) }
        ensures err { OnErr result (self.new ≡ self.old) }
    {
        let frame = frames::read(line)?;
        self.judge(&frame)?;
        self.keep(frame)
    }

    // The line at the front of what is held, taken where it stands: how many characters it has with its end. 0 where that is
    // not decided here, and then nothing changes.
    #[inline(always)]
    #[tactic(auto, using(crate::proofs::Fronts::at_front))]
    fn take_front(&mut self, held: &[u8]) -> usize
        requires { HoldsOpen self.old }
        ensures { TakesFront self.old held.now result self.new }
    {
        let Some(front) = Held::at(held) else {
            return 0;
        };
        let Some(kind) = front.kind() else {
            return 0;
        };
        match kind {
            Kind::ConceptRule => self.take_kind(Kind::ConceptRule, &front),
            Kind::ConceptExclusion => self.take_kind(Kind::ConceptExclusion, &front),
            Kind::RoleRule => self.take_kind(Kind::RoleRule, &front),
            Kind::RoleExclusion => self.take_kind(Kind::RoleExclusion, &front),
            Kind::ConceptFact => self.take_kind(Kind::ConceptFact, &front),
            Kind::RoleFact => self.take_kind(Kind::RoleFact, &front),
            Kind::RoleStep => self.take_kind(Kind::RoleStep, &front),
            Kind::TestStep => self.take_kind(Kind::TestStep, &front),
            Kind::Final => self.take_kind(Kind::Final, &front),
            Kind::Ask => self.take_kind(Kind::Ask, &front),
            Kind::AskFrom => self.take_kind(Kind::AskFrom, &front),
            Kind::Declared
            | Kind::Allowance
            | Kind::Expression
            | Kind::Salvage
            | Kind::ListedMark => 0,
        }
    }

    // A line of a kind, taken so. Each kind that adds a record has code of its own, in which nothing asks for the kind again.
    #[inline(always)]
    fn take_kind(&mut self, kind: Kind, held: &Held) -> usize
        requires { HoldsOpen self.old }
        ensures { TakesFront self.old held.now.characters.now result self.new }
    {
        let Some(Front { frame, length }) = held.frame(kind) else {
            return 0;
        };
        if !self.passes(&frame) {
            return 0;
        }
        match self.keep(frame) {
            Ok(()) => length + 1,
            Err(_) => 0,
        }
    }

    // The lines at the front of what is held, as long as they are taken so: how many characters they have.
    fn take_lines(&mut self, held: &[u8]) -> usize
        ensures { TakesLines self.old held.now result self.new }
    {
        if !self.is_open() {
            return 0;
        }
        let mut at = 0;
        'lines: loop {
            let n = self.take_front(&held[at..]);
            if n == 0 {
                return at;
            }
            at += n;
        }
    }

    // The next line of an input, read by itself, whatever it is, which alone tells the numbers 9 and 10. Where it is not taken
    // nothing changes.
    fn take_next<S: Source>(&mut self, input: &mut Lines<S>) -> io::Result<Progress>
        ensures ok { IfOk result (λ progress.
            Proceeds (left_of input.old) (left_of input.new) self.old progress self.new) }
        ensures fails { IfErr result S.fails }
    {
        let progress = match input.next()? {
            Next::End => Progress::Ended,
            Next::TooLong => Progress::Refused(Refusal::BadLine),
            Next::Line(line) => match self.take_line(line.as_slice()) {
                Ok(()) => Progress::Taken,
                Err(refusal) => Progress::Refused(refusal),
            },
        };
        Ok(progress)
    }

    // The line after those that are read, refused.
    fn fault(&self, refusal: Refusal) -> Fault
        ensures { result ≡ fault_after self.now refusal }
    {
        Fault {
            line: self.lines.saturating_add(1),
            refusal,
        }
    }

    // What is found where no line is left. An empty file lacks its line 1.
    fn ended(&self) -> Result<(), Fault>
        ensures told { result ≡ told_at_end self.now }
        ensures begun { OnOk result (0 < self.now.lines) }
    {
        if self.lines == 0 {
            return Err(self.fault(Refusal::OutOfPlace));
        }
        Ok(())
    }

    // Whether a list begins, behind line 1, at the front of what is held.
    fn begins_list(&self, held: &[u8]) -> bool
        ensures { IsTrue result ↔ (HoldsOpen self.now × BeginsList held.now) }
    {
        self.is_open() && 1 < held.len() && held[0] == b'1' && held[1] == b'0'
    }
}

// A line is read by itself, and those behind it are taken where they stand, up to one that is not; so on, up to a list.
fn read_lines<S: Source>(input: &mut Lines<S>, file: &mut File) -> io::Result<Result<Behind, Fault>>
    requires { file.old ≡ file_of [] }
    ensures found { IfOk result (λ found.
        ReadsUpTo (left_of input.old) (left_of input.new) found file.new) }
    ensures taken { IfOk result (λ found. IsRead file.new) }
    ensures begun { IfOk result (λ found. OnOk found (0 < file.new.lines)) }
    ensures is_open { IfOk result (λ found. IfOk found (λ behind. IsOpenFor behind file.new)) }
    ensures line { IfOk result (λ found. IfErr found (λ fault. fault.line ≤ most_lines + 1)) }
    ensures fails { IfErr result S.fails }
{
    'lines: loop {
        input.fill(LIST_BEGINS)?;
        if file.begins_list(input.held()) {
            return Ok(Ok(Behind::List));
        }
        match file.take_next(input)? {
            Progress::Taken => {}
            Progress::Refused(refusal) => return Ok(Err(file.fault(refusal))),
            Progress::Ended => {
                return match file.ended() {
                    Ok(()) => Ok(Ok(Behind::Nothing)),
                    Err(fault) => Ok(Err(fault)),
                };
            }
        }
        let taken = file.take_lines(input.held());
        input.consume(taken);
    }
}

// The lines that are left of an input read into a file, up to the first faulty one, or to the list that ends it. Whatever
// the file held is gone; after an `Err` it holds nothing.
pub fn read<S: Source>(input: &mut Lines<S>, file: &mut File) -> io::Result<Result<Behind, Fault>>
    ensures found { IfOk result (λ found.
        ReadsUpTo (left_of input.old) (left_of input.new) found file.new) }
    ensures taken { IfOk result (λ found. IsRead file.new) }
    ensures begun { IfOk result (λ found. OnOk found (0 < file.new.lines)) }
    ensures is_open { IfOk result (λ found. IfOk found (λ behind. IsOpenFor behind file.new)) }
    ensures line { IfOk result (λ found. IfErr found (λ fault. fault.line ≤ most_lines + 1)) }
    ensures err { OnErr result (file.new ≡ file_of []) }
    ensures fails { IfErr result S.fails }
{
    file.clear();
    match read_lines(input, file) {
        Ok(found) => Ok(found),
        Err(e) => {
            file.clear();
            Err(e)
        }
    }
}

// Each line that is left is read by itself, whatever was held.
fn read_rest<S: Source>(input: &mut Lines<S>, file: &mut File) -> io::Result<Result<(), Fault>>
    ensures found { IfOk result (λ found.
        IfSome (left_of input.old) (λ left. ReadsOn file.old (lines left) found file.new)) }
    ensures taken { IsRead file.old → IfOk result (λ found. IsRead file.new) }
    ensures begun { IfOk result (λ found. OnOk found (0 < file.new.lines)) }
    ensures line { IsRead file.old
        → IfOk result (λ found. IfErr found (λ fault. fault.line ≤ most_lines + 1)) }
    ensures fails { IfErr result S.fails }
{
    'lines: loop {
        match file.take_next(input)? {
            Progress::Taken => {}
            Progress::Refused(refusal) => return Ok(Err(file.fault(refusal))),
            Progress::Ended => return Ok(file.ended()),
        }
    }
}

// The lines that are left read on into a file, those of a list among them, up to the first faulty one. After an `Err` the
// file holds nothing.
pub fn read_on<S: Source>(input: &mut Lines<S>, file: &mut File) -> io::Result<Result<(), Fault>>
    ensures found { IfOk result (λ found.
        IfSome (left_of input.old) (λ left. ReadsOn file.old (lines left) found file.new)) }
    ensures taken { IsRead file.old → IfOk result (λ found. IsRead file.new) }
    ensures begun { IfOk result (λ found. OnOk found (0 < file.new.lines)) }
    ensures line { IsRead file.old
        → IfOk result (λ found. IfErr found (λ fault. fault.line ≤ most_lines + 1)) }
    ensures err { OnErr result (file.new ≡ file_of []) }
    ensures fails { IfErr result S.fails }
{
    match read_rest(input, file) {
        Ok(found) => Ok(found),
        Err(e) => {
            file.clear();
            Err(e)
        }
    }
}
