// A frame judged: of its tests, in their order, the first that fails refuses it. Those of an expression alone come last,
// where it is read.
ghost use Rattle.std.specs.Prelude.{◌≡◌, ◌↔◌, All, IsTrue, None};
ghost use Rattle.std.specs.Bool.{OnTrue};
ghost use Rattle.reading.specs.Judged.{CountsOk, NumbersOk, AskOk};
ghost use Rattle.reading.specs.File.{HoldsOpen, IsInPlace, HasShelfRoom};
ghost use Rattle.reading.specs.Tables.{entry_in};
ghost use Rattle.reading.specs.Turns.{HasNoQuestion, MarkOk, Passes, FrameJudged};

use crate::{File, LISTED, Refusal};
use expression::letter;
use frames::Frame;
use kinds::Counts;

// 4: what is declared.
fn counts_ok(frame: &Frame) -> bool
    ensures { IsTrue result ↔ CountsOk frame.now }
{
    match frame {
        Frame::Declared(counts) => counts.fit(),
        _ => true,
    }
}

// What a role mark or a test mark reads is declared.
fn mark_ok(mark: u8, counts: Counts) -> bool
    ensures { IsTrue result ↔ MarkOk counts mark }
{
    match letter(mark) {
        Some(letter) => letter.declared(counts),
        None => true,
    }
}

// And so it is of every mark of a row.
fn marks_ok(row: &[u8], counts: Counts) -> bool
    ensures { IsTrue result ↔ All (MarkOk counts) row.now }
{
    row.iter().all(|mark| mark_ok(*mark, counts))
}

// 6: the numbers of a record. A deed number may be any, and so may a round.
#[tactic(auto, using(crate::proofs::Questions::all_declared))]
fn numbers_ok(frame: &Frame, counts: Counts) -> bool
    ensures { IsTrue result ↔ NumbersOk counts frame.now }
{
    match frame {
        Frame::ConceptRule(c, d) | Frame::ConceptExclusion(c, d) => {
            c.declared(counts) && d.declared(counts)
        }
        Frame::RoleRule(r, s) | Frame::RoleExclusion(r, s) => {
            r.declared(counts) && s.declared(counts)
        }
        Frame::ConceptFact(a, i, _) => a.declared(counts) && i.declared(counts),
        Frame::RoleFact(r, i, j, _) => {
            r.declared(counts) && i.declared(counts) && j.declared(counts)
        }
        Frame::RoleStep(s, r, t) => {
            s.declared(counts) && r.declared(counts) && t.declared(counts)
        }
        Frame::TestStep(s, a, t) => {
            s.declared(counts) && a.declared(counts) && t.declared(counts)
        }
        Frame::Final(s) => s.declared(counts),
        Frame::Expression(marks) => marks_ok(marks.as_slice(), counts),
        Frame::ListedMark(_, s, t, c) => {
            s.declared(counts) && t.declared(counts) && c.declared(counts)
        }
        _ => true,
    }
}

// 8: an asked individual.
fn ask_ok(frame: &Frame, counts: Counts) -> bool
    ensures { IsTrue result ↔ AskOk counts frame.now }
{
    match frame {
        Frame::Ask(i, j) => i.declared(counts) && j.declared(counts),
        Frame::AskFrom(i) => i.declared(counts),
        _ => true,
    }
}

impl File {
    // Neither an expression nor a step or a final state is given.
    fn has_no_question(&self) -> bool
        ensures { IsTrue result ↔ HasNoQuestion self.now }
    {
        self.expression.is_none() && self.steps.is_empty() && self.finals.is_empty()
    }

    // Whether line 1 is read, and no list has begun.
    #[inline(always)]
    pub(crate) fn is_open(&self) -> bool
        ensures { IsTrue result ↔ HoldsOpen self.now }
    {
        0 < self.lines && self.listed == 0
    }

    // 11: line 1 declares, and no other line does; one allowance is given at most, and salvage is chosen once at most; the
    // question is given by one expression or by steps and final states; and behind the first entry of a list there is nothing
    // but entries.
    fn is_in_place(&self, frame: &Frame) -> bool
        ensures { IsTrue result ↔ IsInPlace self.now frame.now }
    {
        match frame {
            Frame::Declared(_) => self.lines == 0,
            Frame::Allowance(_) => self.is_open() && self.allowance.is_none(),
            Frame::RoleStep(_, _, _) | Frame::TestStep(_, _, _) | Frame::Final(_) => {
                self.is_open() && self.expression.is_none()
            }
            Frame::Expression(_) => self.is_open() && self.has_no_question(),
            Frame::Salvage => self.is_open() && !self.salvages,
            Frame::ListedMark(_, _, _, _) => 0 < self.lines,
            _ => self.is_open(),
        }
    }

    // 5: whether the table that a frame goes into has room for it.
    fn has_room(&self, frame: &Frame) -> bool
        ensures { IsTrue result ↔ HasShelfRoom self.now frame.now }
    {
        match frame {
            Frame::ConceptRule(_, _) => self.concept_rules.has_room(),
            Frame::ConceptExclusion(_, _) => self.concept_exclusions.has_room(),
            Frame::RoleRule(_, _) => self.role_rules.has_room(),
            Frame::RoleExclusion(_, _) => self.role_exclusions.has_room(),
            Frame::ConceptFact(_, _, _) => self.concept_facts.has_room(),
            Frame::RoleFact(_, _, _, _) => self.role_facts.has_room(),
            Frame::RoleStep(_, _, _) | Frame::TestStep(_, _, _) => self.steps.has_room(),
            Frame::Final(_) => self.finals.has_room(),
            Frame::Ask(_, _) | Frame::AskFrom(_) => self.asks.has_room(),
            Frame::ListedMark(_, _, _, _) => self.listed < LISTED,
            Frame::Declared(_) | Frame::Allowance(_) | Frame::Expression(_) | Frame::Salvage => {
                true
            }
        }
    }

    // The tests that a frame of any kind may fail: 11, 4, 5, 6 and 8.
    pub(crate) fn judge(&self, frame: &Frame) -> Result<(), Refusal>
        ensures { FrameJudged self.now frame.now result }
    {
        if !self.is_in_place(frame) {
            return Err(Refusal::OutOfPlace);
        }
        if !counts_ok(frame) {
            return Err(Refusal::BadCount);
        }
        if !self.has_room(frame) {
            return Err(Refusal::BadTable);
        }
        if !numbers_ok(frame, self.counts) {
            return Err(Refusal::BadNumber);
        }
        if !ask_ok(frame, self.counts) {
            return Err(Refusal::BadAsk);
        }
        Ok(())
    }

    // Whether a frame that adds a record to a table, and no entry to a list, passes all these tests behind line 1 and before
    // any list, by one look at its kind. What it does not pass may yet be taken: `judge` tells.
    #[inline(always)]
    pub(crate) fn passes(&self, frame: &Frame) -> bool
        requires { HoldsOpen self.now }
        ensures passes { OnTrue result (Passes self.now frame.now) }
        ensures adds_none { OnTrue result (entry_in frame.now ≡ None) }
    {
        let counts = self.counts;
        match frame {
            Frame::ConceptRule(c, d) => {
                self.concept_rules.has_room() && c.declared(counts) && d.declared(counts)
            }
            Frame::ConceptExclusion(c, d) => {
                self.concept_exclusions.has_room() && c.declared(counts) && d.declared(counts)
            }
            Frame::RoleRule(r, s) => {
                self.role_rules.has_room() && r.declared(counts) && s.declared(counts)
            }
            Frame::RoleExclusion(r, s) => {
                self.role_exclusions.has_room() && r.declared(counts) && s.declared(counts)
            }
            Frame::ConceptFact(a, i, _) => {
                self.concept_facts.has_room() && a.declared(counts) && i.declared(counts)
            }
            Frame::RoleFact(r, i, j, _) => {
                self.role_facts.has_room()
                    && r.declared(counts)
                    && i.declared(counts)
                    && j.declared(counts)
            }
            Frame::RoleStep(s, r, t) => {
                self.expression.is_none()
                    && self.steps.has_room()
                    && s.declared(counts)
                    && r.declared(counts)
                    && t.declared(counts)
            }
            Frame::TestStep(s, a, t) => {
                self.expression.is_none()
                    && self.steps.has_room()
                    && s.declared(counts)
                    && a.declared(counts)
                    && t.declared(counts)
            }
            Frame::Final(s) => {
                self.expression.is_none() && self.finals.has_room() && s.declared(counts)
            }
            Frame::Ask(i, j) => self.asks.has_room() && i.declared(counts) && j.declared(counts),
            Frame::AskFrom(i) => self.asks.has_room() && i.declared(counts),
            _ => false,
        }
    }
}
