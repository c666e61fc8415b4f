// What is written of a file that was read whole: the lines of the facts that it drops, of its rounds, as they are worked, and
// of its asks, answered from one preparation.
ghost use Rattle.std.specs.Prelude.{◌≡◌, ◌<◌, ◌≤◌, true, OnOk, IfErr, length};
ghost use Rattle.reading.specs.Reads.{IsRead};
ghost use Rattle.reading.specs.declared.typed.TheConstants.{MOST_TYPED};
ghost use Rattle.file.specs.Text.{bytes_of, answer_line, IsInBytes};
ghost use Rattle.file.specs.Rounds.{told_line};
ghost use Rattle.file.specs.Replying.{ask_count, held_width, IsLentOf, RoundsAll, AnswersEach, AnswersAll};
ghost use Rattle.file.specs.Settling.{mark_text, marks_text, IsSifted, Settles, AsksSome, HoldsOver};
ghost use Rattle.file.specs.Writes.{frames_width, Reports};

use crate::text;
use crate::text::Width;
use index::{Checked, Lent, Routes};
use kinds::{Answer, Ask, Rounds};
use reading::typed::MOST_TYPED;
use reading::{ASKS, File};
use sheet::{RoundListener, RoundMarks};
use shell::Report;
use sift::salvage;
use std::io;
use streams::Taker;

// What takes the lines of rounds, as they are worked.
#[derive(Drop)]
struct RoundLines<'a, T: Taker> {
    width: Width,
    to: &'a mut T,
}

impl<'a, T: Taker> RoundLines<'a, T> {
    fn new(width: Width, to: &'a mut T) -> RoundLines<'a, T>
        ensures same_reference { result.to.ghost_name ≡ to.entry.ghost_name }
        ensures to { result.to.now ≡ to.old }
        ensures width { result.width ≡ width }
    {
        RoundLines { width, to }
    }
}

impl<T: Taker> RoundListener for RoundLines<'_, T> {
    type Error = io::Error;

    ghost hears = { λ old round marks new. (new.to.ghost_name ≡ old.to.ghost_name)
        × (new.width ≡ old.width)
        × T.takes old.to.now (told_line (bytes_of old.width) round (length marks)) new.to.now };

    ghost fails = { λ old round marks e new. (new.to.ghost_name ≡ old.to.ghost_name)
        × (new.width ≡ old.width)
        × T.fails old.to.now (told_line (bytes_of old.width) round (length marks)) e new.to.now };

    fn round_made(&mut self, round: Rounds, marks: &RoundMarks) -> io::Result<()> {
        if round == 0 {
            // Its marks are states × concepts, and have no line.
            Ok(())
        } else {
            let line = text::round(self.width, round, marks.count());
            self.to.put(line.as_slice())
        }
    }
}

// The rounds of a file that asks something told, and the answers to its asks, in their order. What was read passed the
// library's tests line by line, so that they need not be made again, and nobody asks for the sheet, so that no area is lent.
// The tables that walks go by are gone before the first answer is put. It is a call of its own, never put into its caller, so that
// these tables are not there yet while a list is held against its sheet, which has tables like them.
#[inline(never)]
fn tell_rounds<T: Taker>(
    file: &File,
    lent: Lent,
    answers: &mut [Answer; ASKS],
    to: &mut T,
) -> io::Result<()>
    requires read { IsRead file.now }
    requires lent { IsLentOf file.now lent }
    requires some { 0 < ask_count file.now }
    ensures ok { OnOk result (AnswersEach file.now answers.new
        (λ out. T.takes to.old out to.new)) }
    ensures err { IfErr result (λ e. RoundsAll file.now (λ out. T.fails to.old out e to.new)) }
{
    let checked = Checked { lent };
    let mut routes = Routes::new();
    let width = Width::of(lent.collection.counts);
    let mut lines = RoundLines::new(width, to);
    let prepared = checked.prepare_telling(&mut routes, &mut lines)?;
    let asks = file.asks();
    prepared.reply_all(&asks, answers);
    Ok(())
}

// The line of an answer, to what takes lines.
fn put_answer<T: Taker>(to: &mut T, width: Width, ask: Ask, answer: Answer) -> io::Result<()>
    requires { IsInBytes ask }
    ensures ok { OnOk result (T.takes to.old (answer_line (bytes_of width) ask answer) to.new) }
    ensures err { IfErr result (λ e.
        T.fails to.old (answer_line (bytes_of width) ask answer) e to.new) }
{
    to.put(text::answer(width, ask, answer).as_slice())
}

// The rounds of a file told, and then every ask answered, in order. Where nothing is asked nothing is worked out.
fn put_replies<T: Taker>(file: &File, to: &mut T) -> io::Result<()>
    requires { IsRead file.now }
    ensures ok { OnOk result (AnswersAll file.now (λ out. T.takes to.old out to.new)) }
    ensures err { IfErr result (λ e. AnswersAll file.now (λ out. T.fails to.old out e to.new)) }
{
    let lent = Lent {
        collection: file.collection(),
        allowance: file.allowance(),
    };
    if file.asks().is_empty() {
        return Ok(());
    }
    let width = Width::of(lent.collection.counts);
    let mut answers = [Answer::BadAsk; ASKS];
    tell_rounds(file, lent, &mut answers, to)?;
    for (ask, answer) in file.asks().iter().zip(answers.iter()) {
        put_answer(to, width, ask, *answer)?;
    }
    Ok(())
}

// The line of a fact that is dropped. Of a line that is kept nothing is put.
fn put_mark<T: Taker>(to: &mut T, line: u16, is_kept: bool) -> io::Result<()>
    ensures ok { OnOk result (T.takes to.old (mark_text is_kept line) to.new) }
    ensures err { IfErr result (λ e. T.fails to.old (mark_text is_kept line) e to.new) }
{
    if is_kept {
        Ok(())
    } else {
        to.put(text::dropped(line).as_slice())
    }
}

// The lines of the facts that are dropped, by the marks of a file's lines.
fn put_dropped<T: Taker>(kept: &[bool], to: &mut T) -> io::Result<()>
    requires { length kept.now ≤ MOST_TYPED }
    ensures ok { OnOk result (T.takes to.old (marks_text 1 kept.now) to.new) }
    ensures err { IfErr result (λ e. T.fails to.old (marks_text 1 kept.now) e to.new) }
{
    for i in 0..kept.len() {
        put_mark(to, i as u16 + 1, kept[i])?;
    }
    Ok(())
}

// Which lines of a file are kept: all but those of the facts that are dropped.
fn mark_kept(file: &File, kept: &mut [bool])
    requires read { IsRead file.now }
    requires begun { 0 < file.now.lines }
    requires long { length kept.old ≡ length file.now.typed }
    ensures long { length kept.new ≡ length file.now.typed }
    ensures sifted { IsSifted file.now kept.new }
{
    match salvage(&file.collection(), file.typed.as_slice(), kept) {
        Ok(()) => {}
        // What was read passes the library's tests.
        Err(_) => unreachable!(),
    }
}

// The facts that a file drops: a line for each is put, and they leave the file. It is a call of its own, never put into its
// caller, so that its marks, and the tables of salvage, are gone before anything is answered.
#[inline(never)]
fn drop_facts<T: Taker>(file: &mut File, to: &mut T) -> io::Result<()>
    requires read { IsRead file.old }
    requires begun { 0 < file.old.lines }
    requires chosen { file.old.salvages ≡ true }
    ensures ok { OnOk result
        (Settles file.old (HoldsOver file.new (λ out. T.takes to.old out to.new))) }
    ensures err { IfErr result (λ e.
        Settles file.old (AsksSome (λ out. T.fails to.old out e to.new))) }
{
    let mut row = [true; MOST_TYPED];
    let lines = file.typed.as_slice().len();
    let kept = &mut row[..lines];
    mark_kept(file, kept);
    put_dropped(kept, to)?;
    file.keep_marked(kept);
    Ok(())
}

// The file as it is answered: where it chooses salvage without the facts that it drops.
fn settle<T: Taker>(file: &mut File, to: &mut T) -> io::Result<()>
    requires read { IsRead file.old }
    requires begun { 0 < file.old.lines }
    ensures ok { OnOk result
        (Settles file.old (HoldsOver file.new (λ out. T.takes to.old out to.new))) }
    ensures read { OnOk result (IsRead file.new) }
    ensures err { IfErr result (λ e.
        Settles file.old (AsksSome (λ out. T.fails to.old out e to.new))) }
{
    if file.salvages {
        drop_facts(file, to)
    } else {
        Ok(())
    }
}

// What the desk writes of a file that was read whole.
pub(crate) struct Replies;

impl Report for Replies {
    ghost says = { Reports frames_width };

    fn put<T: Taker>(&self, file: &mut File, to: &mut T) -> io::Result<()> {
        settle(file, to)?;
        put_replies(file, to)
    }
}
