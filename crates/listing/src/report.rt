// What the lister writes of a file that was read whole: its fair copy, and a line for each mark of its closed sheet, as the
// rounds are worked.
ghost use Rattle.std.specs.Prelude.{◌≡◌, OnOk, IfErr};
ghost use Rattle.fair_copy.specs.Copy.{frames_text};
ghost use Rattle.index.specs.Works.{meant};
ghost use Rattle.listing.specs.Held.{typed_collection, IsTypedOut, round_frames, ListAll};
ghost use Rattle.listing.specs.Lists.{CopiesAndLists};

use fair_copy::{put_copy, put_frame};
use frames::Frame;
use index::{Checked, Lent};
use kinds::Rounds;
use reading::File;
use sheet::{RoundListener, RoundMarks};
use shell::Report;
use std::io;
use streams::Taker;

// The lines of the marks that first stand in a round, in their order.
fn put_round<T: Taker>(to: &mut T, round: Rounds, marks: &RoundMarks) -> io::Result<()>
    ensures ok { OnOk result (T.takes to.old (frames_text (round_frames round marks.now)) to.new) }
    ensures err { IfErr result (λ e.
        T.fails to.old (frames_text (round_frames round marks.now)) e to.new) }
{
    for (from, until, concept) in marks.iter() {
        put_frame(to, &Frame::ListedMark(round, from, until, concept))?;
    }
    Ok(())
}

// What takes the lines of a list, as its rounds are worked.
#[derive(Drop)]
struct ListLines<'a, T: Taker> {
    to: &'a mut T,
}

impl<'a, T: Taker> ListLines<'a, T> {
    fn new(to: &'a mut T) -> ListLines<'a, T>
        ensures same_reference { result.to.ghost_name ≡ to.entry.ghost_name }
        ensures to { result.to.now ≡ to.old }
    {
        ListLines { to }
    }
}

impl<T: Taker> RoundListener for ListLines<'_, T> {
    type Error = io::Error;

    ghost hears = { λ old round marks new. (new.to.ghost_name ≡ old.to.ghost_name)
        × T.takes old.to.now (frames_text (round_frames round marks)) new.to.now };

    ghost fails = { λ old round marks e new. (new.to.ghost_name ≡ old.to.ghost_name)
        × T.fails old.to.now (frames_text (round_frames round marks)) e new.to.now };

    fn round_made(&mut self, round: Rounds, marks: &RoundMarks) -> io::Result<()> {
        put_round(self.to, round, marks)
    }
}

// The list of the closed sheet of a collection, whatever its allowance; of a contradiction nothing. It is a call of its own,
// never put into its caller, so that the tables of its rounds are not there yet while a list is held against its sheet.
#[inline(never)]
fn tell_list<T: Taker>(to: &mut T, checked: &Checked) -> io::Result<()>
    ensures ok { let told = meant checked.now.lent.collection in
        OnOk result (ListAll told (λ out. T.takes to.old out to.new)) }
    ensures err { let told = meant checked.now.lent.collection in
        IfErr result (λ e. ListAll told (λ out. T.fails to.old out e to.new)) }
{
    let mut lines = ListLines::new(to);
    checked.tell_sheet(&mut lines)?;
    Ok(())
}

// That of what is held, whose question is typed. What was read passed the library's tests line by line, so that they need not
// be made again.
fn put_list<T: Taker>(to: &mut T, file: &File) -> io::Result<()>
    requires { IsTypedOut file.now }
    ensures ok { OnOk result
        (ListAll (typed_collection file.now) (λ out. T.takes to.old out to.new)) }
    ensures err { IfErr result (λ e.
        ListAll (typed_collection file.now) (λ out. T.fails to.old out e to.new)) }
{
    let lent = Lent {
        collection: file.collection(),
        allowance: file.allowance(),
    };
    tell_list(to, &Checked { lent })
}

// The lister's report.
pub(crate) struct Lister;

impl Report for Lister {
    ghost says = { CopiesAndLists };

    fn put<T: Taker>(&self, file: &mut File, to: &mut T) -> io::Result<()> {
        put_copy(to, file)?;
        put_list(to, file)
    }
}
