// An input taken in whole: its collection line by line, and the list that ends it held against the listing of its sheet.
#![tactic(auto)]

ghost use Rattle.std.specs.Prelude.{◌≡◌, ◌+◌, ◌^◌, ◌<◌, ◌≤◌, [], IfOk, IfErr, IfSome, OnOk, OnErr};
ghost use Rattle.streams.specs.Input.{left_of};
ghost use Rattle.streams.specs.Lines.{lines};
ghost use Rattle.reading.specs.File.{file_of, HoldsOpen};
ghost use Rattle.reading.specs.Reads.{IsRead};
ghost use Rattle.reading.specs.Tables.{most_lines};
ghost use Rattle.intake.specs.Held.{CutsList};
ghost use Rattle.intake.specs.TakesIn.{TakesIn, TakesList};

use comparison::compare;
use reading::{Behind, Fault, File, Refusal, read_on};
use std::io;
use streams::Source;
use streams::lines::Lines;

mod comparison;
pub mod theorems;

// So many entries, which are right, counted with what is held.
fn count_right(file: &mut File, right: usize)
    requires lines { file.old.lines + right < 2 ^ 64 }
    requires listed { file.old.listed + right < 2 ^ 64 }
    ensures { file.new ≡ record file.old {
      lines = file.old.lines + right;
      listed = file.old.listed + right;
    } }
{
    file.lines += right;
    file.listed += right;
}

// Of the list that is held so many entries stay, or all where it has no more.
fn cut_list(file: &mut File, count: usize)
    ensures { CutsList count file.old file.new }
{
    let more = file.listed.saturating_sub(count);
    file.lines = file.lines.saturating_sub(more);
    file.listed -= more;
}

// What an input is found to be whose list is next, behind the lines that were read into a file: its entries are held against the
// listing, and then all that is left is read on, for the faults of single lines. After an `Err` the file holds nothing.
fn take_list<S: Source>(lines: &mut Lines<S>, file: &mut File) -> io::Result<Result<(), Fault>>
    requires read { IsRead file.old }
    requires is_open { HoldsOpen file.old }
    ensures found { IfOk result (λ found.
        IfSome (left_of lines.old) (λ left. TakesList file.old left found file.new)) }
    ensures taken { IfOk result (λ found. IsRead file.new) }
    ensures begun { IfOk result (λ found. OnOk found (0 < file.new.lines)) }
    ensures line { IfOk result (λ found. IfErr found (λ fault. fault.line ≤ most_lines + 1)) }
    ensures err { OnErr result (file.new ≡ file_of []) }
    ensures fails { IfErr result S.fails }
{
    let compared = match compare(lines, file) {
        Ok(compared) => compared,
        Err(e) => {
            *file = File::new();
            return Err(e);
        }
    };
    let Some(compared) = compared else {
        return read_on(lines, file);
    };
    count_right(file, compared.right);
    if let Err(fault) = read_on(lines, file)? {
        return Ok(Err(fault));
    }
    if compared.is_all(file.listed) {
        return Ok(Ok(()));
    }
    cut_list(file, compared.right);
    Ok(Err(Fault {
        line: file.lines.saturating_add(1),
        refusal: Refusal::NotTheSheet,
    }))
}

// An input read into a file, up to its first faulty line, or to where its list departs from the listing of its sheet. Whatever the
// file held is gone; after an `Err` it holds nothing.
pub fn read<S: Source + Drop>(source: S, file: &mut File) -> io::Result<Result<(), Fault>>
    ensures found { IfOk result (λ found.
        IfSome (S.remaining source) (λ input. TakesIn (lines input) found file.new)) }
    ensures taken { IfOk result (λ found. IsRead file.new) }
    ensures begun { IfOk result (λ found. OnOk found (0 < file.new.lines)) }
    ensures line { IfOk result (λ found. IfErr found (λ fault. fault.line < 2 ^ 32)) }
    ensures err { OnErr result (file.new ≡ file_of []) }
    ensures fails { IfErr result S.fails }
{
    let mut lines = Lines::new(source);
    match reading::read(&mut lines, file)? {
        Err(fault) => Ok(Err(fault)),
        Ok(Behind::Nothing) => Ok(Ok(())),
        Ok(Behind::List) => take_list(&mut lines, file),
    }
}
