// The shell of a desk program: an input is taken in whole, and the line of its fault, or what the program writes of a file without
// one, goes through a buffer to a sink, or into memory.
#![tactic(auto)]

ghost use Rattle.std.specs.Prelude.{◌≡◌, ◌^◌, ◌<◌, ◌≤◌, ℕ, List, Some, Err, IfSome, IfNone, IfErr, IsOk, OnOk, OnErr, length, drop, take};
ghost use Rattle.std.specs.Io.KnownBytes.{Keeps, Appends};
ghost use Rattle.std.specs.declared.io.Error.{Error};
ghost use Rattle.streams.specs.Takes.{TakesStart};
ghost use Rattle.reading.specs.Reads.{IsRead};
ghost use Rattle.shell.specs.Writes.{Saying, WritesOf};
ghost use Rattle.shell.specs.Reports.{OneOf, Tells, TellsFound};
ghost use Rattle.shell.specs.Message.{message_of};

use intake::read;
use reading::{Fault, File};
use std::{fmt, io};
use streams::memory::{Bytes, Page};
use streams::output::Gathered;
use streams::{Sink, Source, Taker};

mod fault;
pub mod theorems;

// What a program writes of a file that was found sound.
pub trait Report {
    // The texts that it may write of some frames.
    ghost says: { Saying };

    // Nothing is said of the file afterwards: the program may put its tables in order where they stand.
    fn put<T: Taker>(&self, file: &mut File, to: &mut T) -> io::Result<()>
        requires read { IsRead file.old }
        requires begun { 0 < file.old.lines }
        ensures ok { OnOk result (Tells says file.old (λ out. T.takes to.old out to.new)) }
        ensures err { IfErr result (λ e.
            Tells says file.old (λ out. T.fails to.old out e to.new)) };
}

// Why nothing, or not all, is written.
#[derive(Debug, Drop)]
pub enum ServeError {
    Unread(io::Error),
    Unwritten(io::Error),
}

impl ServeError {
    // What standard error says.
    pub fn message(&self) -> &'static str
        ensures { result.now ≡ message_of self.now }
    {
        match self {
            ServeError::Unread(_) => "standard input could not be read, so nothing is written",
            ServeError::Unwritten(_) => "standard output could not be written whole",
        }
    }
}

impl fmt::Display for ServeError {
    ghost output = { λ e. Some (message_of e) };

    ghost styled_output = { λ e _. Some (message_of e) };

    fn fmt<W: fmt::Write>(&self, f: &mut fmt::Formatter<W>) -> fmt::Result {
        f.write_str(self.message())
    }
}

// What was found, put: the line of the fault, or what the program says of the file.
fn put_found<R: Report, T: Taker>(
    report: &R,
    found: Result<(), Fault>,
    file: &mut File,
    to: &mut T,
) -> io::Result<()>
    requires read { IsRead file.old }
    requires begun { OnOk found (0 < file.old.lines) }
    requires line { IfErr found (λ fault. fault.line < 2 ^ 32) }
    ensures ok { OnOk result
        (TellsFound R.says found file.old (λ out. T.takes to.old out to.new)) }
    ensures err { IfErr result (λ e.
        TellsFound R.says found file.old (λ out. T.fails to.old out e to.new)) }
{
    match found {
        Ok(()) => report.put(file, to),
        Err(fault) => to.put(fault::line(fault).as_slice()),
    }
}

// To a sink, through a buffer.
fn put_to<R: Report, K: Sink>(
    report: &R,
    found: Result<(), Fault>,
    file: &mut File,
    sink: &mut K,
) -> io::Result<()>
    requires read { IsRead file.old }
    requires begun { OnOk found (0 < file.old.lines) }
    requires line { IfErr found (λ fault. fault.line < 2 ^ 32) }
    ensures ok { OnOk result (TellsFound R.says found file.old
        (Appends (K.contents sink.old) (K.contents sink.new))) }
    ensures err { OnErr result (TellsFound R.says found file.old
        (TakesStart (K.contents sink.old) (K.contents sink.new))) }
    ensures fails { IfErr result K.fails }
{
    let mut gathered = Gathered::new(sink);
    put_found(report, found, file, &mut gathered)?;
    gathered.finish()
}

// What a source has left is taken in, and what the program writes of it is put to a sink.
pub fn serve<S: Source + Drop, R: Report, K: Sink>(
    source: S,
    report: &R,
    sink: &mut K,
) -> Result<(), ServeError>
    ensures written { OnOk result (IfSome (S.remaining source) (λ input.
        OneOf (WritesOf R.says input) (Appends (K.contents sink.old) (K.contents sink.new)))) }

    // Where reading fails, the error is the source's, and the sink is as it was.
    ensures unread { (e : Error) → result ≡ Err (ServeError.Unread e) → S.fails e }
    ensures untouched { (e : Error) → result ≡ Err (ServeError.Unread e)
        → Keeps (K.contents sink.old) (K.contents sink.new) }

    // Where writing fails, the error is the sink's, which has taken a start of the text, where its bytes are known.
    ensures unwritten { (e : Error) → result ≡ Err (ServeError.Unwritten e) → K.fails e }
    ensures started { (e : Error) → result ≡ Err (ServeError.Unwritten e)
        → IfSome (S.remaining source) (λ input.
        OneOf (WritesOf R.says input) (TakesStart (K.contents sink.old) (K.contents sink.new))) }

    // It makes no error of its own.
    ensures ok { ((e : Error) → ¬ S.fails e) → ((e : Error) → ¬ K.fails e) → IsOk result }
{
    let mut file = File::new();
    let found = match read(source, &mut file) {
        Ok(found) => found,
        Err(e) => return Err(ServeError::Unread(e)),
    };
    match put_to(report, found, &mut file, sink) {
        Ok(()) => Ok(()),
        Err(e) => Err(ServeError::Unwritten(e)),
    }
}

// Into memory, where there is room.
fn copy<R: Report>(
    report: &R,
    found: Result<(), Fault>,
    file: &mut File,
    text: &mut [u8],
) -> Option<usize>
    requires read { IsRead file.old }
    requires begun { OnOk found (0 < file.old.lines) }
    requires line { IfErr found (λ fault. fault.line < 2 ^ 32) }
    ensures within { IfSome result (λ n. n ≤ length text.old) }
    ensures written { IfSome result (λ n.
        TellsFound R.says found file.old (λ out. take n text.new ≡ out)) }
    ensures rest { IfSome result (λ n. drop n text.new ≡ drop n text.old) }
    ensures no_room { IfNone result
        (TellsFound R.says found file.old (λ out. length text.old < length out)) }
{
    let mut page = Page::new(text);
    match put_found(report, found, file, &mut page) {
        Ok(()) => Some(page.held()),
        Err(_) => None,
    }
}

// What the program writes of an input in memory, from the front of a text on; how much of it, is told. The rest of the
// text stays. None where the text has no room for it; what its front then holds is left open.
pub fn answer<R: Report>(input: &[u8], report: &R, text: &mut [u8]) -> Option<usize>
    ensures within { IfSome result (λ n. n ≤ length text.old) }
    ensures written { IfSome result (λ n. WritesOf R.says input.now (take n text.new)) }
    ensures rest { IfSome result (λ n. drop n text.new ≡ drop n text.old) }
    ensures no_room { IfNone result
        (OneOf (WritesOf R.says input.now) (λ out. length text.old < length out)) }
{
    let mut file = File::new();
    match read(Bytes::new(input), &mut file) {
        Ok(found) => copy(report, found, &mut file, text),
        // Bytes in memory are read without fail.
        Err(_) => unreachable!(),
    }
}
