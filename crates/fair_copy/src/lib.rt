// The fair copy of a whole input, from a source to a sink or in memory: the line of its first fault, or its collection as
// frames in one order, each once.
#![tactic(auto)]

ghost use Rattle.std.specs.Prelude.{◌≡◌, ◌↔◌, ◌≤◌, ◌++◌, ℕ, false, List, Err, IfSome, IsOk, IsTrue, OnOk, length, drop, take};
ghost use Rattle.std.specs.Io.KnownBytes.{Keeps, Appends};
ghost use Rattle.std.specs.declared.io.Error.{Error};
ghost use Rattle.streams.specs.Takes.{TakesStart};
ghost use Rattle.expression.specs.Listed.{Listed};
ghost use Rattle.frames.specs.declared.Frame.{Frame};
ghost use Rattle.reading.specs.declared.Refusal.{Refusal};
ghost use Rattle.shell.specs.Reports.{OneOf};
ghost use Rattle.shell.specs.Writes.{IsSound, IsFaulty};
ghost use Rattle.reading.specs.Tables.{salvages};
ghost use Rattle.file.specs.Writes.{Writes};
ghost use Rattle.fair_copy.specs.Asking.{asks_of};
ghost use Rattle.fair_copy.specs.Copy.{IsReadAs, frames_text, WritesCopy};
ghost use Rattle.fair_copy.specs.Laws.{SameCollection, ReadsAsCopy};
ghost use Rattle.fair_copy.specs.Kept.{IsFairCopy};

use report::FairCopy;
pub use report::{put_copy, put_frame};
pub use shell::ServeError;
use streams::memory::{Bytes, Nowhere};
use streams::{Sink, Source};

mod framed;
mod report;
mod sizes;
pub mod theorems;

// The characters of the longest copy.
pub const MOST_TEXT: usize = sizes::TEXT;

// The copy of an input in memory, from the front of the text on; how much of it, is told. The rest of the text stays.
pub fn copy(input: &[u8], text: &mut [u8; MOST_TEXT]) -> usize
    ensures within { result ≤ MOST_TEXT }
    ensures written { WritesCopy input.now (take result text.new) }
    ensures only { (out : List ℕ) → WritesCopy input.now out → out ≡ take result text.new }
    ensures rest { drop result text.new ≡ drop result text.old }

    // Of a faulty input the desk writes the same.
    ensures faulty { (before : List Frame) (r : Refusal) → IsFaulty input.now before r
        → Writes input.now (take result text.new) }

    // The copy of a sound input is sound and the same collection, and its copy is itself.
    ensures reads { (fs : List Frame) (q : Listed) → IsReadAs input.now fs q
        → ReadsAsCopy fs q (take result text.new) }
    ensures again { let out = take result text.new in
        (fs : List Frame) → IsSound input.now fs → WritesCopy out out }

    // Another sound input has the same copy exactly when it is the same collection.
    ensures same { (fs : List Frame) (q : Listed) → IsReadAs input.now fs q
        → (other out : List ℕ) → WritesCopy other out
        → (gs : List Frame) (r : Listed) → IsReadAs other gs r
        → (take result text.new ≡ out) ↔ SameCollection fs q gs r }

    // The desk answers the copy, with the asks of the input behind it, as it answers the input, where that chooses no salvage.
    ensures answered { let out = take result text.new in
        (fs : List Frame) → IsSound input.now fs → salvages fs ≡ false → (answers : List ℕ)
        → Writes (out ++ frames_text (asks_of fs)) answers ↔ Writes input.now answers }
{
    match shell::answer(input, &FairCopy, text) {
        Some(n) => n,
        // No copy is longer than its room.
        None => unreachable!(),
    }
}

// The copyist: what a source has left is read up to its first faulty line, and its copy is put to a sink.
pub fn serve<S: Source + Drop, K: Sink>(source: S, sink: &mut K) -> Result<(), ServeError>
    ensures written { OnOk result (IfSome (S.remaining source) (λ input.
        OneOf (IsFairCopy input) (Appends (K.contents sink.old) (K.contents sink.new)))) }
    ensures only { OnOk result (IfSome (S.remaining source) (λ input.
        (out : List ℕ) → WritesCopy input out
        → Appends (K.contents sink.old) (K.contents sink.new) out)) }

    // Where reading fails, the error is the source's, and the sink is as it was.
    ensures unread { (e : Error) → result ≡ Err (ServeError.Unread e) → S.fails e }
    ensures untouched { (e : Error) → result ≡ Err (ServeError.Unread e)
        → Keeps (K.contents sink.old) (K.contents sink.new) }

    // Where writing fails, the error is the sink's, which has taken a start of the copy, where its bytes are known.
    ensures unwritten { (e : Error) → result ≡ Err (ServeError.Unwritten e) → K.fails e }
    ensures started { (e : Error) → result ≡ Err (ServeError.Unwritten e)
        → IfSome (S.remaining source) (λ input.
        OneOf (WritesCopy input) (TakesStart (K.contents sink.old) (K.contents sink.new))) }

    // It makes no error of its own.
    ensures ok { ((e : Error) → ¬ S.fails e) → ((e : Error) → ¬ K.fails e) → IsOk result }
{
    shell::serve(source, &FairCopy, sink)
}

// Between a source and a sink that never fail the copyist does not fail either, whatever the input.
pub fn is_served(input: &[u8]) -> bool
    ensures { IsTrue result }
{
    serve(Bytes::new(input), &mut Nowhere).is_ok()
}
