// What is sent to a partner office of a whole input, from a source to a sink or in memory: the line of its first fault, or
// its fair copy, and behind it the list of its closed sheet.
#![tactic(auto)]

ghost use Rattle.std.specs.Prelude.{◌≡◌, ◌≢◌, ◌↔◌, ◌≤◌, ℕ, false, List, [], Err, IfSome, IsOk, IsTrue, OnOk, drop, take};
ghost use Rattle.std.specs.Io.KnownBytes.{Keeps, Appends};
ghost use Rattle.std.specs.declared.io.Error.{Error};
ghost use Rattle.streams.specs.Takes.{TakesStart};
ghost use Rattle.expression.specs.Listed.{Listed};
ghost use Rattle.frames.specs.declared.Frame.{Frame};
ghost use Rattle.reading.specs.declared.Refusal.{Refusal};
ghost use Rattle.shell.specs.Reports.{OneOf};
ghost use Rattle.shell.specs.Writes.{IsSound, IsFaulty};
ghost use Rattle.reading.specs.Tables.{salvages};
ghost use Rattle.file.specs.Writes.{Writes};
ghost use Rattle.fair_copy.specs.Copy.{IsReadAs, WritesCopy};
ghost use Rattle.listing.specs.Lists.{WritesListing};
ghost use Rattle.listing.specs.Laws.{ReadsAsListed, HasItsList, AnswersBetween};
ghost use Rattle.listing.specs.Kept.{IsItsListing};

use reading::LISTED;
use report::Lister;
pub use shell::ServeError;
use streams::memory::{Bytes, Nowhere};
use streams::{Sink, Source};

mod report;
pub mod theorems;

// The characters of the line of an entry, with its end.
const ENTRY_LINE: usize = 17;

// The characters of the longest text: the longest copy, and the longest list.
pub const MOST_TEXT: usize = fair_copy::MOST_TEXT + LISTED * ENTRY_LINE;

// The copy and the list of an input in memory, from the front of the text on; how much of it, is told. The rest of the
// text stays.
pub fn list(input: &[u8], text: &mut [u8; MOST_TEXT]) -> usize
    ensures within { result ≤ MOST_TEXT }
    ensures written { WritesListing input.now (take result text.new) }
    ensures only { (out : List ℕ) → WritesListing input.now out → out ≡ take result text.new }
    ensures rest { drop result text.new ≡ drop result text.old }

    // Of a faulty input the desk writes the same.
    ensures faulty { (before : List Frame) (r : Refusal) → IsFaulty input.now before r
        → Writes input.now (take result text.new) }

    // What is written of a sound input is sound: its list is accepted. It has the copy of the input, and is written again as
    // it is.
    ensures reads { (fs : List Frame) (q : Listed) → IsReadAs input.now fs q
        → ReadsAsListed fs q (take result text.new) }
    ensures copied { let out = take result text.new in
        (fs : List Frame) → IsSound input.now fs → (copy : List ℕ)
        → WritesCopy out copy ↔ WritesCopy input.now copy }
    ensures again { let out = take result text.new in
        (fs : List Frame) → IsSound input.now fs → WritesListing out out }

    // The list of a sound input that has one, and is no contradiction, as its facts are typed, is what is written behind the
    // copy.
    ensures its_list { (fs : List Frame) (q : Listed) → IsReadAs input.now fs q
        → HasItsList input.now fs q (take result text.new) }

    // The desk answers it, with the asks of the input between copy and list, as it answers the input, where that chooses no
    // salvage.
    ensures answered { (fs : List Frame) → IsSound input.now fs → salvages fs ≡ false
        → AnswersBetween input.now fs (take result text.new) }
{
    match shell::answer(input, &Lister, text) {
        Some(n) => n,
        // No text is longer than its room.
        None => unreachable!(),
    }
}

// The lister: what a source has left is read up to its first faulty line, and its copy and its list are put to a sink.
pub fn serve<S: Source + Drop, K: Sink>(source: S, sink: &mut K) -> Result<(), ServeError>
    ensures written { OnOk result (IfSome (S.remaining source) (λ input.
        OneOf (IsItsListing input) (Appends (K.contents sink.old) (K.contents sink.new)))) }
    ensures only { OnOk result (IfSome (S.remaining source) (λ input.
        (out : List ℕ) → WritesListing input out
        → Appends (K.contents sink.old) (K.contents sink.new) out)) }

    // Where reading fails, the error is the source's, and the sink is as it was.
    ensures unread { (e : Error) → result ≡ Err (ServeError.Unread e) → S.fails e }
    ensures untouched { (e : Error) → result ≡ Err (ServeError.Unread e)
        → Keeps (K.contents sink.old) (K.contents sink.new) }

    // Where writing fails, the error is the sink's, which has taken a start of the text, where its bytes are known.
    ensures unwritten { (e : Error) → result ≡ Err (ServeError.Unwritten e) → K.fails e }
    ensures started { (e : Error) → result ≡ Err (ServeError.Unwritten e)
        → IfSome (S.remaining source) (λ input.
        OneOf (WritesListing input) (TakesStart (K.contents sink.old) (K.contents sink.new))) }

    // It makes no error of its own.
    ensures ok { ((e : Error) → ¬ S.fails e) → ((e : Error) → ¬ K.fails e) → IsOk result }
{
    shell::serve(source, &Lister, sink)
}

// Between a source and a sink that never fail the lister does not fail either, whatever the input.
pub fn is_served(input: &[u8]) -> bool
    ensures { IsTrue result }
{
    serve(Bytes::new(input), &mut Nowhere).is_ok()
}
