// What a whole input writes, from a source to a sink or in memory: the line of its first fault, or a line for each fact that
// is dropped, one for each round, and an answer for each ask.
#![tactic(auto)]

ghost use Rattle.std.specs.Prelude.{◌≡◌, ◌+◌, ◌*◌, ◌<◌, ◌≤◌, ℕ, List, Some, None, Err, IfSome, IsOk, IsTrue, OnOk, length, drop, take};
ghost use Rattle.std.specs.Io.KnownBytes.{Keeps, Appends};
ghost use Rattle.std.specs.declared.io.Error.{Error};
ghost use Rattle.streams.specs.Takes.{TakesStart};
ghost use Rattle.shell.specs.Writes.{IsSound, IsFaulty};
ghost use Rattle.file.specs.Writes.{IsAsking, frames_width, FileRounds, SameButDeeds, Writes};
ghost use Rattle.file.specs.Serves.{Serves, AppendsUnspent, FormerServes};
ghost use Rattle.file.specs.Former.{FormerWrites, WasSound};
ghost use Rattle.file.specs.LeftOut.{LeavesOutList};
ghost use Rattle.streams.specs.Lines.{lines};
ghost use Rattle.file.specs.Told.{dropped_length, round_length, answers_length, line_at, number_on, refusal_on, IsUnspent};
ghost use Rattle.tables.specs.Asks.{read_ask};
ghost use Rattle.expression.specs.Listed.{Listed};
ghost use Rattle.frames.specs.declared.Frame.{Frame};
ghost use Rattle.reading.specs.declared.Refusal.{Refusal};
ghost use Rattle.reading.specs.Laws.{IsListed};
ghost use Rattle.reading.specs.Tables.{asks, entries, table, allowance_given};

use kinds::{ConceptName, SignedRole, State};
use reading::ASKS;
use replies::Replies;
pub use shell::ServeError;
use streams::memory::{Bytes, Nowhere};
use streams::{Sink, Source};
use tables::collection::{CONCEPT_FACTS, ROLE_FACTS};

mod replies;
#[cfg(test)]
mod tests;
mod text;
pub mod theorems;

// The most rounds that any file needs: concepts × states × (states − 1), with the most of each.
const MOST_ROUNDS: usize = (ConceptName::MOST as usize + SignedRole::NUMBERS)
    * State::NUMBERS
    * (State::NUMBERS - 1);

// The most facts of a file.
const MOST_FACTS: usize = CONCEPT_FACTS + ROLE_FACTS;

// The characters of the longest text, were there one of the most dropped facts, the most rounds and the most answers.
pub const MOST_TEXT: usize = MOST_FACTS * text::DROPPED_LINE
    + MOST_ROUNDS * text::ROUND_LINE
    + ASKS * text::ANSWER_LINE;

// What an input in memory writes, from the front of the text on; how much of it, is told. The rest of the text stays.
pub fn answer(input: &[u8], text: &mut [u8; MOST_TEXT]) -> usize
    ensures within { result ≤ MOST_TEXT }
    ensures written { Writes input.now (take result text.new) }
    ensures rest { drop result text.new ≡ drop result text.old }

    // The input writes no other text. A line has its number: of an answer 0, 1, 2 or 3, but 3 only where the file gives an
    // allowance; of a fault one of 4 to 15, but never 7.
    ensures only { (out : List ℕ) → Writes input.now out → out ≡ take result text.new }
    ensures long { (fs : List Frame) (q : Listed) → (s : IsAsking input.now fs q)
        → (counts : List ℕ) → FileRounds fs q counts
        → let width = frames_width fs in
        result ≡ dropped_length * length s.dropped + round_length width * length counts
        + answers_length width (read_ask (table asks fs)) (entries asks fs) }
    ensures many { (fs : List Frame) (q : Listed) → (s : IsAsking input.now fs q)
        → (counts : List ℕ) → FileRounds fs q counts
        → length (lines (take result text.new))
        ≡ length s.dropped + length counts + entries asks fs }
    ensures listed { (fs : List Frame) → IsSound input.now fs
        → (k : ℕ) → k < entries asks fs
        → number_on (line_at (entries asks fs) (take result text.new) k) ≤ 3 }
    ensures unspent { (fs : List Frame) → IsSound input.now fs → allowance_given fs ≡ None
        → IsUnspent (entries asks fs) (take result text.new) }
    ensures fault { (before : List Frame) (r : Refusal) → IsFaulty input.now before r
        → IsListed (refusal_on (take result text.new)) }

    // An input that differs only in deed numbers writes the same.
    ensures deeds { (other : List ℕ) → SameButDeeds input.now other
        → Writes other (take result text.new) }

    // A sound input without its list writes the same.
    ensures list_left_out { (other : List ℕ) → LeavesOutList input.now other
        → (fs : List Frame) → IsSound input.now fs → Writes other (take result text.new) }

    // An input that was read whole while there were at most 16 states writes what it wrote.
    ensures former { (fs : List Frame) → WasSound input.now fs
        → FormerWrites input.now (take result text.new) }
{
    match shell::answer(input, &Replies, text) {
        Some(n) => n,
        // No text is longer than its room.
        None => unreachable!(),
    }
}

// The desk: what a source has left is read up to its first faulty line, and what that writes is put to a sink.
pub fn serve<S: Source + Drop, K: Sink>(source: S, sink: &mut K) -> Result<(), ServeError>
    ensures written { OnOk result (IfSome (S.remaining source) (λ input.
        Serves input (Appends (K.contents sink.old) (K.contents sink.new)))) }
    ensures only { OnOk result (IfSome (S.remaining source) (λ input.
        (out : List ℕ) → Writes input out
        → Appends (K.contents sink.old) (K.contents sink.new) out)) }

    ensures unspent { OnOk result (IfSome (S.remaining source) (λ input.
        (fs : List Frame) → IsSound input fs → allowance_given fs ≡ None
        → Serves input (AppendsUnspent (entries asks fs)
        (K.contents sink.old) (K.contents sink.new)))) }

    // An input that differs only in deed numbers writes the same.
    ensures deeds { OnOk result (IfSome (S.remaining source) (λ input.
        (other : List ℕ) → SameButDeeds input other
        → Serves other (Appends (K.contents sink.old) (K.contents sink.new)))) }

    // A sound input without its list writes the same.
    ensures list_left_out { OnOk result (IfSome (S.remaining source) (λ input.
        (other : List ℕ) → LeavesOutList input other → (fs : List Frame) → IsSound input fs
        → Serves other (Appends (K.contents sink.old) (K.contents sink.new)))) }

    // An input that was read whole while there were at most 16 states writes what it wrote.
    ensures former { OnOk result (IfSome (S.remaining source) (λ input.
        (fs : List Frame) → WasSound input fs
        → FormerServes input (Appends (K.contents sink.old) (K.contents sink.new)))) }

    // Where reading fails, the error is the source's, and the sink is as it was.
    ensures unread { (e : Error) → result ≡ Err (ServeError.Unread e) → S.fails e }
    ensures untouched { (e : Error) → result ≡ Err (ServeError.Unread e)
        → Keeps (K.contents sink.old) (K.contents sink.new) }

    // Where writing fails, the error is the sink's, which has taken a start of the text, where its bytes are known.
    ensures unwritten { (e : Error) → result ≡ Err (ServeError.Unwritten e) → K.fails e }
    ensures started { (e : Error) → result ≡ Err (ServeError.Unwritten e)
        → IfSome (S.remaining source) (λ input.
        Serves input (TakesStart (K.contents sink.old) (K.contents sink.new))) }

    // It makes no error of its own.
    ensures ok { ((e : Error) → ¬ S.fails e) → ((e : Error) → ¬ K.fails e) → IsOk result }
{
    shell::serve(source, &Replies, sink)
}

// Between a source and a sink that never fail the desk does not fail either, whatever the input: it makes no error of
// its own.
pub fn is_served(input: &[u8]) -> bool
    ensures { IsTrue result }
{
    serve(Bytes::new(input), &mut Nowhere).is_ok()
}
