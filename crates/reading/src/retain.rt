// Those of a row that are marked, moved to its front; and the marks of the lines that type one thing.
ghost use Rattle.std.specs.Prelude.{◌≡◌, ◌≤◌, true, if◌then◌else◌, length, take, slice_index_or};
ghost use Rattle.salvage.specs.Salvages.{marked};
ghost use Rattle.reading.specs.Records.{is_typed, marks_of};

use salvage::Typed;

// Whether the place i of a row is marked. What has no mark counts as marked.
fn is_marked(marks: &[bool], i: usize) -> bool
    ensures { result ≡ slice_index_or marks.now i true }
{
    marks.len() <= i || marks[i]
}

// One for what is so, and none for what is not.
fn counted(is: bool) -> usize
    ensures { result ≡ if is then 1 else 0 }
{
    usize::from(is)
}

// Those that are marked, moved to the front of their row; how many they are. What then stands behind them is of no account.
fn keep_front<T: Copy>(items: &mut [T], marks: &[bool]) -> usize
    ensures within { result ≤ length items.old }
    ensures length { length items.new ≡ length items.old }
    ensures front { take result items.new ≡ marked true items.old marks.now }
{
    let mut kept = 0;
    for i in 0..items.len() {
        items[kept] = items[i];
        kept += counted(is_marked(marks, i));
    }
    kept
}

// The same of the first so many of a row.
pub(crate) fn keep_first<T: Copy>(items: &mut [T], used: usize, marks: &[bool]) -> usize
    requires within { used ≤ length items.old }
    ensures within { result ≤ used }
    ensures length { length items.new ≡ length items.old }
    ensures front { take result items.new ≡ marked true (take used items.old) marks.now }
{
    keep_front(&mut items[..used], marks)
}

// Whether a line types what is asked for.
fn is_typed(asked: Typed, typed: Typed) -> bool
    ensures { result ≡ is_typed asked typed }
{
    asked == typed
}

// The marks of the lines that type what is asked for, put at the front of a row; how many they are.
pub(crate) fn marks_of(asked: Typed, typed: &[Typed], marks: &[bool], row: &mut [bool]) -> usize
    requires { length typed.now ≤ length row.old }
    ensures within { result ≤ length typed.now }
    ensures length { length row.new ≡ length row.old }
    ensures front { take result row.new ≡ marks_of (is_typed asked) typed.now marks.now }
{
    let mut found = 0;
    for i in 0..typed.len().min(marks.len()) {
        row[found] = marks[i];
        found += counted(is_typed(asked, typed[i]));
    }
    found
}
