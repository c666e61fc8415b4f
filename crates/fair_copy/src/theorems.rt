// Laws of the fair copy of an input. The functions here have nothing to do: each clause is a law.
ghost use Rattle.shell.specs.Laws.{SaysOnce};
ghost use Rattle.fair_copy.specs.Copy.{Copies};
ghost use Rattle.fair_copy.specs.Laws.{OneCopy, CopyOnce, StartCopied, CopyFits};
ghost use Rattle.fair_copy.specs.Laws.{CopyIsRead, CopyAgain, SameCopy, CopyAnswers, FaultyAlike};

// One copy, within its room, so that the laws of the shell leave one outcome; a start of the input decides it.
pub fn text()
    ensures one { OneCopy }
    ensures said { SaysOnce Copies }
    ensures once { CopyOnce }
    ensures fits { CopyFits }
    ensures start { StartCopied }
{}

// What a copy is as an input: sound, the same collection, and its own copy; and when two have one.
pub fn copies()
    ensures read { CopyIsRead }
    ensures again { CopyAgain }
    ensures same { SameCopy }
    ensures answers { CopyAnswers }
{}

// Of a faulty input the copyist writes what the desk writes.
pub fn faulty()
    ensures alike { FaultyAlike }
{}
