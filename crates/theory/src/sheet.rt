// Laws of the loop sheet. What holds for a type that names any rules' kind, or any sheet of one,
// holds of every kind and every sheet.
ghost use Rattle.theory.specs.Kind.{Kind};
ghost use Rattle.theory.specs.LawsOfSheet.{MarksStay, RoundsOnce, SheetStays, SheetClosed};
ghost use Rattle.theory.specs.LawsOfSheet.{SheetLeast, MarkIsPath, RoundsBound, RoundAdds};
ghost use Rattle.theory.specs.LawsOfMarks.{StandsOnce, AddsOnce, CountsOnce};
ghost use Rattle.theory.specs.LawsOfMarks.{StandsThere, CountsThere, CountsMakeSheet};
ghost use Rattle.theory.specs.LawsOfMarks.{AddsSome, AddsNone, SumAtMost, AddsAtMost, CountsAtMost};

// A type that names a rules' kind: any.
pub trait AnyKind {
    ghost kind: { Kind };
}

// A type that names a rules' kind and a sheet of it: any.
pub trait AnySheet {
    ghost kind: { Kind };

    ghost marks: { kind.State → kind.State → kind.Concept → Type 0 };
}

// The rounds.
pub fn rounds<K: AnyKind>()
    ensures stay { MarksStay K.kind }
    ensures rounds_once { RoundsOnce K.kind }
    ensures stays { SheetStays K.kind }
    ensures closed { SheetClosed K.kind }
    ensures path { MarkIsPath K.kind }
    ensures bound { RoundsBound K.kind }
    ensures adds { RoundAdds K.kind }
{}

// The closed sheet is the smallest closed one.
pub fn least_sheet<F: AnySheet>()
    ensures least { SheetLeast F.kind F.marks }
{}

// How many marks the rounds make.
pub fn counts<K: AnyKind>()
    ensures stands_once { StandsOnce K.kind }
    ensures adds_once { AddsOnce K.kind }
    ensures counts_once { CountsOnce K.kind }
    ensures stands_there { StandsThere K.kind }
    ensures counts_there { CountsThere K.kind }
    ensures make_sheet { CountsMakeSheet K.kind }
    ensures some { AddsSome K.kind }
    ensures none { AddsNone K.kind }
    ensures sum_at_most { SumAtMost K.kind }
    ensures adds_at_most { AddsAtMost K.kind }
    ensures counts_at_most { CountsAtMost K.kind }
{}
