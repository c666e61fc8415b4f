// Laws of the way on and of the walk that leads out. What holds for a type that names a rules' kind, what
// paths of it run over and where they may end holds of all such.
ghost use Rattle.theory.specs.LawsOfLeaving.{Leaving, OnwardIsPath, OutIsPath, OnwardLeast};

// A type that names a rules' kind, its ground, and where paths may end: any.
pub trait AnyLeaving {
    ghost leaving: { Leaving };
}

// And a set of states and concepts beside it: any.
pub trait AnyOnward {
    ghost leaving: { Leaving };

    ghost holds: { leaving.kind.State → leaving.kind.Concept → Type 0 };
}

// Of any kind: what the way on and the walk that leads out are as paths.
pub fn leaving<L: AnyLeaving>()
    ensures onward { OnwardIsPath L.leaving }
    ensures out { OutIsPath L.leaving }
{}

// From where the way leads on is the smallest such set.
pub fn least_onward<F: AnyOnward>()
    ensures least { OnwardLeast F.leaving F.holds }
{}
