// Laws of growth. What holds for a type that names a rules' kind and one that yields more holds of all
// such.
ghost use Rattle.theory.specs.Grows.{Growing};
ghost use Rattle.theory.specs.LawsOfGrowth.{LoopsGrow, WalksGrow, PathsGrow};

// A type that names a rules' kind and one that yields more: any.
pub trait AnyGrowing {
    ghost growing: { Growing };
}

// What the first kind yields, the second yields again.
pub fn growth<G: AnyGrowing>()
    ensures loops { LoopsGrow G.growing }
    ensures walks { WalksGrow G.growing }
    ensures paths { PathsGrow G.growing }
{}
