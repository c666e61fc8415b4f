// Laws of what a program writes of an input. The functions here have nothing to do: each clause is a law, and a law for
// a type that names whatever a program may say of a file is one of every program.
ghost use Rattle.shell.specs.Writes.{Saying};
ghost use Rattle.shell.specs.Laws.{FaultsNear, FaultWritten, SaidWritten, StartWrites, WritesOnce, WrittenOnce, ServedOnce};

// A type that names what is said of a file that is sound: anything.
pub trait AnySaying {
    ghost says: { Saying };
}

// What an input writes: the line of its fault, or what is said of it; a start of the input decides it.
pub fn text<A: AnySaying>()
    ensures near { FaultsNear }
    ensures fault { FaultWritten A.says }
    ensures said { SaidWritten A.says }
    ensures start { StartWrites A.says }
{}

// Where one text is said of each file an input writes one text, and one outcome is left.
pub fn once<A: AnySaying>()
    ensures text { WritesOnce A.says }
    ensures written { WrittenOnce A.says }
    ensures served { ServedOnce A.says }
{}
