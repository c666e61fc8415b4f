// An ask in a row of them: its kind, 0 for a pair and else for one end, and two individuals, of which one end has the first alone.
ghost use Rattle.std.specs.Prelude.{◌≡◌, ◌<◌, ◌/◌, ◌↔◌, length, IsTrue};
ghost use Rattle.std.proofs.Common.{rules};
ghost use Rattle.kinds.specs.Asks.{AskDeclared};
ghost use Rattle.tables.specs.Asks.{ask_width, ask_by, read_ask};

use crate::fields::Fields;
use crate::records::Record;
use kinds::{Ask, Counts, Individual};

// The ask of a kind.
fn ask_by(kind: u16, first: u16, second: u16) -> Ask
    ensures { result ≡ ask_by kind first second }
{
    if kind == 0 {
        Ask::Pair(Individual(first), Individual(second))
    } else {
        Ask::From(Individual(first))
    }
}

impl Fields for Ask {
    ghost WIDTH = { ask_width };

    ghost read = { read_ask };

    ghost wide = { Prim.search rules };

    const WIDTH: usize = Ask::WIDTH;

    fn read(numbers: &[u16], k: usize) -> Ask {
        ask_by(
            numbers[Self::WIDTH * k],
            numbers[Self::WIDTH * k + 1],
            numbers[Self::WIDTH * k + 2],
        )
    }
}

impl Record for Ask {
    ghost Declared = { AskDeclared };

    // Test 8: each asked individual is declared.
    fn declared(self, counts: Counts) -> bool {
        match self {
            Ask::Pair(first, second) => first.declared(counts) && second.declared(counts),
            Ask::From(first) => first.declared(counts),
        }
    }
}
