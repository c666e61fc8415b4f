// An order of the individuals in which neighbours are near each other. It is a hint: what sweeps along it lead on is led on in any order, so no
// contract speaks of it.

ghost use Rattle.std.specs.Prelude.{◌*◌, ◌<◌};
ghost use Rattle.kinds.specs.Kinds.{most_individuals};

use crate::strides::Strides;
use kinds::Individual;

/// The individuals in an order: those below the count have their places, and `left` is where the search for one without a place goes on.
#[derive(Clone, Copy)]
pub struct Order {
    row: [Individual; Individual::NUMBERS],
    count: usize,
    placed: [bool; Individual::NUMBERS],
    left: usize,
}

impl Order {
    /// There and back, each individual has two turns.
    pub const TURNS: usize = 2 * Individual::NUMBERS;

    // The individual gets the next place, if it has none.
    fn place(&mut self, a: Individual) {
        if a.0 >= Individual::MOST {
            return;
        }
        let at = self.count;
        if at >= Individual::NUMBERS || self.placed[a.0 as usize] {
            return;
        }
        self.placed[a.0 as usize] = true;
        self.row[at] = a;
        self.count = at + 1;
    }

    // The first individual without a place gets the next one.
    fn place_first_left(&mut self) {
        for a in self.left..Individual::NUMBERS {
            if !self.placed[a] {
                self.left = a;
                self.place(Individual(a as u16));
                return;
            }
        }
    }

    // The individuals to which an edge leads from the individual a get the next places.
    fn place_neighbours(&mut self, strides: &Strides, a: Individual) {
        for edge in strides.edges.of(a) {
            self.place(edge.to);
        }
    }

    /// Breadth first along edges, from one individual after another that was not met yet.
    pub(crate) fn new(strides: &Strides) -> Order {
        let mut order = Order {
            row: [Individual(0); Individual::NUMBERS],
            count: 0,
            placed: [false; Individual::NUMBERS],
            left: 0,
        };
        for at in 0..Individual::NUMBERS {
            if at >= order.count {
                order.place_first_left();
            }
            let a = order.row[at];
            order.place_neighbours(strides, a);
        }
        order
    }

    /// The individual of a turn: from the first place to the last, and back.
    pub(crate) fn at(&self, turn: usize) -> Individual
        requires { turn < 2 * most_individuals }
    {
        self.row[turn.min(Order::TURNS - 1 - turn)]
    }
}
