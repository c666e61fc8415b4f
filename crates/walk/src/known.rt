// What is known of components that were told: their members reach the same nodes in the start state, so a walk that comes to one of them there
// need not go on from it.

use crate::Sets;
use crate::components::Component;
use kinds::{Individual, State};
use sets::StateSet;

/// The most components that are kept.
pub const KEPT: usize = 16;

// The place of individuals that are in no component.
const NOWHERE: u8 = KEPT as u8;

/// The components that are kept, and how many: of each what its members reach, and its first individual, which is a hint; and for each individual
/// the place of its component.
#[derive(Clone, Copy)]
pub struct Known {
    pub places: [u8; Individual::NUMBERS],
    pub count: usize,
    pub sets: [Sets; KEPT],
    firsts: [Individual; KEPT],
}

impl Known {
    ghost use Rattle.std.specs.Prelude.{◌≡◌, ◌<◌, slice_index};
    ghost use Rattle.kinds.specs.Kinds.{most_individuals};
    ghost use Rattle.walk.specs.declared.strides.Strides.{Strides};
    ghost use Rattle.walk.specs.Known.{most_kept, AreKnown, PutsMember};
    ghost use Rattle.walk.specs.Telling.{IsComponent};

    /// Nothing is known.
    pub(crate) fn new() -> Known
        ensures { (s : Strides) (start : State) → AreKnown s start result }
    {
        Known {
            places: [NOWHERE; Individual::NUMBERS],
            count: 0,
            sets: [[StateSet::EMPTY; Individual::NUMBERS]; KEPT],
            firsts: [Individual(Individual::MOST); KEPT],
        }
    }

    /// The place of an individual's component; a place past the last where it is in none.
    pub(crate) fn place_of(&self, a: usize) -> usize
        requires { a < most_individuals }
        ensures { result ≡ slice_index self.now.places a }
    {
        self.places[a] as usize
    }

    /// Whether a walk that reached these sets came to a component that is known, and took it over: a hint.
    pub(crate) fn is_met(&self, reached: &Sets, start: State) -> bool {
        for first in self.firsts.iter() {
            if first.0 < Individual::MOST && reached[first.0 as usize].contains(start) {
                return true;
            }
        }
        false
    }

    // The individual f gets the place k, if it is marked as a member of the component. The first one is marked too, if it has a row.
    fn put(&mut self, component: &Component, f: usize, k: usize)
        requires row { f < most_individuals }
        requires place { k < most_kept }
        ensures { PutsMember component.now f k self.old self.new }
    {
        if !component.others[f] {
            return;
        }
        self.places[f] = k as u8;
    }

    /// A component is known from now on, if there is room.
    pub(crate) fn keep(&mut self, component: &Component)
        ensures { (s : Strides) (start : State) → IsComponent s start component.now
            → AreKnown s start self.old → AreKnown s start self.new }
    {
        let k = self.count;
        if k >= KEPT {
            return;
        }
        self.count = k + 1;
        self.sets[k] = component.reached;
        self.firsts[k] = component.first;
        for f in 0..Individual::NUMBERS {
            self.put(component, f, k);
        }
    }
}
