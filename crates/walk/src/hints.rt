// Hints: what is tried, in which order, and when trying stops. They change the time that answers take and nothing else, so no contract speaks of them.

ghost use Rattle.std.specs.Prelude.{◌<◌};
ghost use Rattle.kinds.specs.Kinds.{most_states};

use crate::loops::Loops;
use crate::multi::Levels;
use crate::strides::Strides;
use kinds::State;
use sets::{Relation, RoleSet, StateSet, Transitions, nowhere};

/// With fewer open asks than this each first individual is walked from alone.
pub const FEW: usize = 24;

// A component is worth its two walks where it answers so many asks, or where the first of them meets one that is known, so that it is short.
const WORTH: usize = 3;

// The search for components ends after so many misses, and one more for each so many asks that were answered.
const MISSES: usize = 2;

const SHARE: usize = 24;

/// What was found in one component: how many asks it answered, and whether the walk from its first met one that is known.
#[derive(Clone, Copy)]
pub struct Find {
    pub answered: usize,
    pub met: bool,
}

/// How the search for components goes.
#[derive(Clone, Copy)]
pub struct Search {
    misses: usize,
    found: usize,
}

// Adds each set of a row to the same set of the graph.
fn join_row(graph: &mut Relation, row: &Relation) {
    for s in 0..State::NUMBERS {
        graph[s] = graph[s].union(row[s]);
    }
}

// Adds each set of a row, without the state whose set it is, to the same set of the graph.
fn join_onward(graph: &mut Relation, row: &Relation) {
    for s in 0..State::NUMBERS {
        let own = StateSet::only(State(s as u16));
        graph[s] = graph[s].union(row[s].minus(own));
    }
}

// Adds where the edges by some of the roles lead from each state.
fn by_edges(graph: &mut Relation, transitions: &Transitions, roles: RoleSet) {
    for role in roles.iter() {
        join_row(graph, &transitions[role.0 as usize]);
    }
}

// Adds where the loops of some individual lead, but for those that stay in their state: each declared state has one.
fn by_loops(graph: &mut Relation, loops: &Loops) {
    for row in loops.rows.iter() {
        join_onward(graph, row);
    }
}

// Each state that leads to k leads where k does: one step of the transitive closure.
fn through(graph: &mut Relation, k: usize)
    requires { k < most_states }
{
    let onward = graph[k];
    if onward.is_empty() {
        return;
    }
    for set in graph.iter_mut() {
        if set.contains(State(k as u16)) {
            *set = set.union(onward);
        }
    }
}

// The transitive closure of the graph.
fn close(graph: &mut Relation) {
    for k in 0..State::NUMBERS {
        through(graph, k);
    }
}

/// Whether transitions lead from some state back to it, by the roles that lead anywhere.
pub(crate) fn lead_in_circle(transitions: &Transitions, leading: RoleSet) -> bool {
    let mut graph = nowhere();
    by_edges(&mut graph, transitions, leading);
    close(&mut graph);
    for s in 0..State::MOST {
        if is_on_cycle(&graph, State(s)) {
            return true;
        }
    }
    false
}

/// Where paths lead from each state, by edges and by the loops of any individual.
pub(crate) fn graph(strides: &Strides) -> Relation {
    let mut graph = nowhere();
    by_edges(&mut graph, strides.transitions, strides.edges.roles);
    by_loops(&mut graph, strides.loops);
    close(&mut graph);
    graph
}

// The state s, and those that it leads to and that lead to it.
fn class_of(graph: &Relation, s: State) -> StateSet {
    let mut class = StateSet::only(s);
    if s.0 >= State::MOST {
        return class;
    }
    for t in graph[s.0 as usize].iter() {
        if t.0 < State::MOST && graph[t.0 as usize].contains(s) {
            class.insert(t);
        }
    }
    class
}

// Puts a class into the next place.
fn place(levels: &mut Levels, next: &mut usize, class: StateSet) {
    let at = *next;
    if at < State::NUMBERS {
        levels[at] = class;
        *next = at + 1;
    }
}

// The classes of the states of a set.
fn place_classes(levels: &mut Levels, next: &mut usize, graph: &Relation, states: StateSet) {
    let mut placed = StateSet::EMPTY;
    for state in states.iter() {
        if !placed.contains(state) {
            let class = class_of(graph, state);
            placed = placed.union(class);
            place(levels, next, class);
        }
    }
}

// For each number of states those that lead to so many, themselves among them. Those that lead nowhere are left out.
fn by_reach(graph: &Relation) -> [StateSet; State::NUMBERS + 1] {
    let mut by = [StateSet::EMPTY; State::NUMBERS + 1];
    for (s, set) in graph.iter().enumerate() {
        let state = State(s as u16);
        let all = set.union(StateSet::only(state));
        by[all.len() as usize].insert_if(state, !set.is_empty());
    }
    by
}

/// The classes of states that lead to each other, each before those to which it leads, since it leads to more states than they do.
pub(crate) fn levels(graph: &Relation) -> Levels {
    let by = by_reach(graph);
    let mut levels = [StateSet::EMPTY; State::NUMBERS];
    let mut next = 0;
    for fewer in 0..State::NUMBERS {
        place_classes(&mut levels, &mut next, graph, by[State::NUMBERS - fewer]);
    }
    levels
}

/// Whether the graph leads from the state back to it.
pub(crate) fn is_on_cycle(graph: &Relation, s: State) -> bool {
    s.0 < State::MOST && graph[s.0 as usize].contains(s)
}

impl Find {
    pub(crate) const NONE: Find = Find {
        answered: 0,
        met: false,
    };
}

impl Search {
    pub(crate) fn new() -> Search {
        Search {
            misses: 0,
            found: 0,
        }
    }

    /// Whether one more component is looked for.
    pub(crate) fn goes_on(&self) -> bool {
        self.misses < MISSES + self.found / SHARE
    }

    /// One component was looked through.
    pub(crate) fn note(&mut self, find: Find) {
        if find.met || find.answered >= WORTH {
            self.found = self.found.saturating_add(find.answered);
        } else {
            self.misses = self.misses.saturating_add(1);
        }
    }
}
