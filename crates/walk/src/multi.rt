// The walks of up to 128 first individuals at once: for each node, which is an individual in a state, a word says which of the firsts reach it.

ghost use Rattle.std.specs.Prelude.{◌≡◌, ◌<◌, ◌≤◌, ◌^◌, ℕ, length, slice_index};
ghost use Rattle.kinds.specs.Kinds.{most_individuals, most_states};
ghost use Rattle.sets.specs.Bits.{state_width, Has, Inserts};
ghost use Rattle.sets.specs.Relations.{states_at};
ghost use Rattle.walk.specs.Sources.{most_sources, IsAt};
ghost use Rattle.walk.specs.MultiWalks.{Fills, CatchesUp, IsRow, AreRows};

use crate::Sets;
use crate::asking::Asking;
use crate::directed::Directed;
use crate::order::Order;
use crate::strides::Strides;
use crate::walk::{backward, forward};
use edges::FactEdge;
use kinds::{Individual, SignedRole, State};
use sets::{Relation, StateSet};

/// A set of first individuals: bit k stands for first k of a list.
pub type Sources = u128;

/// The most firsts that walk together.
pub const SOURCES: usize = Sources::BITS as usize;

/// First individuals: those below a count that is given beside the list.
pub type Firsts = [Individual; SOURCES];

/// Sets of states, in the order in which they are gone through: a hint, any sets would do.
pub type Levels = [StateSet; State::NUMBERS];

// The individuals are tested in 17 groups of 15.
const GROUP: usize = 15;

const GROUPS: usize = Individual::NUMBERS / GROUP;

const EVERY_STATE: StateSet = StateSet(u32::MAX);

// Before a class of more states than this is swept, a jump is tried: a hint.
const FEW_STATES: u32 = 4;

// So many sweeps of a class are made before an order of the individuals is: a hint.
const FEW_SWEEPS: usize = 2;

/// Walks of many firsts under way. A node is behind where it was marked since its strides were followed; it is full where all firsts
/// reach it, so that nothing can be new there.
#[derive(Clone, Copy)]
pub struct MultiWalk {
    pub words: [[Sources; State::NUMBERS]; Individual::NUMBERS],
    behind: Sets,
    full: Sets,
    all: Sources,
}

// A node, and how many firsts reach it: none where no node was found.
#[derive(Clone, Copy)]
struct Hub {
    individual: Individual,
    state: State,
    firsts: u32,
}

// The word of the state s; a state past the last has none.
fn word_of(words: &[Sources; State::NUMBERS], s: State) -> Sources
    ensures { result ≡ slice_index words.now s.0 }
{
    if s.0 >= State::MOST {
        return 0;
    }
    words[s.0 as usize]
}

// The firsts in the states of a set.
pub(crate) fn at(words: &[Sources; State::NUMBERS], states: StateSet) -> Sources
    ensures { IsAt states.0 words.now result }
{
    let mut out = 0;
    for s in states.iter() {
        out |= word_of(words, s);
    }
    out
}

// The states to which s leads; a state past the last leads to none.
fn states_from(row: &Relation, s: State) -> StateSet
    ensures { result.0 ≡ states_at row.now s.0 }
{
    if s.0 >= State::MOST {
        return StateSet::EMPTY;
    }
    row[s.0 as usize]
}

// The set, with the state t in it.
fn with_state(set: StateSet, t: State) -> StateSet
    ensures { Inserts state_width set.0 t.0 result.0 }
{
    let mut out = set;
    out.insert(t);
    out
}

// The node of b in t is full where all firsts reach it.
fn fill(full: &mut Sets, b: usize, t: State, all_reach: bool)
    requires { b < most_individuals }
    ensures { Fills b t.0 all_reach full.old full.new }
{
    if !all_reach {
        return;
    }
    full[b].insert(t);
}

// The node of b in t is no longer behind, where it has caught up.
fn catch_up(behind: &mut Sets, b: usize, t: State, caught_up: bool)
    requires { b < most_individuals }
    ensures { CatchesUp b t.0 caught_up behind.old behind.new }
{
    if !caught_up {
        return;
    }
    behind[b] = behind[b].minus(StateSet::only(t));
}

// No set has a member past the last state, as its type says. Nothing is done.
fn is_set(set: StateSet)
    ensures { set.0 < 2 ^ most_states }
{}

// A row has a set for each state. Nothing is done.
fn is_row(row: &Relation)
    ensures { IsRow row.now }
{
    for s in 0..State::NUMBERS {
        is_set(row[s]);
    }
}

// So it is of all rows that strides are lent. Nothing is done.
fn are_rows(strides: &Strides)
    ensures { AreRows strides.now }
{
    for a in 0..Individual::NUMBERS {
        is_row(&strides.loops.rows[a]);
    }
    for r in 0..SignedRole::NUMBERS {
        is_row(&strides.transitions[r]);
    }
}

// A word that has every first below a count.
fn every_first(count: usize) -> Sources
    requires { count ≤ most_sources }
    ensures { (k : ℕ) → k < count → Has result k }
{
    let mut all = 0;
    for k in 0..count {
        all |= 1 << k;
    }
    all
}

impl MultiWalk {
    ghost use Rattle.std.specs.Prelude.{◌+◌, ◌*◌, ◌<◌, ◌≤◌};
    ghost use Rattle.kinds.specs.Kinds.{most_individuals, most_roles};
    ghost use Rattle.sets.specs.Bits.{Has};
    ghost use Rattle.sets.specs.Relations.{states_at};
    ghost use Rattle.walk.specs.Sources.{most_sources, AreMarked, IsIn};
    ghost use Rattle.walk.specs.Walks.{EdgeOf};
    ghost use Rattle.walk.specs.MultiWalks.{group, Within, Ready, Grown, At, InStates, InSets, ByEdge, ByEdges};
    ghost use Rattle.walk.specs.MultiWalks.{Kept, Leads, Behind, Swept, Goes, Tries, Exhausts, ExhaustsAll};
    ghost use Rattle.walk.specs.MultiWalks.{LeadThere, Settled, IsUnmarked, StartsAt, Begun};

    const NONE: MultiWalk = MultiWalk {
        words: [[0; State::NUMBERS]; Individual::NUMBERS],
        behind: [StateSet::EMPTY; Individual::NUMBERS],
        full: [StateSet::EMPTY; Individual::NUMBERS],
        all: 0,
    };

    /// No node is marked yet.
    pub(crate) fn new() -> MultiWalk
        ensures { IsUnmarked result }
    {
        MultiWalk::NONE
    }

    // Some firsts reach the node of b in t. Where one of them is new there, the node is behind.
    fn mark(&mut self, b: usize, t: State, sources: Sources)
        requires row { b < most_individuals }
        requires ready { Ready self.old }
        requires part { Within sources self.old.all }
        ensures { Grown (At b t.0 sources) self.old self.new }
    {
        if t.0 >= State::MOST {
            return;
        }
        let s = t.0 as usize;
        let old = self.words[b][s];
        let new = old | sources;
        if new == old {
            return;
        }
        self.words[b][s] = new;
        self.behind[b] = with_state(self.behind[b], t);
        let all_reach = new == self.all;
        fill(&mut self.full, b, t, all_reach);
    }

    // Some firsts reach each state of a set at the individual b.
    fn send(&mut self, b: usize, states: StateSet, sources: Sources)
        requires row { b < most_individuals }
        requires ready { Ready self.old }
        requires part { Within sources self.old.all }
        ensures { Grown (InStates b states.0 sources) self.old self.new }
    {
        let open = states.minus(self.full[b]);
        for t in open.iter() {
            self.mark(b, t, sources);
        }
    }

    // Some firsts follow one edge from the state s.
    fn follow(&mut self, strides: &Strides, edge: FactEdge, s: State, sources: Sources)
        requires role { edge.role.0 < 2 * most_roles }
        requires to { edge.to.0 < most_individuals }
        requires ready { Ready self.old }
        requires part { Within sources self.old.all }
        ensures { Grown (ByEdge strides.now edge s.0 sources) self.old self.new }
    {
        let states = states_from(&strides.transitions[edge.role.0 as usize], s);
        self.send(edge.to.0 as usize, states, sources);
    }

    // Some firsts follow every edge of the individual a from the state s.
    fn follow_all(&mut self, strides: &Strides, a: Individual, s: State, sources: Sources)
        requires ready { Ready self.old }
        requires part { Within sources self.old.all }
        ensures { Grown (ByEdges strides.now (EdgeOf strides.now a.0) s.0 sources)
            self.old self.new }
    {
        for edge in strides.edges.of(a) {
            self.follow(strides, edge, s, sources);
        }
    }

    // The firsts at the node of a in s follow its strides, and the node is no longer behind.
    fn lead(&mut self, strides: &Strides, a: usize, s: State)
        requires row { a < most_individuals }
        requires ready { Ready self.old }
        requires behind { Has (states_at self.old.behind a) s.0 }
        ensures { Leads strides.now self.old self.new }
    {
        self.behind[a] = self.behind[a].minus(StateSet::only(s));
        let sources = word_of(&self.words[a], s);
        self.send(a, states_from(&strides.loops.rows[a], s), sources);
        self.follow_all(strides, Individual(a as u16), s, sources);
    }

    // The strides of the individual a are followed from the states among some, until it is behind in none of these; whether it was.
    fn visit(&mut self, strides: &Strides, a: usize, among: StateSet) -> bool
        requires row { a < most_individuals }
        requires ready { Ready self.old }
        ensures { Swept strides.now among.0 a (a + 1) self.old self.new result }
    {
        let mut led = false;
        loop {
            let mut waiting = self.behind[a].intersection(among);
            let Some(s) = waiting.pop_first() else {
                return led;
            };
            self.lead(strides, a, s);
            led = true;
        }
    }

    // Whether one individual of the group from a place on is behind in a state among some. It has no branch: most groups are passed over.
    fn is_behind(&self, at: usize, among: StateSet) -> bool
        requires { at + group ≤ most_individuals }
        ensures { Behind among.0 at group self.now result }
    {
        let mut any = StateSet::EMPTY;
        for i in 0..GROUP {
            any = any.union(self.behind[at + i]);
        }
        any.intersects(among)
    }

    // Each individual of a group is visited, where one of them is behind.
    fn visit_group(&mut self, strides: &Strides, at: usize, among: StateSet) -> bool
        requires row { at + group ≤ most_individuals }
        requires ready { Ready self.old }
        ensures { Swept strides.now among.0 at (at + group) self.old self.new result }
    {
        let mut led = false;
        if !self.is_behind(at, among) {
            return led;
        }
        for i in 0..GROUP {
            led |= self.visit(strides, at + i, among);
        }
        led
    }

    // Each individual is visited once; whether one was behind.
    fn sweep(&mut self, strides: &Strides, among: StateSet) -> bool
        requires ready { Ready self.old }
        ensures { Swept strides.now among.0 0 most_individuals self.old self.new result }
    {
        let mut led = false;
        for g in 0..GROUPS {
            led |= self.visit_group(strides, GROUP * g, among);
        }
        led
    }

    // Sweeps until no individual is behind in one of the given states, but at most a few times. It tells whether one may still be behind.
    fn sweep_a_few(&mut self, strides: &Strides, among: StateSet) -> bool
        requires ready { Ready self.old }
        ensures { Tries strides.now among.0 self.old self.new result }
    {
        for _ in 0..FEW_SWEEPS {
            if !self.sweep(strides, among) {
                return false;
            }
        }
        true
    }

    // One individual is visited, if it has a row.
    fn visit_one(&mut self, strides: &Strides, a: Individual, among: StateSet) -> bool
        requires ready { Ready self.old }
        ensures { Goes strides.now self.old self.new result }
    {
        if a.0 >= Individual::MOST {
            return false;
        }
        self.visit(strides, a.0 as usize, among)
    }

    // The individuals are visited along an order, and back.
    fn sweep_along(&mut self, strides: &Strides, order: &Order, among: StateSet) -> bool
        requires ready { Ready self.old }
        ensures { Goes strides.now self.old self.new result }
    {
        let mut led = false;
        for turn in 0..Order::TURNS {
            led |= self.visit_one(strides, order.at(turn), among);
        }
        led
    }

    // Sweeps along an order, until none leads on. An order is a hint: where the numbers of neighbours are far apart, fewer sweeps along it
    // are needed. It is never put into its caller, so that the order is on the stack while it is used, and at no other time.
    #[inline(never)]
    fn go_along(&mut self, strides: &Strides, among: StateSet)
        requires ready { Ready self.old }
        ensures { Kept strides.now self.old self.new }
    {
        let order = Order::new(strides);
        while self.sweep_along(strides, &order, among) {}
    }

    // Sweeps, until no individual is behind in a state among some.
    fn exhaust(&mut self, strides: &Strides, among: StateSet)
        requires ready { Ready self.old }
        ensures { Exhausts strides.now among.0 self.old self.new }
    {
        if among.is_empty() || !self.sweep_a_few(strides, among) {
            return;
        }
        self.go_along(strides, among);
        while self.sweep(strides, among) {}
    }

    // The hub, or a node of the individual a that is behind in a state among some, where more firsts reach it.
    fn better_hub(&self, hub: Hub, a: usize, among: StateSet) -> Hub
        requires { a < most_individuals }
    {
        let mut best = hub;
        for state in self.behind[a].intersection(among).iter() {
            let firsts = word_of(&self.words[a], state).count_ones();
            if firsts > best.firsts {
                best = Hub {
                    individual: Individual(a as u16),
                    state,
                    firsts,
                };
            }
        }
        best
    }

    // Of the nodes that are behind in a state among some, one that most firsts reach: a hint.
    fn hub(&self, among: StateSet) -> Hub {
        let mut best = Hub {
            individual: Individual(0),
            state: State(0),
            firsts: 0,
        };
        for a in 0..Individual::NUMBERS {
            best = self.better_hub(best, a, among);
        }
        best
    }

    // The firsts that are marked at some individual in a state of its set.
    pub(crate) fn marked_in(&self, sets: &Sets) -> Sources
        ensures { IsIn self.now.words sets.now most_individuals result }
    {
        let mut out = 0;
        for b in 0..Individual::NUMBERS {
            out |= at(&self.words[b], sets[b]);
        }
        out
    }

    // The firsts that are marked at nodes which lead to the hub. The function is never inlined, so that the tables of its walk backward are on
    // the stack only while that walk runs.
    #[inline(never)]
    fn leading_to(&self, strides: &Strides, hub: Hub) -> Sources
        ensures { LeadThere strides.now hub.individual.0 hub.state.0 self.now.words result }
    {
        let mut transposed = [[StateSet::EMPTY; State::NUMBERS]; SignedRole::NUMBERS];
        let against = Directed::backward(strides.transitions, &mut transposed);
        let behind = backward(strides, &against, hub.individual, hub.state);
        self.marked_in(&behind)
    }

    // Some firsts reach the node of b in t, and all nodes to which it leads: so it does not become behind. Where no other first reaches it, it
    // is behind no longer.
    fn settle(&mut self, b: usize, t: State, sources: Sources)
        requires row { b < most_individuals }
        requires ready { Ready self.old }
        requires part { Within sources self.old.all }
        ensures { Settled (At b t.0 sources) self.old self.new }
    {
        if t.0 >= State::MOST {
            return;
        }
        let s = t.0 as usize;
        let new = self.words[b][s] | sources;
        self.words[b][s] = new;
        let caught_up = new == sources;
        catch_up(&mut self.behind, b, t, caught_up);
        let all_reach = self.all == new;
        fill(&mut self.full, b, t, all_reach);
    }

    // Some firsts reach the individual b in each state of a set, and all nodes to which these lead.
    fn settle_at(&mut self, b: usize, states: StateSet, sources: Sources)
        requires row { b < most_individuals }
        requires ready { Ready self.old }
        requires part { Within sources self.old.all }
        ensures { Settled (InStates b states.0 sources) self.old self.new }
    {
        for t in states.iter() {
            self.settle(b, t, sources);
        }
    }

    // Some firsts reach each individual in each state of its set, and all nodes to which these lead.
    fn settle_all(&mut self, reached: &Sets, sources: Sources)
        requires ready { Ready self.old }
        requires part { Within sources self.old.all }
        ensures { Settled (InSets reached.now most_individuals sources) self.old self.new }
    {
        for b in 0..Individual::NUMBERS {
            self.settle_at(b, reached[b], sources);
        }
    }

    // Where the states among some are many, all firsts that lead to one hub are put at all nodes that it reaches, by two walks of one node
    // in place of many sweeps. What it reaches is closed under strides, so no node becomes behind by that.
    fn jump(&mut self, asking: &Asking, among: StateSet)
        requires ready { Ready self.old }
        ensures { Kept asking.now.strides self.old self.new }
    {
        if among.len() <= FEW_STATES {
            return;
        }
        let hub = self.hub(among);
        if hub.firsts == 0 {
            return;
        }
        let sources = self.leading_to(&asking.strides, hub);
        let reached = forward(&asking.strides, asking.forward, hub.individual, hub.state);
        self.settle_all(&reached, sources);
    }

    // Sweeps level by level, and last over every state: so whatever the levels are, no node is behind at the end.
    fn exhaust_all(&mut self, asking: &Asking, levels: &Levels)
        requires ready { Ready self.old }
        ensures { ExhaustsAll asking.now.strides self.old self.new }
    {
        for i in 0..State::NUMBERS {
            self.jump(asking, levels[i]);
            self.exhaust(&asking.strides, levels[i]);
        }
        self.exhaust(&asking.strides, EVERY_STATE);
    }

    // First k is marked in the start state, if both have a row.
    fn put(&mut self, firsts: &Firsts, k: usize, start: State)
        requires place { k < most_sources }
        requires ready { Ready self.old }
        requires part { Has self.old.all k }
        ensures { Grown (StartsAt firsts.now start.0 k) self.old self.new }
    {
        let a = firsts[k].0;
        if a >= Individual::MOST {
            return;
        }
        self.mark(a as usize, start, 1 << k);
    }

    // Each first below the count is marked in the start state, and nothing else.
    fn begin(&mut self, firsts: &Firsts, count: usize, start: State)
        requires few { count ≤ most_sources }
        requires none { IsUnmarked self.old }
        ensures { Begun firsts.now start.0 count count self.new }
    {
        self.all = every_first(count);
        for k in 0..count {
            self.put(firsts, k, start);
        }
    }

    /// Which of the firsts below the count reach each node from the start state.
    pub(crate) fn walk(&mut self, asking: &Asking, firsts: &Firsts, count: usize, levels: &Levels)
        requires few { count ≤ most_sources }
        requires none { IsUnmarked self.old }
        ensures { AreMarked asking.now.strides firsts.now count asking.now.question.start
            self.new.words }
    {
        are_rows(&asking.strides);
        self.begin(firsts, count, asking.question.start);
        self.exhaust_all(asking, levels);
    }
}
