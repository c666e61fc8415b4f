// A walk: sweeps over the individuals, each of which follows the states that were reached and not followed yet. A walk that comes to an individual
// that is known takes over what that one reaches.

ghost use Rattle.std.specs.Prelude.{◌≡◌, ◌+◌, ◌<◌, ◌≤◌, false, length};
ghost use Rattle.kinds.specs.Kinds.{most_individuals};
ghost use Rattle.sets.specs.Bits.{role_width};
ghost use Rattle.walk.specs.Guides.{IsForward, IsBackward};
ghost use Rattle.walk.specs.Images.{AreImages};
ghost use Rattle.walk.specs.Known.{AreKnown};
ghost use Rattle.walk.specs.Passes.{group, Grows, InSet, ByEdge, ByEdges, IsWithLoops, Behind, Ready, Passes, Finds};
ghost use Rattle.walk.specs.Passes.{Absorbs, IsLent, AreOutside};
ghost use Rattle.walk.specs.Walks.{EdgeOf, WalkedBy, LeadTo, LeadToAmong};

use crate::Sets;
use crate::directed::Directed;
use crate::images::Images;
use crate::known::{KEPT, Known};
use crate::strides::Strides;
use edges::FactEdge;
use kinds::{Individual, State};
use sets::StateSet;

// The individuals are tested in 17 groups of 15.
const GROUP: usize = 15;

const GROUPS: usize = Individual::NUMBERS / GROUP;

const EVERY_STATE: StateSet = StateSet(u32::MAX);

/// What one walk goes by: strides, their transitions in its direction, and what individuals that are known reach from a state.
#[derive(Clone, Copy)]
pub struct Guide<'d, 's, 'a> {
    pub strides: Strides<'s, 'a>,
    pub directed: &'d Directed<'d>,
    pub known: Option<&'d Known>,
    pub state: State,
}

// A walk under way: the states in which each individual was reached, and those that were followed.
#[derive(Clone, Copy)]
struct Walk {
    reached: Sets,
    followed: Sets,
}

// A set put into that of the individual b; whether b gets a new state by it.
fn join(reached: &mut Sets, b: usize, m: StateSet) -> bool
    requires row { b < most_individuals }
    requires ready { Ready reached.old }
    ensures { Grows (InSet b m.0) reached.old reached.new result }
{
    let old = reached[b];
    let all = old.union(m);
    if all == old {
        return false;
    }
    reached[b] = all;
    true
}

// One edge from the states m. Most edges are passed over, since all states that their role leads to were reached.
fn follow(
    reached: &mut Sets,
    images: &mut Images,
    guide: &Guide,
    edge: FactEdge,
    m: StateSet,
) -> bool
    requires role { edge.role.0 < role_width }
    requires to { edge.to.0 < most_individuals }
    requires ready { Ready reached.old }
    requires made { AreImages guide.now.directed.now.transitions.now m.0 images.old }
    ensures grows { Grows (ByEdge guide.now edge m.0) reached.old reached.new result }
    ensures made { AreImages guide.now.directed.now.transitions.now m.0 images.new }
{
    let b = edge.to.0 as usize;
    if guide.directed.ends_within(edge.role, reached[b]) {
        return false;
    }
    let next = images.by(guide.directed.transitions, edge.role, m);
    join(reached, b, next)
}

// Every edge at the individual a, from the states m.
fn follow_all(reached: &mut Sets, guide: &Guide, a: Individual, m: StateSet) -> bool
    requires ready { Ready reached.old }
    ensures { Grows (ByEdges guide.now (EdgeOf guide.now.strides a.0) m.0)
        reached.old reached.new result }
{
    let mut images = Images::NONE;
    let mut grew = false;
    for edge in guide.strides.edges.of(a) {
        grew |= follow(reached, &mut images, guide, edge, m);
    }
    grew
}

// The states m, and all to which loops at the individual a lead from them.
fn with_loops(guide: &Guide, a: usize, m: StateSet) -> StateSet
    requires { a < most_individuals }
    ensures { IsWithLoops guide.now a m.0 result.0 }
{
    let mut all = m;
    loop {
        let more = all.union(
            guide
                .directed
                .direction
                .led(&guide.strides.loops.rows[a], all),
        );
        if more == all {
            return all;
        }
        all = more;
    }
}

// The states of the individual a that were not followed yet are followed, its loops first; whether another set grew by it.
fn visit(walk: &mut Walk, guide: &Guide, a: usize) -> bool
    requires row { a < most_individuals }
    requires ready { Ready walk.old.reached }
    requires long { length walk.old.followed ≡ most_individuals }
    ensures { Passes guide.now a (a + 1) walk.old walk.new result }
{
    let own = walk.reached[a];
    let was = walk.followed[a];
    if own == was {
        return false;
    }
    let all = with_loops(guide, a, own);
    walk.reached[a] = all;
    walk.followed[a] = all;
    let new = all.minus(was);
    follow_all(&mut walk.reached, guide, Individual(a as u16), new)
}

// All that a known individual reaches, taken as reached and as followed: it is closed under strides.
fn absorb(walk: &mut Walk, ahead: &Sets)
    requires ready { Ready walk.old.reached }
    requires long { length walk.old.followed ≡ most_individuals }
    ensures { Absorbs ahead.now most_individuals walk.old walk.new }
{
    for b in 0..Individual::NUMBERS {
        walk.reached[b] = walk.reached[b].union(ahead[b]);
        walk.followed[b] = walk.followed[b].union(ahead[b]);
    }
}

// What the individual a reaches is taken over, where it is known, and a was reached in the state of which it is known.
fn take_over(walk: &mut Walk, guide: &Guide, a: usize)
    requires row { a < most_individuals }
    requires ready { Ready walk.old.reached }
    requires long { length walk.old.followed ≡ most_individuals }
    requires lent { IsLent guide.now }
    ensures { Passes guide.now a a walk.old walk.new false }
{
    let Some(known) = guide.known else {
        return;
    };
    let k = known.place_of(a);
    if k >= KEPT || !walk.reached[a].contains(guide.state) {
        return;
    }
    absorb(walk, &known.sets[k]);
}

// The states of the individual a that were not followed yet, by what is known of it or by a visit.
fn come(walk: &mut Walk, guide: &Guide, a: usize) -> bool
    requires row { a < most_individuals }
    requires ready { Ready walk.old.reached }
    requires long { length walk.old.followed ≡ most_individuals }
    requires lent { IsLent guide.now }
    ensures { Passes guide.now a (a + 1) walk.old walk.new result }
{
    if walk.reached[a] == walk.followed[a] {
        return false;
    }
    take_over(walk, guide, a);
    visit(walk, guide, a)
}

// Whether one individual of the group from a place on has states to follow. It has no branch, since most groups are passed over.
fn is_behind(reached: &Sets, followed: &Sets, at: usize) -> bool
    requires { at + group ≤ most_individuals }
    ensures { Behind at group reached.now followed.now result }
{
    let mut differs = false;
    for i in 0..GROUP {
        differs |= reached[at + i] != followed[at + i];
    }
    differs
}

// Visits to the individuals of a group, where one of them has states to follow.
fn pass(walk: &mut Walk, guide: &Guide, at: usize) -> bool
    requires row { at + group ≤ most_individuals }
    requires ready { Ready walk.old.reached }
    requires long { length walk.old.followed ≡ most_individuals }
    requires lent { IsLent guide.now }
    ensures { Passes guide.now at (at + group) walk.old walk.new result }
{
    let mut again = false;
    if !is_behind(&walk.reached, &walk.followed, at) {
        return again;
    }
    for i in 0..GROUP {
        again |= come(walk, guide, at + i);
    }
    again
}

// Once over the individuals; whether one may be left with states to follow.
fn sweep(walk: &mut Walk, guide: &Guide) -> bool
    requires ready { Ready walk.old.reached }
    requires long { length walk.old.followed ≡ most_individuals }
    requires lent { IsLent guide.now }
    ensures { Passes guide.now 0 most_individuals walk.old walk.new result }
{
    let mut again = false;
    for p in 0..GROUPS {
        again |= pass(walk, guide, GROUP * p);
    }
    again
}

// Sweeps, until no individual has states to follow.
fn exhaust(walk: &mut Walk, guide: &Guide)
    requires ready { Ready walk.old.reached }
    requires long { length walk.old.followed ≡ most_individuals }
    requires lent { IsLent guide.now }
    ensures { Passes guide.now 0 most_individuals walk.old walk.new false }
{
    while sweep(walk, guide) {}
}

// The walk from the first individual in the start state. It is never put into its caller, so that
// its sets are on the stack while it walks, and at no other time.
#[inline(never)]
fn walk_by(guide: &Guide, first: Individual, start: State) -> Sets
    requires { IsLent guide.now }
    ensures { Finds guide.now first start result }
{
    let blank = [StateSet::EMPTY; Individual::NUMBERS];
    if first.0 >= Individual::MOST || start.0 >= State::MOST {
        return blank;
    }
    let mut reached = blank;
    reached[first.0 as usize] = StateSet::only(start);
    let mut walk = Walk {
        reached,
        followed: blank,
    };
    exhaust(&mut walk, guide);
    walk.reached
}

/// The states in which each individual is reached from the first one in the start state; none where either has no row.
pub(crate) fn forward(
    strides: &Strides,
    directed: &Directed,
    first: Individual,
    start: State,
) -> Sets
    requires { IsForward strides.now.transitions.now directed.now }
    ensures { WalkedBy strides.now first start result }
{
    let guide = Guide {
        strides: *strides,
        directed,
        known: None,
        state: start,
    };
    walk_by(&guide, first, start)
}

/// The states in which each individual is reached from the first one in the start state, found by what is known of others in that state.
pub(crate) fn forward_by_known(
    strides: &Strides,
    directed: &Directed,
    known: &Known,
    first: Individual,
    start: State,
) -> Sets
    requires forward { IsForward strides.now.transitions.now directed.now }
    requires known { AreKnown strides.now start known.now }
    ensures { WalkedBy strides.now first start result }
{
    let guide = Guide {
        strides: *strides,
        directed,
        known: Some(known),
        state: start,
    };
    walk_by(&guide, first, start)
}

/// The states from which each individual leads to the last one in a state, the latter among them; none where either has no row.
pub(crate) fn backward(
    strides: &Strides,
    directed: &Directed,
    last: Individual,
    state: State,
) -> Sets
    requires { IsBackward strides.now.transitions.now directed.now }
    ensures { LeadTo strides.now last state result }
{
    let guide = Guide {
        strides: *strides,
        directed,
        known: None,
        state,
    };
    walk_by(&guide, last, state)
}

// The states of each individual that are not in its set.
fn outside(sets: &Sets) -> Sets
    ensures { AreOutside sets.now result }
{
    let mut out = [StateSet::EMPTY; Individual::NUMBERS];
    for b in 0..Individual::NUMBERS {
        out[b] = EVERY_STATE.minus(sets[b]);
    }
    out
}

/// Of the nodes ahead of the last individual in a state those that lead to it; of other nodes nothing is said. These are taken as followed
/// from the outset, so that the walk stays among those that are ahead.
pub(crate) fn backward_among(
    strides: &Strides,
    directed: &Directed,
    ahead: &Sets,
    last: Individual,
    state: State,
) -> Sets
    requires backward { IsBackward strides.now.transitions.now directed.now }
    requires ahead { WalkedBy strides.now last state ahead.now }
    ensures { LeadToAmong strides.now ahead.now last state result }
{
    let others = outside(ahead);
    if last.0 >= Individual::MOST {
        return others;
    }
    let mut reached = others;
    let at = last.0 as usize;
    reached[at] = reached[at].union(StateSet::only(state));
    let guide = Guide {
        strides: *strides,
        directed,
        known: None,
        state,
    };
    let mut walk = Walk {
        reached,
        followed: others,
    };
    exhaust(&mut walk, &guide);
    walk.reached
}
