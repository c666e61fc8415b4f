// Down an edge to a child, along a mark of the delta there, and back up: the edge's parents are candidates.

ghost use Rattle.std.specs.Prelude.{ℕ, ◌<◌, IsTrue};
ghost use Rattle.kinds.specs.Kinds.{most_states};
ghost use Rattle.sets.specs.Bits.{Has, IsSetOf};
ghost use Rattle.sets.specs.Relations.{Relates, states_at};
ghost use Rattle.rules.specs.Rows.{most_edges, Gets};
ghost use Rattle.rules.specs.Transitions.{Gains, GainsEach, Pair};
ghost use Rattle.sheet.specs.Pairs.{HasSources, By, ByState};
ghost use Rattle.sheet.specs.Finds.{Forgets, PutLoop, PutLoops, LoopsFrom, AllLoops, AreLoops, HasFrom, HasAll};
ghost use Rattle.sheet.specs.Finds.{Trip, TripsFrom, HasTrips, IsPart, AddsNothing, ThroughEdges, ThroughChildren};

use crate::marks::Marks;
use kinds::{SignedRole, State};
use rules::{Edge, Rows};
use sets::{ConceptSet, Relation, RoleSet, StateSet, image, starts_of};

/// For each signed role R the marks at "has a neighbour by R", as a relation between states.
pub(crate) type Loops = [Relation; SignedRole::NUMBERS];

// The loops and the edge of the trips that were put last. Where roles include each other, many edges
// have the same trips: those that were put last are not put again.
#[derive(Clone, Copy)]
struct Last {
    loops: Relation,
    edge: Edge,
}

const NOWHERE: Relation = [StateSet::EMPTY; State::NUMBERS];

// Nothing is left in the relations of a set of roles.
fn clear_loops(loops: &mut Loops, roles: RoleSet)
    ensures { Forgets (Has roles.0) loops.old loops.new }
{
    for role in roles.iter() {
        loops[role.0 as usize] = NOWHERE;
    }
}

// One pair of states is added to a relation.
fn put_loop(relation: &mut Relation, s: usize, t: State)
    requires from { s < most_states }
    requires to { t.0 < most_states }
    ensures { Gains (Pair s t.0) relation.old relation.new }
{
    relation[s].insert(t);
}

// One pair of states is added to the relation of one role.
fn put_loop_of(loops: &mut Loops, role: SignedRole, s: usize, t: State)
    requires role { role.0 < most_edges }
    requires from { s < most_states }
    requires to { t.0 < most_states }
    ensures { GainsEach (PutLoop s t.0 role.0) loops.old loops.new }
{
    put_loop(&mut loops[role.0 as usize], s, t);
}

// One pair of states is added to the relation of each role of a set.
fn put_loops(loops: &mut Loops, roles: RoleSet, s: usize, t: State)
    requires from { s < most_states }
    requires to { t.0 < most_states }
    ensures { GainsEach (PutLoops (Has roles.0) s t.0) loops.old loops.new }
{
    for role in roles.iter() {
        put_loop_of(loops, role, s, t);
    }
}

// The rows of s are gathered: each mark at "has a neighbour by R" is a loop for R.
fn gather_from(loops: &mut Loops, delta: &Marks, s: usize)
    requires { s < most_states }
    ensures { GainsEach (LoopsFrom delta.now s) loops.old loops.new }
{
    for t in delta.pairs[s].iter() {
        let row = delta.rows[State::NUMBERS * s + t.0 as usize];
        put_loops(loops, row.roles(), s, t);
    }
}

// The rows of all states are gathered.
fn gather_all(loops: &mut Loops, delta: &Marks, from: StateSet)
    requires { HasSources from.0 delta.now.pairs }
    ensures { GainsEach (AllLoops delta.now) loops.old loops.new }
{
    for s in from.iter() {
        gather_from(loops, delta, s.0 as usize);
    }
}

// The delta's marks are gathered by roles, in one pass over its rows. Only the relations of the delta's
// own roles are cleared before, and only those are read.
fn gather(loops: &mut Loops, delta: &Marks, roles: RoleSet, from: StateSet)
    requires { HasSources from.0 delta.now.pairs }
    ensures { AreLoops delta.now roles.0 loops.new }
{
    clear_loops(loops, roles);
    gather_all(loops, delta, from);
}

// The states to which s is led down the edge, along a loop, and back up.
fn trips(loops: &Relation, edge: &Edge, s: usize) -> StateSet
    requires { s < most_states }
    ensures { IsSetOf (Trip loops.now edge.now s) result.0 }
{
    let down = edge.down[s];
    image(&edge.up, image(loops, down))
}

// The edge's parents are candidates at s and each such state.
fn trips_from(candidates: &mut Marks, loops: &Relation, edge: &Edge, s: usize)
    requires { s < most_states }
    ensures { Gets (TripsFrom loops.now edge.now s) candidates.old.rows candidates.new.rows }
{
    candidates.put_each(s, trips(loops, edge, s), edge.parents);
}

// The trips from every state are gone through.
fn all_trips(candidates: &mut Marks, loops: &Relation, edge: &Edge)
    ensures { Gets (ByState (TripsFrom loops.now edge.now)) candidates.old.rows
        candidates.new.rows }
{
    let from = starts_of(&edge.down);
    for s in from.iter() {
        trips_from(candidates, loops, edge, s.0 as usize);
    }
}

// Whether a relation leads from any state to any.
fn leads(relation: &Relation) -> bool
    ensures { (s t : ℕ) → Relates relation.now s t → IsTrue result }
{
    let mut all = StateSet::EMPTY;
    for row in relation.iter() {
        all = all.union(*row);
    }
    !all.is_empty()
}

// Whether a relation leads nowhere but where the other one does. There is no branch on a row.
fn is_part(small: &Relation, great: &Relation) -> bool
    ensures { IsTrue result → IsPart small.now great.now }
{
    let mut over = StateSet::EMPTY;
    for s in 0..State::NUMBERS {
        let row = small[s].minus(great[s]);
        over = over.union(row);
    }
    over.is_empty()
}

// Whether the trips that were put last are all that the edge has, with the same parents.
fn is_done(last: &Last, loops: &Relation, edge: &Edge) -> bool
    ensures { IsTrue result → AddsNothing last.now.loops last.now.edge loops.now edge.now }
{
    if edge.parents.0 != last.edge.parents.0 {
        return false;
    }
    if !is_part(&edge.down, &last.edge.down) {
        return false;
    }
    if !is_part(&edge.up, &last.edge.up) {
        return false;
    }
    is_part(loops, &last.loops)
}

// The trips are put, unless they were put last.
fn put_trips(candidates: &mut Marks, last: &mut Last, loops: &Relation, edge: &Edge)
    requires { HasTrips last.old.loops last.old.edge candidates.old.rows }
    ensures put { Gets (ByState (TripsFrom loops.now edge.now)) candidates.old.rows
        candidates.new.rows }
    ensures last { HasTrips last.new.loops last.new.edge candidates.new.rows }
{
    if is_done(last, loops, edge) {
        return;
    }
    all_trips(candidates, loops, edge);
    *last = Last {
        loops: *loops,
        edge: *edge,
    };
}

// Most edges have no role step down or none up: then there is nothing to look for.
#[tactic(auto, using(crate::proofs::Laws::edge_none))]
fn through_edge(candidates: &mut Marks, last: &mut Last, loops: &Relation, edge: &Edge)
    requires { HasTrips last.old.loops last.old.edge candidates.old.rows }
    ensures put { Gets (ByState (TripsFrom loops.now edge.now)) candidates.old.rows
        candidates.new.rows }
    ensures last { HasTrips last.new.loops last.new.edge candidates.new.rows }
{
    if !leads(&edge.down) || !leads(&edge.up) {
        return;
    }
    put_trips(candidates, last, loops, edge);
}

// All edges to a child that is known by "has a neighbour by" the role are gone through.
fn through_child(
    candidates: &mut Marks,
    last: &mut Last,
    loops: &Loops,
    rows: &Rows,
    role: SignedRole,
)
    requires role { role.0 < most_edges }
    requires last { HasTrips last.old.loops last.old.edge candidates.old.rows }
    ensures put { Gets (ThroughEdges loops.now rows.now role.0) candidates.old.rows
        candidates.new.rows }
    ensures last { HasTrips last.new.loops last.new.edge candidates.new.rows }
{
    for e in rows.edges_to[role.0 as usize].iter() {
        through_edge(
            candidates,
            last,
            &loops[role.0 as usize],
            &rows.edges[e.0 as usize],
        );
    }
}

// The concepts at which the delta has a mark from s.
fn concepts_from(delta: &Marks, s: usize) -> ConceptSet
    requires { s < most_states }
    ensures { HasFrom delta.now.rows (Has (states_at delta.now.pairs s)) s result.0 }
{
    let mut all = ConceptSet::EMPTY;
    for t in delta.pairs[s].iter() {
        all = all.union(delta.rows[State::NUMBERS * s + t.0 as usize]);
    }
    all
}

// The concepts at which the delta has a mark.
fn concepts(delta: &Marks, from: StateSet) -> ConceptSet
    requires { HasSources from.0 delta.now.pairs }
    ensures { HasAll delta.now (λ s. s < most_states) result.0 }
{
    let mut all = ConceptSet::EMPTY;
    for s in from.iter() {
        all = all.union(concepts_from(delta, s.0 as usize));
    }
    all
}

// The children that are known by a role of a set are gone through.
fn through_roles(candidates: &mut Marks, loops: &Loops, rows: &Rows, roles: RoleSet)
    ensures { Gets (By (Has roles.0) (ThroughEdges loops.now rows.now)) candidates.old.rows
        candidates.new.rows }
{
    let mut last = Last {
        loops: NOWHERE,
        edge: Edge::NONE,
    };
    for role in roles.iter() {
        through_child(candidates, &mut last, loops, rows, role);
    }
}

// Only a child at which the delta has a mark is gone through. What stands in the loops before does
// not matter: they are the room to gather the delta in.
pub(crate) fn through_children(
    candidates: &mut Marks,
    loops: &mut Loops,
    delta: &Marks,
    rows: &Rows,
    from: StateSet,
)
    requires { HasSources from.0 delta.now.pairs }
    ensures { Gets (ThroughChildren delta.now.rows rows.now) candidates.old.rows
        candidates.new.rows }
{
    let roles = concepts(delta, from).roles();
    gather(loops, delta, roles, from);
    through_roles(candidates, loops, rows, roles);
}
