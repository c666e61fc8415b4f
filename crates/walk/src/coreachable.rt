// From which states and concepts a final state is reached below an element: by the loops of the closed sheet, and by steps down to a child.

ghost use Rattle.std.specs.Prelude.{◌≡◌, ◌≢◌, ◌↔◌, ◌+◌, ◌<◌, ℕ, IsTrue, true, false};
ghost use Rattle.kinds.specs.Kinds.{most_states, base, flip};
ghost use Rattle.sets.specs.Bits.{Has, IsSetOf, concept_width, role_width};
ghost use Rattle.sets.specs.Relations.{concepts_at, relation_at, Relates};
ghost use Rattle.walk.specs.CoReachable.{Goes, IsLive, AreAlive, Along, ByMarks, PutAt, PutEach, StepBy, Further, Adds, AreCoReachable};
ghost use Rattle.walk.specs.Covers.{Covers};

use crate::question::final_states;
use crate::strides::leading_roles;
use kinds::{Concept, SignedRole, State};
use sets::{ConceptSet, RoleSet, Sheet, StateSet, Transitions, preimage};
use tables::Table;

/// What paths below an individual go by: for each concept those below it, the transitions of each signed role, the closed sheet, and the states in
/// which a path may end.
#[derive(Clone, Copy)]
pub struct PathsBelow<'t> {
    pub below: &'t [ConceptSet; Concept::NUMBERS],
    pub transitions: &'t Transitions,
    pub sheet: &'t Sheet,
    pub finals: StateSet,
}

impl<'t> PathsBelow<'t> {
    ghost use Rattle.walk.specs.Finals.{AreFinals};

    /// From the rows below each concept, the transitions, the closed sheet and a table of finals.
    pub fn new(
        below: &'t [ConceptSet; Concept::NUMBERS],
        transitions: &'t Transitions,
        sheet: &'t Sheet,
        finals: Table<State>,
    ) -> PathsBelow<'t>
        ensures below { result.below.now ≡ below.now }
        ensures transitions { result.transitions.now ≡ transitions.now }
        ensures sheet { result.sheet.now ≡ sheet.now }
        ensures finals { AreFinals finals.entry.numbers.now result.finals.0 }
    {
        let finals = final_states(finals);
        PathsBelow {
            below,
            transitions,
            sheet,
            finals,
        }
    }
}

/// For each state the concepts from which, sooner or later, a step down leads on from it to a final state.
pub(crate) type CoReachable = [ConceptSet; State::NUMBERS];

// Whether the set has the concept that a child is known by: that it has a neighbour by the role back.
fn has_child(concepts: ConceptSet, back: SignedRole) -> bool
    ensures { IsTrue result ↔ Has concepts.0 (base + back.0) }
{
    concepts.roles().contains(back)
}

// Whether the way leads on from such a child in a state: at once, or by what is found so far.
fn goes(paths: &PathsBelow, now: &CoReachable, t: usize, back: SignedRole) -> bool
    requires { t < most_states }
    ensures { IsTrue result ↔ Goes paths.now.finals.0 now.now t (base + back.0) }
{
    paths.finals.contains(State(t as u16)) || has_child(now[t], back)
}

// All states in which the way leads on at once, or by some concept.
fn alive(paths: &PathsBelow, now: &CoReachable) -> StateSet
    ensures { AreAlive paths.now.finals.0 now.now most_states result.0 }
{
    let mut out = paths.finals;
    for t in 0..State::NUMBERS {
        out.insert_if(State(t as u16), !now[t].is_empty());
    }
    out
}

// Of these, the states in which it leads on from such a child.
fn live_to(paths: &PathsBelow, now: &CoReachable, alive: StateSet, back: SignedRole) -> StateSet
    requires { AreAlive paths.now.finals.0 now.now most_states alive.0 }
    ensures { IsSetOf (IsLive paths.now.finals.0 now.now (base + back.0)) result.0 }
{
    let mut out = StateSet::EMPTY;
    for t in alive.iter() {
        out.insert_if(t, goes(paths, now, t.0 as usize, back));
    }
    out
}

// The concepts with a mark from s to t, from which the way leads on in t.
fn along(paths: &PathsBelow, now: &CoReachable, s: usize, t: usize) -> ConceptSet
    requires from { s < most_states }
    requires to { t < most_states }
    ensures { IsSetOf (Along paths.now.sheet.now paths.now.finals.0 now.now s t) result.0 }
{
    let marked = paths.sheet[State::NUMBERS * s + t];
    if paths.finals.contains(State(t as u16)) {
        return marked;
    }
    marked.intersection(now[t])
}

// The concepts with a mark from s to some state, from which the way leads on there.
fn by_marks(paths: &PathsBelow, now: &CoReachable, alive: StateSet, s: usize) -> ConceptSet
    requires from { s < most_states }
    requires alive { AreAlive paths.now.finals.0 now.now most_states alive.0 }
    ensures { IsSetOf (ByMarks paths.now now.now s) result.0 }
{
    let mut out = ConceptSet::EMPTY;
    for t in alive.iter() {
        out = out.union(along(paths, now, s, t.0 as usize));
    }
    out
}

// What one mark adds to each set.
fn with_marks(paths: &PathsBelow, now: &CoReachable, alive: StateSet) -> CoReachable
    requires { AreAlive paths.now.finals.0 now.now most_states alive.0 }
    ensures { Adds (ByMarks paths.now now.now) now.now result }
{
    let mut next = *now;
    for s in 0..State::NUMBERS {
        next[s] = next[s].union(by_marks(paths, now, alive, s));
    }
    next
}

// The concepts are put into the set of a state. A state past the last has none.
fn put_at(next: &mut CoReachable, s: State, concepts: ConceptSet)
    ensures { Adds (PutAt concepts.0 s.0) next.old next.new }
{
    if s.0 >= State::MOST {
        return;
    }
    let at = s.0 as usize;
    next[at] = next[at].union(concepts);
}

// The concepts are put into the set of each of some states.
fn put_each(next: &mut CoReachable, states: StateSet, concepts: ConceptSet)
    ensures { Adds (PutEach (Has states.0) concepts.0) next.old next.new }
{
    for s in states.iter() {
        put_at(next, s, concepts);
    }
}

// What one step down by a signed role adds: the concepts that have such a child, in each state from which the role leads to one in which the
// way leads on from the child.
fn put_steps(
    paths: &PathsBelow,
    now: &CoReachable,
    alive: StateSet,
    next: &mut CoReachable,
    role: SignedRole,
)
    requires role { role.0 < role_width }
    requires alive { AreAlive paths.now.finals.0 now.now most_states alive.0 }
    ensures { Adds (StepBy paths.now now.now role.0) next.old next.new }
{
    let r = role.0 as usize;
    let live = live_to(paths, now, alive, role.inverse());
    let states = preimage(&paths.transitions[r], live);
    put_each(next, states, paths.below[Concept::BASE as usize + r]);
}

// What one mark or one step down adds.
fn further(paths: &PathsBelow, roles: RoleSet, now: &CoReachable) -> CoReachable
    requires { Covers paths.now.transitions.now roles.0 }
    ensures { Adds (Further paths.now now.now) now.now result }
{
    let alive = alive(paths, now);
    let mut next = with_marks(paths, now, alive);
    for role in roles.iter() {
        put_steps(paths, now, alive, &mut next, role);
    }
    next
}

// Nothing was added.
fn same(now: &CoReachable, next: &CoReachable) -> bool
    ensures alike { result ≡ true
        → (s : ℕ) → s < most_states → concepts_at now.now s ≡ concepts_at next.now s }
    ensures differ { result ≡ false
        → (s : ℕ) × (s < most_states) × (concepts_at now.now s ≢ concepts_at next.now s) }
{
    for s in 0..State::NUMBERS {
        if now[s] != next[s] {
            return false;
        }
    }
    true
}

// All from which a step down leads on, sooner or later.
pub(crate) fn co_reachable(paths: &PathsBelow) -> CoReachable
    ensures { AreCoReachable paths.now result }
{
    let roles = leading_roles(paths.transitions);
    let mut now = [ConceptSet::EMPTY; State::NUMBERS];
    loop {
        let next = further(paths, roles, &now);
        if same(&now, &next) {
            return now;
        }
        now = next;
    }
}
