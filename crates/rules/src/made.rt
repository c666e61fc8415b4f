// The rows of a collection, from its counts, orders and steps. One function makes each part.

ghost use Rattle.std.specs.Prelude.{◌≡◌, ◌*◌, ◌<◌, replicate};
ghost use Rattle.std.specs.Bool.{OnTrue};
ghost use Rattle.kinds.specs.Kinds.{most_states, state, number_of, concept_of, StateDeclared, ConceptDeclared};
ghost use Rattle.sets.specs.Rows.{no_concepts};
ghost use Rattle.rules.specs.Rows.{most_concepts, most_edges, Gets};
ghost use Rattle.rules.specs.Steps.{step_of, steps_of, Just, Among};
ghost use Rattle.rules.specs.Made.{InsertsIf, IsStates, IsConcepts, Passes, IsEdgesTo, AreEdgesTo, IsEdge, AreEdges};

use crate::rows::{Edge, Rows};
use kinds::{Concept, Counts, SignedRole, State};
use orders::ConceptRelation;
use sets::{ConceptSet, RoleSet, Sheet, StateSet, Transitions};
use tables::{Letter, Step, Table};

// A state put to a set, where it is declared.
fn with_state(set: StateSet, s: usize, counts: Counts) -> StateSet
    requires { s < most_states }
    ensures { InsertsIf (StateDeclared counts (state s)) s set.0 result.0 }
{
    let state = State(s as u16);
    let mut out = set;
    if state.declared(counts) {
        out.insert(state);
    }
    out
}

// The declared states.
fn states(counts: Counts) -> StateSet
    ensures { IsStates counts most_states result.0 }
{
    let mut set = StateSet::EMPTY;
    for s in 0..State::NUMBERS {
        set = with_state(set, s, counts);
    }
    set
}

// A concept put to a set, where it is valid.
fn with_concept(set: ConceptSet, k: usize, counts: Counts) -> ConceptSet
    requires { k < most_concepts }
    ensures { InsertsIf (ConceptDeclared counts (concept_of k)) k set.0 result.0 }
{
    let concept = Concept::read(k as u16);
    let mut out = set;
    if concept.declared(counts) {
        out.insert(concept);
    }
    out
}

// The valid concepts.
fn concepts(counts: Counts) -> ConceptSet
    ensures { IsConcepts counts most_concepts result.0 }
{
    let mut set = ConceptSet::EMPTY;
    for k in 0..Concept::NUMBERS {
        set = with_concept(set, k, counts);
    }
    set
}

// Whether there is no test at any pair of states. There is no branch on a row.
fn has_none(tests: &Sheet) -> bool
    ensures { OnTrue result (tests.now ≡ replicate (most_states * most_states) no_concepts) }
{
    let mut all = ConceptSet::EMPTY;
    for row in tests.iter() {
        all = all.union(*row);
    }
    all.is_empty()
}

// No test is left. Rows that know nothing have none before, which is found in less time than they are cleared.
fn clear(tests: &mut Sheet)
    ensures { tests.new ≡ replicate (most_states * most_states) no_concepts }
{
    if has_none(tests) {
        return;
    }
    let none = ConceptSet::none();
    tests.fill(none);
}

// A test step leads on at each concept below its name.
fn put_test(tests: &mut Sheet, below: &ConceptRelation, one: Step)
    ensures { Gets (Passes (Just (step_of one)) below.now) tests.old tests.new }
{
    let s = one.from.0 as usize;
    let t = one.to.0 as usize;
    if s >= State::NUMBERS || t >= State::NUMBERS {
        return;
    }
    if let Letter::Test(by) = one.letter
        && (by.0 as usize) < Concept::NUMBERS
    {
        let q = State::NUMBERS * s + t;
        tests[q] = tests[q].union(below[by.0 as usize]);
    }
}

// Every test step of a table is put in.
fn put_tests(tests: &mut Sheet, below: &ConceptRelation, steps: Table<Step>)
    ensures { Gets (Passes (Among (steps_of steps.entry.numbers.now)) below.now) tests.old
        tests.new }
{
    for step in steps.iter() {
        put_test(tests, below, step);
    }
}

// The edge to a child whose first concept is "has a neighbour by R": that of the inverse of R.
fn edges_to(role: SignedRole) -> RoleSet
    requires { role.0 < most_edges }
    ensures { IsEdgesTo role.0 result.0 }
{
    RoleSet::only(role.inverse())
}

fn put_edges_to(edges: &mut [RoleSet; SignedRole::NUMBERS])
    ensures { AreEdgesTo edges.new }
{
    for (r, to) in edges.iter_mut().enumerate() {
        *to = edges_to(SignedRole(r as u16));
    }
}

// The edge of a signed role: down it lead the transitions of the role, and back up those of its inverse.
fn put_edge(edge: &mut Edge, below: &ConceptRelation, transitions: &Transitions, role: SignedRole)
    requires { role.0 < most_edges }
    ensures { IsEdge below.now transitions.now role.0 edge.new }
{
    let back = role.inverse();
    let up = back.0 as usize;
    edge.parents = below[Concept::BASE as usize + role.0 as usize];
    edge.down = transitions[role.0 as usize];
    edge.up = transitions[up];
}

fn put_edges(
    edges: &mut [Edge; SignedRole::NUMBERS],
    below: &ConceptRelation,
    transitions: &Transitions,
)
    ensures { AreEdges below.now transitions.now edges.new }
{
    for (r, edge) in edges.iter_mut().enumerate() {
        put_edge(edge, below, transitions, SignedRole(r as u16));
    }
}

impl Rows {
    ghost use Rattle.kinds.specs.Kinds.{most_states};
    ghost use Rattle.rules.specs.Rows.{most_concepts};
    ghost use Rattle.rules.specs.Steps.{steps_of};
    ghost use Rattle.rules.specs.Made.{IsStates, IsConcepts, AreTests, AreEdgesTo, AreEdges};

    /// Rows that know nothing.
    pub const NONE: Rows = Rows {
        states: StateSet::EMPTY,
        concepts: ConceptSet::EMPTY,
        tests: [ConceptSet::EMPTY; State::PAIRS],
        edges_to: [RoleSet::EMPTY; SignedRole::NUMBERS],
        edges: [Edge::NONE; SignedRole::NUMBERS],
    };

    /// The rows of a collection: what it declares, what is below each concept, where each signed
    /// role leads, and its steps. What stood here before is gone.
    pub fn fill(
        &mut self,
        counts: Counts,
        below: &ConceptRelation,
        transitions: &Transitions,
        steps: Table<Step>,
    )
        ensures states { IsStates counts most_states self.new.states.0 }
        ensures concepts { IsConcepts counts most_concepts self.new.concepts.0 }
        ensures tests { AreTests (steps_of steps.entry.numbers.now) below.now self.new.tests }
        ensures edges_to { AreEdgesTo self.new.edges_to }
        ensures edges { AreEdges below.now transitions.now self.new.edges }
    {
        self.states = states(counts);
        self.concepts = concepts(counts);
        clear(&mut self.tests);
        put_tests(&mut self.tests, below, steps);
        put_edges_to(&mut self.edges_to);
        put_edges(&mut self.edges, below, transitions);
    }
}
