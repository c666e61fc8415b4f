// The transitions of the question by each signed role, over the order of the roles.

ghost use Rattle.kinds.specs.Kinds.{most_states};
ghost use Rattle.rules.specs.Transitions.{AreTransitions, Gains, Pair, Below, ByOne, IsJoined, GainsEach, StepBy};
ghost use Rattle.rules.specs.Steps.{step_of, steps_of, Just, Among};

use kinds::{SignedRole, State};
use orders::RoleOrder;
use sets::{Relation, RoleSet, StateSet, Transitions, nowhere};
use tables::{Letter, Step, Table};

// One pair of states is put into the relation; a pair with a number out of range is passed over.
fn put(relation: &mut Relation, from: State, to: State)
    ensures { Gains (Pair from.0 to.0) relation.old relation.new }
{
    let s = from.0 as usize;
    if s < State::NUMBERS && to.0 < State::MOST {
        relation[s].insert(to);
    }
}

// One step is put into the relation of its own role. A test step leads along no edge.
fn put_step(own: &mut Transitions, one: Step)
    ensures { GainsEach (StepBy (Just (step_of one))) own.old own.new }
{
    if let Letter::Role(by) = one.letter
        && (by.0 as usize) < SignedRole::NUMBERS
    {
        put(&mut own[by.0 as usize], one.from, one.to);
    }
}

// Every step of a table is put in.
fn put_steps(own: &mut Transitions, steps: Table<Step>)
    ensures { GainsEach (StepBy (Among (steps_of steps.entry.numbers.now))) own.old own.new }
{
    for step in steps.iter() {
        put_step(own, step);
    }
}

// The pairs of the other relation are put in.
fn join(into: &mut Relation, relation: &Relation)
    ensures { Gains (Below relation.now most_states) into.old into.new }
{
    for s in 0..State::NUMBERS {
        into[s] = into[s].union(relation[s]);
    }
}

// The pairs of the relations of all roles of a set are put in.
fn join_all(into: &mut Relation, own: &Transitions, roles: RoleSet)
    ensures { Gains (ByOne own.now roles.0) into.old into.new }
{
    for role in roles.iter() {
        join(into, &own[role.0 as usize]);
    }
}

// The relation becomes the union of those of all roles of a set.
fn unite(into: &mut Relation, own: &Transitions, roles: RoleSet)
    ensures { IsJoined own.now roles.0 into.new }
{
    *into = [StateSet::EMPTY; State::NUMBERS];
    join_all(into, own, roles);
}

/// For each signed role R the transitions by the role steps S with R ≤ S, from a table of steps and the order of the roles.
/// What stood in `into` is gone; a step with a number out of range is passed over.
pub fn fill_transitions(into: &mut Transitions, steps: Table<Step>, roles: &RoleOrder)
    ensures { AreTransitions (steps_of steps.entry.numbers.now) roles.now.above into.new }
{
    let mut own = [nowhere(); SignedRole::NUMBERS];
    put_steps(&mut own, steps);
    for r in 0..SignedRole::NUMBERS {
        unite(&mut into[r], &own, roles.above[r]);
    }
}
