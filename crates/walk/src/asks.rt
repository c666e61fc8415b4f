// The answers to a batch of asks: by components of firsts that reach the same, then for the firsts that are left by walks of many at once,
// or one by one where they are few.

ghost use Rattle.std.specs.Prelude.{◌≡◌, ◌↔◌, ◌+◌, ◌<◌, ◌≤◌, IsTrue};
ghost use Rattle.kinds.specs.Kinds.{most_individuals};
ghost use Rattle.sets.specs.Bits.{Has};
ghost use Rattle.walk.specs.Asks.{Hit, FromHit};
ghost use Rattle.walk.specs.Guides.{IsBackward};
ghost use Rattle.walk.specs.Known.{AreKnown};
ghost use Rattle.walk.specs.Batches.{most_batch, size_of, ask_in};
ghost use Rattle.walk.specs.Sources.{most_sources, AreMarked, IsIn};
ghost use Rattle.walk.specs.Telling.{Tells, Answering, IsComponent, OfMember, OfMembers};
ghost use Rattle.walk.specs.Telling.{Picks, IsPicked, OfPicked, AreMarksOf};
ghost use Rattle.walk.specs.Telling.{IsAtSecond, IsHitBy};

use crate::Sets;
use crate::asking::Asking;
use crate::batch::{Answers, BATCH, Batch};
use crate::components::Component;
use crate::directed::Directed;
use crate::hints::{FEW, Find, Search, graph, is_on_cycle, levels};
use crate::known::Known;
use crate::multi::{Firsts, Levels, MultiWalk, SOURCES, Sources, at};
use crate::question::Question;
use kinds::{Ask, Individual, SignedRole, State};
use sets::StateSet;

/// A place among first individuals that walk together, of which there are 128.
pub type Place = u8;

/// First individuals that walk together, those in the places below the count, each mostly once; and for each individual, and for each ask
/// of the batch, the place in which it may be found there, which is a hint.
#[derive(Clone, Copy)]
pub struct Picked {
    pub firsts: Firsts,
    pub count: usize,
    pub places: [Place; BATCH],
    place_of: [Place; Individual::NUMBERS],
}

// How many asks of the batch have no answer: a hint.
fn open_count(answers: &Answers, batch: &Batch) -> usize {
    let mut open: usize = 0;
    for k in 0..batch.len() {
        if answers[k].is_none() {
            open = open.saturating_add(1);
        }
    }
    open
}

// Whether what was reached makes the answer yes; `out` says so of an ask with one named end, since it is the same for all of these.
fn is_hit_or_out(question: Question, reached: &Sets, ask: Ask, out: bool) -> bool
    requires { IsTrue out ↔ FromHit reached.now question.accepting.now.rows }
    ensures { IsTrue result ↔ Hit reached.now question.entry ask }
{
    match ask {
        Ask::Pair(_, _) => question.is_hit(reached, ask),
        Ask::From(_) => out,
    }
}

// The answer to ask k, where its first is a member of the component.
fn tell_member(answers: &mut Answers, asking: &Asking, component: &Component, out: bool, k: usize)
    requires component { IsComponent asking.now.strides asking.now.question.start component.now }
    requires out { IsTrue out
        ↔ FromHit component.now.reached asking.now.question.accepting.now.rows }
    ensures { Tells asking.now (OfMember asking.now component.now k) answers.old answers.new }
{
    let Some(ask) = asking.batch.get(k) else {
        return;
    };
    if !component.has(ask.first()) {
        return;
    }
    answers[k] = Some(is_hit_or_out(asking.question, &component.reached, ask, out));
}

// The answers to all asks whose first is a member of the component.
fn tell_members(answers: &mut Answers, asking: &Asking, component: &Component)
    requires { IsComponent asking.now.strides asking.now.question.start component.now }
    ensures { Tells asking.now
        (OfMembers asking.now component.now (size_of asking.now.batch)) answers.old answers.new }
{
    let out = asking
        .question
        .is_hit(&component.reached, Ask::From(component.first));
    for k in 0..asking.batch.len() {
        tell_member(answers, asking, component, out, k);
    }
}

// Ask k, and the asks of the same first individual, by a walk from it.
fn answer_alone(answers: &mut Answers, asking: &Asking, k: usize)
    requires { Answering asking.now k answers.old }
    ensures { Answering asking.now (k + 1) answers.new }
{
    let Some(ask) = asking.batch.get(k) else {
        return;
    };
    if answers[k].is_some() {
        return;
    }
    let component = Component::alone(asking, ask.first());
    tell_members(answers, asking, &component);
}

// Every ask, by one walk from each first individual.
fn answer_each(answers: &mut Answers, asking: &Asking)
    requires { Answering asking.now 0 answers.old }
    ensures { Answering asking.now (size_of asking.now.batch) answers.new }
{
    for k in 0..asking.batch.len() {
        answer_alone(answers, asking, k);
    }
}

// The asks of the component of ask k, which is known from then on. What the search found there is a hint.
fn answer_component(
    answers: &mut Answers,
    asking: &Asking,
    against: &Directed,
    known: &mut Known,
    k: usize,
) -> Find
    requires against { IsBackward asking.now.strides.transitions.now against.now }
    requires known { AreKnown asking.now.strides asking.now.question.start known.old }
    requires before { Answering asking.now 0 answers.old }
    ensures known { AreKnown asking.now.strides asking.now.question.start known.new }
    ensures after { Answering asking.now 0 answers.new }
{
    let Some(ask) = asking.batch.get(k) else {
        return Find::NONE;
    };
    let open = open_count(answers, &asking.batch);
    let component = Component::of(asking, against, known, ask.first());
    let met = known.is_met(&component.reached, asking.question.start);
    known.keep(&component);
    tell_members(answers, asking, &component);
    Find {
        answered: open.saturating_sub(open_count(answers, &asking.batch)),
        met,
    }
}

// The asks of some components, while enough are answered by each. It is never put into its caller, so that what is known of components is on
// the stack at no other time.
#[inline(never)]
fn answer_components(answers: &mut Answers, asking: &Asking)
    requires { Answering asking.now 0 answers.old }
    ensures { Answering asking.now 0 answers.new }
{
    let mut transposed = [[StateSet::EMPTY; State::NUMBERS]; SignedRole::NUMBERS];
    let against = Directed::backward(asking.strides.transitions, &mut transposed);
    let mut known = Known::new();
    let mut search = Search::new();
    for k in 0..asking.batch.len() {
        if answers[k].is_none() && search.goes_on() {
            search.note(answer_component(answers, asking, &against, &mut known, k));
        }
    }
}

impl Picked {
    ghost use Rattle.std.specs.Prelude.{◌≡◌, ◌<◌, ◌≤◌, ℕ, slice_index};
    ghost use Rattle.walk.specs.Batches.{most_batch};
    ghost use Rattle.walk.specs.Sources.{most_sources, first_at};
    ghost use Rattle.walk.specs.Telling.{Keeps};

    // One first individual is picked, and each ask has the first place.
    fn new(first: Individual) -> Picked
        ensures count { result.count ≡ 1 }
        ensures own { first_at result.firsts 0 ≡ first.0 }
        ensures places { (k : ℕ) → k < most_batch → slice_index result.places k ≡ 0 }
    {
        Picked {
            firsts: [first; SOURCES],
            count: 1,
            places: [0; BATCH],
            place_of: [0; Individual::NUMBERS],
        }
    }

    // The place in which the individual was picked, if it was: else it is some place, with another individual or none (`has_at`).
    fn place_of(&self, first: Individual) -> Place {
        if first.0 >= Individual::MOST {
            return SOURCES as Place;
        }
        self.place_of[first.0 as usize]
    }

    // Whether the individual was picked in a place.
    fn has_at(&self, place: Place, first: Individual) -> bool {
        let at = place as usize;
        at < self.count && at < SOURCES && self.firsts[at] == first
    }

    // The individual is picked in the next place, if there is room; those that were picked stay.
    fn add(&mut self, first: Individual)
        requires { self.old.count ≤ most_sources }
        ensures { Keeps self.old self.new }
    {
        let at = self.count;
        if at >= SOURCES {
            return;
        }
        if first.0 < Individual::MOST {
            self.place_of[first.0 as usize] = at as Place;
        }
        self.firsts[at] = first;
        self.count = at + 1;
    }
}

// The first of ask j is picked, if the ask is open and it was not picked yet; and the ask is given its place.
fn pick_one(picked: &mut Picked, answers: &Answers, asking: &Asking, j: usize, k: usize)
    requires later { k < j }
    requires picks { Picks asking.now k picked.old }
    ensures { Picks asking.now k picked.new }
{
    let Some(ask) = asking.batch.get(j) else {
        return;
    };
    if answers[j].is_some() {
        return;
    }
    let first = ask.first();
    if !picked.has_at(picked.place_of(first), first) {
        picked.add(first);
    }
    picked.places[j] = picked.place_of(first);
}

// The first of ask k, and those of open asks after it.
fn pick(answers: &Answers, asking: &Asking, ask: Ask, k: usize) -> Picked
    requires place { k < most_batch }
    requires ask { ask ≡ ask_in asking.now.batch k }
    ensures { Picks asking.now k result }
{
    let mut picked = Picked::new(ask.first());
    for j in k + 1..asking.batch.len() {
        pick_one(&mut picked, answers, asking, j, k);
    }
    picked
}

// The firsts for which the answer to the ask is yes; out are those that reach an accepts.
fn hit_by(walk: &MultiWalk, question: Question, ask: Ask, out: Sources) -> Sources
    requires { IsIn walk.now.words question.accepting.now.rows most_individuals out }
    ensures { IsHitBy walk.now.words question.entry ask result }
{
    match ask {
        Ask::Pair(_, second) => at_second(walk, question.finals, second),
        Ask::From(_) => out,
    }
}

// The firsts that reach the individual in a state of a set; one that has no row is not reached.
fn at_second(walk: &MultiWalk, finals: StateSet, second: Individual) -> Sources
    ensures { IsAtSecond walk.now.words finals.0 second.0 result }
{
    if second.0 >= Individual::MOST {
        return 0;
    }
    at(&walk.words[second.0 as usize], finals)
}

// Whether first k is among some.
fn is_among(sources: Sources, k: usize) -> bool
    requires { k < most_sources }
    ensures { IsTrue result ↔ Has sources k }
{
    (sources >> k) & 1 == 1
}

// What a multi-walk tells of the asks that were picked: `out` has the firsts that reach an individual in an accepts of it.
#[derive(Clone, Copy)]
struct Marks<'r> {
    picked: &'r Picked,
    walk: &'r MultiWalk,
    out: Sources,
}

// The answer to ask j, where the walk in its place begins at its first.
fn tell_picked(answers: &mut Answers, asking: &Asking, marks: &Marks, j: usize)
    requires { AreMarksOf asking.now marks.now }
    ensures { Tells asking.now
        (IsPicked asking.now marks.now.picked.now j) answers.old answers.new }
{
    let Some(ask) = asking.batch.get(j) else {
        return;
    };
    let i = marks.picked.places[j] as usize;
    if i >= marks.picked.count || ask.first() != marks.picked.firsts[i] {
        return;
    }
    let sources = hit_by(marks.walk, asking.question, ask, marks.out);
    answers[j] = Some(is_among(sources, i));
}

// The answers to the asks whose firsts were picked, and have walked.
fn tell_all_picked(answers: &mut Answers, asking: &Asking, picked: &Picked, walk: &MultiWalk)
    requires few { picked.now.count ≤ most_sources }
    requires marked { AreMarked asking.now.strides picked.now.firsts picked.now.count
        asking.now.question.start walk.now.words }
    ensures { Tells asking.now
        (OfPicked asking.now picked.now (size_of asking.now.batch)) answers.old answers.new }
{
    let marks = Marks {
        picked,
        walk,
        out: walk.marked_in(&asking.question.accepting.rows),
    };
    for j in 0..asking.batch.len() {
        tell_picked(answers, asking, &marks, j);
    }
}

// Ask k, and open asks after it, by walks of all their firsts at once. It is never put into its caller, so that its words are on the stack
// while these walks are made, and at no other time.
#[inline(never)]
fn answer_together(answers: &mut Answers, asking: &Asking, levels: &Levels, k: usize)
    requires { Answering asking.now k answers.old }
    ensures { Answering asking.now (k + 1) answers.new }
{
    let Some(ask) = asking.batch.get(k) else {
        return;
    };
    if answers[k].is_some() {
        return;
    }
    let picked = pick(answers, asking, ask, k);
    let mut walk = MultiWalk::new();
    walk.walk(asking, &picked.firsts, picked.count, levels);
    tell_all_picked(answers, asking, &picked, &walk);
}

// Every ask, by walks of many firsts at once.
fn answer_many(answers: &mut Answers, asking: &Asking, levels: &Levels)
    requires { Answering asking.now 0 answers.old }
    ensures { Answering asking.now (size_of asking.now.batch) answers.new }
{
    for k in 0..asking.batch.len() {
        answer_together(answers, asking, levels, k);
    }
}

// Every ask that components leave open.
fn answer_rest(answers: &mut Answers, asking: &Asking, levels: &Levels)
    requires { Answering asking.now 0 answers.old }
    ensures { Answering asking.now (size_of asking.now.batch) answers.new }
{
    if open_count(answers, &asking.batch) < FEW {
        answer_each(answers, asking);
        return;
    }
    answer_many(answers, asking, levels);
}

/// Every ask of the batch.
pub(crate) fn answer_all(answers: &mut Answers, asking: &Asking)
    requires { Answering asking.now 0 answers.old }
    ensures { Answering asking.now (size_of asking.now.batch) answers.new }
{
    if asking.batch.len() < FEW {
        answer_each(answers, asking);
        return;
    }
    let graph = graph(&asking.strides);
    if is_on_cycle(&graph, asking.question.start) {
        answer_components(answers, asking);
    }
    answer_rest(answers, asking, &levels(&graph));
}
