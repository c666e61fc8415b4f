// The records of each table as frames.
ghost use Rattle.std.specs.Prelude.{◌≡◌};
ghost use Rattle.frames.specs.declared.Frame.{Frame};
ghost use Rattle.fair_copy.specs.Framed.{read_step_frame};

use frames::Frame;
use kinds::State;
use tables::{ConceptFact, ConceptPair, Letter, Record, RoleFact, RolePair, Step};

// A kind of frame that says a record of one table.
pub(crate) trait Framed {
    type Record: Record;

    ghost frame: { Self.Record → Frame };

    fn frame(one: Self::Record) -> Frame
        ensures { result ≡ frame one };
}

pub(crate) struct ConceptRules;

impl Framed for ConceptRules {
    type Record = ConceptPair;

    ghost frame = { λ pair. Frame.ConceptRule pair.left pair.right };

    fn frame(pair: ConceptPair) -> Frame {
        Frame::ConceptRule(pair.left, pair.right)
    }
}

pub(crate) struct ConceptExclusions;

impl Framed for ConceptExclusions {
    type Record = ConceptPair;

    ghost frame = { λ pair. Frame.ConceptExclusion pair.left pair.right };

    fn frame(pair: ConceptPair) -> Frame {
        Frame::ConceptExclusion(pair.left, pair.right)
    }
}

pub(crate) struct RoleRules;

impl Framed for RoleRules {
    type Record = RolePair;

    ghost frame = { λ pair. Frame.RoleRule pair.left pair.right };

    fn frame(pair: RolePair) -> Frame {
        Frame::RoleRule(pair.left, pair.right)
    }
}

pub(crate) struct RoleExclusions;

impl Framed for RoleExclusions {
    type Record = RolePair;

    ghost frame = { λ pair. Frame.RoleExclusion pair.left pair.right };

    fn frame(pair: RolePair) -> Frame {
        Frame::RoleExclusion(pair.left, pair.right)
    }
}

pub(crate) struct ConceptFacts;

impl Framed for ConceptFacts {
    type Record = ConceptFact;

    ghost frame = { λ fact. Frame.ConceptFact fact.name fact.individual fact.deed };

    fn frame(fact: ConceptFact) -> Frame {
        Frame::ConceptFact(fact.name, fact.individual, fact.deed)
    }
}

pub(crate) struct RoleFacts;

impl Framed for RoleFacts {
    type Record = RoleFact;

    ghost frame = { λ fact. Frame.RoleFact fact.role fact.first fact.second fact.deed };

    fn frame(fact: RoleFact) -> Frame {
        Frame::RoleFact(fact.role, fact.first, fact.second, fact.deed)
    }
}

pub(crate) struct Steps;

impl Framed for Steps {
    type Record = Step;

    ghost frame = { read_step_frame };

    fn frame(step: Step) -> Frame {
        match step.letter {
            Letter::Role(role) => Frame::RoleStep(step.from, role, step.to),
            Letter::Test(name) => Frame::TestStep(step.from, name, step.to),
        }
    }
}

pub(crate) struct Finals;

impl Framed for Finals {
    type Record = State;

    ghost frame = { λ state. Frame.Final state };

    fn frame(state: State) -> Frame {
        Frame::Final(state)
    }
}
