// The records of the tables, by their fields.
ghost use Rattle.std.specs.Prelude.{◌≡◌, ◌<◌, ◌≤◌, ◌/◌, ◌↔◌, ℕ, List, length, IsTrue};
ghost use Rattle.std.proofs.Common.{rules};
ghost use Rattle.kinds.specs.declared.Counts.{Counts};
ghost use Rattle.kinds.specs.Kinds.{StateDeclared};
ghost use Rattle.meaning.specs.Lent.{rule_width, concept_fact_width, role_fact_width, step_width, final_width, final_at};
ghost use Rattle.tables.specs.Records.{read_concept_pair, read_role_pair, read_concept_fact, read_role_fact, read_step, read_step_kind};
ghost use Rattle.tables.specs.Records.{IsConceptPairDeclared, IsRolePairDeclared, IsConceptFactDeclared, IsRoleFactDeclared, IsStepDeclared, IsStepKind};

use crate::fields::Fields;
use kinds::{Concept, ConceptName, Counts, DeedNumber, Individual, RoleName, SignedRole, State};

// A kind of record: when its numbers are declared.
pub trait Record: Fields {
    ghost Declared: { Counts → Self → Type 0 };

    // Every number in it is declared.
    fn declared(self, counts: Counts) -> bool
        ensures { IsTrue result ↔ Declared counts self };
}

// A concept rule, left below right, or a concept exclusion, left beside right.
#[derive(Clone, Copy)]
pub struct ConceptPair {
    pub left: Concept,
    pub right: Concept,
}

impl ConceptPair {
    // The numbers of a record.
    pub const WIDTH: usize = 2;
}

impl Fields for ConceptPair {
    ghost WIDTH = { rule_width };

    ghost read = { read_concept_pair };

    ghost wide = { Prim.search rules };

    const WIDTH: usize = ConceptPair::WIDTH;

    fn read(numbers: &[u16], k: usize) -> ConceptPair {
        ConceptPair {
            left: Concept::read(numbers[Self::WIDTH * k]),
            right: Concept::read(numbers[Self::WIDTH * k + 1]),
        }
    }
}

impl Record for ConceptPair {
    ghost Declared = { IsConceptPairDeclared };

    fn declared(self, counts: Counts) -> bool {
        self.left.declared(counts) && self.right.declared(counts)
    }
}

// A role rule, left below right, or a role exclusion, left beside right.
#[derive(Clone, Copy)]
pub struct RolePair {
    pub left: SignedRole,
    pub right: SignedRole,
}

impl RolePair {
    // The numbers of a record.
    pub const WIDTH: usize = 2;
}

impl Fields for RolePair {
    ghost WIDTH = { rule_width };

    ghost read = { read_role_pair };

    ghost wide = { Prim.search rules };

    const WIDTH: usize = RolePair::WIDTH;

    fn read(numbers: &[u16], k: usize) -> RolePair {
        RolePair {
            left: SignedRole(numbers[Self::WIDTH * k]),
            right: SignedRole(numbers[Self::WIDTH * k + 1]),
        }
    }
}

impl Record for RolePair {
    ghost Declared = { IsRolePairDeclared };

    fn declared(self, counts: Counts) -> bool {
        self.left.declared(counts) && self.right.declared(counts)
    }
}

// An individual is of a named concept.
#[derive(Clone, Copy)]
pub struct ConceptFact {
    pub name: ConceptName,
    pub individual: Individual,
    pub deed: DeedNumber,
}

impl ConceptFact {
    // The numbers of a record.
    pub const WIDTH: usize = 3;
}

impl Fields for ConceptFact {
    ghost WIDTH = { concept_fact_width };

    ghost read = { read_concept_fact };

    ghost wide = { Prim.search rules };

    const WIDTH: usize = ConceptFact::WIDTH;

    fn read(numbers: &[u16], k: usize) -> ConceptFact {
        ConceptFact {
            name: ConceptName(numbers[Self::WIDTH * k]),
            individual: Individual(numbers[Self::WIDTH * k + 1]),
            deed: DeedNumber(numbers[Self::WIDTH * k + 2]),
        }
    }
}

impl Record for ConceptFact {
    ghost Declared = { IsConceptFactDeclared };

    // Its deed number, like that of a role fact, may be any.
    fn declared(self, counts: Counts) -> bool {
        self.name.declared(counts) && self.individual.declared(counts)
    }
}

// A role leads from the first individual to the second.
#[derive(Clone, Copy)]
pub struct RoleFact {
    pub role: RoleName,
    pub first: Individual,
    pub second: Individual,
    pub deed: DeedNumber,
}

impl RoleFact {
    // The numbers of a record.
    pub const WIDTH: usize = 4;
}

impl Fields for RoleFact {
    ghost WIDTH = { role_fact_width };

    ghost read = { read_role_fact };

    ghost wide = { Prim.search rules };

    const WIDTH: usize = RoleFact::WIDTH;

    fn read(numbers: &[u16], k: usize) -> RoleFact {
        RoleFact {
            role: RoleName(numbers[Self::WIDTH * k]),
            first: Individual(numbers[Self::WIDTH * k + 1]),
            second: Individual(numbers[Self::WIDTH * k + 2]),
            deed: DeedNumber(numbers[Self::WIDTH * k + 3]),
        }
    }
}

impl Record for RoleFact {
    ghost Declared = { IsRoleFactDeclared };

    fn declared(self, counts: Counts) -> bool {
        self.role.declared(counts) && self.first.declared(counts) && self.second.declared(counts)
    }
}

// What a step reads: a signed role, or a test on a name.
#[derive(Clone, Copy)]
pub enum Letter {
    Role(SignedRole),
    Test(ConceptName),
}

impl Letter {
    ghost use Rattle.tables.specs.Letters.{read_letter, IsLetterDeclared};

    // Any kind above 0 is read as a test: that none is above 1 is what `StepKind` tests.
    pub fn read(kind: u16, number: u16) -> Letter
        ensures { result ≡ read_letter kind number }
    {
        if kind == 0 {
            Letter::Role(SignedRole(number))
        } else {
            Letter::Test(ConceptName(number))
        }
    }

    pub fn declared(self, counts: Counts) -> bool
        ensures { IsTrue result ↔ IsLetterDeclared counts self }
    {
        match self {
            Letter::Role(role) => role.declared(counts),
            Letter::Test(name) => name.declared(counts),
        }
    }
}

// A step of the question, from a state to a state by what it reads. Its numbers: kind, from, letter, to.
#[derive(Clone, Copy)]
pub struct Step {
    pub from: State,
    pub letter: Letter,
    pub to: State,
}

impl Step {
    // The numbers of a record.
    pub const WIDTH: usize = 4;
}

impl Fields for Step {
    ghost WIDTH = { step_width };

    ghost read = { read_step };

    ghost wide = { Prim.search rules };

    const WIDTH: usize = Step::WIDTH;

    fn read(numbers: &[u16], k: usize) -> Step {
        Step {
            from: State(numbers[Self::WIDTH * k + 1]),
            letter: Letter::read(numbers[Self::WIDTH * k], numbers[Self::WIDTH * k + 2]),
            to: State(numbers[Self::WIDTH * k + 3]),
        }
    }
}

impl Record for Step {
    ghost Declared = { IsStepDeclared };

    fn declared(self, counts: Counts) -> bool {
        self.from.declared(counts) && self.letter.declared(counts) && self.to.declared(counts)
    }
}

// The kind alone of a step, 0 for a role or 1 for a test: a second reading of the same table.
#[derive(Clone, Copy)]
pub struct StepKind(pub u16);

impl StepKind {
    // The numbers of a record.
    pub const WIDTH: usize = 4;
}

impl Fields for StepKind {
    ghost WIDTH = { step_width };

    ghost read = { read_step_kind };

    ghost wide = { Prim.search rules };

    const WIDTH: usize = StepKind::WIDTH;

    fn read(numbers: &[u16], k: usize) -> StepKind {
        StepKind(numbers[Self::WIDTH * k])
    }
}

impl Record for StepKind {
    ghost Declared = { IsStepKind };

    fn declared(self, _counts: Counts) -> bool {
        self.0 <= 1
    }
}

// A final state.
impl Fields for State {
    ghost WIDTH = { final_width };

    ghost read = { final_at };

    ghost wide = { Prim.search rules };

    const WIDTH: usize = 1;

    fn read(numbers: &[u16], k: usize) -> State {
        State(numbers[k])
    }
}

impl Record for State {
    ghost Declared = { StateDeclared };

    fn declared(self, counts: Counts) -> bool {
        self.declared(counts)
    }
}
