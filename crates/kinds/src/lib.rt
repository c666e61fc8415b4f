// The four kinds of number, signed roles and basic concepts over them, the declared counts, what is asked, and the answers.
#![tactic(auto)]

ghost use Rattle.std.specs.Prelude.{◌+◌, ◌*◌, ◌%◌, ◌<◌, ◌≡◌, ◌≢◌, ◌↔◌, IsTrue};
ghost use Rattle.kinds.specs.Kinds.{most_roles, inverse, forward, backward, wrapped, number_of, concept_of, NameDeclared, RoleDeclared, SignedDeclared, IndividualDeclared, StateDeclared, ConceptDeclared, CountsFit};
ghost use Rattle.kinds.specs.Asks.{first_of};
ghost use Rattle.kinds.specs.Answer.{answer_number, answer_count};

// A number of rounds, and the allowance of them.
pub type Rounds = u32;

// How many marks a round made.
pub type MarkCount = u32;

#[derive(Clone, Copy, PartialEq, Eq)]
pub struct ConceptName(pub u16);

#[derive(Clone, Copy, PartialEq, Eq)]
pub struct RoleName(pub u16);

#[derive(Clone, Copy, PartialEq, Eq)]
pub struct Individual(pub u16);

#[derive(Clone, Copy, PartialEq, Eq)]
pub struct State(pub u16);

// 2 × r is the role r forward, 2 × r + 1 is r backward.
#[derive(Clone, Copy, PartialEq, Eq)]
pub struct SignedRole(pub u16);

// The deed behind a fact, 0 where none is noted. Every number is valid, and nothing that is decided depends on it.
#[derive(Clone, Copy, PartialEq, Eq)]
pub struct DeedNumber(pub u16);

// A basic concept: a name, or "has an R-neighbour". There is no other way to make one.
#[derive(Clone, Copy, PartialEq, Eq)]
pub enum Concept {
    Name(ConceptName),
    Exists(SignedRole),
}

// What a collection declares.
#[derive(Clone, Copy, PartialEq, Eq)]
pub struct Counts {
    pub names: u16,
    pub roles: u16,
    pub individuals: u16,
    pub states: u16,
    pub start: State,
}

// What is asked of a collection: of a pair of individuals, whether a path that the question describes leads from the first to the second;
// from one individual, whether such a path leads anywhere at all.
#[derive(Clone, Copy)]
pub enum Ask {
    Pair(Individual, Individual),
    From(Individual),
}

// What a call answers; `number` and `count` are those of docs/RULES.md, section 7.
#[derive(Clone, Copy, PartialEq, Eq)]
pub enum Answer {
    No(Rounds),
    Yes(Rounds),
    Contradiction,
    AllowanceSpent(Rounds),
    BadCount,
    BadTable,
    BadNumber,
    BadAsk,
}

impl ConceptName {
    pub const MOST: u16 = 64;

    pub fn declared(self, counts: Counts) -> bool
        ensures { IsTrue result ↔ NameDeclared counts self }
    {
        self.0 < counts.names
    }
}

impl RoleName {
    pub const MOST: u16 = 32;

    pub fn declared(self, counts: Counts) -> bool
        ensures { IsTrue result ↔ RoleDeclared counts self }
    {
        self.0 < counts.roles
    }

    // Every declared role is far below half of 2 ^ 16; from there on the number wraps, as 16 bits do.
    #[tactic(auto, using(crate::specs::Kinds::wrapped_forward))]
    pub fn forward(self) -> SignedRole
        ensures wrapped { result ≡ wrapped (forward self) }
        ensures declared { self.0 < most_roles → result ≡ forward self }
    {
        SignedRole(self.0.wrapping_mul(2))
    }

    #[tactic(auto, using(crate::specs::Kinds::wrapped_backward))]
    pub fn backward(self) -> SignedRole
        ensures wrapped { result ≡ wrapped (backward self) }
        ensures declared { self.0 < most_roles → result ≡ backward self }
    {
        SignedRole(self.0.wrapping_mul(2) + 1)
    }
}

impl Individual {
    pub const MOST: u16 = 255;

    // A table has a place for each of so many individuals.
    pub const NUMBERS: usize = Individual::MOST as usize;

    pub fn declared(self, counts: Counts) -> bool
        ensures { IsTrue result ↔ IndividualDeclared counts self }
    {
        self.0 < counts.individuals
    }
}

impl State {
    pub const MOST: u16 = 32;

    // A table has a place for each of so many states, or pairs of states.
    pub const NUMBERS: usize = State::MOST as usize;

    pub const PAIRS: usize = State::NUMBERS * State::NUMBERS;

    pub fn declared(self, counts: Counts) -> bool
        ensures { IsTrue result ↔ StateDeclared counts self }
    {
        self.0 < counts.states
    }
}

// The bytes of a working area: a bit for each two states and each basic concept.
pub const AREA: usize = State::PAIRS * Concept::NUMBERS / u8::BITS as usize;

impl SignedRole {
    // A table has a place for each of so many signed roles, two for a role.
    pub const NUMBERS: usize = 2 * RoleName::MOST as usize;

    #[tactic(auto, unfolding(crate::specs::Kinds::inverse))]
    pub fn inverse(self) -> SignedRole
        ensures { result ≡ inverse self }
    {
        let r = self.0;
        if r % 2 == 0 {
            SignedRole(r + 1)
        } else {
            SignedRole(r - 1)
        }
    }

    // The concept "has a neighbour by this role".
    pub fn exists(self) -> Concept
        ensures { result ≡ Concept.Exists self }
    {
        Concept::Exists(self)
    }

    // Halved, so that no count of roles is too large for the test.
    pub fn declared(self, counts: Counts) -> bool
        ensures { IsTrue result ↔ SignedDeclared counts self }
    {
        self.0 / 2 < counts.roles
    }
}

impl Concept {
    // The number of "has a neighbour by the signed role 0".
    pub const BASE: u16 = 64;

    // A table has a place for each of so many basic concepts: the names, and "has a neighbour" for each signed role.
    pub const NUMBERS: usize = Concept::BASE as usize + SignedRole::NUMBERS;

    // The basic concept that a table's number means.
    #[tactic(auto, unfolding(crate::specs::Kinds::concept_of))]
    pub fn read(number: u16) -> Concept
        ensures { result ≡ concept_of number }
    {
        if number < Concept::BASE {
            Concept::Name(ConceptName(number))
        } else {
            Concept::Exists(SignedRole(number - Concept::BASE))
        }
    }

    #[tactic(auto, unfolding(crate::specs::Kinds::number_of))]
    pub fn number(self) -> usize
        ensures { result ≡ number_of self }
    {
        match self {
            Concept::Name(a) => a.0 as usize,
            Concept::Exists(r) => Concept::BASE as usize + r.0 as usize,
        }
    }

    pub fn declared(self, counts: Counts) -> bool
        ensures { IsTrue result ↔ ConceptDeclared counts self }
    {
        match self {
            Concept::Name(a) => a.declared(counts),
            Concept::Exists(r) => r.declared(counts),
        }
    }
}

impl Counts {
    // Each count in its range, and the start state below the count of states.
    pub fn fit(self) -> bool
        ensures { IsTrue result ↔ CountsFit self }
    {
        self.names <= ConceptName::MOST
            && self.roles <= RoleName::MOST
            && self.individuals <= Individual::MOST
            && self.states <= State::MOST
            && self.start.0 < self.states
    }
}

impl Ask {
    // The numbers of an ask in a row of them.
    pub const WIDTH: usize = 3;

    // The individual that its paths start from.
    pub fn first(self) -> Individual
        ensures { result ≡ first_of self }
    {
        match self {
            Ask::Pair(first, _) => first,
            Ask::From(first) => first,
        }
    }
}

impl Answer {
    pub fn number(self) -> u8
        ensures number { result ≡ answer_number self }
        ensures seven_never { result ≢ 7 }
    {
        match self {
            Answer::No(_) => 0,
            Answer::Yes(_) => 1,
            Answer::Contradiction => 2,
            Answer::AllowanceSpent(_) => 3,
            Answer::BadCount => 4,
            Answer::BadTable => 5,
            Answer::BadNumber => 6,
            Answer::BadAsk => 8,
        }
    }

    pub fn count(self) -> Rounds
        ensures { result ≡ answer_count self }
    {
        match self {
            Answer::No(rounds) => rounds,
            Answer::Yes(rounds) => rounds,
            Answer::Contradiction => 0,
            Answer::AllowanceSpent(allowance) => allowance,
            Answer::BadCount => 0,
            Answer::BadTable => 0,
            Answer::BadNumber => 0,
            Answer::BadAsk => 0,
        }
    }
}
