// What stands in one byte of a frame: as a reader takes it, and as it is written.
ghost use Rattle.std.specs.Prelude.{◌≡◌, ℕ};
ghost use Rattle.std.specs.Int.{byte_at};
ghost use Rattle.kinds.specs.Kinds.{concept_name, role_name, individual, state, signed, concept_of, number_of};

use kinds::{Concept, ConceptName, Individual, RoleName, SignedRole, State};

pub(crate) trait Field {
    ghost of: { ℕ → Self };

    ghost number: { Self → ℕ };

    fn of(byte: u16) -> Self
        ensures { result ≡ of byte };

    // The byte of its number; of one that has no room in a byte the low one.
    fn byte(self) -> u8
        ensures { result ≡ byte_at 0 (number self) };
}

fn low_byte(number: usize) -> u8
    ensures { result ≡ byte_at 0 number }
{
    number.to_le_bytes()[0]
}

// A count.
impl Field for u16 {
    ghost of = { λ byte. byte };

    ghost number = { λ count. count };

    fn of(byte: u16) -> u16 {
        byte
    }

    fn byte(self) -> u8 {
        low_byte(self as usize)
    }
}

impl Field for Concept {
    ghost of = { concept_of };

    ghost number = { number_of };

    fn of(byte: u16) -> Concept {
        Concept::read(byte)
    }

    fn byte(self) -> u8 {
        low_byte(self.number())
    }
}

impl Field for ConceptName {
    ghost of = { concept_name };

    ghost number = { λ name. name.0 };

    fn of(byte: u16) -> ConceptName {
        ConceptName(byte)
    }

    fn byte(self) -> u8 {
        self.0.byte()
    }
}

impl Field for SignedRole {
    ghost of = { signed };

    ghost number = { λ role. role.0 };

    fn of(byte: u16) -> SignedRole {
        SignedRole(byte)
    }

    fn byte(self) -> u8 {
        self.0.byte()
    }
}

impl Field for RoleName {
    ghost of = { role_name };

    ghost number = { λ role. role.0 };

    fn of(byte: u16) -> RoleName {
        RoleName(byte)
    }

    fn byte(self) -> u8 {
        self.0.byte()
    }
}

impl Field for Individual {
    ghost of = { individual };

    ghost number = { λ i. i.0 };

    fn of(byte: u16) -> Individual {
        Individual(byte)
    }

    fn byte(self) -> u8 {
        self.0.byte()
    }
}

impl Field for State {
    ghost of = { state };

    ghost number = { λ state. state.0 };

    fn of(byte: u16) -> State {
        State(byte)
    }

    fn byte(self) -> u8 {
        self.0.byte()
    }
}
