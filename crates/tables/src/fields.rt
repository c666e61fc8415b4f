// How a record is read from the numbers of its table. Only this crate can name it, and only a `Table` reads by it.
ghost use Rattle.std.specs.Prelude.{◌≡◌, ◌<◌, ◌/◌, ℕ, List, length};

// A kind of record: `WIDTH` numbers, the fields in the order of docs/RULES.md (section 3).
pub trait Fields: Sized {
    ghost WIDTH: { ℕ };

    ghost read: { List ℕ → ℕ → Self };

    const WIDTH: usize;

    // Record k of a table, each field as its kind.
    fn read(numbers: &[u16], k: usize) -> Self
        requires { k < length numbers.now / WIDTH }
        ensures { result ≡ read numbers.now k };

    // A record has a number at least.
    ghost wide: { 0 < WIDTH };
}
