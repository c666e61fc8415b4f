// The theorem of this room: the contract of `check` leaves one answer.
ghost use Rattle.std.specs.Prelude.{ℕ};
ghost use Rattle.laws.specs.Once.{AtMostOne};
ghost use Rattle.tables.specs.declared.collection.Collection.{Collection};
ghost use Rattle.tables.specs.Tests.{IsChecked};

/// Only one value satisfies the contract.
pub fn unique()
    ensures one_refusal { (c : Collection) (area spare : ℕ)
        → AtMostOne (IsChecked c area spare) }
{}
