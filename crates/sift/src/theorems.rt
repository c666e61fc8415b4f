// The theorem of this room: the contract of `salvage` leaves one outcome.
ghost use Rattle.std.specs.Prelude.{Bool, List};
ghost use Rattle.tables.specs.declared.collection.Collection.{Collection};
ghost use Rattle.salvage.specs.declared.Typed.{Typed};
ghost use Rattle.sift.specs.Salvage.{SalvagesOnce};

/// Only one answer and one row of marks satisfy the contract.
pub fn unique()
    ensures one_salvage { (c : Collection) (order : List Typed) (old : List Bool)
        → SalvagesOnce c order old }
{}
