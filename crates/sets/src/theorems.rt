// The theorems of this room: a set is known by its members, so each contract leaves one.
ghost use Rattle.std.specs.Prelude.{◌≡◌, ◌*◌, ◌↔◌, ℕ, List};
ghost use Rattle.laws.specs.Once.{AtMostOne};
ghost use Rattle.sets.specs.Bits.{Has, TakesFirst, IsBytesOf};

// A type that names a property of numbers: any.
pub trait AnyProperty {
    ghost use Rattle.std.specs.Prelude.{ℕ};

    ghost Holds: { ℕ → Type 0 };
}

/// Only one value satisfies each contract.
pub fn unique<P: AnyProperty>()
    ensures one_set { AtMostOne (λ (set : ℕ). (i : ℕ) → Has set i ↔ P.Holds i) }
    ensures one_first { (w set j k r s : ℕ) → TakesFirst w set j r → TakesFirst w set k s
        → (j ≡ k) × (r ≡ s) }
    ensures one_row_of_bytes { (m set : ℕ) → AtMostOne (IsBytesOf (8 * m) set) }
{}
