//! The place where a number is greatest, as a law. Nothing is computed here.

ghost use Rattle.std.specs.Prelude.{◌≡◌, ◌↔◌, ◌<◌, ℕ, Bool, false, Some, None, ℤ};
ghost use Rattle.gap_witness.specs.Places.{first_greatest, IsFirstGreatest};

/// One pass finds a place exactly where it is the first of those that pass the test and where the number is greatest,
/// and none exactly where no place passes it.
pub fn first_greatest_is()
    ensures found { (n : ℕ) (p : ℕ → Bool) (f : ℕ → ℤ) (i : ℕ) → (first_greatest n p f ≡ Some i) ↔ IsFirstGreatest n p f i }
    ensures none { (n : ℕ) (p : ℕ → Bool) (f : ℕ → ℤ) → (first_greatest n p f ≡ None) ↔ ((k : ℕ) → k < n → p k ≡ false) }
{}
