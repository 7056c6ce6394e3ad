//! What was printed is one thing: equal texts have equal outcomes. Nothing is computed here.

ghost use Rattle.std.specs.Prelude.{◌≡◌, ◌⊎◌, ℕ, ◌<◌, ◌^◌, List, [], ◌++◌};
ghost use Rattle.std.specs.List.{AllByRecursion};
ghost use Rattle.gap_model.specs.declared.outcome.Told.{Told};
ghost use Rattle.gap_report.specs.Texts.{told_lines, all_lines, IsShort};

/// The lines of weights tell all that they were made of: where they are equal, the weights are, and each is closed, none or
/// open in both, with the same objective, bound and lots, and the same number of split nodes. So it is of one weight,
/// whatever stands behind its lines, which is then equal too, and of a list of weights. Both are for one budget and one
/// number of assets, which the lines don't name, and have numbers of at most 64 digits, as every number of 128 bits has.
pub fn texts_tell_outcomes()
    ensures lines { (lots assets nodes other : ℕ) (a b : Told) (rest more : List ℕ)
        → assets < 10 ^ 64 → nodes < 10 ^ 64 → other < 10 ^ 64 → IsShort assets a → IsShort assets b
        → told_lines lots nodes a ++ rest ≡ told_lines lots other b ++ more → (a ≡ b) × (nodes ≡ other) × (rest ≡ more) }
    ensures lists { (lots assets nodes other : ℕ) (a b : List Told)
        → assets < 10 ^ 64 → nodes < 10 ^ 64 → other < 10 ^ 64
        → AllByRecursion (IsShort assets) a → AllByRecursion (IsShort assets) b
        → all_lines lots nodes a ≡ all_lines lots other b → (a ≡ b) × ((a ≡ []) ⊎ (nodes ≡ other)) }
{}
