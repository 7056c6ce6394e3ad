//! The laws of parts that other crates rest on, as contracts. Nothing is computed here.

ghost use Rattle.std.specs.Prelude.{◌≡◌, ◌↔◌, ◌≤◌, ℕ, true, List};
ghost use Rattle.gap_box.specs.declared.cell.Cell.{Cell};
ghost use Rattle.gap_box.specs.Cells.{AreCells};
ghost use Rattle.gap_box.specs.Parts.{can_meet, IsPick};

/// The count of a part can be met exactly where some list of the part meets it.
pub fn count_is_met()
    ensures { (cells : List Cell) (fewest most : ℕ) → AreCells cells → fewest ≤ most
        → (can_meet cells fewest most ≡ true) ↔ ((x : List ℕ) × IsPick cells fewest most x) }
{}
