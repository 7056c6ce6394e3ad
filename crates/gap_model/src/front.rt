//! The rows of an efficient frontier, and which of them no other row dominates.

ghost use Rattle.std.specs.Prelude.{◌≡◌, ◌<◌, ◌↔◌, length, IsTrue};
ghost use Rattle.gap_model.specs.Fronts.{Dominates, IsEfficient};

use gap_base::Weight;

/// The risk and the return of the portfolio that was found for a weight, in the units of `risk` and `ret`.
#[derive(Clone, Copy, PartialEq, Eq, Debug)]
pub struct FrontRow {
    pub weight: Weight,
    pub risk: i128,
    pub ret: i128,
}

// Does a row have no more risk and no less return than another, and less or more of one of them?
fn dominates(row: FrontRow, other: FrontRow) -> bool
    ensures { IsTrue result ↔ Dominates row other }
{
    row.risk <= other.risk && row.ret >= other.ret && (row.risk < other.risk || row.ret > other.ret)
}

/// Is row `k` one that no row dominates? One pass over the rows; takes no memory.
pub fn efficient(rows: &[FrontRow], k: usize) -> bool
    requires { k < length rows.now }
    ensures { IsTrue result ↔ IsEfficient rows.now k }
{
    let row = rows[k];
    rows.iter().all(|other| !dominates(*other, row))
}
