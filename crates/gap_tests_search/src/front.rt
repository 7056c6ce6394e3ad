//! Which rows of a frontier are efficient.

ghost use Rattle.std.specs.Prelude.{◌≡◌};

use gap_base::Weight;
use gap_model::{FrontRow, efficient};

// A row of the weight 1/1.
fn row(risk: i128, ret: i128) -> FrontRow
    ensures { result.risk ≡ risk }
{
    FrontRow {
        weight: Weight { p: 1, q: 1 },
        risk,
        ret,
    }
}

#[test]
fn equal_rows_dominate_neither(rt: HostRuntime) {
    let rows = [row(4, 7), row(4, 7), row(5, 7), row(4, 6), row(9, 9)];
    assert!(rt; efficient(&rows, 0));
    assert!(rt; efficient(&rows, 1));
    assert!(rt; !efficient(&rows, 2));
    assert!(rt; !efficient(&rows, 3));
    assert!(rt; efficient(&rows, 4));
}
