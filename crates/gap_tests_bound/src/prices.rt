//! Least costs of the lists of a part at a multiplier, by hand.

ghost use Rattle.std.specs.Prelude.{◌≤◌, unsigned_abs};

use gap_base::Lots;
use gap_box::Part;
use gap_price::{CostCurve, Costs, Varied};

/// The least cost of two assets at a multiplier of a price.
fn at_two(varied: Varied, fewest: u16, most: u16, multiplier: i128) -> Option<(i128, i128)>
    requires order { fewest ≤ most }
    requires multiplier { unsigned_abs multiplier ≤ 1000 }
{
    let ones = Lots::filled(2, 1);
    let threes = Lots::filled(2, 3);
    let part = Part::root(&ones, &threes);
    let costs = Costs {
        linear: &[5, -3],
        bends: &[1, 0],
        present: &ones,
        lot_price: 0,
        distance_price: 2,
    };
    let chosen = CostCurve::new(costs, varied, &part, fewest, most)?.at(multiplier);
    Some((chosen.value, chosen.slope))
}

// By hand: of 0 to 3 lots the first asset costs 2, 4, 8, 10 and the second 2, -3, -4, -5.
#[test]
fn least_costs_of_two_assets(rt: HostRuntime) {
    assert_eq!(rt; at_two(Varied::Lots, 1, 2, 0), Some((-3, 3)));
    assert_eq!(rt; at_two(Varied::Lots, 2, 2, 0), Some((-1, 4)));
    assert_eq!(rt; at_two(Varied::Lots, 0, 0, 0), Some((4, 0)));
    assert_eq!(rt; at_two(Varied::Lots, 3, 3, 0), None);
    assert_eq!(rt; at_two(Varied::Lots, 1, 2, 2), Some((1, 1)));
    assert_eq!(rt; at_two(Varied::Distance, 1, 2, -2), Some((-9, 3)));
}
