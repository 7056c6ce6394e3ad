//! Highest places of roofs.

use crate::roofs::Roof;
use gap_lines::best_place;
use std::test::Fail;

#[test]
fn the_highest_place_of_a_roof(rt: HostRuntime) -> Result<(), Fail> {
    for (from, to, place, value) in [
        // one highest place, on either side of 0 and at an end of the range
        (7, 7, 7, 0),
        (-7, -7, -7, 0),
        (20, 20, 20, 0),
        (-20, -20, -20, 0),
        // a flat top: its place nearest to 0
        (3, 9, 3, 0),
        (-9, -3, -3, 0),
        (-5, 11, 0, 0),
        (-100, 100, 0, 0),
        (0, 100, 0, 0),
        (-100, 15, 0, 0),
        (15, 100, 15, 0),
        // it rises, or falls, in the whole range
        (50, 60, 20, -30),
        (-60, -50, -20, -30),
        // two highest places beside where a rising and a falling line meet
        (6, 5, 5, -1),
        (-5, -6, -5, -1),
    ] {
        let roof = Roof { from, to };
        let below = best_place(&roof, -20, 20, -20, 1);
        assert_eq!(rt;
            (below.place, below.value),
            (place, value),
            "{from} to {to}, from below"
        );
        let middle = best_place(&roof, -20, 20, 3, 0);
        assert_eq!(rt;
            (middle.place, middle.value),
            (place, value),
            "{from} to {to}, from 3"
        );
        let above = best_place(&roof, -20, 20, 20, 1000);
        assert_eq!(rt;
            (above.place, above.value),
            (place, value),
            "{from} to {to}, from above"
        );
    }
    Ok(())
}

#[test]
fn the_highest_place_of_a_range_beside_0(rt: HostRuntime) -> Result<(), Fail> {
    let wide = Roof {
        from: -1000,
        to: 1000,
    };
    for place in 0..=20u8 {
        let near = i128::from(place);
        let above = best_place(&wide, near, 20, 20, 1);
        assert_eq!(rt; (above.place, above.value, above.slope), (near, 0, 0));
        let below = best_place(&wide, -20, -near, -20, 1);
        assert_eq!(rt; (below.place, below.value, below.slope), (-near, 0, 0));
    }
    Ok(())
}
