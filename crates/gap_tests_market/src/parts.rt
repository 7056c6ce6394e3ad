//! The worked rows of parts with a held range.

ghost use Rattle.std.specs.Prelude.{◌≡◌, ◌≤◌, length};

use gap_base::Lots;
use gap_box::Part;
use std::test::Fail;

/// Two assets that may each be held with one lot.
fn two_free() -> Part
    ensures { length result ≡ 2 }
{
    let mut ones = Lots::zeros(2);
    ones.set(0, 1);
    ones.set(1, 1);
    Part::root(&ones, &ones)
}

/// The only list of the two assets with these numbers held, if there is just one.
fn single(fewest: u16, most: u16) -> Option<(u16, u16)>
    requires { fewest ≤ most }
{
    let list = two_free().single_within(fewest, most)?;
    if list.len() == 2 {
        Some((list.get(0), list.get(1)))
    } else {
        None
    }
}

/// Does some list of the two assets hold so many?
fn counts(fewest: u16, most: u16) -> bool
    requires { fewest ≤ most }
{
    two_free().count_within(fewest, most)
}

#[test]
fn a_longer_pick_is_a_second_list(rt: HostRuntime) -> Result<(), Fail> {
    assert_eq!(rt; single(2, 2), Some((1, 1)));
    assert_eq!(rt; single(1, 2), None);
    assert_eq!(rt; single(1, 1), None);
    assert_eq!(rt; single(0, 0), Some((0, 0)));
    assert!(rt; counts(2, 5));
    assert!(rt; !counts(3, 5));
    Ok(())
}
