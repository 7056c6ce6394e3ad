//! Lists that are met again.

use crate::seen::was_seen;
use gap_base::Lots;
use std::collections::HashSet;
use std::test::Fail;

#[test]
fn a_list_is_known_the_second_time(rt: HostRuntime) -> Result<(), Fail> {
    let mut seen = HashSet::new(rt.alloc());
    let list = Lots::filled(3, 5);
    assert!(rt; !was_seen(&mut seen, rt.alloc(), &list));
    assert!(rt; !was_seen(&mut seen, rt.alloc(), &Lots::filled(3, 6)));
    assert!(rt; !was_seen(&mut seen, rt.alloc(), &Lots::filled(4, 5)));
    assert!(rt; was_seen(&mut seen, rt.alloc(), &list));
    Ok(())
}
