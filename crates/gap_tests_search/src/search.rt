//! A search over a bound of the tests' own.

ghost use Rattle.std.specs.Prelude.{◌≡◌, None, replicate};

use crate::barren::{Barren, opened};
use gap_base::Lots;
use gap_box::{NodeId, Split};
use gap_model::{Entry, Leaf, Outcome, Placed, Shown};
use gap_search::Search;
use std::test::Fail;

/// The leaf that the first worker claims and gives back.
fn claimed(search: &mut Search<'_, Barren>) -> Option<NodeId>
    requires workers { search.old.workers ≡ 2 }
    requires held { search.old.board.held ≡ replicate 16 None }
    ensures workers { search.new.workers ≡ 2 }
    ensures held { search.new.board.held ≡ replicate 16 None }
{
    match search.claim(0) {
        Some(ticket) => {
            let node = ticket.node();
            search.give_back(ticket);
            Some(node)
        }
        None => None,
    }
}

/// The leaf that the first worker claims and splits, or gives back where it can't.
fn settled(search: &mut Search<'_, Barren>) -> Option<NodeId>
    requires workers { search.old.workers ≡ 2 }
    requires held { search.old.board.held ≡ replicate 16 None }
    ensures workers { search.new.workers ≡ 2 }
    ensures held { search.new.board.held ≡ replicate 16 None }
{
    match search.claim(0) {
        Some(ticket) => {
            let node = ticket.node();
            let split = Split::Held(0);
            if ticket.part().lawful(split) {
                let barren = Placed {
                    leaf: Leaf::Count,
                    shown: Shown::Empty,
                };
                search.settle(ticket, split, barren, barren);
            } else {
                search.give_back(ticket);
            }
            Some(node)
        }
        None => None,
    }
}

/// Does the search say that there is no list?
fn has_no_list(search: &Search<'_, Barren>) -> bool
    requires { search.now.board.held ≡ replicate 16 None }
{
    matches!(search.end(), Outcome::NoPortfolio)
}

#[test]
fn a_search_without_a_list(rt: HostRuntime) -> Result<(), Fail> {
    let entries = [Entry {
        asset: 0,
        eighths: 8,
    }];
    let mut search = opened(rt.alloc(), &entries)?;
    assert_eq!(rt; (search.inner(), search.tree().room()), (0, 11));
    assert!(rt; !has_no_list(&search), "the root shows 0");
    assert!(rt;
        !search.offer(&Lots::filled(3, 1)),
        "no list meets the limits"
    );
    assert_eq!(rt; claimed(&mut search), Some(NodeId(0)));
    assert_eq!(rt; settled(&mut search), Some(NodeId(0)));
    assert_eq!(rt; (search.inner(), search.tree().nodes()), (1, 3));
    assert_eq!(rt; claimed(&mut search), None);
    assert!(rt; has_no_list(&search));
    Ok(())
}
