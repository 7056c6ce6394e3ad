//! Whole searches of the small bound, and the least costs of its lists by going over them.

ghost use Rattle.std.specs.Prelude.{◌≡◌, ◌<◌, ◌≤◌, None, length, slice_set, replicate, IfOk};
ghost use Rattle.gap_model.specs.Problems.{IsPart};
ghost use Rattle.gap_search.specs.Boards.{FitsPart, tickets};

use gap_base::OutOfMemory;
use gap_box::{Part, Side};
use gap_model::{Entry, Leaf, NodeBound, Outcome, Shown};
use gap_search::{Guide, Search, drive};
use gap_trials::{Listing, Small, all_points, leaf_for};
use std::alloc::Global;
use std::test::Fail;

/// How a search ends: with a best list, without a list, or by a number that no list is below.
#[derive(Debug, PartialEq, Drop, Clone, Copy)]
enum Told {
    Closed(i128),
    NoList,
    Bounded(i128),
}

/// The lesser of a number and one that may be there.
fn lesser(cost: i128, least: Option<i128>) -> i128 {
    match least {
        Some(other) => other.min(cost),
        None => cost,
    }
}

/// The least of the costs, and how many lists there are, by going over all lists of up to three lots an asset.
fn listed(seed: i128, lots: u32) -> (Option<i128>, u32) {
    let mut least = None;
    let mut count: u32 = 0;
    for place in 0..64u32 {
        let (a, b, c) = (place % 4, place / 4 % 4, place / 16);
        let held = u32::from(a > 0) + u32::from(b > 0) + u32::from(c > 0);
        if (held == 1 || held == 2) && a + b + c == lots {
            let next = i128::from(place) + 1;
            let cost = seed.wrapping_mul(next).wrapping_mul(next).rem_euclid(97) - 48;
            count = count.wrapping_add(1);
            least = Some(lesser(cost, least));
        }
    }
    (least, count)
}

/// What a search should tell.
fn due(seed: i128, lots: u32) -> Told {
    match listed(seed, lots).0 {
        Some(least) => Told::Closed(least),
        None => Told::NoList,
    }
}

/// A search of the small bound, from a leaf that is tight on its root.
fn opened<'a>(
    alloc: Global,
    small: Small,
    points: &'a [Entry],
    budget: u32,
    workers: u8,
) -> Result<Search<'a, Small>, OutOfMemory>
    requires budget { budget ≤ 100000 }
    requires least { 1 ≤ workers }
    requires most { workers ≤ 16 }
    ensures bound { IfOk result (λ s. s.bound ≡ small) }
    ensures workers { IfOk result (λ s. s.workers ≡ workers) }
    ensures budget { IfOk result (λ s. s.board.budget ≡ budget) }
    ensures held { IfOk result (λ s. s.board.held ≡ replicate 16 None) }
{
    let root = small.root();
    // each cell of the root is in range
    let _count = root.len();
    match leaf_for(&small, &root, points, Shown::Nothing) {
        Some(placed) => Search::new(alloc, small, budget, workers, placed.leaf, None),
        None => Err(OutOfMemory),
    }
}

/// How a search ends, none of whose leaves is held. A best list costs what is said of it.
fn ending(search: &Search<'_, Small>) -> Told
    requires { tickets search.now.board.held ≡ 0 }
{
    match search.end() {
        Outcome::Closed(best) => Told::Closed(best.value),
        Outcome::NoPortfolio => Told::NoList,
        Outcome::Bounded { bound, .. } => Told::Bounded(bound),
    }
}

/// A whole search in rounds: how it ends, and how many splits it made.
fn driven(
    alloc: Global,
    small: Small,
    guide: &mut Listing<'_>,
    budget: u32,
    workers: u8,
) -> Result<(Told, u32), OutOfMemory>
    requires budget { budget ≤ 100000 }
    requires least { 1 ≤ workers }
    requires most { workers ≤ 16 }
{
    let mut search = opened(alloc, small, guide.points, budget, workers)?;
    drive(&mut search, guide)?;
    Ok((ending(&search), search.inner()))
}

/// Offers the guide's candidate for a part that was made, where it has one.
fn offer_candidate<'a, B: NodeBound, G: Guide<'a, B>>(
    search: &mut Search<'a, B>,
    guide: &mut G,
    part: &Part,
    leaf: &Leaf<'a>,
)
    requires part { IsPart (B.problem search.old.bound) part.now }
    requires fits { FitsPart (B.problem search.old.bound) part.now leaf.now }
    ensures bound { search.new.bound ≡ search.old.bound }
    ensures workers { search.new.workers ≡ search.old.workers }
{
    if let Some(x) = guide.candidate(search.bound(), part, leaf) {
        let _taken = search.offer(&x);
    }
}

/// A worker settles what it holds as the guide says, and the candidates of the two children are offered; false where the
/// guide has no memory, and then the leaf is given back.
fn settle_one<'a, B: NodeBound, G: Guide<'a, B>>(
    search: &mut Search<'a, B>,
    guide: &mut G,
    worker: u8,
) -> bool
    requires { worker < 16 }
    ensures workers { search.new.workers ≡ search.old.workers }
{
    // the board is sound
    let _inner = search.inner();
    let Some(ticket) = search.ticket(worker) else {
        return true;
    };
    let leaf = search.leaf(&ticket);
    match guide.branch(search.bound(), &ticket, &leaf) {
        Ok(branch) => {
            let one = ticket.part().child(branch.split, Side::First);
            let two = ticket.part().child(branch.split, Side::Second);
            search.settle(ticket, branch.split, branch.first, branch.second);
            offer_candidate(search, guide, &one, &branch.first.leaf);
            offer_candidate(search, guide, &two, &branch.second.leaf);
            true
        }
        Err(_) => {
            search.give_back(ticket);
            false
        }
    }
}

/// All sixteen workers claim in falling order, and settle in falling order what they hold: how many leaves there were.
fn falling_round<'a>(search: &mut Search<'a, Small>, guide: &mut Listing<'a>) -> u32
    requires { search.old.workers ≡ 16 }
    ensures { search.new.workers ≡ 16 }
{
    let mut held: u32 = 0;
    for behind in 0..16 {
        if search.take(15 - behind).is_some() {
            held = held.wrapping_add(1);
        }
    }
    for behind in 0..16 {
        let _done = settle_one(search, guide, 15 - behind);
    }
    held
}

/// A worker gives back what it holds.
fn give_one(search: &mut Search<'_, Small>, worker: u8)
    requires worker { worker < 16 }
    requires places { length search.old.board.held ≡ 16 }
    ensures { search.new.board.held ≡ slice_set search.old.board.held worker None }
{
    if let Some(ticket) = search.ticket(worker) {
        search.give_back(ticket);
    }
}

/// All that hold a leaf give it back.
fn give_all_back(search: &mut Search<'_, Small>)
    ensures { tickets search.new.board.held ≡ 0 }
{
    // there are 16 places
    let _workers = search.workers();
    for worker in 0..16 {
        give_one(search, worker);
    }
}

/// A whole search by hand, by sixteen workers in falling order: how it ends, how many splits it made, and whether some
/// round had more than one leaf.
fn falling(
    alloc: Global,
    small: Small,
    guide: &mut Listing<'_>,
) -> Result<(Told, u32, bool), OutOfMemory> {
    let mut search = opened(alloc, small, guide.points, 100, 16)?;
    let mut many = false;
    for round in 0..64u8 {
        let _at = round;
        many = falling_round(&mut search, guide) > 1 || many;
    }
    give_all_back(&mut search);
    Ok((ending(&search), search.inner(), many))
}

/// A search whose guide stops after some splits, and that goes on from its tree with other workers: how many splits were
/// made before, how it ends, and how many splits it has then.
fn resumed(
    alloc: Global,
    small: Small,
    guide: &mut Listing<'_>,
    workers: u8,
) -> Result<(u32, Told, u32), OutOfMemory>
    requires least { 1 ≤ workers }
    requires most { workers ≤ 16 }
{
    let mut search = opened(alloc, small, guide.points, 100, 2)?;
    guide.branches = 1;
    let _stopped = drive(&mut search, guide).is_ok();
    let before = search.inner();
    let tree = search.into_tree();
    let mut next = Search::from_tree(alloc, small, tree, 100, workers, None)?;
    guide.branches = 1000;
    drive(&mut next, guide)?;
    Ok((before, ending(&next), next.inner()))
}

/// A guide over all points.
fn guide_of<'a>(points: &'a [Entry], tries: bool) -> Listing<'a> {
    Listing {
        points,
        tries,
        branches: 1000,
        asked: 0,
    }
}

#[test]
fn least_costs_of_a_few_seeds(rt: HostRuntime) {
    // worked out apart from these crates
    for (seed, lots, least, count) in [
        (5, 4, Some(-38), 9),
        (5, 3, Some(-33), 9),
        (7, 7, None, 0),
        (0, 4, Some(-48), 9),
    ] {
        assert_eq!(rt;
            listed(seed, lots),
            (least, count),
            "seed {seed}, lots {lots}"
        );
    }
}

#[test]
fn any_number_of_workers_finds_the_least(rt: HostRuntime) -> Result<(), Fail> {
    let alloc = rt.alloc();
    let points = all_points(alloc)?;
    let mut most = 0;
    for seed in 1..4u16 {
        for lots in [3, 4, 7] {
            let small = Small { seed, lots };
            let due = due(i128::from(seed), u32::from(lots));
            for workers in [1, 2, 16] {
                let mut guide = guide_of(points.as_slice(), workers == 2);
                let (told, splits) = driven(alloc, small, &mut guide, 100, workers)?;
                assert_eq!(rt; told, due, "seed {seed}, lots {lots}, {workers} workers");
                most = splits.max(most);
            }
        }
    }
    assert!(rt; most > 8, "at most {most} splits");
    Ok(())
}

#[test]
fn leaves_settled_in_falling_order_find_the_least(rt: HostRuntime) -> Result<(), Fail> {
    let alloc = rt.alloc();
    let points = all_points(alloc)?;
    let mut some_many = false;
    for seed in 1..4u16 {
        for lots in [4, 5, 7] {
            let small = Small { seed, lots };
            let mut guide = guide_of(points.as_slice(), lots == 4);
            let (told, _splits, many) = falling(alloc, small, &mut guide)?;
            let due = due(i128::from(seed), u32::from(lots));
            assert_eq!(rt; told, due, "seed {seed}, lots {lots}");
            some_many = many || some_many;
        }
    }
    assert!(rt; some_many, "no round had two leaves");
    Ok(())
}

#[test]
fn a_tree_goes_on_to_the_least(rt: HostRuntime) -> Result<(), Fail> {
    let alloc = rt.alloc();
    let points = all_points(alloc)?;
    for seed in 1..4u16 {
        for lots in [4, 5, 7] {
            let small = Small { seed, lots };
            let mut guide = guide_of(points.as_slice(), lots == 5);
            let (before, told, _splits) = resumed(alloc, small, &mut guide, seed as u8)?;
            let due = due(i128::from(seed), u32::from(lots));
            assert_eq!(rt;
                (before <= 1, told),
                (true, due),
                "seed {seed}, lots {lots}"
            );
        }
    }
    Ok(())
}

#[test]
fn the_tree_of_no_list_is_the_same(rt: HostRuntime) -> Result<(), Fail> {
    let alloc = rt.alloc();
    let points = all_points(alloc)?;
    let small = Small { seed: 2, lots: 7 };
    let mut guide = guide_of(points.as_slice(), false);
    let whole = driven(alloc, small, &mut guide, 100, 1)?;
    assert_eq!(rt; whole.0, Told::NoList);
    assert_eq!(rt; u64::from(guide.asked), 2 * u64::from(whole.1));
    for workers in [2, 16] {
        let told = driven(alloc, small, &mut guide, 100, workers)?;
        assert_eq!(rt; told, whole, "{workers} workers");
    }
    let (told, splits, _many) = falling(alloc, small, &mut guide)?;
    assert_eq!(rt; (told, splits), whole);
    let resumed = resumed(alloc, small, &mut guide, 4)?;
    assert_eq!(rt; resumed, (1, whole.0, whole.1));
    Ok(())
}

#[test]
fn a_small_budget_leaves_a_bound(rt: HostRuntime) -> Result<(), Fail> {
    let alloc = rt.alloc();
    let points = all_points(alloc)?;
    let mut bounded: u32 = 0;
    for seed in 1..9u16 {
        let small = Small { seed, lots: 4 };
        let mut guide = guide_of(points.as_slice(), false);
        let (told, splits) = driven(alloc, small, &mut guide, 2, 3)?;
        assert!(rt; splits <= 2, "seed {seed}: {splits} splits");
        if let (Told::Bounded(bound), Some(least)) = (told, listed(i128::from(seed), 4).0) {
            assert!(rt; bound <= least, "seed {seed}: {bound} above {least}");
            bounded = bounded.wrapping_add(1);
        }
    }
    assert!(rt; bounded > 0, "each search ended");
    let mut guide = guide_of(points.as_slice(), false);
    let (told, splits) = driven(alloc, Small { seed: 2, lots: 7 }, &mut guide, 5, 2)?;
    assert_eq!(rt; (splits, guide.asked), (5, 10));
    assert!(rt; matches!(told, Told::Bounded(_)), "some leaves wait");
    Ok(())
}

#[test]
fn a_guide_without_memory_gives_its_leaf_back(rt: HostRuntime) -> Result<(), Fail> {
    let alloc = rt.alloc();
    let points = all_points(alloc)?;
    let small = Small { seed: 2, lots: 4 };
    let mut guide = guide_of(points.as_slice(), false);
    let mut search = opened(alloc, small, guide.points, 100, 4)?;
    guide.branches = 3;
    assert_eq!(rt; drive(&mut search, &mut guide), Err(OutOfMemory));
    assert_eq!(rt; (search.inner(), guide.asked), (3, 6));
    assert!(rt;
        matches!(ending(&search), Told::Bounded(_)),
        "the leaf waits again"
    );
    Ok(())
}
