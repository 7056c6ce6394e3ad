//! The least cost over the ways to hold some cells, found while the cells are handed in one by one.

ghost use Rattle.std.specs.Prelude.{◌≡◌, ℕ, ◌+◌, ◌-◌, ◌*◌, ◌<◌, ◌≤◌, length, pos, ◌+ℤ◌, ◌≤ℤ◌, ◌<ℤ◌, unsigned_abs};
ghost use Rattle.gap_base.specs.Sums.{sum_below};
ghost use Rattle.gap_relax.specs.Rows.{AreSmallExtras, IsBar, IsKept, IsSmallExtra, difference_at, slope_at};

use crate::extra::{Extra, bar_of, extra_of, first_bar, keep_extra, no_extras};
use crate::ways::Chosen;

/// The least costs of the cells that were handed in so far, for each number of free ones held up to 32: a cost that every
/// way has, and the least of what the free cells cost more where they are held, in order. It takes some 1100 bytes, and
/// no memory beyond itself.
#[derive(Drop)]
pub struct LeastRow {
    pub(crate) fewest: usize,
    pub(crate) most: usize,
    pub seen: u16,
    pub(crate) value: i128,
    pub(crate) slope: i128,
    pub(crate) count: usize,
    pub(crate) extras: [Extra; 32],
    bar: i128,
    pub ghost order: { fewest ≤ most },
    pub ghost most_few: { most ≤ 32 },
    pub ghost seen_few: { seen ≤ 256 },
    pub ghost value_small: { unsigned_abs value ≤ seen * 30000000000000000000000000000000000 },
    pub ghost slope_small: { unsigned_abs slope ≤ seen * 20000 },
    pub ghost count_few: { count ≤ most },
    pub ghost extras_small: { AreSmallExtras count extras },
    pub ghost barred: { IsBar count most extras bar },
}

impl LeastRow {
    ghost use Rattle.std.specs.Prelude.{IsTrue};
    ghost use Rattle.gap_box.specs.declared.cell.Cell.TheVariants.{Out};
    ghost use Rattle.gap_box.specs.Cells.{is_held, is_free};
    ghost use Rattle.gap_box.specs.Parts.{can_meet, helds};
    ghost use Rattle.gap_relax.specs.Choices.{cell_at, IsLeastWay};
    ghost use Rattle.gap_relax.specs.Rows.{Ways};
    ghost use Rattle.gap_relax.specs.SoFar.{HasSeen};

    /// A row that has seen no cell: from `fewest` to `most` of the free ones are to be held, 32 at most.
    pub fn new(fewest: u16, most: u16) -> LeastRow
        requires order { fewest ≤ most }
        requires few { most ≤ 32 }
        ensures seen { result.seen ≡ 0 }
        ensures least { (w : Ways) → fewest ≡ w.fewest - helds w.cells → most ≡ w.most - helds w.cells → HasSeen w result }
    {
        LeastRow {
            fewest: usize::from(fewest),
            most: usize::from(most),
            seen: 0,
            value: 0,
            slope: 0,
            count: 0,
            extras: no_extras(),
            bar: first_bar(most),
        }
    }

    /// Takes the next cell, which must be held: its cost and its slope where it is, at most 3 * 10^34 and 20000 in size.
    pub fn hold(&mut self, cost: i128, slope: i32)
        requires room { self.old.seen < 256 }
        requires cost { unsigned_abs cost ≤ 30000000000000000000000000000000000 }
        requires slope { unsigned_abs slope ≤ 20000 }
        ensures seen { self.new.seen ≡ self.old.seen + 1 }
        ensures least { (w : Ways) → HasSeen w self.old → IsTrue (is_held (cell_at w.cells self.old.seen))
            → w.held_cost self.old.seen ≡ cost → w.held_slope self.old.seen ≡ slope → HasSeen w self.new }
    {
        self.add(cost, slope);
    }

    /// Takes the next cell, which is out: its cost and its slope where it isn't held.
    pub fn leave(&mut self, cost: i128, slope: i32)
        requires room { self.old.seen < 256 }
        requires cost { unsigned_abs cost ≤ 30000000000000000000000000000000000 }
        requires slope { unsigned_abs slope ≤ 20000 }
        ensures seen { self.new.seen ≡ self.old.seen + 1 }
        ensures least { (w : Ways) → HasSeen w self.old → cell_at w.cells self.old.seen ≡ Out
            → w.out_cost self.old.seen ≡ cost → w.out_slope self.old.seen ≡ slope → HasSeen w self.new }
    {
        self.add(cost, slope);
    }

    /// Takes the next cell, which is free: its costs and its slopes where it is held and where it isn't. Mostly it costs
    /// one comparison, at most one with each of the row.
    pub fn offer(&mut self, held_cost: i128, held_slope: i32, out_cost: i128, out_slope: i32)
        requires room { self.old.seen < 256 }
        requires held_cost { unsigned_abs held_cost ≤ 30000000000000000000000000000000000 }
        requires held_slope { unsigned_abs held_slope ≤ 20000 }
        requires out_cost { unsigned_abs out_cost ≤ 30000000000000000000000000000000000 }
        requires out_slope { unsigned_abs out_slope ≤ 20000 }
        ensures seen { self.new.seen ≡ self.old.seen + 1 }
        ensures least { (w : Ways) → HasSeen w self.old → IsTrue (is_free (cell_at w.cells self.old.seen))
            → w.held_cost self.old.seen ≡ held_cost → w.held_slope self.old.seen ≡ held_slope
            → w.out_cost self.old.seen ≡ out_cost → w.out_slope self.old.seen ≡ out_slope → HasSeen w self.new }
    {
        self.add(out_cost, out_slope);
        let extra = extra_of(held_cost, held_slope, out_cost, out_slope);
        if extra.difference < self.bar {
            self.keep(extra);
        }
    }

    /// Keeps an extra among those of the row, of which the last one is dropped where no more are to be kept.
    fn keep(&mut self, extra: Extra)
        requires { IsSmallExtra extra }
        ensures seen { self.new.seen ≡ self.old.seen }
        ensures value { self.new.value ≡ self.old.value }
        ensures slope { self.new.slope ≡ self.old.slope }
        ensures fewest { self.new.fewest ≡ self.old.fewest }
        ensures most { self.new.most ≡ self.old.most }
        ensures kept { IsKept self.old.extras self.new.extras self.old.count self.new.count self.old.most extra }
    {
        self.count = keep_extra(&mut self.extras, self.count, self.most, extra);
        self.bar = bar_of(&self.extras, self.count, self.most);
    }

    /// The least cost over the ways to hold the cells that were handed in, with the slope of one that has it. It costs
    /// one pass over the row.
    pub fn chosen(&self) -> Chosen
        ensures least { (w : Ways) → HasSeen w self.now → self.now.seen ≡ length w.cells
            → IsTrue (can_meet w.cells w.fewest w.most)
            → IsLeastWay w.cells w.held_cost w.out_cost w.held_slope w.out_slope w.fewest w.most result.value
            result.slope }
    {
        self.sum_of(self.taken())
    }

    /// Adds the cost and the slope of a cell that every way has.
    fn add(&mut self, cost: i128, slope: i32)
        requires room { self.old.seen < 256 }
        requires cost { unsigned_abs cost ≤ 30000000000000000000000000000000000 }
        requires slope { unsigned_abs slope ≤ 20000 }
        ensures seen { self.new.seen ≡ self.old.seen + 1 }
        ensures value { self.new.value ≡ self.old.value +ℤ cost }
        ensures slope { self.new.slope ≡ self.old.slope +ℤ slope }
        ensures fewest { self.new.fewest ≡ self.old.fewest }
        ensures most { self.new.most ≡ self.old.most }
        ensures count { self.new.count ≡ self.old.count }
        ensures extras { self.new.extras ≡ self.old.extras }
        ensures bar { self.new.bar ≡ self.old.bar }
    {
        self.value += cost;
        self.slope += i128::from(slope);
        self.seen += 1;
    }

    /// How many free cells a least way holds: as few as may be, and further ones that make it cheaper.
    fn taken(&self) -> usize
        ensures few { self.now.fewest ≤ self.now.count → self.now.fewest ≤ result }
        ensures many { result ≤ self.now.count }
        ensures cheaper { (k : ℕ) → self.now.fewest ≤ k → k < result → difference_at self.now.extras k <ℤ pos 0 }
        ensures dearer { result < self.now.count → pos 0 ≤ℤ difference_at self.now.extras result }
    {
        let mut taken = self.fewest.min(self.count);
        while taken < self.count && self.extras[taken].difference < 0 {
            taken += 1;
        }
        taken
    }

    /// The cost and the slope of the ways with the first extras.
    fn sum_of(&self, taken: usize) -> Chosen
        requires { taken ≤ self.now.count }
        ensures value { result.value ≡ self.now.value +ℤ sum_below taken (difference_at self.now.extras) }
        ensures slope { result.slope ≡ self.now.slope +ℤ sum_below taken (slope_at self.now.extras) }
    {
        let mut value = self.value;
        let mut slope = self.slope;
        for k in 0..taken {
            value += self.extras[k].difference;
            slope += i128::from(self.extras[k].slope);
        }
        Chosen { value, slope }
    }
}
