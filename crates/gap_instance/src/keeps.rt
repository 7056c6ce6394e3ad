//! Whether a list of lots meets the limits of an instance.

ghost use Rattle.std.specs.Prelude.{◌≡◌, ◌≢◌, ℕ, ◌+◌, ◌*◌, ◌<◌, ◌≤◌, ◌↔◌, ℤ, pos, ◌≤ℤ◌, ◌<ℤ◌, length, IsTrue, IsNone, IfNone, IfSome, slice_index_or};
ghost use Rattle.gap_instance.specs.Instances.{IsInstance};
ghost use Rattle.gap_instance.specs.Limits.{sum_of, held_of, turnover_of, MeetsLimits, HoldsOutside, IsFirstBroken, IsBelowLeast, IsAboveGreatest, IsFirstWhere, IsOfNone, TurnsTooMuch};

use crate::instance::Instance;
use gap_base::Lots;

/// The first limit that a list of lots breaks, in the order of these variants, with the place of the first such asset.
#[derive(Clone, Copy, PartialEq, Eq, Debug)]
pub enum Broken {
    /// The list has another length than the number of assets.
    Length,
    /// Its sum is not the number of lots.
    Lots,
    /// Fewer of its numbers are positive than assets are to be held at least, or more than at most.
    Held,
    /// This asset is held with fewer lots than its least.
    Least(u16),
    /// This asset is held with more lots than its greatest.
    Greatest(u16),
    /// The turnover is above the limit that is set.
    Turnover,
}

impl Instance {
    /// Does the list meet the limits? None where it does, else the first limit that it breaks. Costs O(N) and takes no
    /// memory.
    #[tactic(auto, using(crate::proofs::LimitLaws::broken_not_kept))]
    pub fn keeps(&self, x: &Lots) -> Option<Broken>
        ensures kept { IsNone result ↔ MeetsLimits self.now x.now }
        ensures broken { IfSome result (IsFirstBroken self.now x.now) }
    {
        if x.len() != self.n() {
            return Some(Broken::Length);
        }
        if total_of(x) != u32::from(self.lots()) {
            return Some(Broken::Lots);
        }
        if self.holds_outside(x) {
            return Some(Broken::Held);
        }
        if let Some(i) = self.first_below(x) {
            return Some(Broken::Least(i));
        }
        if let Some(i) = self.first_above(x) {
            return Some(Broken::Greatest(i));
        }
        if self.turns_too_much(x) {
            return Some(Broken::Turnover);
        }
        None
    }

    /// Is the number of held assets outside the range that is to be held?
    fn holds_outside(&self, x: &Lots) -> bool
        requires { length x.now ≡ self.now.market.assets }
        ensures { IsTrue result ↔ HoldsOutside self.now x.now }
    {
        let count = count_held(x);
        count < self.held() || self.held_most() < count
    }

    /// The first asset that is held with fewer lots than its least.
    fn first_below(&self, x: &Lots) -> Option<u16>
        requires { length x.now ≡ self.now.market.assets }
        ensures some { IfSome result (IsFirstWhere (IsBelowLeast self.now x.now) self.now.market.assets) }
        ensures none { IfNone result (IsOfNone (IsBelowLeast self.now x.now) self.now.market.assets) }
    {
        for i in 0..self.n() {
            let lots = x.get(i);
            if 0 < lots && lots < self.lo(i) {
                return Some(i);
            }
        }
        None
    }

    /// The first asset that is held with more lots than its greatest.
    fn first_above(&self, x: &Lots) -> Option<u16>
        requires { length x.now ≡ self.now.market.assets }
        ensures some { IfSome result (IsFirstWhere (IsAboveGreatest self.now x.now) self.now.market.assets) }
        ensures none { IfNone result (IsOfNone (IsAboveGreatest self.now x.now) self.now.market.assets) }
    {
        for asset in 0..self.n() {
            if self.hi(asset) < x.get(asset) {
                return Some(asset);
            }
        }
        None
    }

    /// The sum of the ways from the present lots to the list. Costs O(N).
    #[tactic(auto, using(gap_base::proofs::SumLaws::sum_steps))]
    pub fn turnover_to(&self, x: &Lots) -> u32
        requires { length x.now ≡ self.now.market.assets }
        ensures value { pos result ≡ turnover_of self.now.market.assets self.now.present x.now }
        ensures small { result ≤ 16776960 }
    {
        let mut total: u32 = 0;
        for place in 0..self.n() {
            total += u32::from(x.get(place).abs_diff(self.present(place)));
        }
        total
    }

    /// Is a turnover limit set, and the turnover to the list above it?
    fn turns_too_much(&self, x: &Lots) -> bool
        requires { length x.now ≡ self.now.market.assets }
        ensures { IsTrue result ↔ TurnsTooMuch self.now x.now }
    {
        match self.turnover() {
            Some(most) => most < self.turnover_to(x),
            None => false,
        }
    }
}

/// The sum of a list. Costs O(N).
#[tactic(auto, using(gap_base::proofs::SumLaws::sum_steps))]
pub fn total_of(x: &Lots) -> u32
    ensures value { pos result ≡ sum_of (length x.now) x.now }
    ensures small { result ≤ 16776960 }
{
    let mut total: u32 = 0;
    for i in 0..x.len() {
        total += u32::from(x.get(i));
    }
    total
}

/// How many numbers of a list are positive.
#[tactic(auto, using(gap_base::proofs::Counts::count_steps))]
fn count_held(x: &Lots) -> u16
    ensures { result ≡ held_of (length x.now) x.now }
{
    let mut count: u16 = 0;
    for i in 0..x.len() {
        if 0 < x.get(i) {
            count += 1;
        }
    }
    count
}
