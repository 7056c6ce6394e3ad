//! What the tokens of a port file say, one after another.

ghost use Rattle.std.specs.Prelude.{◌≡◌, ◌≢◌, ℕ, ◌+◌, ◌*◌, ◌^◌, ◌<◌, ◌≤◌, ◌==◌, length, false, Option, IfOk, IfErr, IfSome, IsNone, true, replicate, slice_index_or, if◌then◌else◌};
ghost use Rattle.std.specs.Int.RustNames.{unsigned_abs};
ghost use Rattle.gap_base.specs.Numerals.{numeral_of};
ghost use Rattle.gap_base.specs.Markets.{MarketValue, IsMarket, rho_of, fresh_market};
ghost use Rattle.gap_orlib.specs.Sheets.{Sheet, slot, counted, count_told, is_unit_size, mean_told, deviation_told, behind_deviation, first_told, second_told, is_conflict, pair_told, diagonal_told, correlation_told, value_told, item_told, whole_in};
ghost use Rattle.gap_orlib.specs.Ports.{is_missing, missing, closed_at};
ghost use Rattle.gap_orlib.specs.Views.{AreAssets};
ghost use Rattle.gap_orlib.specs.Answers.{Judges, Begins, Closes, Reads};
ghost use Rattle.gap_orlib.specs.declared.wanted.Wanted.TheVariants.{Mean};

use crate::fault::{PortFault, PortKind, PortStop};
use crate::wanted::Wanted;
use crate::whole::whole_in;
use gap_base::{Market, Rounded, read_numeral};
use std::alloc::Global;
use std::marker::Model;

/// The market as far as it is known, which pairs stood, and what the next token is to be. Takes
/// O(N * N) memory.
#[derive(Drop)]
pub struct Table {
    market: Market,
    seen: Vec<bool>,
    next: Wanted,
}

impl Model for Table {
    ghost use Rattle.gap_orlib.specs.Sheets.{Sheet};
    ghost use Rattle.gap_orlib.specs.Views.{IsSheet};

    ghost Value = { Sheet };

    ghost view = { λ a. record { market = a.market; seen = a.seen.items; next = a.next } };

    ghost invariant = { λ a. IsSheet (record { market = a.market; seen = a.seen.items; next = a.next }) };
}

/// The value of a numeral, or the fault Numeral.
fn numeral(text: &[u8]) -> Result<Rounded, PortKind>
    ensures { Reads result (numeral_of text.now) }
{
    match read_numeral(text) {
        Ok(r) => Ok(r),
        Err(_) => Err(PortKind::Numeral),
    }
}

/// A value of at most 1 in size, in millionths, or the fault Range.
fn unit(value: i128) -> Option<i32>
    ensures some { IfSome result (λ v. (v ≡ value) × (is_unit_size value ≡ true)) }
    ensures none { IsNone result → is_unit_size value ≡ false }
    ensures size { IfSome result (λ v. unsigned_abs v ≤ 1000000) }
{
    if value.unsigned_abs() <= 1_000_000 {
        Some(value as i32)
    } else {
        None
    }
}

/// Counts a numeral that was rounded.
fn count(market: &mut Market, exact: bool)
    requires { market.old.rounded + 1 < 2 ^ 32 }
    ensures { market.new ≡ counted exact market.old }
{
    if !exact {
        market.add_rounded();
    }
}

/// What is to come behind the deviation of asset `k` of `n`.
fn behind_deviation(n: u16, k: u16) -> Wanted
    requires { k < n }
    ensures value { result ≡ behind_deviation n k }
    ensures wanted { AreAssets n result }
{
    if k + 1 < n {
        Wanted::Mean(k + 1)
    } else {
        Wanted::First
    }
}

/// The place of a pair among all pairs, row by row, whichever way round it is named.
fn slot(n: u16, i: u16, j: u16) -> usize
    requires first { i < n }
    requires second { j < n }
    ensures value { result ≡ slot n i j }
    ensures within { result < n * n }
{
    usize::from(i.min(j)) * usize::from(n) + usize::from(i.max(j))
}

/// Whether the pair at this place of `n` rows never stood.
fn is_missing(n: u32, seen: &[bool], at: u32) -> bool
    requires some { 0 < n }
    requires within { at < length seen.now }
    ensures { result ≡ is_missing n seen.now at }
{
    at / n < at % n && !seen[at as usize]
}

/// The first pair that never stood, as its place row by row.
#[tactic(auto, unfolding(crate::specs::Ports::missing))]
fn missing(n: u16, seen: &[bool]) -> Option<u32>
    requires few { 2 ≤ n }
    requires many { n ≤ 256 }
    requires marks { length seen.now ≡ n * n }
    ensures value { result ≡ missing n seen.now }
    ensures within { IfSome result (λ at. at < n * n) }
{
    let count = u32::from(n);
    for at in 0..count * count {
        if is_missing(count, seen, at) {
            return Some(at);
        }
    }
    None
}

impl Table {
    /// The table behind the first token, which stands at `place`.
    #[tactic(auto, unfolding(crate::specs::Sheets::count_told))]
    pub fn begin(alloc: Global, place: u64, text: &[u8]) -> Result<Table, PortStop>
        ensures told { Begins result place (count_told text.now) }
        ensures none { IfOk result (λ s. s.market.rounded ≡ 0) }
    {
        match whole_in(text, 2, 256) {
            Some(n) => Table::fresh(alloc, n),
            None => Err(PortStop::Fault(PortFault {
                place,
                kind: PortKind::Count,
            })),
        }
    }

    /// The table of `n` assets of which nothing is known.
    fn fresh(alloc: Global, n: u16) -> Result<Table, PortStop>
        requires few { 2 ≤ n }
        requires many { n ≤ 256 }
        ensures told { IfOk result
            (λ s. s ≡ record { market = fresh_market n; seen = replicate (n * n) false; next = Mean 0 }) }
        ensures memory { IfErr result (λ e. e ≡ PortStop.OutOfMemory) }
    {
        let Ok(market) = Market::new(alloc, n) else {
            return Err(PortStop::OutOfMemory);
        };
        let count = usize::from(n);
        let Ok(seen) = vec![in alloc; false; count * count] else {
            return Err(PortStop::OutOfMemory);
        };
        Ok(Table {
            market,
            seen,
            next: Wanted::Mean(0),
        })
    }

    /// Takes the mean of asset `k`.
    #[tactic(auto, unfolding(crate::specs::Sheets::mean_told))]
    fn mean(&mut self, k: u16, r: Rounded) -> Result<(), PortKind>
        requires asset { k < self.old.market.assets }
        requires room { self.old.market.rounded + 1 < 2 ^ 32 }
        ensures told { Judges result self.new (mean_told self.old k r) }
        ensures few { self.new.market.rounded ≤ self.old.market.rounded + 1 }
    {
        let Some(value) = unit(r.value) else {
            return Err(PortKind::Range);
        };
        self.market.set_mean(k, value);
        count(&mut self.market, r.exact);
        self.next = Wanted::Deviation(k);
        Ok(())
    }

    /// Takes the deviation of asset `k`.
    #[tactic(auto, unfolding(crate::specs::Sheets::deviation_told))]
    fn deviation(&mut self, k: u16, r: Rounded) -> Result<(), PortKind>
        requires asset { k < self.old.market.assets }
        requires room { self.old.market.rounded + 1 < 2 ^ 32 }
        ensures told { Judges result self.new (deviation_told self.old k r) }
        ensures few { self.new.market.rounded ≤ self.old.market.rounded + 1 }
    {
        if r.value < 0 {
            return Err(PortKind::Deviation);
        }
        let Some(value) = unit(r.value) else {
            return Err(PortKind::Range);
        };
        self.market.set_dev(k, value.unsigned_abs());
        count(&mut self.market, r.exact);
        self.next = behind_deviation(self.market.n(), k);
        Ok(())
    }

    /// Takes the number of a triple's first asset.
    fn first(&mut self, text: &[u8]) -> Result<(), PortKind>
        ensures told { Judges result self.new (first_told self.old (whole_in 1 self.old.market.assets text.now)) }
        ensures same { self.new.market ≡ self.old.market }
    {
        let Some(i) = whole_in(text, 1, self.market.n()) else {
            return Err(PortKind::Index);
        };
        self.next = Wanted::Second(i - 1);
        Ok(())
    }

    /// Takes the number of a triple's second asset, behind asset `i`.
    fn second(&mut self, i: u16, text: &[u8]) -> Result<(), PortKind>
        requires { i < self.old.market.assets }
        ensures told { Judges result self.new (second_told self.old i (whole_in 1 self.old.market.assets text.now)) }
        ensures same { self.new.market ≡ self.old.market }
    {
        let Some(j) = whole_in(text, 1, self.market.n()) else {
            return Err(PortKind::Index);
        };
        self.next = Wanted::Correlation(i, j - 1);
        Ok(())
    }

    /// Takes the correlation of two assets that are not one.
    #[tactic(auto, unfolding(crate::specs::Sheets::pair_told))]
    fn pair(&mut self, i: u16, j: u16, value: i32, r: Rounded) -> Result<(), PortKind>
        requires first { i < self.old.market.assets }
        requires second { j < self.old.market.assets }
        requires two { i ≢ j }
        requires value { value ≡ r.value }
        requires size { unsigned_abs value ≤ 1000000 }
        requires room { self.old.market.rounded + 1 < 2 ^ 32 }
        ensures told { Judges result self.new (pair_told self.old i j r) }
        ensures few { self.new.market.rounded ≤ self.old.market.rounded + 1 }
    {
        let at = slot(self.market.n(), i, j);
        if self.seen[at] && self.market.rho(i, j) != value {
            return Err(PortKind::Conflict {
                i: i.min(j) + 1,
                j: i.max(j) + 1,
            });
        }
        self.market.set_rho(i, j, value);
        count(&mut self.market, r.exact);
        self.seen[at] = true;
        self.next = Wanted::First;
        Ok(())
    }

    /// Takes the correlation of an asset with itself.
    #[tactic(auto, unfolding(crate::specs::Sheets::diagonal_told))]
    fn diagonal(&mut self, r: Rounded) -> Result<(), PortKind>
        requires { self.old.market.rounded + 1 < 2 ^ 32 }
        ensures told { Judges result self.new (diagonal_told self.old r) }
        ensures few { self.new.market.rounded ≤ self.old.market.rounded + 1 }
    {
        if r.value != 1_000_000 {
            return Err(PortKind::Diagonal);
        }
        count(&mut self.market, r.exact);
        self.next = Wanted::First;
        Ok(())
    }

    /// Takes the correlation of a triple.
    #[tactic(auto, unfolding(crate::specs::Sheets::correlation_told))]
    fn correlation(&mut self, i: u16, j: u16, r: Rounded) -> Result<(), PortKind>
        requires first { i < self.old.market.assets }
        requires second { j < self.old.market.assets }
        requires room { self.old.market.rounded + 1 < 2 ^ 32 }
        ensures told { Judges result self.new (correlation_told self.old i j r) }
        ensures few { self.new.market.rounded ≤ self.old.market.rounded + 1 }
    {
        let Some(value) = unit(r.value) else {
            return Err(PortKind::Range);
        };
        if i == j {
            self.diagonal(r)
        } else {
            self.pair(i, j, value, r)
        }
    }

    /// Takes a token that is to be a numeral.
    fn numeral_item(&mut self, wanted: Wanted, r: Rounded) -> Result<(), PortKind>
        requires wanted { AreAssets self.old.market.assets wanted }
        requires room { self.old.market.rounded + 1 < 2 ^ 32 }
        ensures told { Judges result self.new (value_told wanted self.old r) }
        ensures few { self.new.market.rounded ≤ self.old.market.rounded + 1 }
    {
        match wanted {
            Wanted::Mean(k) => self.mean(k, r),
            Wanted::Deviation(k) => self.deviation(k, r),
            Wanted::Correlation(i, j) => self.correlation(i, j, r),
            _ => Err(PortKind::Index),
        }
    }

    /// Takes a token behind the first.
    #[tactic(auto, unfolding(crate::specs::Sheets::item_told))]
    pub fn item(&mut self, text: &[u8]) -> Result<(), PortKind>
        requires { self.old.market.rounded + 1 < 2 ^ 32 }
        ensures told { Judges result self.new (item_told self.old.next self.old text.now) }
        ensures few { self.new.market.rounded ≤ self.old.market.rounded + 1 }
    {
        match self.next {
            Wanted::First => self.first(text),
            Wanted::Second(i) => self.second(i, text),
            wanted => match numeral(text) {
                Ok(r) => self.numeral_item(wanted, r),
                Err(kind) => Err(kind),
            },
        }
    }

    /// The market where the bytes end, however many they are.
    pub fn close(self) -> Result<Market, PortKind>
        ensures { (size : ℕ) → Closes result size (closed_at self.next size self) }
    {
        let Wanted::First = self.next else {
            return Err(PortKind::Short);
        };
        match missing(self.market.n(), self.seen.as_slice()) {
            None => Ok(self.market),
            Some(at) => {
                let n = u32::from(self.market.n());
                Err(PortKind::Missing {
                    i: (at / n + 1) as u16,
                    j: (at % n + 1) as u16,
                })
            }
        }
    }
}
