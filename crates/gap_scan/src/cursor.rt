//! Bytes that are read number by number.

ghost use Rattle.std.specs.Prelude.{◌≡◌, ℕ, ◌+◌, ◌<◌, ◌≤◌, ◌≤ℤ◌, ◌⊎◌, ◌^◌, length, take, drop, IfOk, IfSome, IfNone};
ghost use Rattle.gap_cert.specs.Bytes.{value_of, full, half, signed_from};
ghost use Rattle.gap_cert.specs.Formats.{natural_at, signed_at, behind, Takes, Spot};

use gap_cert::Stop;
use gap_model::{CertFault, CertKind};
use std::marker::Model;

/// Bytes that aren't read yet, with the number of the first of them. Each read costs as many steps as it has bytes.
#[derive(Drop)]
pub struct Cursor<'a> {
    place: u64,
    rest: &'a [u8],
}

impl<'a> Model for Cursor<'a> {
    ghost use Rattle.std.specs.Prelude.{◌+◌, ◌≤◌, ◌^◌, length};
    ghost use Rattle.gap_cert.specs.Formats.{Spot};

    ghost Value = { Spot };

    ghost view = { λ c. record {
      place = c.place;
      rest = c.rest.now;
    } };

    ghost invariant = { λ c. c.place + length c.rest.now ≤ 2 ^ 62 };
}

impl<'a> Cursor<'a> {
    /// These bytes, the first of which has this number.
    pub fn new(place: u64, rest: &'a [u8]) -> Cursor<'a>
        requires { place + length rest.now ≤ 2 ^ 62 }
        ensures place { result.place ≡ place }
        ensures rest { result.rest ≡ rest.now }
    {
        Cursor { place, rest }
    }

    /// The number of the next byte.
    pub fn place(&self) -> u64
        ensures { result ≡ self.now.place }
    {
        self.place
    }

    #[tactic(auto, using(gap_cert::proofs::FormatLaws::natural_read, gap_cert::proofs::FormatLaws::natural_short, gap_cert::proofs::FormatLaws::natural_wrong))]
    /// A whole number of `width` bytes in `low..=high`. Another is the fault `wrong`.
    pub fn natural(
        &mut self,
        width: usize,
        wrong: CertKind,
        low: u64,
        high: u64,
    ) -> Result<u64, Stop>
        requires { width ≤ 8 }
        ensures read { Takes (natural_at width wrong low high self.old) self.new result }
        ensures range { IfOk result (λ v. (low ≤ v) × (v ≤ high)) }
    {
        let place = self.place;
        let Some(bytes) = self.front(width) else {
            return Err(Stop::More);
        };
        let value = number_of(bytes) as u64;
        if low <= value && value <= high {
            Ok(value)
        } else {
            Err(Stop::Fault(CertFault { place, kind: wrong }))
        }
    }

    #[tactic(auto, using(gap_cert::proofs::FormatLaws::signed_read, gap_cert::proofs::FormatLaws::signed_short, gap_cert::proofs::FormatLaws::signed_wrong))]
    /// A signed number of `width` bytes in `low..=high`. Another is out of range.
    pub fn signed(&mut self, width: usize, low: i128, high: i128) -> Result<i128, Stop>
        requires { (width ≡ 4) ⊎ ((width ≡ 8) ⊎ (width ≡ 16)) }
        ensures read { Takes (signed_at width low high self.old) self.new result }
        ensures range { IfOk result (λ z. (low ≤ℤ z) × (z ≤ℤ high)) }
    {
        let place = self.place;
        let Some(bytes) = self.front(width) else {
            return Err(Stop::More);
        };
        let value = signed_of(number_of(bytes), width);
        if low <= value && value <= high {
            Ok(value)
        } else {
            Err(Stop::Fault(CertFault {
                place,
                kind: CertKind::Range,
            }))
        }
    }

    /// The next `width` bytes, where they are all there; the reading goes on behind them.
    fn front(&mut self, width: usize) -> Option<&'a [u8]>
        requires { width ≤ 16 }
        ensures some { IfSome result
            (λ bytes. (width ≤ length self.old.rest) × (bytes.now ≡ take width self.old.rest)
            × (self.new ≡ behind width self.old)) }
        ensures none { IfNone result ((length self.old.rest < width) × (self.new ≡ self.old)) }
    {
        let rest = self.rest;
        if rest.len() < width {
            return None;
        }
        self.rest = &rest[width..];
        self.place += width as u64;
        Some(&rest[..width])
    }
}

/// The number that at most 16 bytes spell, the highest first.
fn number_of(bytes: &[u8]) -> u128
    requires { length bytes.now ≤ 16 }
    ensures value { result ≡ value_of bytes.now }
    ensures fits { result < full (length bytes.now) }
{
    let mut value: u128 = 0;
    for b in bytes {
        value = value * 256 + u128::from(*b);
    }
    value
}

/// The signed number that a number below `full width` stands for.
#[tactic(auto, using(gap_cert::proofs::Numbers::full_twice), unfolding(gap_cert::specs::Bytes::signed_from))]
fn signed_of(raw: u128, width: usize) -> i128
    requires fits { raw < full width }
    requires widths { (width ≡ 4) ⊎ ((width ≡ 8) ⊎ (width ≡ 16)) }
    ensures { result ≡ signed_from width raw }
{
    let half = half_of(width);
    if raw < half {
        raw as i128
    } else {
        (raw - half) as i128 - (half - 1) as i128 - 1
    }
}

/// The first number of `width` bytes that stands for a negative one.
#[tactic(auto, unfolding(gap_cert::specs::Bytes::half, gap_cert::specs::Bytes::full))]
fn half_of(width: usize) -> u128
    requires { (width ≡ 4) ⊎ ((width ≡ 8) ⊎ (width ≡ 16)) }
    ensures value { result ≡ half width }
    ensures positive { 1 ≤ result }
    ensures small { result ≤ 2 ^ 127 }
{
    match width {
        4 => 0x8000_0000,
        8 => 0x8000_0000_0000_0000,
        _ => 0x8000_0000_0000_0000_0000_0000_0000_0000,
    }
}
