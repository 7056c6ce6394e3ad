//! What is left of the places where the curve may be higher than the greatest value that was found.

ghost use Rattle.std.specs.Prelude.{◌≡◌, ◌≤◌, ◌<◌, ◌+◌, pos, ◌≤ℤ◌, ◌<ℤ◌, ◌+ℤ◌, ◌-ℤ◌, ◌↔◌, ℤ, unsigned_abs, IsTrue, IsFalse, MatchOption, ◌⊎◌};
ghost use Rattle.gap_lines.specs.Lines.{on, IsLine};
ghost use Rattle.gap_lines.specs.Brackets.{IsBracket};

use crate::heights::{height_at, steps_toward};
use crate::line::Line;

/// The places between `below` and `above`, neither of them included, where the curve may be higher than `top`. `rise`
/// is the last line found that rises and `fall` the last that falls; as long as there is none, the first line found.
#[derive(Clone, Copy)]
pub(crate) struct Bracket {
    pub(crate) below: i128,
    pub(crate) above: i128,
    pub(crate) rise: Line,
    pub(crate) fall: Line,
    pub(crate) top: Line,
    pub ghost below_small: { unsigned_abs below ≤ 1000000000000000000000000000001 },
    pub ghost above_small: { unsigned_abs above ≤ 1000000000000000000000000000001 },
}

/// The higher of two lines at their places, the first of equal ones.
fn higher(first: &Line, second: &Line) -> Line
    ensures which { (result ≡ first.now) ⊎ (result ≡ second.now) }
    ensures first { first.now.value ≤ℤ result.value }
    ensures second { second.now.value ≤ℤ result.value }
{
    if first.value < second.value {
        *second
    } else {
        *first
    }
}

/// The bracket after a line was found at one of its places.
pub(crate) fn narrowed(bracket: &Bracket, line: &Line) -> Bracket
    requires after { bracket.now.below <ℤ line.now.place }
    requires before { line.now.place <ℤ bracket.now.above }
    ensures bracket { (value : ℤ → ℤ) (low high : ℤ)
        → IsBracket value low high bracket.now.below bracket.now.above bracket.now.rise bracket.now.fall
        bracket.now.top → IsLine value line.now
        → IsBracket value low high result.below result.above result.rise result.fall result.top }
    ensures less { unsigned_abs (result.above -ℤ result.below) < unsigned_abs (bracket.now.above -ℤ bracket.now.below) }
{
    let top = higher(&bracket.top, line);
    if line.slope > 0 {
        return Bracket {
            below: line.place,
            above: bracket.above,
            rise: *line,
            fall: bracket.fall,
            top,
        };
    }
    if line.slope < 0 {
        return Bracket {
            below: bracket.below,
            above: line.place,
            rise: bracket.rise,
            fall: *line,
            top,
        };
    }
    Bracket {
        below: line.place,
        above: line.place + 1,
        rise: bracket.rise,
        fall: bracket.fall,
        top,
    }
}

/// The bracket of all places of `low..high` after a first line was found at one of them.
pub(crate) fn opened(low: i128, high: i128, line: &Line) -> Bracket
    requires low { unsigned_abs low ≤ 1000000000000000000000000000000 }
    requires high { unsigned_abs high ≤ 1000000000000000000000000000000 }
    requires from { low ≤ℤ line.now.place }
    requires to { line.now.place ≤ℤ high }
    ensures { (value : ℤ → ℤ) → IsLine value line.now
        → IsBracket value low high result.below result.above result.rise result.fall result.top }
{
    let all = Bracket {
        below: low - 1,
        above: high + 1,
        rise: *line,
        fall: *line,
        top: *line,
    };
    narrowed(&all, line)
}

/// Is there a place left?
pub(crate) fn has_room(bracket: &Bracket) -> bool
    ensures open { IsTrue result → (bracket.now.below +ℤ pos 1) <ℤ bracket.now.above }
    ensures closed { IsFalse result → bracket.now.above ≤ℤ (bracket.now.below +ℤ pos 1) }
{
    bracket.below + 1 < bracket.above
}

/// The place inside the bracket that is nearest to `x`.
fn inside(bracket: &Bracket, x: i128) -> i128
    requires { (bracket.now.below +ℤ pos 1) <ℤ bracket.now.above }
    ensures after { bracket.now.below <ℤ result }
    ensures before { result <ℤ bracket.now.above }
{
    if x <= bracket.below {
        bracket.below + 1
    } else if x >= bracket.above {
        bracket.above - 1
    } else {
        x
    }
}

/// The place of the bracket that is nearest to where its two lines meet, rounded down.
fn meeting(bracket: &Bracket) -> i128
    requires room { (bracket.now.below +ℤ pos 1) <ℤ bracket.now.above }
    requires rise { pos 0 <ℤ bracket.now.rise.slope }
    requires fall { bracket.now.fall.slope <ℤ pos 0 }
    ensures after { bracket.now.below <ℤ result }
    ensures before { result <ℤ bracket.now.above }
{
    let ahead = height_at(&bracket.fall, 0) - height_at(&bracket.rise, 0);
    inside(
        bracket,
        steps_toward(ahead, bracket.rise.slope - bracket.fall.slope),
    )
}

/// The place to look at next where a rising and a falling line are known. None only where these lines allow no value
/// above the greatest that was found.
fn place_between(bracket: &Bracket) -> Option<i128>
    requires room { (bracket.now.below +ℤ pos 1) <ℤ bracket.now.above }
    requires rise { pos 0 <ℤ bracket.now.rise.slope }
    requires fall { bracket.now.fall.slope <ℤ pos 0 }
    ensures { MatchOption result
        ((value : ℤ → ℤ) → IsLine value bracket.now.rise → IsLine value bracket.now.fall → (t : ℤ)
        → value t ≤ℤ bracket.now.top.value) (λ p. (bracket.now.below <ℤ p) × (p <ℤ bracket.now.above)) }
{
    let cut = meeting(bracket);
    let before = height_at(&bracket.rise, cut);
    let after = height_at(&bracket.fall, cut + 1);
    if before <= bracket.top.value && after <= bracket.top.value {
        return None;
    }
    if before < after && cut + 1 < bracket.above {
        return Some(cut + 1);
    }
    Some(cut)
}

/// The place to look at next, `step` from the last one as long as no line rises or none falls. None only where no place
/// is higher than the greatest value that was found.
pub(crate) fn next_place(bracket: &Bracket, step: i128) -> Option<i128>
    requires room { (bracket.now.below +ℤ pos 1) <ℤ bracket.now.above }
    requires step { unsigned_abs step ≤ 10000000000000000000000000000000 }
    ensures { MatchOption result
        ((value : ℤ → ℤ) → IsLine value bracket.now.rise → IsLine value bracket.now.fall → (t : ℤ)
        → value t ≤ℤ bracket.now.top.value) (λ p. (bracket.now.below <ℤ p) × (p <ℤ bracket.now.above)) }
{
    let rises = bracket.rise.slope > 0;
    let falls = bracket.fall.slope < 0;
    if rises && falls {
        return place_between(bracket);
    }
    if rises {
        return Some(inside(bracket, bracket.below + step));
    }
    Some(inside(bracket, bracket.above - step))
}

/// A longer step.
pub(crate) fn longer(step: i128) -> i128
    requires { unsigned_abs step ≤ 10000000000000000000000000000000 }
    ensures { unsigned_abs result ≤ 10000000000000000000000000000000 }
{
    if step > 1000000000000000000000000000000 || step < 0 {
        1000000000000000000000000000000
    } else {
        step * 8
    }
}
