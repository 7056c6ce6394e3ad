//! Whole quotients.

ghost use Rattle.std.specs.Prelude.{ℤ, pos, ◌*ℤ◌, ◌≤ℤ◌};

/// The least whole number `c` with `64c >= v`: the 64th part of `v`, rounded up. Takes no
/// memory; the cost is that of one quotient.
pub fn ceil_div64(v: i128) -> i128
    ensures reached { v ≤ℤ (pos 64 *ℤ result) }
    ensures least { (c : ℤ) → v ≤ℤ (pos 64 *ℤ c) → result ≤ℤ c }
{
    let below = v.div_euclid(64);
    if below * 64 < v { below + 1 } else { below }
}
