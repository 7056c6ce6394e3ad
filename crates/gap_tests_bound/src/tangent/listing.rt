//! The least Lagrangian by going over all lists of at most 7 lots for each asset.

ghost use Rattle.std.specs.Prelude.{◌≡◌, ◌<◌, ◌≤◌, length, IfSome};

use gap_base::{Lots, Weight, Witness};
use gap_box::{Cell, Part};
use gap_instance::Instance;
use gap_psd::Shift;

/// Is the list one of the part's, with `fewest` to `most` positive numbers?
fn is_pick(part: &Part, fewest: u16, most: u16, x: &Lots) -> bool
    requires { length x.now ≡ length part.now }
{
    let mut count: u32 = 0;
    let mut inside = true;
    for i in 0..part.len() {
        let v = x.get(i);
        inside = inside
            && match part.cell(i) {
                Cell::Out => v == 0,
                Cell::Held { l, u } => l <= v && v <= u,
                Cell::Free { l, u } => v == 0 || (l <= v && v <= u),
            };
        count = count.wrapping_add(u32::from(v > 0));
    }
    inside && u32::from(fewest) <= count && count <= u32::from(most)
}

/// Row `i` of A times the point.
fn tilt(inst: &Instance, shift: &Shift, w: &Witness, i: u16) -> i128
    requires there { i < inst.now.market.assets }
    requires shift { shift.now.assets ≡ inst.now.market.assets }
    requires point { length w.now.y ≡ inst.now.market.assets }
{
    let mut sum: i128 = 0;
    for j in 0..inst.n() {
        sum = sum.wrapping_add(i128::from(inst.cov(i, j)).wrapping_mul(i128::from(w.y.get(j))));
    }
    sum.wrapping_add(shift.d(i).wrapping_mul(i128::from(w.y.get(i))))
}

/// The Lagrangian of a list.
fn lagrangian(inst: &Instance, shift: &Shift, weight: Weight, w: &Witness, x: &Lots) -> i128
    requires shift { shift.now.assets ≡ inst.now.market.assets }
    requires point { length w.now.y ≡ inst.now.market.assets }
    requires list { length x.now ≡ inst.now.market.assets }
{
    let p = i128::from(weight.p);
    let rest = i128::from(weight.q).wrapping_sub(p);
    let reward = rest
        .wrapping_mul(1_000_000_000_000)
        .wrapping_mul(i128::from(inst.lots()));
    let mut sum: i128 = 0;
    let mut lots: i128 = 0;
    let mut turned: i128 = 0;
    for i in 0..inst.n() {
        let v = i128::from(x.get(i));
        let y = i128::from(w.y.get(i));
        let row = tilt(inst, shift, w, i);
        let square = p
            .wrapping_mul(row)
            .wrapping_mul(v.wrapping_mul(16).wrapping_sub(y));
        let bend = p
            .wrapping_mul(64)
            .wrapping_mul(shift.d(i))
            .wrapping_mul(v)
            .wrapping_mul(v);
        let earned = reward
            .wrapping_mul(64)
            .wrapping_mul(i128::from(inst.mean(i)))
            .wrapping_mul(v);
        sum = sum
            .wrapping_add(square)
            .wrapping_sub(bend)
            .wrapping_sub(earned);
        lots = lots.wrapping_add(v);
        turned = turned.wrapping_add(i128::from(x.get(i).abs_diff(inst.present(i))));
    }
    let over = lots.wrapping_sub(i128::from(inst.lots()));
    let most = match inst.turnover() {
        Some(most) => w.tau.wrapping_mul(turned.wrapping_sub(i128::from(most))),
        None => 0,
    };
    sum.wrapping_add(w.alpha.wrapping_mul(over))
        .wrapping_add(most)
}

/// The list whose numbers are the digits of a code to the base 8; None where the code has more digits.
fn decoded(n: u16, code: u32) -> Option<Lots>
    requires least { 2 ≤ n }
    requires most { n ≤ 256 }
    ensures { IfSome result (λ x. length x ≡ n) }
{
    let mut x = Lots::zeros(n);
    let mut rest = code;
    for i in 0..n {
        x.set(i, (rest % 8) as u16);
        rest /= 8;
    }
    if rest == 0 { Some(x) } else { None }
}

/// The least Lagrangian over all lists of the part that hold from K1 to K2 assets, where none has more than 7 lots.
pub(crate) fn listed(
    inst: &Instance,
    shift: &Shift,
    weight: Weight,
    part: &Part,
    w: &Witness,
) -> Option<i128>
    requires shift { shift.now.assets ≡ inst.now.market.assets }
    requires point { length w.now.y ≡ inst.now.market.assets }
    requires part { length part.now ≡ inst.now.market.assets }
{
    let mut least: Option<i128> = None;
    for code in 0..32768u32 {
        if let Some(x) = decoded(inst.n(), code) {
            if is_pick(part, inst.held(), inst.held_most(), &x) {
                let value = lagrangian(inst, shift, weight, w, &x);
                least = match least {
                    Some(known) => Some(known.min(value)),
                    None => Some(value),
                };
            }
        }
    }
    least
}
