//! What a tangent point is for, as a law. Nothing is computed here.

ghost use Rattle.std.specs.Prelude.{◌≡◌, ℕ, List, Some, ◌-ℤ◌, ◌≤ℤ◌, ◌<ℤ◌};
ghost use Rattle.gap_model.specs.Settings.{Setting};
ghost use Rattle.gap_witness.specs.Descent.{quadratic, drop_by, IsOver, IsMove};
ghost use Rattle.gap_witness.specs.Points.{Choice, shifted_by, first_point, point, next};

/// The rounds of a tangent point lower the quadratic `p y'Ay - sum (8 p D_i (l_i + u_i) + 8 a_i) y_i`, whose least value
/// makes the bound best. A move of t eighths from asset i to asset j takes `t (g_i - g_j) - c t^2` off it, by the
/// gradients there and half the rate at which their gap closes. Each round takes more than 0 off, so the tangent point has
/// no more than the point from which the rounds begin.
pub fn rounds_descend()
    ensures moved { (s : Setting) (c : Choice) (y : List ℕ) (t i j : ℕ) → IsOver s c y → IsMove s y t i j
        → quadratic s c (shifted_by y t i j) ≡ quadratic s c y -ℤ drop_by s c y t i j }
    ensures lowered { (s : Setting) (c : Choice) (y z : List ℕ) → IsOver s c y → next s c y ≡ Some z
        → quadratic s c z <ℤ quadratic s c y }
    ensures point { (s : Setting) (c : Choice) (hint : List ℕ) → IsOver s c (first_point s c hint)
        → quadratic s c (point s c hint) ≤ℤ quadratic s c (first_point s c hint) }
{}
