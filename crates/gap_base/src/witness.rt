//! The point and the multipliers at which a tangent bound is taken.

ghost use Rattle.std.specs.Prelude.{◌≡◌};

use crate::eighths::Eighths;

/// A tangent point in eighths of lots, the multiplier `alpha` of the sum of lots, and the multiplier `tau` of the turnover.
#[derive(Drop, Debug)]
pub struct Witness {
    pub y: Eighths,
    pub alpha: i128,
    pub tau: i128,
}

impl Witness {
    /// An equal witness. It takes no memory.
    pub fn copy(&self) -> Witness
        ensures { result ≡ self.now }
    {
        Witness {
            y: self.y.copy(),
            alpha: self.alpha,
            tau: self.tau,
        }
    }
}
