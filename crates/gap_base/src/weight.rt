//! Weights of risk against return, and lists of them.

ghost use Rattle.std.specs.Prelude.{◌≡◌, ◌<◌, ◌≤◌, ◌↔◌, [], ◌∷◌, ◌++◌, length, slice_get, IsTrue};

use std::marker::Model;

/// The weight p/q of risk; return has the rest. In a job `q` is 1 to 100 and `p` at most `q`.
#[derive(Clone, Copy, PartialEq, Eq, Debug)]
pub struct Weight {
    pub p: u8,
    pub q: u8,
}

/// A list of at most 101 weights in a fixed array. It takes no memory beyond itself.
#[derive(Drop, Debug)]
pub struct Weights {
    len: u8,
    weights: [Weight; 101],
}

impl Model for Weights {
    ghost use Rattle.std.specs.Prelude.{List, ◌≡◌, ◌≤◌, take, length};
    ghost use Rattle.gap_base.specs.declared.weight.Weight.{Weight};

    ghost Value = { List Weight };

    ghost view = { λ w. take w.len w.weights };

    ghost invariant = { λ w. (w.len ≤ 101) × (length w.weights ≡ 101) };
}

impl Weights {
    /// The empty list. It takes no memory.
    pub fn new() -> Weights
        ensures { result ≡ [] }
    {
        Weights {
            len: 0,
            weights: [Weight { p: 0, q: 1 }; 101],
        }
    }

    /// Appends `w`. There must be fewer than 101.
    pub fn push(&mut self, w: Weight)
        requires { length self.old < 101 }
        ensures { self.new ≡ self.old ++ w ∷ [] }
    {
        self.weights[usize::from(self.len)] = w;
        self.len += 1;
    }

    /// How many weights there are, at most 101.
    pub fn len(&self) -> u8
        ensures length { result ≡ length self.now }
        ensures most { length self.now ≤ 101 }
    {
        self.len
    }

    /// Is the list empty?
    pub fn is_empty(&self) -> bool
        ensures { IsTrue result ↔ (self.now ≡ []) }
    {
        self.len == 0
    }

    /// The weight at place `k`, counted from 0.
    pub fn get(&self, k: u8) -> Weight
        requires { k < length self.now }
        ensures { slice_get self.now k ≡ Some result }
    {
        self.weights[usize::from(k)]
    }
}
