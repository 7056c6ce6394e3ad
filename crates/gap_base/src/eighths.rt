//! A list of eighths of lots, one number for each asset.

ghost use Rattle.std.specs.Prelude.{◌≡◌, ℕ, ◌<◌, ◌≤◌, ◌^◌, length, replicate, slice_index, slice_index_or, slice_set};
ghost use Rattle.gap_base.specs.Lots.{eighths_of};

use crate::lots::Lots;
use std::marker::Model;

/// A list of 2 to 256 numbers of eighths of a lot, one for each asset, in a fixed array. It takes no memory beyond itself.
#[derive(Drop, Debug)]
pub struct Eighths {
    len: u16,
    numbers: [u32; 256],
}

impl Model for Eighths {
    ghost use Rattle.std.specs.Prelude.{List, ℕ, ◌≤◌, ◌<◌, ◌^◌, take, slice_index_or};

    ghost Value = { List ℕ };

    ghost view = { λ y. take y.len y.numbers };

    ghost invariant = { λ y. (2 ≤ y.len) × (y.len ≤ 256) × ((k : ℕ) → slice_index_or y.numbers k 0 < 2 ^ 32) };
}

impl Eighths {
    /// The list of `n` zeros. It takes no memory.
    pub fn zeros(n: u16) -> Eighths
        requires least { 2 ≤ n }
        requires most { n ≤ 256 }
        ensures { result ≡ replicate n 0 }
    {
        Eighths {
            len: n,
            numbers: [0; 256],
        }
    }

    /// The same list in eighths: each number of lots eight times. It costs one pass, and takes no memory.
    pub fn of(x: &Lots) -> Eighths
        ensures { result ≡ eighths_of x.now }
    {
        let mut y = Eighths::zeros(x.len());
        for i in 0..x.len() {
            y.set(i, 8 * u32::from(x.get(i)));
        }
        y
    }

    /// How many numbers there are, 2 to 256. Each is below 2^32.
    pub fn len(&self) -> u16
        ensures length { result ≡ length self.now }
        ensures least { 2 ≤ length self.now }
        ensures most { length self.now ≤ 256 }
        ensures small { (k : ℕ) → slice_index_or self.now k 0 < 2 ^ 32 }
    {
        self.len
    }

    /// The number at place `i`, counted from 0.
    pub fn get(&self, i: u16) -> u32
        requires { i < length self.now }
        ensures value { result ≡ slice_index self.now i }
        ensures or_zero { result ≡ slice_index_or self.now i 0 }
    {
        let place = usize::from(i);
        self.numbers[place]
    }

    /// Puts `v` at place `i`; every other number stays.
    pub fn set(&mut self, i: u16, v: u32)
        requires { i < length self.old }
        ensures { self.new ≡ slice_set self.old i v }
    {
        self.numbers[usize::from(i)] = v;
    }

    /// An equal list. It takes no memory.
    pub fn copy(&self) -> Eighths
        ensures { result ≡ self.now }
    {
        Eighths {
            len: self.len,
            numbers: self.numbers,
        }
    }
}
