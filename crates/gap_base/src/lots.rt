//! A list of lots, one number for each asset.

ghost use Rattle.std.specs.Prelude.{◌≡◌, ℕ, ◌<◌, ◌≤◌, ◌^◌, length, replicate, slice_index, slice_index_or, slice_set};

use std::marker::Model;

/// A list of 2 to 256 numbers of lots, one for each asset, in a fixed array. It takes no memory beyond itself.
#[derive(Drop, Debug)]
pub struct Lots {
    len: u16,
    numbers: [u16; 256],
}

impl Model for Lots {
    ghost use Rattle.std.specs.Prelude.{List, ℕ, ◌≤◌, ◌<◌, ◌^◌, take, slice_index_or};

    ghost Value = { List ℕ };

    ghost view = { λ l. take l.len l.numbers };

    ghost invariant = { λ l. (2 ≤ l.len) × (l.len ≤ 256) × ((k : ℕ) → slice_index_or l.numbers k 0 < 2 ^ 16) };
}

impl Lots {
    /// The list of `n` numbers that are all `v`. It takes no memory.
    pub fn filled(n: u16, v: u16) -> Lots
        requires least { 2 ≤ n }
        requires most { n ≤ 256 }
        ensures { result ≡ replicate n v }
    {
        Lots {
            len: n,
            numbers: [v; 256],
        }
    }

    /// The list of `n` zeros. It takes no memory.
    pub fn zeros(n: u16) -> Lots
        requires least { 2 ≤ n }
        requires most { n ≤ 256 }
        ensures { result ≡ replicate n 0 }
    {
        Lots::filled(n, 0)
    }

    /// How many numbers there are, 2 to 256. Each is below 2^16.
    pub fn len(&self) -> u16
        ensures length { result ≡ length self.now }
        ensures least { 2 ≤ length self.now }
        ensures most { length self.now ≤ 256 }
        ensures small { (k : ℕ) → slice_index_or self.now k 0 < 2 ^ 16 }
    {
        self.len
    }

    /// The number at place `i`, counted from 0.
    pub fn get(&self, i: u16) -> u16
        requires { i < length self.now }
        ensures value { result ≡ slice_index self.now i }
        ensures or_zero { result ≡ slice_index_or self.now i 0 }
    {
        let place = usize::from(i);
        self.numbers[place]
    }

    /// Puts `v` at place `i`; every other number stays.
    pub fn set(&mut self, i: u16, v: u16)
        requires { i < length self.old }
        ensures { self.new ≡ slice_set self.old i v }
    {
        self.numbers[usize::from(i)] = v;
    }

    /// An equal list. It takes no memory.
    pub fn copy(&self) -> Lots
        ensures { result ≡ self.now }
    {
        Lots {
            len: self.len,
            numbers: self.numbers,
        }
    }
}
