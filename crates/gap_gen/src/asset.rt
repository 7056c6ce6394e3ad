//! One asset of a generated market.

ghost use Rattle.std.specs.Prelude.{◌≡◌, ℕ, ◌+◌, ◌%◌, ◌≤◌, pos, ◌-ℤ◌, unsigned_abs};
ghost use Rattle.rand_pcg.specs.Lcg.{Lcg};
ghost use Rattle.gap_gen.specs.Draws.{IsAsset, stands_at};

use rand_core::utils::NextWord;
use rand_pcg::Lcg64Xsh32;

/// What is drawn for an asset: its load in thousandths, its mean return and its deviation in millionths.
#[derive(Clone, Copy)]
pub struct Asset {
    pub load: u16,
    pub mean: i32,
    pub deviation: u32,
    pub ghost load_most: { load ≤ 900 },
    pub ghost mean_size: { unsigned_abs mean ≤ 1000000 },
    pub ghost deviation_most: { deviation ≤ 1000000 },
}

/// A word as a load: 200 to 900.
fn load(word: u32) -> u16
    ensures value { result ≡ 200 + word % 701 }
    ensures most { result ≤ 900 }
{
    200 + (word % 701) as u16
}

/// A word as a mean return: -2000 to 8000.
fn mean(word: u32) -> i32
    ensures value { result ≡ pos (word % 10001) -ℤ pos 2000 }
    ensures size { unsigned_abs result ≤ 1000000 }
{
    (word % 10001) as i32 - 2000
}

/// The next three words as an asset.
pub fn next_asset(words: &mut Lcg64Xsh32) -> Asset
    ensures asset { (g : Lcg) → (i : ℕ) → stands_at g i words.old → IsAsset g i result.load result.mean result.deviation }
    ensures after { (g : Lcg) → (i : ℕ) → stands_at g i words.old → stands_at g (i + 1) words.new }
{
    let first = words.next_word();
    let second = words.next_word();
    let third = words.next_word();
    Asset {
        load: load(first),
        mean: mean(second),
        deviation: 20000 + third % 60001,
    }
}
