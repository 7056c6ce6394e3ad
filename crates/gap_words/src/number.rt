//! Whole numbers in words.
ghost use Rattle.std.specs.Prelude.{◌≡◌, ◌≤◌, IfSome};
ghost use Rattle.std.specs.Option.{option_map};
ghost use Rattle.gap_words.specs.Numbers.{number, number_in, range_in, held_in};

/// How many assets are to be held.
#[derive(Clone, Copy)]
pub(crate) struct Held {
    pub fewest: u16,
    pub most: u16,
}

/// The number that a word of 1 to `most` decimal digits and nothing else is; leading zeros count as digits. One step
/// for each digit.
pub(crate) fn number_of(word: &str, most: usize) -> Option<u64>
    requires { most ≤ 18 }
    ensures { result ≡ number most word.now }
{
    let digits = word.as_bytes();
    if digits.is_empty() || digits.len() > most {
        return None;
    }
    let mut value = 0u64;
    for digit in digits {
        if !digit.is_ascii_digit() {
            return None;
        }
        value = value * 10 + u64::from(*digit - b'0');
    }
    Some(value)
}

/// The number that a word of 1 to 9 digits is, where it is from `least` to `most`.
#[tactic(auto, unfolding(crate::specs::Numbers::number_in))]
pub(crate) fn number_within(word: &str, least: u32, most: u32) -> Option<u32>
    ensures value { result ≡ number_in least most word.now }
    ensures range { IfSome result (λ n. (least ≤ n) × (n ≤ most)) }
{
    match number_of(word, 9) {
        Some(n) if u64::from(least) <= n && n <= u64::from(most) => Some(n as u32),
        _ => None,
    }
}

/// The numbers of a range from one word to another.
#[tactic(auto, unfolding(crate::specs::Numbers::range_in))]
fn range_within(fewest: &str, most: &str) -> Option<Held>
    ensures value { option_map (λ held. (held.fewest, held.most)) result ≡ range_in fewest.now most.now }
    ensures range { IfSome result (λ held. (1 ≤ held.fewest) × (held.fewest ≤ held.most) × (held.most ≤ 256)) }
{
    let most = number_within(most, 1, 256)?;
    let fewest = number_within(fewest, 1, most)?;
    Some(Held {
        fewest: fewest as u16,
        most: most as u16,
    })
}

/// How many assets a word says are to be held: K, or K1-K2.
#[tactic(auto, unfolding(crate::specs::Numbers::held_in))]
pub(crate) fn held_within(word: &str) -> Option<Held>
    ensures value { option_map (λ held. (held.fewest, held.most)) result ≡ held_in word.now }
    ensures range { IfSome result (λ held. (1 ≤ held.fewest) × (held.fewest ≤ held.most) × (held.most ≤ 256)) }
{
    if let Some((fewest, most)) = word.split_once('-') {
        return range_within(fewest, most);
    }
    let both = number_within(word, 1, 256)? as u16;
    Some(Held {
        fewest: both,
        most: both,
    })
}
