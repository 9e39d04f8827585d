//! A NUMBER is `0`, or digits of which the first is not 0. It has one spelling.

ghost use Rattle.std.specs.Prelude.{◌≡◌, ℕ, ◌^◌, ◌<◌, ◌≤◌, IfSome, IfNone, decimal};

/// The least and the most that `cut` and `failread` count.
const LEAST_COUNT: u32 = 1;

const MOST_COUNT: u32 = 1_000_000;

/// A NUMBER below 2^32.
pub fn number_of(text: &[u8]) -> Option<u32>
    ensures found { IfSome result (λ n. (n < 2 ^ 32) × (text.now ≡ decimal n)) }
    ensures none { IfNone result ((n : ℕ) → n < 2 ^ 32 → text.now ≡ decimal n → ⊥) }
{
    if text.is_empty() || text.len() > 10 {
        return None;
    }
    if text[0] == b'0' && text.len() > 1 {
        return None;
    }
    let mut number: u64 = 0;
    for byte in text {
        if *byte < b'0' || *byte > b'9' {
            return None;
        }
        number = number * 10 + (*byte - b'0') as u64;
    }
    if number > u32::MAX as u64 {
        return None;
    }
    Some(number as u32)
}

/// A NUMBER from 1 to 1,000,000.
pub fn arm_count_of(text: &[u8]) -> Option<u32>
    ensures found { IfSome result (λ n. (1 ≤ n) × (n ≤ 1_000_000) × (text.now ≡ decimal n)) }
    ensures none { IfNone result ((n : ℕ) → 1 ≤ n → n ≤ 1_000_000 → text.now ≡ decimal n → ⊥) }
{
    let n = number_of(text)?;
    if n < LEAST_COUNT || n > MOST_COUNT {
        return None;
    }
    Some(n)
}
