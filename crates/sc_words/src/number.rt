ghost use Rattle.std.specs.Prelude.{◌≡◌, ◌<◌, ◌↔◌, ◌^◌, ℕ, IsTrue, min, All, MatchOption};
ghost use Rattle.sc_words.specs.Asks.{number_behind, IsDigit, IsNumber};

/// Whether all bytes are digits.
pub(crate) fn are_digits(word: &[u8]) -> bool
    ensures { IsTrue result ↔ All IsDigit word.now }
{
    word.iter().all(|b| *b >= b'0' && *b <= b'9')
}

/// The number that digits stand for, or `most` where it is above that.
pub(crate) fn capped(digits: &[u8], most: u64) -> u64
    requires digits { All IsDigit digits.now }
    requires most { most < 2 ^ 32 }
    ensures { result ≡ min (number_behind 0 digits.now) most }
{
    let mut number = 0u64;
    for digit in digits {
        number = (10 * number + (*digit - b'0') as u64).min(most);
    }
    number
}

/// The number from `low` to `high` that a word of one or more digits stands for.
pub(crate) fn number_of(word: &str, low: u64, high: u64) -> Option<u64>
    requires { high < 2 ^ 31 }
    ensures { MatchOption result ((n : ℕ) → IsNumber low high word.now n → ⊥) (IsNumber low high word.now) }
{
    let digits = word.as_bytes();
    if digits.is_empty() {
        return None;
    }
    if !are_digits(digits) {
        return None;
    }
    let number = capped(digits, high + 1);
    if number < low || number > high {
        None
    } else {
        Some(number)
    }
}
