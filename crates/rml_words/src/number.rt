//! Numbers among the words.

ghost use Rattle.rml_words.specs.Numbers.{value_of};
ghost use Rattle.rml_words.specs.Reading.{is_numeral, number};
ghost use Rattle.std.specs.Char.{is_ascii_digit};
ghost use Rattle.std.specs.List.{list_all};
ghost use Rattle.std.specs.Prelude.{◌≡◌, ◌≤◌, IfSome, IsTrue};

/// The greatest number of digits.
const DIGITS: usize = 13;

fn are_digits(word: &[u8]) -> bool
    ensures { result ≡ list_all is_ascii_digit word.now }
{
    word.iter().all(|byte| byte.is_ascii_digit())
}

fn is_numeral(word: &[u8]) -> bool
    ensures { result ≡ is_numeral word.now }
{
    1 <= word.len() && word.len() <= DIGITS && are_digits(word)
}

fn value_of(digits: &[u8]) -> u64
    requires { IsTrue (is_numeral digits.now) }
    ensures { result ≡ value_of digits.now }
{
    let mut value = 0;
    for digit in digits {
        value = 10 * value + u64::from(*digit - b'0');
    }
    value
}

/// The number that a word is, if it lies from `low` to `high`. It may begin with zeros.
#[tactic(auto, unfolding(crate::specs::Reading::number))]
pub fn number(word: &str, low: u64, high: u64) -> Option<u64>
    ensures read { result ≡ number low high word.now }
    ensures within { IfSome result (λ n. n ≤ high) }
{
    let digits = word.as_bytes();
    if !is_numeral(digits) {
        return None;
    }
    let value = value_of(digits);
    if low <= value && value <= high {
        Some(value)
    } else {
        None
    }
}
