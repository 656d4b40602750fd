//! Reading numbers: decimal digits without a sign and without leading zeros.
ghost use Rattle.std.specs.Prelude.{◌≡◌, ◌+◌, ◌*◌, ◌^◌, ◌<◌, ◌≤◌, option_map, MatchOption};
ghost use Rattle.lock_model.specs.Script.Lines.{number_of, priority_of};

use lock_model::Prio;

/// The number that a word spells, if it is below 2^64.
pub fn number_of(word: &[u8]) -> Option<u64>
    ensures { result ≡ number_of word.now }
{
    if word.is_empty() || (word.len() > 1 && word[0] == b'0') {
        return None;
    }
    let mut number: u64 = 0;
    for b in word {
        if !b.is_ascii_digit() {
            return None;
        }
        number = with_digit(number, *b - b'0')?;
    }
    Some(number)
}

// A number below this one has room for any digit more.
const ROOM: u64 = 1_844_674_407_370_955_161;

// A number with a digit more behind it, if it is below 2^64.
fn with_digit(number: u64, digit: u8) -> Option<u64>
    requires { digit < 10 }
    ensures { MatchOption result (2 ^ 64 ≤ 10 * number + digit) (λ n. n ≡ 10 * number + digit) }
{
    if number < ROOM {
        return Some(10 * number + u64::from(digit));
    }
    number.checked_mul(10)?.checked_add(u64::from(digit))
}

/// The priority that a word spells: a number up to 255.
pub fn priority_of(word: &[u8]) -> Option<Prio>
    ensures { option_map (λ p. p.0) result ≡ priority_of word.now }
{
    match u8::try_from(number_of(word)?) {
        Ok(prio) => Some(Prio(prio)),
        Err(_) => None,
    }
}
