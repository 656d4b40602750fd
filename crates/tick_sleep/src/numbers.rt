//! The keys and the numbers of ticks of a script.
ghost use Rattle.std.specs.Prelude.{◌≡◌};
ghost use Rattle.tick_sleep.specs.Learning.{key_of, sleep_ticks_of, ticks_of, ticks_up_to};

use crate::limits;
use script_read::number_of;

/// The key that a word spells.
pub(crate) fn key_of(word: &[u8]) -> Option<u8>
    ensures { result ≡ key_of word.now }
{
    let key = number_of(word)?;
    if key > u64::from(limits::GREATEST_KEY) {
        return None;
    }
    Some(key as u8)
}

/// The number of ticks of a sleep that a word spells.
pub(crate) fn sleep_ticks_of(word: &[u8]) -> Option<u32>
    ensures { result ≡ sleep_ticks_of word.now }
{
    ticks_up_to(limits::SLEEP_TICKS, word)
}

/// The number of ticks that pass, which a word spells.
pub(crate) fn ticks_of(word: &[u8]) -> Option<u32>
    ensures { result ≡ ticks_of word.now }
{
    ticks_up_to(limits::TICKS, word)
}

// The number of ticks that a word spells, from 1 up to a bound.
fn ticks_up_to(bound: u32, word: &[u8]) -> Option<u32>
    ensures { result ≡ ticks_up_to bound word.now }
{
    let ticks = number_of(word)?;
    if ticks == 0 || ticks > u64::from(bound) {
        return None;
    }
    Some(ticks as u32)
}
