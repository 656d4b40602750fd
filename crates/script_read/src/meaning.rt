//! What each code means.
ghost use Rattle.std.specs.Prelude.{◌≡◌, option_map};
ghost use Rattle.script_read.specs.Meanings.{meaning};

/// What a fault's code means, in one sentence that is said of the line; `None` where the number is no code.
///
/// ```
/// assert!(rt; meaning_of(11) == Some("the lock isn't held here"));
/// ```
#[tactic(auto, unfolding(crate::specs::Meanings::meaning))]
pub fn meaning_of(code: u8) -> Option<&'static str>
    ensures { option_map (λ s. s.now) result ≡ meaning code }
{
    match code {
        1 => Some("the first line isn't `lockrun 1`, or `ticks 1` under `ticks`"),
        2 => Some(
            "it has an empty word, an unknown first word or a wrong number of words, or stands behind `done`",
        ),
        3 => Some("it has a name or a class that isn't a NAME"),
        4 => Some("it declares a name that is declared already"),
        5 => Some("it uses a name that isn't declared, or is declared as another sort"),
        6 => Some(
            "it has a number that isn't a KEY, VALUE, AMOUNT or TICKS, or a priority that isn't a PRIO",
        ),
        7 => Some("it passes a limit of a script"),
        8 => Some(
            "the lock is of another kind, or a channel is used for a condition or the reverse",
        ),
        9 => Some("the lock is held here already"),
        10 => Some("the lock is held here in the other mode"),
        11 => Some("the lock isn't held here"),
        12 => Some("a mutex or an rw lock is held here under which it may not stand"),
        13 => Some("the wait's lock wasn't gained last, or was gained by a try"),
        14 => Some(
            "the thread ends with a lock held, or the block with other locks than it began with",
        ),
        15 => Some("it stands outside a thread, or is an `endtry` with no block open"),
        16 => Some(
            "it declares a lock, condition or channel behind a thread, or a sleeper behind events",
        ),
        17 => Some("it stands inside a thread or an open block, or the source ends without `done`"),
        18 => Some("it is longer than 200 bytes"),
        19 => Some("it holds a byte outside 32 to 126"),
        20 => Some("the lock is held shared, so its table may not be changed"),
        _ => None,
    }
}
