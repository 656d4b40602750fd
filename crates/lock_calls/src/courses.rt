//! What a thread that takes a lock does with the word that it saw.
ghost use Rattle.std.specs.Prelude.{◌≡◌};
ghost use Rattle.lock_model.specs.Words.{word_of, IsWellFormed};
ghost use Rattle.lock_model.specs.declared.plan.Kind.TheVariants as kinds;
ghost use Rattle.lock_model.specs.declared.plan.Mode.TheVariants.{Excl};
ghost use Rattle.lock_calls.specs.Choices.{course};

use lock_model::{Kind, Mode};

/// What a thread does with a word.
#[derive(Clone, Copy, Debug, PartialEq, Eq)]
pub enum Course {
    /// It gains the lock, and keeps the waiters' bits.
    Plainly,
    /// It gains the lock under its chain alone, since it is to own the turnstile of those who wait.
    ByClaim,
    /// It waits: the word doesn't admit its mode.
    MustWait,
}

/// What a thread does that wants a lock of that kind in that mode, and saw the word.
pub fn course_of(kind: Kind, seen: u64, mode: Mode) -> Course
    requires well_formed { IsWellFormed (word_of seen) }
    requires mutex { kind ≡ kinds.Mtx → mode ≡ Excl }
    ensures { result ≡ course kind (word_of seen) mode }
{
    if !lock_words::admits(kind, seen, mode) {
        Course::MustWait
    } else if lock_words::is_plain(kind, seen, mode) {
        Course::Plainly
    } else {
        Course::ByClaim
    }
}
