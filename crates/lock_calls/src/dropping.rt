//! A release outside the section of the lock's chain, as `__rw_runlock_try` of FreeBSD's kern_rwlock.c: who holds a
//! lock shared tries again where an exchange missed, while another holder stays or nobody waits; else it goes to the
//! lock's chain. Who holds it exclusively goes there at once. It never waits.
ghost use Rattle.std.specs.Prelude.{◌≡◌, ◌<◌, length, IfNone, IfSome};
ghost use Rattle.lock_floor.specs.declared.calls.ReleaseAt.TheVariants.{Drops};
ghost use Rattle.lock_floor.specs.Passes.{IsOf};
ghost use Rattle.lock_calls.specs.Choices.{by_word, outside};
ghost use Rattle.lock_calls.specs.Releases.{BeginsGivingUp, IsReleased, IsReleasing, ReleasesOn};
ghost use Rattle.lock_calls.specs.Waiting.{MayPutDown};

use lock_floor::{Floor, Pass, ReleaseAt};
use lock_model::{LockNo, Mode};

/// Looks at a lock that the thread gives up in a wait: where the word allows that it is to be dropped from it, and else
/// the release goes to the lock's chain. Answers where it stands then.
pub fn begin_giving_up(floor: &Floor, pass: &mut Pass, l: LockNo, mode: Mode) -> ReleaseAt
    requires own { IsOf floor.now pass.old }
    requires lock { l.0 < length floor.now.description.locks }
    requires may { MayPutDown floor.now.description l.0 mode pass.old.view }
    ensures own { IsOf floor.now pass.new }
    ensures begins { BeginsGivingUp floor.now.description l mode result
        pass.old.view pass.new.view }
{
    let seen = floor.look(pass, l);
    by_word(seen)
}

/// Drops a lock by one exchange from the word that the thread found last, which allows that. `None`: the release is
/// done. Else, where another word stood there, it answers where the release stands then.
pub fn drop_outside(
    floor: &Floor,
    pass: &mut Pass,
    l: LockNo,
    mode: Mode,
    seen: u64,
) -> Option<ReleaseAt>
    requires own { IsOf floor.now pass.old }
    requires lock { l.0 < length floor.now.description.locks }
    requires there { IsReleasing floor.now.description l.0 mode (Drops seen) pass.old.view }
    ensures own { IsOf floor.now pass.new }
    ensures released { IfNone result
        (IsReleased floor.now.description l mode (Drops seen) pass.old.view pass.new.view) }
    ensures on { IfSome result (λ to. ReleasesOn floor.now.description l mode (Drops seen) to
        pass.old.view pass.new.view) }
{
    match floor.put_down(pass, l, mode, seen) {
        Ok(()) => None,
        Err(found) => Some(outside(mode, found)),
    }
}

/// Where a release stands whose exchange outside the section missed, and found that word.
pub fn outside(mode: Mode, found: u64) -> ReleaseAt
    ensures { result ≡ outside mode found }
{
    match mode {
        Mode::Excl => ReleaseAt::ComesTo,
        Mode::Shared => by_word(found),
    }
}

// Where a release stands that saw that word there.
fn by_word(seen: u64) -> ReleaseAt
    ensures { result ≡ by_word seen }
{
    if lock_words::is_drop(seen) {
        ReleaseAt::Drops(seen)
    } else {
        ReleaseAt::ComesTo
    }
}
