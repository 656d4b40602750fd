//! A release behind the section of the lock's chain, as `turnstile_unpend` of FreeBSD's subr_turnstile.c: it wakes
//! those whom it took off the lock's turnstile. It never waits.
ghost use Rattle.lock_floor.specs.Marks.{CanMark};
ghost use Rattle.lock_floor.specs.Passes.{IsOf};
ghost use Rattle.lock_calls.specs.Releases.{WakesNext};

use crate::answers::ReleaseNext;
use lock_floor::{Floor, Pass, ReleaseAt};

/// Wakes the first of those who are left, if its record is at home: then that thread's sleep is still to be ended.
/// `Done` comes exactly where nobody is left.
pub fn wake_first(floor: &Floor, pass: &mut Pass) -> ReleaseNext
    requires own { IsOf floor.now pass.old }
    requires may { CanMark pass.old.view }
    ensures own { IsOf floor.now pass.new }
    ensures wakes { WakesNext floor.now.description result pass.old.view pass.new.view }
{
    match pass.first_marked() {
        None => ReleaseNext::Done,
        Some(t) => {
            if floor.try_wake(pass, t) {
                ReleaseNext::Wake(t)
            } else {
                ReleaseNext::At(ReleaseAt::Wakes)
            }
        }
    }
}
