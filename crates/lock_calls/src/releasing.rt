//! A release of a lock, part by part, as `__mtx_unlock_flags` and `__mtx_unlock_sleep` of FreeBSD's kern_mutex.c, and
//! `__rw_runlock_hard` of its kern_rwlock.c do it: it is noted first. No part waits.
ghost use Rattle.std.specs.Prelude.{◌≡◌, ◌<◌, length};
ghost use Rattle.lock_model.specs.declared.numbers.LockNo.{LockNo as Lock};
ghost use Rattle.lock_model.specs.declared.plan.Mode.{Mode as InMode};
ghost use Rattle.lock_floor.specs.declared.calls.Call.TheVariants as calls;
ghost use Rattle.lock_floor.specs.declared.calls.ReleaseAt.{ReleaseAt as Place};
ghost use Rattle.lock_floor.specs.Passes.{IsOf, IsReady};
ghost use Rattle.lock_calls.specs.Releases.{HasBegunRelease, IsInRelease, GoesOnReleasing, IsUnderRelease, IsReleasing, ReleasesPart};
ghost use Rattle.lock_calls.specs.Steps.{MayRelease};

use crate::answers::{Next, ReleaseNext};
use crate::dropping::{drop_outside, outside};
use crate::freeing::{come_in, come_to, let_go};
use crate::spinning::FREE;
use crate::waking::wake_first;
use lock_floor::{Call, Floor, Pass, ReleaseAt};
use lock_model::{Event, LockNo, Mode};

/// Begins a release of a lock that is held in a mode: it is noted, and makes one exchange from the word that shows no
/// waiters. `Done` comes where that put the lock down, and `Again` only where another thread was faster.
pub fn begin_release(floor: &Floor, pass: &mut Pass, l: LockNo, mode: Mode) -> Next
    requires ready { IsReady floor.now pass.old }
    requires may { MayRelease floor.now.description l.0 mode pass.old.view }
    ensures own { IsOf floor.now pass.new }
    ensures begun { HasBegunRelease floor.now.description l mode result pass.old pass.new }
{
    floor.stamp(pass, Event::Unlocked { l, mode });
    let own = lock_words::gained(FREE, pass.thread(), mode);
    match floor.put_down(pass, l, mode, own) {
        Ok(()) => {
            pass.set_call(Call::None);
            Next::Done
        }
        Err(found) => {
            stand(pass, l, mode, outside(mode, found));
            Next::Again
        }
    }
}

/// Goes on with the release that the pass is in the middle of. A lock that is held shared it drops where the word that
/// it found allows that: then `Done` comes. Else it takes the lock's chain and its own record, lets the lock go there,
/// takes those who wait off its queue, and wakes them one by one: `Wake` tells whose sleep is to be ended. `Done`
/// comes then exactly where nobody is left to be woken.
pub fn go_on_releasing(floor: &Floor, pass: &mut Pass) -> Next
    requires own { IsOf floor.now pass.old }
    requires under_way { IsInRelease floor.now.description pass.old }
    ensures own { IsOf floor.now pass.new }
    ensures went { (l : Lock) (mode : InMode) (at : Place)
        → pass.old.call ≡ calls.Release l mode at
        → GoesOnReleasing floor.now.description l mode at result pass.old pass.new }
{
    match pass.call() {
        Call::Release { l, mode, at } => go_on(floor, pass, l, mode, at),
        Call::None | Call::Take { .. } | Call::Try { .. } => unreachable!(),
    }
}

// Goes on with a release of that lock, which stands there.
fn go_on(floor: &Floor, pass: &mut Pass, l: LockNo, mode: Mode, at: ReleaseAt) -> Next
    requires own { IsOf floor.now pass.old }
    requires under_way { IsUnderRelease floor.now.description l mode at pass.old.view }
    ensures own { IsOf floor.now pass.new }
    ensures went { GoesOnReleasing floor.now.description l mode at result pass.old pass.new }
{
    match release_on(floor, pass, l, mode, at) {
        ReleaseNext::Done => {
            pass.set_call(Call::None);
            Next::Done
        }
        ReleaseNext::At(to) => {
            stand(pass, l, mode, to);
            Next::Again
        }
        ReleaseNext::Wake(t) => {
            stand(pass, l, mode, ReleaseAt::Wakes);
            Next::Wake(t)
        }
    }
}

/// Makes one part of a release from there, whether it was noted or is that of a wait. Answers where it stands then.
pub fn release_on(
    floor: &Floor,
    pass: &mut Pass,
    l: LockNo,
    mode: Mode,
    at: ReleaseAt,
) -> ReleaseNext
    requires own { IsOf floor.now pass.old }
    requires lock { l.0 < length floor.now.description.locks }
    requires there { IsReleasing floor.now.description l.0 mode at pass.old.view }
    ensures own { IsOf floor.now pass.new }
    ensures part { ReleasesPart floor.now.description l mode at result
        pass.old.view pass.new.view }
{
    match at {
        ReleaseAt::Drops(seen) => match drop_outside(floor, pass, l, mode, seen) {
            Some(to) => ReleaseNext::At(to),
            None => ReleaseNext::Done,
        },
        ReleaseAt::ComesTo => ReleaseNext::At(come_to(floor, pass, l, mode)),
        ReleaseAt::ComesIn => ReleaseNext::At(come_in(floor, pass, l, mode)),
        ReleaseAt::Frees(seen) => ReleaseNext::At(let_go(floor, pass, l, mode, seen)),
        ReleaseAt::Wakes => wake_first(floor, pass),
    }
}

// The release of the lock stands there.
fn stand(pass: &mut Pass, l: LockNo, mode: Mode, at: ReleaseAt)
    ensures { pass.new ≡ record pass.old { call = calls.Release l mode at } }
{
    pass.set_call(Call::Release { l, mode, at });
}
