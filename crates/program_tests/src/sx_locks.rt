//! The calls of sx locks on a floor: two threads share a lock, and a try tells by which word it found the lock held.
ghost use Rattle.std.specs.Prelude.{◌≡◌, ◌≤◌, []};
ghost use Rattle.lock_floor.specs.Passes.{IsReady};
ghost use Rattle.sx_lock.specs.SxLocks.{IsSxLock};

use crate::floors::{Calls, S, on_floor};
use lock_floor::{Floor, Pass};
use std::sync::Wait;
use std::test::Fail;
use sx_lock::{slock, try_slock, try_xlock, unlock};

#[test]
fn two_threads_share_a_lock(rt: HostRuntime) -> Result<(), Fail> {
    assert!(rt; on_floor(&rt, rt.alloc(), &Sharing::Both)?);
    Ok(())
}

#[test]
fn a_try_tells_how_many_share_the_lock(rt: HostRuntime) -> Result<(), Fail> {
    assert!(rt; on_floor(&rt, rt.alloc(), &Sharing::One)?);
    Ok(())
}

// How many of two threads share the lock.
enum Sharing {
    Both,
    One,
}

impl Calls for Sharing {
    fn make<R: Wait>(&self, rt: &R, floor: &Floor, passes: &mut [Pass]) -> bool {
        let [first, second, ..] = passes else {
            return false;
        };
        match self {
            Sharing::Both => both_share(rt, floor, first, second),
            Sharing::One => one_shares(rt, floor, first, second),
        }
    }
}

// Whether the second thread shares the lock with the first one. It releases it.
fn both_share<R: Wait>(rt: &R, floor: &Floor, first: &mut Pass, second: &mut Pass) -> bool
    requires s { IsSxLock floor.now.description 2 }
    requires one_chain { floor.now.description.chains ≡ 1 }
    requires first { IsReady floor.now first.old × (first.old.view.share.held ≡ [])
        × (1003 ≤ first.old.view.spare) }
    requires second { IsReady floor.now second.old × (second.old.view.share.held ≡ [])
        × (1003 ≤ second.old.view.spare) }
{
    if slock(floor, rt, first, S).is_err() {
        return false;
    }
    if try_slock(floor, rt, second, S).is_err() {
        return false;
    }
    unlock(floor, rt, second, S);
    true
}

// Whether a try tells the second thread that one shares the lock: the word of a lock that threads share has their
// number from bit 3 on.
fn one_shares<R: Wait>(rt: &R, floor: &Floor, first: &mut Pass, second: &mut Pass) -> bool
    requires s { IsSxLock floor.now.description 2 }
    requires one_chain { floor.now.description.chains ≡ 1 }
    requires first { IsReady floor.now first.old × (first.old.view.share.held ≡ [])
        × (1003 ≤ first.old.view.spare) }
    requires second { IsReady floor.now second.old × (second.old.view.share.held ≡ [])
        × (1003 ≤ second.old.view.spare) }
{
    if slock(floor, rt, first, S).is_err() {
        return false;
    }
    match try_xlock(floor, rt, second, S) {
        Ok(()) => false,
        Err(shared) => shared.seen == 8,
    }
}
