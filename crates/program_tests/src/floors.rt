//! A floor that is made for no script: two mutexes, an sx lock, and three threads; and what is called on it.
ghost use Rattle.std.specs.Prelude.{◌≡◌, ℕ, ◌<◌, length, IfOk};
ghost use Rattle.adaptive_mutex.specs.Mutexes.{IsMutex};
ghost use Rattle.floor_table.specs.Descriptions.{room_for, IsSized};
ghost use Rattle.sx_lock.specs.SxLocks.{IsSxLock};

use floor_table::{Description, LockPart, ThreadPart};
use lock_floor::{Floor, Pass};
use lock_model::{ClassNo, Kind, LockNo, Prio, Sequence};
use std::alloc::{AllocError, Global};
use std::sync::Wait;

pub(crate) const M: LockNo = LockNo(0);

pub(crate) const N: LockNo = LockNo(1);

pub(crate) const S: LockNo = LockNo(2);

/// The priorities of the three threads, each better than the one before.
pub(crate) const LOW: Prio = Prio(200);

const MEDIUM: Prio = Prio(100);

pub(crate) const HIGH: Prio = Prio(50);

/// What two threads call on such a floor, one behind another.
pub(crate) trait Calls {
    ghost use Rattle.std.specs.Prelude.{◌≡◌, ℕ, ◌<◌, ◌≤◌, [], length, slice_index_or};
    ghost use Rattle.adaptive_mutex.specs.Mutexes.{IsMutex};
    ghost use Rattle.lock_floor.specs.Passes.{IsReady};
    ghost use Rattle.sx_lock.specs.SxLocks.{IsSxLock};

    /// Makes the calls with the passes of the threads, which hold nothing yet, and tells whether each gave what it
    /// should.
    fn make<R: Wait>(&self, rt: &R, floor: &Floor, passes: &mut [Pass]) -> bool
        requires m { IsMutex floor.now.description 0 }
        requires s { IsSxLock floor.now.description 2 }
        requires one_chain { floor.now.description.chains ≡ 1 }
        requires each { (t : ℕ) (d : _) → t < length passes.old
            → IsReady floor.now (slice_index_or passes.old t d)
            × ((slice_index_or passes.old t d).view.share.held ≡ [])
            × (1003 ≤ (slice_index_or passes.old t d).view.spare) };
}

/// Makes calls on a floor of their own.
pub(crate) fn on_floor<R: Wait, C: Calls>(
    rt: &R,
    alloc: Global,
    calls: &C,
) -> Result<bool, AllocError> {
    let description = description(alloc)?;
    let (floor, _keeper, mut passes) = Floor::of_description(alloc, description)?;
    Ok(calls.make(rt, &floor, passes.as_mut_slice()))
}

/// Two mutexes and an sx lock, and three threads with room for 1,003 entries each.
pub(crate) fn description(alloc: Global) -> Result<Description, AllocError>
    ensures sized { IfOk result IsSized }
    ensures m { IfOk result (λ floor. IsMutex floor 0) }
    ensures n { IfOk result (λ floor. IsMutex floor 1) }
    ensures s { IfOk result (λ floor. IsSxLock floor 2) }
    ensures one_chain { IfOk result (λ floor. floor.chains ≡ 1) }
    ensures threads { IfOk result (λ floor. length floor.threads ≡ 3) }
    ensures room { IfOk result (λ floor. (t : ℕ) → t < 3 → room_for floor t ≡ 1003) }
{
    let low = ThreadPart {
        base: LOW,
        room: 1_003,
    };
    let medium = ThreadPart {
        base: MEDIUM,
        room: 1_003,
    };
    let high = ThreadPart {
        base: HIGH,
        room: 1_003,
    };
    let m = LockPart {
        kind: Kind::Mtx,
        class: ClassNo(0),
    };
    let n = LockPart {
        kind: Kind::Mtx,
        class: ClassNo(1),
    };
    let s = LockPart {
        kind: Kind::Sx,
        class: ClassNo(2),
    };
    Ok(Description {
        threads: Sequence::from_vec(vec![in alloc; low, medium, high]?),
        locks: Sequence::from_vec(vec![in alloc; m, n, s]?),
        chans: Sequence::from_vec(Vec::new(alloc)),
        keys: Sequence::from_vec(Vec::new(alloc)),
        chains: 1,
    })
}
