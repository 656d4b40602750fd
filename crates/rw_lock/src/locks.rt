//! The calls of reader-writer locks, as `rw_rlock`, `rw_wlock`, `rw_try_rlock`, `rw_try_wlock` and `rw_unlock` of
//! FreeBSD's rwlock(9).
ghost use Rattle.std.specs.Prelude.{◌≡◌, ◌++◌, [], ◌∷◌, IsOk, IfOk, IfErr};
ghost use Rattle.lock_model.specs.Holds.{Holds};
ghost use Rattle.lock_model.specs.Operations.{hold_in, without_lock};
ghost use Rattle.lock_model.specs.declared.event.Event.TheVariants as event;
ghost use Rattle.lock_model.specs.declared.plan.Mode.{Mode as InMode};
ghost use Rattle.lock_model.specs.declared.plan.Mode.TheVariants.{Excl, Shared};
ghost use Rattle.floor_table.specs.Steps.{MakesEach};
ghost use Rattle.lock_floor.specs.Passes.{IsOf, IsReady, MakesEntry};
ghost use Rattle.lock_calls.specs.Releases.{HasBegunRelease};
ghost use Rattle.lock_calls.specs.Steps.{Locks, Release, IsReleaseIn, as_taken, unlocks};
ghost use Rattle.lock_calls.specs.Takes.{HasBegunTake, IsRefused};
ghost use Rattle.lock_calls.specs.Tries.{GainsAndNotes, WasBusyFor, as_tried};
ghost use Rattle.rw_lock.specs.RwLocks.{MayAcquire, MayRelease};

use lock_calls::{Next, begin_release, begin_take, release_held, take, try_take};
use lock_floor::{Floor, Pass};
use lock_model::{Busy, LockNo, Mode, Reversal};
use std::sync::Wait;

/// Takes a reader-writer lock for reading: others may read under it as well. Where the thread holds nothing it makes an
/// exchange first, and one more where the word that it found admits a reader. Then it has the lock's order checked
/// behind the locks that the thread holds, and looks and tries in a round, at most 100 times in all. Then it takes the
/// lock's chain, and gains the lock there, or stands on its turnstile, sleeps until it is woken, and begins another
/// round.
/// `Err` comes exactly where, by the class graph as this call's check found it, the class of a lock that the thread
/// holds forbids that of the lock: it has the first such class in order of acquisition, the refusal is noted, and
/// nothing else of the thread is new. A thread that holds nothing is never refused. The floor has one chain of
/// turnstiles.
pub fn read<R: Wait>(floor: &Floor, rt: &R, pass: &mut Pass, l: LockNo) -> Result<(), Reversal>
    requires ready { IsReady floor.now pass.old }
    requires may { MayAcquire floor.now.description l.0 pass.old.view }
    requires one_chain { floor.now.description.chains ≡ 1 }
    ensures ready { IsReady floor.now pass.new }
    ensures entry { IfOk result (λ _. MakesEntry floor.now.description (event.Locked l Shared)
        (pass.old.view.share.held ++ as_taken l Shared ∷ []) pass.old.view pass.new.view) }
    ensures steps { IfOk result
        (λ _. Locks floor.now.description l Shared pass.old.view pass.new.view) }
    ensures reversed { IfErr result
        (λ r. IsRefused floor.now.description l r pass.old.view pass.new.view) }
    ensures bare { pass.old.view.share.held ≡ [] → IsOk result }
{
    take(floor, rt, pass, l, Mode::Shared)
}

/// Takes a reader-writer lock for writing: nobody else holds it then. It goes as `read`; where the lock is free and
/// others wait for it, the thread goes to the lock's chain at once, and owns the lock's turnstile from the step on by
/// which it gains the lock.
pub fn write<R: Wait>(floor: &Floor, rt: &R, pass: &mut Pass, l: LockNo) -> Result<(), Reversal>
    requires ready { IsReady floor.now pass.old }
    requires may { MayAcquire floor.now.description l.0 pass.old.view }
    requires one_chain { floor.now.description.chains ≡ 1 }
    ensures ready { IsReady floor.now pass.new }
    ensures entry { IfOk result (λ _. MakesEntry floor.now.description (event.Locked l Excl)
        (pass.old.view.share.held ++ as_taken l Excl ∷ []) pass.old.view pass.new.view) }
    ensures steps { IfOk result
        (λ _. Locks floor.now.description l Excl pass.old.view pass.new.view) }
    ensures reversed { IfErr result
        (λ r. IsRefused floor.now.description l r pass.old.view pass.new.view) }
    ensures bare { pass.old.view.share.held ≡ [] → IsOk result }
{
    take(floor, rt, pass, l, Mode::Excl)
}

/// Takes a reader-writer lock for reading, if its word admits a reader. Where the word changed meanwhile and admits one
/// still, that is tried again. `Busy` comes only where a look of this call, its last one, saw the word of a held lock
/// that admits no reader, and has that word: somebody writes, or others read and a writer waits. The call never sleeps,
/// and no order of locks is checked.
pub fn try_read<R: Wait>(floor: &Floor, rt: &R, pass: &mut Pass, l: LockNo) -> Result<(), Busy>
    requires ready { IsReady floor.now pass.old }
    requires may { MayAcquire floor.now.description l.0 pass.old.view }
    ensures ready { IsReady floor.now pass.new }
    ensures gained { IfOk result (λ _. MakesEntry floor.now.description (event.Tried l Shared)
        (pass.old.view.share.held ++ as_tried l Shared ∷ []) pass.old.view pass.new.view) }
    ensures steps { IfOk result
        (λ _. GainsAndNotes floor.now.description l Shared pass.old.view pass.new.view) }
    ensures busy { IfErr result
        (λ b. WasBusyFor floor.now.description l Shared b.seen pass.old.view pass.new.view) }
    ensures noted { IfErr result (λ b. MakesEntry floor.now.description (event.Busy l b.seen)
        pass.old.view.share.held pass.old.view pass.new.view) }
{
    try_take(floor, rt, pass, l, Mode::Shared)
}

/// Takes a reader-writer lock for writing, if it is free. Where the word changed meanwhile and is that of a free lock
/// still, that is tried again; and where others wait for the free lock it is claimed under its chain, and the thread
/// owns the lock's turnstile from that step on. `Busy` comes only where a look of this call, its last one, saw the word
/// of a held lock, and has that word. The call never sleeps, and no order of locks is checked.
pub fn try_write<R: Wait>(floor: &Floor, rt: &R, pass: &mut Pass, l: LockNo) -> Result<(), Busy>
    requires ready { IsReady floor.now pass.old }
    requires may { MayAcquire floor.now.description l.0 pass.old.view }
    ensures ready { IsReady floor.now pass.new }
    ensures gained { IfOk result (λ _. MakesEntry floor.now.description (event.Tried l Excl)
        (pass.old.view.share.held ++ as_tried l Excl ∷ []) pass.old.view pass.new.view) }
    ensures steps { IfOk result
        (λ _. GainsAndNotes floor.now.description l Excl pass.old.view pass.new.view) }
    ensures busy { IfErr result
        (λ b. WasBusyFor floor.now.description l Excl b.seen pass.old.view pass.new.view) }
    ensures noted { IfErr result (λ b. MakesEntry floor.now.description (event.Busy l b.seen)
        pass.old.view.share.held pass.old.view pass.new.view) }
{
    try_take(floor, rt, pass, l, Mode::Excl)
}

/// Begins to take a reader-writer lock for reading, and never waits: `Done` comes where the first exchange gained it,
/// which a thread makes that holds nothing, or a second one, where the word that it found admits a reader. Else the
/// take is under way, and is gone on with by `go_on_taking`.
pub fn begin_read(floor: &Floor, pass: &mut Pass, l: LockNo) -> Next
    requires ready { IsReady floor.now pass.old }
    requires may { MayAcquire floor.now.description l.0 pass.old.view }
    ensures own { IsOf floor.now pass.new }
    ensures begun { HasBegunTake floor.now.description l Shared result pass.old pass.new }
{
    begin_take(floor, pass, l, Mode::Shared)
}

/// Begins to take a reader-writer lock for writing. It goes as `begin_read`.
pub fn begin_write(floor: &Floor, pass: &mut Pass, l: LockNo) -> Next
    requires ready { IsReady floor.now pass.old }
    requires may { MayAcquire floor.now.description l.0 pass.old.view }
    ensures own { IsOf floor.now pass.new }
    ensures begun { HasBegunTake floor.now.description l Excl result pass.old pass.new }
{
    begin_take(floor, pass, l, Mode::Excl)
}

/// Releases a reader-writer lock in the mode in which the thread holds it, and wakes those who wait for it where it was
/// the last holder: the writers, or else the readers. A reader drops the lock without its chain while another reader
/// stays or nobody waits.
pub fn unlock<R: Wait>(floor: &Floor, rt: &R, pass: &mut Pass, l: LockNo)
    requires ready { IsReady floor.now pass.old }
    requires may { MayRelease floor.now.description l.0 pass.old.view }
    ensures ready { IsReady floor.now pass.new }
    ensures entry { (mode : InMode) → hold_in pass.old.view.share.held l.0 ≡ Holds mode
        → MakesEntry floor.now.description (event.Unlocked l mode)
        (without_lock l.0 pass.old.view.share.held) pass.old.view pass.new.view }
    ensures steps { (mode : InMode) → hold_in pass.old.view.share.held l.0 ≡ Holds mode
        → (how : Release) × IsReleaseIn mode how × MakesEach floor.now.description
        (unlocks floor.now.description pass.old.view.thread l mode how)
        pass.old.view pass.new.view }
{
    release_held(floor, rt, pass, l);
}

/// Begins to release a reader-writer lock in the mode in which the thread holds it, and never waits: `Done` comes where
/// the first exchange put it down. Else the release is under way, and is gone on with by `go_on_releasing`.
pub fn begin_unlock(floor: &Floor, pass: &mut Pass, l: LockNo) -> Next
    requires ready { IsReady floor.now pass.old }
    requires may { MayRelease floor.now.description l.0 pass.old.view }
    ensures own { IsOf floor.now pass.new }
    ensures begun { (mode : InMode) → hold_in pass.old.view.share.held l.0 ≡ Holds mode
        → HasBegunRelease floor.now.description l mode result pass.old pass.new }
{
    match pass.mode(l) {
        Some(mode) => begin_release(floor, pass, l, mode),
        None => unreachable!(),
    }
}
