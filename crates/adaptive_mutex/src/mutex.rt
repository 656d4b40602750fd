//! The calls of mutexes.
ghost use Rattle.std.specs.Prelude.{◌≡◌, ◌++◌, [], ◌∷◌, true, false, IsOk, IfOk, IfErr};
ghost use Rattle.lock_model.specs.Operations.{without_lock};
ghost use Rattle.lock_model.specs.declared.event.Event.TheVariants as event;
ghost use Rattle.lock_model.specs.declared.plan.Mode.TheVariants.{Excl};
ghost use Rattle.floor_table.specs.Steps.{MakesEach};
ghost use Rattle.lock_floor.specs.Passes.{IsOf, IsReady, MakesEntry};
ghost use Rattle.lock_calls.specs.Releases.{HasBegunRelease};
ghost use Rattle.lock_calls.specs.Steps.{Locks, Release, IsReleaseIn, unlocks};
ghost use Rattle.lock_calls.specs.Takes.{HasBegunTake, IsRefused};
ghost use Rattle.adaptive_mutex.specs.Mutexes.{MayAcquire, MayRelease, as_held, tries, WasBusy};

use lock_calls::{Next, begin_release, begin_take, release, take};
use lock_floor::{Floor, Pass};
use lock_model::{Busy, Event, Held, LockNo, Mode, Reversal};
use std::sync::Wait;

// The word of a free mutex.
const FREE: u64 = 0;

/// Takes a mutex. Where the thread holds nothing it makes one exchange first. Then it has the mutex's order checked
/// behind the locks that the thread holds, and looks and tries in a round, at most 100 times in all; behind a look it
/// looks again only where the mutex's owner isn't queued. Then it takes the lock's chain, and gains the mutex there, or
/// stands on its turnstile, sleeps until it is woken, and begins another round. `Err` comes exactly where, by the class
/// graph as this call's check found it, the class of a lock that the thread holds forbids that of the mutex: it has the
/// first such class in order of acquisition, the refusal is noted, and nothing else of the thread is new. A thread that
/// holds nothing is never refused. The floor has one chain of turnstiles.
pub fn lock<R: Wait>(floor: &Floor, rt: &R, pass: &mut Pass, l: LockNo) -> Result<(), Reversal>
    requires ready { IsReady floor.now pass.old }
    requires may { MayAcquire floor.now.description l.0 pass.old.view }
    requires one_chain { floor.now.description.chains ≡ 1 }
    ensures ready { IsReady floor.now pass.new }
    ensures entry { IfOk result (λ _. MakesEntry floor.now.description (event.Locked l Excl)
        (pass.old.view.share.held ++ as_held l false ∷ []) pass.old.view pass.new.view) }
    ensures steps { IfOk result
        (λ _. Locks floor.now.description l Excl pass.old.view pass.new.view) }
    ensures reversed { IfErr result
        (λ r. IsRefused floor.now.description l r pass.old.view pass.new.view) }
    ensures bare { pass.old.view.share.held ≡ [] → IsOk result }
{
    take(floor, rt, pass, l, Mode::Excl)
}

/// Begins to take a mutex, and never waits: `Done` comes where the first exchange gained it, which a thread makes that
/// holds nothing. Else the take is under way, and is gone on with by `go_on_taking`.
pub fn begin_lock(floor: &Floor, pass: &mut Pass, l: LockNo) -> Next
    requires ready { IsReady floor.now pass.old }
    requires may { MayAcquire floor.now.description l.0 pass.old.view }
    ensures own { IsOf floor.now pass.new }
    ensures begun { HasBegunTake floor.now.description l Excl result pass.old pass.new }
{
    begin_take(floor, pass, l, Mode::Excl)
}

/// Takes a mutex, if it is free. `Busy` comes only where this call's own exchange saw the word of a held mutex, and has
/// that word. It never waits.
pub fn try_lock(floor: &Floor, pass: &mut Pass, l: LockNo) -> Result<(), Busy>
    requires ready { IsReady floor.now pass.old }
    requires may { MayAcquire floor.now.description l.0 pass.old.view }
    ensures ready { IsReady floor.now pass.new }
    ensures gained { IfOk result (λ _. MakesEntry floor.now.description (event.Tried l Excl)
        (pass.old.view.share.held ++ as_held l true ∷ []) pass.old.view pass.new.view) }
    ensures steps { IfOk result (λ _. MakesEach floor.now.description (tries pass.old.view.thread l)
        pass.old.view pass.new.view) }
    ensures busy { IfErr result (λ b. WasBusy floor.now.description pass.old.view.thread l b.seen
        pass.old.view pass.new.view) }
    ensures noted { IfErr result (λ b. MakesEntry floor.now.description (event.Busy l b.seen)
        pass.old.view.share.held pass.old.view pass.new.view) }
{
    let hold = Held {
        l,
        mode: Mode::Excl,
        by_try: true,
    };
    match floor.gain(pass, hold, FREE) {
        Ok(()) => {
            floor.stamp(
                pass,
                Event::Tried {
                    l,
                    mode: Mode::Excl,
                },
            );
            Ok(())
        }
        Err(seen) => {
            floor.stamp(pass, Event::Busy { l, seen });
            Err(Busy { seen })
        }
    }
}

/// Releases a mutex, and wakes those who wait for it.
pub fn unlock<R: Wait>(floor: &Floor, rt: &R, pass: &mut Pass, l: LockNo)
    requires ready { IsReady floor.now pass.old }
    requires may { MayRelease floor.now.description l.0 pass.old.view }
    ensures ready { IsReady floor.now pass.new }
    ensures entry { MakesEntry floor.now.description (event.Unlocked l Excl)
        (without_lock l.0 pass.old.view.share.held) pass.old.view pass.new.view }
    ensures steps { (how : Release) × IsReleaseIn Excl how × MakesEach floor.now.description
        (unlocks floor.now.description pass.old.view.thread l Excl how)
        pass.old.view pass.new.view }
{
    release(floor, rt, pass, l, Mode::Excl);
}

/// Begins to release a mutex, and never waits: `Done` comes where the first exchange put it down. Else the release is
/// under way, and is gone on with by `go_on_releasing`.
pub fn begin_unlock(floor: &Floor, pass: &mut Pass, l: LockNo) -> Next
    requires ready { IsReady floor.now pass.old }
    requires may { MayRelease floor.now.description l.0 pass.old.view }
    ensures own { IsOf floor.now pass.new }
    ensures begun { HasBegunRelease floor.now.description l Excl result pass.old pass.new }
{
    begin_release(floor, pass, l, Mode::Excl)
}
