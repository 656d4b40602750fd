//! A take whose thread stands on the lock's queue, as `propagate_priority` and the end of `turnstile_wait` of FreeBSD's
//! subr_turnstile.c, and `sleepq_wait` of its subr_sleepqueue.c: on a turnstile it makes the hops of its walk; then it
//! counts itself out, halts others where that left nobody awake, and runs again where it was woken. It never waits.
ghost use Rattle.std.specs.Prelude.{◌≡◌, ◌≢◌, true, IfOk, IfErr};
ghost use Rattle.lock_state.specs.Steps.LockWords.{is_taking_back};
ghost use Rattle.prio_lending.specs.declared.walk.Walk.TheVariants as walk;
ghost use Rattle.lock_floor.specs.declared.calls.TakeAt.TheVariants.{Walks, Hops, Halts, Sleeps};
ghost use Rattle.lock_floor.specs.Passes.{IsOf};
ghost use Rattle.lock_calls.specs.Takes.{IsUnderTake, IsUnderAcquiring, TakesOn, TakesPart, IsHalted};

use crate::answers::TakeNext;
use crate::spinning::LOOKS;
use halting::go_on_halting;
use lock_floor::{Count, Floor, HaltAt, Pass, TakeAt};
use lock_model::{Event, Halted, LockNo, Mode};
use prio_lending::Walk;

/// Goes on where the thread stands on the lock's queue, and its walk is there: takes the chain of turnstiles for the
/// next hop, if it is at home; or where the walk has ended, it counts itself out. Answers where the take stands then.
pub fn walk_on(floor: &Floor, pass: &mut Pass, l: LockNo, mode: Mode, there: Walk) -> TakeAt
    requires own { IsOf floor.now pass.old }
    requires under_way { IsUnderAcquiring floor.now.description l mode (Walks there) pass.old.view }
    ensures own { IsOf floor.now pass.new }
    ensures on { TakesOn floor.now.description l mode (Walks there) result
        pass.old.view pass.new.view }
{
    match there {
        Walk::None => count_out(floor, pass, l, mode),
        Walk::AtLock(_) | Walk::AtThread(_) => begin_hop(floor, pass, l, mode, there),
    }
}

// Where the walk has ended: whose counting out left nobody awake halts others.
fn count_out(floor: &Floor, pass: &mut Pass, l: LockNo, mode: Mode) -> TakeAt
    requires own { IsOf floor.now pass.old }
    requires under_way { IsUnderAcquiring floor.now.description l mode (Walks walk.None)
        pass.old.view }
    ensures own { IsOf floor.now pass.new }
    ensures on { TakesOn floor.now.description l mode (Walks walk.None) result
        pass.old.view pass.new.view }
{
    if floor.count(pass, Count::Out) == 1 {
        TakeAt::Halts(HaltAt::Finds)
    } else {
        TakeAt::Sleeps
    }
}

/// Goes on where the thread halts others, until that is done. Answers where the take stands then, and whose sleep is to
/// be ended.
pub fn halt_on(floor: &Floor, pass: &mut Pass, l: LockNo, mode: Mode, there: HaltAt) -> TakeNext
    requires own { IsOf floor.now pass.old }
    requires under_way { IsUnderAcquiring floor.now.description l mode (Halts there) pass.old.view }
    ensures own { IsOf floor.now pass.new }
    ensures on { TakesPart floor.now.description l mode (Halts there) result
        pass.old.view pass.new.view }
{
    match go_on_halting(floor, pass, there) {
        halting::Next::Done => TakeNext::At(TakeAt::Sleeps),
        halting::Next::Again(to) => TakeNext::At(TakeAt::Halts(to)),
        halting::Next::Wake(t, to) => TakeNext::Wake(t, TakeAt::Halts(to)),
    }
}

/// Goes on where the thread has counted itself out: it runs again, if it was woken. Answers where the take stands then.
/// `Err` comes where an abort ended its sleep, of an sx lock: that is noted.
pub fn wake_up(floor: &Floor, pass: &mut Pass, l: LockNo, mode: Mode) -> Result<TakeAt, Halted>
    requires own { IsOf floor.now pass.old }
    requires under_way { IsUnderTake floor.now.description l mode Sleeps pass.old.view }
    ensures own { IsOf floor.now pass.new }
    ensures on { IfOk result (λ to. TakesOn floor.now.description l mode Sleeps to
        pass.old.view pass.new.view) }
    ensures halted { IfErr result (λ _. IsHalted floor.now.description l Sleeps
        pass.old.view pass.new.view) }
{
    match floor.try_resume(pass) {
        Some(aborted) => {
            if aborted {
                floor.stamp(pass, Event::HaltedLock { l });
                Err(Halted)
            } else {
                Ok(TakeAt::Spins(LOOKS))
            }
        }
        None => Ok(TakeAt::Sleeps),
    }
}

/// The same within a wait, which takes its lock back: whatever ended its sleep, it runs again.
pub fn wake_back(floor: &Floor, pass: &mut Pass, l: LockNo, mode: Mode) -> TakeAt
    requires own { IsOf floor.now pass.old }
    requires back { is_taking_back pass.old.view.share.log ≡ true }
    requires under_way { IsUnderAcquiring floor.now.description l mode Sleeps pass.old.view }
    ensures own { IsOf floor.now pass.new }
    ensures on { TakesOn floor.now.description l mode Sleeps result pass.old.view pass.new.view }
{
    match floor.try_resume(pass) {
        Some(_) => TakeAt::Spins(LOOKS),
        None => TakeAt::Sleeps,
    }
}

// Where it has not.
fn begin_hop(floor: &Floor, pass: &mut Pass, l: LockNo, mode: Mode, there: Walk) -> TakeAt
    requires own { IsOf floor.now pass.old }
    requires under_way { IsUnderAcquiring floor.now.description l mode (Walks there) pass.old.view }
    requires not_ended { there ≢ walk.None }
    ensures own { IsOf floor.now pass.new }
    ensures on { TakesOn floor.now.description l mode (Walks there) result
        pass.old.view pass.new.view }
{
    if floor.try_take_turnstiles(pass) {
        TakeAt::Hops(there)
    } else {
        TakeAt::Walks(there)
    }
}

/// Makes the rest of a hop, if the record that it needs is at home. Answers where the take stands then.
pub fn hop_on(floor: &Floor, pass: &mut Pass, l: LockNo, mode: Mode, there: Walk) -> TakeAt
    requires own { IsOf floor.now pass.old }
    requires under_way { IsUnderAcquiring floor.now.description l mode (Hops there) pass.old.view }
    ensures own { IsOf floor.now pass.new }
    ensures on { TakesOn floor.now.description l mode (Hops there) result
        pass.old.view pass.new.view }
{
    match floor.try_hop(pass, there) {
        Some(to) => TakeAt::Walks(to),
        None => TakeAt::Hops(there),
    }
}
