//! A take of a lock, part by part, as `__mtx_lock_flags` and `__mtx_lock_sleep` of FreeBSD's kern_mutex.c and
//! `turnstile_wait` of its subr_turnstile.c do it, and of an sx lock `_sx_xlock_hard` and `_sx_slock_hard` of its
//! kern_sx.c and `sleepq_wait` of its subr_sleepqueue.c. No part waits.
ghost use Rattle.std.specs.Prelude.{◌≡◌, ◌≢◌, true, IfOk, IfErr};
ghost use Rattle.lock_model.specs.declared.numbers.LockNo.{LockNo as Lock};
ghost use Rattle.lock_model.specs.declared.plan.Mode.{Mode as InMode};
ghost use Rattle.lock_floor.specs.declared.calls.Call.TheVariants as calls;
ghost use Rattle.lock_floor.specs.declared.calls.TakeAt.{TakeAt as Place};
ghost use Rattle.lock_floor.specs.declared.calls.TakeAt.TheVariants.{Checks};
ghost use Rattle.lock_state.specs.Steps.LockWords.{is_taking_back};
ghost use Rattle.lock_floor.specs.Passes.{IsOf, IsReady};
ghost use Rattle.lock_calls.specs.Steps.{MayTake};
ghost use Rattle.lock_calls.specs.Takes.{HasBegunTake, IsInTake, GoesOnTaking, IsUnderTake, IsUnderAcquiring, IsBetween, TakesPart, IsNotTaken, next_at, stands_at};

use crate::answers::{Next, TakeNext};
use crate::blocking::{come_in, contend};
use crate::checking::check;
use crate::sleeping::{halt_on, hop_on, wake_back, wake_up, walk_on};
use crate::spinning::{begin, come, note_taken, spin};
use lock_floor::{Call, Floor, Pass, TakeAt};
use lock_model::{LockNo, Mode, Refused};

/// Begins a take of a lock in a mode. Where the thread holds nothing it makes an exchange from the free word: nothing
/// can be refused it; and where that found another word, of a lock that can be shared, which admits the mode plainly,
/// one more, from that word. `Done` comes where either gained the lock, and `Again` only where another thread was
/// faster, or the thread holds a lock: then the lock's order is to be checked. The floor has one chain of turnstiles.
pub fn begin_take(floor: &Floor, pass: &mut Pass, l: LockNo, mode: Mode) -> Next
    requires ready { IsReady floor.now pass.old }
    requires may { MayTake floor.now.description l.0 mode pass.old.view }
    ensures own { IsOf floor.now pass.new }
    ensures begun { HasBegunTake floor.now.description l mode result pass.old pass.new }
{
    if begin(floor, pass, l, mode) {
        note_taken(floor, pass, l, mode);
        pass.set_call(Call::None);
        Next::Done
    } else {
        pass.set_call(Call::Take {
            l,
            mode,
            at: TakeAt::Checks,
        });
        Next::Again
    }
}

/// Goes on with the take that the pass is in the middle of. It has the lock's order checked behind the locks that the
/// thread holds: `Reversed` comes exactly where the class of one of these forbids that of the lock by the class graph
/// as the check found it. Then it looks in its round, and tries where it sees that it can gain the lock plainly, at
/// most 100 times in all; of a mutex it looks again only where the owner isn't queued. Then it takes the lock's chain,
/// and gains the lock there, or comes to stand on its queue: on a turnstile it makes the hops of its walk, on the sleep
/// queue of an sx lock there are none. Then it counts itself out. Where that left nobody awake it halts others, part by
/// part, and `Wake` tells whose sleep is to be ended. Once it was woken it begins another round. `Sleep` comes exactly
/// where the thread has counted itself out, has nobody left to halt, and hasn't run again. `Halted` comes only of an sx
/// lock, where an abort ended this take's own sleep.
pub fn go_on_taking(floor: &Floor, pass: &mut Pass) -> Next
    requires own { IsOf floor.now pass.old }
    requires one_chain { floor.now.description.chains ≡ 1 }
    requires under_way { IsInTake floor.now.description pass.old }
    ensures own { IsOf floor.now pass.new }
    ensures went { (l : Lock) (mode : InMode) (at : Place) → pass.old.call ≡ calls.Take l mode at
        → GoesOnTaking floor.now.description l mode at result pass.old pass.new }
{
    match pass.call() {
        Call::Take { l, mode, at } => go_on(floor, pass, l, mode, at),
        Call::None | Call::Try { .. } | Call::Release { .. } => unreachable!(),
    }
}

// Goes on with a take of that lock, which stands there.
fn go_on(floor: &Floor, pass: &mut Pass, l: LockNo, mode: Mode, at: TakeAt) -> Next
    requires own { IsOf floor.now pass.old }
    requires one_chain { floor.now.description.chains ≡ 1 }
    requires under_way { IsUnderTake floor.now.description l mode at pass.old.view }
    ensures own { IsOf floor.now pass.new }
    ensures went { GoesOnTaking floor.now.description l mode at result pass.old pass.new }
{
    match take_on(floor, pass, l, mode, at) {
        Ok(TakeNext::At(to)) => {
            pass.set_call(Call::Take { l, mode, at: to });
            next_at(to)
        }
        Ok(TakeNext::Wake(t, to)) => {
            pass.set_call(Call::Take { l, mode, at: to });
            Next::Wake(t)
        }
        Ok(TakeNext::Gained) => {
            note_taken(floor, pass, l, mode);
            pass.set_call(Call::None);
            Next::Done
        }
        Err(Refused::Reversal(reversal)) => {
            pass.set_call(Call::None);
            Next::Reversed(reversal)
        }
        Err(Refused::Halted(_)) => {
            pass.set_call(Call::None);
            Next::Halted
        }
    }
}

// Makes one part of a take from there. Answers where it stands then. `Err` comes where it was refused, or was ended in
// its sleep.
fn take_on(
    floor: &Floor,
    pass: &mut Pass,
    l: LockNo,
    mode: Mode,
    at: TakeAt,
) -> Result<TakeNext, Refused>
    requires own { IsOf floor.now pass.old }
    requires one_chain { floor.now.description.chains ≡ 1 }
    requires under_way { IsUnderTake floor.now.description l mode at pass.old.view }
    ensures own { IsOf floor.now pass.new }
    ensures on { IfOk result (λ next. TakesPart floor.now.description l mode at next
        pass.old.view pass.new.view) }
    ensures refused { IfErr result
        (λ r. IsNotTaken floor.now.description l at r pass.old.view pass.new.view) }
{
    match at {
        TakeAt::Checks => match check(floor, pass, l, mode) {
            Ok(to) => Ok(stands(to)),
            Err(reversal) => Err(Refused::Reversal(reversal)),
        },
        TakeAt::Spins(_)
        | TakeAt::ComesIn
        | TakeAt::Contends(_)
        | TakeAt::Walks(_)
        | TakeAt::Hops(_)
        | TakeAt::Halts(_) => Ok(acquire_on(floor, pass, l, mode, at)),
        TakeAt::Sleeps => match wake_up(floor, pass, l, mode) {
            Ok(to) => Ok(TakeNext::At(to)),
            Err(halted) => Err(Refused::Halted(halted)),
        },
    }
}

/// Makes one part of a taking back of a lock within a wait, from there. It is a take that checks no order, makes no
/// entry, and is in a round from its begin (`Spins`): a sleep of it that an abort ends only looks again. Answers where
/// it stands then.
pub fn retake_on(floor: &Floor, pass: &mut Pass, l: LockNo, mode: Mode, at: TakeAt) -> TakeNext
    requires own { IsOf floor.now pass.old }
    requires one_chain { floor.now.description.chains ≡ 1 }
    requires back { is_taking_back pass.old.view.share.log ≡ true }
    requires checked { at ≢ Checks }
    requires under_way { IsUnderAcquiring floor.now.description l mode at pass.old.view }
    ensures own { IsOf floor.now pass.new }
    ensures on { TakesPart floor.now.description l mode at result pass.old.view pass.new.view }
{
    match at {
        TakeAt::Checks => unreachable!(),
        TakeAt::Spins(_)
        | TakeAt::ComesIn
        | TakeAt::Contends(_)
        | TakeAt::Walks(_)
        | TakeAt::Hops(_)
        | TakeAt::Halts(_) => acquire_on(floor, pass, l, mode, at),
        TakeAt::Sleeps => TakeNext::At(wake_back(floor, pass, l, mode)),
    }
}

// The parts of both between the check of the order and the sleep.
fn acquire_on(floor: &Floor, pass: &mut Pass, l: LockNo, mode: Mode, at: TakeAt) -> TakeNext
    requires own { IsOf floor.now pass.old }
    requires one_chain { floor.now.description.chains ≡ 1 }
    requires between { IsBetween at }
    requires under_way { IsUnderAcquiring floor.now.description l mode at pass.old.view }
    ensures own { IsOf floor.now pass.new }
    ensures on { TakesPart floor.now.description l mode at result pass.old.view pass.new.view }
{
    match at {
        TakeAt::Spins(left) => {
            if left == 0 {
                TakeNext::At(come(floor, pass, l, mode))
            } else {
                stands(spin(floor, pass, l, mode, left))
            }
        }
        TakeAt::ComesIn => TakeNext::At(come_in(floor, pass, l, mode)),
        TakeAt::Contends(seen) => stands(contend(floor, pass, l, mode, seen)),
        TakeAt::Walks(there) => TakeNext::At(walk_on(floor, pass, l, mode, there)),
        TakeAt::Hops(there) => TakeNext::At(hop_on(floor, pass, l, mode, there)),
        TakeAt::Halts(there) => halt_on(floor, pass, l, mode, there),
        TakeAt::Checks | TakeAt::Sleeps => unreachable!(),
    }
}

// Where a take stands behind a part that wakes nobody.
fn stands(to: Option<TakeAt>) -> TakeNext
    ensures { result ≡ stands_at to }
{
    match to {
        Some(at) => TakeNext::At(at),
        None => TakeNext::Gained,
    }
}

// What the caller is to do next, where a take stands there.
fn next_at(at: TakeAt) -> Next
    ensures { result ≡ next_at at }
{
    match at {
        TakeAt::Sleeps => Next::Sleep,
        TakeAt::Checks
        | TakeAt::Spins(_)
        | TakeAt::ComesIn
        | TakeAt::Contends(_)
        | TakeAt::Walks(_)
        | TakeAt::Hops(_)
        | TakeAt::Halts(_) => Next::Again,
    }
}
