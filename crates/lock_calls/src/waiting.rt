//! A take, a try and a release that wait: loops over their parts, in which the thread pauses, sleeps, and ends others'
//! sleeps. A try waits only for a chain or a record that another thread has out.
ghost use Rattle.std.specs.Prelude.{◌≡◌, ◌<◌, ◌++◌, true, [], ◌∷◌, length, IsOk, IfOk, IfErr};
ghost use Rattle.lock_model.specs.Holds.{Holds};
ghost use Rattle.lock_model.specs.Operations.{hold_in, without_lock};
ghost use Rattle.lock_model.specs.Words.{is_turnstile};
ghost use Rattle.lock_model.specs.declared.event.Event.TheVariants as event;
ghost use Rattle.lock_model.specs.declared.plan.Mode.{Mode as InMode};
ghost use Rattle.floor_table.specs.Descriptions.{config_in};
ghost use Rattle.floor_table.specs.Steps.{MakesEach};
ghost use Rattle.lock_floor.specs.Passes.{IsOf, IsReady, MakesEntry};
ghost use Rattle.lock_floor.specs.Relocks.{GivesUp, MayRelease as MayGiveUp, MayRetake, TakesBack};
ghost use Rattle.lock_calls.specs.Steps.{MayTake, MayRelease, Locks, Release, IsReleaseIn, IsGivingUpIn, GivesUpBy, TakesBackBy, as_taken, releases_by, unlocks};
ghost use Rattle.lock_calls.specs.Takes.{IsHalt, IsRefused, WasNotTaken};
ghost use Rattle.lock_calls.specs.Tries.{GainsAndNotes, WasBusyFor, as_tried};

use crate::answers::{Next, ReleaseNext, TakeNext};
use crate::dropping::begin_giving_up;
use crate::releasing::{begin_release, go_on_releasing, release_on};
use crate::spinning::LOOKS;
use crate::taking::{begin_take, go_on_taking, retake_on};
use crate::trying::{TryNext, begin_try, go_on_trying};
use crossbeam_utils::Backoff;
use lock_floor::{Call, Floor, Pass, ReleaseAt, TakeAt, TryAt};
use lock_model::{Busy, Halted, LockNo, Mode, Refused, Reversal};
use std::sync::Wait;

/// Takes a lock in a mode, and waits until it has it. `Reversal` comes exactly where, by the class graph as this call's
/// check found it, the class of a lock that the thread holds forbids that of the lock; it has the first such class in
/// order of acquisition, the refusal is noted, and nothing else of the thread is new. A thread that holds nothing is
/// never refused so. Where its sleep would leave nobody awake, the call halts those who sleep. `Halted` comes only of
/// an sx lock, where an abort ended this call's own sleep: that is noted, and the lock isn't held then. The floor has
/// one chain of turnstiles.
pub fn take_or_halt<R: Wait>(
    floor: &Floor,
    rt: &R,
    pass: &mut Pass,
    l: LockNo,
    mode: Mode,
) -> Result<(), Refused>
    requires ready { IsReady floor.now pass.old }
    requires may { MayTake floor.now.description l.0 mode pass.old.view }
    requires one_chain { floor.now.description.chains ≡ 1 }
    ensures ready { IsReady floor.now pass.new }
    ensures entry { IfOk result (λ _. MakesEntry floor.now.description (event.Locked l mode)
        (pass.old.view.share.held ++ as_taken l mode ∷ []) pass.old.view pass.new.view) }
    ensures steps { IfOk result
        (λ _. Locks floor.now.description l mode pass.old.view pass.new.view) }
    ensures refused { IfErr result
        (λ r. WasNotTaken floor.now.description l mode r pass.old.view pass.new.view) }
    ensures bare { pass.old.view.share.held ≡ [] → IfErr result IsHalt }
{
    match begin_take(floor, pass, l, mode) {
        Next::Done => return Ok(()),
        Next::Again => {}
        Next::Sleep | Next::Wake(_) | Next::Reversed(_) | Next::Halted => unreachable!(),
    }
    let backoff = Backoff::new();
    for _ in rt.forever() {
        let before = pass.call();
        match go_on_taking(floor, pass) {
            Next::Done => return Ok(()),
            Next::Again => pause(&backoff, before, pass.call()),
            Next::Sleep => {
                floor.sleep(rt, pass);
                backoff.reset();
            }
            Next::Wake(t) => floor.unpark(t),
            Next::Reversed(reversal) => return Err(Refused::Reversal(reversal)),
            Next::Halted => return Err(Refused::Halted(Halted)),
        }
    }
    unreachable!()
}

/// Takes a lock of a kind with turnstiles in a mode, and waits until it has it. It is `take_or_halt` where no sleep is
/// ended but by who releases the lock. `Err` comes exactly where, by the class graph as this call's check found it, the
/// class of a lock that the thread holds forbids that of the lock; it has the first such class in order of acquisition,
/// the refusal is noted, and nothing else of the thread is new. A thread that holds nothing is never refused.
pub fn take<R: Wait>(
    floor: &Floor,
    rt: &R,
    pass: &mut Pass,
    l: LockNo,
    mode: Mode,
) -> Result<(), Reversal>
    requires ready { IsReady floor.now pass.old }
    requires may { MayTake floor.now.description l.0 mode pass.old.view }
    requires turnstile { is_turnstile ((config_in floor.now.description).kind l.0) ≡ true }
    requires one_chain { floor.now.description.chains ≡ 1 }
    ensures ready { IsReady floor.now pass.new }
    ensures entry { IfOk result (λ _. MakesEntry floor.now.description (event.Locked l mode)
        (pass.old.view.share.held ++ as_taken l mode ∷ []) pass.old.view pass.new.view) }
    ensures steps { IfOk result
        (λ _. Locks floor.now.description l mode pass.old.view pass.new.view) }
    ensures reversed { IfErr result
        (λ r. IsRefused floor.now.description l r pass.old.view pass.new.view) }
    ensures bare { pass.old.view.share.held ≡ [] → IsOk result }
{
    match take_or_halt(floor, rt, pass, l, mode) {
        Ok(()) => Ok(()),
        Err(Refused::Reversal(reversal)) => Err(reversal),
        Err(Refused::Halted(_)) => unreachable!(),
    }
}

/// Gains a lock in a mode, if its word admits that. Where the word changed meanwhile and admits the mode still, that is
/// tried again; and a free word that shows waiters is claimed under the lock's chain. `Busy` comes only where a look of
/// this call, its last one, saw the word of a held lock that doesn't admit the mode, and has that word. It never
/// sleeps.
pub fn try_take<R: Wait>(
    floor: &Floor,
    rt: &R,
    pass: &mut Pass,
    l: LockNo,
    mode: Mode,
) -> Result<(), Busy>
    requires ready { IsReady floor.now pass.old }
    requires may { MayTake floor.now.description l.0 mode pass.old.view }
    ensures ready { IsReady floor.now pass.new }
    ensures gained { IfOk result (λ _. MakesEntry floor.now.description (event.Tried l mode)
        (pass.old.view.share.held ++ as_tried l mode ∷ []) pass.old.view pass.new.view) }
    ensures steps { IfOk result
        (λ _. GainsAndNotes floor.now.description l mode pass.old.view pass.new.view) }
    ensures busy { IfErr result
        (λ b. WasBusyFor floor.now.description l mode b.seen pass.old.view pass.new.view) }
    ensures noted { IfErr result (λ b. MakesEntry floor.now.description (event.Busy l b.seen)
        pass.old.view.share.held pass.old.view pass.new.view) }
{
    match begin_try(floor, pass, l, mode) {
        TryNext::Gained => return Ok(()),
        TryNext::Busy(seen) => return Err(Busy { seen }),
        TryNext::Again => {}
    }
    let backoff = Backoff::new();
    for _ in rt.forever() {
        let before = pass.call();
        match go_on_trying(floor, pass) {
            TryNext::Gained => return Ok(()),
            TryNext::Busy(seen) => return Err(Busy { seen }),
            TryNext::Again => pause(&backoff, before, pass.call()),
        }
    }
    unreachable!()
}

/// Releases a lock that is held in a mode, and wakes those who wait for it.
pub fn release<R: Wait>(floor: &Floor, rt: &R, pass: &mut Pass, l: LockNo, mode: Mode)
    requires ready { IsReady floor.now pass.old }
    requires may { MayRelease floor.now.description l.0 mode pass.old.view }
    ensures ready { IsReady floor.now pass.new }
    ensures entry { MakesEntry floor.now.description (event.Unlocked l mode)
        (without_lock l.0 pass.old.view.share.held) pass.old.view pass.new.view }
    ensures steps { (how : Release) × IsReleaseIn mode how × MakesEach floor.now.description
        (unlocks floor.now.description pass.old.view.thread l mode how)
        pass.old.view pass.new.view }
{
    match begin_release(floor, pass, l, mode) {
        Next::Done => return,
        Next::Again => {}
        Next::Sleep | Next::Wake(_) | Next::Reversed(_) | Next::Halted => unreachable!(),
    }
    let backoff = Backoff::new();
    for _ in rt.forever() {
        let before = pass.call();
        match go_on_releasing(floor, pass) {
            Next::Done => return,
            Next::Again => pause(&backoff, before, pass.call()),
            Next::Sleep | Next::Reversed(_) | Next::Halted => unreachable!(),
            Next::Wake(t) => floor.unpark(t),
        }
    }
    unreachable!()
}

/// Releases a lock in the mode in which the thread holds it, and wakes those who wait for it.
pub fn release_held<R: Wait>(floor: &Floor, rt: &R, pass: &mut Pass, l: LockNo)
    requires ready { IsReady floor.now pass.old }
    requires may { (mode : InMode) × MayRelease floor.now.description l.0 mode pass.old.view }
    ensures ready { IsReady floor.now pass.new }
    ensures entry { (mode : InMode) → hold_in pass.old.view.share.held l.0 ≡ Holds mode
        → MakesEntry floor.now.description (event.Unlocked l mode)
        (without_lock l.0 pass.old.view.share.held) pass.old.view pass.new.view }
    ensures steps { (mode : InMode) → hold_in pass.old.view.share.held l.0 ≡ Holds mode
        → (how : Release) × IsReleaseIn mode how × MakesEach floor.now.description
        (unlocks floor.now.description pass.old.view.thread l mode how)
        pass.old.view pass.new.view }
{
    match pass.mode(l) {
        Some(mode) => release(floor, rt, pass, l, mode),
        None => unreachable!(),
    }
}

/// Gives a lock up within a wait, as `lc_unlock` in FreeBSD's sys/lock.h: the thread gained it last, and runs or stands
/// on a channel's queue. It is a release that isn't noted: it looks at the lock's word first, and wakes those who wait
/// for the lock.
pub fn give_up<R: Wait>(floor: &Floor, rt: &R, pass: &mut Pass, l: LockNo)
    requires own { IsOf floor.now pass.old }
    requires lock { l.0 < length floor.now.description.locks }
    requires may { MayGiveUp floor.now.description l.0 pass.old.view }
    ensures own { IsOf floor.now pass.new }
    ensures gives_up { GivesUp l.0 pass.old.view pass.new.view }
    ensures steps { GivesUpBy floor.now.description l.0 pass.old.view pass.new.view }
{
    match pass.mode(l) {
        Some(mode) => give_up_held(floor, rt, pass, l, mode),
        None => unreachable!(),
    }
}

// Gives a lock up that is held in that mode.
fn give_up_held<R: Wait>(floor: &Floor, rt: &R, pass: &mut Pass, l: LockNo, mode: Mode)
    requires own { IsOf floor.now pass.old }
    requires lock { l.0 < length floor.now.description.locks }
    requires held { hold_in pass.old.view.share.held l.0 ≡ Holds mode }
    requires may { MayGiveUp floor.now.description l.0 pass.old.view }
    ensures own { IsOf floor.now pass.new }
    ensures gives_up { GivesUp l.0 pass.old.view pass.new.view }
    ensures steps { (how : Release) × IsGivingUpIn mode how × MakesEach floor.now.description
        (releases_by floor.now.description pass.old.view.thread l.0 mode how)
        pass.old.view pass.new.view }
{
    let mut at = begin_giving_up(floor, pass, l, mode);
    let backoff = Backoff::new();
    for _ in rt.forever() {
        let before = at;
        match release_on(floor, pass, l, mode, at) {
            ReleaseNext::Done => return,
            ReleaseNext::At(to) => at = to,
            ReleaseNext::Wake(t) => {
                floor.unpark(t);
                at = ReleaseAt::Wakes;
            }
        }
        pause(
            &backoff,
            Call::Release {
                l,
                mode,
                at: before,
            },
            Call::Release { l, mode, at },
        );
    }
    unreachable!()
}

/// Takes a lock back within a wait, in that mode, as `lc_lock` in FreeBSD's sys/lock.h: the thread wants it since it
/// was woken, and is in a round of it. It is a take that checks no order and makes no entry. Where its sleep would
/// leave nobody awake, it halts those who sleep; and a sleep of it that an abort ends only looks again. The floor has
/// one chain of turnstiles.
pub fn take_back<R: Wait>(floor: &Floor, rt: &R, pass: &mut Pass, l: LockNo, mode: Mode)
    requires own { IsOf floor.now pass.old }
    requires lock { l.0 < length floor.now.description.locks }
    requires one_chain { floor.now.description.chains ≡ 1 }
    requires may { MayRetake floor.now.description l.0 mode pass.old.view }
    ensures own { IsOf floor.now pass.new }
    ensures back { TakesBack l mode pass.old.view pass.new.view }
    ensures steps { TakesBackBy floor.now.description l.0 mode pass.old.view pass.new.view }
{
    let mut at = TakeAt::Spins(LOOKS);
    let backoff = Backoff::new();
    for _ in rt.forever() {
        let before = at;
        match retake_on(floor, pass, l, mode, at) {
            TakeNext::Gained => return,
            TakeNext::At(to) => at = to,
            TakeNext::Wake(t, to) => {
                floor.unpark(t);
                at = to;
            }
        }
        match at {
            TakeAt::Sleeps => {
                floor.sleep(rt, pass);
                backoff.reset();
            }
            TakeAt::Checks
            | TakeAt::Spins(_)
            | TakeAt::ComesIn
            | TakeAt::Contends(_)
            | TakeAt::Walks(_)
            | TakeAt::Hops(_)
            | TakeAt::Halts(_) => pause(
                &backoff,
                Call::Take {
                    l,
                    mode,
                    at: before,
                },
                Call::Take { l, mode, at },
            ),
        }
    }
    unreachable!()
}

// Pauses between two parts of a call. Between two looks at a lock's word it spins. Where the call stands as it stood
// before, another thread has what it needs: it spins for a while, and then lets the system run that one. Else the call
// goes on at once.
fn pause(backoff: &Backoff, before: Call, now: Call) {
    if spins(now) {
        backoff.spin();
    } else if before == now {
        backoff.snooze();
    } else {
        backoff.reset();
    }
}

// Whether the next part of the call is a look in its round.
fn spins(call: Call) -> bool {
    match call {
        Call::Take {
            at: TakeAt::Spins(left),
            ..
        } => left > 0,
        Call::Take {
            at: TakeAt::Checks
            | TakeAt::ComesIn
            | TakeAt::Contends(_)
            | TakeAt::Walks(_)
            | TakeAt::Hops(_)
            | TakeAt::Halts(_)
            | TakeAt::Sleeps,
            ..
        } => false,
        Call::Try {
            at: TryAt::Tries(left),
            ..
        } => left > 0,
        Call::Try {
            at: TryAt::ComesIn | TryAt::Decides(_),
            ..
        } => false,
        Call::None | Call::Release { .. } => false,
    }
}
