//! The calls that wait on a condition variable or sleep on a channel, as `_cv_wait` of FreeBSD's kern_condvar.c and
//! `_sleep` of its kern_synch.c. The thread stands on the channel's queue before it gives its lock up, so that no wake
//! behind that is lost.
ghost use Rattle.std.specs.Prelude.{◌≡◌, IfOk, IfErr};
ghost use Rattle.floor_table.specs.Descriptions.{config_in};
ghost use Rattle.lock_floor.specs.Passes.{IsReady};
ghost use Rattle.lock_model.specs.Queues.{BySignal, ByAbort};
ghost use Rattle.cond_vars.specs.Waits.{MayWait, Waits, lock_of};

use crate::parts::{WaitAt, WaitNext, go_on_waiting};
use crate::sleeping::{last_held, mode_of};
use crossbeam_utils::Backoff;
use lock_floor::{Floor, Pass, Relock};
use lock_model::{ChanNo, Halted};
use std::sync::Wait;

/// Waits on a condition variable, with the lock that belongs to it, which the thread gained last, and not by a try: it
/// gives the lock up, sleeps until another thread wakes it, and takes the lock back in the mode in which it held it.
/// No order is checked again. Where its sleep would leave nobody awake, the call halts those who sleep, and itself too.
/// `Halted` comes only where this call's own sleep was ended by an abort, while the halt word is 1; the thread holds
/// the lock again then too. The floor has one chain of turnstiles.
pub fn cv_wait<K: Relock, R: Wait>(
    floor: &Floor,
    rt: &R,
    pass: &mut Pass,
    c: ChanNo,
    how: &K,
) -> Result<(), Halted>
    requires ready { IsReady floor.now pass.old }
    requires may { MayWait floor.now.description c.0 pass.old.view }
    requires kind { (config_in floor.now.description).kind (lock_of floor.now.description c.0)
        ≡ K.kind }
    requires one_chain { floor.now.description.chains ≡ 1 }
    ensures ready { IsReady floor.now pass.new }
    ensures woke { IfOk result (λ _. Waits K.releases K.takes_back floor.now.description c BySignal
        pass.old.view pass.new.view) }
    ensures halted { IfErr result (λ _. Waits K.releases K.takes_back floor.now.description c
        ByAbort pass.old.view pass.new.view) }
{
    let l = last_held(floor, pass, c);
    let mode = mode_of(floor, pass, c, l);
    let backoff = Backoff::new();
    let mut at = WaitAt::ComesTo;
    for _ in rt.forever() {
        match go_on_waiting(floor, pass, c, at) {
            WaitNext::Done => return Ok(()),
            WaitNext::Halted => return Err(Halted),
            WaitNext::Again(to) => {
                // where another thread has what it needs, it spins for a while, and then lets the system run that one
                if to == at {
                    backoff.snooze();
                } else {
                    backoff.reset();
                }
                at = to;
            }
            WaitNext::Sleep => {
                floor.sleep(rt, pass);
                at = WaitAt::Sleeps;
            }
            WaitNext::Wake(t, to) => {
                floor.unpark(t);
                at = to;
            }
            WaitNext::Release => {
                how.release(floor, rt, pass, l);
                at = WaitAt::Parks;
            }
            WaitNext::TakeBack(aborted) => {
                how.retake(floor, rt, pass, l, mode);
                at = WaitAt::Notes(aborted);
            }
        }
    }
    unreachable!()
}

/// Sleeps on a channel, with the lock that belongs to it. It goes as `cv_wait`. FreeBSD's msleep takes a mutex, and has
/// rw_sleep and sx_sleep beside it: here the lock may be of each kind.
pub fn msleep<K: Relock, R: Wait>(
    floor: &Floor,
    rt: &R,
    pass: &mut Pass,
    c: ChanNo,
    how: &K,
) -> Result<(), Halted>
    requires ready { IsReady floor.now pass.old }
    requires may { MayWait floor.now.description c.0 pass.old.view }
    requires kind { (config_in floor.now.description).kind (lock_of floor.now.description c.0)
        ≡ K.kind }
    requires one_chain { floor.now.description.chains ≡ 1 }
    ensures ready { IsReady floor.now pass.new }
    ensures woke { IfOk result (λ _. Waits K.releases K.takes_back floor.now.description c BySignal
        pass.old.view pass.new.view) }
    ensures halted { IfErr result (λ _. Waits K.releases K.takes_back floor.now.description c
        ByAbort pass.old.view pass.new.view) }
{
    cv_wait(floor, rt, pass, c, how)
}
