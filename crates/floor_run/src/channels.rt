//! The operations of a thread that sleep on a condition variable or a channel and wake who sleeps there: which call of
//! `cond_vars` one is. The plan says whether it is a condition variable, and which lock goes with it.
ghost use Rattle.std.specs.Prelude.{◌≡◌, ◌<◌, IfErr, IfOk, length};
ghost use Rattle.cond_vars.specs.Waits.{MayWait, lock_of};
ghost use Rattle.cond_vars.specs.Wakes.{MayWakeUp};
ghost use Rattle.floor_run.specs.Sleeps.{HasSlept, HasWokenAll, HasWokenOne};
ghost use Rattle.floor_table.specs.Descriptions.{IsFor, config_in};
ghost use Rattle.lock_floor.specs.Passes.{IsReady};
ghost use Rattle.lock_model.specs.Queues.{ByAbort, BySignal};

use adaptive_mutex::MutexRelock;
use cond_vars::{cv_broadcast, cv_signal, cv_wait, msleep, wakeup, wakeup_one};
use lock_floor::{Floor, Pass, Relock};
use lock_model::{ChanNo, Halted, Kind, Plan};
use rw_lock::RwRelock;
use std::sync::Wait;
use sx_lock::SxRelock;

/// Sleeps on a condition variable or a channel of the plan until the thread is woken, with the lock that goes with it,
/// which the thread gained last: it holds that again then. `Halted` comes only where an abort ended this sleep.
pub fn sleep_on<R: Wait>(
    rt: &R,
    floor: &Floor,
    pass: &mut Pass,
    plan: &Plan,
    c: ChanNo,
) -> Result<(), Halted>
    requires given { IsFor plan.now floor.now.description }
    requires one_chain { floor.now.description.chains ≡ 1 }
    requires ready { IsReady floor.now pass.old }
    requires may { MayWait floor.now.description c.0 pass.old.view }
    requires lock { lock_of floor.now.description c.0 < length floor.now.description.locks }
    ensures ready { IsReady floor.now pass.new }
    ensures woken { IfOk result
        (λ _. HasSlept floor.now.description c BySignal pass.old.view pass.new.view) }
    ensures halted { IfErr result
        (λ _. HasSlept floor.now.description c ByAbort pass.old.view pass.new.view) }
{
    match floor.kind(plan.chan_lock(c)) {
        Kind::Mtx => sleep_by(rt, floor, pass, plan, c, &MutexRelock),
        Kind::Rw => sleep_by(rt, floor, pass, plan, c, &RwRelock),
        Kind::Sx => sleep_by(rt, floor, pass, plan, c, &SxRelock),
    }
}

// Sleeps there, with a lock of the kind that is given up and taken back so.
fn sleep_by<R: Wait, K: Relock>(
    rt: &R,
    floor: &Floor,
    pass: &mut Pass,
    plan: &Plan,
    c: ChanNo,
    how: &K,
) -> Result<(), Halted>
    requires one_chain { floor.now.description.chains ≡ 1 }
    requires ready { IsReady floor.now pass.old }
    requires may { MayWait floor.now.description c.0 pass.old.view }
    requires kind { (config_in floor.now.description).kind (lock_of floor.now.description c.0)
        ≡ K.kind }
    ensures ready { IsReady floor.now pass.new }
    ensures woken { IfOk result
        (λ _. HasSlept floor.now.description c BySignal pass.old.view pass.new.view) }
    ensures halted { IfErr result
        (λ _. HasSlept floor.now.description c ByAbort pass.old.view pass.new.view) }
{
    if plan.is_cond(c) {
        cv_wait(floor, rt, pass, c, how)
    } else {
        msleep(floor, rt, pass, c, how)
    }
}

/// Wakes the most important of those who sleep on a condition variable or a channel of the plan.
#[tactic(auto, using(crate::proofs::Waiting::has_woken_one))]
pub fn wake_one<R: Wait>(rt: &R, floor: &Floor, pass: &mut Pass, plan: &Plan, c: ChanNo)
    requires ready { IsReady floor.now pass.old }
    requires may { MayWakeUp floor.now.description c.0 pass.old.view }
    ensures ready { IsReady floor.now pass.new }
    ensures woken { HasWokenOne floor.now.description c pass.old.view pass.new.view }
{
    if plan.is_cond(c) {
        cv_signal(floor, rt, pass, c);
    } else {
        wakeup_one(floor, rt, pass, c);
    }
}

/// Wakes all who sleep on a condition variable or a channel of the plan.
#[tactic(auto, using(crate::proofs::Waiting::has_woken_all))]
pub fn wake_all<R: Wait>(rt: &R, floor: &Floor, pass: &mut Pass, plan: &Plan, c: ChanNo)
    requires ready { IsReady floor.now pass.old }
    requires may { MayWakeUp floor.now.description c.0 pass.old.view }
    ensures ready { IsReady floor.now pass.new }
    ensures woken { HasWokenAll floor.now.description c pass.old.view pass.new.view }
{
    if plan.is_cond(c) {
        cv_broadcast(floor, rt, pass, c);
    } else {
        wakeup(floor, rt, pass, c);
    }
}
