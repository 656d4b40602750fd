//! The actions of a thread that waits on a channel or wakes others from it.
ghost use Rattle.std.specs.Prelude.{◌≡◌, ◌<◌, ◌||◌, not, length, Some, option_map};
ghost use Rattle.lock_model.specs.Counts.{is_empty};
ghost use Rattle.lock_model.specs.Operations.{IsProper};
ghost use Rattle.lock_model.specs.Plans.{config_of};
ghost use Rattle.lock_model.specs.declared.plan.Op.TheVariants.{Sleep};
ghost use Rattle.lock_objects.specs.Marked.{places_of};
ghost use Rattle.lock_state.specs.Run.{Run, owed_release, owes};
ghost use Rattle.run_laws.specs.OnTrack.{IsAtOperation};
ghost use Rattle.step_machine.specs.Threads.{has_no_walk};
ghost use Rattle.step_world.specs.Runs.{HasRun, IsRunOf, Follows, MakesAction, KeepsWhereIdle, IsDoneWaking, IsWake, answer_of};

use crate::turns::locks::{give_back, take};
use crate::turns::{Made, by_wait};
use lock_model::{ChanNo, Event, LockNo, Plan, StepKind, ThreadNo, Turn};
use prio_lending::Walk;
use step_machine::{Machine, Thread};

/// A thread that has gone to sleep gives the lock of its wait back first, without an entry.
pub fn by_release(machine: &mut Machine, plan: &Plan, t: ThreadNo) -> Turn
    requires proper { IsProper plan.now }
    requires thread { t.0 < length plan.now.threads }
    requires run { HasRun plan.now machine.old (λ r. IsDoneWaking plan.now r t.0) }
    ensures follows { Follows plan.now t.0 machine.old machine.new result
        (λ r. IsDoneWaking plan.now r t.0) }
    ensures unchanged { KeepsWhereIdle result machine.old machine.new }
{
    match owed_release(machine, plan, t) {
        Some(l) => Turn::Did(give_back(machine, plan, t, l)),
        None => by_wait(machine, plan, t),
    }
}

// The lock of a thread's wait, as long as the thread holds it still.
fn owed_release(machine: &Machine, plan: &Plan, t: ThreadNo) -> Option<LockNo>
    requires thread { t.0 < length plan.now.threads }
    requires run { HasRun plan.now machine.now (λ r. Unit) }
    ensures { (r : Run) → IsRunOf plan.now machine.now r
        → option_map (λ l. l.0) result ≡ owed_release (config_of plan.now) r.state t.0 }
{
    let thread = &machine.threads[usize::from(t.0)];
    if thread.held.is_empty() {
        return None;
    }
    let l = lock_of(plan, thread.waits_on?);
    thread.holds(l).then_some(l)
}

/// Whether a thread has a walk, somebody to wake, or a release after a wait to make.
pub fn owes(machine: &Machine, plan: &Plan, t: ThreadNo) -> bool
    requires thread { t.0 < length plan.now.threads }
    requires run { HasRun plan.now machine.now (λ r. Unit) }
    ensures { (r : Run) → IsRunOf plan.now machine.now r
        → result ≡ owes (config_of plan.now) r.state t.0 }
{
    let thread = &machine.threads[usize::from(t.0)];
    if is_busy(thread) {
        return true;
    }
    owed_release(machine, plan, t).is_some()
}

// Whether it has a walk, or somebody to wake.
fn is_busy(thread: &Thread) -> bool
    ensures { result ≡ (not (has_no_walk thread.now.walk) || not (is_empty (places_of thread.now.marked))) }
{
    thread.walk != Walk::None || !thread.marked.is_empty()
}

/// A wait's first turn: the thread is made ready, notes it, and stands on the channel's queue. Once it has been woken
/// and runs again it takes the lock back, in the mode in which it held that.
pub fn sleep(machine: &mut Machine, plan: &Plan, t: ThreadNo, c: ChanNo) -> Made
    requires proper { IsProper plan.now }
    requires thread { t.0 < length plan.now.threads }
    requires run { HasRun plan.now machine.old
        (λ r. IsAtOperation plan.now r t.0 (Some (Sleep c))) }
    ensures makes { MakesAction plan.now t.0 machine.old machine.new result
        (λ r. IsAtOperation plan.now r t.0 (Some (Sleep c))) }
    ensures unchanged { KeepsWhereIdle (answer_of result) machine.old machine.new }
{
    let thread = &machine.threads[usize::from(t.0)];
    if thread.waits_on.is_some() {
        let mode = thread.left;
        return take(machine, plan, t, lock_of(plan, c), mode, Event::Woke { c });
    }
    machine.ready(t);
    machine.stamp(t, Event::Sleeps { c });
    machine.add(t, c);
    Made::Does(Turn::Did(StepKind::Add))
}

/// A wake takes sleepers off the channel, the best or all, and notes who they are.
#[inline(always)]
pub fn wake(machine: &mut Machine, plan: &Plan, t: ThreadNo, c: ChanNo, all: bool) -> Made
    requires proper { IsProper plan.now }
    requires thread { t.0 < length plan.now.threads }
    requires run { HasRun plan.now machine.old (λ r. IsWake plan.now r t.0 c all) }
    ensures makes { MakesAction plan.now t.0 machine.old machine.new result
        (λ r. IsWake plan.now r t.0 c all) }
    ensures unchanged { KeepsWhereIdle (answer_of result) machine.old machine.new }
{
    let woken = machine.wake(t, c, all);
    machine.stamp(
        t,
        if all {
            Event::WokeAll { c, woken }
        } else {
            Event::WokeOne { c, woken }
        },
    );
    Made::Ends(StepKind::Wake)
}

// The lock of a channel.
fn lock_of(plan: &Plan, c: ChanNo) -> LockNo
    ensures { result.0 ≡ (config_of plan.now).chan_lock c.0 }
{
    match plan.chans.as_slice().get(usize::from(c.0)) {
        Some(chan) => chan.lock,
        None => LockNo(0),
    }
}
