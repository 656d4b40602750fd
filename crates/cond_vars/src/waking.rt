//! How sleepers of a channel are woken, part by part, as `sleepq_signal`, `sleepq_broadcast` and
//! `sleepq_resume_thread` of FreeBSD's subr_sleepqueue.c do it. No part waits: a thread of a runtime of one's own
//! begins a wake, again where another thread has the channel's chain, and then goes on until nobody is left.
ghost use Rattle.std.specs.Prelude.{◌≡◌, [], IfNone, IfSome};
ghost use Rattle.floor_table.specs.Views.{seeing};
ghost use Rattle.lock_floor.specs.Latches.{FindsOut};
ghost use Rattle.lock_floor.specs.Marks.{with_marks};
ghost use Rattle.lock_floor.specs.Passes.{IsOf, IsAtRest, IsReady};
ghost use Rattle.lock_floor.specs.Waits.{its_chain};
ghost use Rattle.lock_model.specs.Queues.{chan_queue};
ghost use Rattle.cond_vars.specs.Wakes.{MayWakeUp, HasTakenOff, GoesOnWaking, wake_of};

use lock_floor::{Floor, Pass};
use lock_model::{ChanNo, Event, QueueName, ThreadNo};

/// What the caller of a part of a wake is to do next.
#[derive(Clone, Copy, Debug, PartialEq, Eq)]
pub enum WakeNext {
    /// Nothing: nobody is left, and the pass is at rest.
    Done,
    /// Go on, maybe after a pause: another thread has the record that is needed.
    Again,
    /// End the sleep of that thread, which was marked, and then go on.
    Wake(ThreadNo),
}

/// Begins a wake of a channel, if the channel's chain is at home: takes the chain, takes the best sleeper off the
/// channel's queue, or all, notes that, and gives the chain back. Those who were taken off are in the pass's marked
/// list then, and are woken by `go_on_waking`. It answers a bit for each of them. `None` comes only where another
/// thread had the chain out at a moment between the pass's last step and this call's return.
pub fn begin_wakeup(floor: &Floor, pass: &mut Pass, c: ChanNo, all: bool) -> Option<u64>
    requires ready { IsReady floor.now pass.old }
    requires may { MayWakeUp floor.now.description c.0 pass.old.view }
    ensures own { IsOf floor.now pass.new }
    ensures off { IfSome result (λ woken.
        HasTakenOff floor.now.description c all woken pass.old.view pass.new.view) }
    ensures left { IfNone result (pass.new.view ≡ seeing pass.new.view.seen pass.old.view) }
    ensures elsewhere { IfNone result (FindsOut floor.now.description
        (its_chain floor.now.description (chan_queue c.0)) pass.old.view pass.new.view) }
{
    if !floor.try_take_chain(pass, QueueName::Chan(c)) {
        return None;
    }
    let woken = floor.wake(pass, c, all);
    floor.stamp(pass, wake_of(all, c, woken));
    floor.give_chain(pass, QueueName::Chan(c));
    Some(woken)
}

/// Goes on with a wake that was begun: wakes the first of those who are left, if its record is at home, and then that
/// thread's sleep is still to be ended. `Done` comes exactly where nobody is left. `Again` comes only where another
/// thread had that record out at a moment between the pass's last step and this call's return.
pub fn go_on_waking(floor: &Floor, pass: &mut Pass) -> WakeNext
    requires own { IsOf floor.now pass.old }
    requires rest { IsAtRest floor.now.description (with_marks pass.old.view []) }
    ensures own { IsOf floor.now pass.new }
    ensures rest { IsAtRest floor.now.description (with_marks pass.new.view []) }
    ensures wakes { GoesOnWaking floor.now.description result pass.old.view pass.new.view }
{
    match pass.first_marked() {
        None => WakeNext::Done,
        Some(t) => {
            if floor.try_wake(pass, t) {
                WakeNext::Wake(t)
            } else {
                WakeNext::Again
            }
        }
    }
}

// The entry of a wake that took these off: the best sleeper, or all.
fn wake_of(all: bool, c: ChanNo, woken: u64) -> Event
    ensures { result ≡ wake_of all c woken }
{
    if all {
        Event::WokeAll { c, woken }
    } else {
        Event::WokeOne { c, woken }
    }
}
