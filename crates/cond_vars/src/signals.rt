//! The calls that wake sleepers, as `cv_signal` and `cv_broadcast` of FreeBSD's kern_condvar.c, and `wakeup_one` and
//! `wakeup` of its kern_synch.c. They need no lock. Each waits only for a chain or a record that another thread has
//! out.
ghost use Rattle.std.specs.Prelude.{◌≡◌, [], IfNone, IfSome};
ghost use Rattle.floor_table.specs.Steps.{MakesEach};
ghost use Rattle.lock_floor.specs.Marks.{marking, with_marks};
ghost use Rattle.lock_floor.specs.Passes.{IsOf, IsAtRest, IsReady};
ghost use Rattle.cond_vars.specs.Wakes.{MayWakeUp, HasTakenOff, HasWoken, Signals, Broadcasts};

use crate::waking::{WakeNext, begin_wakeup, go_on_waking};
use crossbeam_utils::Backoff;
use lock_floor::{Floor, Pass};
use lock_model::{ChanNo, ThreadNo};
use std::sync::Wait;

/// Wakes the most important of those who wait on a condition variable, of equals the one that has slept longest, and
/// tells who that is. `None` comes exactly where nobody waited there when this call had the channel's chain.
pub fn cv_signal<R: Wait>(floor: &Floor, rt: &R, pass: &mut Pass, c: ChanNo) -> Option<ThreadNo>
    requires ready { IsReady floor.now pass.old }
    requires may { MayWakeUp floor.now.description c.0 pass.old.view }
    ensures ready { IsReady floor.now pass.new }
    ensures signals { Signals floor.now.description c result pass.old.view pass.new.view }
{
    take_off(floor, rt, pass, c, false);
    let first = pass.first_marked();
    wake_marked(floor, rt, pass);
    first
}

/// Wakes all who wait on a condition variable, and tells how many they are: 0 exactly where nobody waited there when
/// this call had the channel's chain.
pub fn cv_broadcast<R: Wait>(floor: &Floor, rt: &R, pass: &mut Pass, c: ChanNo) -> u32
    requires ready { IsReady floor.now pass.old }
    requires may { MayWakeUp floor.now.description c.0 pass.old.view }
    ensures ready { IsReady floor.now pass.new }
    ensures broadcasts { Broadcasts floor.now.description c result pass.old.view pass.new.view }
{
    let woken = take_off(floor, rt, pass, c, true);
    wake_marked(floor, rt, pass);
    woken.count_ones()
}

/// Wakes the most important of those who sleep on a channel. It goes as `cv_signal`.
pub fn wakeup_one<R: Wait>(floor: &Floor, rt: &R, pass: &mut Pass, c: ChanNo) -> Option<ThreadNo>
    requires ready { IsReady floor.now pass.old }
    requires may { MayWakeUp floor.now.description c.0 pass.old.view }
    ensures ready { IsReady floor.now pass.new }
    ensures signals { Signals floor.now.description c result pass.old.view pass.new.view }
{
    cv_signal(floor, rt, pass, c)
}

/// Wakes all who sleep on a channel. It goes as `cv_broadcast`.
pub fn wakeup<R: Wait>(floor: &Floor, rt: &R, pass: &mut Pass, c: ChanNo) -> u32
    requires ready { IsReady floor.now pass.old }
    requires may { MayWakeUp floor.now.description c.0 pass.old.view }
    ensures ready { IsReady floor.now pass.new }
    ensures broadcasts { Broadcasts floor.now.description c result pass.old.view pass.new.view }
{
    cv_broadcast(floor, rt, pass, c)
}

// Takes the best sleeper off a channel's queue, or all, when the channel's chain is at home, and notes that. Answers a
// bit for each.
fn take_off<R: Wait>(floor: &Floor, rt: &R, pass: &mut Pass, c: ChanNo, all: bool) -> u64
    requires ready { IsReady floor.now pass.old }
    requires may { MayWakeUp floor.now.description c.0 pass.old.view }
    ensures own { IsOf floor.now pass.new }
    ensures off { HasTakenOff floor.now.description c all result pass.old.view pass.new.view }
{
    let backoff = Backoff::new();
    for _ in rt.forever() {
        match begin_wakeup(floor, pass, c, all) {
            Some(woken) => return woken,
            // it spins for a while, and then lets the system run whoever has the chain
            None => backoff.snooze(),
        }
    }
    unreachable!()
}

// Wakes those who were taken off a queue, one after the other.
fn wake_marked<R: Wait>(floor: &Floor, rt: &R, pass: &mut Pass)
    requires own { IsOf floor.now pass.old }
    requires rest { IsAtRest floor.now.description (with_marks pass.old.view []) }
    ensures ready { IsReady floor.now pass.new }
    ensures wakes { HasWoken floor.now.description pass.old.view pass.new.view }
{
    let backoff = Backoff::new();
    for _ in rt.forever() {
        match go_on_waking(floor, pass) {
            WakeNext::Done => return,
            WakeNext::Again => backoff.snooze(),
            WakeNext::Wake(t) => {
                floor.unpark(t);
                backoff.reset();
            }
        }
    }
    unreachable!()
}
