//! The parts of a halting, and a loop over them that waits.
ghost use Rattle.std.specs.Prelude.{◌≡◌, None};
ghost use Rattle.halting.specs.declared.halting.Next.TheVariants.{Again};
ghost use Rattle.lock_floor.specs.declared.queues.HaltAt.TheVariants.{Finds, Comes, Aborts, Wakes};
ghost use Rattle.lock_floor.specs.Passes.{IsOf};
ghost use Rattle.lock_floor.specs.Queues.{queue_at};
ghost use Rattle.lock_floor.specs.Aborts.{IsHaltingOthers};
ghost use Rattle.lock_floor.specs.Waits.{IsQueueOf};
ghost use Rattle.halting.specs.Halts.{CountsItselfOut, FindsFirst, TakesOff, GoesOnHalting, HaltsOthers, HasHalted, IsAt, IsLast, MayCountOut};

use crossbeam_utils::Backoff;
use lock_floor::{Count, FirstSleeper, Floor, HaltAt, Pass};
use lock_model::{QueueName, ThreadNo};
use std::sync::Wait;

/// What the caller is to do next.
#[derive(Clone, Copy, Debug, PartialEq, Eq)]
pub enum Next {
    /// Nothing: the halting is done. The thread is parked, or aborted itself and may run again.
    Done,
    /// Go on from there, maybe after a pause.
    Again(HaltAt),
    /// End the sleep of that thread, which was woken, and then go on from there.
    Wake(ThreadNo, HaltAt),
}

/// Goes on with a halting that stands there. It begins at `Finds`, where the thread counted itself out and `count`
/// answered 1. `Done` comes at once where all threads have ended. Else the thread counts itself in, sets the halt word,
/// and goes over the floor's queues: under the chain of each that is a sleep queue it takes one sleeper off after the
/// other, itself included, and wakes it. Behind the last queue it counts itself out again, unless it aborted itself;
/// and where it was the last once more, it begins anew.
pub fn go_on_halting(floor: &Floor, pass: &mut Pass, at: HaltAt) -> Next
    requires own { IsOf floor.now pass.old }
    requires there { IsAt floor.now.description at pass.old.view }
    ensures own { IsOf floor.now pass.new }
    ensures went { GoesOnHalting floor.now.description at result pass.old.view pass.new.view }
{
    match at {
        HaltAt::Finds => begin(floor, pass),
        HaltAt::Comes { over, itself } => come(floor, pass, over, itself),
        HaltAt::Aborts { over, itself } => Next::Again(abort_next(floor, pass, over, itself)),
        HaltAt::Wakes { over, itself } => wake(floor, pass, over, itself),
    }
}

/// Halts others, where the thread's counting out left nobody awake. It waits only for a chain or a record that another
/// thread has out.
pub fn halt_others<R: Wait>(floor: &Floor, rt: &R, pass: &mut Pass)
    requires own { IsOf floor.now pass.old }
    requires last { IsLast floor.now.description pass.old.view }
    ensures own { IsOf floor.now pass.new }
    ensures halted { HasHalted floor.now.description pass.old.view pass.new.view }
    ensures steps { HaltsOthers floor.now.description pass.old.view pass.new.view }
{
    let backoff = Backoff::new();
    let mut at = HaltAt::Finds;
    for _ in rt.forever() {
        match go_on_halting(floor, pass, at) {
            Next::Done => return,
            Next::Again(to) => {
                if to == at {
                    backoff.snooze();
                } else {
                    backoff.reset();
                }
                at = to;
            }
            Next::Wake(t, to) => {
                floor.unpark(t);
                at = to;
            }
        }
    }
    unreachable!()
}

/// Counts the thread out of those that are awake, where it stands on a queue or has ended, and halts others where that
/// left nobody awake. It waits only for a chain or a record that another thread has out.
pub fn count_out<R: Wait>(floor: &Floor, rt: &R, pass: &mut Pass)
    requires own { IsOf floor.now pass.old }
    requires may { MayCountOut floor.now.description pass.old.view }
    ensures own { IsOf floor.now pass.new }
    ensures halted { HasHalted floor.now.description pass.old.view pass.new.view }
    ensures counts { CountsItselfOut floor.now.description pass.old.view pass.new.view }
{
    if floor.count(pass, Count::Out) == 1 {
        halt_others(floor, rt, pass);
    }
}

// Where the thread was the last.
fn begin(floor: &Floor, pass: &mut Pass) -> Next
    requires own { IsOf floor.now pass.old }
    requires there { IsAt floor.now.description Finds pass.old.view }
    ensures own { IsOf floor.now pass.new }
    ensures went { GoesOnHalting floor.now.description Finds result pass.old.view pass.new.view }
{
    if !floor.find_left(pass) {
        return Next::Done;
    }
    floor.count(pass, Count::SelfIn);
    floor.halt(pass);
    Next::Again(HaltAt::Comes {
        over: 0,
        itself: false,
    })
}

// Takes the chain of the next queue, if threads sleep there and it is at home; or counts itself out again behind the
// last one.
fn come(floor: &Floor, pass: &mut Pass, over: u32, itself: bool) -> Next
    requires own { IsOf floor.now pass.old }
    requires there { IsAt floor.now.description (Comes over itself) pass.old.view }
    ensures own { IsOf floor.now pass.new }
    ensures went { GoesOnHalting floor.now.description (Comes over itself) result
        pass.old.view pass.new.view }
{
    let Some(q) = floor.queue_at(over) else {
        return leave(floor, pass, over, itself);
    };
    if !floor.is_sleep_queue(q) {
        return Next::Again(HaltAt::Comes {
            over: over + 1,
            itself,
        });
    }
    if floor.try_take_chain(pass, q) {
        Next::Again(HaltAt::Aborts { over, itself })
    } else {
        Next::Again(HaltAt::Comes { over, itself })
    }
}

// Behind the last queue.
fn leave(floor: &Floor, pass: &mut Pass, over: u32, itself: bool) -> Next
    requires own { IsOf floor.now pass.old }
    requires there { IsAt floor.now.description (Comes over itself) pass.old.view }
    requires over { queue_at floor.now.description over ≡ None }
    ensures own { IsOf floor.now pass.new }
    ensures went { GoesOnHalting floor.now.description (Comes over itself) result
        pass.old.view pass.new.view }
{
    if itself {
        return Next::Done;
    }
    if floor.count(pass, Count::Out) == 1 {
        Next::Again(HaltAt::Finds)
    } else {
        Next::Done
    }
}

// Takes the first sleeper off the queue, whose chain is out; or gives the chain back where nobody sleeps there.
fn abort_next(floor: &Floor, pass: &mut Pass, over: u32, itself: bool) -> HaltAt
    requires own { IsOf floor.now pass.old }
    requires there { IsAt floor.now.description (Aborts over itself) pass.old.view }
    ensures own { IsOf floor.now pass.new }
    ensures went { GoesOnHalting floor.now.description (Aborts over itself) (Again result)
        pass.old.view pass.new.view }
{
    let Some(q) = floor.queue_at(over) else {
        unreachable!()
    };
    match floor.first_sleeper(pass, q) {
        Some(first) => {
            abort(floor, pass, q, first);
            HaltAt::Wakes { over, itself }
        }
        None => {
            floor.give_chain(pass, q);
            HaltAt::Comes {
                over: over + 1,
                itself,
            }
        }
    }
}

// Takes the first sleeper of a queue off it, whose chain is out.
fn abort(floor: &Floor, pass: &mut Pass, q: QueueName, first: FirstSleeper)
    requires own { IsOf floor.now pass.old }
    requires queue { IsQueueOf floor.now.description q }
    requires halting { IsHaltingOthers pass.old.view }
    requires first { FindsFirst floor.now.description q first pass.old.view }
    ensures own { IsOf floor.now pass.new }
    ensures aborts { TakesOff floor.now.description q first.thread.0 pass.old.view pass.new.view }
{
    match q {
        QueueName::Lock(l) => {
            if first.alone {
                floor.abort_last(pass, l, first.side, first.thread);
            } else {
                floor.abort(pass, q, first.thread);
            }
        }
        QueueName::Chan(_) => floor.abort(pass, q, first.thread),
    }
}

// Wakes the one that was taken off, if its record is at home.
fn wake(floor: &Floor, pass: &mut Pass, over: u32, itself: bool) -> Next
    requires own { IsOf floor.now pass.old }
    requires there { IsAt floor.now.description (Wakes over itself) pass.old.view }
    ensures own { IsOf floor.now pass.new }
    ensures went { GoesOnHalting floor.now.description (Wakes over itself) result
        pass.old.view pass.new.view }
{
    let Some(t) = pass.first_marked() else {
        unreachable!()
    };
    if !floor.try_take_rec(pass, t) {
        return Next::Again(HaltAt::Wakes { over, itself });
    }
    let (number, own) = (t.0, pass.thread().0);
    if number == own {
        floor.mark(pass);
        floor.give_rec(pass, t);
        Next::Again(HaltAt::Aborts { over, itself: true })
    } else {
        floor.count(pass, Count::In(t));
        floor.mark(pass);
        floor.give_rec(pass, t);
        Next::Wake(t, HaltAt::Aborts { over, itself })
    }
}
