//! Those that a thread took off a queue and has yet to wake, one by one, as in `turnstile_unpend` of FreeBSD's
//! subr_turnstile.c and `sleepq_resume_thread` of its subr_sleepqueue.c.
ghost use Rattle.std.specs.Prelude.{◌≡◌, [], ◌∷◌, None, IsSome, IfNone, IfSome};
ghost use Rattle.lock_model.specs.Counts.{is_empty};
ghost use Rattle.lock_objects.specs.Marked.{places_of, node_of, IsFirst, IsAway, record_woken};

use lock_model::ThreadNo;
use sleep_queues::{SleepTaken, Sleeper};
use thread_records::ThreadRec;
use turnstile_core::{Taken, Waiter};

/// Those that were taken off a queue, of one kind and by one cause, each with the object that it takes back. An abort
/// takes sleepers off, and never waiters on a turnstile.
#[derive(Drop)]
pub enum Marked {
    Waiters(Taken),
    Sleepers(SleepTaken),
    AbortedSleepers(SleepTaken),
}

/// The node of one of them.
#[derive(Drop)]
pub enum Woken {
    Waiter(Box<Waiter>),
    Sleeper(Box<Sleeper>),
    AbortedSleeper(Box<Sleeper>),
}

impl Marked {
    /// Nobody.
    pub fn none() -> Marked
        ensures { places_of result ≡ [] }
    {
        Marked::Waiters(Taken::empty())
    }

    /// Whether nobody is left.
    pub fn is_empty(&self) -> bool
        ensures { result ≡ is_empty (places_of self.now) }
    {
        match self {
            Marked::Waiters(waiters) => waiters.is_empty(),
            Marked::Sleepers(sleepers) | Marked::AbortedSleepers(sleepers) => sleepers.is_empty(),
        }
    }

    /// Takes the first of them. `None` comes exactly where nobody is left.
    #[inline(always)]
    pub fn pop(&mut self) -> Option<Woken>
        ensures none { IfNone result ((places_of self.old ≡ []) × (places_of self.new ≡ [])) }
        ensures some { IfSome result (λ w. IsFirst w self.old self.new) }
    {
        match self {
            Marked::Waiters(waiters) => Some(Woken::Waiter(waiters.pop()?)),
            Marked::Sleepers(sleepers) => Some(Woken::Sleeper(sleepers.pop()?)),
            Marked::AbortedSleepers(sleepers) => Some(Woken::AbortedSleeper(sleepers.pop()?)),
        }
    }
}

impl Woken {
    /// The thread that is to be woken.
    pub fn thread(&self) -> ThreadNo
        ensures { result.0 ≡ (node_of self.now).place.thread }
    {
        match self {
            Woken::Waiter(node) => node.thread(),
            Woken::Sleeper(node) | Woken::AbortedSleeper(node) => node.thread(),
        }
    }
}

/// One that was taken off a queue has its node back, with the object that it takes, and its record names no queue.
#[inline(always)]
pub fn wake(rec: &mut ThreadRec, woken: Woken)
    requires away { IsAway woken rec.old }
    requires holds { IsSome (node_of woken).place.object }
    requires own { (node_of woken).place.thread ≡ rec.old.thread }
    requires alone { (node_of woken).next ≡ [] }
    ensures { rec.new ≡ record_woken woken rec.old }
{
    match woken {
        Woken::Waiter(node) => rec.take_back(node),
        Woken::Sleeper(node) | Woken::AbortedSleeper(node) => rec.take_back_sleepq(node),
    }
    rec.set_on(None);
}
