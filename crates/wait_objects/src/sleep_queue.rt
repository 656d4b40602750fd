//! The sleep queue: the object in which threads sleep on an sx lock, a condition variable or a channel, after FreeBSD's
//! subr_sleepqueue.c. Sleepers stand in order of arrival, and lend no priority.
ghost use Rattle.std.specs.Prelude.{◌≡◌, ◌≢◌, ◌↔◌, true, false, None, Some, [], IfOk, IfNone, IfSome, option_map};
ghost use Rattle.lock_model.specs.Queues.{taken_off};
ghost use Rattle.wait_objects.specs.Seen.{IsEmpty};
ghost use Rattle.wait_objects.specs.SleepQueues.Seen.{idle};
ghost use Rattle.wait_objects.specs.SleepQueues.Changes.{lists_of, waiters, all_waiters, waits, begun, joined, left_by, without_woken, entries_of, without_thread, AreTaken};

use crate::node::Node;
use crate::object::Object;
use crate::pending::Pending;
use crate::sleeping::Sleeping;
use crate::which::Which;
use lock_model::{Prio, QueueName, Side, ThreadNo};
use std::alloc::{AllocError, Global};

/// A sleep queue.
pub type SleepQueue = Object<Sleeping>;

/// A thread's node for sleep queues.
pub type Sleeper = Node<Sleeping>;

/// Sleepers to be woken, in order, each with the sleep queue that it takes back. Only the last one may
/// have none, and then the head is still to be given to it.
pub type SleepTaken = Pending<Sleeping>;

impl Object<Sleeping> {
    /// An idle sleep queue of a thread.
    pub fn make(alloc: Global, id: ThreadNo) -> Result<Box<SleepQueue>, AllocError>
        ensures { IfOk result (λ b. b.value ≡ idle id.0) }
    {
        Ok(Box::new(alloc, Object::idle(id, Sleeping::make()))?)
    }

    /// Makes an idle sleep queue the head for an sx lock or a channel, with one sleeper. The node is
    /// empty.
    pub fn begin(&mut self, q: QueueName, node: Box<Sleeper>, prio: Prio, side: Side)
        requires idle { self.old ≡ idle self.old.contents.number }
        requires empty { IsEmpty node.value }
        ensures contents { self.new.contents
            ≡ begun q (record { thread = node.value.place.thread; kept = prio.0 }) side
            self.old.contents }
        ensures next { self.new.next ≡ self.old.next }
    {
        self.start(q, node, prio, side);
    }

    /// Lets one more thread sleep: its node is put at the tail of that side, and its sleep queue `own`
    /// first on the free list. The sleep queue is a head, `own` is idle, the node is empty and its thread
    /// doesn't sleep here yet.
    pub fn add(&mut self, own: Box<SleepQueue>, node: Box<Sleeper>, prio: Prio, side: Side)
        requires head { all_waiters self.old.contents ≢ [] }
        requires own { own.value ≡ idle own.value.contents.number }
        requires empty { IsEmpty node.value }
        requires absent { waits node.value.place.thread self.old.contents ≡ false }
        ensures contents { self.new.contents
            ≡ joined own.value.contents.number
            (record { thread = node.value.place.thread; kept = prio.0 }) side self.old.contents }
        ensures next { self.new.next ≡ self.old.next }
    {
        self.join(own, node, prio, side);
    }

    /// Takes the sleeper of a side with the least number, and of equals the one that has slept longest.
    /// It takes back the first sleep queue of the free list; only where no sleeper is left it gets none,
    /// and the head is its own. `None` comes exactly where that side is empty.
    pub fn signal(&mut self, side: Side) -> Option<SleepTaken>
        ensures none { IfNone result
            ((waiters side self.old.contents ≡ []) × (self.new ≡ self.old)) }
        ensures some { IfSome result (λ r. (waiters side self.old.contents ≢ []) × (r ≢ [])
            × AreTaken (taken_off false (waiters side self.old.contents)) self.old.contents
            self.new.contents r) }
        ensures contents { self.new.contents ≡ without_woken false side self.old.contents }
        ensures next { self.new.next ≡ self.old.next }
    {
        if self.side_empty(side) {
            return None;
        }
        Some(self.take(Which::Best, side))
    }

    /// Takes all sleepers of a side, which may be empty, in order. Each takes back the first sleep queue
    /// of what is left of the free list; only where no sleeper is left the last one gets none, and the
    /// head is its own.
    pub fn broadcast(&mut self, side: Side) -> SleepTaken
        ensures taken { AreTaken (taken_off true (waiters side self.old.contents))
            self.old.contents self.new.contents result }
        ensures contents { self.new.contents ≡ without_woken true side self.old.contents }
        ensures next { self.new.next ≡ self.old.next }
    {
        self.take(Which::All, side)
    }

    /// Takes a thread. It takes back the first sleep queue of the free list; only where no sleeper is left
    /// it gets none, and the head is its own. `None` comes exactly where it doesn't sleep here.
    pub fn remove(&mut self, t: ThreadNo) -> Option<SleepTaken>
        ensures none { IfNone result
            ((waits t.0 self.old.contents ≡ false) × (self.new ≡ self.old)) }
        ensures some { IfSome result (λ r. (waits t.0 self.old.contents ≡ true) × (r ≢ [])
            × AreTaken (entries_of t.0 (lists_of self.old.contents)) self.old.contents
            self.new.contents r) }
        ensures contents { self.new.contents
            ≡ left_by (entries_of t.0 (lists_of self.old.contents))
            (without_thread t.0 (lists_of self.old.contents)) self.old.contents }
        ensures next { self.new.next ≡ self.old.next }
    {
        let side = self.lists.side_of(t)?;
        Some(self.take(Which::Thread(t), side))
    }
}

impl Node<Sleeping> {
    /// Takes the sleep queue that the node holds, which is idle. `None` comes exactly where it holds
    /// none.
    pub fn take_sleepq(&mut self) -> Option<Box<SleepQueue>>
        ensures taken { option_map (λ b. b.value) result ≡ option_map idle self.old.place.object }
        ensures left { self.new
            ≡ record self.old { place = record self.old.place { object = None } } }
    {
        self.take_object()
    }
}
