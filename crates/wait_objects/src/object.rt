//! An object in which threads wait: a turnstile or a sleep queue. Here is what both do: how waiters come and go, and
//! which objects they bring and take back.
ghost use Rattle.std.specs.Prelude.{◌≡◌, ◌≢◌, ◌↔◌, false, [], ◌∷◌, length, map, IsTrue, IfNone, IfSome, option_map, slice_get};
ghost use Rattle.wait_objects.specs.Seen.{idle_object, IsEmpty};
ghost use Rattle.lock_model.specs.Queues.{is_queue};
ghost use Rattle.wait_objects.specs.Linked.{linked_contents};
ghost use Rattle.wait_objects.specs.Named.{is_named, head_for, without_head, bare};
ghost use Rattle.wait_objects.specs.Lists.{LastHasNone, AllButLastHold};
ghost use Rattle.wait_objects.specs.Changes.{waiters, with_waiters, named, unnamed, all_waiters, waits, joined, woken, left, InOrder, IsWellFormed};

use crate::free_list::FreeList;
use crate::lists::Lists;
use crate::node::Node;
use crate::own::Own;
use crate::pending::Pending;
use crate::which::Which;
use lock_model::{Prio, QueueName, Side, ThreadNo};
use std::marker::Model;
use std::mem;

/// An object. Where it has a waiter it is the head for a lock or channel; else it is idle, with its
/// thread, on a free list or on its way back.
#[cycle(object)]
#[derive(Drop)]
pub struct Object<E: Own> {
    pub(crate) number: ThreadNo,
    pub(crate) lists: Lists<E>,
    free: FreeList<E>,
    pub(crate) own: E,
    next: Option<Box<Object<E>>>,
}

impl<E: Own> Model for Object<E> {
    ghost use Rattle.wait_objects.specs.Seen.{Object as Seen};

    ghost Value = { Seen E };

    ghost use Rattle.wait_objects.specs.Inside.{seen_object, IsSound};
    ghost use Rattle.wait_objects.specs.Sizes.{object_size};

    ghost view = { seen_object };

    ghost invariant = { λ a. IsSound E.Own a };

    ghost size = { object_size };

    ghost use Rattle.wait_objects.specs.Falls.{object_falls};

    ghost size_decreases = { λ a h. object_falls E.Own a h };
}

impl<E: Own> Object<E> {
    /// An idle object of a thread.
    pub(crate) fn idle(id: ThreadNo, home: E) -> Object<E>
        requires { home ≡ E.home }
        ensures { result ≡ idle_object E.home id.0 }
    {
        Object {
            number: id,
            lists: Lists::empty(),
            free: FreeList::empty(),
            own: home,
            next: None,
        }
    }

    /// Makes an object on which nobody waits the head of a queue, with one waiter. The node is empty.
    pub(crate) fn start(&mut self, q: QueueName, mut node: Box<Node<E>>, prio: Prio, side: Side)
        requires nobody { all_waiters self.old.contents ≡ [] }
        requires empty { IsEmpty node.value }
        ensures contents { self.new.contents
            ≡ with_waiters side (record { thread = node.value.place.thread; kept = prio.0 } ∷ [])
            (named E.Own q self.old.contents) }
        ensures next { self.new.next ≡ self.old.next }
    {
        node.keep(prio);
        self.own.set_name(Some(q));
        self.lists.insert(node, side);
    }

    /// Lets one more thread wait, whose object `own` goes first on the free list. There is a waiter, `own`
    /// is idle, the node is empty and its thread doesn't wait here yet.
    pub(crate) fn join(
        &mut self,
        own: Box<Object<E>>,
        mut node: Box<Node<E>>,
        prio: Prio,
        side: Side,
    )
        requires head { all_waiters self.old.contents ≢ [] }
        requires own { own.value ≡ idle_object E.home own.value.contents.number }
        requires empty { IsEmpty node.value }
        requires absent { waits node.value.place.thread self.old.contents ≡ false }
        ensures contents { self.new.contents
            ≡ joined E.RANKED own.value.contents.number
            (record { thread = node.value.place.thread; kept = prio.0 }) side self.old.contents }
        ensures next { self.new.next ≡ self.old.next }
    {
        node.keep(prio);
        self.free.put(own);
        self.lists.insert(node, side);
    }

    /// Takes waiters off a side. Each takes back the first object of what is left of the free list; only
    /// where no waiter is left the last one gets none, and the head is its own.
    pub(crate) fn take(&mut self, which: Which, side: Side) -> Pending<E>
        ensures taken { result ≡ woken which side self.old.contents }
        ensures others { AllButLastHold result }
        ensures last { LastHasNone result ↔ (result ≢ []) × (all_waiters self.new.contents ≡ []) }
        ensures in_order { InOrder E.RANKED (waiters side self.old.contents) }
        ensures contents { self.new.contents ≡ left which side self.old.contents }
        ensures next { self.new.next ≡ self.old.next }
    {
        let mut nodes = self.lists.take(which, side);
        nodes.deal(&mut self.free);
        Pending::of(nodes)
    }

    /// Is the head of no queue any more.
    pub(crate) fn leave(&mut self)
        ensures { self.new ≡ record self.old { contents = unnamed E.Own self.old.contents } }
    {
        self.own.set_name(None);
    }

    /// Whether no thread waits on a side.
    pub fn side_empty(&self, side: Side) -> bool
        ensures { IsTrue result ↔ waiters side self.now.contents ≡ [] }
    {
        self.lists.is_empty(side)
    }

    /// Whether no thread waits here.
    pub fn is_empty(&self) -> bool
        ensures empty { IsTrue result ↔ all_waiters self.now.contents ≡ [] }
        ensures well_formed { IsWellFormed E.RANKED self.now.contents }
    {
        self.lists.is_empty(Side::X) && self.lists.is_empty(Side::S)
    }

    /// Whether a thread waits here.
    pub fn waits(&self, t: ThreadNo) -> bool
        ensures { result ≡ waits t.0 self.now.contents }
    {
        self.lists.contains(t)
    }

    /// How many threads wait on a side.
    pub fn count(&self, side: Side) -> u32
        ensures { result ≡ length (waiters side self.now.contents) }
    {
        self.lists.count(side)
    }

    /// The number of the thread that the object was made with.
    pub fn number(&self) -> ThreadNo
        ensures { result.0 ≡ self.now.contents.number }
    {
        self.number
    }

    /// The waiter at a place of a side, from 0, with its kept priority. `None` comes exactly past the
    /// end.
    pub fn waiter_at(&self, side: Side, i: u32) -> Option<(ThreadNo, Prio)>
        ensures { option_map (λ w. record { thread = w.0.0; kept = w.1.0 }) result
            ≡ slice_get (waiters side self.now.contents) i }
    {
        self.lists.at(side, i)
    }

    /// The number of the object at a place of the free list, from 0. `None` comes exactly past the end.
    pub fn free_at(&self, i: u32) -> Option<ThreadNo>
        ensures { option_map (λ t. t.0) result ≡ slice_get self.now.contents.free i }
    {
        self.free.at(i)
    }

    /// The queue that the object is the head of. `None` comes exactly where it is none's.
    pub fn name(&self) -> Option<QueueName>
        ensures { result ≡ E.name_of self.now.contents.own }
    {
        self.own.name()
    }

    /// What the link leads to.
    pub fn next(&self) -> Option<&Object<E>>
        ensures none { IfNone result (self.now.next ≡ []) }
        ensures some { IfSome result (λ t. self.now.next ≡ t.now.contents ∷ t.now.next) }
    {
        self.next.as_deref()
    }

    /// Puts another link and gives the former one.
    pub fn swap_next(&mut self, next: Option<Box<Object<E>>>) -> Option<Box<Object<E>>>
        ensures contents { self.new.contents ≡ self.old.contents }
        ensures next { self.new.next ≡ linked_contents next }
        ensures former { linked_contents result ≡ self.old.next }
    {
        mem::replace(&mut self.next, next)
    }

    /// Takes the head of that queue out of those that the link leads to, which stay linked in order. `None` comes
    /// exactly where none of them is its head.
    pub fn take_behind(&mut self, q: QueueName) -> Option<Box<Object<E>>>
        ensures contents { self.new.contents ≡ self.old.contents }
        ensures taken { option_map (λ b. b.value) result
            ≡ option_map bare (head_for E.name_of q self.old.next) }
        ensures others { self.new.next ≡ without_head E.name_of q self.old.next }
    {
        let Some(behind) = &mut self.next else {
            return None;
        };
        let behind: &mut Object<E> = behind;
        if !behind.is_head_for(q) {
            return behind.take_behind(q);
        }
        let mut found = self.next.take()?;
        self.next = found.swap_next(None);
        Some(found)
    }

    // Whether the object is the head of that queue.
    fn is_head_for(&self, q: QueueName) -> bool
        ensures { result ≡ is_named q (E.name_of self.now.contents.own) }
    {
        match self.own.name() {
            Some(name) => is_queue(q, name),
            None => false,
        }
    }

    /// The number at a place of the list that begins with this object.
    pub(crate) fn number_at(&self, i: u32) -> Option<ThreadNo>
        ensures { option_map (λ t. t.0) result
            ≡ slice_get (map (λ c. c.number) (self.now.contents ∷ self.now.next)) i }
    {
        if i == 0 {
            Some(self.number)
        } else {
            self.next()?.number_at(i - 1)
        }
    }
}

// Whether two names are of the same queue.
fn is_queue(a: QueueName, b: QueueName) -> bool
    ensures { result ≡ is_queue a b }
{
    match (a, b) {
        (QueueName::Lock(k), QueueName::Lock(l)) => k.0 == l.0,
        (QueueName::Chan(c), QueueName::Chan(d)) => c.0 == d.0,
        (QueueName::Lock(_), QueueName::Chan(_)) | (QueueName::Chan(_), QueueName::Lock(_)) =>
            false,
    }
}
