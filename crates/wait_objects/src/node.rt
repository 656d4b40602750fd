//! The node by which a thread stands in an object's list. Each thread is made with one for turnstiles and one for
//! sleep queues.
ghost use Rattle.std.specs.Prelude.{◌≡◌, [], ◌∷◌, None, IfOk, IfNone, IfSome, option_map};
ghost use Rattle.wait_objects.specs.Seen.{idle_object, empty_node};

use crate::object::Object;
use crate::own::Own;
use crate::waiters::Waiters;
use lock_model::{Prio, ThreadNo};
use std::alloc::{AllocError, Global};
use std::marker::Model;

/// A thread's node. While its thread waits it is linked in an object; when the thread is woken it
/// carries the object that the thread takes back.
#[cycle(object)]
#[derive(Drop)]
pub struct Node<E: Own> {
    pub(crate) thread: ThreadNo,
    pub(crate) kept: Prio,
    pub(crate) object: Option<Box<Object<E>>>,
    pub(crate) next: Waiters<E>,
}

impl<E: Own> Model for Node<E> {
    ghost use Rattle.wait_objects.specs.Seen.{Node as Seen};

    ghost Value = { Seen };

    ghost use Rattle.wait_objects.specs.Inside.{seen_node, HoldsIdle};
    ghost use Rattle.wait_objects.specs.Sizes.{node_size};
    ghost use Rattle.std.proofs.Common.{arith};

    ghost view = { seen_node };

    ghost invariant = { λ a. HoldsIdle E.home a };

    ghost size = { node_size };

    ghost size_decreases = { λ a h. Prim.grind arith };
}

impl<E: Own> Node<E> {
    /// The empty node of a thread.
    pub fn make(alloc: Global, t: ThreadNo) -> Result<Box<Node<E>>, AllocError>
        ensures { IfOk result (λ b. b.value ≡ empty_node t.0) }
    {
        let node = Node {
            thread: t,
            kept: Prio(255),
            object: None,
            next: Waiters::empty(),
        };
        Ok(Box::new(alloc, node)?)
    }

    /// The thread that the node was made for.
    pub fn thread(&self) -> ThreadNo
        ensures { result.0 ≡ self.now.place.thread }
    {
        self.thread
    }

    /// The node behind it. `None` comes exactly where there is none.
    pub fn behind(&self) -> Option<&Node<E>>
        ensures none { IfNone result (self.now.next ≡ []) }
        ensures some { IfSome result (λ n. self.now.next ≡ n.now.place ∷ n.now.next) }
    {
        self.next.first()
    }

    /// Keeps another priority for the thread.
    pub(crate) fn keep(&mut self, prio: Prio)
        ensures { self.new ≡ record self.old { place = record self.old.place { kept = prio.0 } } }
    {
        self.kept = prio;
    }

    /// Takes the object that the node holds, which is idle.
    pub(crate) fn take_object(&mut self) -> Option<Box<Object<E>>>
        ensures taken { option_map (λ b. b.value) result
            ≡ option_map (idle_object E.home) self.old.place.object }
        ensures left { self.new
            ≡ record self.old { place = record self.old.place { object = None } } }
    {
        self.object.take()
    }
}
