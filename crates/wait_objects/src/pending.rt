//! The nodes that were taken off an object. The thread that wakes keeps this list, where FreeBSD has a pending list in
//! the turnstile.
ghost use Rattle.std.specs.Prelude.{◌≡◌, ◌↔◌, [], ◌∷◌, IsTrue, IfNone, IfSome};
ghost use Rattle.wait_objects.specs.Lists.{with_last, LastHasNone};
ghost use Rattle.wait_objects.specs.Changes.{IsLeft};

use crate::node::Node;
use crate::object::Object;
use crate::own::Own;
use crate::waiters::Waiters;
use std::marker::Model;

/// Nodes of threads that are to be woken, in order, each with the object that the thread takes back.
/// Only the last one may have none, and then the head is still to be given to it.
#[derive(Drop)]
pub struct Pending<E: Own> {
    nodes: Waiters<E>,
}

impl<E: Own> Model for Pending<E> {
    ghost use Rattle.std.specs.Prelude.{List};
    ghost use Rattle.wait_objects.specs.Seen.{Place};

    ghost Value = { List Place };

    ghost view = { λ a. a.nodes };
}

impl<E: Own> Pending<E> {
    pub(crate) fn of(nodes: Waiters<E>) -> Pending<E>
        ensures { result ≡ nodes }
    {
        Pending { nodes }
    }

    /// No nodes.
    pub fn empty() -> Pending<E>
        ensures { result ≡ [] }
    {
        Pending {
            nodes: Waiters::empty(),
        }
    }

    /// Whether no node is left.
    pub fn is_empty(&self) -> bool
        ensures { IsTrue result ↔ self.now ≡ [] }
    {
        self.nodes.is_empty()
    }

    /// Takes the first node. `None` comes exactly where there is none.
    pub fn pop(&mut self) -> Option<Box<Node<E>>>
        ensures none { IfNone result ((self.old ≡ []) × (self.new ≡ [])) }
        ensures some { IfSome result (λ b. (self.old ≡ b.value.place ∷ self.new)
            × (b.value.next ≡ [])) }
    {
        self.nodes.take_first()
    }

    /// The first node. `None` comes exactly where there is none.
    pub fn first(&self) -> Option<&Node<E>>
        ensures none { IfNone result (self.now ≡ []) }
        ensures some { IfSome result (λ n. self.now ≡ n.now.place ∷ n.now.next) }
    {
        self.nodes.first()
    }

    /// Makes the head idle and gives it to the last node, which has none.
    pub fn fill_last(&mut self, mut head: Box<Object<E>>)
        requires last { LastHasNone self.old }
        requires left { IsLeft E.Own head.value }
        ensures { self.new ≡ with_last head.value.contents.number self.old }
    {
        head.leave();
        self.nodes.fill_last(head);
    }
}
