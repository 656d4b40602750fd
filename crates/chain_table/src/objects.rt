//! Turnstiles and sleep queues as heads: one that is lent to a queue is linked to those of the other queues of its
//! chain.
ghost use Rattle.std.specs.Prelude.{◌≡◌, refl};
ghost use Rattle.chain_table.specs.Chains.{heads_of};
ghost use Rattle.chain_table.specs.Objects.{unlinked, behind, unlinked_is_itself};

use crate::head::Head;
use lock_model::QueueName;
use wait_objects::{Object, Own};

impl<E: Own> Head for Object<E> {
    ghost name_of = { λ t. E.name_of t.contents.own };

    ghost unlinked = { unlinked };

    ghost behind = { behind };

    ghost keeps_name = { λ _. refl };

    ghost has_no_link = { λ _. refl };

    ghost is_itself = { unlinked_is_itself };

    fn name(&self) -> Option<QueueName> {
        self.name()
    }

    fn next(&self) -> Option<&Object<E>> {
        self.next()
    }

    fn swap_next(&mut self, next: Option<Box<Object<E>>>) -> Option<Box<Object<E>>>
        ensures same { unlinked self.new ≡ unlinked self.old }
        ensures linked { behind self.new ≡ heads_of unlinked behind next }
        ensures former { heads_of unlinked behind result ≡ behind self.old }
    {
        self.swap_next(next)
    }

    fn take_behind(&mut self, q: QueueName) -> Option<Box<Object<E>>> {
        self.take_behind(q)
    }
}
