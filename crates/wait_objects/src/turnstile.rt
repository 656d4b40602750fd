//! The turnstile: the object in which threads wait for a mutex or a reader-writer lock, and by which they lend their
//! priority to its owner.
//!
//! Thread o holds the mutex m; a came first, then b, then c, and each lent its turnstile:
//!
//!     the word of m                +----------------------------------------------+
//!     owner o, waiters on X        | turnstile a, the head: lent by a, who came   |
//!                                  | first                                        |
//!     thread o                     |   lock       m                               |
//!     loans  m: 50, on node a <----|-- owner      o                               |
//!     (the loan node of            |   exclusive  b@50 -> c@50 -> a@100           |
//!      turnstile a is out)         |   shared     (nobody)                        |
//!                                  |   free list  [turnstile c] -> [turnstile b]  |
//!                                  +----------------------------------------------+
ghost use Rattle.std.specs.Prelude.{◌≡◌, ◌≢◌, ◌↔◌, true, false, None, Some, [], length, IfOk, IfSome, is_some, option_map};
ghost use Rattle.wait_objects.specs.Seen.{IsEmpty};
ghost use Rattle.wait_objects.specs.Lists.{LastHasNone, AllButLastHold};
ghost use Rattle.wait_objects.specs.Turnstiles.Seen.{idle, IsIdle};
ghost use Rattle.wait_objects.specs.Turnstiles.Changes.{waiters, all_waiters, waits, with_owner, with_loan_home, begun, joined, left_by, taken, moved, best};

use crate::lending::Lending;
use crate::loan::Loan;
use crate::node::Node;
use crate::object::Object;
use crate::pending::Pending;
use crate::which::Which;
use lock_model::{LockNo, Prio, QueueName, Side, ThreadNo};
use std::alloc::{AllocError, Global};

/// A turnstile.
pub type Turnstile = Object<Lending>;

/// A thread's node for turnstiles.
pub type Waiter = Node<Lending>;

/// Waiters to be woken, in order, each with the turnstile that it takes back. Only the last one may
/// have none, and then the head is still to be given to it.
pub type Taken = Pending<Lending>;

impl Object<Lending> {
    /// An idle turnstile of a thread, with its loan node.
    pub fn make(alloc: Global, id: ThreadNo) -> Result<Box<Turnstile>, AllocError>
        ensures { IfOk result (λ b. b.value ≡ idle id.0) }
    {
        let home = Lending::make(alloc, id)?;
        Ok(Box::new(alloc, Object::idle(id, home))?)
    }

    /// Makes an idle turnstile the head for a lock, with one waiter. The node is empty.
    pub fn begin(&mut self, l: LockNo, node: Box<Waiter>, prio: Prio, side: Side)
        requires idle { IsIdle self.old }
        requires empty { IsEmpty node.value }
        ensures contents { self.new.contents
            ≡ begun l.0 (record { thread = node.value.place.thread; kept = prio.0 }) side
            self.old.contents }
        ensures next { self.new.next ≡ self.old.next }
    {
        self.start(QueueName::Lock(l), node, prio, side);
    }

    /// Lets one more thread wait: its node is put before the first of that side whose number is
    /// greater, and its turnstile `own` first on the free list. The turnstile is a head, `own` is idle
    /// with its loan node at home, the node is empty and its thread doesn't wait here yet.
    pub fn wait(&mut self, own: Box<Turnstile>, node: Box<Waiter>, prio: Prio, side: Side)
        requires head { all_waiters self.old.contents ≢ [] }
        requires own { own.value ≡ idle own.value.contents.number }
        requires empty { IsEmpty node.value }
        requires absent { waits node.value.place.thread self.old.contents ≡ false }
        ensures contents { self.new.contents
            ≡ joined own.value.contents.number
            (record { thread = node.value.place.thread; kept = prio.0 }) side self.old.contents }
        ensures next { self.new.next ≡ self.old.next }
    {
        self.join(own, node, prio, side);
    }

    /// Takes the first waiter of a side that isn't empty. It takes back the first turnstile of the free
    /// list; only where no waiter is left it gets none, and the head is its own.
    pub fn signal(&mut self, side: Side) -> Taken
        requires { waiters side self.old.contents ≢ [] }
        ensures taken { result ≡ taken 1 side self.old.contents }
        ensures others { AllButLastHold result }
        ensures last { LastHasNone result ↔ all_waiters self.new.contents ≡ [] }
        ensures contents { self.new.contents ≡ left_by 1 side self.old.contents }
        ensures next { self.new.next ≡ self.old.next }
    {
        self.take(Which::Best, side)
    }

    /// Takes all waiters of a side that isn't empty, in order. Each takes back the first turnstile of
    /// what is left of the free list; only where no waiter is left the last one gets none, and the head
    /// is its own.
    pub fn broadcast(&mut self, side: Side) -> Taken
        requires { waiters side self.old.contents ≢ [] }
        ensures taken { result
            ≡ taken (length (waiters side self.old.contents)) side self.old.contents }
        ensures others { AllButLastHold result }
        ensures last { LastHasNone result ↔ all_waiters self.new.contents ≡ [] }
        ensures contents { self.new.contents
            ≡ left_by (length (waiters side self.old.contents)) side self.old.contents }
        ensures next { self.new.next ≡ self.old.next }
    {
        self.take(Which::All, side)
    }

    /// Takes a thread that waits here out of its list and inserts it again with another priority, so
    /// that it stands behind its equals.
    pub fn adjust(&mut self, t: ThreadNo, prio: Prio)
        requires { waits t.0 self.old.contents ≡ true }
        ensures contents { self.new.contents ≡ moved t.0 prio.0 self.old.contents }
        ensures next { self.new.next ≡ self.old.next }
    {
        self.lists.adjust(t, prio);
    }

    /// The least priority number kept in either list. `None` comes exactly where both are empty.
    pub fn best(&self) -> Option<Prio>
        ensures { option_map (λ p. p.0) result ≡ best self.now.contents }
    {
        let lists = &self.lists;
        match (lists.least_kept(Side::X), lists.least_kept(Side::S)) {
            (None, shared) => shared,
            (exclusive, None) => exclusive,
            (Some(exclusive), Some(shared)) => Some(Prio(shared.0.min(exclusive.0))),
        }
    }

    /// Sets the owner of the lock.
    pub fn claim(&mut self, t: ThreadNo)
        ensures { self.new
            ≡ record self.old { contents = with_owner (Some t.0) self.old.contents } }
    {
        self.own.set_owner(Some(t));
    }

    /// Removes the owner of the lock.
    pub fn disown(&mut self)
        ensures { self.new ≡ record self.old { contents = with_owner None self.old.contents } }
    {
        self.own.set_owner(None);
    }

    /// Takes the loan node, which is labelled with this turnstile's number. `None` comes exactly where it
    /// is out.
    pub fn take_loan(&mut self) -> Option<Box<Loan>>
        ensures home { is_some result ≡ self.old.contents.own.loan_home }
        ensures own { IfSome result (λ b.
            (b.value.terms.number ≡ self.old.contents.number) × (b.value.next ≡ [])) }
        ensures left { self.new
            ≡ record self.old { contents = with_loan_home false self.old.contents } }
    {
        let mut loan = self.own.take_loan()?;
        loan.number = self.number;
        Some(loan)
    }

    /// Returns the loan node, which is out and this turnstile's own, with nothing behind it.
    pub fn put_home(&mut self, loan: Box<Loan>)
        requires out { self.old.contents.own.loan_home ≡ false }
        requires own { loan.value.terms.number ≡ self.old.contents.number }
        requires alone { loan.value.next ≡ [] }
        ensures { self.new ≡ record self.old { contents = with_loan_home true self.old.contents } }
    {
        self.own.put_home(loan);
    }

    /// The owner of the lock. `None` comes exactly where there is none.
    pub fn owner(&self) -> Option<ThreadNo>
        ensures { option_map (λ t. t.0) result ≡ self.now.contents.own.owner }
    {
        self.own.owner()
    }
}

impl Node<Lending> {
    /// Takes the turnstile that the node holds, which is idle and has its loan node. `None` comes
    /// exactly where it holds none.
    pub fn take_turnstile(&mut self) -> Option<Box<Turnstile>>
        ensures taken { option_map (λ b. b.value) result ≡ option_map idle self.old.place.object }
        ensures left { self.new
            ≡ record self.old { place = record self.old.place { object = None } } }
    {
        self.take_object()
    }
}
