//! A list of nodes that are linked by `next`.
ghost use Rattle.std.specs.Prelude.{◌≡◌, ◌↔◌, ◌<◌, ◌≤◌, ◌^◌, ℕ, true, nat_lt, [], ◌∷◌, length, map, drop, None, IfNone, IfSome, option_map, slice_get, IsTrue};
ghost use Rattle.lock_model.specs.Queues.{times_waiting, handed_out, best_of, least_kept, entry_of, without, reinsert};
ghost use Rattle.wait_objects.specs.Seen.{IsEmpty, idle_object};
ghost use Rattle.wait_objects.specs.Changes.{added, picked, unpicked, InOrder};
ghost use Rattle.wait_objects.specs.Inside.{waiting, AllIdle, AreWaiting};
ghost use Rattle.wait_objects.specs.Linked.{linked_places};
ghost use Rattle.wait_objects.specs.Lists.{place, with_last};

use crate::free_list::FreeList;
use crate::node::Node;
use crate::object::Object;
use crate::own::Own;
use crate::which::Which;
use lock_model::{Prio, ThreadNo};
use std::marker::Model;
use std::mem;

/// Nodes in a list, seen as their places.
#[cycle(object)]
#[derive(Drop)]
pub(crate) struct Waiters<E: Own> {
    first: Option<Box<Node<E>>>,
}

impl<E: Own> Model for Waiters<E> {
    ghost use Rattle.std.specs.Prelude.{List};
    ghost use Rattle.wait_objects.specs.Seen.{Place};

    ghost Value = { List Place };

    ghost use Rattle.wait_objects.specs.Inside.{places_in};
    ghost use Rattle.wait_objects.specs.Sizes.{waiters_size};

    ghost view = { places_in };

    ghost size = { waiters_size };

    ghost use Rattle.wait_objects.specs.Falls.{waiters_fall};

    ghost size_decreases = { λ a h. waiters_fall E.Own a };
}

impl<E: Own> Waiters<E> {
    pub(crate) fn empty() -> Waiters<E>
        ensures { result ≡ [] }
    {
        Waiters { first: None }
    }

    /// At most one node.
    pub(crate) fn of(first: Option<Box<Node<E>>>) -> Waiters<E>
        ensures { result ≡ linked_places first }
    {
        Waiters { first }
    }

    pub(crate) fn is_empty(&self) -> bool
        ensures { IsTrue result ↔ self.now ≡ [] }
    {
        self.first.is_none()
    }

    /// The first node. `None` comes exactly where there is none.
    pub(crate) fn first(&self) -> Option<&Node<E>>
        ensures none { IfNone result (self.now ≡ []) }
        ensures some { IfSome result (λ n. self.now ≡ n.now.place ∷ n.now.next) }
    {
        self.first.as_deref()
    }

    /// Adds an empty node: by rank, before the first one whose number is greater, or at the tail.
    pub(crate) fn insert(&mut self, mut node: Box<Node<E>>)
        requires { IsEmpty node.value }
        ensures inserted { map waiting self.new
            ≡ added E.RANKED (waiting node.value.place) (map waiting self.old) }
        ensures kept { AreWaiting E.RANKED self.old → AreWaiting E.RANKED self.new }
    {
        let new: &mut Node<E> = &mut node;
        match &mut self.first {
            None => self.first = Some(node),
            Some(first) => {
                let other: &mut Node<E> = first;
                if !E::RANKED || other.kept <= new.kept {
                    other.next.insert(node);
                } else {
                    new.next.first = self.first.take();
                    self.first = Some(node);
                }
            }
        }
    }

    /// Takes the first node.
    pub(crate) fn take_first(&mut self) -> Option<Box<Node<E>>>
        ensures none { IfNone result ((self.old ≡ []) × (self.new ≡ [])) }
        ensures some { IfSome result (λ b. (self.old ≡ b.value.place ∷ self.new)
            × (b.value.next ≡ [])) }
    {
        let mut first = self.first.take()?;
        let node: &mut Node<E> = &mut first;
        *self = mem::replace(&mut node.next, Waiters::empty());
        Some(first)
    }

    /// Takes the node of a thread.
    pub(crate) fn remove(&mut self, t: ThreadNo) -> Option<Box<Node<E>>>
        ensures entry { option_map (λ b. waiting b.value.place) result
            ≡ entry_of t.0 (map waiting self.old) }
        ensures left { map waiting self.new ≡ without t.0 (map waiting self.old) }
        ensures empty { AreWaiting E.RANKED self.old → IfSome result (λ b. IsEmpty b.value) }
        ensures kept { AreWaiting E.RANKED self.old → AreWaiting E.RANKED self.new }
    {
        let Some(first) = &mut self.first else {
            return None;
        };
        let node: &mut Node<E> = first;
        if t != node.thread {
            return node.next.remove(t);
        }
        let mut found = self.first.take()?;
        let node: &mut Node<E> = &mut found;
        *self = mem::replace(&mut node.next, Waiters::empty());
        Some(found)
    }

    /// Takes some nodes off.
    pub(crate) fn take(&mut self, which: Which) -> Waiters<E>
        requires once { (t : ℕ) → times_waiting t (map waiting self.old) ≤ 1 }
        requires waiting { AreWaiting E.RANKED self.old }
        ensures taken { map waiting result ≡ picked which (map waiting self.old) }
        ensures left { map waiting self.new ≡ unpicked which (map waiting self.old) }
        ensures kept { AreWaiting E.RANKED self.new }
    {
        match which {
            Which::All => mem::replace(self, Waiters::empty()),
            Which::Thread(t) => Waiters::of(self.remove(t)),
            Which::Best => match self.best() {
                None => Waiters::empty(),
                Some((t, _)) => Waiters::of(self.remove(t)),
            },
        }
    }

    /// Takes a thread out, and adds it again with another priority.
    pub(crate) fn adjust(&mut self, t: ThreadNo, prio: Prio)
        requires ranked { E.RANKED ≡ true }
        requires waiting { AreWaiting E.RANKED self.old }
        ensures moved { map waiting self.new ≡ reinsert t.0 prio.0 (map waiting self.old) }
        ensures kept { AreWaiting E.RANKED self.new }
    {
        if let Some(mut node) = self.remove(t) {
            node.keep(prio);
            self.insert(node);
        }
    }

    /// Gives each thread in turn the first object of the free list.
    pub(crate) fn deal(&mut self, free: &mut FreeList<E>)
        requires { AllIdle E.home free.old }
        ensures dealt { self.new
            ≡ map place (handed_out (map waiting self.old) (map (λ c. c.number) free.old) None) }
        ensures left { free.new ≡ drop (length self.old) free.old }
    {
        if let Some(first) = &mut self.first {
            let node: &mut Node<E> = first;
            node.object = free.take();
            node.next.deal(free);
        }
    }

    /// Gives the last thread an idle object.
    pub(crate) fn fill_last(&mut self, own: Box<Object<E>>)
        requires { own.value ≡ idle_object E.home own.value.contents.number }
        ensures { self.new ≡ with_last own.value.contents.number self.old }
    {
        if let Some(first) = &mut self.first {
            let node: &mut Node<E> = first;
            if node.next.is_empty() {
                node.object = Some(own);
            } else {
                node.next.fill_last(own);
            }
        }
    }

    pub(crate) fn contains(&self, t: ThreadNo) -> bool
        ensures { result ≡ nat_lt 0 (times_waiting t.0 (map waiting self.now)) }
    {
        match &self.first {
            None => false,
            Some(first) => {
                let node: &Node<E> = first;
                t == node.thread || node.next.contains(t)
            }
        }
    }

    /// How many there are.
    pub(crate) fn count(&self) -> u32
        requires { length self.now < 2 ^ 32 }
        ensures { result ≡ length self.now }
    {
        match &self.first {
            None => 0,
            Some(first) => {
                let node: &Node<E> = first;
                1 + node.next.count()
            }
        }
    }

    /// The thread at a place, with its kept priority.
    pub(crate) fn at(&self, i: u32) -> Option<(ThreadNo, Prio)>
        ensures { option_map (λ w. record { thread = w.0.0; kept = w.1.0 }) result
            ≡ slice_get (map waiting self.now) i }
    {
        match &self.first {
            None => None,
            Some(first) => {
                let node: &Node<E> = first;
                if i == 0 {
                    Some((node.thread, node.kept))
                } else {
                    node.next.at(i - 1)
                }
            }
        }
    }

    /// The thread with the least number, and the first of equals. In a list by rank it is the first.
    pub(crate) fn best(&self) -> Option<(ThreadNo, Prio)>
        requires { InOrder E.RANKED (map waiting self.now) }
        ensures { option_map (λ w. record { thread = w.0.0; kept = w.1.0 }) result
            ≡ best_of (map waiting self.now) }
    {
        match &self.first {
            None => None,
            Some(first) => {
                let node: &Node<E> = first;
                let own = (node.thread, node.kept);
                if E::RANKED {
                    return Some(own);
                }
                match node.next.best() {
                    None => Some(own),
                    Some(behind) => Some(if behind.1 < own.1 { behind } else { own }),
                }
            }
        }
    }

    /// The least number that is kept for a thread.
    #[tactic(auto, using(crate::proofs::Best::least_is_best))]
    pub(crate) fn least_kept(&self) -> Option<Prio>
        requires { InOrder E.RANKED (map waiting self.now) }
        ensures { option_map (λ p. p.0) result ≡ least_kept (map waiting self.now) }
    {
        Some(self.best()?.1)
    }
}
