//! The two lists of an object: those who wait exclusively, and those who wait shared.
ghost use Rattle.std.specs.Prelude.{◌≡◌, ◌↔◌, ◌≤◌, ℕ, true, nat_lt, [], length, map, IfNone, IfSome, option_map, slice_get, IsTrue};
ghost use Rattle.lock_model.specs.declared.plan.Side.{Side};
ghost use Rattle.lock_model.specs.Queues.{list_of, with_list, times_waiting, stands, least_kept, with_kept};
ghost use Rattle.wait_objects.specs.Seen.{IsEmpty};
ghost use Rattle.wait_objects.specs.Changes.{added, picked, unpicked, InOrder};
ghost use Rattle.wait_objects.specs.Inside.{waiting};

use crate::node::Node;
use crate::own::Own;
use crate::waiters::Waiters;
use crate::which::Which;
use lock_model::{Prio, Side, ThreadNo};
use std::marker::Model;

/// The lists of both sides.
#[cycle(object)]
#[derive(Drop)]
pub(crate) struct Lists<E: Own> {
    exclusive: Waiters<E>,
    shared: Waiters<E>,
}

impl<E: Own> Model for Lists<E> {
    ghost use Rattle.lock_model.specs.Queues.{Lists as Seen};

    ghost Value = { Seen };

    ghost use Rattle.wait_objects.specs.Inside.{seen_lists, AreLists};
    ghost use Rattle.wait_objects.specs.Sizes.{lists_size};

    ghost view = { seen_lists };

    ghost invariant = { λ a. AreLists E.RANKED a };

    ghost size = { lists_size };

    ghost use Rattle.wait_objects.specs.Falls.{lists_fall};

    ghost size_decreases = { λ a h. lists_fall E.Own a };
}

impl<E: Own> Lists<E> {
    pub(crate) fn empty() -> Lists<E>
        ensures { result ≡ record { exclusive = []; shared = [] } }
    {
        Lists {
            exclusive: Waiters::empty(),
            shared: Waiters::empty(),
        }
    }

    pub(crate) fn is_empty(&self, side: Side) -> bool
        ensures empty { IsTrue result ↔ list_of side self.now ≡ [] }
        ensures in_order { (s : Side) → InOrder E.RANKED (list_of s self.now) }
    {
        match side {
            Side::X => self.exclusive.is_empty(),
            Side::S => self.shared.is_empty(),
        }
    }

    /// Adds an empty node on a side.
    pub(crate) fn insert(&mut self, node: Box<Node<E>>, side: Side)
        requires { IsEmpty node.value }
        ensures { self.new
            ≡ with_list side (added E.RANKED (waiting node.value.place) (list_of side self.old))
            self.old }
    {
        match side {
            Side::X => self.exclusive.insert(node),
            Side::S => self.shared.insert(node),
        }
    }

    /// Takes some nodes off a side. Each thread stands there at most once.
    pub(crate) fn take(&mut self, which: Which, side: Side) -> Waiters<E>
        requires { (t : ℕ) → times_waiting t (list_of side self.old) ≤ 1 }
        ensures taken { map waiting result ≡ picked which (list_of side self.old) }
        ensures left { self.new ≡ with_list side (unpicked which (list_of side self.old)) self.old }
        ensures in_order { InOrder E.RANKED (list_of side self.old) }
    {
        match side {
            Side::X => self.exclusive.take(which),
            Side::S => self.shared.take(which),
        }
    }

    /// Takes a thread out of its list, and adds it there again with another priority.
    pub(crate) fn adjust(&mut self, t: ThreadNo, prio: Prio)
        requires { E.RANKED ≡ true }
        ensures { self.new ≡ with_kept t.0 prio.0 self.old }
    {
        self.exclusive.adjust(t, prio);
        self.shared.adjust(t, prio);
    }

    pub(crate) fn contains(&self, t: ThreadNo) -> bool
        ensures { result ≡ nat_lt 0 (stands t.0 self.now) }
    {
        self.exclusive.contains(t) || self.shared.contains(t)
    }

    /// How many stand on a side. Each thread stands there at most once.
    pub(crate) fn count(&self, side: Side) -> u32
        requires { (t : ℕ) → times_waiting t (list_of side self.now) ≤ 1 }
        ensures { result ≡ length (list_of side self.now) }
    {
        match side {
            Side::X => self.exclusive.count(),
            Side::S => self.shared.count(),
        }
    }

    /// The thread at a place of a side, with its kept priority.
    pub(crate) fn at(&self, side: Side, i: u32) -> Option<(ThreadNo, Prio)>
        ensures { option_map (λ w. record { thread = w.0.0; kept = w.1.0 }) result
            ≡ slice_get (list_of side self.now) i }
    {
        match side {
            Side::X => self.exclusive.at(i),
            Side::S => self.shared.at(i),
        }
    }

    /// The least number that is kept on a side.
    pub(crate) fn least_kept(&self, side: Side) -> Option<Prio>
        ensures { option_map (λ p. p.0) result ≡ least_kept (list_of side self.now) }
    {
        match side {
            Side::X => self.exclusive.least_kept(),
            Side::S => self.shared.least_kept(),
        }
    }

    /// The side on which a thread stands.
    pub(crate) fn side_of(&self, t: ThreadNo) -> Option<Side>
        ensures none { IfNone result (stands t.0 self.now ≡ 0) }
        ensures some { IfSome result (λ side.
            nat_lt 0 (times_waiting t.0 (list_of side self.now)) ≡ true) }
    {
        if self.exclusive.contains(t) {
            Some(Side::X)
        } else if self.shared.contains(t) {
            Some(Side::S)
        } else {
            None
        }
    }
}
