//! How a thread whose counting out left nobody awake sets the halt word, and how it finds the sleepers that it takes
//! off their queues then, by aborts (`aborting`); the last of a side of an sx lock's queue by a step on the lock's
//! word, which shows nobody there then. Each is one atomic step or none, never waits and takes no memory.
ghost use Rattle.std.specs.Prelude.{◌≡◌, ◌+◌, ◌<◌, ◌%◌, ◌^◌, ℕ, ⊤, [], ◌∷◌, length, IfNone, IfSome};
ghost use Rattle.atomic_table.specs.Table.{Allows, rest};
ghost use Rattle.lock_model.specs.Counts.{is_empty};
ghost use Rattle.lock_state.specs.Steps.{Halts};
ghost use Rattle.sleep_queues.specs.Changes.{waiters};
ghost use Rattle.floor_table.specs.declared.slot.Slot.TheVariants.{SleepQueues};
ghost use Rattle.floor_table.specs.Places.{spot, halt_line, lock_line};
ghost use Rattle.floor_table.specs.Rule.{FloorHolds};
ghost use Rattle.floor_table.specs.Steps.{MayMake, Makes};
ghost use Rattle.floor_table.specs.Views.{seeing};
ghost use Rattle.lock_floor.specs.Halting.{added_off, AbortsLast, MayAbortLast, NobodySleeps, SleepsFirst};
ghost use Rattle.lock_floor.specs.Passes.{IsOf};
ghost use Rattle.lock_floor.specs.Waits.{IsQueueOf, chain_place};

use crate::aborting::take_sleeper;
use crate::floor::FloorOf;
use crate::pass::Pass;
use chain_table::Chain;
use floor_table::{
    Board, Description, FloorSeat, Law, Slot, Tells, View, add, halt_spot, lock_spot, store,
};
use lock_model::{LockNo, QueueName, Side, ThreadNo};
use lock_objects::Marked;
use sleep_queues::SleepQueue;
use std::marker::Brand;

/// The first of those that sleep on a queue.
#[derive(Clone, Copy, Debug, PartialEq, Eq)]
pub struct FirstSleeper {
    pub thread: ThreadNo,
    pub side: Side,
    /// Whether nobody else sleeps on that side.
    pub alone: bool,
}

impl FloorOf<Slot, View, Description, Law> {
    /// Sets the halt word. The thread's counting out left nobody awake, it counted itself in, and it has seen that a
    /// thread hasn't ended.
    pub fn halt(&self, pass: &mut Pass)
        requires own { IsOf self.now pass.old }
        requires may { MayMake self.now.description pass.old.view (λ s. ⊤)
            (Halts pass.old.view.thread ∷ []) }
        ensures own { IsOf self.now pass.new }
        ensures view { pass.new.view ≡ seeing pass.new.view.seen pass.old.view }
        ensures step { Makes self.now.description (Halts pass.old.view.thread ∷ [])
            pass.old.view pass.new.view }
    {
        set_halt::<Brand>(&self.board, &mut pass.seat);
    }

    /// Takes the last sleeper of a side off an sx lock's queue by an abort: it alone is in the marked list then, and
    /// the lock's word shows nobody on that side. The lock's chain was taken last.
    pub fn abort_last(&self, pass: &mut Pass, l: LockNo, side: Side, t: ThreadNo)
        requires own { IsOf self.now pass.old }
        requires lock { l.0 < length self.now.description.locks }
        requires may { MayAbortLast self.now.description l.0 side t.0 pass.old.view }
        ensures own { IsOf self.now pass.new }
        ensures aborts { AbortsLast self.now.description l.0 side t.0 pass.old.view pass.new.view }
    {
        hide::<Brand>(&self.board, &mut pass.seat, l, side, t, off(side));
        let at = self.chain_slot(QueueName::Lock(l));
        let woken = take_sleeper(&self.board, &mut pass.seat, at, QueueName::Lock(l), t);
        pass.marked = Marked::AbortedSleepers(woken);
    }

    /// The first sleeper of a queue, whose chain was taken last: those of the exclusive side come first. `None` comes
    /// exactly where nobody sleeps there. It is no step.
    pub fn first_sleeper(&self, pass: &mut Pass, q: QueueName) -> Option<FirstSleeper>
        requires own { IsOf self.now pass.old }
        requires queue { IsQueueOf self.now.description q }
        requires last { (chain : _) × (pass.old.view.out
            ≡ (chain_place self.now.description q, SleepQueues chain) ∷ rest pass.old.view.out) }
        ensures same { pass.new ≡ pass.old }
        ensures none { IfNone result ((chain : _) → pass.old.view.out
            ≡ (chain_place self.now.description q, SleepQueues chain) ∷ rest pass.old.view.out
            → NobodySleeps q chain) }
        ensures some { IfSome result (λ x. (chain : _) → pass.old.view.out
            ≡ (chain_place self.now.description q, SleepQueues chain) ∷ rest pass.old.view.out
            → SleepsFirst q x chain) }
    {
        let at = self.chain_slot(q);
        match pass.seat.slot_mut(&self.board.shared, at) {
            Slot::SleepQueues(chain) => first_asleep(chain, q),
            Slot::Record(_) | Slot::Cell(_) | Slot::Turnstiles(_) | Slot::Graph(_) =>
                unreachable!(),
        }
    }
}

// The first sleeper of a queue in a chain. `None` comes exactly where nobody sleeps there.
fn first_asleep(chain: &Chain<SleepQueue>, q: QueueName) -> Option<FirstSleeper>
    ensures none { IfNone result (NobodySleeps q chain.now) }
    ensures some { IfSome result (λ x. SleepsFirst q x chain.now) }
{
    let head = chain.find(q)?;
    match first_on(head, Side::X) {
        Some(first) => Some(first),
        None => first_on(head, Side::S),
    }
}

// The first sleeper of a side. `None` comes exactly where nobody sleeps there.
fn first_on(head: &SleepQueue, side: Side) -> Option<FirstSleeper>
    ensures none { IfNone result (waiters side head.now.contents ≡ []) }
    ensures some { IfSome result (λ x. (x.side ≡ side)
        × ((w : _) × (ws : _) × (waiters side head.now.contents ≡ w ∷ ws)
        × (w.thread ≡ x.thread.0) × (x.alone ≡ is_empty ws))) }
{
    match head.waiter_at(side, 0) {
        Some(first) => Some(FirstSleeper {
            thread: first.0,
            side,
            alone: is_alone(head, side),
        }),
        None => None,
    }
}

// Whether no second one sleeps on a side.
fn is_alone(head: &SleepQueue, side: Side) -> bool
    ensures { (w : _) (ws : _) → waiters side head.now.contents ≡ w ∷ ws → result ≡ is_empty ws }
{
    match head.waiter_at(side, 1) {
        Some(_) => false,
        None => true,
    }
}

// Makes the halt word 1.
fn set_halt<J: Tells>(board: &Board, seat: &mut FloorSeat)
    requires own { seat.old.table_id ≡ board.now.shared.table_id }
    requires within { spot halt_line < board.now.shared.table_id.words }
    requires may { Allows (FloorHolds board.now.shared.key) board.now.shared.table_id.slots
        seat.old.id seat.old.me (spot halt_line) (λ _. 1) (λ _. J.told seat.old.me 1) }
    ensures own { seat.new.table_id ≡ seat.old.table_id }
    ensures told { J.told seat.old.me 1 seat.new.me }
{
    store::<J>(board, seat, halt_spot(), 1);
}

// What makes a lock's word show nobody on a side, where it is added to it: the bit of the side is taken off.
fn off(side: Side) -> u64
    ensures { result ≡ added_off side }
{
    match side {
        Side::X => u64::MAX,
        Side::S => u64::MAX - 1,
    }
}

// Adds to a lock's word, which shows somebody on that side, so that it shows nobody there.
fn hide<J: Tells>(board: &Board, seat: &mut FloorSeat, l: LockNo, _side: Side, _t: ThreadNo, n: u64)
    requires own { seat.old.table_id ≡ board.now.shared.table_id }
    requires within { spot (lock_line l.0) < board.now.shared.table_id.words }
    requires may { Allows (FloorHolds board.now.shared.key) board.now.shared.table_id.slots
        seat.old.id seat.old.me (spot (lock_line l.0)) (λ found. (found + n) % 2 ^ 64)
        (J.told seat.old.me) }
    ensures own { seat.new.table_id ≡ seat.old.table_id }
    ensures told { (found : ℕ) × J.told seat.old.me found seat.new.me }
{
    add::<J>(board, seat, lock_spot(l), n);
}
