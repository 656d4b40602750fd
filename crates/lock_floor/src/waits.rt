//! Steps by which a thread comes to stand on the queue of a lock, as in `turnstile_wait` of FreeBSD's subr_turnstile.c:
//! its own wait word says so first, and then the lock's word shows a waiter. Each is one atomic step, never waits and
//! takes no memory.
ghost use Rattle.std.specs.Prelude.{ℕ, ◌≡◌, ◌≢◌, ◌<◌, ◌==◌, Bool, true, false, ⊤, None, Some, [], ◌∷◌, length, option_map, if◌then◌else◌, IfOk, IfErr, IsSome};
ghost use Rattle.std.specs.Box.{with_value};
ghost use prog.Atomic.{either};
ghost use Rattle.atomic_table.specs.Table.{Allows};
ghost use Rattle.chain_table.specs.Chains.{head_of};
ghost use Rattle.lock_model.specs.Queues.{lock_queue, side_of};
ghost use Rattle.lock_model.specs.Words.{word_of, IsWellFormed, is_free, owner_of, entered as shown};
ghost use Rattle.lock_objects.specs.Enters.{CanStand, waiter_of, record_entered, chain_entered};
ghost use Rattle.lock_state.specs.Steps.{Looks, Enters};
ghost use Rattle.floor_table.specs.declared.slot.Slot.TheVariants.{Record, Turnstiles};
ghost use Rattle.floor_table.specs.Places.{spot, wait_line, lock_line};
ghost use Rattle.floor_table.specs.Rule.{FloorHolds};
ghost use Rattle.floor_table.specs.Steps.{MayMake, Makes};
ghost use Rattle.floor_table.specs.Views.{seeing};
ghost use Rattle.lock_floor.specs.Passes.{IsOf};
ghost use Rattle.lock_floor.specs.Views.{counts, looked};
ghost use Rattle.lock_floor.specs.Waits.{readies, readied, both_out, out_entered, entered};

use crate::floor::FloorOf;
use crate::pass::Pass;
use floor_table::{
    Board, Description, FloorSeat, Law, Slot, Tells, View, exchange, lock_spot, store, wait_spot,
};
use lock_model::{LockNo, Mode, QueueName, Side, ThreadNo};
use lock_words::owner_of;
use std::marker::Brand;

// What a wait word says of a thread that runs, and of one that is queued.
const RUNNING: u64 = 0;

const QUEUED: u64 = 1;

impl FloorOf<Slot, View, Description, Law> {
    /// Makes the thread ready for a queue, whose chain it has out: its own wait word says that it is queued. Or it
    /// makes a thread that stands on no queue run again.
    pub fn ready(&self, pass: &mut Pass, q: QueueName, queued: bool)
        requires own { IsOf self.now pass.old }
        requires may { MayMake self.now.description pass.old.view (λ s. ⊤)
            (readies queued pass.old.view.thread q ∷ []) }
        ensures own { IsOf self.now pass.new }
        ensures view { pass.new.view ≡ seeing pass.new.view.seen (readied queued pass.old.view) }
        ensures step { Makes self.now.description (readies queued pass.old.view.thread q ∷ [])
            pass.old.view pass.new.view }
    {
        say_wait::<Brand>(&self.board, &mut pass.seat, pass.who, q, queued);
    }

    /// Stands on a side of a lock's turnstile, where the lock's word is still the one that was seen. The thread has its
    /// record and the chain of the lock's queue out: it lends its turnstile, and its record names the queue. A first
    /// waiter brings the owner, and the thread's walk begins at a lock that has one. `Err` has the word that stands
    /// there else, and then the call was a look.
    pub fn enter(&self, pass: &mut Pass, l: LockNo, mode: Mode, seen: u64) -> Result<(), u64>
        requires own { IsOf self.now pass.old }
        requires lock { l.0 < length self.now.description.locks }
        requires word { IsWellFormed (word_of seen) }
        requires held { is_free (word_of seen).holder ≡ false }
        requires out { (x : ℕ) × (b : _) × (chain : _) × (pass.old.view.out
            ≡ both_out self.now.description pass.old.view.thread l.0 b chain)
            × (b.value.turnstile ≡ Some x)
            × MayMake self.now.description pass.old.view (λ s. s.word l.0 ≡ word_of seen)
            (Enters pass.old.view.thread l.0 mode x ∷ []) }
        requires may_look { MayMake self.now.description pass.old.view (λ s. ⊤)
            (Looks pass.old.view.thread l.0 (counts pass.old.view l.0) ∷ []) }
        ensures own { IsOf self.now pass.new }
        ensures step { IfOk result (λ _. (x : ℕ) × (b : _) × (chain : _) × (pass.old.view.out
            ≡ both_out self.now.description pass.old.view.thread l.0 b chain)
            × (b.value.turnstile ≡ Some x)
            × (pass.new.view ≡ seeing pass.new.view.seen (entered pass.old.view l.0
            (owner_of (word_of seen).holder) (out_entered self.now.description
            pass.old.view.thread l.0 mode x (owner_of (word_of seen).holder) b chain)))
            × Makes self.now.description (Enters pass.old.view.thread l.0 mode x ∷ [])
            pass.old.view pass.new.view) }
        ensures found { IfErr result (λ found. (found ≢ seen) × IsWellFormed (word_of found)) }
        ensures looked { IfErr result (λ found. pass.new.view
            ≡ seeing pass.new.view.seen (looked pass.old.view l.0 (word_of found))) }
        ensures look { IfErr result (λ found. Makes self.now.description
            (Looks pass.old.view.thread l.0 (counts pass.old.view l.0) ∷ [])
            pass.old.view pass.new.view) }
    {
        let found = enter_word::<Brand>(&self.board, &mut pass.seat, l, mode, seen);
        if found != seen {
            return Err(found);
        }
        let (own, chain) = (usize::from(pass.who.0), self.chain_slot(QueueName::Lock(l)));
        let owner = owner_of(seen);
        stand(
            &self.board,
            &mut pass.seat,
            own,
            chain,
            l,
            side_of(mode),
            owner,
        );
        Ok(())
    }
}

// Makes the thread's own wait word say that it is queued, or that it runs.
fn say_wait<J: Tells>(
    board: &Board,
    seat: &mut FloorSeat,
    who: ThreadNo,
    _q: QueueName,
    queued: bool,
)
    requires own { seat.old.table_id ≡ board.now.shared.table_id }
    requires within { spot (wait_line who.0) < board.now.shared.table_id.words }
    requires may { Allows (FloorHolds board.now.shared.key) board.now.shared.table_id.slots
        seat.old.id seat.old.me (spot (wait_line who.0)) (λ _. if queued then 1 else 0)
        (λ _. J.told seat.old.me (if queued then 1 else 0)) }
    ensures own { seat.new.table_id ≡ seat.old.table_id }
    ensures told { J.told seat.old.me (if queued then 1 else 0) seat.new.me }
{
    store::<J>(
        board,
        seat,
        wait_spot(who),
        if queued { QUEUED } else { RUNNING },
    );
}

// Makes a word that is the seen one show waiters of a side. Answers the word that it found.
pub(crate) fn enter_word<J: Tells>(
    board: &Board,
    seat: &mut FloorSeat,
    l: LockNo,
    mode: Mode,
    seen: u64,
) -> u64
    requires own { seat.old.table_id ≡ board.now.shared.table_id }
    requires within { spot (lock_line l.0) < board.now.shared.table_id.words }
    requires word { IsWellFormed (word_of seen) }
    requires held { is_free (word_of seen).holder ≡ false }
    requires may { (new : ℕ) → word_of new ≡ shown (word_of seen) (side_of mode)
        → Allows (FloorHolds board.now.shared.key) board.now.shared.table_id.slots seat.old.id
        seat.old.me (spot (lock_line l.0)) (λ n. either (n == seen) new n)
        (J.told seat.old.me) }
    ensures own { seat.new.table_id ≡ seat.old.table_id }
    ensures told { J.told seat.old.me result seat.new.me }
{
    let new = lock_words::entered(seen, side_of(mode));
    exchange::<J>(board, seat, lock_spot(l), seen, new)
}

// Stands on a side of a lock's turnstile, in the chain that was taken before the own record, which the seat has out
// first.
fn stand(
    board: &Board,
    seat: &mut FloorSeat,
    own: usize,
    at: usize,
    l: LockNo,
    side: Side,
    owner: Option<ThreadNo>,
)
    requires own { seat.old.table_id ≡ board.now.shared.table_id }
    requires out { (b : _) × (chain : _)
        × (seat.old.me.1 ≡ (own, Record b) ∷ (at, Turnstiles chain) ∷ [])
        × IsSome b.value.turnstile × CanStand b.value.thread (head_of (lock_queue l.0) chain) }
    ensures own { seat.new.table_id ≡ seat.old.table_id }
    ensures view { seat.new.me.0 ≡ seat.old.me.0 }
    ensures out { (b : _) (chain : _) (x : ℕ) → b.value.turnstile ≡ Some x
        → seat.old.me.1 ≡ (own, Record b) ∷ (at, Turnstiles chain) ∷ []
        → seat.new.me.1 ≡ (own, Record (with_value b (record_entered l.0 b.value)))
        ∷ (
          at,
          Turnstiles (chain_entered l.0 side x (option_map (λ t. t.0) owner)
              (waiter_of b.value) chain),
        ) ∷ [] }
{
    // the record moves out, so that the chain can change beside it
    let mut first = board.shared.exchange(seat, own, Slot::Cell(None));
    seat.turn();
    match &mut first {
        Slot::Record(rec) => match seat.slot_mut(&board.shared, at) {
            Slot::Turnstiles(chain) => lock_objects::enter(chain, rec, l, side, owner),
            Slot::Record(_) | Slot::Cell(_) | Slot::SleepQueues(_) | Slot::Graph(_) => {
                unreachable!()
            }
        },
        Slot::Cell(_) | Slot::Turnstiles(_) | Slot::SleepQueues(_) | Slot::Graph(_) => {
            unreachable!()
        }
    }
    seat.turn();
    board.shared.exchange(seat, own, first);
}

// The side on which a thread waits that wants a lock in a mode.
pub(crate) fn side_of(mode: Mode) -> Side
    ensures { result ≡ side_of mode }
{
    match mode {
        Mode::Excl => Side::X,
        Mode::Shared => Side::S,
    }
}
