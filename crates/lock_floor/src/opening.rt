//! The release of a lock by its last holder where waiters are shown, as in `mtx_unlock_sleep` of FreeBSD's kern_mutex.c
//! with `turnstile_broadcast` of its subr_turnstile.c: in the step that frees the word, what the waiters lent goes
//! home, and those of a side are taken off the turnstile. Who releases the lock wakes them afterwards. It takes no
//! memory.
ghost use Rattle.std.specs.Prelude.{◌≡◌, ◌≢◌, ◌<◌, ◌==◌, ⊤, true, false, Some, [], ◌∷◌, length, IfOk, IfErr};
ghost use Rattle.std.specs.Box.{with_value};
ghost use prog.Atomic.{either};
ghost use Rattle.atomic_table.specs.Table.{Allows};
ghost use Rattle.chain_table.specs.Chains.{head_of};
ghost use Rattle.lock_model.specs.Queues.{lock_queue};
ghost use Rattle.lock_model.specs.Words.{word_of, IsWellFormed, is_free, is_turnstile, is_drop};
ghost use Rattle.lock_objects.specs.Opens.{CanOpen, record_opened, chain_opened, woken_of};
ghost use Rattle.lock_state.specs.Steps.{Looks};
ghost use Rattle.floor_table.specs.Descriptions.{config_in};
ghost use Rattle.floor_table.specs.declared.slot.Slot.TheVariants.{Record, Turnstiles};
ghost use Rattle.floor_table.specs.Places.{spot, lock_line};
ghost use Rattle.floor_table.specs.Rule.{FloorHolds};
ghost use Rattle.floor_table.specs.Steps.{MayMake, Makes};
ghost use Rattle.floor_table.specs.Views.{seeing};
ghost use Rattle.lock_floor.specs.Opens.{HasBothOut, MayOpenUp, OpensUp};
ghost use Rattle.lock_floor.specs.Passes.{IsOf};
ghost use Rattle.lock_floor.specs.Views.{counts, looked};

use crate::floor::FloorOf;
use crate::pass::{Pass, leave};
use floor_table::{Board, Description, FloorSeat, Law, Slot, Tells, View, exchange, lock_spot};
use lock_model::{LockNo, QueueName, Side};
use lock_objects::Marked;
use std::marker::Brand;
use turnstile_core::Taken;

impl FloorOf<Slot, View, Description, Law> {
    /// Releases a lock of a kind with turnstiles, of which the thread is the last holder, where its word is still the
    /// one that was seen, and takes those of a side off its turnstile: they are in the marked list then. The thread
    /// took the lock's chain, and then its own record. `Err` has the word that stands there else, and then the call was
    /// a look. It is one atomic step, and never waits.
    pub fn open_up(&self, pass: &mut Pass, l: LockNo, seen: u64) -> Result<(), u64>
        requires own { IsOf self.now pass.old }
        requires lock { l.0 < length self.now.description.locks }
        requires turnstile { is_turnstile ((config_in self.now.description).kind l.0) ≡ true }
        requires word { IsWellFormed (word_of seen) }
        requires held { is_free (word_of seen).holder ≡ false }
        requires opens { is_drop (word_of seen) ≡ false }
        requires out { HasBothOut self.now.description l.0 pass.old.view }
        requires may { MayOpenUp self.now.description l.0 (word_of seen) pass.old.view }
        requires may_look { MayMake self.now.description pass.old.view (λ s. ⊤)
            (Looks pass.old.view.thread l.0 (counts pass.old.view l.0) ∷ []) }
        ensures own { IsOf self.now pass.new }
        ensures opens { IfOk result (λ _. OpensUp self.now.description l.0 (word_of seen)
            pass.old.view pass.new.view) }
        ensures found { IfErr result (λ found. (found ≢ seen) × IsWellFormed (word_of found)) }
        ensures looked { IfErr result (λ found. pass.new.view
            ≡ seeing pass.new.view.seen (looked pass.old.view l.0 (word_of found))) }
        ensures look { IfErr result (λ found. Makes self.now.description
            (Looks pass.old.view.thread l.0 (counts pass.old.view l.0) ∷ [])
            pass.old.view pass.new.view) }
    {
        let (new, Some(side)) = lock_words::opened(self.kind(l), seen) else {
            unreachable!()
        };
        let found = open_word::<Brand>(&self.board, &mut pass.seat, l, seen, new);
        if found != seen {
            return Err(found);
        }
        let chain = self.chain_slot(QueueName::Lock(l));
        let own = usize::from(pass.who.0);
        let woken = take_side(&self.board, &mut pass.seat, own, chain, l, side);
        pass.marked = Marked::Waiters(woken);
        leave(l, &mut pass.held);
        Ok(())
    }
}

// Makes a word that is the seen one the free word that its last holder leaves. Answers the word that it found.
pub(crate) fn open_word<J: Tells>(
    board: &Board,
    seat: &mut FloorSeat,
    l: LockNo,
    seen: u64,
    new: u64,
) -> u64
    requires own { seat.old.table_id ≡ board.now.shared.table_id }
    requires within { spot (lock_line l.0) < board.now.shared.table_id.words }
    requires may { Allows (FloorHolds board.now.shared.key) board.now.shared.table_id.slots
        seat.old.id seat.old.me (spot (lock_line l.0)) (λ n. either (n == seen) new n)
        (J.told seat.old.me) }
    ensures own { seat.new.table_id ≡ seat.old.table_id }
    ensures told { J.told seat.old.me result seat.new.me }
{
    exchange::<J>(board, seat, lock_spot(l), seen, new)
}

// Takes those of a side off a lock's turnstile, in the chain that lies behind the own record in what the seat has out.
fn take_side(
    board: &Board,
    seat: &mut FloorSeat,
    own: usize,
    at: usize,
    l: LockNo,
    side: Side,
) -> Taken
    requires own { seat.old.table_id ≡ board.now.shared.table_id }
    requires out { (b : _) × (chain : _) × (h : _)
        × (seat.old.me.1 ≡ (own, Record b) ∷ (at, Turnstiles chain) ∷ [])
        × (head_of (lock_queue l.0) chain ≡ Some h) × CanOpen l.0 side b.value h }
    ensures own { seat.new.table_id ≡ seat.old.table_id }
    ensures view { seat.new.me.0 ≡ seat.old.me.0 }
    ensures out { (b : _) (chain : _) (h : _) → head_of (lock_queue l.0) chain ≡ Some h
        → seat.old.me.1 ≡ (own, Record b) ∷ (at, Turnstiles chain) ∷ []
        → seat.new.me.1 ≡ (own, Record (with_value b (record_opened l.0 b.value)))
        ∷ (at, Turnstiles (chain_opened l.0 side b.value h chain)) ∷ [] }
    ensures woken { (b : _) (chain : _) (h : _) → head_of (lock_queue l.0) chain ≡ Some h
        → seat.old.me.1 ≡ (own, Record b) ∷ (at, Turnstiles chain) ∷ []
        → result ≡ woken_of l.0 side b.value h.contents }
{
    let mut first = board.shared.exchange(seat, own, Slot::Cell(None));
    seat.turn();
    let Slot::Record(rec) = &mut first else {
        unreachable!()
    };
    let Slot::Turnstiles(chain) = seat.slot_mut(&board.shared, at) else {
        unreachable!()
    };
    let woken = lock_objects::open(chain, rec, l, side);
    seat.turn();
    board.shared.exchange(seat, own, first);
    woken
}
