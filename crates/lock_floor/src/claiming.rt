//! The exclusive gain of a free reader-writer lock whose word shows waiters, as in `__rw_wlock_hard` of FreeBSD's
//! kern_rwlock.c with `turnstile_claim` of its subr_turnstile.c: in the step that makes the word the thread's own, the
//! thread becomes the owner of the lock's turnstile, and those who wait lend to it. It takes no memory.
ghost use Rattle.std.specs.Prelude.{◌≡◌, ◌≢◌, ◌<◌, ◌==◌, ⊤, true, Some, [], ◌∷◌, length, IfOk, IfErr};
ghost use Rattle.std.specs.Box.{with_value};
ghost use prog.Atomic.{either};
ghost use Rattle.atomic_table.specs.Table.{Allows};
ghost use Rattle.chain_table.specs.Chains.{head_of};
ghost use Rattle.lock_model.specs.Queues.{lock_queue};
ghost use Rattle.lock_model.specs.Words.{word_of, IsWellFormed, is_free, shows_waiters};
ghost use Rattle.lock_objects.specs.Hops.{CanBeLent, record_claimed, chain_claimed};
ghost use Rattle.lock_state.specs.Steps.{Looks};
ghost use Rattle.floor_table.specs.declared.slot.Slot.TheVariants.{Record, Turnstiles};
ghost use Rattle.floor_table.specs.Places.{spot, lock_line};
ghost use Rattle.floor_table.specs.Rule.{FloorHolds};
ghost use Rattle.floor_table.specs.Steps.{MayMake, Makes};
ghost use Rattle.floor_table.specs.Views.{seeing};
ghost use Rattle.lock_floor.specs.Claims.{MayClaimIt, ClaimsIt};
ghost use Rattle.lock_floor.specs.Passes.{IsOf};
ghost use Rattle.lock_floor.specs.Views.{counts, looked};

use crate::floor::FloorOf;
use crate::pass::Pass;
use floor_table::{Board, Description, FloorSeat, Law, Slot, Tells, View, exchange, lock_spot};
use lock_model::{Held, LockNo, Mode, QueueName};
use std::marker::Brand;

impl FloorOf<Slot, View, Description, Law> {
    /// Gains a free reader-writer lock exclusively whose word shows waiters, for a try or for a blocking call, where
    /// its word is still the one that was seen: the thread owns the lock's turnstile then, and is lent the best
    /// priority of those who wait there. It took the lock's chain, and then its own record. `Err` has the word that
    /// stands there else, since a reader may gain such a lock without its chain, and then the call was a look. It is
    /// one atomic step, and never waits.
    pub fn claim(&self, pass: &mut Pass, l: LockNo, by_try: bool, seen: u64) -> Result<(), u64>
        requires own { IsOf self.now pass.old }
        requires lock { l.0 < length self.now.description.locks }
        requires room { length pass.old.view.share.held < 8 }
        requires word { IsWellFormed (word_of seen) }
        requires free { is_free (word_of seen).holder ≡ true }
        requires shown { shows_waiters (word_of seen) ≡ true }
        requires may { MayClaimIt self.now.description l.0 by_try (word_of seen) pass.old.view }
        requires may_look { MayMake self.now.description pass.old.view (λ s. ⊤)
            (Looks pass.old.view.thread l.0 (counts pass.old.view l.0) ∷ []) }
        ensures own { IsOf self.now pass.new }
        ensures claims { IfOk result (λ _. ClaimsIt self.now.description l by_try
            pass.old.view pass.new.view) }
        ensures found { IfErr result (λ found. (found ≢ seen) × IsWellFormed (word_of found)) }
        ensures looked { IfErr result (λ found. pass.new.view
            ≡ seeing pass.new.view.seen (looked pass.old.view l.0 (word_of found))) }
        ensures look { IfErr result (λ found. Makes self.now.description
            (Looks pass.old.view.thread l.0 (counts pass.old.view l.0) ∷ [])
            pass.old.view pass.new.view) }
    {
        let new = lock_words::claimed(seen, pass.who);
        let found = claim_word::<Brand>(&self.board, &mut pass.seat, l, by_try, seen, new);
        if found != seen {
            return Err(found);
        }
        let chain = self.chain_slot(QueueName::Lock(l));
        let own = usize::from(pass.who.0);
        own_it(&self.board, &mut pass.seat, own, chain, l);
        pass.held.push_reserved(Held {
            l,
            mode: Mode::Excl,
            by_try,
        });
        Ok(())
    }
}

// Makes a word that is the seen one that of the thread that claims it. Answers the word that it found.
fn claim_word<J: Tells>(
    board: &Board,
    seat: &mut FloorSeat,
    l: LockNo,
    _by_try: bool,
    seen: u64,
    new: u64,
) -> u64
    requires own { seat.old.table_id ≡ board.now.shared.table_id }
    requires within { spot (lock_line l.0) < board.now.shared.table_id.words }
    requires may { Allows (FloorHolds board.now.shared.key) board.now.shared.table_id.slots
        seat.old.id seat.old.me (spot (lock_line l.0)) (λ n. either (n == seen) new n)
        (J.told seat.old.me) }
    ensures own { seat.new.table_id ≡ seat.old.table_id }
    ensures told { J.told seat.old.me result seat.new.me }
{
    exchange::<J>(board, seat, lock_spot(l), seen, new)
}

// Owns the turnstile that a lock has in the chain, which lies behind the own record in what the seat has out.
fn own_it(board: &Board, seat: &mut FloorSeat, own: usize, at: usize, l: LockNo)
    requires own { seat.old.table_id ≡ board.now.shared.table_id }
    requires out { (b : _) × (chain : _) × (h : _)
        × (seat.old.me.1 ≡ (own, Record b) ∷ (at, Turnstiles chain) ∷ [])
        × (head_of (lock_queue l.0) chain ≡ Some h) × CanBeLent l.0 b.value h }
    ensures own { seat.new.table_id ≡ seat.old.table_id }
    ensures view { seat.new.me.0 ≡ seat.old.me.0 }
    ensures out { (b : _) (chain : _) (h : _) → head_of (lock_queue l.0) chain ≡ Some h
        → seat.old.me.1 ≡ (own, Record b) ∷ (at, Turnstiles chain) ∷ []
        → seat.new.me.1 ≡ (own, Record (with_value b (record_claimed l.0 h b.value)))
        ∷ (at, Turnstiles (chain_claimed l.0 b.value.thread h chain)) ∷ [] }
{
    let mut first = board.shared.exchange(seat, own, Slot::Cell(None));
    seat.turn();
    let Slot::Record(rec) = &mut first else {
        unreachable!()
    };
    let Slot::Turnstiles(chain) = seat.slot_mut(&board.shared, at) else {
        unreachable!()
    };
    lock_objects::claim(chain, rec, l);
    seat.turn();
    board.shared.exchange(seat, own, first);
}
