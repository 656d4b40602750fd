//! How a thread comes to stand on the sleep queue of an sx lock, and how the last holder of one releases it where
//! waiters are shown, as in `_sx_xlock_hard` and `_sx_xunlock_hard` of FreeBSD's kern_sx.c. They are as those of a
//! lock with a turnstile (`waits`, `opening`), but nothing is lent. Each is one atomic step, never waits and takes no
//! memory.
ghost use Rattle.std.specs.Prelude.{◌≡◌, ◌≢◌, ◌<◌, ⊤, false, [], ◌∷◌, length, IfOk, IfErr};
ghost use Rattle.lock_model.specs.Words.{word_of, IsWellFormed, is_free, is_drop};
ghost use Rattle.lock_model.specs.declared.plan.Kind.TheVariants.{Sx};
ghost use Rattle.lock_state.specs.Steps.{Looks};
ghost use Rattle.floor_table.specs.Descriptions.{config_in};
ghost use Rattle.floor_table.specs.Steps.{MayMake, Makes};
ghost use Rattle.floor_table.specs.Views.{seeing};
ghost use Rattle.lock_floor.specs.Passes.{IsOf};
ghost use Rattle.lock_floor.specs.SleepLocks.{MayEnterAsleep, EntersAsleep, MayOpenSleepers, OpensSleepers};
ghost use Rattle.lock_floor.specs.Views.{counts, looked};

use crate::channels::{lie_down, take_sleepers};
use crate::floor::FloorOf;
use crate::opening::open_word;
use crate::pass::{Pass, leave};
use crate::waits::{enter_word, side_of};
use floor_table::{Description, Law, Slot, View};
use lock_model::{LockNo, Mode, QueueName};
use lock_objects::Marked;
use std::marker::Brand;

impl FloorOf<Slot, View, Description, Law> {
    /// Stands at the tail of a side of an sx lock's sleep queue, where the lock's word is still the one that was seen.
    /// The thread took the chain of the lock's queue, and then its own record: it lends its sleep queue, and its record
    /// names the queue. `Err` has the word that stands there else, and then the call was a look.
    pub fn enter_sleep(&self, pass: &mut Pass, l: LockNo, mode: Mode, seen: u64) -> Result<(), u64>
        requires own { IsOf self.now pass.old }
        requires lock { l.0 < length self.now.description.locks }
        requires word { IsWellFormed (word_of seen) }
        requires held { is_free (word_of seen).holder ≡ false }
        requires kind { (config_in self.now.description).kind l.0 ≡ Sx }
        requires may { MayEnterAsleep self.now.description l.0 mode (word_of seen) pass.old.view }
        requires may_look { MayMake self.now.description pass.old.view (λ s. ⊤)
            (Looks pass.old.view.thread l.0 (counts pass.old.view l.0) ∷ []) }
        ensures own { IsOf self.now pass.new }
        ensures enters { IfOk result (λ _. EntersAsleep self.now.description l.0 mode
            pass.old.view pass.new.view) }
        ensures found { IfErr result (λ found. (found ≢ seen) × IsWellFormed (word_of found)) }
        ensures looked { IfErr result (λ found. pass.new.view
            ≡ seeing pass.new.view.seen (looked pass.old.view l.0 (word_of found))) }
        ensures look { IfErr result (λ found. Makes self.now.description
            (Looks pass.old.view.thread l.0 (counts pass.old.view l.0) ∷ [])
            pass.old.view pass.new.view) }
    {
        let found = enter_word::<Brand>(&self.board, &mut pass.seat, l, mode, seen);
        if found != seen {
            return Err(found);
        }
        let (own, at) = (usize::from(pass.who.0), self.chain_slot(QueueName::Lock(l)));
        lie_down(
            &self.board,
            &mut pass.seat,
            own,
            at,
            QueueName::Lock(l),
            side_of(mode),
        );
        Ok(())
    }

    /// Releases an sx lock, of which the thread is the last holder, where its word is still the one that was seen, and
    /// takes those of a side off its sleep queue: they are in the marked list then. The thread took the lock's chain,
    /// and then its own record. `Err` has the word that stands there else, and then the call was a look.
    pub fn open_sleep(&self, pass: &mut Pass, l: LockNo, seen: u64) -> Result<(), u64>
        requires own { IsOf self.now pass.old }
        requires lock { l.0 < length self.now.description.locks }
        requires word { IsWellFormed (word_of seen) }
        requires held { is_free (word_of seen).holder ≡ false }
        requires opens { is_drop (word_of seen) ≡ false }
        requires kind { (config_in self.now.description).kind l.0 ≡ Sx }
        requires may { MayOpenSleepers self.now.description l.0 (word_of seen) pass.old.view }
        requires may_look { MayMake self.now.description pass.old.view (λ s. ⊤)
            (Looks pass.old.view.thread l.0 (counts pass.old.view l.0) ∷ []) }
        ensures own { IsOf self.now pass.new }
        ensures opens { IfOk result (λ _. OpensSleepers self.now.description l.0 (word_of seen)
            pass.old.view pass.new.view) }
        ensures found { IfErr result (λ found. (found ≢ seen) × IsWellFormed (word_of found)) }
        ensures looked { IfErr result (λ found. pass.new.view
            ≡ seeing pass.new.view.seen (looked pass.old.view l.0 (word_of found))) }
        ensures look { IfErr result (λ found. Makes self.now.description
            (Looks pass.old.view.thread l.0 (counts pass.old.view l.0) ∷ [])
            pass.old.view pass.new.view) }
    {
        let (new, Some(side)) = lock_words::opened(self.kind(l), seen) else {
            unreachable!()
        };
        let found = open_word::<Brand>(&self.board, &mut pass.seat, l, seen, new);
        if found != seen {
            return Err(found);
        }
        let at = self.chain_slot(QueueName::Lock(l));
        // the own record stays as it is: the chain behind it comes first for the work on it
        pass.seat.turn();
        let woken = take_sleepers(
            &self.board,
            &mut pass.seat,
            at,
            QueueName::Lock(l),
            side,
            true,
        );
        pass.seat.turn();
        pass.marked = Marked::Sleepers(woken);
        leave(l, &mut pass.held);
        Ok(())
    }
}
