//! How a call begins its acquiring round where it gains at once, as the compare and exchange at the head of
//! `__mtx_lock_flags` in FreeBSD's kern_mutex.c does: the round begins and ends in the one atomic step of the exchange.
//! A first look begins one by `seek`. Each is one atomic step, never waits and takes no memory.
ghost use Rattle.std.specs.Prelude.{ℕ, ◌≡◌, ◌≢◌, ◌<◌, ⊤, true, false, [], ◌∷◌, length, IfOk, IfErr};
ghost use Rattle.lock_model.specs.Words.{word_of, IsWellFormed};
ghost use Rattle.lock_words.specs.Views.{MayGain};
ghost use Rattle.lock_state.specs.Steps.{Seeks, Looks, Gains};
ghost use Rattle.floor_table.specs.Steps.{MayMake, Makes};
ghost use Rattle.floor_table.specs.Views.{seeing};
ghost use Rattle.lock_floor.specs.Passes.{IsOf};
ghost use Rattle.lock_floor.specs.Rounds.{gained_first};
ghost use Rattle.lock_floor.specs.Views.{counts, looked, sought};

use crate::floor::FloorOf;
use crate::pass::Pass;
use crate::steps::gain_word;
use floor_table::{Description, Law, Slot, View};
use lock_model::{Held, LockNo, Mode};
use std::marker::Brand;

impl FloorOf<Slot, View, Description, Law> {
    /// Gains a lock by the first exchange of a blocking call, where its word is still the one that was seen. `Err` has
    /// the word that stands there else, and then the call was a look, before which no round began.
    pub fn gain_first(&self, pass: &mut Pass, l: LockNo, mode: Mode, seen: u64) -> Result<(), u64>
        requires own { IsOf self.now pass.old }
        requires lock { l.0 < length self.now.description.locks }
        requires room { length pass.old.view.share.held < 8 }
        requires word { IsWellFormed (word_of seen) }
        requires fits { MayGain (word_of seen).holder mode }
        requires may { MayMake self.now.description pass.old.view (λ s. s.word l.0 ≡ word_of seen)
            (Seeks pass.old.view.thread l.0 false ∷ Gains pass.old.view.thread l.0 mode false
            ∷ []) }
        requires may_look { MayMake self.now.description pass.old.view (λ s. ⊤)
            (Looks pass.old.view.thread l.0 (counts pass.old.view l.0) ∷ []) }
        ensures own { IsOf self.now pass.new }
        ensures view { IfOk result (λ _. pass.new.view ≡ seeing pass.new.view.seen
            (gained_first pass.old.view (record { l = l; mode = mode; by_try = false }))) }
        ensures steps { IfOk result (λ _. Makes self.now.description
            (Seeks pass.old.view.thread l.0 false ∷ Gains pass.old.view.thread l.0 mode false ∷ [])
            pass.old.view pass.new.view) }
        ensures found { IfErr result (λ found. (found ≢ seen) × IsWellFormed (word_of found)) }
        ensures looked { IfErr result (λ found. pass.new.view
            ≡ seeing pass.new.view.seen (looked pass.old.view l.0 (word_of found))) }
        ensures look { IfErr result (λ found. Makes self.now.description
            (Looks pass.old.view.thread l.0 (counts pass.old.view l.0) ∷ [])
            pass.old.view pass.new.view) }
    {
        let hold = Held {
            l,
            mode,
            by_try: false,
        };
        let found = gain_word::<Brand>(&self.board, &mut pass.seat, pass.who, hold, seen);
        if found != seen {
            return Err(found);
        }
        pass.held.push_reserved(hold);
        Ok(())
    }

    /// Begins an acquiring round of a lock, for a try or for a blocking call, by an exchange that gains the lock where
    /// its word is still the one that was seen. `Err` has the word that stands there else, and then the call was the
    /// first look of the round.
    pub fn seek_gain(&self, pass: &mut Pass, hold: Held, seen: u64) -> Result<(), u64>
        requires own { IsOf self.now pass.old }
        requires lock { hold.l.0 < length self.now.description.locks }
        requires room { length pass.old.view.share.held < 8 }
        requires word { IsWellFormed (word_of seen) }
        requires fits { MayGain (word_of seen).holder hold.mode }
        requires may { MayMake self.now.description pass.old.view
            (λ s. s.word hold.l.0 ≡ word_of seen)
            (Seeks pass.old.view.thread hold.l.0 hold.by_try
            ∷ Gains pass.old.view.thread hold.l.0 hold.mode hold.by_try ∷ []) }
        requires may_look { MayMake self.now.description pass.old.view (λ s. ⊤)
            (Seeks pass.old.view.thread hold.l.0 hold.by_try
            ∷ Looks pass.old.view.thread hold.l.0 true ∷ []) }
        ensures own { IsOf self.now pass.new }
        ensures view { IfOk result (λ _. pass.new.view
            ≡ seeing pass.new.view.seen (gained_first pass.old.view hold)) }
        ensures steps { IfOk result (λ _. Makes self.now.description
            (Seeks pass.old.view.thread hold.l.0 hold.by_try
            ∷ Gains pass.old.view.thread hold.l.0 hold.mode hold.by_try ∷ [])
            pass.old.view pass.new.view) }
        ensures found { IfErr result (λ found. (found ≢ seen) × IsWellFormed (word_of found)) }
        ensures looked { IfErr result (λ found. pass.new.view ≡ seeing pass.new.view.seen
            (looked (sought pass.old.view hold.l.0 hold.by_try) hold.l.0 (word_of found))) }
        ensures looks { IfErr result (λ found. Makes self.now.description
            (Seeks pass.old.view.thread hold.l.0 hold.by_try
            ∷ Looks pass.old.view.thread hold.l.0 true ∷ [])
            pass.old.view pass.new.view) }
    {
        let found = gain_word::<Brand>(&self.board, &mut pass.seat, pass.who, hold, seen);
        if found != seen {
            return Err(found);
        }
        pass.held.push_reserved(hold);
        Ok(())
    }
}
