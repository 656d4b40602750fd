//! Gains, and releases of locks that leave another holder or show no waiters.
ghost use Rattle.std.specs.Prelude.{ℕ, ◌++◌, [], ◌∷◌};
ghost use Rattle.lock_state.specs.Steps.{Gains, Drops, Claims};
ghost use Rattle.lock_state.specs.Steps.LockWords.{MayGain, MayDrop};
ghost use Rattle.lock_state.specs.Steps.Lending.{MayClaim};
ghost use Rattle.lock_model.specs.declared.plan.Mode.TheVariants.{Excl};
ghost use Rattle.step_machine.specs.Steps.{May, Makes, ChangesProgress, KeepsBooks, HoldsFew, with_released};

use super::Machine;
use lock_model::{Held, LockNo, Mode, ThreadNo};
use lock_objects::claim;
use lock_words::{claimed, dropped, gained};

impl Machine {
    /// The thread gains a lock whose word admits the mode, by a try or by a blocking call. For an exclusive gain the
    /// word shows no waiters.
    pub fn gain(&mut self, t: ThreadNo, l: LockNo, mode: Mode, by_try: bool)
        requires may { May self.old (λ c s. MayGain c s t.0 l.0 mode) }
        requires room { HoldsFew self.old t.0 }
        ensures step { Makes self.old self.new (Gains t.0 l.0 mode by_try) }
        ensures progress { ChangesProgress self.old self.new t.0 (λ a.
            record a { held = a.held ++ (record { l = l; mode = mode; by_try = by_try }) ∷ [] }) }
        ensures books { KeepsBooks self.old self.new }
    {
        let i = usize::from(l.0);
        self.words[i] = gained(self.words[i], t, mode);
        self.threads[usize::from(t.0)].pick_up(Held { l, mode, by_try });
    }

    /// The thread gains a free lock exclusively whose word shows waiters: it becomes the owner of their turnstile, and
    /// they lend it their best priority.
    pub fn claim(&mut self, t: ThreadNo, l: LockNo, by_try: bool)
        requires may { May self.old (λ c s. (h : ℕ) × MayClaim c s t.0 l.0 h) }
        requires room { HoldsFew self.old t.0 }
        ensures step { (h : ℕ) → Makes self.old self.new (Claims t.0 l.0 h by_try) }
        ensures progress { ChangesProgress self.old self.new t.0 (λ a.
            record a { held = a.held ++ (record { l = l; mode = Excl; by_try = by_try }) ∷ [] }) }
        ensures books { KeepsBooks self.old self.new }
    {
        let i = usize::from(l.0);
        self.words[i] = claimed(self.words[i], t);
        let thread = &mut self.threads[usize::from(t.0)];
        thread.pick_up(Held {
            l,
            mode: Mode::Excl,
            by_try,
        });
        claim(&mut self.chain, &mut thread.record, l);
    }

    /// The thread releases a lock that it holds in that mode, where another holder stays or the word shows no waiters.
    pub fn drop_lock(&mut self, t: ThreadNo, l: LockNo, mode: Mode)
        requires may { May self.old (λ c s. MayDrop c s t.0 l.0 mode) }
        ensures step { Makes self.old self.new (Drops t.0 l.0 mode) }
        ensures progress { ChangesProgress self.old self.new t.0 (with_released l.0) }
        ensures books { KeepsBooks self.old self.new }
    {
        let i = usize::from(l.0);
        self.words[i] = dropped(self.words[i], mode);
        self.threads[usize::from(t.0)].put_down(l);
    }
}
