//! Effective priorities and loans.

ghost use Rattle.std.specs.Prelude.{◌≡◌, ℕ, ◌<◌, ◌≤◌, true, Some};
ghost use Rattle.lock_model.specs.Config.{Config};
ghost use Rattle.lock_state.specs.State.{State, Loan};
ghost use Rattle.lock_model.specs.Holds.{Holds};
ghost use Rattle.lock_model.specs.Words.{is_turnstile};
ghost use Rattle.lock_model.specs.Queues.{lock_queue, waiting};
ghost use Rattle.lock_state.specs.Facts.{Lawful};
ghost use Rattle.lock_state.specs.Best.{best_behind, HasCycle, NobodyWalks};
ghost use Rattle.lock_model.specs.declared.plan.Mode.TheVariants.{Excl};

/// Where no walk is under way and nobody waits in a cycle, each thread's effective priority is the best behind it.
pub fn effective_is_best()
    ensures { (c : Config) (s : State) (t : ℕ) → Lawful c s → NobodyWalks c s → (HasCycle s → ⊥) → t < c.threads → s.effective t ≡ best_behind c s t }
{}

/// A loan is for a mutex or an rw lock that its thread holds exclusively and that has waiters.
pub fn loans_are_for_held_locks()
    ensures { (c : Config) (s : State) (t l : ℕ) (x : Loan) → Lawful c s → s.loan t l ≡ Some x
        → (is_turnstile (c.kind l) ≡ true) × (s.held t l ≡ Holds Excl) × (1 ≤ waiting (s.lists (lock_queue l))) }
{}
