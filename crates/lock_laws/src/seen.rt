//! What the words of locks can be, and that a step that changes one leaves its thread with no last look.

ghost use Rattle.std.specs.Prelude.{◌≡◌, ◌≢◌, ◌<◌, ◌≤◌, ℕ, None};
ghost use Rattle.lock_model.specs.Config.{Config};
ghost use Rattle.lock_model.specs.Holds.{NotHeld};
ghost use Rattle.lock_model.specs.Words.{SharedBy};
ghost use Rattle.lock_model.specs.declared.plan.Kind.TheVariants.{Mtx};
ghost use Rattle.lock_model.specs.declared.plan.QueueName.{QueueName};
ghost use Rattle.lock_model.specs.declared.plan.Side.{Side};
ghost use Rattle.lock_state.specs.Facts.{Lawful};
ghost use Rattle.lock_state.specs.State.{State};
ghost use Rattle.lock_state.specs.Steps.{Step, Aborts, May, after, kind_of, IsReachable};
ghost use Rattle.lock_laws.specs.Words.{CanBeSeen};

/// A mutex is never shared.
pub fn mutexes_are_unshared()
    ensures { (c : Config) (s : State) (l n : ℕ)
        → IsReachable c s → c.kind l ≡ Mtx → (s.word l).holder ≢ SharedBy n }
{}

/// Of at most 64 threads one that doesn't hold a lock can see just such words of it: it may share the lock beside those
/// who do.
pub fn words_of_others()
    ensures { (c : Config) (s : State) (t l : ℕ) → IsReachable c s → c.threads ≤ 64 → t < c.threads
        → s.held t l ≡ NotHeld → CanBeSeen (c.kind l) (s.word l) }
{}

/// A step that changes a lock's word leaves its thread with no last look: what a thread saw last is never from before
/// its own change of a word.
pub fn changed_words_leave_no_look()
    ensures { (c : Config) (s : State) (step : Step) (l : ℕ) → Lawful c s → May c s step
        → (after c s step).word l ≢ s.word l
        → (after c s step).last_look (kind_of step).thread ≡ None }
{}

/// An abort that changes no lock's word leaves its thread the last look that it had.
pub fn other_aborts_keep_looks()
    ensures { (c : Config) (s : State) (t u : ℕ) (q : QueueName) (side : Side) → Lawful c s
        → May c s (Aborts t q side u)
        → ((l : ℕ) → (after c s (Aborts t q side u)).word l ≡ s.word l)
        → (after c s (Aborts t q side u)).last_look t ≡ s.last_look t }
{}
