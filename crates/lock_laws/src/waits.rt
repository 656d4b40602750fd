//! Where waiting threads stand.

ghost use Rattle.std.specs.Prelude.{◌≡◌, ℕ, ◌≤◌, true, Some};
ghost use Rattle.lock_model.specs.Config.{Config};
ghost use Rattle.lock_state.specs.State.{State, Queued};
ghost use Rattle.lock_model.specs.Words.{shows_waiters};
ghost use Rattle.lock_model.specs.Queues.{lock_queue, stands};
ghost use Rattle.lock_state.specs.Facts.{Lawful};
ghost use Rattle.lock_model.specs.declared.plan.QueueName.{QueueName};

/// A thread stands at most once on a queue.
pub fn stands_at_most_once()
    ensures { (c : Config) (s : State) (t : ℕ) (q : QueueName) → Lawful c s → stands t (s.lists q) ≤ 1 }
{}

/// A thread stands on one queue at most.
pub fn stands_on_one_queue()
    ensures { (c : Config) (s : State) (t : ℕ) (q r : QueueName) → Lawful c s → 1 ≤ stands t (s.lists q) → 1 ≤ stands t (s.lists r) → q ≡ r }
{}

/// A thread that stands on a lock's queue is Queued and wants the lock, and the lock's word shows waiters.
pub fn waiters_are_shown()
    ensures { (c : Config) (s : State) (t l : ℕ) → Lawful c s → 1 ≤ stands t (s.lists (lock_queue l))
        → (s.wait t ≡ Queued) × (s.wanted t ≡ Some l) × (shows_waiters (s.word l) ≡ true) }
{}
