//! Where turnstiles, loan nodes and waiters are: what those who move the objects need to know.

ghost use Rattle.std.specs.Prelude.{◌≡◌, ◌≢◌, ℕ, ◌<◌, ◌≤◌, true, false, Some, None, List, [], ◌∷◌};
ghost use Rattle.lock_model.specs.Config.{Config};
ghost use Rattle.lock_state.specs.State.{State, Loan};
ghost use Rattle.lock_model.specs.Queues.{Mark, lock_queue, is_turnstile_queue, stands, waiting};
ghost use Rattle.lock_model.specs.Holds.{Holds};
ghost use Rattle.lock_model.specs.Words.{is_turnstile};
ghost use Rattle.lock_state.specs.Facts.{Lawful};
ghost use Rattle.lock_model.specs.declared.plan.Mode.TheVariants.{Excl};
ghost use Rattle.lock_model.specs.declared.plan.QueueName.{QueueName};

/// A turnstile is the head of one lock's queue at most.
pub fn heads_differ()
    ensures { (c : Config) (s : State) (l k h : ℕ) → Lawful c s → l < c.locks → k < c.locks → is_turnstile (c.kind l) ≡ true → is_turnstile (c.kind k) ≡ true
        → s.head (lock_queue l) ≡ Some h → s.head (lock_queue k) ≡ Some h → l ≡ k }
{}

/// A turnstile that is at home is the head of no lock's queue,
pub fn heads_are_lent()
    ensures { (c : Config) (s : State) (t l h : ℕ) → Lawful c s → t < c.threads → l < c.locks → is_turnstile (c.kind l) ≡ true
        → s.turnstile t ≡ Some h → s.head (lock_queue l) ≡ Some h → ⊥ }
{}

/// and has its loan node.
pub fn nodes_are_home()
    ensures { (c : Config) (s : State) (t h : ℕ) → Lawful c s → t < c.threads → s.turnstile t ≡ Some h → s.loan_home h ≡ true }
{}

/// A turnstile that is lent to a lock is lent to one of the plan's.
pub fn heads_are_of_locks()
    ensures { (c : Config) (s : State) (l h : ℕ) → Lawful c s → is_turnstile (c.kind l) ≡ true → s.head (lock_queue l) ≡ Some h → l < c.locks }
{}

/// So is a loan.
pub fn loans_are_for_locks()
    ensures { (c : Config) (s : State) (t l : ℕ) (x : Loan) → Lawful c s → s.loan t l ≡ Some x → l < c.locks }
{}

/// The node of a loan is out.
pub fn loans_are_out()
    ensures { (c : Config) (s : State) (t l : ℕ) (x : Loan) → Lawful c s → s.loan t l ≡ Some x → s.loan_home x.number ≡ false }
{}

/// A head whose owner has no loan from it has its loan node; so has a head without an owner.
pub fn unlent_nodes_are_home()
    ensures owned { (c : Config) (s : State) (l h o : ℕ) → Lawful c s → l < c.locks → is_turnstile (c.kind l) ≡ true
        → s.head (lock_queue l) ≡ Some h → s.owner (lock_queue l) ≡ Some o → s.loan o l ≡ None → s.loan_home h ≡ true }
    ensures unowned { (c : Config) (s : State) (l h : ℕ) → Lawful c s → l < c.locks → is_turnstile (c.kind l) ≡ true
        → s.head (lock_queue l) ≡ Some h → s.owner (lock_queue l) ≡ None → s.loan_home h ≡ true }
{}

/// A thread whose turnstile is at home stands on no lock's queue.
pub fn home_stands_nowhere()
    ensures { (c : Config) (s : State) (t l h : ℕ) → Lawful c s → s.turnstile t ≡ Some h → is_turnstile (c.kind l) ≡ true → stands t (s.lists (lock_queue l)) ≡ 0 }
{}

/// A thread in a marked list is one of the plan's, and its turnstile is out.
pub fn marked_are_out()
    ensures thread { (c : Config) (s : State) (t : ℕ) (m : Mark) (ms : List Mark) → Lawful c s → t < c.threads → s.marked t ≡ m ∷ ms → m.thread < c.threads }
    ensures blocked_on { (c : Config) (s : State) (t : ℕ) (m : Mark) (ms : List Mark) → Lawful c s → t < c.threads → s.marked t ≡ m ∷ ms → s.blocked_on m.thread ≡ Some m.queue }
    ensures turnstile { (c : Config) (s : State) (t : ℕ) (m : Mark) (ms : List Mark) → Lawful c s → t < c.threads → s.marked t ≡ m ∷ ms
        → is_turnstile_queue c m.queue ≡ true → s.turnstile m.thread ≡ None }
{}

/// The owner of a head holds the lock exclusively, and is one of the plan's threads.
pub fn owners_hold()
    ensures holds { (c : Config) (s : State) (l o : ℕ) → Lawful c s → s.owner (lock_queue l) ≡ Some o → s.held o l ≡ Holds Excl }
    ensures thread { (c : Config) (s : State) (l o : ℕ) → Lawful c s → s.owner (lock_queue l) ≡ Some o → o < c.threads }
{}

/// A thread that stands on a lock's queue is one of the plan's.
pub fn only_threads_stand()
    ensures { (c : Config) (s : State) (t l : ℕ) → Lawful c s → 0 < stands t (s.lists (lock_queue l)) → t < c.threads }
{}

/// No more threads wait for a lock than the plan has.
pub fn waiters_are_few()
    ensures { (c : Config) (s : State) (l : ℕ) → Lawful c s → is_turnstile (c.kind l) ≡ true → waiting (s.lists (lock_queue l)) ≤ c.threads }
{}
