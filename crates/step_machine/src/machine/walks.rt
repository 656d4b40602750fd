//! The hops of a lending walk.
ghost use Rattle.std.specs.Prelude.{◌≡◌, ℕ, is_some};
ghost use Rattle.lock_model.specs.Queues.{lock_queue, names_turnstile};
ghost use Rattle.lock_state.specs.Steps.{Lends, Shifts, EndsWalk};
ghost use Rattle.lock_state.specs.Steps.Lending.{MayLend, MayShift, MayEndWalk};
ghost use Rattle.step_machine.specs.Steps.{May, Makes, MakesWhere, KeepsProgress, KeepsBooks};

use super::Machine;
use lock_model::{LockNo, ThreadNo};
use lock_objects::{lend_to_owner, sort_anew};
use prio_lending::Walk;

impl Machine {
    /// The thread's walk stands at a lock, whose turnstile has that owner: the owner is lent the best priority of those
    /// who wait. Whether the owner stands on a turnstile itself, `on_turnstile` tells.
    pub fn lend_to(&mut self, t: ThreadNo, l: LockNo, owner: ThreadNo, on_turnstile: bool)
        requires may { May self.old (λ c s. (h : ℕ) × MayLend c s t.0 l.0 owner.0 h) }
        ensures step { (h : ℕ) → MakesWhere
            (λ c s. on_turnstile ≡ names_turnstile c (s.blocked_on owner.0))
            self.old self.new (Lends t.0 l.0 owner.0 h) }
        ensures progress { KeepsProgress self.old self.new }
        ensures books { KeepsBooks self.old self.new }
    {
        let lent = &mut self.threads[usize::from(owner.0)];
        let walk = lend_to_owner(&mut self.chain, &mut lent.record, l, on_turnstile);
        self.threads[usize::from(t.0)].walk = walk;
    }

    /// The thread's walk stands at a thread that waits for a lock: that one is sorted anew among those who wait.
    /// Whether the turnstile has an owner, `owned` tells.
    pub fn sort_anew(&mut self, t: ThreadNo, o: ThreadNo, l: LockNo, owned: bool)
        requires may { May self.old (λ c s. MayShift c s t.0 o.0 l.0
            × (owned ≡ is_some (s.owner (lock_queue l.0)))) }
        ensures step { Makes self.old self.new (Shifts t.0 o.0 l.0) }
        ensures progress { KeepsProgress self.old self.new }
        ensures books { KeepsBooks self.old self.new }
    {
        let sorted = &self.threads[usize::from(o.0)];
        let walk = sort_anew(&mut self.chain, &sorted.record, l, owned);
        self.threads[usize::from(t.0)].walk = walk;
    }

    /// The thread's walk has nothing to do where it stands, and ends.
    pub fn end_walk(&mut self, t: ThreadNo)
        requires may { May self.old (λ c s. MayEndWalk c s t.0) }
        ensures step { Makes self.old self.new (EndsWalk t.0) }
        ensures progress { KeepsProgress self.old self.new }
        ensures books { KeepsBooks self.old self.new }
    {
        self.threads[usize::from(t.0)].walk = Walk::None;
    }
}
