//! The order of locks: takes that are admitted, and takes that are refused.
ghost use Rattle.std.specs.Prelude.{◌≡◌, ℕ, ◌+◌, ◌≤◌, ◌<◌, length};
ghost use Rattle.std.specs.List.{All};
ghost use Rattle.lock_state.specs.Steps.{MayAll, Admits};
ghost use Rattle.lock_state.specs.Steps.Orders.{MayAdmit};
ghost use Rattle.step_machine.specs.Steps.{May, MakesWhere, MakesAllWhere, KeepsProgress, KeepsBooks, AreClasses, refuses};

use super::Machine;
use lock_model::{ClassNo, Event, LockNo, ThreadNo};

impl Machine {
    /// A lock of the class, which no class of those that the thread holds forbids, is admitted behind them: the thread
    /// has it to gain.
    pub fn admit(&mut self, t: ThreadNo, held: &[ClassNo], class: ClassNo)
        requires may { May self.old (λ c s. (l : ℕ)
            × AreClasses c held.now class s t.0 l × MayAdmit c s t.0 l) }
        requires classes { All (λ h. h.0 < self.old.orders.classes) held.now }
        ensures step { (l : ℕ) → MakesWhere (λ c s. AreClasses c held.now class s t.0 l)
            self.old self.new (Admits t.0 l) }
        ensures progress { KeepsProgress self.old self.new }
        ensures books { KeepsBooks self.old self.new }
    {
        self.orders.admit(held, class);
        self.threads[usize::from(t.0)].wants = true;
    }

    /// The lock is refused to the thread, as that class of one that it holds forbids it. It is noted, and the thread is
    /// cut.
    pub fn refuse(&mut self, t: ThreadNo, l: LockNo, held: ClassNo)
        requires may { May self.old (λ c s. MayAll c s (refuses t.0 l held)) }
        requires room { 1 ≤ self.old.log.spare }
        ensures steps { MakesAllWhere (λ c. Unit) self.old self.new (refuses t.0 l held) }
        ensures progress { KeepsProgress self.old self.new }
        ensures places { self.new.tables.places ≡ self.old.tables.places }
        ensures room { length self.new.log.entries + self.new.log.spare
            ≡ length self.old.log.entries + self.old.log.spare }
    {
        self.stamp(t, Event::Reversed { l, held });
    }
}
