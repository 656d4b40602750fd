//! Ordered plans: locks that have a class each, and are taken in the order of their declaration. Threads that make such
//! steps have no take refused, and while one hasn't ended nobody finds that all others wait: so no halt comes.

ghost use Rattle.std.specs.Prelude.{◌≡◌, ℕ, ◌<◌, Option, Some, false, true, slice_get};
ghost use Rattle.lock_model.specs.Config.{Config};
ghost use Rattle.lock_model.specs.Holds.{Holds};
ghost use Rattle.lock_model.specs.Operations.{held_of, hold_in};
ghost use Rattle.lock_model.specs.OrderedPlans.{IsOrdered};
ghost use Rattle.lock_model.specs.Plans.{operations_of, config_of};
ghost use Rattle.lock_model.specs.declared.numbers.LockNo.{LockNo};
ghost use Rattle.lock_model.specs.declared.plan.Mode.{Mode};
ghost use Rattle.lock_model.specs.declared.plan.Op.TheVariants.{Take};
ghost use Rattle.lock_model.specs.declared.plan.Plan as plans;
ghost use Rattle.lock_state.specs.State.{State, start_state, is_finder};
ghost use Rattle.lock_state.specs.Facts.{Lawful, LawfulFloor, Counted, Ordered, Taken, Explained};
ghost use Rattle.lock_state.specs.Facts.Halts.{NobodyIsHalted};
ghost use Rattle.lock_state.specs.Steps.{Step, Refuses, May, FitsFloor, after};
ghost use Rattle.sleep_laws.specs.Sleepers.{SleepersFit};
ghost use Rattle.ordered_plan_laws.specs.Upward.{HaveOwnClasses, IsOfOrderedPlan, IsUpward};

/// The locks of an ordered plan have a class each, and each take is of a lock that is declared behind all that its
/// thread holds there.
pub fn ordered_plans_take_upward()
    ensures classes { (plan : plans.Plan) → IsOrdered plan → HaveOwnClasses (config_of plan) }
    ensures takes { (plan : plans.Plan) (t n k : ℕ) (l : LockNo) (mode held : Mode) → IsOrdered plan
        → slice_get (operations_of plan t) n ≡ Some (Take l mode)
        → hold_in (held_of (operations_of plan t) n) k ≡ Holds held → k < l.0 }
{}

/// At the start nobody has taken a lock,
pub fn ordered_plans_begin()
    ensures { (c : Config) → IsUpward c (start_state c) }
{}

/// each step of a thread of an ordered plan that may be made keeps that takes go upward,
pub fn ordered_steps_keep()
    ensures { (c : Config) (s : State) (step : Step) → HaveOwnClasses c
        → May c s step → IsOfOrderedPlan s step → Lawful c s → IsUpward c s
        → IsUpward c (after c s step) }
{}

/// and none of them is a refusal.
pub fn ordered_steps_refuse_nothing()
    ensures { (c : Config) (s : State) (t l k : ℕ) → HaveOwnClasses c
        → May c s (Refuses t l k) → IsOfOrderedPlan s (Refuses t l k) → Lawful c s → IsUpward c s
        → ⊥ }
{}

/// A thread whose counting out leaves nobody awake is the last of all: each has ended.
pub fn ordered_finders_are_last()
    ensures { (at_work : ℕ → Option ℕ) (c : Config) (s : State) (f t : ℕ) → HaveOwnClasses c
        → LawfulFloor c s → Counted c s → Ordered c s → Taken c s → SleepersFit at_work c s
        → Explained c s → IsUpward c s
        → is_finder (s.phase f) ≡ true → t < c.threads → s.has_ended t ≡ true }
{}

/// So no step of a running floor sets the halt word,
pub fn ordered_steps_halt_nobody()
    ensures { (at_work : ℕ → Option ℕ) (chains : ℕ) (c : Config) (s : State) (step : Step)
        → HaveOwnClasses c
        → LawfulFloor c s → Counted c s → Ordered c s → Taken c s → SleepersFit at_work c s
        → Explained c s → IsUpward c s → FitsFloor chains c s step
        → s.halted ≡ false → (after c s step).halted ≡ false }
{}

/// and no entry of the history is that of a halt.
pub fn ordered_histories_have_no_halt()
    ensures { (c : Config) (s : State)
        → Explained c s → s.halted ≡ false → NobodyIsHalted c s.history }
{}
