//! The scheduled run: whatever turns a proper plan's threads have had, the state is lawful, and steps reach it.

ghost use Rattle.std.specs.Prelude.{◌≡◌, ◌≢◌, ◌⊎◌, ◌↔◌, ℕ, ◌*◌, ◌<◌, true, false, List, [], length, Some, None};
ghost use Rattle.std.specs.List.{All};
ghost use Rattle.lock_model.specs.Operations.{IsProper, operations_in_all};
ghost use Rattle.lock_model.specs.OrderedPlans.{IsOrdered};
ghost use Rattle.lock_model.specs.Orders.{IsAdmitted};
ghost use Rattle.lock_model.specs.Takes.{has_reversal};
ghost use Rattle.lock_model.specs.Text.{IsStuck, IsReversed};
ghost use Rattle.lock_model.specs.Plans.{config_of, operations_of};
ghost use Rattle.lock_model.specs.Queues.{stands, chan_queue};
ghost use Rattle.lock_state.specs.Best.{best_behind, HasCycle, NobodyWalks};
ghost use Rattle.lock_state.specs.Steps.{MayAll, IsReachable};
ghost use Rattle.lock_state.specs.Steps.Orders.{MayAdmit, classes_held};
ghost use Rattle.lock_state.specs.Run.{Run, start_run, turn_of, run_behind, after_turns, course_after, has_ended, all_ended, was_cut, is_stuck, ending_of, is_cut_short};
ghost use Rattle.lock_model.specs.declared.numbers.LockNo.{LockNo};
ghost use Rattle.lock_model.specs.declared.plan.Mode.{Mode};
ghost use Rattle.lock_model.specs.declared.plan.Plan as plans;
ghost use Rattle.lock_model.specs.declared.plan.QueueName.{QueueName};
ghost use Rattle.lock_model.specs.declared.turn.Turn.TheVariants.{Idle, Ended};
ghost use Rattle.run_laws.specs.OnTrack.{IsOnTrack, IsSleeping, BeginsTake, admitted};

/// A run begins on track.
pub fn runs_begin_on_track()
    ensures { (plan : plans.Plan) → IsProper plan → IsOnTrack plan (start_run (config_of plan)) }
{}

/// In a run on track each step of a thread's turn may be made where it comes,
pub fn turns_may()
    ensures { (plan : plans.Plan) (r : Run) (t : ℕ) → IsProper plan → IsOnTrack plan r
        → t < length plan.threads → MayAll (config_of plan) r.state (turn_of plan r t).steps }
{}

/// and the turn leaves the run on track.
pub fn turns_stay_on_track()
    ensures { (plan : plans.Plan) (r : Run) (t : ℕ) → IsProper plan → IsOnTrack plan r
        → t < length plan.threads → IsOnTrack plan (run_behind plan r t) }
{}

/// So is each run behind a list of turns,
pub fn runs_are_on_track()
    ensures { (plan : plans.Plan) (turns : List ℕ) → IsProper plan
        → All (λ t. t < length plan.threads) turns → IsOnTrack plan (after_turns plan turns) }
{}

/// and the scheduled run behind each number of turns.
pub fn courses_are_on_track()
    ensures { (plan : plans.Plan) (n : ℕ) → IsProper plan
        → IsOnTrack plan (course_after plan n).run }
{}

/// Steps of threads reach each state behind a list of turns,
pub fn runs_are_reachable()
    ensures { (plan : plans.Plan) (turns : List ℕ) → IsProper plan
        → All (λ t. t < length plan.threads) turns
        → IsReachable (config_of plan) (after_turns plan turns).state }
{}

/// and each state of the scheduled run.
pub fn courses_are_reachable()
    ensures { (plan : plans.Plan) (n : ℕ) → IsProper plan
        → IsReachable (config_of plan) (course_after plan n).run.state }
{}

/// A turn is idle exactly where its thread sleeps,
pub fn idle_exactly()
    ensures { (plan : plans.Plan) (r : Run) (t : ℕ) → IsProper plan → IsOnTrack plan r
        → (turn_of plan r t).answer ≡ Idle ↔ IsSleeping plan r t }
{}

/// and is answered Ended exactly where its thread has ended.
pub fn ended_exactly()
    ensures { (plan : plans.Plan) (r : Run) (t : ℕ)
        → (turn_of plan r t).answer ≡ Ended ↔ has_ended plan r t ≡ true }
{}

/// Both change nothing.
pub fn idle_turns_change_nothing()
    ensures { (plan : plans.Plan) (r : Run) (t : ℕ)
        → ((turn_of plan r t).answer ≡ Idle) ⊎ ((turn_of plan r t).answer ≡ Ended)
        → run_behind plan r t ≡ r }
{}

/// Where a whole round was idle, each thread that hasn't ended sleeps, and stands once on a queue.
pub fn stuck_sleeps()
    ensures { (plan : plans.Plan) (n t : ℕ) → IsProper plan → is_stuck (course_after plan n) ≡ true
        → t < length plan.threads → has_ended plan (course_after plan n).run t ≡ false
        → IsSleeping plan (course_after plan n).run t
        × ((q : QueueName) × (stands t ((course_after plan n).run.state.lists q) ≡ 1)) }
{}

/// A turn doesn't end another thread, nor begin it again.
pub fn turns_end_no_other()
    ensures { (plan : plans.Plan) (r : Run) (t u : ℕ) → u ≢ t
        → has_ended plan (run_behind plan r t) u ≡ has_ended plan r u }
{}

/// A wait makes two entries, and every other operation one at most; and a lock that a cut thread gives back was taken
/// by one that made one. So where a thread has an operation left, or was cut and holds a lock, the history is shorter
/// than twice the operations of all threads: there is room for the one entry that the thread's turn may make.
pub fn histories_have_room()
    ensures operation { (plan : plans.Plan) (r : Run) (t : ℕ) → IsProper plan → IsOnTrack plan r
        → t < length plan.threads → was_cut r.state t ≡ false
        → r.next_op t < length (operations_of plan t)
        → length r.state.history < 2 * operations_in_all plan }
    ensures cut { (plan : plans.Plan) (r : Run) (t : ℕ) → IsProper plan → IsOnTrack plan r
        → t < length plan.threads → was_cut r.state t ≡ true → r.state.held_locks t ≢ []
        → length r.state.history < 2 * operations_in_all plan }
{}

/// Where the lock of a take is admitted in its first turn, that may be, and leaves the run on track; from there the
/// turn goes on as each later one.
pub fn admissions_stay_on_track()
    ensures may { (plan : plans.Plan) (r : Run) (t : ℕ) (l : LockNo) (mode : Mode)
        → IsProper plan → IsOnTrack plan r → t < length plan.threads → BeginsTake plan r t l mode
        → IsAdmitted r.state.edges (classes_held (config_of plan) r.state t)
        ((config_of plan).class l.0)
        → MayAdmit (config_of plan) r.state t l.0 }
    ensures on_track { (plan : plans.Plan) (r : Run) (t : ℕ) (l : LockNo) (mode : Mode)
        → IsProper plan → IsOnTrack plan r → t < length plan.threads → BeginsTake plan r t l mode
        → IsAdmitted r.state.edges (classes_held (config_of plan) r.state t)
        ((config_of plan).class l.0)
        → IsOnTrack plan (admitted plan r t l) }
{}

/// A run on track has no cycle of waiting threads,
pub fn runs_have_no_cycle()
    ensures { (plan : plans.Plan) (r : Run) → IsOnTrack plan r → HasCycle r.state → ⊥ }
{}

/// and so where no walk is under way each thread's effective priority is the best behind it.
pub fn runs_have_best()
    ensures { (plan : plans.Plan) (r : Run) (t : ℕ) → IsOnTrack plan r
        → NobodyWalks (config_of plan) r.state → t < length plan.threads
        → r.state.effective t ≡ best_behind (config_of plan) r.state t }
{}

/// So a run is never stuck on locks alone: where a whole round was idle and a thread hasn't ended, some thread sleeps
/// on a channel.
pub fn stuck_runs_sleep_on_channels()
    ensures { (plan : plans.Plan) (n t : ℕ) → IsProper plan → is_stuck (course_after plan n) ≡ true
        → t < length plan.threads → has_ended plan (course_after plan n).run t ≡ false
        → (u : ℕ) × ((d : ℕ) × ((u < length plan.threads)
        × (0 < stands u ((course_after plan n).run.state.lists (chan_queue d))))) }
{}

/// No take of an ordered plan is refused, and its run is never stuck.
pub fn ordered_plans_are_never_stopped()
    ensures unrefused { (plan : plans.Plan) (n : ℕ) → IsProper plan → IsOrdered plan
        → has_reversal (course_after plan n).run.state.history ≡ false }
    ensures not_stuck { (plan : plans.Plan) (n : ℕ) → IsProper plan → IsOrdered plan
        → ending_of plan (course_after plan n) ≢ IsStuck }
    ensures not_reversed { (plan : plans.Plan) (n : ℕ) → IsProper plan → IsOrdered plan
        → ending_of plan (course_after plan n) ≢ IsReversed }
{}

/// A run ends Stuck exactly where a whole round was idle, and is cut short exactly where some thread hasn't ended.
pub fn endings_are_exact()
    ensures stuck { (plan : plans.Plan) (n : ℕ)
        → ending_of plan (course_after plan n) ≡ IsStuck ↔ is_stuck (course_after plan n) ≡ true }
    ensures whole { (plan : plans.Plan) (n : ℕ)
        → is_cut_short (ending_of plan (course_after plan n)) ≡ false
        ↔ all_ended plan (course_after plan n).run ≡ true }
{}
