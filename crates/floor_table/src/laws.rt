//! What follows from the definitions alone.
ghost use Rattle.std.specs.Prelude.{◌≡◌, ℕ, ◌≤◌, ◌<◌, ◌↔◌, List, [], length, Option, IsTrue, IsSome, Some, None, true, false};
ghost use Rattle.std.specs.List.{Contains};
ghost use Rattle.count_laws.specs.Standing.{StandsOnQueue};
ghost use Rattle.lock_model.specs.Halts.{HaltsAreHonest};
ghost use Rattle.lock_model.specs.Keys.{plan_names};
ghost use Rattle.lock_model.specs.Operations.{IsProper};
ghost use Rattle.lock_model.specs.Plans.{config_of, operations_of};
ghost use Rattle.lock_model.specs.Queues.{lock_queue};
ghost use Rattle.lock_model.specs.declared.plan.Plan.{Plan};
ghost use Rattle.lock_model.specs.declared.plan.QueueName.{QueueName};
ghost use Rattle.lock_state.specs.Best.{best_behind, HasCycle, NobodyWalks};
ghost use Rattle.lock_state.specs.State.{State, Wait, SleepHalted, is_finder};
ghost use Rattle.lock_state.specs.Steps.{Step};
ghost use Rattle.lock_state.specs.Steps.Items.{TurnstileChain, SleepChain, item_with};
ghost use Rattle.floor_table.specs.Descriptions.{config_in, room_for, IsSized, room_of, description_of};
ghost use Rattle.floor_table.specs.Represents.{words_in, Objects, objects_in, state_from, wait_number, IsPosed, StandsIn, RepresentsTurnstiles, RepresentsSleepChain};
ghost use Rattle.floor_table.specs.Shares.{share_in};
ghost use Rattle.floor_table.specs.Steps.{Fits, IsSound};
ghost use Rattle.floor_table.specs.Views.{Pose, Knowledge, is_off_queues};
ghost use Rattle.floor_table.specs.declared.description.Description.{Description};
ghost use Rattle.sleep_queues.specs.Seen.{SleepQueue};
ghost use Rattle.turnstile_core.specs.Seen.{Turnstile};

/// What a plan gives says of threads, locks and channels what the plan says, and fits a floor's table where the plan is
/// proper; a thread has room for two entries for each of its operations; and the keys are those that operations name.
pub fn plans_give_descriptions()
    ensures config { (plan : Plan) (chains : ℕ)
        → config_in (description_of plan chains) ≡ config_of plan }
    ensures sized { (plan : Plan) (chains : ℕ) → IsProper plan → 1 ≤ chains → chains ≤ 64
        → IsSized (description_of plan chains) }
    ensures room { (plan : Plan) (chains t : ℕ)
        → room_for (description_of plan chains) t ≡ room_of (operations_of plan t) }
    ensures keys { (plan : Plan) (chains l key : ℕ)
        → Contains (description_of plan chains).keys (l, key) ↔ IsTrue (plan_names plan l key) }
{}

/// Each column of a state is one that a floor's table tells, but for the history, of which the logs are the parts, and
/// the moment of the first halt, which the steps tell.
pub fn columns_are_told()
    ensures { (s : State) → state_from (words_in s) (item_with s) (objects_in s) (share_in s)
        s.history s.halted_at ≡ s }
{}

/// Where a seat knows that its thread stands on no queue, the thread's record names none, and its turnstile and its
/// sleep queue are at home.
pub fn poses_tell_of_records()
    ensures nowhere { (floor : Description) (v : Knowledge) (s : State) → Fits floor v s
        → is_off_queues v.pose ≡ true → s.blocked_on v.thread ≡ None }
    ensures turnstile { (floor : Description) (v : Knowledge) (s : State) → Fits floor v s
        → is_off_queues v.pose ≡ true → IsSome (s.turnstile v.thread) }
    ensures sleep_queue { (floor : Description) (v : Knowledge) (s : State) → Fits floor v s
        → is_off_queues v.pose ≡ true → IsSome (s.sleep_queue v.thread) }
{}

/// Where a seat knows that its thread is, and what the thread's wait word says, tell how the thread waits: whether it
/// runs, is Queued, or was woken, off which queue and how.
pub fn waits_are_told()
    ensures { (pose : Pose) (a b : Wait) (on other : Option QueueName) → IsPosed pose a on
        → IsPosed pose b other → wait_number a ≡ wait_number b → a ≡ b }
{}

/// A chain has no name but those of queues that stand in it: where none of these has a head, it is empty.
pub fn chains_have_no_other()
    ensures turnstiles { (floor : Description) (k : ℕ) (chain : List (QueueName × Turnstile))
        (x : Objects) → RepresentsTurnstiles floor k chain x → ((q : QueueName)
        → StandsIn floor (TurnstileChain k) q → (x.queues q).head ≡ None) → chain ≡ [] }
    ensures sleep_queues { (floor : Description) (k : ℕ) (chain : List (QueueName × SleepQueue))
        (x : Objects) → RepresentsSleepChain floor k chain x → ((q : QueueName)
        → StandsIn floor (SleepChain k) q → (x.queues q).head ≡ None) → chain ≡ [] }
{}

/// Between any two steps of a floor's threads no threads wait in a cycle. So where no walk is under way, each thread's
/// effective priority is the best behind it.
pub fn nobody_waits_in_a_cycle()
    ensures cycle { (floor : Description) (past : List Step) (s : State) → IsSound floor past s
        → HasCycle s → ⊥ }
    ensures best { (floor : Description) (past : List Step) (s : State) (t : ℕ)
        → IsSound floor past s → NobodyWalks (config_in floor) s → t < length floor.threads
        → s.effective t ≡ best_behind (config_in floor) s t }
{}

/// Between any two steps of a floor's threads, while a thread is left whose counting out left nobody awake, each thread
/// that hasn't ended stands on a queue: nobody is awake, woken, or in a marked list.
pub fn finders_are_alone()
    ensures { (floor : Description) (past : List Step) (s : State) (f t : ℕ) → IsSound floor past s
        → is_finder (s.phase f) ≡ true → t < length floor.threads → s.has_ended t ≡ false
        → StandsOnQueue s t }
{}

/// And the history keeps the part of the law that speaks of the causes of halts.
pub fn halts_are_honest()
    ensures { (floor : Description) (past : List Step) (s : State) → IsSound floor past s
        → HaltsAreHonest (config_in floor) s.history }
{}

/// Between any two steps of a floor's threads who wants a lock takes it, and who has the halt of a take to note wants
/// none.
pub fn who_wants_a_lock_takes_it()
    ensures wanted { (floor : Description) (past : List Step) (s : State) (t l : ℕ)
        → IsSound floor past s → s.wanted t ≡ Some l → s.taking t ≡ Some l }
    ensures halted { (floor : Description) (past : List Step) (s : State) (t l : ℕ)
        → IsSound floor past s → s.noted t ≡ Some (SleepHalted (lock_queue l)) → s.wanted t ≡ None }
{}
