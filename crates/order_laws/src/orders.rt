//! Lock orders: the class graph has an edge to each lock that a thread wants from each that it holds, and has no
//! cycle. So no threads wait in one.

ghost use Rattle.std.specs.Prelude.{◌≡◌, ℕ, ◌<◌, List, None};
ghost use Rattle.lock_model.specs.Config.{Config};
ghost use Rattle.lock_model.specs.Takes.{OrdersAreLegal};
ghost use Rattle.lock_state.specs.State.{State, start_state};
ghost use Rattle.lock_state.specs.Facts.{Lawful, Ordered, Taken, WantsFitTakes};
ghost use Rattle.lock_state.specs.Steps.{Step, May, MayAll, FitsFloor, KeepsToOrder, KeepToOrder, after, after_all};
ghost use Rattle.lock_state.specs.Best.{best_behind, HasCycle, NobodyWalks};

/// At the start of a plan the state is ordered,
pub fn orders_begin()
    ensures { (c : Config) → Ordered c (start_state c) }
{}

/// each step that may be made and keeps to the order that was admitted keeps it so,
pub fn steps_keep_order()
    ensures { (c : Config) (s : State) (step : Step)
        → May c s step → KeepsToOrder c s step → Lawful c s → Ordered c s
        → Ordered c (after c s step) }
{}

/// and so does each list of such steps, as that of a turn.
pub fn lists_keep_order()
    ensures { (c : Config) (s : State) (steps : List Step)
        → MayAll c s steps → KeepToOrder c s steps → Lawful c s → Ordered c s
        → Ordered c (after_all c s steps) }
{}

/// In an ordered state no threads wait in a cycle.
pub fn nobody_waits_in_a_cycle()
    ensures { (c : Config) (s : State) → Ordered c s → HasCycle s → ⊥ }
{}

/// So where no walk is under way, each thread's effective priority is the best behind it.
pub fn ordered_effective_is_best()
    ensures { (c : Config) (s : State) (t : ℕ)
        → Lawful c s → Ordered c s → NobodyWalks c s → t < c.threads
        → s.effective t ≡ best_behind c s t }
{}

/// The edges of the class graph are those of takes, noted or in progress. At the start there is none,
pub fn takes_begin()
    ensures { (c : Config) → Taken c (start_state c) }
{}

/// each step that may be made and keeps to the order keeps it so,
pub fn steps_keep_takes()
    ensures { (c : Config) (s : State) (step : Step)
        → May c s step → KeepsToOrder c s step → Lawful c s → Taken c s → Taken c (after c s step) }
{}

/// and so does each list of such steps.
pub fn lists_keep_takes()
    ensures { (c : Config) (s : State) (steps : List Step)
        → MayAll c s steps → KeepToOrder c s steps → Lawful c s → Taken c s
        → Taken c (after_all c s steps) }
{}

/// Where no take is in progress, the takes of the history have no cycle, and each refusal in it is by their edges.
pub fn whole_orders_are_legal()
    ensures { (c : Config) (s : State)
        → Ordered c s → Taken c s → ((t : ℕ) → s.taking t ≡ None)
        → OrdersAreLegal c s.history }
{}

/// On a running floor who wants a lock takes it, and who has the halt of a take to note wants none. So it is at the
/// start,
pub fn wants_begin()
    ensures { (c : Config) → WantsFitTakes (start_state c) }
{}

/// and each step of a running floor that keeps to the order keeps it so.
pub fn steps_keep_wants()
    ensures { (chains : ℕ) (c : Config) (s : State) (step : Step)
        → FitsFloor chains c s step → KeepsToOrder c s step → Lawful c s → Ordered c s
        → WantsFitTakes s → WantsFitTakes (after c s step) }
{}
