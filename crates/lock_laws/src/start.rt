//! From the start of a plan to each state that a run comes to.

ghost use Rattle.std.specs.Prelude.{List};
ghost use Rattle.lock_model.specs.Config.{Config};
ghost use Rattle.lock_state.specs.State.{State, start_state};
ghost use Rattle.lock_state.specs.Facts.{Lawful};
ghost use Rattle.lock_state.specs.Steps.{Step, MayAll, after_all, IsReachable};

/// The state at the start of a plan is lawful.
pub fn start_is_lawful()
    ensures { (c : Config) → Lawful c (start_state c) }
{}

/// Each state that steps reach from the start is lawful.
pub fn reached_is_lawful()
    ensures { (c : Config) (s : State) → IsReachable c s → Lawful c s }
{}

/// From a reachable state a list of steps that may be made leads to a reachable one.
pub fn steps_reach()
    ensures { (c : Config) (s : State) (steps : List Step)
        → MayAll c s steps → IsReachable c s → IsReachable c (after_all c s steps) }
{}
