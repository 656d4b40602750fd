//! Each kind of step keeps each fact of a lawful state.

ghost use Rattle.std.specs.Prelude.{List};
ghost use Rattle.lock_model.specs.Config.{Config};
ghost use Rattle.lock_state.specs.State.{State};
ghost use Rattle.lock_state.specs.Facts.{Lawful};
ghost use Rattle.lock_state.specs.Steps.{Step, May, MayAll, after, after_all};

/// Each step of a thread, of whatever kind, keeps a state lawful;
pub fn steps_keep()
    ensures { (c : Config) (s : State) (step : Step)
        → May c s step → Lawful c s → Lawful c (after c s step) }
{}

/// and so does each list of steps that may be made, as that of a turn.
pub fn lists_keep()
    ensures { (c : Config) (s : State) (steps : List Step)
        → MayAll c s steps → Lawful c s → Lawful c (after_all c s steps) }
{}
