//! A finder steps alone: so what it found of the other threads is so still at its next step.

ghost use Rattle.std.specs.Prelude.{◌≡◌, ◌≢◌, ◌<◌, ℕ, [], ◌∷◌, length, true};
ghost use Rattle.lock_model.specs.Config.{Config};
ghost use Rattle.lock_state.specs.State.{State, is_finder};
ghost use Rattle.lock_state.specs.Facts.{Counted};
ghost use Rattle.lock_state.specs.Steps.{Step, CountsSelfIn, FitsFloor, maker, after};
ghost use Rattle.floor_table.specs.Steps.{Fits, Makes};
ghost use Rattle.floor_table.specs.Views.{Knowledge};
ghost use Rattle.floor_table.specs.declared.description.Description.{Description};
ghost use Rattle.finder_laws.specs.Left.{HasSeenLeft};

/// While there is a finder, each step of a running floor is its own,
pub fn finders_step_alone()
    ensures { (chains : ℕ) (c : Config) (s : State) (f : ℕ) (step : Step) → Counted c s
        → is_finder (s.phase f) ≡ true → FitsFloor chains c s step → maker step ≡ f }
{}

/// and a step of another thread leaves where a thread is with its counting.
pub fn steps_leave_others_phases()
    ensures { (c : Config) (s : State) (t : ℕ) (step : Step) → maker step ≢ t
        → (after c s step).phase t ≡ s.phase t }
{}

/// So a finder's seat has seen all steps that were made,
pub fn finders_have_seen_all()
    ensures { (floor : Description) (v : Knowledge) (s : State) (fits : Fits floor v s)
        → is_finder v.share.doing.phase ≡ true → fits.past ≡ v.seen }
{}

/// and where it has seen that a thread hasn't ended, that is so when it makes its next step, also once it has counted
/// itself in.
pub fn who_is_left_stays()
    ensures now { (floor : Description) (v : Knowledge) (s : State) → Fits floor v s
        → is_finder v.share.doing.phase ≡ true → HasSeenLeft floor v
        → s.ended < length floor.threads }
    ensures counted { (floor : Description) (v w : Knowledge)
        → is_finder v.share.doing.phase ≡ true → HasSeenLeft floor v
        → Makes floor (CountsSelfIn v.thread ∷ []) v w → HasSeenLeft floor w }
{}
