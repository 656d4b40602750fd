//! The law of a history, in the words of its entries: each run of a proper plan keeps it, whatever turns its threads
//! have had.

ghost use Rattle.std.specs.Prelude.{ℕ, ◌<◌, true, false, List, length};
ghost use Rattle.std.specs.List.{All};
ghost use Rattle.lock_model.specs.Operations.{IsProper};
ghost use Rattle.lock_model.specs.Legal.{IsLegal};
ghost use Rattle.lock_model.specs.declared.plan.Plan as plans;
ghost use Rattle.lock_state.specs.Run.{after_turns, course_after, ending_of, is_cut_short};
ghost use Rattle.lock_state.specs.Run.{HasLegalHistory, scheduled_run};

/// The history behind a list of turns is legal: each thread's entries follow its operations as far as they have come,
pub fn runs_are_legal()
    ensures { (plan : plans.Plan) (turns : List ℕ) → IsProper plan
        → All (λ t. t < length plan.threads) turns
        → IsLegal plan false true (after_turns plan turns).state.history }
{}

/// and that of the scheduled run behind each number of turns, where they are whole unless it ended stuck or too long.
pub fn courses_are_legal()
    ensures { (plan : plans.Plan) (n : ℕ) → IsProper plan
        → IsLegal plan false (is_cut_short (ending_of plan (course_after plan n)))
        (course_after plan n).run.state.history }
{}

/// So is the history that is printed, which begins with the oldest entry.
pub fn outcomes_are_legal()
    ensures { (plan : plans.Plan) (chains turns : ℕ) → IsProper plan
        → HasLegalHistory plan (scheduled_run plan chains turns) }
{}
