//! Scripts and their plans.

ghost use Rattle.std.specs.Prelude.{ℕ, List};
ghost use Rattle.lock_model.specs.Script.{IsAccepted};
ghost use Rattle.lock_model.specs.Script.Canonical.{canonical};
ghost use Rattle.lock_model.specs.Operations.{IsProper};
ghost use Rattle.lock_model.specs.declared.plan.Plan as plans;

/// Each script's plan is proper: the operations of each thread fit what it holds.
pub fn scripts_have_proper_plans()
    ensures { (bytes : List ℕ) (plan : plans.Plan) → IsAccepted bytes plan → IsProper plan }
{}

/// Reading the canonical text of a script's plan gives the plan again.
pub fn canonical_texts_are_read()
    ensures { (bytes : List ℕ) (plan : plans.Plan) → IsAccepted bytes plan
        → IsAccepted (canonical plan) plan }
{}
