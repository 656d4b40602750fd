//! Histories of ordered plans: where each thread's entries follow its operations, and takes, refusals and halts are as
//! the law of a history says, no take is refused and nobody is halted.

ghost use Rattle.std.specs.Prelude.{◌≡◌, List, false, true};
ghost use Rattle.std.specs.List.{list_any};
ghost use Rattle.lock_model.specs.Law.{is_halt};
ghost use Rattle.lock_model.specs.Legal.{IsLegal};
ghost use Rattle.lock_model.specs.Operations.{IsProper};
ghost use Rattle.lock_model.specs.OrderedPlans.{IsOrdered};
ghost use Rattle.lock_model.specs.Takes.{has_reversal};
ghost use Rattle.lock_model.specs.declared.event.Entry.{Entry};
ghost use Rattle.lock_model.specs.declared.plan.Plan as plans;

/// No take of a legal history of an ordered plan's threads is refused,
pub fn legal_histories_have_no_refusal()
    ensures { (plan : plans.Plan) (history : List Entry) → IsProper plan → IsOrdered plan
        → IsLegal plan true false history → has_reversal history ≡ false }
{}

/// and nobody is halted.
pub fn legal_histories_have_no_halt()
    ensures { (plan : plans.Plan) (history : List Entry) → IsProper plan → IsOrdered plan
        → IsLegal plan true false history → list_any (λ e. is_halt e.event) history ≡ false }
{}
